//! The octets of a connection: requests out of them, in whatever pieces they come, and replies into
//! them (RFC 9112).
//!
//! Given: the pieces of a stream, and replies. Gives: the requests of the stream one after the other,
//! its first fault where it stands, and the octets of replies. `Wire` keeps the octets that no request
//! was made of yet and where its reading of them stands, so that each octet is looked at a bounded
//! number of times; `write_answer` writes the reply to a request, `write_answer_head` all of it but the
//! content, `write_fault` the reply to a fault; `stream_laws` says that what is read is the standard's
//! grammar and stays what it is. Used by: the sessions of connections and the scripts.
#![tactic(auto)]

mod answers;
mod body;
mod chunk_line;
mod cuts;
mod digits;
mod fields;
mod framing;
mod head;
mod head_search;
mod laws;
mod limits;
mod part;
mod reason;
mod request;
mod response;
mod search;
mod stage;
mod wire;

pub use answers::{
    answer_content, bare_reply, closes_after, write_answer, write_answer_head, write_fault,
};
pub use cal_model::{WireFault, WireRequest};
pub use laws::stream_laws;
pub use limits::REQUEST_LIMIT;
pub use response::write_response;
pub use wire::{Next, Wire};
