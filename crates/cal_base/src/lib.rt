//! The base that every other crate stands on.
//!
//! It is given nothing. It gives the types that contracts see as plain data (lists, texts, an
//! ordered map, shared values, content lines, component trees, XML elements), the counter of steps,
//! and what lies outside a program as traits (streams, files, clocks, doors, gates), each with an
//! implementation in memory and an adapter over the real thing. Its `specs/` define content lines,
//! component trees and XML bodies.
#![tactic(auto)]

pub mod arc;
pub mod clock;
pub mod copies;
pub(crate) mod counted_stream;
pub mod door;
pub mod element;
pub mod failed;
pub mod failing_calls;
pub mod files;
pub mod letters;
pub mod line;
pub mod list;
pub mod memory_clock;
pub mod memory_door;
pub mod memory_files;
pub mod memory_link;
pub mod memory_sink;
pub mod memory_source;
pub mod name_map;
pub mod no_memory;
pub(crate) mod octet_supply;
pub mod read_whole;
pub mod reserved_list;
pub mod shared;
pub mod shared_list;
pub mod stack;
pub mod std_files;
pub mod std_stream;
pub mod steps;
pub mod stream;
pub mod system_clock;
pub mod tcp;
pub mod text;
pub mod unquoted;
pub mod write_whole;

pub use arc::Arc;
pub use clock::Clock;
pub use copies::{Copies, copy_each};
pub use door::{Door, Gate};
pub use element::{Attr, Element, Item};
pub use failed::Failed;
pub use failing_calls::FailingCalls;
pub use files::{FileFault, Files};
pub use letters::{is_word, raised, raised_all};
pub use line::{Line, Node, Param};
pub use list::{List, Octets};
pub use memory_clock::{FixedClock, SetClock};
pub use memory_door::{MemoryDoor, OpenGate};
pub use memory_files::MemoryFiles;
pub use memory_link::MemoryLink;
pub use memory_sink::MemorySink;
pub use memory_source::MemorySource;
pub use name_map::NameMap;
pub use no_memory::NoMemory;
pub use read_whole::{ReadEnd, read_up_to};
pub use reserved_list::ReservedList;
pub use shared::Shared;
pub use shared_list::SharedList;
pub use stack::Stack;
pub use std_files::StdFiles;
pub use std_stream::{StdSink, StdSource};
pub use steps::Steps;
pub use stream::{Link, Sink, Source};
pub use system_clock::SystemClock;
pub use tcp::{TcpDoor, TcpLink};
pub use text::{Name, Word};
pub use unquoted::{first_unquoted_piece, split_unquoted, without_end_quote};
pub use write_whole::{send_all, write_all};
