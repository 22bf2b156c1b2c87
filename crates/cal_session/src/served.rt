//! What is told of a session.

use cal_base::List;
use http_wire::WireFault;

/// A request that was answered.
#[derive(Clone, Copy)]
pub struct Served {
    /// How many entries the journal had. The reply is that of the state to which they lead.
    pub at: u64,
    /// When the request was whole, in seconds since 1970.
    pub moment: i64,
    /// The status of the reply.
    pub status: u16,
}

/// How a session ended.
#[derive(Clone, Copy)]
pub enum How {
    /// The octets ended between two requests, or a request asked to close and was answered.
    Closed,
    /// The octets ended elsewhere.
    CutInRequest,
    /// The last request that a connection has was answered.
    Limit,
    /// The octets went wrong, and the reply to that was written.
    WireRefused(WireFault),
    /// A read failed.
    ReadFault,
    /// A write failed, and not all was written.
    WriteFault,
    /// There was no memory.
    NoMemory,
}

/// A session that ended.
#[derive(Drop)]
pub struct Ended {
    pub how: How,
    /// The requests that were answered, in order.
    pub turns: List<Served>,
}

/// A session that ended, or whose desk broke, with the desk's fault and the requests answered before.
#[derive(Drop)]
pub enum OnEnd<X> {
    Ended(Ended),
    Broken(X, List<Served>),
}
