//! Requests as the server acts on them: read, and made sense of.

use crate::path::Path;
use crate::privilege::Grant;
use crate::property::{PropSet, Props};
use crate::reply::Refusal;
use crate::report::ReportRequest;
use cal_base::{List, Octets};

/// The value of If-Match or If-None-Match (RFC 9110, 13.1).
#[derive(Drop)]
pub enum Tags {
    /// `*`.
    Any,
    /// Entity tags without their quotes, in order, each with whether it is weak.
    Listed(List<(bool, Octets)>),
}

/// What a request carries.
#[derive(Drop)]
pub enum Content {
    /// Nothing that counts.
    None,
    /// The octets of a PUT, and whether their Content-Type, where there is one, is a calendar's.
    Put { media_ok: bool, octets: Octets },
    /// The properties that a PROPFIND asks for, and whether its Depth is 1.
    Find(Props, bool),
    /// The settings of a PROPPATCH in order.
    Patch(List<PropSet>),
    /// The settings of a MKCALENDAR in order.
    Make(List<PropSet>),
    /// The grants of an ACL in order.
    Acl(List<Grant>),
    /// What a REPORT asks for.
    Report(ReportRequest),
    /// A body or a field that is refused, with the first refusal.
    Bad(Refusal),
}

/// The methods that are known.
#[derive(Clone, Copy, PartialEq, Eq)]
pub enum Method {
    Options,
    Get,
    Head,
    Put,
    Delete,
    Propfind,
    Proppatch,
    Report,
    Mkcalendar,
    Acl,
}

/// A request.
#[derive(Drop)]
pub struct Request {
    pub method: Method,
    pub path: Path,
    pub if_match: Option<Tags>,
    pub if_none: Option<Tags>,
    /// The length of its body in octets.
    pub size: u32,
    pub content: Content,
}

/// A request as it comes to the server.
#[derive(Drop)]
pub struct Event {
    /// The number of the session or connection that it came on.
    pub session: u64,
    /// The number of the user who sent it.
    pub who: u32,
    /// When its last octet came, in seconds since 1970: 0 to 253402300799.
    pub moment: i64,
    pub request: Request,
}
