//! Content lines and the component trees that they make up (RFC 5545, 3.1 and 3.4).

use crate::list::{List, Octets};
use crate::text::Name;

/// A parameter of a line with its values in order. Quotes are no part of a value.
#[derive(Drop, PartialEq)]
pub struct Param {
    /// The name, in upper case.
    pub name: Name,
    /// One or more values.
    pub values: List<Octets>,
}

/// A content line.
#[derive(Drop, PartialEq)]
pub struct Line {
    /// The name, in upper case.
    pub name: Name,
    /// The parameters in order.
    pub params: List<Param>,
    /// What stands behind the colon.
    pub value: Octets,
    /// The whole unfolded line as it was written, without its end.
    pub raw: Octets,
}

/// A component: its lines and its child components, each in order. How the two are mixed in the
/// text is not kept.
#[derive(Drop)]
pub struct Node {
    /// The name behind BEGIN and END, in upper case.
    pub name: Name,
    /// Its own lines, without BEGIN and END.
    pub lines: List<Line>,
    /// The components in it.
    pub children: List<Node>,
}
