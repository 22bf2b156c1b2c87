//! Lines and components by name, and the four kinds that a calendar stores (RFC 5545, 3.4 and 3.6).
ghost use Rattle.std.specs.Prelude.{◌≡◌, bytes_eq};
ghost use Rattle.cal_model.specs.Objects.ComponentLines as spec;

use cal_base::{Line, Name, Node};
use cal_model::Kind;

/// Whether a name is this one, which is in upper case.
pub fn is_name(name: &Name, other: &[u8]) -> bool
    ensures { result ≡ bytes_eq name.now other.now }
{
    name.as_slice() == other
}

/// Whether a line has this name, which is in upper case.
pub fn has_name(line: &Line, name: &[u8]) -> bool
    ensures { result ≡ spec.has_name name.now line.now }
{
    is_name(&line.name, name)
}

/// Whether a component has this name, which is in upper case.
pub fn is_named(node: &Node, name: &[u8]) -> bool
    ensures { result ≡ spec.is_named name.now node.now }
{
    is_name(&node.name, name)
}

/// Whether some line has this name.
pub fn has(lines: &[Line], name: &[u8]) -> bool
    ensures { result ≡ spec.has name.now lines.now }
{
    lines.iter().any(|line| has_name(line, name))
}

/// The kind of a component, if it is one of the four.
pub fn kind_of(node: &Node) -> Option<Kind>
    ensures { result ≡ spec.component_kind node.now }
{
    if is_named(node, b"VEVENT") {
        Some(Kind::Event)
    } else if is_named(node, b"VTODO") {
        Some(Kind::Todo)
    } else if is_named(node, b"VJOURNAL") {
        Some(Kind::Journal)
    } else if is_named(node, b"VFREEBUSY") {
        Some(Kind::FreeBusy)
    } else {
        None
    }
}
