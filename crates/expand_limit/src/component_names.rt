//! Names of components and lines.
ghost use Rattle.std.specs.Prelude.{◌≡◌, ◌||◌, bytes_eq, codes, is_some};
ghost use Rattle.cal_model.specs.Objects.ComponentLines as spec;
ghost use Rattle.cal_model.specs.Selections.Expansion.{is_of_recurrence, is_of_four_kinds};

use cal_base::{Line, Name, Node};

/// Whether a name is this one.
pub fn is_named(name: &Name, other: &[u8]) -> bool
    ensures { result ≡ bytes_eq name.now other.now }
{
    name.as_slice() == other
}

/// Whether a line is one of recurrence: RRULE, RDATE or EXDATE.
pub fn is_of_recurrence(line: &Line) -> bool
    ensures { result ≡ is_of_recurrence line.now }
{
    is_named(&line.name, b"RRULE")
        || is_named(&line.name, b"RDATE")
        || is_named(&line.name, b"EXDATE")
}

/// Whether a component is a VTIMEZONE.
pub fn is_time_zone(node: &Node) -> bool
    ensures { result ≡ bytes_eq (spec.name_of node.now) (codes "VTIMEZONE") }
{
    is_named(&node.name, b"VTIMEZONE")
}

/// Whether the name of a kind is that of a component.
fn has_kind(node: &Node, kind: &[u8]) -> bool
    ensures { result ≡ bytes_eq kind.now (spec.name_of node.now) }
{
    kind == node.name.as_slice()
}

/// Whether a component is of one of the four kinds that a calendar stores.
pub fn is_of_four_kinds(node: &Node) -> bool
    ensures { result ≡ is_of_four_kinds node.now }
{
    has_kind(node, b"VEVENT")
        || has_kind(node, b"VTODO")
        || has_kind(node, b"VJOURNAL")
        || has_kind(node, b"VFREEBUSY")
}
