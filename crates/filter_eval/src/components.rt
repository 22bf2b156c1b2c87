//! Components and lines by their names.

ghost use Rattle.std.specs.Prelude.{◌≡◌, bytes_eq};
ghost use Rattle.std.specs.List.{list_any};
ghost use Rattle.cal_model.specs.Objects.ComponentLines as spec;

use cal_base::{Line, Name, Node};

/// Whether a name is this one.
pub fn is_named(name: &Name, other: &[u8]) -> bool
    ensures { result ≡ bytes_eq name.now other.now }
{
    name.as_slice() == other
}

/// Whether a component has a name.
pub fn node_is_named(node: &Node, name: &Name) -> bool
    ensures { result ≡ spec.is_named name.now node.now }
{
    node.name.as_slice() == name.as_slice()
}

/// Whether some component has a name.
pub fn has_node(nodes: &[Node], name: &Name) -> bool
    ensures { result ≡ list_any (spec.is_named name.now) nodes.now }
{
    nodes.iter().any(|node| node_is_named(node, name))
}

/// Whether a line has this name.
pub fn line_is(line: &Line, name: &[u8]) -> bool
    ensures { result ≡ spec.has_name name.now line.now }
{
    is_named(&line.name, name)
}

/// Whether a line has a name.
pub fn line_is_named(line: &Line, name: &Name) -> bool
    ensures { result ≡ spec.has_name name.now line.now }
{
    line.name.as_slice() == name.as_slice()
}
