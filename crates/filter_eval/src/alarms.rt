//! Which components are alarms with a TRIGGER (RFC 5545, 3.6.6).

ghost use Rattle.std.specs.Prelude.{◌≡◌};
ghost use Rattle.std.specs.List.{list_any};
ghost use Rattle.cal_model.specs.Filters.ComponentRanges as ranges;
ghost use Rattle.cal_model.specs.Objects.ComponentLines.{has_name};

use crate::components::line_is;
use cal_base::{Line, Node};
use ical_values::is_alarm;

/// Whether some line has a name.
fn has_line(lines: &[Line], name: &[u8]) -> bool
    ensures { result ≡ list_any (has_name name.now) lines.now }
{
    lines.iter().any(|line| line_is(line, name))
}

/// Whether a component is a VALARM with a TRIGGER.
pub fn has_trigger(node: &Node) -> bool
    ensures { result ≡ ranges.has_trigger node.now }
{
    is_alarm(node) && has_line(node.lines.as_slice(), b"TRIGGER")
}
