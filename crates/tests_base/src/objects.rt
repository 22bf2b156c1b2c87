//! Texts of the outside, read, built and printed.
ghost use Rattle.std.specs.Prelude.{IfOk};
ghost use Rattle.cal_base.specs.Lines.LineGrammar.{IsBuilt};

use crate::wanted::is_text;
use cal_base::Node;
use ical_lines::split_lines;
use ical_objects::{TreeFault, build, print};
use std::alloc::Global;

/// The tree of a short text.
fn read(alloc: Global, text: &[u8]) -> Result<Node, TreeFault>
    ensures { IfOk result IsBuilt }
{
    match split_lines(alloc, text) {
        Ok(lines) if lines.len() < 100 => build(alloc, lines),
        _ => Err(TreeFault::NoMemory),
    }
}

const CALENDAR: &[u8] =
    b"begin:vCalendar\r\nBEGIN:VEVENT\r\nUID:1\r\nEND:vevent\r\nVERSION:2.0\r\nBEGIN;X=1:VTODO\r\nUID:2\r\nEND:VTODO\r\nend:VCALENDAR\r\n";

const PRINTED: &[u8] =
    b"BEGIN:VCALENDAR\r\nVERSION:2.0\r\nBEGIN:VEVENT\r\nUID:1\r\nEND:VEVENT\r\nBEGIN:VTODO\r\nUID:2\r\nEND:VTODO\r\nEND:VCALENDAR\r\n";

/// Whether it is VCALENDAR with one line and two components, the last of them VTODO with its UID.
fn is_the_calendar(node: &Node) -> bool {
    let [_, todo] = node.children.as_slice() else {
        return false;
    };
    let [uid] = todo.lines.as_slice() else {
        return false;
    };
    let named = node.name.as_slice() == b"VCALENDAR".as_slice() && node.lines.len() == 1;
    named
        && todo.name.as_slice() == b"VTODO".as_slice()
        && uid.raw.as_slice() == b"UID:2".as_slice()
}

/// Whether a text is read as that calendar, which is printed with lines before components.
fn is_read_and_printed(alloc: Global, text: &[u8]) -> bool {
    match read(alloc, text) {
        Ok(node) => is_the_calendar(&node) && is_text(print(alloc, &node), PRINTED),
        Err(_) => false,
    }
}

/// Whether a text is refused for this fault.
fn has_fault(alloc: Global, text: &[u8], fault: TreeFault) -> bool {
    match read(alloc, text) {
        Ok(_) => false,
        Err(found) => found == fault,
    }
}

/// What is printed is printed as it is.
#[test]
fn components_are_built_and_printed(rt: HostRuntime) {
    for text in [CALENDAR, PRINTED] {
        assert!(rt; is_read_and_printed(rt.alloc(), text));
    }
}

/// Texts, and the first fault of each.
const FAULTS: &[(&[u8], TreeFault)] = &[
    (b"", TreeFault::Unclosed { line: 0 }),
    (
        b"BEGIN:A\nBEGIN:B\nEND:B\nX:y",
        TreeFault::Unclosed { line: 0 },
    ),
    (b"BEGIN:A\nBEGIN:B\nX:y", TreeFault::Unclosed { line: 1 }),
    (b"X:y\nBEGIN:A\nEND:A", TreeFault::WrongEnd { line: 0 }),
    (
        b"BEGIN:A\nBEGIN:B\nEND:A\nEND:B",
        TreeFault::WrongEnd { line: 2 },
    ),
    (b"BEGIN:A\nEND:a\nX:y", TreeFault::WrongEnd { line: 2 }),
    (b"BEGIN:A\nEND:a\nBEGIN:B", TreeFault::WrongEnd { line: 2 }),
    (
        b"BEGIN:A\nBEGIN:A\nBEGIN:A\nBEGIN:A\nBEGIN:A\nEND:B",
        TreeFault::TooDeep { line: 4 },
    ),
];

#[test]
fn tells_the_first_fault(rt: HostRuntime) {
    for (text, fault) in FAULTS {
        assert!(rt; has_fault(rt.alloc(), text, *fault));
    }
}
