//! What no clause says: that the definitions mean what the standard's examples show.
ghost use Rattle.std.specs.Prelude.{All};
ghost use Rattle.cal_base.specs.Lines.LineGrammar.{IsReadLine};

use crate::wanted::{Wanted, is_text};
use cal_base::{Line, List, NoMemory, Octets};
use ical_lines::{LineFault, split_lines, write_line};
use std::alloc::Global;

/// Shows a line as `NAME [PARAM <value> <value>] = value`.
fn show(line: &Line, wanted: &mut Wanted<'_>) {
    wanted.put(line.name.as_slice());
    for param in line.params.as_slice() {
        wanted.put(b" [");
        wanted.put(param.name.as_slice());
        for value in param.values.as_slice() {
            wanted.put(b" <");
            wanted.put(value.as_slice());
            wanted.put(b">");
        }
        wanted.put(b"]");
    }
    wanted.put(b" = ");
    wanted.put(line.value.as_slice());
    wanted.put(b"\n");
}

/// Whether the lines are shown so, one each.
fn are_shown(lines: &List<Line>, text: &[u8]) -> bool {
    let mut wanted = Wanted::new(text);
    for line in lines.as_slice() {
        show(line, &mut wanted);
    }
    wanted.is_whole()
}

/// Whether a text is read as lines that are shown so.
fn reads_as(alloc: Global, octets: &[u8], text: &[u8]) -> bool {
    match split_lines(alloc, octets) {
        Ok(lines) => are_shown(&lines, text),
        Err(_) => false,
    }
}

/// Each line written.
fn written(alloc: Global, lines: &List<Line>) -> Result<Octets, NoMemory>
    requires { All IsReadLine lines.now }
{
    let mut out = Octets::new(alloc);
    for line in lines.as_slice() {
        write_line(line.raw.as_slice(), &mut out)?;
    }
    Ok(out)
}

/// Whether a text is read as these lines.
fn reads_again(alloc: Global, octets: &[u8], lines: &List<Line>) -> bool {
    match split_lines(alloc, octets) {
        Ok(again) => again == *lines,
        Err(_) => false,
    }
}

/// Whether the lines are written so, and what is written is read as these lines again.
fn are_written(alloc: Global, lines: &List<Line>, text: &[u8]) -> bool
    requires { All IsReadLine lines.now }
{
    is_text(written(alloc, lines), text) && reads_again(alloc, text, lines)
}

/// Whether the lines of a text are written so.
fn writes_as(alloc: Global, octets: &[u8], text: &[u8]) -> bool {
    match split_lines(alloc, octets) {
        Ok(lines) => are_written(alloc, &lines, text),
        Err(_) => false,
    }
}

/// Whether a text has its first fault at this place.
fn has_fault(alloc: Global, octets: &[u8], place: u64) -> bool {
    match split_lines(alloc, octets) {
        Ok(_) => false,
        Err(fault) => fault == LineFault::At { place },
    }
}

/// Texts, and how their lines are shown.
const READ: &[(&str, &str)] = &[
    // RFC 5545, 3.1
    (
        "DESCRIPTION:This is a lo\r\n ng description\r\n  that exists on a long line.",
        "DESCRIPTION = This is a long description that exists on a long line.\n",
    ),
    // 3.1.1 and 3.1.2
    (
        "ATTENDEE;RSVP=TRUE;ROLE=REQ-PARTICIPANT:mailto:\r\n jsmith@example.com\r\nRDATE;VALUE=DATE:19970304,19970504,19970704,19970904\r\n",
        "ATTENDEE [RSVP <TRUE>] [ROLE <REQ-PARTICIPANT>] = mailto:jsmith@example.com\nRDATE [VALUE <DATE>] = 19970304,19970504,19970704,19970904\n",
    ),
    // 3.2.1 and 3.2.11
    (
        "DESCRIPTION;ALTREP=\"CID:part3.msg.970415T083000@example.com\":\r\n Project XYZ Review Meeting\r\nATTENDEE;MEMBER=\"mailto:projectA@example.com\",\"mailto:pr\r\n ojectB@example.com\":mailto:janedoe@example.com\r\n",
        "DESCRIPTION [ALTREP <CID:part3.msg.970415T083000@example.com>] = Project XYZ Review Meeting\nATTENDEE [MEMBER <mailto:projectA@example.com> <mailto:projectB@example.com>] = mailto:janedoe@example.com\n",
    ),
    // a fold at TAB, ends without CR, empty lines, names in lower case, and no end
    (
        "begin:VEVENT\nSUMMARY:Stand\n\t-up\n\n\r\nDTSTART;tzid=X:20260101T090000\nend:VEVENT",
        "BEGIN = VEVENT\nSUMMARY = Stand-up\nDTSTART [TZID <X>] = 20260101T090000\nEND = VEVENT\n",
    ),
    ("", ""),
];

/// Texts, and where the first fault of each stands.
const FAULTS: &[(&[u8], u64)] = &[
    (b"A:b\r\n c\rd\r\n", 5),
    (b"A:b\r", 0),
    (b"A:b\nC:\x0b", 4),
    (b"A:b\nC:\xff", 4),
    (b"A:\xc3\r\n \xa4\r\n", 0),
    (b"A:b\nC:\xef\xbf\xbe", 4),
    (b"A:b\nC:\xef\xbf\xbf", 4),
    (b"A:b\r\nxx\r\n \ry\r\n", 5),
    (b"A;B=\"x:y\n", 0),
    (b"A:b\nC;D:e\n", 4),
    (b"X:y\n\n b\n", 4),
    (b" A:b\n", 0),
];

/// Lines, and how they are written.
const WRITTEN: &[(&str, &str)] = &[
    ("A:b", "A:b\r\n"),
    (
        "A:3456789012345678901234567890123456789012345678901234567890123456789012345",
        "A:3456789012345678901234567890123456789012345678901234567890123456789012345\r\n",
    ),
    (
        "A:34567890123456789012345678901234567890123456789012345678901234567890123456",
        "A:3456789012345678901234567890123456789012345678901234567890123456789012345\r\n 6\r\n",
    ),
    // a character of two octets that would begin at octet 75
    (
        "A:345678901234567890123456789012345678901234567890123456789012345678901234é",
        "A:345678901234567890123456789012345678901234567890123456789012345678901234\r\n é\r\n",
    ),
    // the second fold stands behind 74 octets and the SPACE
    (
        "A:345678901234567890123456789012345678901234567890123456789012345678901234512345678901234567890123456789012345678901234567890123456789012345678901234X",
        "A:3456789012345678901234567890123456789012345678901234567890123456789012345\r\n 12345678901234567890123456789012345678901234567890123456789012345678901234\r\n X\r\n",
    ),
];

#[test]
fn reads_the_examples_of_the_standard(rt: HostRuntime) {
    for (text, lines) in READ {
        assert!(rt; reads_as(rt.alloc(), text.as_bytes(), lines.as_bytes()));
    }
}

#[test]
fn says_where_the_first_fault_stands(rt: HostRuntime) {
    for (octets, place) in FAULTS {
        assert!(rt; has_fault(rt.alloc(), octets, *place));
    }
}

#[test]
fn folds_at_75_octets(rt: HostRuntime) {
    for (raw, text) in WRITTEN {
        assert!(rt; writes_as(rt.alloc(), raw.as_bytes(), text.as_bytes()));
    }
}
