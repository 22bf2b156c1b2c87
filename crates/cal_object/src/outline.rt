//! From octets to a tree of lines: what keeps them from being one, and where.
ghost use Rattle.std.specs.Prelude.{◌≡◌, ℕ, ◌<◌, ◌^◌, All, get_or, length, None, IfOk, IfErr};
ghost use Rattle.cal_base.specs.Lines.ContentLines.{line_fault, placed_lines};
ghost use Rattle.cal_base.specs.Lines.ComponentTrees.{nesting_fault};
ghost use Rattle.cal_base.specs.Lines.LineGrammar.{IsReadLine};
ghost use Rattle.cal_model.specs.Objects.LineValues.{lines_in};
ghost use Rattle.cal_model.specs.Objects.CalendarChildren.{child_places};
ghost use Rattle.cal_model.specs.Objects.ObjectReading.{place_at};
ghost use Rattle.ical_objects.specs.Faults.{IsFaultOf as IsNestingFault};
ghost use Rattle.cal_object.specs.declared.fault.ReadFault.TheVariants.{NotCalendar as Refused};
ghost use Rattle.cal_object.specs.Faults.{IsFound};
ghost use Rattle.cal_object.specs.Outlines.{IsTextScan, IsTreeOf, text_fault, tree_fault};
ghost use Rattle.cal_object.specs.Scan.{child_numbers};

use crate::fault::ReadFault;
use crate::scan::{Scan, scan_lines};
use cal_base::{Line, List, Node};
use ical_lines::{LineFault, line_place, split_lines};
use ical_objects::{TreeFault, build};
use std::alloc::Global;

/// The tree that the lines of a text make up, and what those lines say by themselves.
#[derive(Drop)]
pub(crate) struct Outline {
    pub scan: Scan,
    pub calendar: Node,
}

/// The fault at the line of a number.
pub(crate) fn at_line(octets: &[u8], number: u32) -> ReadFault
    requires { line_fault octets.now ≡ None }
    ensures { result ≡ Refused (place_at (placed_lines octets.now) number) }
{
    ReadFault::NotCalendar {
        place: line_place(octets, number as usize),
    }
}

/// The fault at the BEGIN of the component of a number among those of the calendar. It is given the
/// lines at which they begin.
pub(crate) fn at_child(octets: &[u8], children: &List<u32>, number: usize) -> ReadFault
    requires lines { line_fault octets.now ≡ None }
    requires children { children.now ≡ child_numbers (lines_in (placed_lines octets.now)) }
    ensures { result ≡ Refused (get_or (child_places (placed_lines octets.now)) number 0) }
{
    match children.get(number) {
        Some(line) => at_line(octets, *line),
        None => ReadFault::NotCalendar { place: 0 },
    }
}

/// The fault of lines that are not nested.
fn not_nested(octets: &[u8], fault: TreeFault) -> ReadFault
    requires lines { line_fault octets.now ≡ None }
    requires fault { IsNestingFault (nesting_fault (lines_in (placed_lines octets.now))) fault }
    ensures { IsFound (tree_fault (placed_lines octets.now)) result }
{
    match fault {
        TreeFault::Unclosed { line } => at_line(octets, line),
        TreeFault::WrongEnd { line } => at_line(octets, line),
        TreeFault::TooDeep { line } => at_line(octets, line),
        TreeFault::NoMemory => ReadFault::NoMemory,
    }
}

/// The tree that lines make up.
fn tree_of_lines(alloc: Global, octets: &[u8], lines: List<Line>) -> Result<Node, ReadFault>
    requires faultless { line_fault octets.now ≡ None }
    requires lines { lines ≡ lines_in (placed_lines octets.now) }
    requires few { length lines < 2 ^ 32 }
    requires read { All IsReadLine lines }
    ensures tree { IfOk result (IsTreeOf octets.now) }
    ensures fault { IfErr result (IsFound (tree_fault (placed_lines octets.now))) }
{
    match build(alloc, lines) {
        Ok(calendar) => Ok(calendar),
        Err(fault) => Err(not_nested(octets, fault)),
    }
}

/// The tree that lines make up, and what they say by themselves.
fn outline_of_lines(alloc: Global, octets: &[u8], lines: List<Line>) -> Result<Outline, ReadFault>
    requires faultless { line_fault octets.now ≡ None }
    requires lines { lines ≡ lines_in (placed_lines octets.now) }
    requires few { length lines < 2 ^ 32 }
    requires read { All IsReadLine lines }
    ensures tree { IfOk result (λ outline. IsTreeOf octets.now outline.calendar) }
    ensures scan { IfOk result (λ outline. IsTextScan octets.now outline.scan) }
    ensures fault { IfErr result (IsFound (tree_fault (placed_lines octets.now))) }
{
    let scan = scan_lines(alloc, lines.as_slice())?;
    match tree_of_lines(alloc, octets, lines) {
        Ok(calendar) => Ok(Outline { scan, calendar }),
        Err(fault) => Err(fault),
    }
}

/// The tree that the lines of a text make up, and what they say by themselves, or the first fault of
/// a line, or else of their nesting.
pub(crate) fn read_outline(alloc: Global, octets: &[u8]) -> Result<Outline, ReadFault>
    requires { length octets.now < 2 ^ 32 }
    ensures tree { IfOk result (λ outline. IsTreeOf octets.now outline.calendar) }
    ensures scan { IfOk result (λ outline. IsTextScan octets.now outline.scan) }
    ensures fault { IfErr result (IsFound (text_fault octets.now)) }
{
    match split_lines(alloc, octets) {
        Ok(lines) => outline_of_lines(alloc, octets, lines),
        Err(LineFault::At { place }) => Err(ReadFault::NotCalendar { place }),
        Err(LineFault::NoMemory) => Err(ReadFault::NoMemory),
    }
}
