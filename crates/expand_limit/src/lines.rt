//! The lines of a component as they are shown: limited, and picked (RFC 4791, 9.6).
ghost use Rattle.std.specs.Prelude.{◌≡◌, ℕ, suc, List, ◌++◌, flat_map, OnOk};
ghost use Rattle.std.specs.List.{AllByRecursion};
ghost use Rattle.cal_base.specs.Lines.LineGrammar.{IsReadLine};
ghost use Rattle.cal_model.specs.declared.selection.CompPick.{CompPick as Pick};
ghost use Rattle.expand_limit.specs.KeptParts.{IsKept};
ghost use Rattle.expand_limit.specs.ShownTexts.{limited_line, line_text, seen_lines};
ghost use Rattle.ical_objects.specs.Printing.{IsOwnLine};
ghost use Rattle.shown_lines.specs.Portions.{written_portion};

use crate::busy::write_busy;
use crate::component_names::{is_named, is_of_recurrence};
use crate::kept::{Kept, portion};
use cal_base::{Line, NoMemory, Octets};
use cal_model::Range;
use shown_lines::{Portion, write_portion};
use std::alloc::Global;

/// What the options leave of every component.
#[derive(Clone, Copy)]
pub struct Options {
    /// Whether VTIMEZONEs and the lines of recurrence go.
    pub plain: bool,
    /// The range that the periods of FREEBUSY lines have to meet.
    pub busy: Option<Range>,
}

/// Writes a line of which this much is kept, limited to the range of FREEBUSY periods.
fn write_limited(
    alloc: Global,
    busy: Option<Range>,
    portion: Portion,
    line: &Line,
    out: &mut Octets,
) -> Result<(), NoMemory>
    requires { IsReadLine line.now }
    ensures { OnOk result (out.new ≡ out.old ++ flat_map (written_portion portion) (limited_line busy line.now)) }
{
    match busy {
        Some(range) if is_named(&line.name, b"FREEBUSY") => {
            write_busy(alloc, range, line, portion, out)
        }
        _ => write_portion(line, portion, out),
    }
}

/// Writes a line as it is shown in a component of which this is kept.
pub fn write_shown(
    alloc: Global,
    busy: Option<Range>,
    kept: Option<&Kept>,
    line: &Line,
    out: &mut Octets,
) -> Result<(), NoMemory>
    requires { IsReadLine line.now }
    ensures { OnOk result ((levels : ℕ) (picks : List Pick) → IsKept (suc levels) kept.entry picks → out.new ≡ out.old ++ line_text picks busy line.now) }
{
    let portion = portion(kept, line.name.as_slice());
    write_limited(alloc, busy, portion, line, out)
}

/// Writes the lines of a component as they are shown.
pub fn write_lines(
    alloc: Global,
    options: Options,
    kept: Option<&Kept>,
    lines: &[Line],
    out: &mut Octets,
) -> Result<(), NoMemory>
    requires { AllByRecursion IsOwnLine lines.now }
    ensures { OnOk result ((levels : ℕ) (picks : List Pick) → IsKept (suc levels) kept.entry picks → out.new ≡ out.old ++ flat_map (line_text picks options.busy) (seen_lines options.plain lines.now)) }
{
    let mut rest = lines;
    'lines: while let Some((line, behind)) = rest.split_first() {
        if !(options.plain && is_of_recurrence(line)) {
            write_shown(alloc, options.busy, kept, line, out)?;
        }
        rest = behind;
    }
    Ok(())
}
