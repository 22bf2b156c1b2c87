//! Lines that no component has, made from the values of a row (RFC 4791, 9.6.5).
ghost use Rattle.std.specs.Prelude.{◌≡◌, ◌++◌, codes, IfOk, OnOk, IsTrue, if◌then◌else◌};
ghost use Rattle.cal_base.specs.Lines.ContentLines.{is_name};
ghost use Rattle.cal_moment.specs.Calendar.{IsCalendarMoment};
ghost use Rattle.cal_model.specs.Selections.RowLines as spec;
ghost use Rattle.shown_lines.specs.Portions.{written_portion};

use crate::portion::{Portion, write_made};
use crate::values::value_text;
use cal_base::{NoMemory, Octets};
use cal_model::RowKind;
use std::alloc::Global;

/// The text of a new line up to its colon, with the colon: its name, and VALUE=DATE for a date.
fn new_header(alloc: Global, name: &[u8], kind: RowKind) -> Result<Octets, NoMemory>
    ensures { IfOk result (λ text. text ≡ name.now ++ (if spec.is_date_kind kind then codes ";VALUE=DATE:" else codes ":")) }
{
    let mut text = Octets::of(alloc, name)?;
    if kind == RowKind::Date {
        text.extend_from_slice(b";VALUE=DATE:")?;
    } else {
        text.push(b':')?;
    }
    Ok(text)
}

/// Writes what is shown of a new line of a name with the value of a row, in seconds since 1970 as its
/// kind says: an instant in UTC, a floating time by its local digits, a date with VALUE=DATE.
pub fn write_new(
    alloc: Global,
    name: &[u8],
    kind: RowKind,
    seconds: i64,
    portion: Portion,
    out: &mut Octets,
) -> Result<(), NoMemory>
    requires name { IsTrue (is_name name.now) }
    requires moment { IsCalendarMoment seconds }
    ensures { OnOk result (out.new ≡ out.old ++ written_portion portion (spec.new_line name.now kind seconds)) }
{
    if portion == Portion::Nothing {
        return Ok(());
    }
    let header = new_header(alloc, name, kind)?;
    let value = value_text(alloc, kind, seconds)?;
    write_made(header, value.as_slice(), portion, out)
}

/// Writes what is shown of the line of an instance that ends where it starts: `DURATION:PT0S`.
pub fn write_no_length(alloc: Global, portion: Portion, out: &mut Octets) -> Result<(), NoMemory>
    ensures { OnOk result (out.new ≡ out.old ++ written_portion portion (spec.text_line (codes "DURATION") (codes "PT0S"))) }
{
    let header = Octets::of(alloc, b"DURATION:")?;
    write_made(header, b"PT0S", portion, out)
}
