//! Lines with the value of a row in place of their own (RFC 4791, 9.6.5).
ghost use Rattle.std.specs.Prelude.{◌≡◌, ◌++◌, codes, IfOk, OnOk};
ghost use Rattle.cal_base.specs.Lines.LineGrammar.{IsReadLine};
ghost use Rattle.cal_moment.specs.Calendar.{IsCalendarMoment};
ghost use Rattle.cal_model.specs.Selections.RowLines as spec;
ghost use Rattle.shown_lines.specs.Portions.{written_portion};

use crate::params::put_all_kept;
use crate::portion::{Portion, header, write_made};
use crate::values::value_text;
use cal_base::{Line, NoMemory, Octets, first_unquoted_piece};
use cal_model::RowKind;
use std::alloc::Global;

/// The text of a line up to its colon, with the colon, without the parameters that go beside a value
/// of a kind.
fn kept_header(alloc: Global, line: &Line, kind: RowKind) -> Result<Octets, NoMemory>
    requires { IsReadLine line.now }
    ensures { IfOk result (λ text. text ≡ spec.kept_header kind line.now ++ codes ":") }
{
    let header = header(line);
    let (name, params) = first_unquoted_piece(&header[..header.len() - 1], b';');
    let mut text = Octets::of(alloc, name)?;
    put_all_kept(kind, params, line.params.as_slice(), &mut text)?;
    text.push(b':')?;
    Ok(text)
}

/// Writes what is shown of a line with the value of a row, in seconds since 1970 as its kind says:
/// an instant in UTC, a floating time or a date by its local digits. Up to the colon the line stays as
/// it was written, but for TZID and RANGE, and for VALUE=DATE beside a value that is no date.
pub fn write_rewritten(
    alloc: Global,
    line: &Line,
    kind: RowKind,
    seconds: i64,
    portion: Portion,
    out: &mut Octets,
) -> Result<(), NoMemory>
    requires line { IsReadLine line.now }
    requires moment { IsCalendarMoment seconds }
    ensures { OnOk result (out.new ≡ out.old ++ written_portion portion (spec.rewritten kind seconds line.now)) }
{
    if portion == Portion::Nothing {
        return Ok(());
    }
    let header = kept_header(alloc, line, kind)?;
    let value = value_text(alloc, kind, seconds)?;
    write_made(header, value.as_slice(), portion, out)
}
