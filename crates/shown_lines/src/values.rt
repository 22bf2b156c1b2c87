//! The texts of rows' values (RFC 5545, 3.3.4 and 3.3.5).
ghost use Rattle.std.specs.Prelude.{◌≡◌, IfOk};
ghost use Rattle.cal_moment.specs.Calendar.{IsCalendarMoment};
ghost use Rattle.cal_model.specs.Selections.RowLines as spec;
ghost use Rattle.shown_lines.specs.Heads.{IsClean};
ghost use Rattle.shown_lines.specs.Values.{value_octets};

use cal_base::{NoMemory, Octets};
use cal_model::RowKind;
use cal_moment::{Utc, write_utc};
use std::alloc::Global;

/// How many octets of a moment's text in UTC are the text of a row's value: those of the date, of the
/// digits without the Z, or all.
fn value_octets(kind: RowKind) -> usize
    ensures { result ≡ value_octets kind }
{
    match kind {
        RowKind::Date => 8,
        RowKind::Floating => 15,
        RowKind::Instant | RowKind::Undated => 16,
    }
}

/// The text of a row's value: of a date or a floating time its local digits, of an instant those in
/// UTC.
pub fn value_text(alloc: Global, kind: RowKind, seconds: i64) -> Result<Octets, NoMemory>
    requires { IsCalendarMoment seconds }
    ensures text { IfOk result (λ text. text ≡ spec.value_text kind seconds) }
    ensures clean { IfOk result IsClean }
{
    let text = write_utc(Utc(seconds));
    Octets::of(alloc, &text[..value_octets(kind)])
}
