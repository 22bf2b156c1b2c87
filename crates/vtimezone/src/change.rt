//! A change of a zone's offset (RFC 5545, 3.6.5).
ghost use Rattle.std.specs.Prelude.{◌≡◌, ◌++◌, ◌∷◌, [], ◌*◌, nat_lt, OnOk};
ghost use Rattle.cal_model.specs.Recurrence.NextPassing.{end_day};
ghost use Rattle.cal_model.specs.Recurrence.RuleBounds.{IsWritten};
ghost use Rattle.cal_model.specs.Values.LocalTimes.{moment_of_local};
ghost use Rattle.cal_model.specs.TimeZones.TableBounds.{IsPart};
ghost use Rattle.vtimezone.specs.Gathered as spec;

use cal_base::{List, NoMemory};
use cal_model::ZonePart;
use cal_model::walk::clock::Clock;
use cal_moment::Local;

/// A change of the offset.
#[derive(Clone, Copy)]
pub struct Change {
    /// The instant, in seconds since 1970.
    pub at: i64,
    /// The offset before it, in seconds east of UTC.
    pub from: i32,
    /// The offset from it on.
    pub to: i32,
}

/// 1 January of 2102 by its day, where rules end.
const END_DAY: i32 = 48_212;

/// Whether a moment lies before 2102.
fn is_taken(m: Local) -> bool
    requires m { IsWritten m }
    ensures { result ≡ nat_lt (moment_of_local m) (86_400 * end_day) }
{
    m.day < END_DAY
}

/// The change at a local moment of a part: that moment less the offset before.
fn change_at(part: &ZonePart, m: Local) -> Change
    requires part { IsPart part.now }
    requires m { IsWritten m }
    ensures { spec.as_change result ≡ spec.change_at part.now (moment_of_local m) }
{
    let at = Clock::Onset(part.from).instant(m);
    Change {
        at,
        from: part.from,
        to: part.to,
    }
}

/// Puts the change at a local moment of a part behind the others, unless it lies after 2101.
pub fn add_change(part: &ZonePart, m: Local, changes: &mut List<Change>) -> Result<(), NoMemory>
    requires part { IsPart part.now }
    requires m { IsWritten m }
    ensures { OnOk result (spec.changes_of changes.new ≡ spec.changes_of changes.old ++ spec.changes_at part.now (moment_of_local m ∷ [])) }
{
    if is_taken(m) {
        changes.push(change_at(part, m))?;
    }
    Ok(())
}
