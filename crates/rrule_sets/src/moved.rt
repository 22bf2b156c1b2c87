//! The digits whose starts an override may move into a window.
ghost use Rattle.std.specs.Prelude.{◌≡◌, ◌*◌, length, option_to_list, pos, neg_ℤ, ◌+ℤ◌, ◌-ℤ◌, ◌*ℤ◌};
ghost use Rattle.std.specs.List.{list_all};
ghost use Rattle.cal_moment.specs.Calendar.{IsBetween};
ghost use Rattle.cal_model.specs.declared.local_times.LocalTimes.{LocalTimes};
ghost use Rattle.cal_model.specs.declared.zone.Onset.{Onset};
ghost use Rattle.cal_model.specs.Instances.Alignment as alignment;
ghost use Rattle.cal_model.specs.Instances.Rows.{window_seconds};
ghost use Rattle.cal_model.specs.Ranges.Cost as cost;
ghost use Rattle.override_merge.specs.AlignedStamps.{aligned_by};
ghost use Rattle.override_merge.specs.Conversions.{tables_of, HasConvertibleRow, HasZone, IsConvertible, IsRowTime};
ghost use Rattle.rrule_sets.specs.MovedStarts.{EndsByMoved, HasMovedOf, IsMovedBack, IsMovedFrom, IsNearName, offset_bound, parts_from};

use crate::range::{Digits, window_digits};
use cal_model::{Component, LocalTimes, Onset, ZoneTable, written_value};
use cal_moment::Stamp;
use override_merge::stamps::{Aligned, align};
use override_merge::starts::own_start;
use override_merge::zones::local_beside;

const DAY: i64 = 86_400;

/// Whether an offset is below 18 hours.
fn is_common(offset: i32) -> bool
    ensures { result ≡ cost.is_common offset }
{
    -64_800 < offset && offset < 64_800
}

/// Whether all offsets that begin at onsets are.
fn are_common(onsets: &[Onset]) -> bool
    ensures { result ≡ list_all (λ (onset : Onset). cost.is_common onset.offset) onsets.now }
{
    onsets.iter().all(|onset| is_common(onset.offset))
}

/// Whether the offsets of a zone are below 18 hours, as all places of the world have them.
fn has_common_offsets(zone: &ZoneTable) -> bool
    ensures { result ≡ cost.has_common_offsets zone.now }
{
    is_common(zone.before) && are_common(zone.onsets.as_slice())
}

/// Whether those of all zones are.
fn have_common_offsets(zones: &[LocalTimes<'_>]) -> bool
    ensures { result ≡ list_all (λ (times : LocalTimes). cost.has_common_offsets times.table.now) zones.now }
{
    zones.iter().all(|times| has_common_offsets(times.table))
}

/// How many seconds a start that a moment names can lie beside the window that its row is moved to:
/// four times the greatest offset.
fn seconds_apart(zones: &[LocalTimes<'_>]) -> i64
    ensures { result ≡ pos (4 * offset_bound (tables_of zones.now)) }
{
    if have_common_offsets(zones) {
        3 * DAY
    } else {
        4 * DAY
    }
}

/// The digits of a window moved back, with so many seconds before and behind them.
fn moved_back(window: i32, moved: i64, before: i64, behind: i64) -> Digits
    requires moved { IsBetween (neg_ℤ (pos 2_300_000_000_000)) (pos 2_300_000_000_000) moved }
    requires before { IsBetween (pos 0) (pos 1_000_000) before }
    requires behind { IsBetween (pos 0) (pos 1_000_000) behind }
    ensures low { result.low ≡ (window *ℤ window_seconds -ℤ before) -ℤ moved }
    ensures high { result.high ≡ ((window +ℤ pos 1) *ℤ window_seconds +ℤ behind) -ℤ moved }
{
    let range = window_digits(window);
    Digits {
        low: range.low - before - moved,
        high: range.high + behind - moved,
    }
}

/// A range without what lies before some digits; none where nothing is left.
fn from_digits(range: Digits, low: i64) -> Option<Digits>
    ensures { option_to_list result ≡ parts_from low range }
{
    if range.high <= low {
        None
    } else {
        Some(Digits {
            low: range.low.max(low),
            high: range.high,
        })
    }
}

/// The digits of an override that names a moment: those of the window, moved back, that lie behind the
/// moment. None where it governs nothing that may be moved into the window.
fn digits_of_moment(
    zones: &[LocalTimes<'_>],
    stamp: Stamp,
    window: i32,
    moment: i64,
) -> Option<Digits>
    requires stamp { IsConvertible (length zones.now) stamp }
    requires moment { IsBetween (neg_ℤ (pos 1_200_000_000_000)) (pos 1_200_000_000_000) moment }
    ensures { IsMovedFrom (tables_of zones.now) window stamp (alignment.at moment) (option_to_list result) }
{
    let by = seconds_apart(zones);
    let moved = written_value(stamp) - local_beside(zones, stamp, moment);
    from_digits(moved_back(window, moved, by, by), moment - DAY)
}

/// The digits of an override that names a local day, before it is known which start it means: those of
/// the window, moved back from the day's midnight, from six days before them to seven days behind.
fn digits_of_day(stamp: Stamp, window: i32, midnight: i64) -> Digits
    requires stamp { IsRowTime (alignment.written_value stamp) }
    requires midnight { IsRowTime midnight }
    ensures { IsMovedBack window (alignment.written_value stamp -ℤ midnight) (pos 518_400) (pos 604_800) result }
{
    moved_back(window, written_value(stamp) - midnight, 6 * DAY, 7 * DAY)
}

/// The digits of an override that starts at a stamp, by what its RECURRENCE-ID says.
fn digits_of_name(
    zones: &[LocalTimes<'_>],
    stamp: Stamp,
    window: i32,
    name: Aligned,
) -> Option<Digits>
    requires stamp { IsConvertible (length zones.now) stamp }
    requires name { IsNearName (aligned_by name) }
    ensures { IsMovedFrom (tables_of zones.now) window stamp (aligned_by name) (option_to_list result) }
{
    match name {
        Aligned::At(moment) => digits_of_moment(zones, stamp, window, moment),
        Aligned::OnDay(midnight) => Some(digits_of_day(stamp, window, midnight)),
    }
}

/// The digits whose starts a component may move into a window, if it moves later instances. Which start
/// its RECURRENCE-ID means need not be known.
pub fn moved_digits_of(
    zones: &[LocalTimes<'_>],
    ids: Stamp,
    window: i32,
    component: &Component,
) -> Option<Digits>
    requires ids { HasZone (length zones.now) ids }
    requires component { HasConvertibleRow (length zones.now) component.now }
    ensures moved { HasMovedOf (tables_of zones.now) ids window component.now (option_to_list result) }
    ensures least { EndsByMoved (tables_of zones.now) ids window component.now (option_to_list result) }
{
    if !component.future {
        return None;
    }
    let name = component.recurrence_id?;
    let stamp = own_start(component)?;
    digits_of_name(zones, stamp, window, align(zones, name, ids))
}
