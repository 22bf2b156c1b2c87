//! What the content of a PUT must meet: what its octets were read as.
ghost use Rattle.std.specs.Prelude.{◌≡◌, ◌<◌, ◌^◌, length, IfOk, option_map};
ghost use Rattle.cal_model.specs.Access.Privileges.{has_all};
ghost use Rattle.cal_model.specs.Objects.ObjectFacts.{IsRead};
ghost use Rattle.cal_model.specs.Objects.ObjectReading.{date_outside};
ghost use Rattle.cal_model.specs.Refusals.Preconditions as definition;
ghost use Rattle.preconditions.specs.Checks.{IsUnmetBy, content_refusal, refusal_of};

use crate::precondition::Precondition;
use cal_base::NoMemory;
use cal_model::{FIRST_DATE, Kind, Object, written_value};
use cal_moment::Stamp;
use cal_object::ReadFault;
use rrule_sets::{Counted, count_rows, has_fine_rule};
use std::alloc::Global;

/// The most instances that an object may have.
const MOST_INSTANCES: u32 = 250_000;

/// The bit of a kind among those that a calendar takes.
fn bit_of(kind: Kind) -> u8
    ensures { result ≡ definition.bit_of_kind kind }
{
    match kind {
        Kind::Event => 1,
        Kind::Todo => 2,
        Kind::Journal => 4,
        Kind::FreeBusy => 8,
    }
}

/// Whether a calendar of some kinds takes components of a kind.
fn takes(kinds: u8, kind: Kind) -> bool
    ensures { result ≡ has_all kinds (definition.bit_of_kind kind) }
{
    let bit = bit_of(kind);
    kinds & bit == bit
}

/// What a date outside does not meet: it lies before the dates that are served, or behind them.
fn unmet_by_date(stamp: Stamp) -> Precondition
    ensures { refusal_of result ≡ definition.date_fault stamp }
{
    if written_value(stamp) < FIRST_DATE {
        Precondition::MinDateTime
    } else {
        Precondition::MaxDateTime
    }
}

/// What an object of a kind with a date outside does not meet.
fn unmet_outside(kinds: u8, kind: Kind, stamp: Stamp) -> Precondition
    ensures { content_refusal kinds (Err (date_outside kind stamp)) ≡ Some (refusal_of result) }
{
    if takes(kinds, kind) {
        unmet_by_date(stamp)
    } else {
        Precondition::SupportedCalendarComponent
    }
}

/// What octets do not meet that are read with a fault.
pub fn unmet_by_fault(kinds: u8, fault: ReadFault) -> Result<Precondition, NoMemory>
    ensures { IfOk result (IsUnmetBy kinds fault) }
{
    match fault {
        ReadFault::NotCalendar { .. } => Ok(Precondition::ValidCalendarData),
        ReadFault::NotResource(_) => Ok(Precondition::ValidCalendarObjectResource),
        ReadFault::DateOutside(kind, stamp) => Ok(unmet_outside(kinds, kind, stamp)),
        ReadFault::NoMemory => Err(NoMemory),
    }
}

/// Whether an object has more instances than are served, or a rule by seconds or minutes.
pub(crate) fn has_too_many(alloc: Global, object: &Object) -> Result<bool, NoMemory>
    requires read { IsRead object.now }
    requires few { length object.now.components < 2 ^ 32 }
    ensures { IfOk result (λ found. found ≡ definition.has_too_many object.now) }
{
    if has_fine_rule(object) {
        return Ok(true);
    }
    match count_rows(alloc, object, MOST_INSTANCES) {
        Counted::Within(_) => Ok(false),
        Counted::Over => Ok(true),
        Counted::NoMemory => Err(NoMemory),
    }
}

/// What an object does not meet that was read without a fault, given whether it has too many instances.
pub fn unmet_by_object(kinds: u8, object: &Object, has_too_many: bool) -> Option<Precondition>
    requires many { has_too_many ≡ definition.has_too_many object.now }
    ensures { option_map refusal_of result ≡ content_refusal kinds (Ok object.now) }
{
    if !takes(kinds, object.kind) {
        return Some(Precondition::SupportedCalendarComponent);
    }
    if has_too_many {
        return Some(Precondition::MaxInstances);
    }
    None
}
