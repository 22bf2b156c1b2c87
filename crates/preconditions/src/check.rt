//! The checks of a PUT in order.
ghost use Rattle.std.specs.Prelude.{ℕ, ◌<◌, ◌^◌, List, length, Ok, IfSome};
ghost use Rattle.cal_model.specs.Objects.ObjectReading as reading;
ghost use Rattle.cal_model.specs.Refusals.Preconditions.{put_refusal};
ghost use Rattle.preconditions.specs.Checks.{IsFinding, IsFineWith, IsObjectOf, content_refusal, refusal_of};
ghost use Rattle.preconditions.specs.FoundOctets.{IsFoundOf};

use crate::content::{unmet_by_fault, unmet_by_object};
use crate::counted_object::CountedObject;
use crate::found::{Found, found_of};
use crate::precondition::Precondition;
use crate::put_reading::PutReading;
use cal_base::NoMemory;
use cal_model::{Object, RESOURCE_LIMIT, Refusal};
use std::alloc::Global;

/// What came of the checks of a PUT.
#[derive(Drop)]
pub enum PutCheck {
    /// All are met: the object that the octets are.
    Fine(Object),
    /// The first precondition that is not met, as the refusal that names it.
    Refused(Refusal),
    NoMemory,
}

/// The answer for a precondition that is not met.
fn refused(alloc: Global, unmet: Precondition) -> PutCheck
    ensures first { IsFinding (Some (refusal_of unmet)) result }
    ensures none { (octets : List ℕ) → IsObjectOf octets result }
{
    match unmet.refusal(alloc) {
        Ok(refusal) => PutCheck::Refused(refusal),
        Err(NoMemory) => PutCheck::NoMemory,
    }
}

/// The checks of an object that was read without a fault.
fn check_object(alloc: Global, kinds: u8, counted: CountedObject) -> PutCheck
    ensures first { IsFinding (content_refusal kinds (Ok counted.object)) result }
    ensures object { IsFineWith counted.object result }
{
    let CountedObject {
        object,
        has_too_many,
    } = counted;
    match unmet_by_object(kinds, &object, has_too_many) {
        None => PutCheck::Fine(object),
        Some(unmet) => refused(alloc, unmet),
    }
}

/// The checks of octets that are not too many and were sent as a calendar, given what they are read as.
fn check_found(alloc: Global, kinds: u8, found: Found) -> PutCheck
    ensures first { (octets : List ℕ) → IsFoundOf octets found → IsFinding (content_refusal kinds (reading.read_object octets)) result }
    ensures object { (octets : List ℕ) → IsFoundOf octets found → IsObjectOf octets result }
{
    let fault = match found {
        Found::Object(counted) => return check_object(alloc, kinds, counted),
        Found::Fault(fault) => fault,
    };
    match unmet_by_fault(kinds, fault) {
        Ok(unmet) => refused(alloc, unmet),
        Err(NoMemory) => PutCheck::NoMemory,
    }
}

/// What octets are read as: by a reading of theirs, if there is one, which is used up, and else anew.
fn found(alloc: Global, octets: &[u8], reading: &mut Option<PutReading>) -> Found
    requires { length octets.now < 2 ^ 32 }
    ensures { IsFoundOf octets.now result }
{
    match found_by(octets, reading.take()) {
        Some(found) => found,
        None => found_of(alloc, octets),
    }
}

/// The same, if there is such a reading.
fn found_by(octets: &[u8], reading: Option<PutReading>) -> Option<Found>
    ensures { IfSome result (IsFoundOf octets.now) }
{
    match reading {
        Some(reading) => reading.found(octets),
        None => None,
    }
}

/// Checks what a PUT brings: its octets, whether they were sent as a calendar (`media_ok`), and the
/// kinds of components that the calendar takes, a bit for each of VEVENT, VTODO, VJOURNAL and
/// VFREEBUSY from the lowest on. `Fine` is given exactly where no precondition of RFC 4791, 5.3.2.1,
/// from supported-calendar-data to max-instances refuses, and else the first that does. The octets are
/// not read again where they are those of a reading, which is used up.
#[tactic(auto, unfolding(cal_model::specs::Refusals::Preconditions::put_table))]
pub fn check_put(
    alloc: Global,
    media_ok: bool,
    octets: &[u8],
    kinds: u8,
    reading: &mut Option<PutReading>,
) -> PutCheck
    ensures first { IsFinding (put_refusal media_ok octets.now kinds) result }
    ensures object { IsObjectOf octets.now result }
{
    if !media_ok {
        return refused(alloc, Precondition::SupportedCalendarData);
    }
    if octets.len() > RESOURCE_LIMIT {
        return refused(alloc, Precondition::MaxResourceSize);
    }
    check_found(alloc, kinds, found(alloc, octets, reading))
}
