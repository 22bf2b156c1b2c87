//! What the octets of a PUT are read as, whatever the state is.
ghost use Rattle.std.specs.Prelude.{◌≡◌, ℕ, ◌<◌, ◌^◌, List, length, Ok};
ghost use Rattle.cal_model.specs.Objects.ObjectFacts.{IsRead};
ghost use Rattle.cal_model.specs.Objects.ObjectReading as reading;
ghost use Rattle.preconditions.specs.FoundOctets.{IsFoundOf};

use crate::counted_object::{CountedObject, counted};
use cal_base::NoMemory;
use cal_model::Object;
use cal_object::{ReadFault, read_object};
use std::alloc::Global;

/// What octets are read as. Want of memory is a fault that may be found of any.
#[derive(Drop)]
pub(crate) enum Found {
    Object(CountedObject),
    Fault(ReadFault),
}

/// Reads octets, and counts the instances of the object that they are.
pub(crate) fn found_of(alloc: Global, octets: &[u8]) -> Found
    requires few { length octets.now < 2 ^ 32 }
    ensures { IsFoundOf octets.now result }
{
    match read_object(alloc, octets) {
        Ok(object) => found_object(alloc, object),
        Err(fault) => Found::Fault(fault),
    }
}

/// The same of octets that are an object.
fn found_object(alloc: Global, object: Object) -> Found
    requires read { IsRead object }
    requires few { length object.components < 2 ^ 32 }
    ensures { (octets : List ℕ) → reading.read_object octets ≡ Ok object → IsFoundOf octets result }
{
    match counted(alloc, object) {
        Ok(counted) => Found::Object(counted),
        Err(NoMemory) => Found::Fault(ReadFault::NoMemory),
    }
}
