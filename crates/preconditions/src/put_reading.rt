//! What is read of a PUT before the state is looked at.
ghost use Rattle.std.specs.Prelude.{◌≡◌, IfSome};
ghost use Rattle.preconditions.specs.FoundOctets.{IsFoundOf};

use crate::found::{Found, found_of};
use cal_base::{NoMemory, Octets};
use cal_model::RESOURCE_LIMIT;
use cal_object::ReadFault;
use std::alloc::Global;
use std::marker::Model;

/// Octets that are to be put, and what they were read as. To read them takes the most of all that a PUT
/// takes, and needs no state. Contracts see the octets.
#[derive(Drop)]
pub struct PutReading {
    octets: Octets,
    found: Found,
}

impl Model for PutReading {
    ghost use Rattle.std.specs.Prelude.{List, ℕ};
    ghost use Rattle.preconditions.specs.FoundOctets.{IsFoundOf};

    ghost Value = { List ℕ };

    ghost view = { λ r. r.octets };

    ghost invariant = { λ r. IsFoundOf r.octets r.found };
}

impl PutReading {
    /// Reads octets that are to be put. None where they are more than an object may have, and for want of
    /// memory: then they are read when they are checked.
    pub fn of(alloc: Global, octets: &[u8]) -> Option<PutReading>
        ensures { IfSome result (λ reading. reading ≡ octets.now) }
    {
        if octets.len() > RESOURCE_LIMIT {
            return None;
        }
        match found_of(alloc, octets) {
            Found::Fault(ReadFault::NoMemory) => None,
            found => with_copy(alloc, octets, found),
        }
    }

    /// What was found, if it is of these octets.
    pub(crate) fn found(self, octets: &[u8]) -> Option<Found>
        ensures { IfSome result (IsFoundOf octets.now) }
    {
        let PutReading {
            octets: read,
            found,
        } = self;
        if read.as_slice() == octets {
            Some(found)
        } else {
            None
        }
    }
}

/// What was found of octets, with a copy of them.
fn with_copy(alloc: Global, octets: &[u8], found: Found) -> Option<PutReading>
    requires { IsFoundOf octets.now found }
    ensures { IfSome result (λ reading. reading ≡ octets.now) }
{
    match Octets::of(alloc, octets) {
        Ok(octets) => Some(PutReading { octets, found }),
        Err(NoMemory) => None,
    }
}
