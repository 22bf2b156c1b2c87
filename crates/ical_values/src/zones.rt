//! The names of time zones, found by name.
ghost use Rattle.std.specs.Prelude.{◌≡◌, ◌<◌, ◌^◌, ℕ, List, length, OnOk, IfOk, bytes_eq};
ghost use Rattle.cal_base.specs.Lists.NameMap.{value_at};
ghost use Rattle.cal_model.specs.Values.StampTexts.{zone_number};
ghost use Rattle.ical_values.specs.ZonePlaces.{HasFirstPlaces, with_first};

use cal_base::{List, NameMap, NoMemory, Octets};
use std::alloc::Global;
use std::marker::Model;

/// The names of an object's time zones in order, made once for all its lines: a name's number is
/// found in time that grows with the logarithm of how many there are. Contracts see the names.
#[derive(Drop)]
pub struct ZoneNames {
    names: List<Octets>,
    numbers: NameMap<u32>,
}

impl Model for ZoneNames {
    ghost use Rattle.std.specs.Prelude.{◌<◌, ◌^◌, List, ℕ, length};
    ghost use Rattle.ical_values.specs.ZonePlaces.{HasFirstPlaces};

    ghost Value = { List (List ℕ) };

    ghost view = { λ zones. zones.names };

    ghost invariant = { λ zones. (length zones.names < 2 ^ 32) × HasFirstPlaces zones.numbers zones.names };
}

impl ZoneNames {
    /// A copy of the names, with their numbers.
    pub fn of(alloc: Global, names: &List<Octets>) -> Result<ZoneNames, NoMemory>
        requires { length names.now < 2 ^ 32 }
        ensures { IfOk result (λ zones. zones ≡ names.now) }
    {
        let numbers = numbers_of(alloc, names.as_slice())?;
        match copied(alloc, names.as_slice()) {
            Ok(names) => Ok(ZoneNames { names, numbers }),
            Err(fault) => Err(fault),
        }
    }

    /// How many names there are.
    pub fn len(&self) -> u32
        ensures { result ≡ length self.now }
    {
        self.names.len() as u32
    }

    /// The number of a name: its first place among the names, which are compared octet by octet. A
    /// name that is none of them has the number behind the last. Takes no memory.
    pub fn number(&self, name: &[u8]) -> u32
        ensures { result ≡ zone_number self.now name.now }
    {
        match self.numbers.get(name) {
            Some(number) => *number,
            None => self.names.len() as u32,
        }
    }
}

/// The first place of each name.
fn numbers_of(alloc: Global, names: &[Octets]) -> Result<NameMap<u32>, NoMemory>
    requires { length names.now < 2 ^ 32 }
    ensures { IfOk result (λ numbers. HasFirstPlaces numbers names.now) }
{
    let mut numbers = NameMap::new(alloc);
    'names: for (place, name) in names.iter().enumerate() {
        add_name(alloc, &mut numbers, name.as_slice(), place as u32)?;
    }
    Ok(numbers)
}

/// Puts a number at a name that has none.
fn add_name(
    alloc: Global,
    numbers: &mut NameMap<u32>,
    name: &[u8],
    number: u32,
) -> Result<(), NoMemory>
    ensures { OnOk result ((other : List ℕ) → value_at numbers.new other ≡ with_first (value_at numbers.old other) (bytes_eq other name.now) number) }
{
    if numbers.get(name).is_some() {
        return Ok(());
    }
    let name = Octets::of(alloc, name)?;
    match numbers.insert(name, number) {
        Ok(()) => Ok(()),
        Err(fault) => Err(fault),
    }
}

/// A copy of some names.
fn copied(alloc: Global, names: &[Octets]) -> Result<List<Octets>, NoMemory>
    ensures { IfOk result (λ copies. copies ≡ names.now) }
{
    let mut copies = List::new(alloc);
    copies.reserve(names.len())?;
    'names: for name in names {
        copies.push(Octets::of(alloc, name.as_slice())?)?;
    }
    Ok(copies)
}
