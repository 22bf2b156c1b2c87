//! The homes of all users, in the order of their numbers.
ghost use Rattle.std.specs.Prelude.{◌≡◌, ℕ, List as Items, OnOk, OnErr, IfOk, IfSome, length, option_map, option_and_then, slice_get};
ghost use Rattle.std.specs.Option.{option_copied};
ghost use Rattle.std.specs.Borrow.{Bor};
ghost use Rattle.cal_base.specs.Lists.NameMap.{next_above};
ghost use Rattle.cal_model.specs.declared.stored.Stored.{Stored as StoredData};
ghost use Rattle.cal_model.specs.History.KeptChanges.{IsAtPlace};
ghost use Rattle.collections.specs.declared.home.KeptHome.{KeptHome as Home};
ghost use Rattle.collections.specs.KeptCalendars.{KeptObject, KeptCalendar};
ghost use Rattle.collections.specs.Kept.{kept_calendar, kept_object};
ghost use Rattle.collections.specs.Settings.{last_zone, IsShort};
ghost use Rattle.collections.specs.Homes.{with_object, without_object, with_grants as grants_in, with_sets as sets_in, empty_calendar, in_calendar, with_calendar, without_calendar, charged, in_home, opening_homes as homes_at_start, AreHomes, HasRoom, IsAloneIn, IfHome};

use crate::calendar::CalendarStore;
use crate::home::{KeptHome, make, opening_home, put, set, set_grants, take_calendar, take_object};
use cal_base::{Arc, List, NoMemory, Octets};
use cal_model::{Grant, PropSet, Stored};
use std::alloc::Global;

/// The homes of so many users at the start.
#[tactic(auto, using(crate::proofs::OpeningLemmas::homes_more_one))]
pub(crate) fn opening_homes(alloc: Global, users: u32) -> Result<Vec<KeptHome>, NoMemory>
    ensures { IfOk result (λ homes. homes.items ≡ homes_at_start users) }
{
    let mut homes = List::new(alloc);
    for number in 0..users {
        let home = opening_home(alloc, number)?;
        homes.push(home)?;
    }
    Ok(homes.into_vec())
}

/// A calendar of a home.
pub(crate) fn calendar_in<'a>(
    homes: &'a [KeptHome],
    home: u32,
    name: &[u8],
) -> Option<&'a CalendarStore>
    ensures { option_copied result ≡ kept_calendar homes.now home name.now }
{
    match homes.get(home as usize) {
        Some(home) => home.calendars.get(name),
        None => None,
    }
}

/// The calendar of a home with the least name above a name, and its name.
pub(crate) fn next_calendar_in<'a>(
    homes: &'a [KeptHome],
    home: u32,
    name: &[u8],
) -> Option<(&'a [u8], &'a CalendarStore)>
    ensures { option_map (λ (p : Bor (Items ℕ) × Bor KeptCalendar). (p.0.now, p.1.now)) result ≡ option_and_then (λ (h : Home). next_above h.calendars name.now) (slice_get homes.now home) }
{
    match homes.get(home as usize) {
        Some(home) => home.calendars.next_above(name),
        None => None,
    }
}

/// Puts an object at its place.
pub(crate) fn put_in(
    alloc: Global,
    homes: &mut Vec<KeptHome>,
    stored: &Arc<Stored>,
    origin: u64,
) -> Result<(), NoMemory>
    requires homes { AreHomes homes.old.items }
    requires room { IfHome homes.old.items stored.now.path.home (HasRoom (length stored.now.octets)) }
    requires alone { IfHome homes.old.items stored.now.path.home (IsAloneIn stored.now) }
    ensures ok { OnOk result (homes.new.items ≡ in_home stored.now.path.home (λ home. charged (length stored.now.octets) (in_calendar stored.now.path.calendar (with_object stored.now.path.object (record { octets = stored.now.octets; origin = origin })) home)) homes.old.items) }
    ensures err { OnErr result (homes.new.items ≡ homes.old.items) }
{
    match homes.get_mut(stored.path.home as usize) {
        Some(home) => put(alloc, home, stored, origin),
        None => Ok(()),
    }
}

/// Deletes an object. Takes no memory.
pub(crate) fn delete_object_in(
    homes: &mut Vec<KeptHome>,
    home: u32,
    calendar: &[u8],
    name: &[u8],
) -> Option<Arc<Stored>>
    requires homes { AreHomes homes.old.items }
    ensures octets { option_map (λ (stored : StoredData). stored.octets) result ≡ option_map (λ (object : KeptObject). object.octets) (kept_object homes.old.items home calendar.now name.now) }
    ensures place { IfSome result (λ stored. IsAtPlace home calendar.now name.now stored.path) }
    ensures rest { homes.new.items ≡ in_home home (in_calendar calendar.now (without_object name.now)) homes.old.items }
{
    match homes.get_mut(home as usize) {
        Some(home) => take_object(home, calendar, name),
        None => None,
    }
}

/// Deletes a calendar with its objects, and gives its name. Takes no memory.
pub(crate) fn delete_calendar_in(
    homes: &mut Vec<KeptHome>,
    home: u32,
    name: &[u8],
) -> Option<Arc<Octets>>
    ensures name { result ≡ option_map (λ (kept : KeptCalendar). kept.name) (kept_calendar homes.old.items home name.now) }
    ensures rest { homes.new.items ≡ in_home home (without_calendar name.now) homes.old.items }
{
    match homes.get_mut(home as usize) {
        Some(home) => take_calendar(home, name),
        None => None,
    }
}

/// Makes a calendar with settings.
pub(crate) fn make_in(
    alloc: Global,
    homes: &mut Vec<KeptHome>,
    home: u32,
    name: &Arc<Octets>,
    sets: &[PropSet],
    size: u32,
) -> Result<(), NoMemory>
    requires room { IfHome homes.old.items home (HasRoom size) }
    requires short { IfSome (last_zone sets.now) IsShort }
    ensures ok { OnOk result (homes.new.items ≡ in_home home (λ h. charged size (with_calendar name.now (sets_in sets.now (empty_calendar home name.now)) h)) homes.old.items) }
    ensures err { OnErr result (homes.new.items ≡ homes.old.items) }
{
    match homes.get_mut(home as usize) {
        Some(kept) => make(alloc, kept, home, name, sets, size),
        None => Ok(()),
    }
}

/// Sets and removes properties of a calendar, in order.
pub(crate) fn set_in(
    alloc: Global,
    homes: &mut Vec<KeptHome>,
    home: u32,
    name: &[u8],
    sets: &[PropSet],
    size: u32,
) -> Result<(), NoMemory>
    requires room { IfHome homes.old.items home (HasRoom size) }
    requires short { IfSome (last_zone sets.now) IsShort }
    ensures ok { OnOk result (homes.new.items ≡ in_home home (λ h. charged size (in_calendar name.now (sets_in sets.now) h)) homes.old.items) }
    ensures err { OnErr result (homes.new.items ≡ homes.old.items) }
{
    match homes.get_mut(home as usize) {
        Some(home) => set(alloc, home, name, sets, size),
        None => Ok(()),
    }
}

/// Replaces the grants of a calendar.
pub(crate) fn set_grants_in(
    alloc: Global,
    homes: &mut Vec<KeptHome>,
    home: u32,
    name: &[u8],
    grants: &[Grant],
    size: u32,
) -> Result<(), NoMemory>
    requires room { IfHome homes.old.items home (HasRoom size) }
    ensures ok { OnOk result (homes.new.items ≡ in_home home (λ h. charged size (in_calendar name.now (grants_in grants.now) h)) homes.old.items) }
    ensures err { OnErr result (homes.new.items ≡ homes.old.items) }
{
    match homes.get_mut(home as usize) {
        Some(home) => set_grants(alloc, home, name, grants, size),
        None => Ok(()),
    }
}
