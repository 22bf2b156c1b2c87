//! A user's home: its calendars, and what its accepted changes cost.
ghost use Rattle.std.specs.Prelude.{◌≡◌, ℕ, [], ◌∷◌, Some, OnOk, OnErr, IfOk, IfSome, length, option_map, option_and_then};
ghost use Rattle.cal_base.specs.Lists.NameMap.{value_at};
ghost use Rattle.cal_model.specs.declared.stored.Stored.{Stored as StoredData};
ghost use Rattle.cal_model.specs.State.ServerState.{displayname};
ghost use Rattle.cal_model.specs.History.KeptChanges.{IsAtPlace};
ghost use Rattle.collections.specs.KeptCalendars.{KeptObject, KeptCalendar};
ghost use Rattle.collections.specs.Settings.{last_zone, IsShort};
ghost use Rattle.collections.specs.Homes.{with_object, without_object, with_grants as grants_in, with_sets as sets_in, empty_calendar, in_calendar, with_calendar, without_calendar, charged, first_name, opening_home as home_at_start, IsHome, HasRoom, IsAloneIn};

use crate::calendar::CalendarStore;
use cal_base::{Arc, List, NameMap, NoMemory, Octets};
use cal_model::{CHANGE_COST, Grant, PropName, PropSet, Stored};
use std::alloc::Global;

/// A home.
#[derive(Drop)]
pub(crate) struct KeptHome {
    /// What the changes that were accepted for it cost in all, in octets.
    pub(crate) accepted: u64,
    /// Its calendars by their names.
    pub(crate) calendars: NameMap<CalendarStore>,
}

/// The one setting of the first calendar: its displayname.
fn first_setting(alloc: Global) -> Result<List<PropSet>, NoMemory>
    ensures { IfOk result (λ sets. sets ≡ record { name = displayname; value = Some first_name } ∷ []) }
{
    let name = PropName {
        space: Octets::of(alloc, b"DAV:")?,
        name: Octets::of(alloc, b"displayname")?,
    };
    let value = Octets::of(alloc, b"calendar")?;
    let mut sets = List::new(alloc);
    sets.push(PropSet {
        name,
        value: Some(value),
    })?;
    Ok(sets)
}

/// The calendar of the name `calendar` that a home has at the start.
pub(crate) fn first_calendar(alloc: Global, number: u32) -> Result<CalendarStore, NoMemory>
    ensures { IfOk result (λ kept. kept ≡ record (empty_calendar number first_name) { texts = (displayname, first_name) ∷ [] }) }
{
    let name = Arc::new(alloc, Octets::of(alloc, b"calendar")?)?;
    let sets = first_setting(alloc)?;
    CalendarStore::with_settings(alloc, number, name, sets.as_slice())
}

/// The home of a user's number at the start.
pub(crate) fn opening_home(alloc: Global, number: u32) -> Result<KeptHome, NoMemory>
    ensures { IfOk result (λ home. home ≡ home_at_start number) }
{
    let mut calendars = NameMap::new(alloc);
    let name = Octets::of(alloc, b"calendar")?;
    let calendar = first_calendar(alloc, number)?;
    calendars.insert(name, calendar)?;
    Ok(KeptHome {
        accepted: 0,
        calendars,
    })
}

/// Puts an object into its calendar.
pub(crate) fn put(
    alloc: Global,
    home: &mut KeptHome,
    stored: &Arc<Stored>,
    origin: u64,
) -> Result<(), NoMemory>
    requires home { IsHome stored.now.path.home home.old }
    requires room { HasRoom (length stored.now.octets) home.old }
    requires alone { IsAloneIn stored.now home.old }
    ensures ok { OnOk result (home.new ≡ charged (length stored.now.octets) (in_calendar stored.now.path.calendar (with_object stored.now.path.object (record { octets = stored.now.octets; origin = origin })) home.old)) }
    ensures err { OnErr result (home.new ≡ home.old) }
{
    if let Some(calendar) = home.calendars.get_mut(stored.path.calendar.as_slice()) {
        calendar.put(alloc, stored, origin)?;
    }
    home.accepted += stored.octets.len() as u64 + CHANGE_COST;
    Ok(())
}

/// Takes an object out of its calendar. Takes no memory.
pub(crate) fn take_object(home: &mut KeptHome, calendar: &[u8], name: &[u8]) -> Option<Arc<Stored>>
    ensures octets { option_map (λ (stored : StoredData). stored.octets) result ≡ option_map (λ (object : KeptObject). object.octets) (option_and_then (λ (kept : KeptCalendar). value_at kept.objects name.now) (value_at home.old.calendars calendar.now)) }
    ensures place { (number : ℕ) → IsHome number home.old → IfSome result (λ stored. IsAtPlace number calendar.now name.now stored.path) }
    ensures rest { home.new ≡ in_calendar calendar.now (without_object name.now) home.old }
{
    match home.calendars.get_mut(calendar) {
        Some(kept) => kept.take(name),
        None => None,
    }
}

/// Takes a calendar out with its objects, and gives its name. Takes no memory.
pub(crate) fn take_calendar(home: &mut KeptHome, name: &[u8]) -> Option<Arc<Octets>>
    ensures name { result ≡ option_map (λ (kept : KeptCalendar). kept.name) (value_at home.old.calendars name.now) }
    ensures rest { home.new ≡ without_calendar name.now home.old }
{
    match home.calendars.remove(name) {
        Some(calendar) => Some(calendar.into_name()),
        None => None,
    }
}

/// Makes a calendar with settings.
pub(crate) fn make(
    alloc: Global,
    home: &mut KeptHome,
    number: u32,
    name: &Arc<Octets>,
    sets: &[PropSet],
    size: u32,
) -> Result<(), NoMemory>
    requires room { HasRoom size home.old }
    requires short { IfSome (last_zone sets.now) IsShort }
    ensures ok { OnOk result (home.new ≡ charged size (with_calendar name.now (sets_in sets.now (empty_calendar number name.now)) home.old)) }
    ensures err { OnErr result (home.new ≡ home.old) }
{
    let key = Octets::of(alloc, name.as_slice())?;
    let calendar = CalendarStore::with_settings(alloc, number, Arc::try_clone(name)?, sets)?;
    home.calendars.insert(key, calendar)?;
    home.accepted += u64::from(size) + CHANGE_COST;
    Ok(())
}

/// Sets and removes properties of a calendar, in order.
pub(crate) fn set(
    alloc: Global,
    home: &mut KeptHome,
    name: &[u8],
    sets: &[PropSet],
    size: u32,
) -> Result<(), NoMemory>
    requires room { HasRoom size home.old }
    requires short { IfSome (last_zone sets.now) IsShort }
    ensures ok { OnOk result (home.new ≡ charged size (in_calendar name.now (sets_in sets.now) home.old)) }
    ensures err { OnErr result (home.new ≡ home.old) }
{
    if let Some(calendar) = home.calendars.get_mut(name) {
        calendar.set(alloc, sets)?;
    }
    home.accepted += u64::from(size) + CHANGE_COST;
    Ok(())
}

/// Replaces the grants of a calendar.
pub(crate) fn set_grants(
    alloc: Global,
    home: &mut KeptHome,
    name: &[u8],
    grants: &[Grant],
    size: u32,
) -> Result<(), NoMemory>
    requires room { HasRoom size home.old }
    ensures ok { OnOk result (home.new ≡ charged size (in_calendar name.now (grants_in grants.now) home.old)) }
    ensures err { OnErr result (home.new ≡ home.old) }
{
    if let Some(calendar) = home.calendars.get_mut(name) {
        calendar.set_grants(alloc, grants)?;
    }
    home.accepted += u64::from(size) + CHANGE_COST;
    Ok(())
}
