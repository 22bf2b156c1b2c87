//! The calendars of a home as looks share them, and the changes of them that a journal has.
ghost use Rattle.std.specs.Prelude.{◌≡◌, OnOk, OnErr, IfSome};
ghost use Rattle.cal_base.specs.Lists.NameMap.{with_value};
ghost use Rattle.collections.specs.Following.{home_in, in_calendars, calendars_after, AreOf, IsShortIn};
ghost use Rattle.collections.specs.Homes.{with_object, without_object, with_grants, with_sets, empty_calendar};
ghost use Rattle.collections.specs.Settings.{last_zone, IsShort};

use crate::calendar::CalendarStore;
use crate::shown_calendar::ShownCalendar;
use cal_base::{Arc, NameMap, NoMemory, Octets, Shared};
use cal_model::{Change, Grant, PropSet, Stored};
use std::alloc::Global;

/// Makes a change of a home in its calendars, as the entry of a number. Looks that share them keep
/// what they have; without memory all stays as it was.
pub(crate) fn follow_shown(
    alloc: Global,
    calendars: &mut Shared<NameMap<ShownCalendar>>,
    change: &Change,
    origin: u64,
) -> Result<(), NoMemory>
    requires calendars { AreOf (home_in change.now) calendars.old }
    requires short { IsShortIn change.now }
    ensures ok { OnOk result (calendars.new ≡ calendars_after change.now origin calendars.old) }
    ensures err { OnErr result (calendars.new ≡ calendars.old) }
{
    match calendars.make_own(alloc) {
        Ok(own) => follow(alloc, own, change, origin),
        Err(NoMemory) => Err(NoMemory),
    }
}

/// Makes a change of a home in its calendars, as the entry of a number.
fn follow(
    alloc: Global,
    calendars: &mut NameMap<ShownCalendar>,
    change: &Change,
    origin: u64,
) -> Result<(), NoMemory>
    requires calendars { AreOf (home_in change.now) calendars.old }
    requires short { IsShortIn change.now }
    ensures ok { OnOk result (calendars.new ≡ calendars_after change.now origin calendars.old) }
    ensures err { OnErr result (calendars.new ≡ calendars.old) }
{
    match change {
        Change::Put(stored) => put(alloc, calendars, stored, origin),
        Change::DeleteObject(stored) => {
            let place = &stored.path;
            take(
                alloc,
                calendars,
                place.calendar.as_slice(),
                place.object.as_slice(),
            )
        }
        Change::DeleteCalendar(_, name) => {
            let _gone = calendars.remove(name.as_slice());
            Ok(())
        }
        Change::Make(home, name, sets, _) => make(alloc, calendars, *home, name, sets.as_slice()),
        Change::Patch(_, name, sets, _) => set(alloc, calendars, name.as_slice(), sets.as_slice()),
        Change::Acl(_, name, grants, _) => {
            set_grants(alloc, calendars, name.as_slice(), grants.as_slice())
        }
    }
}

/// Puts an object into its calendar.
fn put(
    alloc: Global,
    calendars: &mut NameMap<ShownCalendar>,
    stored: &Arc<Stored>,
    origin: u64,
) -> Result<(), NoMemory>
    requires calendars { AreOf stored.now.path.home calendars.old }
    ensures ok { OnOk result (calendars.new ≡ in_calendars stored.now.path.calendar (with_object stored.now.path.object (record { octets = stored.now.octets; origin = origin })) calendars.old) }
    ensures err { OnErr result (calendars.new ≡ calendars.old) }
{
    match calendars.get_mut(stored.path.calendar.as_slice()) {
        Some(calendar) => calendar.put(alloc, stored, origin),
        None => Ok(()),
    }
}

/// Takes an object out of its calendar.
fn take(
    alloc: Global,
    calendars: &mut NameMap<ShownCalendar>,
    name: &[u8],
    object: &[u8],
) -> Result<(), NoMemory>
    ensures ok { OnOk result (calendars.new ≡ in_calendars name.now (without_object object.now) calendars.old) }
    ensures err { OnErr result (calendars.new ≡ calendars.old) }
{
    match calendars.get_mut(name) {
        Some(calendar) => calendar.take(alloc, object),
        None => Ok(()),
    }
}

/// Makes a calendar with settings.
fn make(
    alloc: Global,
    calendars: &mut NameMap<ShownCalendar>,
    home: u32,
    name: &Arc<Octets>,
    sets: &[PropSet],
) -> Result<(), NoMemory>
    requires short { IfSome (last_zone sets.now) IsShort }
    ensures ok { OnOk result (calendars.new ≡ with_value calendars.old name.now (with_sets sets.now (empty_calendar home name.now))) }
    ensures err { OnErr result (calendars.new ≡ calendars.old) }
{
    let key = Octets::of(alloc, name.as_slice())?;
    let made = CalendarStore::with_settings(alloc, home, Arc::try_clone(name)?, sets)?;
    let shown = made.into_shown(alloc)?;
    calendars.insert(key, shown)
}

/// Sets and removes properties of a calendar, in order.
fn set(
    alloc: Global,
    calendars: &mut NameMap<ShownCalendar>,
    name: &[u8],
    sets: &[PropSet],
) -> Result<(), NoMemory>
    requires short { IfSome (last_zone sets.now) IsShort }
    ensures ok { OnOk result (calendars.new ≡ in_calendars name.now (with_sets sets.now) calendars.old) }
    ensures err { OnErr result (calendars.new ≡ calendars.old) }
{
    match calendars.get_mut(name) {
        Some(calendar) => calendar.set(alloc, sets),
        None => Ok(()),
    }
}

/// Replaces the grants of a calendar.
fn set_grants(
    alloc: Global,
    calendars: &mut NameMap<ShownCalendar>,
    name: &[u8],
    grants: &[Grant],
) -> Result<(), NoMemory>
    ensures ok { OnOk result (calendars.new ≡ in_calendars name.now (with_grants grants.now) calendars.old) }
    ensures err { OnErr result (calendars.new ≡ calendars.old) }
{
    match calendars.get_mut(name) {
        Some(calendar) => calendar.set_grants(alloc, grants),
        None => Ok(()),
    }
}
