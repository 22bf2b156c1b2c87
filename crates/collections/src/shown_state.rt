//! The state of the server as looks share it.
ghost use Rattle.std.specs.Prelude.{◌≡◌, ℕ, List, [], Some, IfOk, IfSome, map, option_map};
ghost use Rattle.std.specs.Option.{option_copied};
ghost use Rattle.std.specs.Borrow.{Bor};
ghost use Rattle.cal_model.specs.declared.stored.Stored.{Stored as StoredData};
ghost use Rattle.cal_model.specs.declared.store.CalendarData.{CalendarData as Data};
ghost use Rattle.cal_model.specs.History.KeptChanges.{IsAtPlace};
ghost use Rattle.cal_model.specs.History.Origins.{AreLive};
ghost use Rattle.cal_model.specs.State.ServerState.{opening_state, directory_of, octets_at};
ghost use Rattle.cal_model.specs.State.SoundStates.{IsSound};
ghost use Rattle.cal_model.specs.State.StoredData.{data_at, next_calendar, next_object};
ghost use Rattle.object_walk.specs.WalkedObjects.{AreInCalendar, HaveOriginsOf, named_octets, objects_at};

use crate::shown_homes::{ShownHomes, follow_homes};
use cal_base::{Arc, NoMemory, Shared};
use cal_model::view::Applies;
use cal_model::{CalendarData, Change, Stored};
use object_walk::ObjectWalk;
use privileges::Users;
use std::alloc::Global;
use std::marker::Model;

/// The homes of the users as a store keeps them, which looks share: a look shows the state as it was,
/// whatever changes are made later. Contracts see what they see of a store: the users and, of each
/// object, the octets and the origin.
///
/// It answers no more than replies to reading requests ask: it has no index of UIDs, and it doesn't
/// tell what a home's changes cost. A change that others look at takes a copy of the names of its home's
/// calendars and, where it is one of objects, of the names in its calendar; each change may want memory
/// for that, also a deletion.
#[derive(Drop)]
pub struct ShownState {
    alloc: Global,
    users: Arc<Users>,
    homes: Shared<ShownHomes>,
}

impl Model for ShownState {
    ghost use Rattle.collections.specs.Kept.{Kept};
    ghost use Rattle.collections.specs.Stores.{IsStore};

    ghost Value = { Kept };

    ghost view = { λ s. record { users = s.users; homes = s.homes } };

    ghost invariant = { λ s. IsStore (record { users = s.users; homes = s.homes }) };
}

impl ShownState {
    ghost use Rattle.collections.specs.Kept.{state_of, users_of, origins_of};
    ghost use Rattle.collections.specs.Stores.{HaveOrigins};

    /// The state at the start, as that of `Store::new`.
    pub fn new(alloc: Global, users: Arc<Users>) -> Result<ShownState, NoMemory>
        ensures users { IfOk result (λ shown. shown.users ≡ users) }
        ensures state { IfOk result (λ shown. state_of shown ≡ opening_state (directory_of users)) }
        ensures no_objects { IfOk result (λ shown. AreLive [] (origins_of shown)) }
    {
        let homes = ShownHomes::opening(alloc, users.len())?;
        let homes = Shared::new(alloc, homes)?;
        Ok(ShownState {
            alloc,
            users,
            homes,
        })
    }

    /// A look at the state, in constant time: it shows the state of now, whatever changes are made in
    /// this one later. Takes no memory; it fails only where there are 2^63 looks.
    pub fn look(&self) -> Result<ShownState, NoMemory>
        ensures { IfOk result (λ look. look ≡ self.now) }
    {
        let users = Arc::try_clone(&self.users)?;
        let homes = self.homes.look()?;
        Ok(ShownState {
            alloc: self.alloc,
            users,
            homes,
        })
    }

    /// The users, whose homes these are. (That the state is sound, and that each object has an
    /// origin, holds of every state that is shown.)
    pub fn users(&self) -> &Users
        ensures users { result.now ≡ self.now.users }
        ensures sound { IsSound (users_of self.now) (state_of self.now) }
        ensures everywhere { HaveOrigins (state_of self.now) (origins_of self.now) }
    {
        &self.users
    }

    /// A calendar in a user's home, without its objects. Takes no memory.
    pub fn calendar(&self, home: u32, name: &[u8]) -> Option<&CalendarData>
        ensures data { option_copied result ≡ data_at (state_of self.now) home name.now }
        ensures sound { IsSound (users_of self.now) (state_of self.now) }
    {
        match self.homes.calendar(home, name) {
            Some(calendar) => Some(calendar.data()),
            None => None,
        }
    }

    /// The calendar with the least name above a name, and its name; the empty name comes before all.
    /// Takes no memory. From a name that is there the time grows with the logarithm of how many
    /// calendars the home has.
    pub fn calendar_after(&self, home: u32, name: &[u8]) -> Option<(&[u8], &CalendarData)>
        ensures { option_map (λ (p : Bor (List ℕ) × Bor Data). (p.0.now, p.1.now)) result ≡ next_calendar (state_of self.now) home name.now }
    {
        match self.homes.next_calendar(home, name) {
            Some((name, calendar)) => Some((name, calendar.data())),
            None => None,
        }
    }

    /// An object of a calendar, and its origin. Takes no memory.
    pub fn object(&self, home: u32, calendar: &[u8], name: &[u8]) -> Option<(&Arc<Stored>, u64)>
        ensures octets { option_map (λ (p : Bor StoredData × ℕ). p.0.now.octets) result ≡ octets_at (state_of self.now) home calendar.now name.now }
        ensures origin { option_map (λ (p : Bor StoredData × ℕ). p.1) result ≡ origins_of self.now home calendar.now name.now }
        ensures place { IfSome result (λ p. IsAtPlace home calendar.now name.now p.0.now.path) }
        ensures everywhere { HaveOrigins (state_of self.now) (origins_of self.now) }
    {
        match self.homes.calendar(home, calendar) {
            Some(calendar) => calendar.object(name),
            None => None,
        }
    }

    /// The object with the least name above a name, and its origin; the empty name comes before all.
    /// Takes no memory. From a name that is there the time grows with the logarithm of how many
    /// objects the calendar has.
    pub fn object_after(
        &self,
        home: u32,
        calendar: &[u8],
        name: &[u8],
    ) -> Option<(&Arc<Stored>, u64)>
        ensures octets { option_map (λ (p : Bor StoredData × ℕ). (p.0.now.path.object, p.0.now.octets)) result ≡ next_object (state_of self.now) home calendar.now name.now }
        ensures origin { IfSome result (λ p. origins_of self.now home calendar.now p.0.now.path.object ≡ Some p.1) }
        ensures place { IfSome result (λ p. IsAtPlace home calendar.now p.0.now.path.object p.0.now.path) }
    {
        match self.homes.calendar(home, calendar) {
            Some(calendar) => calendar.object_after(name),
            None => None,
        }
    }

    /// The objects of a calendar in the order of their names, with their origins; none where it isn't
    /// there. Takes no memory, and about the logarithm of how many calendars the home has.
    pub fn objects(&self, home: u32, calendar: &[u8]) -> ObjectWalk<'_>
        ensures octets { map named_octets result ≡ objects_at (state_of self.now) home calendar.now }
        ensures origins { HaveOriginsOf (origins_of self.now home calendar.now) result }
        ensures places { AreInCalendar home calendar.now result }
        ensures sound { IsSound (users_of self.now) (state_of self.now) }
    {
        match self.homes.calendar(home, calendar) {
            Some(calendar) => calendar.objects(),
            None => ObjectWalk::empty(),
        }
    }
}

impl Applies for ShownState {
    ghost use Rattle.collections.specs.Kept.{state_of, users_of, origins_of};

    ghost directory = { users_of };

    ghost state = { state_of };

    ghost origins = { origins_of };

    fn apply(&mut self, change: &Change, origin: u64) -> Result<(), NoMemory> {
        follow_homes(self.alloc, &mut self.homes, change, origin)?;
        Ok(())
    }
}
