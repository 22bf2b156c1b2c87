//! The store: the homes of all users.
ghost use Rattle.std.specs.Prelude.{◌≡◌, ◌≤◌, ℕ, false, List, [], Some, None, OnOk, OnErr, IfOk, IfSome, IsSome, length, map, option_map};
ghost use Rattle.std.specs.Option.{option_copied, option_map_or};
ghost use Rattle.std.specs.Borrow.{Bor};
ghost use Rattle.cal_model.specs.declared.stored.Stored.{Stored as StoredData};
ghost use Rattle.cal_model.specs.declared.store.CalendarData.{CalendarData as Data};
ghost use Rattle.cal_model.specs.History.KeptChanges.{kept_change, is_deletion, IsAtPlace, IsAcceptable};
ghost use Rattle.cal_model.specs.History.Origins.{AreLive, origins_after};
ghost use Rattle.cal_model.specs.State.Changes.{effect, put, delete_object, delete_calendar, make, patch, acl};
ghost use Rattle.cal_model.specs.State.ServerState.{Home, opening_state, directory_of, home_at, calendar_at, octets_at};
ghost use Rattle.cal_model.specs.State.SoundStates.{IsSound, IsSoundChange};
ghost use Rattle.cal_model.specs.State.StoredData.{data_at, next_calendar, next_object};
ghost use Rattle.cal_model.specs.Words.Limits.{home_limit};
ghost use Rattle.collections.specs.Settings.{last_zone, IsShort};
ghost use Rattle.collections.specs.UidHolders.{uid_holder_at, IsAloneWithAt};
ghost use Rattle.object_walk.specs.WalkedObjects.{AreInCalendar, HaveOriginsOf, named_octets, objects_at};

use crate::home::KeptHome;
use crate::homes::{
    calendar_in, delete_calendar_in, delete_object_in, make_in, next_calendar_in, opening_homes,
    put_in, set_grants_in, set_in,
};
use crate::zone_pool::ZonePool;
use cal_base::{Arc, NoMemory, Octets};
use cal_model::view::Applies;
use cal_model::{CalendarData, Change, Grant, Object, PropSet, Stored};
use object_walk::ObjectWalk;
use privileges::Users;
use std::alloc::Global;
use std::marker::Model;

/// The homes of the users, in the order of their numbers, with their calendars and the objects in
/// these. Contracts see the users and, of each object, the octets and the origin: the number of the
/// journal's entry that made it.
///
/// No call goes over what it is not asked for: each takes about the logarithm of what there is.
#[derive(Drop)]
pub struct Store {
    alloc: Global,
    users: Arc<Users>,
    homes: Vec<KeptHome>,
    /// What contracts don't see: the tables that objects share are equal to their own.
    zones: ZonePool,
}

impl Model for Store {
    ghost use Rattle.collections.specs.Kept.{Kept};
    ghost use Rattle.collections.specs.Stores.{IsStore};

    ghost Value = { Kept };

    ghost view = { λ s. record { users = s.users; homes = s.homes.items } };

    ghost invariant = { λ s. IsStore (record { users = s.users; homes = s.homes.items }) };
}

impl Store {
    ghost use Rattle.collections.specs.Kept.{state_of, users_of, origins_of};
    ghost use Rattle.collections.specs.Stores.{HaveOrigins, HasRoomAt, MayBePut};

    /// The store at the start: each user's home has one calendar of the name `calendar`, with that
    /// displayname, all kinds, no grants and no objects.
    pub fn new(alloc: Global, users: Arc<Users>) -> Result<Store, NoMemory>
        ensures users { IfOk result (λ store. store.users ≡ users) }
        ensures state { IfOk result (λ store. state_of store ≡ opening_state (directory_of users)) }
        ensures no_objects { IfOk result (λ store. AreLive [] (origins_of store)) }
    {
        let homes = opening_homes(alloc, users.len())?;
        Ok(Store {
            alloc,
            users,
            homes,
            zones: ZonePool::new(alloc),
        })
    }

    /// The users, whose homes these are. (That the state is sound, and that each object has an
    /// origin, holds of every store.)
    pub fn users(&self) -> &Users
        ensures users { result.now ≡ self.now.users }
        ensures sound { IsSound (users_of self.now) (state_of self.now) }
        ensures everywhere { HaveOrigins (state_of self.now) (origins_of self.now) }
    {
        &self.users
    }

    /// A calendar in a user's home, without its objects. Takes no memory.
    pub fn calendar(&self, home: u32, name: &[u8]) -> Option<&CalendarData>
        ensures data { option_copied result ≡ data_at (state_of self.now) home name.now }
        ensures sound { IsSound (users_of self.now) (state_of self.now) }
    {
        match calendar_in(&self.homes, home, name) {
            Some(calendar) => Some(calendar.data()),
            None => None,
        }
    }

    /// The calendar with the least name above a name, and its name; the empty name comes before all.
    /// Takes no memory. From a name that is there the time grows with the logarithm of how many
    /// calendars the home has.
    pub fn calendar_after(&self, home: u32, name: &[u8]) -> Option<(&[u8], &CalendarData)>
        ensures { option_map (λ (p : Bor (List ℕ) × Bor Data). (p.0.now, p.1.now)) result ≡ next_calendar (state_of self.now) home name.now }
    {
        match next_calendar_in(&self.homes, home, name) {
            Some((name, calendar)) => Some((name, calendar.data())),
            None => None,
        }
    }

    /// An object of a calendar, and its origin. Takes no memory.
    pub fn object(&self, home: u32, calendar: &[u8], name: &[u8]) -> Option<(&Arc<Stored>, u64)>
        ensures octets { option_map (λ (p : Bor StoredData × ℕ). p.0.now.octets) result ≡ octets_at (state_of self.now) home calendar.now name.now }
        ensures origin { option_map (λ (p : Bor StoredData × ℕ). p.1) result ≡ origins_of self.now home calendar.now name.now }
        ensures place { IfSome result (λ p. IsAtPlace home calendar.now name.now p.0.now.path) }
        ensures everywhere { HaveOrigins (state_of self.now) (origins_of self.now) }
    {
        match calendar_in(&self.homes, home, calendar) {
            Some(calendar) => calendar.object(name),
            None => None,
        }
    }

    /// The object with the least name above a name, and its origin; the empty name comes before all.
    /// Takes no memory. From a name that is there the time grows with the logarithm of how many
    /// objects the calendar has.
    pub fn object_after(
        &self,
        home: u32,
        calendar: &[u8],
        name: &[u8],
    ) -> Option<(&Arc<Stored>, u64)>
        ensures octets { option_map (λ (p : Bor StoredData × ℕ). (p.0.now.path.object, p.0.now.octets)) result ≡ next_object (state_of self.now) home calendar.now name.now }
        ensures origin { IfSome result (λ p. origins_of self.now home calendar.now p.0.now.path.object ≡ Some p.1) }
        ensures place { IfSome result (λ p. IsAtPlace home calendar.now p.0.now.path.object p.0.now.path) }
    {
        match calendar_in(&self.homes, home, calendar) {
            Some(calendar) => calendar.object_after(name),
            None => None,
        }
    }

    /// The objects of a calendar in the order of their names, with their origins; none where it isn't
    /// there. Takes no memory, and about the logarithm of how many calendars the home has.
    pub fn objects(&self, home: u32, calendar: &[u8]) -> ObjectWalk<'_>
        ensures octets { map named_octets result ≡ objects_at (state_of self.now) home calendar.now }
        ensures origins { HaveOriginsOf (origins_of self.now home calendar.now) result }
        ensures places { AreInCalendar home calendar.now result }
        ensures sound { IsSound (users_of self.now) (state_of self.now) }
    {
        match calendar_in(&self.homes, home, calendar) {
            Some(calendar) => calendar.objects(),
            None => ObjectWalk::empty(),
        }
    }

    /// The object of a calendar that has a UID: there is at most one (RFC 4791, 4.1). Takes no
    /// memory, and about the logarithm of how many objects the calendar has.
    pub fn uid_holder(&self, home: u32, calendar: &[u8], uid: &[u8]) -> Option<&Arc<Stored>>
        ensures object { option_map (λ (stored : Bor StoredData). (stored.now.path.object, stored.now.octets)) result ≡ uid_holder_at (state_of self.now) home calendar.now uid.now }
        ensures place { IfSome result (λ stored. IsAtPlace home calendar.now stored.now.path.object stored.now.path) }
        ensures alone { IsAloneWithAt (state_of self.now) home calendar.now uid.now }
    {
        match calendar_in(&self.homes, home, calendar) {
            Some(calendar) => calendar.uid_holder(uid),
            None => None,
        }
    }

    /// The same object, in less memory: where its zones have the tables of objects that were put
    /// before, it shares them. Takes no memory.
    pub fn shared(&self, object: Object) -> Object
        ensures { result ≡ object }
    {
        self.zones.shared(object)
    }

    /// What the changes that were accepted for a home cost in all, in octets: its body for each PUT,
    /// MKCALENDAR, PROPPATCH and ACL, and 256 more.
    pub fn used(&self, home: u32) -> u64
        ensures used { result ≡ option_map_or (λ (h : Home). h.accepted) (home_at (state_of self.now) home) 0 }
        ensures within { result ≤ home_limit }
    {
        match self.homes.get(home as usize) {
            Some(home) => home.accepted,
            None => 0,
        }
    }

    /// How many calendars a home has; none where it isn't there. Takes no memory.
    pub fn calendar_count(&self, home: u32) -> usize
        ensures { result ≡ option_map_or (λ (h : Home). length h.calendars) (home_at (state_of self.now) home) 0 }
    {
        match self.homes.get(home as usize) {
            Some(home) => home.calendars.len(),
            None => 0,
        }
    }

    /// Deletes an object that is there, and gives it to be kept. Takes no memory.
    pub fn delete_object(&mut self, home: u32, calendar: &[u8], name: &[u8]) -> Arc<Stored>
        requires there { IsSome (octets_at (state_of self.old) home calendar.now name.now) }
        ensures users { users_of self.new ≡ users_of self.old }
        ensures state { state_of self.new ≡ effect (delete_object home calendar.now name.now) (state_of self.old) }
        ensures origins { (h : ℕ) (c o : List ℕ) (n : ℕ) → origins_of self.new h c o ≡ origins_after (delete_object home calendar.now name.now) n (origins_of self.old) h c o }
        ensures octets { octets_at (state_of self.old) home calendar.now name.now ≡ Some result.octets }
        ensures place { IsAtPlace home calendar.now name.now result.path }
    {
        match self.take_object(home, calendar, name) {
            Some(stored) => stored,
            None => unreachable!(),
        }
    }

    /// Deletes a calendar that is there with its objects, and gives its name to be kept. Takes no
    /// memory.
    pub fn delete_calendar(&mut self, home: u32, name: &[u8]) -> Arc<Octets>
        requires there { IsSome (calendar_at (state_of self.old) home name.now) }
        ensures users { users_of self.new ≡ users_of self.old }
        ensures state { state_of self.new ≡ effect (delete_calendar home name.now) (state_of self.old) }
        ensures origins { (h : ℕ) (c o : List ℕ) (n : ℕ) → origins_of self.new h c o ≡ origins_after (delete_calendar home name.now) n (origins_of self.old) h c o }
        ensures name { result ≡ name.now }
    {
        match self.take_calendar(home, name) {
            Some(name) => name,
            None => unreachable!(),
        }
    }

    /// Deletes an object, if it is there. Takes no memory.
    fn take_object(&mut self, home: u32, calendar: &[u8], name: &[u8]) -> Option<Arc<Stored>>
        ensures users { users_of self.new ≡ users_of self.old }
        ensures state { state_of self.new ≡ effect (delete_object home calendar.now name.now) (state_of self.old) }
        ensures origins { (h : ℕ) (c o : List ℕ) (n : ℕ) → origins_of self.new h c o ≡ origins_after (delete_object home calendar.now name.now) n (origins_of self.old) h c o }
        ensures octets { option_map (λ (stored : StoredData). stored.octets) result ≡ octets_at (state_of self.old) home calendar.now name.now }
        ensures place { IfSome result (λ stored. IsAtPlace home calendar.now name.now stored.path) }
    {
        delete_object_in(&mut self.homes, home, calendar, name)
    }

    /// Deletes a calendar with its objects, if it is there. Takes no memory.
    fn take_calendar(&mut self, home: u32, name: &[u8]) -> Option<Arc<Octets>>
        ensures users { users_of self.new ≡ users_of self.old }
        ensures state { state_of self.new ≡ effect (delete_calendar home name.now) (state_of self.old) }
        ensures origins { (h : ℕ) (c o : List ℕ) (n : ℕ) → origins_of self.new h c o ≡ origins_after (delete_calendar home name.now) n (origins_of self.old) h c o }
        ensures some { IsSome (calendar_at (state_of self.old) home name.now) → IsSome result }
        ensures name { IfSome result (λ found. found ≡ name.now) }
    {
        delete_calendar_in(&mut self.homes, home, name)
    }

    /// Puts an object at its place.
    fn put(&mut self, stored: &Arc<Stored>, origin: u64) -> Result<(), NoMemory>
        requires room { HasRoomAt (state_of self.old) stored.now.path.home (length stored.now.octets) }
        requires may { MayBePut (state_of self.old) stored.now.path.home stored.now.path.calendar stored.now.path.object stored.now.octets }
        requires sound { IsSoundChange (users_of self.old) (put stored.now.path.home stored.now.path.calendar stored.now.path.object stored.now.octets) }
        ensures users { users_of self.new ≡ users_of self.old }
        ensures state { OnOk result (state_of self.new ≡ effect (put stored.now.path.home stored.now.path.calendar stored.now.path.object stored.now.octets) (state_of self.old)) }
        ensures origins { OnOk result ((h : ℕ) (c o : List ℕ) → origins_of self.new h c o ≡ origins_after (put stored.now.path.home stored.now.path.calendar stored.now.path.object stored.now.octets) origin (origins_of self.old) h c o) }
        ensures err { OnErr result (self.new ≡ self.old) }
    {
        self.zones.keep(&stored.object);
        put_in(self.alloc, &mut self.homes, stored, origin)
    }

    /// Makes a calendar with settings.
    fn make(
        &mut self,
        home: u32,
        name: &Arc<Octets>,
        sets: &[PropSet],
        size: u32,
    ) -> Result<(), NoMemory>
        requires room { HasRoomAt (state_of self.old) home size }
        requires absent { calendar_at (state_of self.old) home name.now ≡ None }
        requires short { IfSome (last_zone sets.now) IsShort }
        requires sound { IsSoundChange (users_of self.old) (make home name.now sets.now size) }
        ensures users { users_of self.new ≡ users_of self.old }
        ensures state { OnOk result (state_of self.new ≡ effect (make home name.now sets.now size) (state_of self.old)) }
        ensures origins { OnOk result ((h : ℕ) (c o : List ℕ) → origins_of self.new h c o ≡ origins_of self.old h c o) }
        ensures err { OnErr result (self.new ≡ self.old) }
    {
        make_in(self.alloc, &mut self.homes, home, name, sets, size)
    }

    /// Sets and removes properties of a calendar, in order.
    fn set(&mut self, home: u32, name: &[u8], sets: &[PropSet], size: u32) -> Result<(), NoMemory>
        requires room { HasRoomAt (state_of self.old) home size }
        requires short { IfSome (last_zone sets.now) IsShort }
        ensures users { users_of self.new ≡ users_of self.old }
        ensures state { OnOk result (state_of self.new ≡ effect (patch home name.now sets.now size) (state_of self.old)) }
        ensures origins { OnOk result ((h : ℕ) (c o : List ℕ) → origins_of self.new h c o ≡ origins_of self.old h c o) }
        ensures err { OnErr result (self.new ≡ self.old) }
    {
        set_in(self.alloc, &mut self.homes, home, name, sets, size)
    }

    /// Replaces the grants of a calendar.
    fn set_grants(
        &mut self,
        home: u32,
        name: &[u8],
        grants: &[Grant],
        size: u32,
    ) -> Result<(), NoMemory>
        requires room { HasRoomAt (state_of self.old) home size }
        requires sound { IsSoundChange (users_of self.old) (acl home name.now grants.now size) }
        ensures users { users_of self.new ≡ users_of self.old }
        ensures state { OnOk result (state_of self.new ≡ effect (acl home name.now grants.now size) (state_of self.old)) }
        ensures origins { OnOk result ((h : ℕ) (c o : List ℕ) → origins_of self.new h c o ≡ origins_of self.old h c o) }
        ensures err { OnErr result (self.new ≡ self.old) }
    {
        set_grants_in(self.alloc, &mut self.homes, home, name, grants, size)
    }
}

impl Applies for Store {
    ghost use Rattle.collections.specs.Kept.{state_of, users_of, origins_of};

    ghost directory = { users_of };

    ghost state = { state_of };

    ghost origins = { origins_of };

    /// Makes a change that is accepted in this state, as the entry of a number. After `NoMemory`
    /// nothing is changed. A deletion takes no memory and succeeds.
    fn apply(&mut self, change: &Change, origin: u64) -> Result<(), NoMemory>
        requires acceptable { IsAcceptable (users_of self.old) (state_of self.old) (kept_change change.now) }
        requires sound { IsSoundChange (users_of self.old) (kept_change change.now) }
        ensures users { users_of self.new ≡ users_of self.old }
        ensures state { OnOk result (state_of self.new ≡ effect (kept_change change.now) (state_of self.old)) }
        ensures origins { OnOk result ((home : ℕ) (calendar object : List ℕ) → origins_of self.new home calendar object ≡ origins_after (kept_change change.now) origin (origins_of self.old) home calendar object) }
        ensures err_only_where_it_adds { OnErr result (is_deletion (kept_change change.now) ≡ false) }
        ensures unchanged { OnErr result (self.new ≡ self.old) }
    {
        // A look at a field, which tells a proof what holds of the state.
        let _users = &self.users;
        match change {
            Change::Put(stored) => self.put(stored, origin),
            Change::Make(home, name, sets, size) => self.make(*home, name, sets.as_slice(), *size),
            Change::Patch(home, name, sets, size) => {
                self.set(*home, name.as_slice(), sets.as_slice(), *size)
            }
            Change::Acl(home, name, grants, size) => {
                self.set_grants(*home, name.as_slice(), grants.as_slice(), *size)
            }
            Change::DeleteObject(stored) => {
                let place = &stored.path;
                let _deleted = self.take_object(
                    place.home,
                    place.calendar.as_slice(),
                    place.object.as_slice(),
                );
                Ok(())
            }
            Change::DeleteCalendar(home, name) => {
                let _deleted = self.take_calendar(*home, name.as_slice());
                Ok(())
            }
        }
    }
}
