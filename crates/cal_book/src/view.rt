//! A state of the server with its users, as the book shows it: what everybody looks at who answers a
//! request, and what a change asks besides, which are the object that has a UID, what a home's changes
//! cost, and how many calendars it has.
#![tactic(auto, unfolding(crate::specs::Showing::ShownStates::shown_directory, crate::specs::Showing::ShownStates::shown_state, crate::specs::Showing::ShownStates::shown_origins))]

ghost use Rattle.std.specs.Prelude.{◌≡◌, ◌≤◌, IfSome, length, option_map};
ghost use Rattle.std.specs.Option.{option_map_or};
ghost use Rattle.std.specs.Borrow.{Bor};
ghost use Rattle.cal_model.specs.declared.stored.Stored.{Stored as StoredData};
ghost use Rattle.cal_model.specs.History.KeptChanges.{IsAtPlace};
ghost use Rattle.cal_model.specs.State.ServerState.{Home, home_at};
ghost use Rattle.cal_model.specs.Words.Limits.{home_limit};
ghost use Rattle.collections.specs.Kept.{users_of, state_of, origins_of};
ghost use Rattle.collections.specs.UidHolders.{uid_holder_at, IsAloneWithAt};

use cal_base::Arc;
use cal_model::view::View;
use cal_model::{CalendarData, Object, Stored};
use collections::Store;
use object_walk::{ObjectWalk, Walks};
use privileges::Users;
use std::marker::Model;

/// A state of the server with its users. Contracts see what the store keeps, by the words of
/// `ShownStates`. No call takes memory, and each takes about the logarithm of what there is.
#[derive(Drop)]
pub struct BookView<'a> {
    store: &'a Store,
    users: &'a Users,
}

impl<'a> Model for BookView<'a> {
    ghost use Rattle.collections.specs.Kept.{Kept};
    ghost use Rattle.cal_book.specs.Showing.Views.{IsView};

    ghost Value = { Kept };

    ghost view = { λ v. v.store.now };

    ghost invariant = { λ v. IsView v.store.now v.users.now };
}

impl<'a> BookView<'a> {
    ghost use Rattle.cal_book.specs.Showing.ShownStates.{shown_directory, shown_state, shown_origins};
    ghost use Rattle.cal_book.specs.Showing.Views.{AreApart};

    /// The view of a store in which no two objects have the same origin.
    pub fn new(store: &'a Store) -> BookView<'a>
        requires apart { AreApart (origins_of store.now) }
        ensures directory { shown_directory result ≡ users_of store.now }
        ensures state { shown_state result ≡ state_of store.now }
        ensures origins { shown_origins result ≡ origins_of store.now }
    {
        let users = store.users();
        // A look at how many they are, which tells a proof that their names tell them apart.
        let _count = users.len();
        BookView { store, users }
    }

    /// The object of a calendar that has a UID: there is at most one (RFC 4791, 4.1).
    pub fn uid_holder(&self, home: u32, calendar: &[u8], uid: &[u8]) -> Option<&Arc<Stored>>
        ensures object { option_map (λ (stored : Bor StoredData). (stored.now.path.object, stored.now.octets)) result ≡ uid_holder_at (shown_state self.now) home calendar.now uid.now }
        ensures place { IfSome result (λ stored. IsAtPlace home calendar.now stored.now.path.object stored.now.path) }
        ensures alone { IsAloneWithAt (shown_state self.now) home calendar.now uid.now }
    {
        self.store.uid_holder(home, calendar, uid)
    }

    /// The same object, in less memory: where its zones have the tables of objects that were put
    /// before, it shares them.
    pub fn shared(&self, object: Object) -> Object
        ensures { result ≡ object }
    {
        self.store.shared(object)
    }

    /// What the changes that were accepted for a home cost in all, in octets: its body for each PUT,
    /// MKCALENDAR, PROPPATCH and ACL, and 256 more.
    pub fn used(&self, home: u32) -> u64
        ensures used { result ≡ option_map_or (λ (h : Home). h.accepted) (home_at (shown_state self.now) home) 0 }
        ensures within { result ≤ home_limit }
    {
        self.store.used(home)
    }

    /// How many calendars a home has; none where it isn't there.
    pub fn calendar_count(&self, home: u32) -> usize
        ensures { result ≡ option_map_or (λ (h : Home). length h.calendars) (home_at (shown_state self.now) home) 0 }
    {
        self.store.calendar_count(home)
    }
}

impl<'a> View for BookView<'a> {
    ghost use Rattle.cal_book.specs.Showing.ShownStates.{shown_directory, shown_state, shown_origins};

    ghost directory = { shown_directory };

    ghost state = { shown_state };

    ghost origins = { shown_origins };

    fn calendar(&self, home: u32, name: &[u8]) -> Option<&CalendarData> {
        self.store.calendar(home, name)
    }

    fn calendar_after(&self, home: u32, name: &[u8]) -> Option<(&[u8], &CalendarData)> {
        self.store.calendar_after(home, name)
    }

    fn object(&self, home: u32, calendar: &[u8], name: &[u8]) -> Option<(&Arc<Stored>, u64)> {
        self.store.object(home, calendar, name)
    }

    fn object_after(&self, home: u32, calendar: &[u8], name: &[u8]) -> Option<(&Arc<Stored>, u64)> {
        self.store.object_after(home, calendar, name)
    }

    fn user_name(&self, who: u32) -> &[u8] {
        self.users.name(who)
    }

    fn find_user(&self, name: &[u8]) -> Option<u32> {
        self.users.find(name)
    }

    fn user_count(&self) -> u32 {
        self.users.len()
    }

    fn group_count(&self) -> u32 {
        self.users.groups()
    }

    fn find_group(&self, name: &[u8]) -> Option<u32> {
        self.users.find_group(name)
    }

    fn group_name(&self, group: u32) -> &[u8] {
        self.users.group_name(group)
    }

    fn is_member(&self, group: u32, who: u32) -> bool {
        self.users.is_member(group, who)
    }
}

impl<'a> Walks for BookView<'a> {
    fn objects(&self, home: u32, calendar: &[u8]) -> ObjectWalk<'_> {
        self.store.objects(home, calendar)
    }
}
