//! A calendar that is kept: its data, its objects, and the index of their UIDs.
ghost use Rattle.std.specs.Prelude.{◌≡◌, ℕ, List, [], Option, Some, None, OnOk, OnErr, IfOk, IfSome, map, option_map};
ghost use Rattle.std.specs.List.{AllByRecursion};
ghost use Rattle.std.specs.Option.{option_copied};
ghost use Rattle.std.specs.Borrow.{Bor};
ghost use Rattle.cal_base.specs.Lists.NameMap.{value_at, with_value, without, next_above};
ghost use Rattle.cal_model.specs.declared.stored.Stored.{Stored as StoredData};
ghost use Rattle.cal_model.specs.History.KeptChanges.{IsAtPlace};
ghost use Rattle.cal_model.specs.Properties.Settings.{kinds_after_all, texts_after_all};
ghost use Rattle.cal_model.specs.Refusals.Preconditions.{holder};
ghost use Rattle.cal_model.specs.State.ServerState.{every_kind};
ghost use Rattle.cal_model.specs.State.StoredData.{data_of};
ghost use Rattle.collections.specs.Calendars.{kept_entry, shown_object};
ghost use Rattle.collections.specs.KeptCalendars.{KeptObject, calendar_of};
ghost use Rattle.collections.specs.Settings.{last_zone, IsShort};
ghost use Rattle.collections.specs.UidHolders.{with_uid, IsAloneWith};
ghost use Rattle.object_walk.specs.WalkedObjects.{AreInCalendar};

use crate::calendar_data::set_data;
use crate::objects::{put_object, take_object};
use crate::shown_calendar::ShownCalendar;
use cal_base::{Arc, List as Items, NameMap, NoMemory, Octets};
use cal_model::{Acl, CalendarData, Grant, PropSet, Stored};
use object_walk::{ObjectEntry, ObjectWalk};
use std::alloc::Global;
use std::marker::Model;

/// A calendar with its objects by their names and by their UIDs. Contracts see of each object the
/// octets and the origin.
#[derive(Drop)]
pub(crate) struct CalendarStore {
    name: Arc<Octets>,
    kept: CalendarData,
    by_name: NameMap<ObjectEntry>,
    by_uid: NameMap<Arc<Stored>>,
}

impl Model for CalendarStore {
    ghost use Rattle.collections.specs.KeptCalendars.{KeptCalendar};
    ghost use Rattle.collections.specs.Calendars.{kept_with, IsCalendar};

    ghost Value = { KeptCalendar };

    ghost view = { λ c. kept_with c.name c.kept c.by_name };

    ghost invariant = { λ c. IsCalendar c.name c.kept c.by_name c.by_uid };
}

impl CalendarStore {
    /// A calendar without objects and properties, which takes all kinds and has no grants.
    pub(crate) fn empty(alloc: Global, home: u32, name: Arc<Octets>) -> CalendarStore
        ensures { result ≡ record { home = home; name = name; grants = []; kinds = every_kind; texts = []; objects = [] } }
    {
        let kept = CalendarData {
            owner: home,
            acl: Acl {
                grants: Items::new(alloc),
            },
            kinds: 15,
            zone: None,
            texts: Items::new(alloc),
        };
        CalendarStore {
            name,
            kept,
            by_name: NameMap::new(alloc),
            by_uid: NameMap::new(alloc),
        }
    }

    /// A calendar without objects and grants, with the properties that settings make.
    pub(crate) fn with_settings(
        alloc: Global,
        home: u32,
        name: Arc<Octets>,
        sets: &[PropSet],
    ) -> Result<CalendarStore, NoMemory>
        requires short { IfSome (last_zone sets.now) IsShort }
        ensures { IfOk result (λ kept. kept ≡ record { home = home; name = name; grants = []; kinds = kinds_after_all every_kind sets.now; texts = texts_after_all [] sets.now; objects = [] }) }
    {
        let mut calendar = CalendarStore::empty(alloc, home, name);
        calendar.set(alloc, sets)?;
        Ok(calendar)
    }

    /// Its data.
    pub(crate) fn data(&self) -> &CalendarData
        ensures { result.now ≡ data_of self.now.home (calendar_of self.now) }
    {
        &self.kept
    }

    /// Its name, when it is done with.
    pub(crate) fn into_name(self) -> Arc<Octets>
        ensures { result ≡ self.name }
    {
        let CalendarStore {
            name,
            kept: _kept,
            by_name: _by_name,
            by_uid: _by_uid,
        } = self;
        name
    }

    /// The same calendar for looks to share, without the index.
    pub(crate) fn into_shown(self, alloc: Global) -> Result<ShownCalendar, NoMemory>
        ensures { IfOk result (λ shown. shown ≡ self) }
    {
        let CalendarStore {
            name,
            kept,
            by_name,
            by_uid: _by_uid,
        } = self;
        ShownCalendar::of(alloc, name, kept, by_name)
    }

    /// The object of a name.
    pub(crate) fn object(&self, name: &[u8]) -> Option<(&Arc<Stored>, u64)>
        ensures object { option_map (λ (p : Bor StoredData × ℕ). record { octets = p.0.now.octets; origin = p.1 }) result ≡ value_at self.now.objects name.now }
        ensures place { IfSome result (λ p. IsAtPlace self.now.home self.now.name name.now p.0.now.path) }
    {
        match self.by_name.get(name) {
            Some(entry) => Some((&entry.stored, entry.origin)),
            None => None,
        }
    }

    /// The object with the least name above a name.
    pub(crate) fn object_after(&self, name: &[u8]) -> Option<(&Arc<Stored>, u64)>
        ensures object { option_map (λ (p : Bor StoredData × ℕ). (p.0.now.path.object, record { octets = p.0.now.octets; origin = p.1 })) result ≡ next_above self.now.objects name.now }
        ensures there { IfSome result (λ p. value_at self.now.objects p.0.now.path.object ≡ Some (record { octets = p.0.now.octets; origin = p.1 })) }
        ensures place { IfSome result (λ p. IsAtPlace self.now.home self.now.name p.0.now.path.object p.0.now.path) }
    {
        match self.by_name.next_above(name) {
            Some((_, entry)) => Some((&entry.stored, entry.origin)),
            None => None,
        }
    }

    /// All objects, in the order of their names.
    pub(crate) fn objects(&self) -> ObjectWalk<'_>
        ensures objects { map shown_object result ≡ self.now.objects }
        ensures there { AllByRecursion (λ entry. value_at self.now.objects entry.stored.path.object ≡ Some (kept_entry entry)) result }
        ensures places { AreInCalendar self.now.home self.now.name result }
    {
        ObjectWalk::of(&self.by_name)
    }

    /// The object that has a UID.
    pub(crate) fn uid_holder(&self, uid: &[u8]) -> Option<&Arc<Stored>>
        ensures object { option_map (λ (stored : Bor StoredData). (stored.now.path.object, stored.now.octets)) result ≡ with_uid (calendar_of self.now).objects uid.now }
        ensures place { IfSome result (λ stored. IsAtPlace self.now.home self.now.name stored.now.path.object stored.now.path) }
        ensures alone { IsAloneWith (calendar_of self.now).objects uid.now }
    {
        self.by_uid.get(uid)
    }

    /// Puts an object in the place of the one of its name, or as a new one.
    pub(crate) fn put(
        &mut self,
        alloc: Global,
        stored: &Arc<Stored>,
        origin: u64,
    ) -> Result<(), NoMemory>
        requires place { IsAtPlace self.old.home self.old.name stored.now.path.object stored.now.path }
        requires alone { holder (calendar_of self.old).objects stored.now.path.object stored.now.octets ≡ None }
        ensures ok { OnOk result (self.new ≡ record self.old { objects = with_value self.old.objects stored.now.path.object (record { octets = stored.now.octets; origin = origin }) }) }
        ensures err { OnErr result (self.new ≡ self.old) }
    {
        put_object(alloc, &mut self.by_name, &mut self.by_uid, stored, origin)
    }

    /// Takes an object out. Takes no memory.
    pub(crate) fn take(&mut self, name: &[u8]) -> Option<Arc<Stored>>
        ensures octets { option_map (λ (stored : StoredData). stored.octets) result ≡ option_map (λ (object : KeptObject). object.octets) (value_at self.old.objects name.now) }
        ensures place { IfSome result (λ stored. IsAtPlace self.old.home self.old.name name.now stored.path) }
        ensures rest { self.new ≡ record self.old { objects = without self.old.objects name.now } }
    {
        take_object(&mut self.by_name, &mut self.by_uid, name)
    }

    /// Replaces the grants.
    pub(crate) fn set_grants(&mut self, alloc: Global, grants: &[Grant]) -> Result<(), NoMemory>
        ensures ok { OnOk result (self.new ≡ record self.old { grants = grants.now }) }
        ensures err { OnErr result (self.new ≡ self.old) }
    {
        let grants = Items::of(alloc, grants)?;
        self.kept.acl = Acl { grants };
        Ok(())
    }

    /// Sets and removes properties, in order.
    pub(crate) fn set(&mut self, alloc: Global, sets: &[PropSet]) -> Result<(), NoMemory>
        requires short { IfSome (last_zone sets.now) IsShort }
        ensures ok { OnOk result (self.new ≡ record self.old { texts = texts_after_all self.old.texts sets.now; kinds = kinds_after_all self.old.kinds sets.now }) }
        ensures err { OnErr result (self.new ≡ self.old) }
    {
        set_data(alloc, &mut self.kept, sets)?;
        Ok(())
    }
}
