//! A calendar as looks share it: its data and its objects, without the index of their UIDs.
ghost use Rattle.std.specs.Prelude.{◌≡◌, ℕ, Some, OnOk, OnErr, IfOk, IfSome, map, option_map};
ghost use Rattle.std.specs.List.{AllByRecursion};
ghost use Rattle.std.specs.Borrow.{Bor};
ghost use Rattle.cal_base.specs.Lists.NameMap.{value_at, with_value, without, next_above};
ghost use Rattle.cal_model.specs.declared.stored.Stored.{Stored as StoredData};
ghost use Rattle.cal_model.specs.History.KeptChanges.{IsAtPlace};
ghost use Rattle.cal_model.specs.Properties.Settings.{kinds_after_all, texts_after_all};
ghost use Rattle.cal_model.specs.State.StoredData.{data_of};
ghost use Rattle.collections.specs.Calendars.{kept_entry, shown_object};
ghost use Rattle.collections.specs.KeptCalendars.{calendar_of};
ghost use Rattle.collections.specs.Settings.{last_zone, IsShort};
ghost use Rattle.object_walk.specs.WalkedObjects.{AreInCalendar};

use crate::calendar_data::{data_with_grants, data_with_sets};
use crate::objects::{put_in_shown, take_from_shown};
use cal_base::{Arc, Copies, NameMap, NoMemory, Octets};
use cal_model::{CalendarData, Grant, PropSet, Stored};
use name_pages::NamePages;
use object_walk::{ObjectEntry, ObjectWalk};
use std::alloc::Global;
use std::marker::Model;

/// A calendar with its objects by their names, which looks share: a copy of it shares its data and its
/// objects until one of them is changed. Contracts see of each object the octets and the origin.
#[derive(Drop)]
pub(crate) struct ShownCalendar {
    name: Arc<Octets>,
    kept: Arc<CalendarData>,
    objects: NamePages<ObjectEntry>,
}

impl Model for ShownCalendar {
    ghost use Rattle.collections.specs.KeptCalendars.{KeptCalendar};
    ghost use Rattle.collections.specs.Calendars.{kept_with, IsShownCalendar};

    ghost Value = { KeptCalendar };

    ghost view = { λ c. kept_with c.name c.kept c.objects };

    ghost invariant = { λ c. IsShownCalendar c.name c.kept c.objects };
}

impl Copies for ShownCalendar {
    /// The same calendar, shared. Takes no memory.
    fn copied(&self, _alloc: Global) -> Result<ShownCalendar, NoMemory> {
        let name = Arc::try_clone(&self.name)?;
        let kept = Arc::try_clone(&self.kept)?;
        let objects = self.objects.look()?;
        Ok(ShownCalendar {
            name,
            kept,
            objects,
        })
    }
}

impl ShownCalendar {
    ghost use Rattle.collections.specs.Calendars.{kept_with, IsShownCalendar};

    /// The calendar of that name with these data and these objects.
    pub(crate) fn of(
        alloc: Global,
        name: Arc<Octets>,
        kept: CalendarData,
        objects: NameMap<ObjectEntry>,
    ) -> Result<ShownCalendar, NoMemory>
        requires { IsShownCalendar name kept objects }
        ensures { IfOk result (λ shown. shown ≡ kept_with name kept objects) }
    {
        let kept = Arc::new(alloc, kept)?;
        let objects = NamePages::of(alloc, &objects)?;
        Ok(ShownCalendar {
            name,
            kept,
            objects,
        })
    }

    /// Its data.
    pub(crate) fn data(&self) -> &CalendarData
        ensures { result.now ≡ data_of self.now.home (calendar_of self.now) }
    {
        &self.kept
    }

    /// The object of a name.
    pub(crate) fn object(&self, name: &[u8]) -> Option<(&Arc<Stored>, u64)>
        ensures object { option_map (λ (p : Bor StoredData × ℕ). record { octets = p.0.now.octets; origin = p.1 }) result ≡ value_at self.now.objects name.now }
        ensures place { IfSome result (λ p. IsAtPlace self.now.home self.now.name name.now p.0.now.path) }
    {
        match self.objects.get(name) {
            Some(entry) => Some((&entry.stored, entry.origin)),
            None => None,
        }
    }

    /// The object with the least name above a name.
    pub(crate) fn object_after(&self, name: &[u8]) -> Option<(&Arc<Stored>, u64)>
        ensures object { option_map (λ (p : Bor StoredData × ℕ). (p.0.now.path.object, record { octets = p.0.now.octets; origin = p.1 })) result ≡ next_above self.now.objects name.now }
        ensures there { IfSome result (λ p. value_at self.now.objects p.0.now.path.object ≡ Some (record { octets = p.0.now.octets; origin = p.1 })) }
        ensures place { IfSome result (λ p. IsAtPlace self.now.home self.now.name p.0.now.path.object p.0.now.path) }
    {
        match self.objects.next_above(name) {
            Some((_, entry)) => Some((&entry.stored, entry.origin)),
            None => None,
        }
    }

    /// All objects, in the order of their names.
    pub(crate) fn objects(&self) -> ObjectWalk<'_>
        ensures objects { map shown_object result ≡ self.now.objects }
        ensures there { AllByRecursion (λ entry. value_at self.now.objects entry.stored.path.object ≡ Some (kept_entry entry)) result }
        ensures places { AreInCalendar self.now.home self.now.name result }
    {
        ObjectWalk::of_pages(&self.objects)
    }

    /// Puts an object in the place of the one of its name, or as a new one.
    pub(crate) fn put(
        &mut self,
        alloc: Global,
        stored: &Arc<Stored>,
        origin: u64,
    ) -> Result<(), NoMemory>
        requires place { IsAtPlace self.old.home self.old.name stored.now.path.object stored.now.path }
        ensures ok { OnOk result (self.new ≡ record self.old { objects = with_value self.old.objects stored.now.path.object (record { octets = stored.now.octets; origin = origin }) }) }
        ensures err { OnErr result (self.new ≡ self.old) }
    {
        put_in_shown(alloc, &mut self.objects, stored, origin)?;
        Ok(())
    }

    /// Takes an object out, if it is there.
    pub(crate) fn take(&mut self, alloc: Global, name: &[u8]) -> Result<(), NoMemory>
        ensures ok { OnOk result (self.new ≡ record self.old { objects = without self.old.objects name.now }) }
        ensures err { OnErr result (self.new ≡ self.old) }
    {
        take_from_shown(alloc, &mut self.objects, name)?;
        Ok(())
    }

    /// Replaces the grants.
    pub(crate) fn set_grants(&mut self, alloc: Global, grants: &[Grant]) -> Result<(), NoMemory>
        ensures ok { OnOk result (self.new ≡ record self.old { grants = grants.now }) }
        ensures err { OnErr result (self.new ≡ self.old) }
    {
        let kept = data_with_grants(alloc, &self.kept, grants)?;
        self.kept = kept;
        Ok(())
    }

    /// Sets and removes properties, in order.
    pub(crate) fn set(&mut self, alloc: Global, sets: &[PropSet]) -> Result<(), NoMemory>
        requires short { IfSome (last_zone sets.now) IsShort }
        ensures ok { OnOk result (self.new ≡ record self.old { texts = texts_after_all self.old.texts sets.now; kinds = kinds_after_all self.old.kinds sets.now }) }
        ensures err { OnErr result (self.new ≡ self.old) }
    {
        let kept = data_with_sets(alloc, &self.kept, sets)?;
        self.kept = kept;
        Ok(())
    }
}
