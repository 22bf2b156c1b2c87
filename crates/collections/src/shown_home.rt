//! A home as looks share it.
ghost use Rattle.std.specs.Prelude.{◌≡◌, ◌<◌, ◌^◌, ℕ, List, OnOk, OnErr, IfOk, option_map};
ghost use Rattle.std.specs.Option.{option_copied};
ghost use Rattle.std.specs.Borrow.{Bor};
ghost use Rattle.cal_base.specs.Lists.NameMap.{value_at, next_above};
ghost use Rattle.collections.specs.Following.{home_in, cost_in, home_after, IsShortIn, HasRoomFor};
ghost use Rattle.collections.specs.Homes.{opening_home as home_at_start, IsHome};
ghost use Rattle.collections.specs.KeptCalendars.{KeptCalendar};

use crate::home::first_calendar;
use crate::shown_calendar::ShownCalendar;
use crate::shown_calendars::follow_shown;
use cal_base::{Copies, NameMap, NoMemory, Octets, Shared};
use cal_model::{CHANGE_COST, Change};
use std::alloc::Global;
use std::marker::Model;

/// A home, whose calendars looks share. Contracts see it as the one that a store keeps.
#[derive(Drop)]
pub(crate) struct ShownHome {
    /// What the changes that were accepted for it cost in all, in octets.
    accepted: u64,
    /// Its calendars by their names.
    calendars: Shared<NameMap<ShownCalendar>>,
}

impl Model for ShownHome {
    ghost use Rattle.collections.specs.declared.home.KeptHome.{KeptHome};

    ghost Value = { KeptHome };

    ghost view = { λ h. record { accepted = h.accepted; calendars = h.calendars } };
}

impl Copies for ShownHome {
    /// The same home, shared. Takes no memory.
    fn copied(&self, _alloc: Global) -> Result<ShownHome, NoMemory> {
        Ok(ShownHome {
            accepted: self.accepted,
            calendars: self.calendars.look()?,
        })
    }
}

/// What a change costs its home, in octets.
fn cost_of(change: &Change) -> u64
    requires { cost_in change.now < 2 ^ 64 }
    ensures { result ≡ cost_in change.now }
{
    match change {
        Change::Put(stored) => stored.octets.len() as u64 + CHANGE_COST,
        Change::DeleteObject(_) => 0,
        Change::DeleteCalendar(_, _) => 0,
        Change::Make(_, _, _, size) => u64::from(*size) + CHANGE_COST,
        Change::Patch(_, _, _, size) => u64::from(*size) + CHANGE_COST,
        Change::Acl(_, _, _, size) => u64::from(*size) + CHANGE_COST,
    }
}

impl ShownHome {
    /// The home of a user's number at the start.
    pub(crate) fn opening(alloc: Global, number: u32) -> Result<ShownHome, NoMemory>
        ensures { IfOk result (λ home. home ≡ home_at_start number) }
    {
        let name = Octets::of(alloc, b"calendar")?;
        let calendar = first_calendar(alloc, number)?.into_shown(alloc)?;
        let mut calendars = NameMap::new(alloc);
        calendars.insert(name, calendar)?;
        let calendars = Shared::new(alloc, calendars)?;
        Ok(ShownHome {
            accepted: 0,
            calendars,
        })
    }

    /// The calendar of a name.
    pub(crate) fn calendar(&self, name: &[u8]) -> Option<&ShownCalendar>
        ensures { option_copied result ≡ value_at self.now.calendars name.now }
    {
        self.calendars.get(name)
    }

    /// The calendar with the least name above a name, and its name.
    pub(crate) fn next_calendar(&self, name: &[u8]) -> Option<(&[u8], &ShownCalendar)>
        ensures { option_map (λ (p : Bor (List ℕ) × Bor KeptCalendar). (p.0.now, p.1.now)) result ≡ next_above self.now.calendars name.now }
    {
        self.calendars.next_above(name)
    }

    /// Makes a change of this home, as the entry of a number. Looks that share the home keep what they
    /// have; without memory all stays as it was.
    pub(crate) fn follow(
        &mut self,
        alloc: Global,
        change: &Change,
        origin: u64,
    ) -> Result<(), NoMemory>
        requires home { IsHome (home_in change.now) self.old }
        requires room { HasRoomFor change.now self.old }
        requires short { IsShortIn change.now }
        ensures ok { OnOk result (self.new ≡ home_after change.now origin self.old) }
        ensures err { OnErr result (self.new ≡ self.old) }
    {
        let cost = cost_of(change);
        follow_shown(alloc, &mut self.calendars, change, origin)?;
        self.accepted += cost;
        Ok(())
    }
}
