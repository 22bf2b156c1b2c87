//! The homes of all users as looks share them, in the order of the users' numbers.
ghost use Rattle.std.specs.Prelude.{◌≡◌, ℕ, List as Items, OnOk, OnErr, IfOk, option_map, option_and_then, slice_get};
ghost use Rattle.std.specs.Option.{option_copied};
ghost use Rattle.std.specs.Borrow.{Bor};
ghost use Rattle.cal_base.specs.Lists.NameMap.{next_above};
ghost use Rattle.collections.specs.declared.home.KeptHome.{KeptHome as Home};
ghost use Rattle.collections.specs.Following.{home_in, home_after, IsShortIn, HasRoomFor};
ghost use Rattle.collections.specs.Homes.{in_home, opening_homes as homes_at_start, AreHomes, IfHome};
ghost use Rattle.collections.specs.Kept.{kept_calendar};
ghost use Rattle.collections.specs.KeptCalendars.{KeptCalendar};

use crate::shown_calendar::ShownCalendar;
use crate::shown_home::ShownHome;
use cal_base::{Copies, List, NoMemory, Shared, copy_each};
use cal_model::Change;
use std::alloc::Global;
use std::marker::Model;

/// The homes of all users, in the order of their numbers, which looks share.
#[derive(Drop)]
pub(crate) struct ShownHomes {
    homes: Vec<ShownHome>,
}

impl Model for ShownHomes {
    ghost use Rattle.std.specs.Prelude.{List};
    ghost use Rattle.collections.specs.declared.home.KeptHome.{KeptHome};

    ghost Value = { List KeptHome };

    ghost view = { λ h. h.homes.items };
}

impl Copies for ShownHomes {
    fn copied(&self, alloc: Global) -> Result<ShownHomes, NoMemory> {
        let copies = copy_each(alloc, self.homes.as_slice())?;
        Ok(ShownHomes {
            homes: copies.into_vec(),
        })
    }
}

/// The number of the user whose home a change is in.
fn home_of(change: &Change) -> u32
    ensures { result ≡ home_in change.now }
{
    match change {
        Change::Put(stored) => stored.path.home,
        Change::DeleteObject(stored) => stored.path.home,
        Change::DeleteCalendar(home, _) => *home,
        Change::Make(home, _, _, _) => *home,
        Change::Patch(home, _, _, _) => *home,
        Change::Acl(home, _, _, _) => *home,
    }
}

/// A calendar of a home.
fn calendar_in<'a>(homes: &'a [ShownHome], home: u32, name: &[u8]) -> Option<&'a ShownCalendar>
    ensures { option_copied result ≡ kept_calendar homes.now home name.now }
{
    match homes.get(home as usize) {
        Some(home) => home.calendar(name),
        None => None,
    }
}

/// The calendar of a home with the least name above a name, and its name.
fn next_calendar_in<'a>(
    homes: &'a [ShownHome],
    home: u32,
    name: &[u8],
) -> Option<(&'a [u8], &'a ShownCalendar)>
    ensures { option_map (λ (p : Bor (Items ℕ) × Bor KeptCalendar). (p.0.now, p.1.now)) result ≡ option_and_then (λ (h : Home). next_above h.calendars name.now) (slice_get homes.now home) }
{
    match homes.get(home as usize) {
        Some(home) => home.next_calendar(name),
        None => None,
    }
}

/// Makes a change in its home, as the entry of a number.
fn follow_in(
    alloc: Global,
    homes: &mut Vec<ShownHome>,
    change: &Change,
    origin: u64,
) -> Result<(), NoMemory>
    requires homes { AreHomes homes.old.items }
    requires room { IfHome homes.old.items (home_in change.now) (HasRoomFor change.now) }
    requires short { IsShortIn change.now }
    ensures ok { OnOk result (homes.new.items ≡ in_home (home_in change.now) (home_after change.now origin) homes.old.items) }
    ensures err { OnErr result (homes.new.items ≡ homes.old.items) }
{
    match homes.get_mut(home_of(change) as usize) {
        Some(home) => home.follow(alloc, change, origin),
        None => Ok(()),
    }
}

/// Makes a change in its home, as the entry of a number. Looks that share the homes keep what they
/// have; without memory all stays as it was.
pub(crate) fn follow_homes(
    alloc: Global,
    homes: &mut Shared<ShownHomes>,
    change: &Change,
    origin: u64,
) -> Result<(), NoMemory>
    requires homes { AreHomes homes.old }
    requires room { IfHome homes.old (home_in change.now) (HasRoomFor change.now) }
    requires short { IsShortIn change.now }
    ensures ok { OnOk result (homes.new ≡ in_home (home_in change.now) (home_after change.now origin) homes.old) }
    ensures err { OnErr result (homes.new ≡ homes.old) }
{
    match homes.make_own(alloc) {
        Ok(own) => own.follow(alloc, change, origin),
        Err(NoMemory) => Err(NoMemory),
    }
}

impl ShownHomes {
    /// The homes of so many users at the start.
    #[tactic(auto, using(crate::proofs::OpeningLemmas::homes_more_one))]
    pub(crate) fn opening(alloc: Global, users: u32) -> Result<ShownHomes, NoMemory>
        ensures { IfOk result (λ homes. homes ≡ homes_at_start users) }
    {
        let mut homes = List::new(alloc);
        for number in 0..users {
            let home = ShownHome::opening(alloc, number)?;
            homes.push(home)?;
        }
        Ok(ShownHomes {
            homes: homes.into_vec(),
        })
    }

    /// A calendar of a home.
    pub(crate) fn calendar(&self, home: u32, name: &[u8]) -> Option<&ShownCalendar>
        ensures { option_copied result ≡ kept_calendar self.now home name.now }
    {
        calendar_in(&self.homes, home, name)
    }

    /// The calendar of a home with the least name above a name, and its name.
    pub(crate) fn next_calendar(&self, home: u32, name: &[u8]) -> Option<(&[u8], &ShownCalendar)>
        ensures { option_map (λ (p : Bor (Items ℕ) × Bor KeptCalendar). (p.0.now, p.1.now)) result ≡ option_and_then (λ (h : Home). next_above h.calendars name.now) (slice_get self.now home) }
    {
        next_calendar_in(&self.homes, home, name)
    }

    /// Makes a change in its home, as the entry of a number.
    fn follow(&mut self, alloc: Global, change: &Change, origin: u64) -> Result<(), NoMemory>
        requires homes { AreHomes self.old }
        requires room { IfHome self.old (home_in change.now) (HasRoomFor change.now) }
        requires short { IsShortIn change.now }
        ensures ok { OnOk result (self.new ≡ in_home (home_in change.now) (home_after change.now origin) self.old) }
        ensures err { OnErr result (self.new ≡ self.old) }
    {
        follow_in(alloc, &mut self.homes, change, origin)
    }
}
