//! What holds a state of the server and shows it, and what a change is made in.
ghost use Rattle.std.specs.Prelude.{◌≡◌, ◌<◌, ℕ, List, length, Option, Some, ℤ, IfSome, OnOk, OnErr};
ghost use Rattle.std.specs.Borrow.{Bor};
ghost use Rattle.std.specs.Option.{option_copied, option_map};
ghost use Rattle.cal_model.specs.State.ServerState.{Directory, ServerState, octets_at, user_name as name_of_user, user_number, group_name as name_of_group, group_number, is_member as is_in};
ghost use Rattle.cal_model.specs.State.Changes.{effect};
ghost use Rattle.cal_model.specs.State.SoundStates.{IsSound, IsSoundChange};
ghost use Rattle.cal_model.specs.State.UserNames.{AreToldApart};
ghost use Rattle.cal_model.specs.State.StoredData.{data_at, next_calendar, next_object};
ghost use Rattle.cal_model.specs.History.Origins.{Origins, AreOrigins, origins_after};
ghost use Rattle.cal_model.specs.History.KeptChanges.{kept_change, IsAtPlace, IsAcceptable};
ghost use Rattle.cal_model.specs.declared.store.CalendarData.{CalendarData as Data};
ghost use Rattle.cal_model.specs.declared.stored.Stored.{Stored as Kept};
ghost use Rattle.cal_model.specs.declared.row.Row.{Row as RowSpec};

use crate::change::Change;
use crate::row::Row;
use crate::store::CalendarData;
use crate::stored::Stored;
use cal_base::{Arc, List, NoMemory};

/// A state of the server with its users and groups, as it is looked at. An object's origin is the
/// number of the journal's entry that made it, counted from 0. No call takes memory, and each takes
/// about the logarithm of what there is.
pub trait View {
    /// The users and the groups.
    ghost directory: { Self → Directory };

    /// The state that is shown.
    ghost state: { Self → ServerState };

    /// The origins of its objects.
    ghost origins: { Self → Origins };

    /// A calendar in a user's home, without its objects.
    fn calendar(&self, home: u32, name: &[u8]) -> Option<&CalendarData>
        ensures data { option_copied result ≡ data_at (state self.now) home name.now }
        ensures sound { IsSound (directory self.now) (state self.now) };

    /// The calendar with the least name above a name, and its name; the empty name comes before all.
    fn calendar_after(&self, home: u32, name: &[u8]) -> Option<(&[u8], &CalendarData)>
        ensures next { option_map (λ (p : Bor (List ℕ) × Bor Data). (p.0.now, p.1.now)) result ≡ next_calendar (state self.now) home name.now }
        ensures sound { IsSound (directory self.now) (state self.now) };

    /// An object of a calendar, and its origin.
    fn object(&self, home: u32, calendar: &[u8], name: &[u8]) -> Option<(&Arc<Stored>, u64)>
        ensures octets { option_map (λ (p : Bor Kept × ℕ). p.0.now.octets) result ≡ octets_at (state self.now) home calendar.now name.now }
        ensures origin { option_map (λ (p : Bor Kept × ℕ). p.1) result ≡ origins self.now home calendar.now name.now }
        ensures place { IfSome result (λ p. IsAtPlace home calendar.now name.now p.0.now.path) }
        ensures apart { AreOrigins (state self.now) (origins self.now) };

    /// The object with the least name above a name, and its origin; the empty name comes before all.
    fn object_after(&self, home: u32, calendar: &[u8], name: &[u8]) -> Option<(&Arc<Stored>, u64)>
        ensures octets { option_map (λ (p : Bor Kept × ℕ). (p.0.now.path.object, p.0.now.octets)) result ≡ next_object (state self.now) home calendar.now name.now }
        ensures origin { IfSome result (λ p. origins self.now home calendar.now p.0.now.path.object ≡ Some p.1) }
        ensures place { IfSome result (λ p. IsAtPlace home calendar.now p.0.now.path.object p.0.now.path) }
        ensures sound { IsSound (directory self.now) (state self.now) };

    /// The name of the user of a number.
    fn user_name(&self, who: u32) -> &[u8]
        requires known { who < length (directory self.now).names }
        ensures name { result.now ≡ name_of_user (directory self.now) who }
        ensures told { AreToldApart (directory self.now) };

    /// The number of the user of a name.
    fn find_user(&self, name: &[u8]) -> Option<u32>
        ensures number { result ≡ user_number (directory self.now) name.now }
        ensures told { AreToldApart (directory self.now) };

    /// How many users there are.
    fn user_count(&self) -> u32
        ensures { result ≡ length (directory self.now).names };

    /// How many groups there are.
    fn group_count(&self) -> u32
        ensures { result ≡ length (directory self.now).groups };

    /// The number of the group of a name.
    fn find_group(&self, name: &[u8]) -> Option<u32>
        ensures number { result ≡ group_number (directory self.now) name.now }
        ensures told { AreToldApart (directory self.now) };

    /// The name of the group of a number.
    fn group_name(&self, group: u32) -> &[u8]
        requires known { group < length (directory self.now).groups }
        ensures name { result.now ≡ name_of_group (directory self.now) group };

    /// Whether a user is in a group.
    fn is_member(&self, group: u32, who: u32) -> bool
        requires group { group < length (directory self.now).groups }
        requires known { who < length (directory self.now).names }
        ensures { result ≡ is_in (directory self.now) group who };
}

/// What changes can be made in.
pub trait Applies {
    /// The users and the groups, which no change touches.
    ghost directory: { Self → Directory };

    /// The state.
    ghost state: { Self → ServerState };

    /// The origins of its objects.
    ghost origins: { Self → Origins };

    /// Makes a change that is accepted in this state, as the entry of a number: one that names what
    /// can be named, and grants to users and groups that there are. After `NoMemory` nothing is
    /// changed. Where a deletion takes no memory, the type in which it is made says so.
    fn apply(&mut self, change: &Change, origin: u64) -> Result<(), NoMemory>
        requires acceptable { IsAcceptable (directory self.old) (state self.old) (kept_change change.now) }
        requires sound { IsSoundChange (directory self.old) (kept_change change.now) }
        ensures users { directory self.new ≡ directory self.old }
        ensures state { OnOk result (state self.new ≡ effect (kept_change change.now) (state self.old)) }
        ensures origins { OnOk result ((home : ℕ) (calendar object : List ℕ) → origins self.new home calendar object ≡ origins_after (kept_change change.now) origin (origins self.old) home calendar object) }
        ensures unchanged { OnErr result (self.new ≡ self.old) };
}

/// Pieces of expanded recurrence, as they are looked up.
pub trait Pieces {
    /// The rows that are held of an object, known by its origin, and a window.
    ghost held: { Self → ℕ → ℤ → Option (List RowSpec) };

    /// The rows of an object in a window, where there is a piece of them. Takes no memory.
    fn rows(&self, origin: u64, window: i32) -> Option<&List<Row>>
        ensures { option_copied result ≡ held self.now origin window };
}
