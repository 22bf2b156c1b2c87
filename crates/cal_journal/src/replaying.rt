//! The state that a journal leads to.
ghost use Rattle.std.specs.Prelude.{◌≡◌, ◌≤◌, ◌+◌, [], length, map, min, IfOk, OnOk};
ghost use Rattle.cal_model.specs.State.ServerState.{opening_state};
ghost use Rattle.cal_model.specs.State.UserNames.{AreToldApart};
ghost use Rattle.cal_model.specs.History.Journal.{replay as state_behind, IsLegal};
ghost use Rattle.cal_model.specs.History.Origins.{AreLive};
ghost use Rattle.cal_journal.specs.Behind.{IsBehind};
ghost use Rattle.cal_journal.specs.KeptEntries.{kept_entry, AreSound};

use crate::entries::{Entry, Journal};
use cal_base::NoMemory;
use cal_model::view::Applies;

/// The store of an opening state with all changes of a legal journal made in it, in their order. The
/// users have to be told apart by their names, as those of a users file are, and the entries' changes
/// to name what can be named.
pub fn replay<S: Applies + Drop>(journal: &Journal, store: S) -> Result<S, NoMemory>
    requires users { AreToldApart (S.directory store) }
    requires opening { S.state store ≡ opening_state (S.directory store) }
    requires no_objects { AreLive [] (S.origins store) }
    requires legal { IsLegal (S.directory store) (map kept_entry journal.now.items) }
    requires sound { AreSound (S.directory store) (map kept_entry journal.now.items) }
    ensures users { IfOk result (λ made. S.directory made ≡ S.directory store) }
    ensures state { IfOk result (λ made. S.state made ≡ state_behind (S.directory store) (map kept_entry journal.now.items)) }
    ensures origins { IfOk result (λ made. AreLive (map kept_entry journal.now.items) (S.origins made)) }
{
    let mut made = store;
    let mut place = 0;
    match follow(journal, &mut made, &mut place, journal.len()) {
        Ok(()) => Ok(made),
        Err(NoMemory) => Err(NoMemory),
    }
}

/// Makes the changes of the entries from a place on, at most so many, in a store that is behind those
/// before it, and moves the place behind the last that was made. Without memory some of them may have
/// been made, as the place tells, and the store is behind these; the next call goes on from there.
pub fn follow<S: Applies>(
    journal: &Journal,
    store: &mut S,
    place: &mut u64,
    most: u64,
) -> Result<(), NoMemory>
    requires users { AreToldApart (S.directory store.old) }
    requires legal { IsLegal (S.directory store.old) (map kept_entry journal.now.items) }
    requires sound { AreSound (S.directory store.old) (map kept_entry journal.now.items) }
    requires behind { IsBehind (S.directory store.old) (map kept_entry journal.now.items) place.old (S.state store.old) (S.origins store.old) }
    ensures users { S.directory store.new ≡ S.directory store.old }
    ensures behind { IsBehind (S.directory store.old) (map kept_entry journal.now.items) place.new (S.state store.new) (S.origins store.new) }
    ensures forward { place.old ≤ place.new }
    ensures most { place.new ≤ place.old + most }
    ensures ok { OnOk result (place.new ≡ min (place.old + most) (length journal.now.items)) }
{
    let end = end_of(*place, most, journal.len());
    apply_up_to(journal.entries(), store, place, end)
}

/// The place behind at most so many entries from a place on.
fn end_of(place: u64, most: u64, count: u64) -> u64
    requires { place ≤ count }
    ensures { result ≡ min (place + most) count }
{
    if most < count - place {
        place + most
    } else {
        count
    }
}

/// Makes the changes of the entries from a place up to another in their order.
fn apply_up_to<S: Applies>(
    entries: &[Entry],
    store: &mut S,
    place: &mut u64,
    end: u64,
) -> Result<(), NoMemory>
    requires users { AreToldApart (S.directory store.old) }
    requires legal { IsLegal (S.directory store.old) (map kept_entry entries.now) }
    requires sound { AreSound (S.directory store.old) (map kept_entry entries.now) }
    requires behind { IsBehind (S.directory store.old) (map kept_entry entries.now) place.old (S.state store.old) (S.origins store.old) }
    requires from { place.old ≤ end }
    requires within { end ≤ length entries.now }
    ensures users { S.directory store.new ≡ S.directory store.old }
    ensures behind { IsBehind (S.directory store.old) (map kept_entry entries.now) place.new (S.state store.new) (S.origins store.new) }
    ensures forward { place.old ≤ place.new }
    ensures most { place.new ≤ end }
    ensures ok { OnOk result (place.new ≡ end) }
{
    'entries: while *place < end {
        let at = *place as usize;
        store.apply(&entries[at].change, *place)?;
        *place += 1;
    }
    Ok(())
}
