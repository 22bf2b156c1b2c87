//! The history of the server: its state, and the entries of the changes that led to it. The two are
//! always in step. Beside them stands the state that looks share, which follows the entries when a look
//! is made.
ghost use Rattle.std.specs.Prelude.{◌≡◌, ◌≤◌, ◌-◌, ℕ, List, [], ◌∷◌, ◌++◌, length, map, slice_get, Some, IsSome, IfOk, IsOk, OnOk, OnErr, option_map, false};
ghost use Rattle.std.specs.Option.{option_copied};
ghost use Rattle.cal_model.specs.History.KeptChanges.{kept_change, is_deletion};
ghost use Rattle.cal_model.specs.History.Journal.{replay, IsLegal};
ghost use Rattle.cal_model.specs.History.Origins.{AreLive, origins_after};
ghost use Rattle.cal_model.specs.State.Changes.{effect, delete_object as object_deleted, delete_calendar as calendar_deleted};
ghost use Rattle.cal_model.specs.State.ServerState.{calendar_at, octets_at};
ghost use Rattle.cal_model.specs.State.UserNames.{AreToldApart};
ghost use Rattle.cal_journal.specs.Behind.{IsBehind};
ghost use Rattle.cal_journal.specs.KeptEntries.{kept_entry, AreSound};
ghost use Rattle.collections.specs.Kept.{state_of, users_of, origins_of};

use crate::view::BookView;
use cal_base::{Arc, NoMemory};
use cal_journal::{Entry, Journal, follow};
use cal_model::Change;
use cal_model::view::Applies;
use collections::{ShownState, ShownView, Store};
use privileges::Users;
use std::alloc::Global;
use std::marker::Model;

/// Who asked for a change, and when.
#[derive(Clone, Copy, Drop)]
pub struct Asked {
    /// The number of the session.
    pub session: u64,
    /// The number of the user.
    pub who: u32,
    /// In seconds since 1970.
    pub moment: i64,
}

/// How many entries one look follows at most, so that it never keeps its turn for long.
const MOST_FOLLOWED: u64 = 256;

/// The status of a deletion (RFC 9110, 9.3.5).
const DELETED: u16 = 204;

/// The state of the server and the entries of the changes that led to it. An entry's number counts
/// from 0, and is the origin of the object that it made.
#[derive(Drop)]
pub struct History {
    users: Arc<Users>,
    store: Store,
    journal: Journal,
    /// What looks share: the state at so many entries of the journal.
    shown: ShownState,
    followed: u64,
}

impl Model for History {
    ghost use Rattle.std.specs.Prelude.{map};
    ghost use Rattle.cal_journal.specs.KeptEntries.{kept_entry};
    ghost use Rattle.cal_book.specs.Keeping.KeptHistories.{Kept, IsHistory};

    ghost Value = { Kept };

    ghost view = { λ h. record { users = h.users; store = h.store; journal = map kept_entry h.journal.items; room = h.journal.room } };

    ghost invariant = { λ h. IsHistory h.users h.store (map kept_entry h.journal.items) h.shown h.followed };
}

impl History {
    ghost use Rattle.cal_book.specs.Keeping.KeptHistories.{IsInStep, IsNext, IsShownNow, users_in, directory_in, state_in, origins_in};
    ghost use Rattle.cal_book.specs.Keeping.Deletions.{asked_entry};
    ghost use Rattle.cal_book.specs.Showing.ShownStates.{shown_directory, shown_state, shown_origins};

    /// The opening state, with no entries and room for none.
    pub fn new(alloc: Global, users: Arc<Users>) -> Result<History, NoMemory>
        ensures users { IfOk result (λ history. users_in history ≡ users) }
        ensures entries { IfOk result (λ history. history.journal ≡ []) }
        ensures room { IfOk result (λ history. history.room ≡ 0) }
    {
        // A look at how many they are, which tells a proof that their names tell them apart.
        let _count = users.len();
        let journal = Journal::new(alloc);
        let shown_users = Arc::try_clone(&users)?;
        let shown = ShownState::new(alloc, shown_users)?;
        let store_users = Arc::try_clone(&users)?;
        let store = Store::new(alloc, store_users)?;
        Ok(History {
            users,
            store,
            journal,
            shown,
            followed: 0,
        })
    }

    /// How many entries there are. Tells a proof that the state is the one that they lead to.
    pub fn entries(&self) -> u64
        ensures entries { result ≡ length self.now.journal }
        ensures step { IsInStep self.now.users self.now.store self.now.journal }
    {
        let _store = &self.store;
        self.journal.len()
    }

    /// The entry of a number, if there is one. Takes no memory.
    pub fn entry(&self, number: u64) -> Option<&Entry>
        ensures { option_map kept_entry (option_copied result) ≡ slice_get self.now.journal number }
    {
        self.journal.at(number)
    }

    /// For how many entries there is room.
    pub fn spare(&self) -> u64
        ensures { result ≡ self.now.room }
    {
        self.journal.spare()
    }

    /// The users.
    pub fn users(&self) -> &Users
        ensures { result.now ≡ users_in self.now }
    {
        &self.users
    }

    /// The state, with its users. Takes no memory.
    pub fn view(&self) -> BookView<'_>
        ensures directory { shown_directory result ≡ directory_in self.now }
        ensures state { shown_state result ≡ state_in self.now }
        ensures origins { shown_origins result ≡ origins_in self.now }
    {
        let _journal = &self.journal;
        BookView::new(&self.store)
    }

    /// The users, shared once more. Takes no memory; it fails only where 2^63 share them.
    pub fn share_users(&self) -> Result<Arc<Users>, NoMemory>
        ensures { IfOk result (λ users. users ≡ users_in self.now) }
    {
        Arc::try_clone(&self.users)
    }

    /// A look at the state of now, whatever becomes of it later. What looks share follows the entries
    /// that came since the last look, at most 256: where more are left, or there is no memory for it,
    /// there is no look, and the next call goes on from there. Nothing that contracts see changes.
    pub fn look(&mut self) -> Result<ShownView, NoMemory>
        ensures same { self.new ≡ self.old }
        ensures at { IfOk result (IsShownNow self.old) }
    {
        look_behind(&self.journal, &mut self.shown, &mut self.followed)
    }

    /// Makes room for one entry more. Where there is room already it cannot fail; without memory all
    /// stays as it was.
    pub fn reserve(&mut self) -> Result<(), NoMemory>
        ensures users { self.new.users ≡ self.old.users }
        ensures store { self.new.store ≡ self.old.store }
        ensures entries { self.new.journal ≡ self.old.journal }
        ensures room { OnOk result (1 ≤ self.new.room) }
        ensures grows { self.old.room ≤ self.new.room }
        ensures succeeds { 1 ≤ self.old.room → IsOk result }
        ensures err { OnErr result (self.new ≡ self.old) }
    {
        let _store = &self.store;
        self.journal.reserve()
    }

    /// Makes a change that was accepted, and keeps its entry. After `NoMemory` nothing is changed.
    pub fn accept(&mut self, entry: Entry) -> Result<(), NoMemory>
        requires room { 1 ≤ self.old.room }
        requires next { IsNext (directory_in self.old) (state_in self.old) (kept_entry entry) }
        ensures users { users_in self.new ≡ users_in self.old }
        ensures entries { OnOk result (self.new.journal ≡ self.old.journal ++ kept_entry entry ∷ []) }
        ensures room { OnOk result (self.new.room ≡ self.old.room - 1) }
        ensures state { OnOk result (state_in self.new ≡ effect (kept_change entry.change) (state_in self.old)) }
        ensures origins { OnOk result ((h : ℕ) (c o : List ℕ) → origins_in self.new h c o ≡ origins_after (kept_change entry.change) (length self.old.journal) (origins_in self.old) h c o) }
        ensures err_only_where_it_adds { OnErr result (is_deletion (kept_change entry.change) ≡ false) }
        ensures err { OnErr result (self.new ≡ self.old) }
    {
        let number = self.journal.len();
        self.store.apply(&entry.change, number)?;
        self.journal.push(entry);
        Ok(())
    }

    /// Deletes an object that is there, and keeps the entry. Takes no memory.
    pub fn delete_object(&mut self, home: u32, calendar: &[u8], name: &[u8], asked: Asked)
        requires room { 1 ≤ self.old.room }
        requires there { IsSome (octets_at (state_in self.old) home calendar.now name.now) }
        requires next { IsNext (directory_in self.old) (state_in self.old) (asked_entry asked (object_deleted home calendar.now name.now)) }
        ensures users { users_in self.new ≡ users_in self.old }
        ensures entries { self.new.journal ≡ self.old.journal ++ asked_entry asked (object_deleted home calendar.now name.now) ∷ [] }
        ensures room { self.new.room ≡ self.old.room - 1 }
        ensures state { state_in self.new ≡ effect (object_deleted home calendar.now name.now) (state_in self.old) }
        ensures origins { (h : ℕ) (c o : List ℕ) → origins_in self.new h c o ≡ origins_after (object_deleted home calendar.now name.now) (length self.old.journal) (origins_in self.old) h c o }
    {
        let stored = self.store.delete_object(home, calendar, name);
        self.journal
            .push(deletion(asked, Change::DeleteObject(stored)));
    }

    /// Deletes a calendar that is there, with its objects, and keeps the entry. Takes no memory.
    pub fn delete_calendar(&mut self, home: u32, name: &[u8], asked: Asked)
        requires room { 1 ≤ self.old.room }
        requires there { IsSome (calendar_at (state_in self.old) home name.now) }
        requires next { IsNext (directory_in self.old) (state_in self.old) (asked_entry asked (calendar_deleted home name.now)) }
        ensures users { users_in self.new ≡ users_in self.old }
        ensures entries { self.new.journal ≡ self.old.journal ++ asked_entry asked (calendar_deleted home name.now) ∷ [] }
        ensures room { self.new.room ≡ self.old.room - 1 }
        ensures state { state_in self.new ≡ effect (calendar_deleted home name.now) (state_in self.old) }
        ensures origins { (h : ℕ) (c o : List ℕ) → origins_in self.new h c o ≡ origins_after (calendar_deleted home name.now) (length self.old.journal) (origins_in self.old) h c o }
    {
        let kept_name = self.store.delete_calendar(home, name);
        self.journal
            .push(deletion(asked, Change::DeleteCalendar(home, kept_name)));
    }
}

/// A look at what follows a journal, once it has followed all of its entries. Where it followed fewer, it
/// is behind these all the same.
fn look_behind(
    journal: &Journal,
    shown: &mut ShownState,
    followed: &mut u64,
) -> Result<ShownView, NoMemory>
    requires users { AreToldApart (users_of shown.old) }
    requires legal { IsLegal (users_of shown.old) (map kept_entry journal.now.items) }
    requires sound { AreSound (users_of shown.old) (map kept_entry journal.now.items) }
    requires behind { IsBehind (users_of shown.old) (map kept_entry journal.now.items) followed.old (state_of shown.old) (origins_of shown.old) }
    ensures users { users_of shown.new ≡ users_of shown.old }
    ensures behind { IsBehind (users_of shown.old) (map kept_entry journal.now.items) followed.new (state_of shown.new) (origins_of shown.new) }
    ensures directory { IfOk result (λ look. users_of look ≡ users_of shown.old) }
    ensures state { IfOk result (λ look. state_of look ≡ replay (users_of shown.old) (map kept_entry journal.now.items)) }
    ensures origins { IfOk result (λ look. AreLive (map kept_entry journal.now.items) (origins_of look)) }
{
    follow(journal, shown, followed, MOST_FOLLOWED)?;
    let count = journal.len();
    if *followed < count {
        return Err(NoMemory);
    }
    let state = shown.look()?;
    // A look at the users, which tells a proof that each object has an origin.
    let _users = state.users();
    Ok(ShownView::of(state))
}

/// The entry of a deletion.
fn deletion(asked: Asked, change: Change) -> Entry
    ensures { result ≡ record { session = asked.session; who = asked.who; moment = asked.moment; change = change; status = 204 } }
{
    Entry {
        session: asked.session,
        who: asked.who,
        moment: asked.moment,
        change,
        status: DELETED,
    }
}
