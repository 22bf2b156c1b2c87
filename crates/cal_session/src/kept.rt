//! A book that is kept in a file.
ghost use Rattle.std.specs.Prelude.{◌≡◌, ◌≤◌, true, false, refl, is_some, slice_get, IfSome};
ghost use Rattle.cal_base.specs.World.Outside.{Rose};
ghost use Rattle.cal_model.specs.State.ServerState.{directory_of};
ghost use Rattle.cal_book.specs.LegalJournals.{is_legal, beginning_is_legal};
ghost use Rattle.cal_keeper.specs.Files.Payloads.{HasForm};
ghost use Rattle.cal_keeper.specs.Keepers.{HasCounted};
ghost use Rattle.cal_session.specs.KeptBooks.{IsKeptOf};
ghost use Rattle.cal_session.specs.KeptSteps.{HasKept};

use cal_base::{Failed, NoMemory, Steps};
use cal_book::{Book, Claim, Desk, Expanded, JournalEntry, Look, Publish, Told, journals_are_told};
use cal_keeper::{Disk, DiskFault, Keeper, file_laws};
use cal_model::Event;
use preconditions::PutReading;
use privileges::Users;
use std::alloc::Global;
use std::marker::Model;
use std::sync::ledger::Ledger;
use turn_lock::Keeps;

/// A book, and the keeper of the file in which its accepted changes are kept. Contracts see both.
///
/// Each change is in the file before it is answered. Once a call of the disk failed the desk is broken: it
/// answers no request any more, and the file is to be loaded again, which has each change that was
/// answered, and at most the one behind them.
#[derive(Drop)]
pub struct Kept<D: Disk> {
    book: Book,
    keeper: Keeper<D>,
}

impl<D: Disk> Model for Kept<D> {
    ghost use Rattle.cal_session.specs.KeptBooks.{KeptState, IsKeptOf};

    ghost Value = { KeptState D };

    ghost view = { λ k. record { book = k.book; keeper = k.keeper } };

    ghost invariant = { λ k. IsKeptOf D.past k.book k.keeper };
}

impl<D: Disk> Kept<D> {
    /// A book, and the keeper of a file that has its journal.
    pub(crate) fn over(book: Book, keeper: Keeper<D>) -> Kept<D>
        requires { IsKeptOf D.past book keeper }
        ensures { result ≡ record { book = book; keeper = keeper } }
    {
        Kept { book, keeper }
    }

    /// The disk.
    pub fn into_disk(self) -> D
        ensures { result ≡ self.keeper.disk }
    {
        let Kept { book, keeper } = self;
        drop(book);
        keeper.into_disk()
    }

    /// The fault by which it is broken, if it is: then a call of its disk failed, and was counted.
    pub fn fault(&self) -> Option<DiskFault>
        ensures broken { is_some result ≡ self.now.keeper.broken }
        ensures counted { HasCounted D.faults self.now.keeper }
    {
        self.keeper.fault()
    }

    /// The book. (That the file has its journal holds of each kept book.)
    pub fn book(&self) -> &Book
        ensures book { result.now ≡ self.now.book }
        ensures kept { IsKeptOf D.past self.now.book self.now.keeper }
    {
        &self.book
    }
}

impl<D: Disk> Keeps for Kept<D> {
    type Entry = JournalEntry;

    type Base = Users;

    ghost journal = { λ k. k.book.work.journal };

    ghost author = { λ e. e.session };

    ghost base = { λ k. k.book.users };

    ghost lawful = { λ users journal. is_legal (directory_of users) journal };

    fn entries(&self) -> u64 {
        journals_are_told();
        self.book.entries()
    }

    ghost lawful_prefix = { λ users journal more h. beginning_is_legal (directory_of users) journal more h };
}

impl<D: Disk> Desk for Kept<D> {
    type Fault = DiskFault;

    ghost book = { λ k. k.book };

    ghost broken = { λ k. k.keeper.broken };

    ghost faults = { λ k. D.faults k.keeper.disk };

    fn reserve(&mut self) -> Result<(), NoMemory> {
        self.book.reserve()
    }

    /// The entry of an accepted change is appended before the reply is given. For want of memory nothing is
    /// changed, and nothing is to be appended.
    fn ask<L: Ledger>(
        &mut self,
        alloc: Global,
        event: &Event,
        reading: &mut Option<PutReading>,
        steps: &mut Steps<L>,
    ) -> Told<DiskFault> {
        let before = self.book.entries();
        if let Some(fault) = self.keeper.fault() {
            return Told::Broken(fault);
        }
        // An accepted change is in the form of a record, by the laws of files.
        file_laws();
        let _size = event.request.size;
        let reply = self.book.request(alloc, event, reading, steps);
        match keep_new(&self.book, before, &mut self.keeper) {
            None => Told::Reply(reply),
            Some(fault) => {
                drop(reply);
                Told::Broken(fault)
            }
        }
    }

    /// A look shows what is in the file already: an entry is made and appended in one turn.
    fn look(&mut self, event: &Event) -> Option<Look> {
        if let Some(_) = self.keeper.fault() {
            return None;
        }
        self.book.look(event)
    }

    fn came_at(&mut self, moment: i64) {
        self.book.came_at(moment);
    }

    fn claim(&mut self) -> Result<Option<Claim>, NoMemory> {
        self.book.claim()
    }

    fn publish<L: Ledger>(&mut self, expanded: Expanded, steps: &mut Steps<L>) -> Publish {
        self.book.publish(expanded, steps)
    }

    fn abandon(&mut self, claim: Claim) {
        self.book.abandon(claim);
    }

    ghost journals = { λ _. refl };

    ghost bases = { λ _. refl };

    ghost authors = { λ _. refl };

    ghost tests = { λ _ _. refl };
}

/// Appends the entry of a number to the file, if the book has one. Gives the fault, where that failed.
fn keep_new<D: Disk>(book: &Book, number: u64, keeper: &mut Keeper<D>) -> Option<DiskFault>
    requires unbroken { keeper.old.broken ≡ false }
    requires form { IfSome (slice_get book.now.work.journal number) (HasForm keeper.old.principals) }
    ensures kept { HasKept D.past (slice_get book.now.work.journal number) keeper.old keeper.new }
    ensures broken { is_some result ≡ keeper.new.broken }
    ensures failed { keeper.new.broken ≡ true → Rose (D.faults keeper.old.disk) (D.faults keeper.new.disk) }
    ensures never_falls { D.faults keeper.old.disk ≤ D.faults keeper.new.disk }
{
    match book.entry(number) {
        None => None,
        Some(entry) => match keeper.append(entry) {
            Ok(()) => None,
            Err(Failed) => keeper.fault(),
        },
    }
}
