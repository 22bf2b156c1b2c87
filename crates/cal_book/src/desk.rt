//! What a session and a worker ask of the value under the lock.
ghost use Rattle.std.specs.Prelude.{◌≡◌, ◌≢◌, ◌≤◌, ◌+◌, ◌≤ℤ◌, ℕ, Bool, List, pos, true, false, refl, length, option_map, Some, IfOk, IfSome, IsOk, IsSome, OnOk, OnErr};
ghost use Rattle.cal_base.specs.World.Outside.{Rose};
ghost use Rattle.cal_model.specs.History.Claims.{next_claim};
ghost use Rattle.cal_model.specs.History.Journal.{Entry as EntryData, IsLegal};
ghost use Rattle.cal_model.specs.History.Origins.{Origins, AreLive};
ghost use Rattle.cal_model.specs.Pieces.PieceLists.{rows_at};
ghost use Rattle.cal_model.specs.Replies.BareReplies.{bare_reply};
ghost use Rattle.cal_model.specs.Requests.BookableRequests.{IsBookable};
ghost use Rattle.cal_model.specs.Serving.EventReplies.{reply_to};
ghost use Rattle.cal_model.specs.Serving.Outcomes.{is_reading as reads, outcome, unchanged};
ghost use Rattle.cal_model.specs.Sight.LookingAlike.{LookAlike};
ghost use Rattle.cal_model.specs.State.ServerState.{ServerState, directory_of};
ghost use Rattle.cal_model.specs.Users.UsersFile.{Users};
ghost use Rattle.cal_model.specs.declared.reply.Reply.{Reply as Answer};
ghost use Rattle.cal_model.specs.declared.request.Method.{Method};
ghost use Rattle.piece_claims.specs.Boards.{gone_for, later, out_after};
ghost use Rattle.cal_book.specs.Answering.ReadingCost.{reading_cost};
ghost use Rattle.cal_book.specs.Cores.{Core, IsRightCore, directory_in, state_in};
ghost use Rattle.cal_book.specs.Desks.{IfReply, WhereBroken, TellsBroken, IsLeftBroken};
ghost use Rattle.cal_book.specs.EventSteps.{work_after};
ghost use Rattle.cal_book.specs.LegalJournals.{is_legal, beginning_is_legal};
ghost use Rattle.cal_book.specs.Looks.{IsLookAt};
ghost use Rattle.cal_book.specs.Publishing.{IsClaimIn, IsPublished, pair_of_claim, claim_ended, piece_of};

use crate::book::Book;
use crate::claims::{Claim, Expanded, Publish};
use crate::look::Look;
use cal_base::{NoMemory, Steps};
use cal_journal::Entry;
use cal_model::{Event, Reply};
use preconditions::PutReading;
use privileges::Users;
use std::alloc::Global;
use std::marker::Model;
use std::sync::ledger::Ledger;
use turn_lock::Keeps;

/// An entry of the journal, as contracts see it. No program has one.
pub struct JournalEntry {
    kept: Entry,
}

impl Model for JournalEntry {
    ghost use Rattle.cal_journal.specs.KeptEntries.{kept_entry};
    ghost use Rattle.cal_model.specs.History.Journal.{Entry};

    ghost Value = { Entry };

    ghost view = { λ e. kept_entry e.kept };
}

/// No value of it is there.
#[derive(Drop)]
pub enum Never {}

/// A reply, or the fault by which a desk is broken.
#[derive(Drop)]
pub enum Told<X> {
    Reply(Reply),
    Broken(X),
}

/// A book, perhaps with something beside it that may fail, as a file in which accepted changes are
/// kept. To a proof it means the book, whether it is broken, and how many of its faults were counted.
///
/// It becomes broken only in a request in which a fault is counted, and stays so. Then it answers no
/// request any more, and its book stays as it is.
pub trait Desk: Keeps<Entry = JournalEntry, Base = Users> {
    /// What it tells once it is broken.
    type Fault: Send + Drop;

    ghost book: { Self → Core };

    ghost broken: { Self → Bool };

    /// How many faults were counted. It never falls.
    ghost faults: { Self → ℕ };

    /// Makes room for one deletion. Where there is room already it cannot fail.
    fn reserve(&mut self) -> Result<(), NoMemory>
        ensures users { (book self.new).users ≡ (book self.old).users }
        ensures work { (book self.new).work ≡ (book self.old).work }
        ensures room { OnOk result (1 ≤ (book self.new).spare) }
        ensures succeeds { 1 ≤ (book self.old).spare → IsOk result }
        ensures broken_kept { broken self.new ≡ broken self.old }
        ensures never_falls { faults self.old ≤ faults self.new };

    /// Answers a request, and makes the change that it asks for, if that is accepted. Without memory
    /// the answer is 503, and nothing is changed. A fault is told exactly where the desk is broken
    /// afterwards. The octets of a PUT are not read again where they are those of a reading, which is used
    /// up.
    fn ask<L: Ledger>(
        &mut self,
        alloc: Global,
        event: &Event,
        reading: &mut Option<PutReading>,
        steps: &mut Steps<L>,
    ) -> Told<Self::Fault>
        requires bookable { IsBookable (book self.old).users event.now.who event.now.request }
        requires from_1970 { pos 0 ≤ℤ event.now.moment }
        requires to_9999 { event.now.moment ≤ℤ pos 253_402_300_799 }
        ensures users { (book self.new).users ≡ (book self.old).users }
        ensures reply { IfReply result (λ reply. reply.status ≢ 503 → reply ≡ reply_to (directory_in (book self.old)) (state_in (book self.old)) event.now) }
        ensures work { IfReply result (λ reply. reply.status ≢ 503 → (book self.new).work ≡ work_after (book self.old).users event.now (book self.old).work) }
        ensures busy { IfReply result (λ reply. reply.status ≡ 503 → (reply ≡ bare_reply 503) × ((book self.new).work ≡ (book self.old).work)) }
        ensures known { IfReply result (λ reply. reply.status ≢ 501) }
        ensures as_before { IfReply result (λ reply. (refused : Answer) → outcome (directory_in (book self.old)) (state_in (book self.old)) event.now ≡ unchanged refused → (book self.new).work ≡ record (book self.old).work { latest = (book self.new).work.latest }) }
        ensures alike { IfReply result (λ reply. reads event.now.request.method ≡ true → reply.status ≢ 503 → (other : ServerState) → LookAlike (directory_in (book self.old)) (state_in (book self.old)) other event.now.who → reply ≡ reply_to (directory_in (book self.old)) other event.now) }
        ensures deletes { IfReply result (λ reply. event.now.request.method ≡ Method.Delete → 1 ≤ (book self.old).spare → reply.status ≢ 503) }
        ensures legal { IsLegal (directory_in (book self.old)) (book self.new).work.journal }
        ensures reading_steps { reads event.now.request.method ≡ true → (origins : Origins) → AreLive (book self.old).work.journal origins → steps.new ≤ steps.old + reading_cost (λ origin window. rows_at origin window (book self.old).work.pieces) origins (directory_in (book self.old)) (state_in (book self.old)) event.now }
        ensures changing_steps { reads event.now.request.method ≡ false → steps.new + length (book self.new).work.pieces ≡ steps.old + length (book self.old).work.pieces }
        ensures told_broken { TellsBroken result (broken self.new) }
        ensures stays_broken { broken self.old ≡ true → (broken self.new ≡ true) × (book self.new ≡ book self.old) }
        ensures breaks { WhereBroken result (broken self.old ≡ false → Rose (faults self.old) (faults self.new) × IsLeftBroken (book self.old) event.now (book self.new)) }
        ensures never_falls { faults self.old ≤ faults self.new };

    /// A look at its book for a request that only reads, which is answered from it while others have
    /// their turns. There is none for a request that changes something, where there is no memory for it,
    /// and where the desk is broken: then the desk is asked.
    fn look(&mut self, event: &Event) -> Option<Look>
        ensures same { book self.new ≡ book self.old }
        ensures at { IfSome result (IsLookAt (book self.old) event.now) }
        ensures unbroken { IsSome result → broken self.old ≡ false }
        ensures broken_kept { broken self.new ≡ broken self.old }
        ensures never_falls { faults self.old ≤ faults self.new };

    /// A request that was answered from a look, other than by 503, came at a moment.
    fn came_at(&mut self, moment: i64)
        requires from_1970 { pos 0 ≤ℤ moment }
        requires to_9999 { moment ≤ℤ pos 253_402_300_799 }
        ensures users { (book self.new).users ≡ (book self.old).users }
        ensures work { (book self.new).work ≡ record (book self.old).work { latest = later (book self.old).work.latest moment } }
        ensures broken_kept { broken self.new ≡ broken self.old }
        ensures never_falls { faults self.old ≤ faults self.new };

    /// Claims the piece that is to be made next, if there is one. Without memory nothing is changed.
    fn claim(&mut self) -> Result<Option<Claim>, NoMemory>
        ensures users { (book self.new).users ≡ (book self.old).users }
        ensures pair { IfOk result (λ claim. option_map pair_of_claim claim ≡ next_claim (book self.old).work) }
        ensures work { OnOk result ((book self.new).work ≡ record (book self.old).work { out = out_after (next_claim (book self.old).work) (book self.old).work.out }) }
        ensures of_book { IfOk result (λ found. IfSome found (λ claim. IsClaimIn (book self.old).work.journal claim)) }
        ensures spare { (book self.new).spare ≡ (book self.old).spare }
        ensures err { OnErr result (book self.new ≡ book self.old) }
        ensures broken_kept { broken self.new ≡ broken self.old }
        ensures never_falls { faults self.old ≤ faults self.new };

    /// Publishes what was found for a claim, as the book does. The claim ends in any case.
    fn publish<L: Ledger>(&mut self, expanded: Expanded, steps: &mut Steps<L>) -> Publish
        requires of_book { IsClaimIn (book self.old).work.journal expanded.claim }
        ensures users { (book self.new).users ≡ (book self.old).users }
        ensures work { IsPublished expanded (book self.old).work (book self.new).work result }
        ensures found { result ≡ Publish.Published → rows_at expanded.claim.origin expanded.claim.window (book self.new).work.pieces ≡ Some expanded.rows }
        ensures spare { (book self.new).spare ≡ (book self.old).spare }
        ensures steps { steps.new ≤ steps.old + gone_for (piece_of expanded) (book self.old).work.pieces }
        ensures broken_kept { broken self.new ≡ broken self.old }
        ensures never_falls { faults self.old ≤ faults self.new };

    /// Gives a claim up: it can be claimed again. Takes no memory.
    fn abandon(&mut self, claim: Claim)
        ensures abandoned { book self.new ≡ record (book self.old) { work = claim_ended claim (book self.old).work } }
        ensures broken_kept { broken self.new ≡ broken self.old }
        ensures never_falls { faults self.old ≤ faults self.new };

    /// Its journal, its base and its test are those of its book, and an entry's author is its session.
    ghost journals: { (s : Self) → Self.journal s ≡ (book s).work.journal };

    ghost bases: { (s : Self) → Self.base s ≡ (book s).users };

    ghost authors: { (e : EntryData) → Self.author e ≡ e.session };

    ghost tests: { (users : Users) (journal : List EntryData) → Self.lawful users journal ≡ is_legal (directory_of users) journal };
}

impl Keeps for Book {
    type Entry = JournalEntry;

    type Base = Users;

    ghost journal = { λ b. b.work.journal };

    ghost author = { λ e. e.session };

    ghost base = { λ b. b.users };

    ghost lawful = { λ users journal. is_legal (directory_of users) journal };

    fn entries(&self) -> u64 {
        Book::entries(self)
    }

    ghost lawful_prefix = { λ users journal more h. beginning_is_legal (directory_of users) journal more h };
}

impl Desk for Book {
    type Fault = Never;

    ghost book = { λ b. b };

    ghost broken = { λ _. false };

    ghost faults = { λ _. 0 };

    fn reserve(&mut self) -> Result<(), NoMemory> {
        Book::reserve(self)
    }

    fn ask<L: Ledger>(
        &mut self,
        alloc: Global,
        event: &Event,
        reading: &mut Option<PutReading>,
        steps: &mut Steps<L>,
    ) -> Told<Never> {
        Told::Reply(self.request(alloc, event, reading, steps))
    }

    fn look(&mut self, event: &Event) -> Option<Look> {
        Book::look(self, event)
    }

    fn came_at(&mut self, moment: i64) {
        Book::came_at(self, moment);
    }

    fn claim(&mut self) -> Result<Option<Claim>, NoMemory> {
        Book::claim(self)
    }

    fn publish<L: Ledger>(&mut self, expanded: Expanded, steps: &mut Steps<L>) -> Publish {
        Book::publish(self, expanded, steps)
    }

    fn abandon(&mut self, claim: Claim) {
        Book::abandon(self, claim);
    }

    ghost journals = { λ _. refl };

    ghost bases = { λ _. refl };

    ghost authors = { λ _. refl };

    ghost tests = { λ _ _. refl };
}
