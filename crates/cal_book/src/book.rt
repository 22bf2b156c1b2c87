//! The book.
ghost use Rattle.std.specs.Prelude.{◌≡◌, ◌≢◌, ◌≤◌, ◌+◌, ◌≤ℤ◌, ℕ, pos, true, false, [], length, slice_get, option_map, Option, Some, IfOk, IfSome, IsOk, OnOk, OnErr};
ghost use Rattle.std.specs.Option.{option_copied};
ghost use Rattle.cal_journal.specs.KeptEntries.{kept_entry};
ghost use Rattle.cal_model.specs.History.Claims.{next_claim};
ghost use Rattle.cal_model.specs.History.Journal.{IsLegal};
ghost use Rattle.cal_model.specs.History.Origins.{Origins, AreLive};
ghost use Rattle.cal_model.specs.Pieces.PieceLists.{rows_at};
ghost use Rattle.cal_model.specs.Replies.BareReplies.{bare_reply as reply_of_status};
ghost use Rattle.cal_model.specs.declared.reply.Reply.{Reply as Answer};
ghost use Rattle.cal_model.specs.Requests.BookableRequests.{IsBookable};
ghost use Rattle.cal_model.specs.Serving.EventReplies.{reply_to};
ghost use Rattle.cal_model.specs.Serving.Outcomes.{is_reading as reads, outcome, unchanged};
ghost use Rattle.cal_model.specs.Sight.LookingAlike.{LookAlike};
ghost use Rattle.cal_model.specs.State.ServerState.{ServerState, directory_of};
ghost use Rattle.piece_claims.specs.Boards.{gone_for, later, out_after};
ghost use Rattle.cal_book.specs.Answering.ReadingCost.{reading_cost};
ghost use Rattle.cal_book.specs.Showing.ShownStates.{shown_directory, shown_state, shown_origins};

use crate::changing::change;
use crate::claims::{Claim, Expanded, Publish};
use crate::history::History;
use crate::look::Look;
use crate::looking::{is_reading, look_for};
use crate::publishing::publish;
use crate::reading::read;
use crate::sharing::share;
use crate::view::BookView;
use cal_base::{Arc, NoMemory, ReservedList, Steps};
use cal_journal::Entry;
use cal_model::{Event, Method, Reply, bare_reply};
use piece_claims::{Claims, next_is_of_work};
use preconditions::PutReading;
use privileges::Users;
use std::alloc::Global;
use std::marker::Model;
use std::sync::ledger::Ledger;

/// Octets for the body that tells which privilege is lacking, so that such a refusal of a DELETE takes
/// no memory.
const REPLY_ROOM: usize = 4_096;

/// The state of the server, the entries of the changes that led to it, and the pieces of expanded
/// recurrence. Contracts see the users, what claims depend on (the journal, the greatest moment, the
/// pieces and the claims that are out), and for how many deletions there is room.
#[derive(Drop)]
pub struct Book {
    history: History,
    claims: Claims,
    /// Room for the body of one reply, without an octet in it.
    room: ReservedList<u8>,
}

impl Model for Book {
    ghost use Rattle.cal_book.specs.Cores.{Core};
    ghost use Rattle.cal_book.specs.Books.{core_of, IsBook};

    ghost Value = { Core };

    ghost view = { λ b. core_of b.history b.claims b.room };

    ghost invariant = { λ b. IsBook b.history b.claims b.room };
}

impl Book {
    ghost use Rattle.cal_book.specs.Cores.{Core, IsRightCore, directory_in, state_in};
    ghost use Rattle.cal_book.specs.EventSteps.{work_after, stepped};
    ghost use Rattle.cal_book.specs.Looks.{IsLookAt};
    ghost use Rattle.cal_book.specs.Publishing.{IsClaimIn, IsPublished, pair_of_claim, claim_ended, piece_of};

    /// The book at the start: the opening state of its users, no entry, no piece and no claim.
    pub fn start(alloc: Global, users: Arc<Users>) -> Result<Book, NoMemory>
        ensures users { IfOk result (λ book. book.users ≡ users) }
        ensures work { IfOk result (λ book. book.work ≡ record { journal = []; latest = pos 0; pieces = []; out = [] }) }
    {
        let history = History::new(alloc, users)?;
        let claims = Claims::new(alloc)?;
        Ok(Book {
            history,
            claims,
            room: ReservedList::new(alloc),
        })
    }

    /// Makes room for one deletion. Where there is room already it cannot fail.
    pub fn reserve(&mut self) -> Result<(), NoMemory>
        ensures users { self.new.users ≡ self.old.users }
        ensures work { self.new.work ≡ self.old.work }
        ensures room { OnOk result (1 ≤ self.new.spare) }
        ensures succeeds { 1 ≤ self.old.spare → IsOk result }
    {
        self.history.reserve()?;
        self.claims.reserve()?;
        self.room.reserve(REPLY_ROOM)
    }

    /// For how many deletions there is room. Takes no memory.
    pub fn spare(&self) -> u64
        ensures { result ≡ self.now.spare }
    {
        if self.room.room() < REPLY_ROOM {
            return 0;
        }
        self.history.spare().min(self.claims.room())
    }

    /// How many entries there are. Takes no memory.
    pub fn entries(&self) -> u64
        ensures entries { result ≡ length self.now.work.journal }
        ensures kept { IsRightCore self.now }
    {
        let _count = self.claims.row_count();
        self.history.entries()
    }

    /// The entry of a number, if there is one. Takes no memory.
    pub fn entry(&self, number: u64) -> Option<&Entry>
        ensures { option_map kept_entry (option_copied result) ≡ slice_get self.now.work.journal number }
    {
        self.history.entry(number)
    }

    /// The state, with its users. Takes no memory.
    pub fn view(&self) -> BookView<'_>
        ensures directory { shown_directory result ≡ directory_in self.now }
        ensures state { shown_state result ≡ state_in self.now }
        ensures origins { AreLive self.now.work.journal (shown_origins result) }
    {
        let _entries = self.history.entries();
        self.history.view()
    }

    /// Answers a request, and makes the change that it asks for, if that is accepted. Without memory
    /// the answer is 503, and nothing is changed. A request that only reads or is refused leaves the
    /// journal, the pieces and the claims as they are; its moment may move the horizon of the claims. The
    /// octets of a PUT are not read again where they are those of a reading, which is used up.
    pub fn request<L: Ledger>(
        &mut self,
        alloc: Global,
        event: &Event,
        reading: &mut Option<PutReading>,
        steps: &mut Steps<L>,
    ) -> Reply
        requires bookable { IsBookable self.old.users event.now.who event.now.request }
        requires from_1970 { pos 0 ≤ℤ event.now.moment }
        requires to_9999 { event.now.moment ≤ℤ pos 253_402_300_799 }
        ensures users { self.new.users ≡ self.old.users }
        ensures reply { result.status ≢ 503 → result ≡ reply_to (directory_in self.old) (state_in self.old) event.now }
        ensures work { result.status ≢ 503 → self.new.work ≡ work_after self.old.users event.now self.old.work }
        ensures busy { result.status ≡ 503 → (result ≡ reply_of_status 503) × (self.new.work ≡ self.old.work) }
        ensures known { result.status ≢ 501 }
        ensures as_before { (refused : Answer) → outcome (directory_in self.old) (state_in self.old) event.now ≡ unchanged refused → self.new.work ≡ record self.old.work { latest = self.new.work.latest } }
        ensures alike { reads event.now.request.method ≡ true → result.status ≢ 503 → (other : ServerState) → LookAlike (directory_in self.old) (state_in self.old) other event.now.who → result ≡ reply_to (directory_in self.old) other event.now }
        ensures deletes { event.now.request.method ≡ Method.Delete → 1 ≤ self.old.spare → result.status ≢ 503 }
        ensures legal { IsLegal (directory_in self.old) self.new.work.journal }
        ensures reading_steps { reads event.now.request.method ≡ true → (origins : Origins) → AreLive self.old.work.journal origins → steps.new ≤ steps.old + reading_cost (λ origin window. rows_at origin window self.old.work.pieces) origins (directory_in self.old) (state_in self.old) event.now }
        ensures changing_steps { reads event.now.request.method ≡ false → steps.new + length self.new.work.pieces ≡ steps.old + length self.old.work.pieces }
    {
        let _entries = self.entries();
        match self.answer(alloc, event, reading, steps) {
            Ok(reply) => {
                self.came_at(event.moment);
                reply
            }
            Err(NoMemory) => bare_reply(alloc, 503),
        }
    }

    /// A look at the state and the pieces of now, for a request that only reads. There is none for one
    /// that changes something, where there is no memory for it, and where more than 256 entries came since
    /// the last look, or have pieces that looks do not share yet. Nothing that contracts see changes.
    pub fn look(&mut self, event: &Event) -> Option<Look>
        ensures same { self.new ≡ self.old }
        ensures at { IfSome result (IsLookAt self.old event.now) }
    {
        look_for(&mut self.history, &mut self.claims, event)
    }

    /// A request came at a moment, and was answered other than by 503.
    pub fn came_at(&mut self, moment: i64)
        requires from_1970 { pos 0 ≤ℤ moment }
        requires to_9999 { moment ≤ℤ pos 253_402_300_799 }
        ensures users { self.new.users ≡ self.old.users }
        ensures work { self.new.work ≡ record self.old.work { latest = later self.old.work.latest moment } }
        ensures legal { IsLegal (directory_in self.old) self.new.work.journal }
    {
        let _entries = self.history.entries();
        self.claims.at(moment);
    }

    /// The reply to a request, once its change is made.
    fn answer<L: Ledger>(
        &mut self,
        alloc: Global,
        event: &Event,
        reading: &mut Option<PutReading>,
        steps: &mut Steps<L>,
    ) -> Result<Reply, NoMemory>
        requires bookable { IsBookable self.old.users event.now.who event.now.request }
        requires from_1970 { pos 0 ≤ℤ event.now.moment }
        requires to_9999 { event.now.moment ≤ℤ pos 253_402_300_799 }
        ensures users { self.new.users ≡ self.old.users }
        ensures reply { IfOk result (λ reply. reply ≡ reply_to (directory_in self.old) (state_in self.old) event.now) }
        ensures work { OnOk result (self.new.work ≡ stepped self.old.users event.now self.old.work) }
        ensures busy { OnErr result (self.new.work ≡ self.old.work) }
        ensures deletes { event.now.request.method ≡ Method.Delete → 1 ≤ self.old.spare → IsOk result }
        ensures reading_steps { reads event.now.request.method ≡ true → (origins : Origins) → AreLive self.old.work.journal origins → steps.new ≤ steps.old + reading_cost (λ origin window. rows_at origin window self.old.work.pieces) origins (directory_in self.old) (state_in self.old) event.now }
        ensures changing_steps { reads event.now.request.method ≡ false → steps.new + length self.new.work.pieces ≡ steps.old + length self.old.work.pieces }
    {
        if is_reading(event.request.method) {
            self.read(alloc, event, steps)
        } else {
            self.change(alloc, event, reading, steps)
        }
    }

    /// The reply to a request that only reads.
    fn read<L: Ledger>(
        &mut self,
        alloc: Global,
        event: &Event,
        steps: &mut Steps<L>,
    ) -> Result<Reply, NoMemory>
        requires reading { reads event.now.request.method ≡ true }
        requires bookable { IsBookable self.old.users event.now.who event.now.request }
        requires from_1970 { pos 0 ≤ℤ event.now.moment }
        requires to_9999 { event.now.moment ≤ℤ pos 253_402_300_799 }
        ensures users { self.new.users ≡ self.old.users }
        ensures reply { IfOk result (λ reply. reply ≡ reply_to (directory_in self.old) (state_in self.old) event.now) }
        ensures same { self.new.work ≡ self.old.work }
        ensures work { self.new.work ≡ stepped self.old.users event.now self.old.work }
        ensures steps { (origins : Origins) → AreLive self.old.work.journal origins → steps.new ≤ steps.old + reading_cost (λ origin window. rows_at origin window self.old.work.pieces) origins (directory_in self.old) (state_in self.old) event.now }
    {
        read(
            alloc,
            &self.history,
            &self.claims,
            event,
            &mut self.room,
            steps,
        )
    }

    /// The reply to a request that changes something, once its change is made. Its memory is taken
    /// first.
    fn change<L: Ledger>(
        &mut self,
        alloc: Global,
        event: &Event,
        reading: &mut Option<PutReading>,
        steps: &mut Steps<L>,
    ) -> Result<Reply, NoMemory>
        requires changing { reads event.now.request.method ≡ false }
        requires bookable { IsBookable self.old.users event.now.who event.now.request }
        ensures users { self.new.users ≡ self.old.users }
        ensures reply { IfOk result (λ reply. reply ≡ reply_to (directory_in self.old) (state_in self.old) event.now) }
        ensures work { OnOk result (self.new.work ≡ stepped self.old.users event.now self.old.work) }
        ensures busy { OnErr result (self.new.work ≡ self.old.work) }
        ensures deletes { event.now.request.method ≡ Method.Delete → 1 ≤ self.old.spare → IsOk result }
        ensures steps { steps.new + length self.new.work.pieces ≡ steps.old + length self.old.work.pieces }
    {
        self.reserve()?;
        change(
            alloc,
            &mut self.history,
            &mut self.claims,
            &mut self.room,
            event,
            reading,
            steps,
        )
    }

    /// Claims the piece that is to be made next, if there is one. Without memory nothing is changed.
    pub fn claim(&mut self) -> Result<Option<Claim>, NoMemory>
        ensures users { self.new.users ≡ self.old.users }
        ensures pair { IfOk result (λ claim. option_map pair_of_claim claim ≡ next_claim self.old.work) }
        ensures work { OnOk result (self.new.work ≡ record self.old.work { out = out_after (next_claim self.old.work) self.old.work.out }) }
        ensures of_book { IfOk result (λ found. IfSome found (λ claim. IsClaimIn self.old.work.journal claim)) }
        ensures spare { self.new.spare ≡ self.old.spare }
        ensures err { OnErr result (self.new ≡ self.old) }
    {
        next_is_of_work();
        let Some((origin, window)) = self.claims.next() else {
            return Ok(None);
        };
        let stored = share(&self.history, origin)?;
        self.claims.claim();
        Ok(Some(Claim {
            stored,
            origin,
            window,
        }))
    }

    /// Publishes what was found for a claim: its rows are kept as the newest piece, if their object is
    /// still there. The claim ends in any case. Takes at most one step for each piece that goes by age.
    pub fn publish<L: Ledger>(&mut self, expanded: Expanded, steps: &mut Steps<L>) -> Publish
        requires of_book { IsClaimIn self.old.work.journal expanded.claim }
        ensures users { self.new.users ≡ self.old.users }
        ensures work { IsPublished expanded self.old.work self.new.work result }
        ensures found { result ≡ Publish.Published → rows_at expanded.claim.origin expanded.claim.window self.new.work.pieces ≡ Some expanded.rows }
        ensures spare { self.new.spare ≡ self.old.spare }
        ensures steps { steps.new ≤ steps.old + gone_for (piece_of expanded) self.old.work.pieces }
    {
        publish(&self.history, &mut self.claims, expanded, steps)
    }

    /// Gives a claim up: it can be claimed again. Takes no memory.
    pub fn abandon(&mut self, claim: Claim)
        ensures { self.new ≡ record self.old { work = claim_ended claim self.old.work } }
    {
        self.claims.abandon(claim.origin, claim.window);
    }
}
