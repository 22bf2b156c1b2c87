//! What the threads of `load` did, joined and added up.
ghost use Rattle.std.specs.Prelude.{◌≡◌, ◌+◌, ◌++◌, ◌∷◌, [], ℕ, List, false, true, length};
ghost use Rattle.std.specs.List.{AllByRecursion};
ghost use Rattle.sha2.specs.Hashers.{Holds256};
ghost use Rattle.caldav_server.specs.LoadJobs.{HasJoined, Known};
ghost use Rattle.caldav_server.specs.LoadSums.{AreAdded, IsBack, passes_of};
ghost use Rattle.caldav_server.specs.declared.load_sessions.Done.{Done as DoneData};

use crate::load_sessions::{Account, Done, Outcome};
use cal_base::List;
use cal_book::Book;
use cal_session::Service;
use sha2::{Digest, Sha256};
use turn_lock::Pass;

/// What was done in all.
#[derive(Drop)]
pub(crate) struct Tally {
    /// Whether all was done, and all sums are those that they should be.
    pub(crate) whole: bool,
    pub(crate) requests: u64,
    pub(crate) accepted: u64,
    pub(crate) octets: u64,
    /// Of all octets that were written, session by session.
    pub(crate) digest: Sha256,
}

/// Joins the passes of all threads, and adds up what the sessions did, in their order.
pub(crate) fn joined(service: &Service, pass: &mut Pass<Book>, done: Vec<Done>) -> Tally
    requires pass { (pass.old.lock ≡ service.now) × (pass.old.holds_turn ≡ false) }
    requires back { AllByRecursion (λ done. IsBack service.now done.pass) done.items }
    ensures joined { HasJoined pass.old pass.new (passes_of done.items) }
    ensures tally { AreAdded done.items result }
{
    let mut tally = nothing();
    let mut rest = List::from_vec(done);
    'joins: while let Some(done) = rest.pop_front() {
        join_one(service, pass, &mut tally, done);
    }
    tally
}

/// Nothing was done yet.
fn nothing() -> Tally
    ensures { AreAdded [] result }
{
    Tally {
        whole: true,
        requests: 0,
        accepted: 0,
        octets: 0,
        digest: Sha256::new(),
    }
}

/// Joins the pass of a thread, and adds what it did.
fn join_one(service: &Service, pass: &mut Pass<Book>, tally: &mut Tally, done: Done)
    requires pass { (pass.old.lock ≡ service.now) × (pass.old.holds_turn ≡ false) }
    requires back { IsBack service.now done.pass }
    ensures pass { (pass.new.lock ≡ service.now) × (pass.new.holds_turn ≡ false) }
    ensures joined { (start : Known) (before : List Known) → HasJoined start pass.old before → HasJoined start pass.new (before ++ done.pass ∷ []) }
    ensures tally { (before : List DoneData) → AreAdded before tally.old → AreAdded (before ++ done ∷ []) tally.new }
{
    let Done {
        pass: other,
        outcome,
    } = done;
    service.lock().join(pass, other);
    add(tally, &outcome);
}

/// Adds what a thread did.
fn add(tally: &mut Tally, outcome: &Outcome)
    ensures { (before : List DoneData) (done : DoneData) → done.outcome ≡ outcome.now → AreAdded before tally.old → AreAdded (before ++ done ∷ []) tally.new }
{
    match outcome {
        Outcome::Served(account) => add_account(tally, account),
        Outcome::Worked => {}
        Outcome::Failed => tally.whole = false,
    }
}

/// Adds what a session did.
fn add_account(tally: &mut Tally, account: &Account)
    ensures whole { tally.new.whole ≡ true → tally.old.whole ≡ true }
    ensures requests { tally.new.whole ≡ true → tally.new.requests ≡ tally.old.requests + account.now.requests }
    ensures accepted { tally.new.whole ≡ true → tally.new.accepted ≡ tally.old.accepted + account.now.accepted }
    ensures octets { tally.new.whole ≡ true → tally.new.octets ≡ tally.old.octets + length account.now.link.written }
    ensures digest { (message : List ℕ) → Holds256 tally.old.digest message → Holds256 tally.new.digest (message ++ account.now.link.written) }
{
    let written = account.link.written();
    let len = written.len() as u64;
    tally.requests = sum(tally.requests, account.requests, &mut tally.whole);
    tally.accepted = sum(tally.accepted, account.accepted, &mut tally.whole);
    tally.octets = sum(tally.octets, len, &mut tally.whole);
    tally.digest.update(written);
}

/// The sum of two numbers, and whether it is that.
fn sum(first: u64, second: u64, whole: &mut bool) -> u64
    ensures whole { whole.new ≡ true → whole.old ≡ true }
    ensures sum { whole.new ≡ true → result ≡ first + second }
{
    match first.checked_add(second) {
        Some(sum) => sum,
        None => {
            *whole = false;
            0
        }
    }
}
