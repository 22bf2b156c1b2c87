//! A worker.
ghost use Rattle.std.specs.Prelude.{◌≡◌, ◌≤◌, ◌<◌, ◌+◌, ◌∷◌, ◌^◌, false, length, IsSome};
ghost use Rattle.cal_book.specs.Publishing.{IsClaimIn};
ghost use Rattle.cal_model.specs.History.LiveObjects.{live_at};
ghost use Rattle.expansion_workers.specs.Work.{IsCounted, stale_in, stale_of};
ghost use Rattle.turn_lock.specs.Journals.{IsFollowedByOthers, entries_by};

use crate::turns::{give_up, publish_rows, take_claim};
use cal_base::{Gate, NoMemory, Steps};
use cal_book::{Book, Claim, Desk, Publish, expand};
use std::alloc::Global;
use std::marker::Brand;
use std::sync::Wait;
use std::sync::ledger::{Blank, Ledger};
use turn_lock::{Pass, TurnLock};

/// What became of the claims of a worker.
#[derive(Debug, Clone, Copy, PartialEq, Eq)]
pub struct Worked {
    /// How many claims there were: the sum of the others.
    pub claimed: u32,
    pub published: u32,
    /// Claims whose object was replaced or deleted meanwhile.
    pub stale: u32,
    /// Claims that met want of memory.
    pub refused: u32,
}

/// What became of a claim.
#[derive(Clone, Copy)]
enum Turn {
    Published,
    Stale,
    Refused,
}

/// Takes so many turns at the desk: each claims a piece, passes the gate with the number of its
/// origin, expands the piece and publishes it. A claim that meets want of memory is given up. No turn
/// of the lock is held while a piece is expanded. The first turn that finds nothing to claim is the
/// last.
///
/// No entry is added: what the pass sees more is of others.
pub fn work_on<B: Desk, G: Gate, R: Wait>(
    rt: &R,
    alloc: Global,
    lock: &TurnLock<B>,
    pass: &mut Pass<B>,
    gate: &G,
    turns: u32,
) -> Worked
    requires same { pass.old.lock ≡ lock.now }
    requires free { pass.old.holds_turn ≡ false }
    ensures pass { pass.new ≡ record pass.old { seen = pass.new.seen; looks = pass.new.looks } }
    ensures others { IsFollowedByOthers B.author (pass.old.number ∷ pass.old.gone) pass.old.seen pass.new.seen }
    ensures mine { entries_by B.author pass.old.number pass.new.seen ≡ entries_by B.author pass.old.number pass.old.seen }
    ensures counted { IsCounted result }
    ensures most { result.claimed ≤ turns }
    ensures stale { result.stale + length pass.old.seen ≤ length pass.new.seen }
{
    work_under::<B, G, R, Brand>(rt, alloc, lock, pass, gate, turns, Blank::new(1))
}

/// The same, with a ledger for the steps of expansion, which are not counted here.
fn work_under<B: Desk, G: Gate, R: Wait, L: Ledger>(
    rt: &R,
    alloc: Global,
    lock: &TurnLock<B>,
    pass: &mut Pass<B>,
    gate: &G,
    turns: u32,
    blank: Blank,
) -> Worked
    requires same { pass.old.lock ≡ lock.now }
    requires free { pass.old.holds_turn ≡ false }
    requires name { blank.name ≡ L.name }
    requires parts { blank.parts ≡ L.parts }
    requires some { 0 < blank.parts }
    ensures pass { pass.new ≡ record pass.old { seen = pass.new.seen; looks = pass.new.looks } }
    ensures others { IsFollowedByOthers B.author (pass.old.number ∷ pass.old.gone) pass.old.seen pass.new.seen }
    ensures counted { IsCounted result }
    ensures most { result.claimed ≤ turns }
    ensures stale { result.stale + length pass.old.seen ≤ length pass.new.seen }
{
    let mut steps = Steps::<L>::open(blank);
    let mut worked = Worked {
        claimed: 0,
        published: 0,
        stale: 0,
        refused: 0,
    };
    'turns: for _turn in 0..turns {
        let Some(turn) = take_turn(rt, alloc, lock, pass, gate, &mut steps) else {
            return worked;
        };
        worked = counted(worked, turn);
    }
    worked
}

/// One turn, or none where there is no claim.
fn take_turn<B: Desk, G: Gate, R: Wait, L: Ledger>(
    rt: &R,
    alloc: Global,
    lock: &TurnLock<B>,
    pass: &mut Pass<B>,
    gate: &G,
    steps: &mut Steps<L>,
) -> Option<Turn>
    requires same { pass.old.lock ≡ lock.now }
    requires free { pass.old.holds_turn ≡ false }
    ensures pass { pass.new ≡ record pass.old { seen = pass.new.seen; looks = pass.new.looks } }
    ensures others { IsFollowedByOthers B.author (pass.old.number ∷ pass.old.gone) pass.old.seen pass.new.seen }
    ensures stale { stale_in result + length pass.old.seen ≤ length pass.new.seen }
{
    let Some(claim) = take_claim(rt, lock, pass) else {
        return None;
    };
    gate.pass(rt, claim.origin);
    Some(end_claim(rt, alloc, lock, pass, claim, steps))
}

/// Expands what was claimed and publishes it, or gives it up, in a turn of its own.
fn end_claim<B: Desk, R: Wait, L: Ledger>(
    rt: &R,
    alloc: Global,
    lock: &TurnLock<B>,
    pass: &mut Pass<B>,
    claim: Claim,
    steps: &mut Steps<L>,
) -> Turn
    requires same { pass.old.lock ≡ lock.now }
    requires free { pass.old.holds_turn ≡ false }
    requires claim { IsClaimIn pass.old.seen claim }
    requires live { IsSome (live_at pass.old.seen claim.origin) }
    ensures pass { pass.new ≡ record pass.old { seen = pass.new.seen; looks = pass.new.looks } }
    ensures others { IsFollowedByOthers B.author (pass.old.number ∷ pass.old.gone) pass.old.seen pass.new.seen }
    ensures stale { stale_of result + length pass.old.seen ≤ length pass.new.seen }
{
    match expand(alloc, claim, steps) {
        Ok(expanded) => match publish_rows(rt, lock, pass, expanded, steps) {
            Publish::Published => Turn::Published,
            Publish::Stale { now: _ } => Turn::Stale,
            Publish::NoMemory => Turn::Refused,
        },
        Err((claim, NoMemory)) => {
            give_up(rt, lock, pass, claim);
            Turn::Refused
        }
    }
}

/// The counts with one turn more.
fn counted(worked: Worked, turn: Turn) -> Worked
    requires counted { IsCounted worked }
    requires room { worked.claimed + 1 < 2 ^ 32 }
    ensures counted { IsCounted result }
    ensures claimed { result.claimed ≤ worked.claimed + 1 }
    ensures stale { result.stale ≡ worked.stale + stale_of turn }
{
    let mut worked = worked;
    match turn {
        Turn::Published => worked.published += 1,
        Turn::Stale => worked.stale += 1,
        Turn::Refused => worked.refused += 1,
    }
    worked.claimed += 1;
    worked
}

/// Takes so many turns at the book, as `work_on` does at any desk.
pub fn work<G: Gate, R: Wait>(
    rt: &R,
    alloc: Global,
    lock: &TurnLock<Book>,
    pass: &mut Pass<Book>,
    gate: &G,
    turns: u32,
) -> Worked
    requires same { pass.old.lock ≡ lock.now }
    requires free { pass.old.holds_turn ≡ false }
    ensures pass { pass.new ≡ record pass.old { seen = pass.new.seen; looks = pass.new.looks } }
    ensures others { IsFollowedByOthers (λ entry. entry.session) (pass.old.number ∷ pass.old.gone) pass.old.seen pass.new.seen }
    ensures mine { entries_by (λ entry. entry.session) pass.old.number pass.new.seen ≡ entries_by (λ entry. entry.session) pass.old.number pass.old.seen }
    ensures counted { IsCounted result }
    ensures most { result.claimed ≤ turns }
    ensures stale { result.stale + length pass.old.seen ≤ length pass.new.seen }
{
    work_on(rt, alloc, lock, pass, gate, turns)
}
