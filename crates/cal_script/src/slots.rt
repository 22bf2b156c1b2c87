//! The slots of workers.
ghost use Rattle.std.specs.Prelude.{◌≡◌, ◌⊎◌, ◌≤◌, List, All};
ghost use Rattle.std.specs.List.{Contains};
ghost use Rattle.cal_script.specs.SlotTurns.{IsSlotIn, IsKeptOrHeld, SlotTurn, ExpandsClaim, EndsClaim, out_without};
ghost use Rattle.cal_book.specs.Publishing.{IsClaimIn, pair_of_claim};
ghost use Rattle.cal_model.specs.History.Claims.{Pair};

use crate::head::Action;
use cal_base::Steps;
use cal_book::{Claim, Desk, Expanded, expand};
use std::alloc::Global;
use std::mem;
use std::sync::ledger::Ledger;

/// What a worker holds.
#[derive(Drop)]
pub(crate) enum Slot {
    Empty,
    /// A claim of the desk.
    Claimed(Claim),
    /// A claim with its rows.
    Expanded(Expanded),
}

/// Does with a slot what a frame of its worker says; where the slot holds something else, nothing.
/// A claim that is refused or gives none leaves the slot empty, and a refused expansion leaves the
/// claim.
pub(crate) fn act<B: Desk, L: Ledger>(
    alloc: Global,
    desk: &mut B,
    slot: &mut Slot,
    action: Action,
    steps: &mut Steps<L>,
)
    requires { IsSlotIn (B.book desk.old).work.journal slot.old }
    ensures turn { SlotTurn action slot.old (B.book desk.old).work slot.new (B.book desk.new).work }
    ensures users { (B.book desk.new).users ≡ (B.book desk.old).users }
    ensures broken { B.broken desk.new ≡ B.broken desk.old }
    ensures never_falls { B.faults desk.old ≤ B.faults desk.new }
{
    match (action, mem::replace(slot, Slot::Empty)) {
        (Action::Claim, Slot::Empty) => *slot = claimed(desk),
        (Action::Expand, Slot::Claimed(claim)) => *slot = expanded(alloc, claim, steps),
        (Action::Publish, Slot::Expanded(expanded)) => publish(desk, expanded, steps),
        (Action::Abandon, Slot::Claimed(claim)) => abandon(desk, claim),
        (Action::Abandon, Slot::Expanded(expanded)) => abandon(desk, expanded.claim),
        (_, other) => *slot = other,
    }
}

/// The slot with the desk's next claim, if it gives one.
fn claimed<B: Desk>(desk: &mut B) -> Slot
    ensures turn { SlotTurn Action.Claim Slot.Empty (B.book desk.old).work result (B.book desk.new).work }
    ensures users { (B.book desk.new).users ≡ (B.book desk.old).users }
    ensures broken { B.broken desk.new ≡ B.broken desk.old }
    ensures never_falls { B.faults desk.old ≤ B.faults desk.new }
{
    match desk.claim() {
        Ok(Some(claim)) => Slot::Claimed(claim),
        Ok(None) => Slot::Empty,
        Err(_) => Slot::Empty,
    }
}

/// The slot with the rows of a claim, or with the claim where there is no memory for them.
fn expanded<L: Ledger>(alloc: Global, claim: Claim, steps: &mut Steps<L>) -> Slot
    ensures { ExpandsClaim claim result ⊎ (result ≡ Slot.Claimed claim) }
{
    match expand(alloc, claim, steps) {
        Ok(expanded) => Slot::Expanded(expanded),
        Err((claim, _)) => Slot::Claimed(claim),
    }
}

/// Hands the rows of a claim in, which ends whatever becomes of them.
fn publish<B: Desk, L: Ledger>(desk: &mut B, expanded: Expanded, steps: &mut Steps<L>)
    requires { IsClaimIn (B.book desk.old).work.journal expanded.claim }
    ensures ends { EndsClaim (pair_of_claim expanded.claim) (B.book desk.old).work Slot.Empty (B.book desk.new).work }
    ensures users { (B.book desk.new).users ≡ (B.book desk.old).users }
    ensures broken { B.broken desk.new ≡ B.broken desk.old }
    ensures never_falls { B.faults desk.old ≤ B.faults desk.new }
{
    let _ = desk.publish(expanded, steps);
}

/// Gives a claim up.
fn abandon<B: Desk>(desk: &mut B, claim: Claim)
    ensures ends { EndsClaim (pair_of_claim claim) (B.book desk.old).work Slot.Empty (B.book desk.new).work }
    ensures users { (B.book desk.new).users ≡ (B.book desk.old).users }
    ensures broken { B.broken desk.new ≡ B.broken desk.old }
    ensures never_falls { B.faults desk.old ≤ B.faults desk.new }
{
    desk.abandon(claim);
}

/// Gives up the claims that slots hold.
pub(crate) fn give_up_all<B: Desk>(desk: &mut B, slots: Vec<Slot>)
    ensures out { (kept : List Pair) → All (IsKeptOrHeld kept slots.items) (B.book desk.old).work.out → All (Contains kept) (B.book desk.new).work.out }
    ensures journal { (B.book desk.new).work.journal ≡ (B.book desk.old).work.journal }
    ensures users { (B.book desk.new).users ≡ (B.book desk.old).users }
    ensures broken { B.broken desk.new ≡ B.broken desk.old }
    ensures never_falls { B.faults desk.old ≤ B.faults desk.new }
{
    let mut slots = slots;
    'giving: while let Some(slot) = slots.pop() {
        give_up(desk, slot);
    }
}

/// Gives up the claim that a slot holds, if it holds one.
fn give_up<B: Desk>(desk: &mut B, slot: Slot)
    ensures out { (B.book desk.new).work.out ≡ out_without slot (B.book desk.old).work.out }
    ensures journal { (B.book desk.new).work.journal ≡ (B.book desk.old).work.journal }
    ensures users { (B.book desk.new).users ≡ (B.book desk.old).users }
    ensures broken { B.broken desk.new ≡ B.broken desk.old }
    ensures never_falls { B.faults desk.old ≤ B.faults desk.new }
{
    match slot {
        Slot::Empty => {}
        Slot::Claimed(claim) => abandon(desk, claim),
        Slot::Expanded(expanded) => abandon(desk, expanded.claim),
    }
}
