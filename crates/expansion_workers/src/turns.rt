//! The turns of a worker at the desk.
ghost use Rattle.std.specs.Prelude.{◌≡◌, ◌++◌, ◌∷◌, [], false, length, None, IsSome, IfSome};
ghost use Rattle.cal_model.specs.History.LiveObjects.{live_at};
ghost use Rattle.cal_book.specs.Publishing.{IsClaimIn};
ghost use Rattle.expansion_workers.specs.Work.{IfStale};
ghost use Rattle.turn_lock.specs.Journals.{IsFollowedByOthers};

use cal_base::{NoMemory, Steps};
use cal_book::{Claim, Desk, Expanded, Publish, claims_stay};
use std::sync::Wait;
use std::sync::ledger::Ledger;
use turn_lock::{Held, Pass, TurnLock};

/// Claims the next piece in a turn of its own, if there is one, and memory for it.
pub(crate) fn take_claim<B: Desk, R: Wait>(
    rt: &R,
    lock: &TurnLock<B>,
    pass: &mut Pass<B>,
) -> Option<Claim>
    requires same { pass.old.lock ≡ lock.now }
    requires free { pass.old.holds_turn ≡ false }
    ensures pass { pass.new ≡ record pass.old { seen = pass.new.seen; looks = pass.old.looks ++ length pass.new.seen ∷ [] } }
    ensures others { IsFollowedByOthers B.author (pass.old.number ∷ pass.old.gone) pass.old.seen pass.new.seen }
    ensures claim { IfSome result (IsClaimIn pass.new.seen) }
    ensures live { IfSome result (λ claim. IsSome (live_at pass.new.seen claim.origin)) }
{
    let Held { mut value } = lock.take(rt, pass);
    let claim = value.claim();
    lock.give(pass, Held { value });
    match claim {
        Ok(claim) => claim,
        Err(NoMemory) => None,
    }
}

/// Publishes what was found for a claim, in a turn of its own.
pub(crate) fn publish_rows<B: Desk, R: Wait, L: Ledger>(
    rt: &R,
    lock: &TurnLock<B>,
    pass: &mut Pass<B>,
    expanded: Expanded,
    steps: &mut Steps<L>,
) -> Publish
    requires same { pass.old.lock ≡ lock.now }
    requires free { pass.old.holds_turn ≡ false }
    requires claim { IsClaimIn pass.old.seen expanded.claim }
    ensures pass { pass.new ≡ record pass.old { seen = pass.new.seen; looks = pass.old.looks ++ length pass.new.seen ∷ [] } }
    ensures others { IsFollowedByOthers B.author (pass.old.number ∷ pass.old.gone) pass.old.seen pass.new.seen }
    ensures stale { IfStale result (live_at pass.new.seen expanded.claim.origin ≡ None) }
{
    let Held { mut value } = lock.take(rt, pass);
    claims_stay();
    let published = value.publish(expanded, steps);
    lock.give(pass, Held { value });
    published
}

/// Gives a claim up, in a turn of its own.
pub(crate) fn give_up<B: Desk, R: Wait>(
    rt: &R,
    lock: &TurnLock<B>,
    pass: &mut Pass<B>,
    claim: Claim,
)
    requires same { pass.old.lock ≡ lock.now }
    requires free { pass.old.holds_turn ≡ false }
    ensures pass { pass.new ≡ record pass.old { seen = pass.new.seen; looks = pass.old.looks ++ length pass.new.seen ∷ [] } }
    ensures others { IsFollowedByOthers B.author (pass.old.number ∷ pass.old.gone) pass.old.seen pass.new.seen }
{
    let Held { mut value } = lock.take(rt, pass);
    value.abandon(claim);
    lock.give(pass, Held { value });
}
