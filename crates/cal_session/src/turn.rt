//! A turn at the desk.
ghost use Rattle.std.specs.Prelude.{◌≡◌, ◌≤ℤ◌, pos, true, false, length, [], ◌∷◌, ◌++◌, Some};
ghost use Rattle.cal_book.specs.Cores.{Core};
ghost use Rattle.cal_book.specs.Looks.{IsLookAt};
ghost use Rattle.cal_model.specs.Requests.BookableRequests.{IsBookable};
ghost use Rattle.cal_model.specs.Serving.Outcomes.{is_reading};
ghost use Rattle.cal_session.specs.AskedTurns.{AskedAt, IsReplied};
ghost use Rattle.cal_session.specs.UnderWay.{HasLastTurn, HasOnlyLooked};

use crate::answering::Stop;
use crate::context::Context;
use crate::counts::Counts;
use cal_base::Gate;
use cal_book::{Desk, Look, Told, readings_enter_nothing};
use cal_model::{Event, Reply};
use preconditions::PutReading;
use std::sync::Wait;
use std::sync::ledger::Ledger;
use turn_lock::{Held, Pass};

/// The last second of the year 9999, in seconds since 1970.
const LAST_MOMENT: i64 = 253_402_300_799;

/// Asks the desk in one turn of the lock: how many entries there were, and what it told.
///
/// The desk is told the moment that is noted, and makes room for a deletion; where it finds none, the
/// request is made all the same. A request that only reads is answered from a look at the desk once the
/// turn was given back; where there is no look, the desk answers it in the turn. What the user may do and
/// see is looked up in the state of this turn.
pub(crate) fn ask_once<B: Desk, R: Wait, T: Gate, G: Ledger>(
    context: &Context<'_, R, B, T>,
    pass: &mut Pass<B>,
    event: &Event,
    reading: &mut Option<PutReading>,
    counts: &mut Counts<G>,
) -> (u64, Told<B::Fault>)
    requires same { pass.old.lock ≡ context.now.lock.now }
    requires free { pass.old.holds_turn ≡ false }
    requires base { pass.old.base ≡ Some context.now.users.now }
    requires number { event.now.session ≡ pass.old.number }
    requires bookable { IsBookable context.now.users.now event.now.who event.now.request }
    requires from_1970 { pos 0 ≤ℤ event.now.moment }
    requires to_9999 { event.now.moment ≤ℤ pos 253_402_300_799 }
    ensures pass { pass.new ≡ record pass.old { seen = pass.new.seen; looks = pass.old.looks ++ result.0 ∷ [] } }
    ensures turn { AskedAt context.now.users.now pass.old result.0 event.now result.1 pass.new.seen }
{
    let Held { mut value } = context.lock.take(context.rt, pass);
    let at = begin_turn(&mut value, counts);
    match value.look(event) {
        Some(look) => {
            context.lock.give(pass, Held { value });
            let reply = answer_from(context, look, at, event, counts);
            (at, Told::Reply(reply))
        }
        None => {
            let told = value.ask(context.alloc, event, reading, &mut counts.steps);
            context.lock.give(pass, Held { value });
            (at, told)
        }
    }
}

/// What comes first in a turn: the desk is told the moment that is noted, and makes room for a deletion.
/// Gives how many entries there are.
fn begin_turn<B: Desk, G: Ledger>(value: &mut B, counts: &mut Counts<G>) -> u64
    ensures at { result ≡ length (B.journal value.old) }
    ensures users { (B.book value.new).users ≡ (B.book value.old).users }
    ensures journal { (B.book value.new).work.journal ≡ (B.book value.old).work.journal }
{
    let at = value.entries();
    tell_moment(value, counts.take());
    let _ = value.reserve();
    at
}

/// Tells the desk the moment of a request that was answered from a look. 0 stands for none, and no
/// request comes behind the year 9999.
fn tell_moment<B: Desk>(value: &mut B, moment: i64)
    ensures users { (B.book value.new).users ≡ (B.book value.old).users }
    ensures journal { (B.book value.new).work.journal ≡ (B.book value.old).work.journal }
{
    if moment <= 0 {
        return;
    }
    if moment > LAST_MOMENT {
        return;
    }
    value.came_at(moment);
}

/// Answers a request that only reads from a look, and lets that go. The request counts for the focus of
/// the claims unless it is answered 503, so its moment is noted then, where the desk has come less far.
fn answer_from<B: Desk, R: Wait, T: Gate, G: Ledger>(
    context: &Context<'_, R, B, T>,
    look: Look,
    at: u64,
    event: &Event,
    counts: &mut Counts<G>,
) -> Reply
    requires reading { is_reading event.now.request.method ≡ true }
    requires bookable { IsBookable look.users event.now.who event.now.request }
    requires from_1970 { pos 0 ≤ℤ event.now.moment }
    requires to_9999 { event.now.moment ≤ℤ pos 253_402_300_799 }
    ensures { (core : Core) → IsLookAt core event.now look → IsReplied core.users core.work.journal event.now result core.work.journal }
{
    context.gate.pass(context.rt, at);
    readings_enter_nothing();
    let reply = look.answer(context.alloc, event, &mut counts.steps);
    counts.note(event.moment, reply.status, look.latest());
    reply
}

/// Tells the desk the moment that is noted, if there is one, in a turn of its own: the last of a session
/// that has ended. One whose desk broke takes none.
pub(crate) fn tell_at_end<B: Desk, R: Wait, T: Gate, G: Ledger>(
    context: &Context<'_, R, B, T>,
    pass: &mut Pass<B>,
    stop: &Stop<B::Fault>,
    counts: &mut Counts<G>,
)
    requires same { pass.old.lock ≡ context.now.lock.now }
    requires free { pass.old.holds_turn ≡ false }
    ensures pass { pass.new ≡ record pass.old { seen = pass.new.seen; looks = pass.new.looks } }
    ensures last { HasLastTurn stop.now pass.old pass.new }
{
    match stop {
        Stop::Ended(_) => tell_rest(context, pass, counts),
        Stop::Broken(_) => {}
    }
}

/// The same of a session that has ended.
fn tell_rest<B: Desk, R: Wait, T: Gate, G: Ledger>(
    context: &Context<'_, R, B, T>,
    pass: &mut Pass<B>,
    counts: &mut Counts<G>,
)
    requires same { pass.old.lock ≡ context.now.lock.now }
    requires free { pass.old.holds_turn ≡ false }
    ensures { HasOnlyLooked pass.old pass.new }
{
    if counts.is_told() {
        return;
    }
    tell_in_turn(context, pass, counts.take());
}

/// Tells the desk a moment, in a turn of its own.
fn tell_in_turn<B: Desk, R: Wait, T: Gate>(
    context: &Context<'_, R, B, T>,
    pass: &mut Pass<B>,
    moment: i64,
)
    requires same { pass.old.lock ≡ context.now.lock.now }
    requires free { pass.old.holds_turn ≡ false }
    ensures { HasOnlyLooked pass.old pass.new }
{
    let lock = context.lock;
    let Held { mut value } = lock.take(context.rt, pass);
    tell_moment(&mut value, moment);
    lock.give(pass, Held { value });
}
