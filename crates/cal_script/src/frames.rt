//! Answering the frames of some octets.
ghost use Rattle.std.specs.Prelude.{◌≡◌, ◌≤◌, List};
ghost use Rattle.cal_base.specs.World.Outside.{Rose};
ghost use Rattle.cal_model.specs.History.Claims.{Pair};
ghost use Rattle.cal_model.specs.Transcripts.Transcript.{Standing};
ghost use Rattle.cal_script.specs.AnsweredFrames.{HasAnswered, HasEntered, IsLeftBy};
ghost use Rattle.cal_script.specs.Standings.{IsSound, StandsAt, running};

use crate::answering::{Stop, Unwritten};
use crate::frame::{FirstFrame, first_frame};
use crate::script::{Script, take_turn};
use crate::split::behind;
use cal_base::{Sink, Steps};
use cal_book::Desk;
use privileges::Users;
use std::alloc::Global;
use std::sync::ledger::Ledger;

/// How answering the frames of some octets ended.
#[derive(Drop)]
pub(crate) enum Answering<X> {
    /// So many octets in front were answered, and no whole frame stands behind them.
    Cut(usize),
    /// So many octets in front were answered, and no frame begins with what stands behind them.
    Bad(usize),
    /// A write failed.
    OutputFault,
    /// There was no memory.
    NoMemory,
    /// The desk is broken, and told so when it was asked.
    Broken(X),
}

/// Answers one frame after the other, as long as whole ones stand in front.
pub(crate) fn answer_frames<B: Desk, O: Sink, L: Ledger>(
    alloc: Global,
    desk: &mut B,
    users: &Users,
    octets: &[u8],
    script: &mut Script,
    output: &mut O,
    steps: &mut Steps<L>,
) -> Answering<B::Fault>
    requires sound { (kept : List Pair) × IsSound users.now kept (running (B.book desk.old) script.old) }
    requires stands { (standing : Standing) × StandsAt standing (running (B.book desk.old) script.old) }
    ensures answered { (standing : Standing) → StandsAt standing (running (B.book desk.old) script.old) → HasAnswered users.now result octets.now standing (running (B.book desk.new) script.new) (O.written output.old) (O.written output.new) }
    ensures entered { (standing : Standing) → StandsAt standing (running (B.book desk.old) script.old) → HasEntered users.now result octets.now standing.streams (B.book desk.old).work.journal (running (B.book desk.new) script.new) }
    ensures sound { (kept : List Pair) → IsSound users.now kept (running (B.book desk.old) script.old) → IsSound users.now kept (running (B.book desk.new) script.new) }
    ensures broken { IsLeftBy result (B.broken desk.old) (B.faults desk.old) (B.broken desk.new) (B.faults desk.new) }
    ensures desk_never_falls { B.faults desk.old ≤ B.faults desk.new }
    ensures fault { result ≡ Answering.OutputFault → Rose (O.faults output.old) (O.faults output.new) }
    ensures never_falls { O.faults output.old ≤ O.faults output.new }
{
    let mut at = 0;
    'frames: loop {
        match first_frame(behind(octets, at)) {
            FirstFrame::Cut => return Answering::Cut(at),
            FirstFrame::Bad => return Answering::Bad(at),
            FirstFrame::Whole(frame, rest) => {
                match take_turn(alloc, desk, users, script, frame, output, steps) {
                    Ok(()) => at = octets.len() - rest.len(),
                    Err(Stop::Unwritten(Unwritten::Output)) => return Answering::OutputFault,
                    Err(Stop::Unwritten(Unwritten::NoMemory)) => return Answering::NoMemory,
                    Err(Stop::Broken(fault)) => return Answering::Broken(fault),
                }
            }
        }
    }
}
