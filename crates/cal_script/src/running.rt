//! Running the frames of an input.
ghost use Rattle.std.specs.Prelude.{◌≡◌, ◌+◌, ◌<◌, ◌≤◌, ◌^◌, List, [], length, drop, All, Some, IfOk, IsErrOf, if◌then◌else◌};
ghost use Rattle.cal_base.specs.World.Outside.{Rose, Goes};
ghost use Rattle.std.specs.List.{Contains};
ghost use Rattle.cal_book.specs.Cores.{state_in};
ghost use Rattle.cal_model.specs.History.Claims.{Pair};
ghost use Rattle.cal_model.specs.History.Journal.{IsLegal};
ghost use Rattle.cal_model.specs.State.ServerState.{directory_of};
ghost use Rattle.cal_model.specs.Transcripts.Transcript.{IsPrinted, IsPrintedInPart};
ghost use Rattle.cal_script.specs.EnteredRequests.{IsEnteredBy};
ghost use Rattle.cal_script.specs.ScriptEnds.{HasEnded, HasEndedOn, IsLeft, run_told};
ghost use Rattle.cal_script.specs.Standings.{IsSound, StandsAt, running, standing_in};

use crate::frames::{Answering, answer_frames};
use crate::script::{Script, start};
use crate::slots::give_up_all;
use cal_base::{Arc, NoMemory, Octets, Sink, Source, Steps};
use cal_book::{Book, Desk, journals_are_told};
use privileges::Users;
use std::alloc::Global;
use std::marker::Brand;
use std::sync::ledger::{Blank, Ledger};

/// How many octets are asked for at a time.
const PIECE: usize = 65_536;

/// How running the frames of an input ended.
#[derive(Debug, Clone, Copy, PartialEq, Eq)]
pub enum FrameEnd {
    /// The input was read to its end, which is at this place, and every reply was written.
    Done { place: u64 },
    /// No frame stands at this place.
    Frame { place: u64 },
    /// A read failed.
    Input,
    /// A write failed.
    Output,
    /// There was no memory.
    NoMemory,
}

/// How running the frames of an input at a desk ended.
#[derive(Drop)]
pub enum FramesOn<X> {
    End(FrameEnd),
    /// The desk is broken, and told so when it was asked.
    Broken(X),
}

/// Why no piece of the input was taken.
enum NoPiece {
    /// The read failed.
    Input,
    /// There was no memory.
    NoMemory,
}

/// Answers the frames of an input in order, from the opening state of the users: the octets of each
/// connection as soon as a frame completes a request there, and the workers' frames with the book's
/// claims.
///
/// A frame is answered once it is whole, and its octets are let go before the next piece is read.
/// What is written is what a script may print for the frames (`Done`), for those before the place
/// (`Frame`), for those that were taken (`Input`), or a beginning of it (`Output`, `NoMemory`). The
/// steps of expansion are not counted here.
pub fn run_frames<I: Source, O: Sink>(
    alloc: Global,
    users: Arc<Users>,
    input: &mut I,
    output: &mut O,
) -> FrameEnd
    ensures ended { HasEnded (IsPrinted users) (IsPrintedInPart users) result (run_told I.Source O.Sink input.old input.new output.old output.new) }
    ensures input_fault { result ≡ FrameEnd.Input → Rose (I.faults input.old) (I.faults input.new) }
    ensures output_fault { result ≡ FrameEnd.Output → Rose (O.faults output.old) (O.faults output.new) }
    ensures input_never_falls { I.faults input.old ≤ I.faults input.new }
    ensures output_never_falls { O.faults output.old ≤ O.faults output.new }
{
    let Ok(shared) = Arc::try_clone(&users) else {
        return FrameEnd::NoMemory;
    };
    let Ok(mut book) = Book::start(alloc, shared) else {
        return FrameEnd::NoMemory;
    };
    match frames_on(alloc, &mut book, &users, input, output) {
        FramesOn::End(end) => end,
        FramesOn::Broken(never) => match never {},
    }
}

/// The same at any desk, from its state on. What the frames' workers still hold at the end is given
/// up, so that no claim is lost.
///
/// Where a request is asked and the desk tells that it is broken, the run ends with the desk's fault:
/// the replies to the requests before it were written, and no part of another. A request that is
/// refused as it stands is answered by a broken desk too.
///
/// However the run ends, the desk's journal goes on by entries of requests that frames at the front
/// of the input complete, in their order, each once at most, and each with its connection as session.
pub fn frames_on<B: Desk, I: Source, O: Sink>(
    alloc: Global,
    desk: &mut B,
    users: &Users,
    input: &mut I,
    output: &mut O,
) -> FramesOn<B::Fault>
    requires users { (B.book desk.old).users ≡ users.now }
    ensures ended { HasEndedOn users.now (state_in (B.book desk.old)) (state_in (B.book desk.new)) result (run_told I.Source O.Sink input.old input.new output.old output.new) }
    ensures entered { IsEnteredBy users.now (I.left input.old) (B.book desk.old).work.journal (B.book desk.new).work.journal }
    ensures input_fault { result ≡ FramesOn.End FrameEnd.Input → Rose (I.faults input.old) (I.faults input.new) }
    ensures output_fault { result ≡ FramesOn.End FrameEnd.Output → Rose (O.faults output.old) (O.faults output.new) }
    ensures broken { IsLeft result (B.broken desk.old) (B.faults desk.old) (B.broken desk.new) (B.faults desk.new) }
    ensures users { (B.book desk.new).users ≡ users.now }
    ensures legal { IsLegal (directory_of users.now) (B.book desk.new).work.journal }
    ensures claims { All (Contains (B.book desk.old).work.out) (B.book desk.new).work.out }
    ensures desk_never_falls { B.faults desk.old ≤ B.faults desk.new }
    ensures input_never_falls { I.faults input.old ≤ I.faults input.new }
    ensures output_never_falls { O.faults output.old ≤ O.faults output.new }
{
    journals_are_told();
    // A look at how many entries there are, which tells a proof that the journal is legal.
    let _entries = desk.entries();
    let Ok(mut script) = start(alloc) else {
        return FramesOn::End(FrameEnd::NoMemory);
    };
    let end = run_under::<B, I, O, Brand>(
        alloc,
        desk,
        users,
        &mut script,
        input,
        output,
        Blank::new(1),
    );
    give_up_all(desk, script.slots);
    end
}

/// Runs a script at a desk, with a ledger for the steps.
fn run_under<B: Desk, I: Source, O: Sink, L: Ledger>(
    alloc: Global,
    desk: &mut B,
    users: &Users,
    script: &mut Script,
    input: &mut I,
    output: &mut O,
    blank: Blank,
) -> FramesOn<B::Fault>
    requires name { blank.name ≡ L.name }
    requires parts { blank.parts ≡ L.parts }
    requires some { 0 < blank.parts }
    requires sound { (kept : List Pair) × IsSound users.now kept (running (B.book desk.old) script.old) }
    requires stands { StandsAt (standing_in (state_in (B.book desk.old))) (running (B.book desk.old) script.old) }
    ensures ended { HasEndedOn users.now (state_in (B.book desk.old)) (state_in (B.book desk.new)) result (run_told I.Source O.Sink input.old input.new output.old output.new) }
    ensures entered { IsEnteredBy users.now (I.left input.old) (B.book desk.old).work.journal (B.book desk.new).work.journal }
    ensures sound { (kept : List Pair) → IsSound users.now kept (running (B.book desk.old) script.old) → IsSound users.now kept (running (B.book desk.new) script.new) }
    ensures input_fault { result ≡ FramesOn.End FrameEnd.Input → Rose (I.faults input.old) (I.faults input.new) }
    ensures output_fault { result ≡ FramesOn.End FrameEnd.Output → Rose (O.faults output.old) (O.faults output.new) }
    ensures broken { IsLeft result (B.broken desk.old) (B.faults desk.old) (B.broken desk.new) (B.faults desk.new) }
    ensures desk_never_falls { B.faults desk.old ≤ B.faults desk.new }
    ensures input_never_falls { I.faults input.old ≤ I.faults input.new }
    ensures output_never_falls { O.faults output.old ≤ O.faults output.new }
{
    let mut steps = Steps::<L>::open(blank);
    run_counted(alloc, desk, users, script, input, output, &mut steps)
}

/// The same, counting.
fn run_counted<B: Desk, I: Source, O: Sink, L: Ledger>(
    alloc: Global,
    desk: &mut B,
    users: &Users,
    script: &mut Script,
    input: &mut I,
    output: &mut O,
    steps: &mut Steps<L>,
) -> FramesOn<B::Fault>
    requires sound { (kept : List Pair) × IsSound users.now kept (running (B.book desk.old) script.old) }
    requires stands { StandsAt (standing_in (state_in (B.book desk.old))) (running (B.book desk.old) script.old) }
    ensures ended { HasEndedOn users.now (state_in (B.book desk.old)) (state_in (B.book desk.new)) result (run_told I.Source O.Sink input.old input.new output.old output.new) }
    ensures entered { IsEnteredBy users.now (I.left input.old) (B.book desk.old).work.journal (B.book desk.new).work.journal }
    ensures sound { (kept : List Pair) → IsSound users.now kept (running (B.book desk.old) script.old) → IsSound users.now kept (running (B.book desk.new) script.new) }
    ensures input_fault { result ≡ FramesOn.End FrameEnd.Input → Rose (I.faults input.old) (I.faults input.new) }
    ensures output_fault { result ≡ FramesOn.End FrameEnd.Output → Rose (O.faults output.old) (O.faults output.new) }
    ensures broken { IsLeft result (B.broken desk.old) (B.faults desk.old) (B.broken desk.new) (B.faults desk.new) }
    ensures desk_never_falls { B.faults desk.old ≤ B.faults desk.new }
    ensures input_never_falls { I.faults input.old ≤ I.faults input.new }
    ensures output_never_falls { O.faults output.old ≤ O.faults output.new }
{
    let Ok(mut piece) = make_piece(alloc) else {
        return FramesOn::End(FrameEnd::NoMemory);
    };
    let mut kept = Octets::new(alloc);
    let mut place: u64 = 0;
    'reading: loop {
        match take_piece(input, piece.as_mut_slice(), &mut kept) {
            Ok(0) => return FramesOn::End(end_at(place, kept.is_empty())),
            Ok(_) => {}
            Err(NoPiece::Input) => return FramesOn::End(FrameEnd::Input),
            Err(NoPiece::NoMemory) => return FramesOn::End(FrameEnd::NoMemory),
        }
        match answer_frames(alloc, desk, users, kept.as_slice(), script, output, steps) {
            Answering::Cut(len) => {
                place += len as u64;
                kept = behind_front(kept, len);
            }
            Answering::Bad(len) => {
                return FramesOn::End(FrameEnd::Frame {
                    place: place + len as u64,
                });
            }
            Answering::OutputFault => return FramesOn::End(FrameEnd::Output),
            Answering::NoMemory => return FramesOn::End(FrameEnd::NoMemory),
            Answering::Broken(fault) => return FramesOn::Broken(fault),
        }
    }
}

/// What the end of an input is where a rest of it is no whole frame.
fn end_at(place: u64, nothing_left: bool) -> FrameEnd
    ensures { result ≡ (if nothing_left then FrameEnd.Done place else FrameEnd.Frame place) }
{
    if nothing_left {
        FrameEnd::Done { place }
    } else {
        FrameEnd::Frame { place }
    }
}

/// Reads the next piece of the input, and puts it behind what is kept.
fn take_piece<I: Source>(
    input: &mut I,
    piece: &mut [u8],
    kept: &mut Octets,
) -> Result<usize, NoPiece>
    requires { 0 < length piece.old }
    ensures goes { IfOk result (λ n. Goes (I.left input.old) (I.left input.new) kept.old kept.new) }
    ensures longer { IfOk result (λ n. length kept.new ≡ length kept.old + n) }
    ensures at_end { IfOk result (λ n. n ≡ 0 → (I.left input.new ≡ Some []) × (kept.new ≡ kept.old)) }
    ensures allowed { IfOk result (λ n. n + I.allowance input.new ≤ I.allowance input.old) }
    ensures bounded { I.allowance input.old ≤ 2 ^ 62 }
    ensures fault { IsErrOf result NoPiece.Input → Rose (I.faults input.old) (I.faults input.new) }
    ensures nothing_read { IsErrOf result NoPiece.Input → I.left input.new ≡ I.left input.old }
    ensures never_falls { I.faults input.old ≤ I.faults input.new }
{
    let Ok(n) = input.read(piece) else {
        return Err(NoPiece::Input);
    };
    if kept.extend_from_slice(&piece[..n]).is_err() {
        return Err(NoPiece::NoMemory);
    }
    Ok(n)
}

/// What is kept without so many octets in front. The others move to the front in their place in
/// memory; where there is nothing to take off, nothing moves, so that a frame which comes octet by
/// octet is not moved for each of them.
fn behind_front(kept: Octets, len: usize) -> Octets
    requires { len ≤ length kept }
    ensures { result ≡ drop len kept }
{
    if len == 0 {
        return kept;
    }
    let mut items = kept.into_vec();
    let rest = items.len() - len;
    items.copy_within(len.., 0);
    items.truncate(rest);
    Octets::from_vec(items)
}

/// A place for the octets of one read.
fn make_piece(alloc: Global) -> Result<Vec<u8>, NoMemory>
    ensures { IfOk result (λ piece. 0 < length piece.items) }
{
    match Vec::from_elem(alloc, 0u8, PIECE) {
        Ok(piece) => Ok(piece),
        Err(_) => Err(NoMemory),
    }
}
