//! The command `script` at a journal file.
ghost use Rattle.std.specs.Prelude.{◌≡◌, ◌≤◌, ◌⊎◌, ◌↔◌, List, None, false};
ghost use Rattle.cal_base.specs.World.Outside.{Rose};
ghost use Rattle.cal_model.specs.Users.UsersFile.{Users};
ghost use Rattle.cal_script.specs.ReadersSight.{ReadersSeeAlike};
ghost use Rattle.cal_script.specs.ScriptEnds.{EndsInPart, HasPlace, MetBadFrame, RanToEnd, RefusesStart, StoppedReading, WroteFront, run_told};
ghost use Rattle.cal_script.specs.UsersTaken.{AreUsersAt, IfTold, IsRefusedAt};
ghost use Rattle.command_words.specs.JournalWords.{kept_users_path};
ghost use Rattle.caldav_server.specs.KeptEnds as spec;
ghost use Rattle.caldav_server.specs.KeptRuns.{BrokeOn, IfBroken, IsAnswered, IsFileRefused, PrintsBetween, PrintsInPart, RanOn};

use crate::serve::without_place;
use cal_base::{Arc, Files, List, Sink, Source, Word};
use cal_keeper::{Disk, DiskFault};
use cal_script::{
    FrameEnd, FramesOn, NoUsers, ScriptEnd, frames_on, readers_see_alike, take_users,
};
use cal_session::{Kept, Loaded, load_kept};
use command_words::kept_users_path;
use privileges::Users;
use std::alloc::Global;

/// How a run at a journal file ended, behind its users file.
#[derive(Drop)]
enum JournalEnd {
    /// Frames were answered at the book of the journal.
    Frames(FramesOn<DiskFault>),
    /// A call of the disk failed while the journal was loaded.
    Failed,
    /// The journal is refused at this place.
    Refused(u64),
    /// There was no memory to load it.
    NoMemory,
}

/// Runs the command: looks at its words, then at the users file, then loads the journal, and then answers
/// the frames of the input in order, from the state to which the journal leads. Each accepted change is in
/// the file before its reply is written. The disk is given back in any case.
///
/// Where the disk tells its past, the file stood for the journal that is replayed, and the one that is left
/// is kept for this and for what the frames entered. Where the input and the output tell, too, the output is
/// what a script may print for the frames of the input from the state of the one journal to that of the
/// other (status 0), for those before the place (6), for those that were taken (4), or a beginning of that
/// (5 and 7). At status 8 a call of the disk failed: nothing was written, or the replies to the requests
/// before the one at which it did. At status 9 the file stands for no legal history of these users, and
/// nothing was written.
pub(crate) fn run_kept_script<F: Files, D: Disk, I: Source, O: Sink>(
    alloc: Global,
    words: &List<Word>,
    files: &mut F,
    disk: D,
    input: &mut I,
    output: &mut O,
) -> (ScriptEnd, D)
    ensures known { (result.0.status ≡ 0) ⊎ ((2 ≤ result.0.status) × (result.0.status ≤ 9)) }

    // The words and the users file.
    ensures words { (result.0.status ≡ 2) ↔ (kept_users_path words.now ≡ None) }
    ensures words_first { result.0.status ≡ 2 → files.new ≡ files.old }
    ensures users_refused { result.0.status ≡ 3 → IfTold (kept_users_path words.now) (F.content files.old) (λ octets. IsRefusedAt octets result.0.place) }
    ensures refused { RefusesStart result.0.status → (input.new ≡ input.old) × (output.new ≡ output.old) × (result.1 ≡ disk) }
    ensures served { ((input.new ≡ input.old) × (output.new ≡ output.old)) ⊎ ((users : Users) × AreUsersAt (kept_users_path words.now) (F.content files.old) users) }

    // The journal.
    ensures journal_refused { result.0.status ≡ 9 → (input.new ≡ input.old) × (output.new ≡ output.old) × (users : Users) × AreUsersAt (kept_users_path words.now) (F.content files.old) users × IsFileRefused D.past D.faults users disk result.1 result.0.place }
    ensures journal_fault { result.0.status ≡ 8 → Rose (D.faults disk) (D.faults result.1) }
    ensures broke { result.0.status ≡ 8 → ((input.new ≡ input.old) × (output.new ≡ output.old)) ⊎ ((users : Users) × AreUsersAt (kept_users_path words.now) (F.content files.old) users × BrokeOn users (D.past disk) (D.past result.1) (run_told I.Source O.Sink input.old input.new output.old output.new)) }

    // The frames.
    ensures done { result.0.status ≡ 0 → (users : Users) × AreUsersAt (kept_users_path words.now) (F.content files.old) users × RanOn users (D.past disk) (D.past result.1) (I.left input.old) (λ before after. RanToEnd (PrintsBetween users before after) (run_told I.Source O.Sink input.old input.new output.old output.new) result.0.place) }
    ensures bad_frame { result.0.status ≡ 6 → (users : Users) × AreUsersAt (kept_users_path words.now) (F.content files.old) users × RanOn users (D.past disk) (D.past result.1) (I.left input.old) (λ before after. MetBadFrame (PrintsBetween users before after) (run_told I.Source O.Sink input.old input.new output.old output.new) result.0.place) }
    ensures input_fault { result.0.status ≡ 4 → Rose (F.faults files.old) (F.faults files.new) ⊎ Rose (I.faults input.old) (I.faults input.new) }
    ensures stopped { result.0.status ≡ 4 → ((input.new ≡ input.old) × (output.new ≡ output.old)) ⊎ ((users : Users) × AreUsersAt (kept_users_path words.now) (F.content files.old) users × RanOn users (D.past disk) (D.past result.1) (I.left input.old) (λ before after. StoppedReading (PrintsBetween users before after) (run_told I.Source O.Sink input.old input.new output.old output.new))) }
    ensures output_fault { result.0.status ≡ 5 → Rose (O.faults output.old) (O.faults output.new) }
    ensures in_part { EndsInPart result.0.status → ((input.new ≡ input.old) × (output.new ≡ output.old)) ⊎ ((users : Users) × AreUsersAt (kept_users_path words.now) (F.content files.old) users × RanOn users (D.past disk) (D.past result.1) (I.left input.old) (λ before _. WroteFront (PrintsInPart users before) (run_told I.Source O.Sink input.old input.new output.old output.new))) }
    ensures placed { HasPlace result.0.status ⊎ (result.0.status ≡ 9) ⊎ (result.0.place ≡ 0) }

    // No reply to a request that only reads tells more than its user sees.
    ensures alike { ReadersSeeAlike }

    // No count falls.
    ensures files_never_fall { F.faults files.old ≤ F.faults files.new }
    ensures disk_never_falls { D.faults disk ≤ D.faults result.1 }
    ensures input_never_falls { I.faults input.old ≤ I.faults input.new }
    ensures output_never_falls { O.faults output.old ≤ O.faults output.new }
{
    readers_see_alike();
    let Some(path) = kept_users_path(words.as_slice()) else {
        return (without_place(2), disk);
    };
    match take_users(alloc, files, path) {
        Ok(users) => {
            let (end, disk) = run_at_journal(alloc, users, disk, input, output);
            (end_of(end), disk)
        }
        Err(NoUsers::Line(place)) => (ScriptEnd { status: 3, place }, disk),
        Err(NoUsers::Files) => (without_place(4), disk),
        Err(NoUsers::NoMemory) => (without_place(7), disk),
    }
}

/// Loads the journal of these users, and answers the frames at its book.
fn run_at_journal<D: Disk, I: Source, O: Sink>(
    alloc: Global,
    users: Arc<Users>,
    disk: D,
    input: &mut I,
    output: &mut O,
) -> (JournalEnd, D)
    ensures run { spec.HasRun D.past D.faults users disk result.1 result.0 (run_told I.Source O.Sink input.old input.new output.old output.new) }
    ensures before_frames { spec.IsBeforeFrames result.0 → (input.new ≡ input.old) × (output.new ≡ output.old) }
    ensures disk_fault { spec.IsDiskFault result.0 → Rose (D.faults disk) (D.faults result.1) }
    ensures input_fault { result.0 ≡ JournalEnd.Frames (FramesOn.End FrameEnd.Input) → Rose (I.faults input.old) (I.faults input.new) }
    ensures output_fault { result.0 ≡ JournalEnd.Frames (FramesOn.End FrameEnd.Output) → Rose (O.faults output.old) (O.faults output.new) }
    ensures disk_never_falls { D.faults disk ≤ D.faults result.1 }
    ensures input_never_falls { I.faults input.old ≤ I.faults input.new }
    ensures output_never_falls { O.faults output.old ≤ O.faults output.new }
{
    let Ok(shared) = Arc::try_clone(&users) else {
        return (JournalEnd::NoMemory, disk);
    };
    match load_kept(alloc, shared, disk) {
        Loaded::Ready(kept) => {
            let (end, disk) = answer_kept(alloc, &users, kept, input, output);
            (JournalEnd::Frames(end), disk)
        }
        Loaded::Refused(disk, place) => (JournalEnd::Refused(place), disk),
        Loaded::Mismatch(disk, place, _kept, _made) => (JournalEnd::Refused(place), disk),
        Loaded::Failed(disk) => (JournalEnd::Failed, disk),
        Loaded::NoMemory(disk) => (JournalEnd::NoMemory, disk),
    }
}

/// Answers the frames at a kept book, and gives its disk.
fn answer_kept<D: Disk, I: Source, O: Sink>(
    alloc: Global,
    users: &Users,
    kept: Kept<D>,
    input: &mut I,
    output: &mut O,
) -> (FramesOn<DiskFault>, D)
    requires users { kept.book.users ≡ users.now }
    requires unbroken { kept.keeper.broken ≡ false }
    ensures answered { IsAnswered users.now kept.book.work.journal (D.past result.1) result.0 (run_told I.Source O.Sink input.old input.new output.old output.new) }
    ensures disk_fault { IfBroken result.0 (Rose (D.faults kept.keeper.disk) (D.faults result.1)) }
    ensures input_fault { result.0 ≡ FramesOn.End FrameEnd.Input → Rose (I.faults input.old) (I.faults input.new) }
    ensures output_fault { result.0 ≡ FramesOn.End FrameEnd.Output → Rose (O.faults output.old) (O.faults output.new) }
    ensures disk_never_falls { D.faults kept.keeper.disk ≤ D.faults result.1 }
    ensures input_never_falls { I.faults input.old ≤ I.faults input.new }
    ensures output_never_falls { O.faults output.old ≤ O.faults output.new }
{
    let mut kept = kept;
    let end = frames_on(alloc, &mut kept, users, input, output);
    // A look at the book, which tells a proof that the file has its journal.
    let _book = kept.book();
    (end, kept.into_disk())
}

/// The end of the command, by that of its run.
fn end_of(end: JournalEnd) -> ScriptEnd
    ensures { result ≡ spec.script_end end }
{
    match end {
        JournalEnd::Frames(FramesOn::End(ended)) => end_of_frames(ended),
        JournalEnd::Frames(FramesOn::Broken(_)) => without_place(8),
        JournalEnd::Failed => without_place(8),
        JournalEnd::Refused(place) => ScriptEnd { status: 9, place },
        JournalEnd::NoMemory => without_place(7),
    }
}

/// The end of the command, by that of its frames.
fn end_of_frames(ended: FrameEnd) -> ScriptEnd
    ensures { result ≡ spec.frames_end ended }
{
    match ended {
        FrameEnd::Done { place } => ScriptEnd { status: 0, place },
        FrameEnd::Frame { place } => ScriptEnd { status: 6, place },
        FrameEnd::Input => without_place(4),
        FrameEnd::Output => without_place(5),
        FrameEnd::NoMemory => without_place(7),
    }
}
