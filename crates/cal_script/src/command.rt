//! The command `script`.
ghost use Rattle.std.specs.Prelude.{◌≡◌, ◌≤◌, ◌⊎◌, ◌↔◌, List, None};
ghost use Rattle.cal_base.specs.World.Outside.{Rose};
ghost use Rattle.cal_model.specs.Transcripts.Transcript.{IsPrinted, IsPrintedInPart};
ghost use Rattle.cal_model.specs.Users.UsersFile.{Users};
ghost use Rattle.cal_script.specs.ReadersSight.{ReadersSeeAlike};
ghost use Rattle.cal_script.specs.ScriptEnds.{users_path, RefusesStart, RunsFrames, EndsInPart, HasPlace, run_told, RanToEnd, MetBadFrame, StoppedReading, WroteFront};
ghost use Rattle.cal_script.specs.UsersTaken.{AreUsersAt, IfTold, IsRefusedAt};

use crate::laws::readers_see_alike;
use crate::running::{FrameEnd, run_frames};
use crate::users::{NoUsers, take_users};
use crate::words::users_path;
use cal_base::{Files, List, Sink, Source, Word};
use command_ends::ScriptEnd;
use std::alloc::Global;

/// Runs the command: looks at its words, then at the users file, and then answers the frames of the
/// input in order, each as soon as it is whole.
///
/// Where the input tells what is left to read and the output what was written, the output is what a
/// script may print for the frames of the input (status 0), for those before the place (6), for
/// those that were taken (4), or a beginning of that (5 and 7). At status 4 the octets behind the
/// last whole frame are the start of a frame: a bad line is told at its end, and at the latest after
/// as many octets as the longest line has, however the input goes on. The users are those of the
/// file, where its content is told.
///
/// The status is 0 where the input was read to its end and every reply was written; 2 where the words
/// are others; 3 where the users file is too long or has a bad line; 4 where a file or the input
/// failed; 5 where the output did; 6 where a frame is bad or cut; 7 where there was no memory. The
/// place is, at status 0, the octets of input; at 3, the place of the bad line in the users file or the
/// limit of its length; at 6, the place of the frame in the input; and else 0.
pub fn run_script<F: Files, I: Source, O: Sink>(
    alloc: Global,
    words: &List<Word>,
    files: &mut F,
    input: &mut I,
    output: &mut O,
) -> ScriptEnd
    ensures known { (result.status ≡ 0) ⊎ ((2 ≤ result.status) × (result.status ≤ 7)) }

    // The words and the users file.
    ensures words { (result.status ≡ 2) ↔ (users_path words.now ≡ None) }
    ensures users_refused { result.status ≡ 3 → IfTold (users_path words.now) (F.content files.old) (λ octets. IsRefusedAt octets result.place) }
    ensures users_taken { RunsFrames result.status → (users : Users) × AreUsersAt (users_path words.now) (F.content files.old) users }
    ensures refused { RefusesStart result.status → (input.new ≡ input.old) × (output.new ≡ output.old) }

    // The words come first, then the users file, and the input and the output only once it is taken.
    ensures words_first { result.status ≡ 2 → files.new ≡ files.old }
    ensures served { ((input.new ≡ input.old) × (output.new ≡ output.old)) ⊎ ((users : Users) × AreUsersAt (users_path words.now) (F.content files.old) users) }

    // The frames.
    ensures done { result.status ≡ 0 → (users : Users) × AreUsersAt (users_path words.now) (F.content files.old) users × RanToEnd (IsPrinted users) (run_told I.Source O.Sink input.old input.new output.old output.new) result.place }
    ensures bad_frame { result.status ≡ 6 → (users : Users) × AreUsersAt (users_path words.now) (F.content files.old) users × MetBadFrame (IsPrinted users) (run_told I.Source O.Sink input.old input.new output.old output.new) result.place }
    ensures input_fault { result.status ≡ 4 → Rose (F.faults files.old) (F.faults files.new) ⊎ Rose (I.faults input.old) (I.faults input.new) }
    ensures stopped { result.status ≡ 4 → ((input.new ≡ input.old) × (output.new ≡ output.old)) ⊎ ((users : Users) × AreUsersAt (users_path words.now) (F.content files.old) users × StoppedReading (IsPrinted users) (run_told I.Source O.Sink input.old input.new output.old output.new)) }
    ensures output_fault { result.status ≡ 5 → Rose (O.faults output.old) (O.faults output.new) }
    ensures in_part { EndsInPart result.status → ((input.new ≡ input.old) × (output.new ≡ output.old)) ⊎ ((users : Users) × AreUsersAt (users_path words.now) (F.content files.old) users × WroteFront (IsPrintedInPart users) (run_told I.Source O.Sink input.old input.new output.old output.new)) }
    ensures placed { HasPlace result.status ⊎ (result.place ≡ 0) }

    // No reply to a request that only reads tells more than its user sees.
    ensures alike { ReadersSeeAlike }

    // No count falls.
    ensures files_never_fall { F.faults files.old ≤ F.faults files.new }
    ensures input_never_falls { I.faults input.old ≤ I.faults input.new }
    ensures output_never_falls { O.faults output.old ≤ O.faults output.new }
{
    readers_see_alike();
    let Some(path) = users_path(words) else {
        return without_place(2);
    };
    let users = match take_users(alloc, files, path.as_str()) {
        Ok(users) => users,
        Err(NoUsers::Line(place)) => return ScriptEnd { status: 3, place },
        Err(NoUsers::Files) => return without_place(4),
        Err(NoUsers::NoMemory) => return without_place(7),
    };
    match run_frames(alloc, users, input, output) {
        FrameEnd::Done { place } => ScriptEnd { status: 0, place },
        FrameEnd::Frame { place } => ScriptEnd { status: 6, place },
        FrameEnd::Input => without_place(4),
        FrameEnd::Output => without_place(5),
        FrameEnd::NoMemory => without_place(7),
    }
}

/// An end that no place tells more of.
fn without_place(status: u8) -> ScriptEnd
    ensures { result ≡ record { status = status; place = 0 } }
{
    ScriptEnd { status, place: 0 }
}
