//! The command `check`: whether the server would take a calendar file, and what it sees in it.
ghost use Rattle.std.specs.Prelude.{◌≡◌, ◌⊎◌, ◌≤◌, ℕ, List, Some};
ghost use Rattle.cal_base.specs.World.Outside.{Rose};
ghost use Rattle.file_commands.specs.FileEnds.{HasTold, IsFileStatus, IsQuiet, IsReadEnd};
ghost use Rattle.file_commands.specs.FileTold as told;
ghost use Rattle.command_words.specs.CheckWords as spec;

use crate::file_end::{FILE_LIMIT, ToolEnd, silent_end, tell, unread_end};
use cal_base::{Files, List, Sink, Word};
use command_words::{Untaken, read_check};
use ics_tool::summary;
use std::alloc::Global;

/// Runs the command: looks at its words, reads the calendar file, and writes a line that tells the kind
/// of its object, its UID and how many rows it has. A file that is not taken ends it with a line that
/// tells why.
#[tactic(auto, using(crate::proofs::FileLaws::known_read, crate::proofs::FileLaws::not_other_words))]
pub fn run_check<F: Files, O: Sink>(
    alloc: Global,
    words: &List<Word>,
    files: &mut F,
    output: &mut O,
) -> ToolEnd
    ensures known { IsFileStatus result.end.status }
    ensures quiet { IsQuiet result }

    // The words.
    ensures words_refused { result.end.status ≡ 2 → ¬ spec.TakesCheck words.now }
    ensures words_taken { (result.end.status ≡ 2) ⊎ (result.end.status ≡ 7) ⊎ spec.TakesCheck words.now }
    ensures words_first { result.end.status ≡ 2 → (files.new ≡ files.old) × (output.new ≡ output.old) }

    // What is told of the file, where its content is told.
    ensures told { (octets : List ℕ) → F.content files.old (spec.file_path words.now) ≡ Some octets → HasTold (told.check_told (spec.file_path words.now) octets) result (O.written output.old) (O.written output.new) }
    ensures unwritten { (result.end.status ≡ 0) ⊎ (result.end.status ≡ 5) ⊎ (output.new ≡ output.old) }

    // Faults.
    ensures files_fault { result.end.status ≡ 4 → Rose (F.faults files.old) (F.faults files.new) }
    ensures output_fault { result.end.status ≡ 5 → Rose (O.faults output.old) (O.faults output.new) }
    ensures files_never_fall { F.faults files.old ≤ F.faults files.new }
    ensures output_never_falls { O.faults output.old ≤ O.faults output.new }
{
    match read_check(alloc, words.as_slice()) {
        Ok(path) => check_file(alloc, path, files, output),
        Err(Untaken::Words) => silent_end(alloc, 2),
        Err(Untaken::NoMemory) => silent_end(alloc, 7),
    }
}

/// Reads the calendar file, and tells what it has.
#[tactic(auto, using(crate::proofs::FileLaws::read_told, crate::proofs::FileLaws::not_failed))]
fn check_file<F: Files, O: Sink>(
    alloc: Global,
    path: &str,
    files: &mut F,
    output: &mut O,
) -> ToolEnd
    ensures end { IsReadEnd result }
    ensures told { (octets : List ℕ) → F.content files.old path.now ≡ Some octets → HasTold (told.check_told path.now octets) result (O.written output.old) (O.written output.new) }
    ensures unwritten { (result.end.status ≡ 0) ⊎ (result.end.status ≡ 5) ⊎ (output.new ≡ output.old) }
    ensures files_fault { result.end.status ≡ 4 → Rose (F.faults files.old) (F.faults files.new) }
    ensures output_fault { result.end.status ≡ 5 → Rose (O.faults output.old) (O.faults output.new) }
    ensures files_never_fall { F.faults files.old ≤ F.faults files.new }
    ensures output_never_falls { O.faults output.old ≤ O.faults output.new }
{
    match files.read(alloc, path, FILE_LIMIT) {
        Ok(octets) => tell(alloc, path, "", summary(alloc, octets.as_slice()), output),
        Err(fault) => unread_end(alloc, path, fault),
    }
}
