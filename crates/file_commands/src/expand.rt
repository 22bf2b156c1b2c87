//! The command `expand`: the rows of a calendar file in a range.
ghost use Rattle.std.specs.Prelude.{◌≡◌, ◌⊎◌, ◌≤◌, ◌<◌, ℕ, List, [], length, Option, Some, IfSome, option_map, unwrap_or};
ghost use Rattle.cal_base.specs.Texts.LentTexts.{text_there};
ghost use Rattle.cal_base.specs.World.Outside.{Rose};
ghost use Rattle.cal_model.specs.declared.row.Range.{Range as RangeSpec};
ghost use Rattle.cal_model.specs.Refusals.RequestLimits.{resource_limit};
ghost use Rattle.file_commands.specs.FileEnds.{AreContents, HasTold, IsFileStatus, IsQuiet, IsReadEnd, IsToldEnd};
ghost use Rattle.file_commands.specs.FileTold as told;
ghost use Rattle.command_words.specs.ExpandWords as spec;
ghost use Rattle.ics_tool.specs.Answers.{IsAnswer};
ghost use Rattle.ics_tool.specs.Listings.{file_listing};

use crate::file_end::{FILE_LIMIT, ToolEnd, silent_end, tell, unread_end};
use cal_base::{Files, List, Sink, Steps, Word};
use cal_model::Range;
use command_words::{ExpandWords, Untaken, read_expand};
use ics_tool::{Listed, list_rows};
use std::alloc::Global;
use std::marker::Brand;
use std::sync::ledger::{Blank, Ledger};

/// Runs the command: looks at its words, reads the calendar file and then that of the time zone, if one
/// is named, and writes a line for each row that overlaps the range. A file that is not taken ends it
/// with a line that tells why.
#[tactic(auto, using(crate::proofs::FileLaws::known_read, crate::proofs::FileLaws::not_other_words))]
pub fn run_expand<F: Files, O: Sink>(
    alloc: Global,
    words: &List<Word>,
    files: &mut F,
    output: &mut O,
) -> ToolEnd
    ensures known { IsFileStatus result.end.status }
    ensures quiet { IsQuiet result }

    // The words.
    ensures words_refused { result.end.status ≡ 2 → ¬ spec.TakesExpand words.now }
    ensures words_taken { (result.end.status ≡ 2) ⊎ (result.end.status ≡ 7) ⊎ spec.TakesExpand words.now }
    ensures words_first { result.end.status ≡ 2 → (files.new ≡ files.old) × (output.new ≡ output.old) }

    // What is told of the files, where their contents are told.
    ensures told { (range : RangeSpec) (octets : List ℕ) (zone : Option (List ℕ)) → spec.range_of_words words.now ≡ Some range → AreContents (F.content files.old) (spec.file_path words.now) (spec.zone_path words.now) octets zone → HasTold (told.expand_told (spec.file_path words.now) (spec.zone_path words.now) range octets zone) result (O.written output.old) (O.written output.new) }
    ensures unwritten { (result.end.status ≡ 0) ⊎ (result.end.status ≡ 5) ⊎ (output.new ≡ output.old) }

    // Faults.
    ensures files_fault { result.end.status ≡ 4 → Rose (F.faults files.old) (F.faults files.new) }
    ensures output_fault { result.end.status ≡ 5 → Rose (O.faults output.old) (O.faults output.new) }
    ensures files_never_fall { F.faults files.old ≤ F.faults files.new }
    ensures output_never_falls { O.faults output.old ≤ O.faults output.new }
{
    match read_expand(alloc, words.as_slice()) {
        Ok(words) => expand_file(alloc, &words, files, output),
        Err(Untaken::Words) => silent_end(alloc, 2),
        Err(Untaken::NoMemory) => silent_end(alloc, 7),
    }
}

/// Reads the calendar file, and then lists it.
#[tactic(auto, using(crate::proofs::FileLaws::rose_since))]
fn expand_file<F: Files, O: Sink>(
    alloc: Global,
    words: &ExpandWords<'_>,
    files: &mut F,
    output: &mut O,
) -> ToolEnd
    ensures end { IsReadEnd result }
    ensures told { (octets : List ℕ) (zone : Option (List ℕ)) → AreContents (F.content files.old) words.now.file.now (text_there words.now.zone) octets zone → HasTold (told.expand_told words.now.file.now (text_there words.now.zone) words.now.range octets zone) result (O.written output.old) (O.written output.new) }
    ensures unwritten { (result.end.status ≡ 0) ⊎ (result.end.status ≡ 5) ⊎ (output.new ≡ output.old) }
    ensures files_fault { result.end.status ≡ 4 → Rose (F.faults files.old) (F.faults files.new) }
    ensures output_fault { result.end.status ≡ 5 → Rose (O.faults output.old) (O.faults output.new) }
    ensures files_never_fall { F.faults files.old ≤ F.faults files.new }
    ensures output_never_falls { O.faults output.old ≤ O.faults output.new }
{
    match files.read(alloc, words.file, FILE_LIMIT) {
        Ok(octets) => expand_octets(alloc, words, octets.as_slice(), files, output),
        Err(fault) => unread_end(alloc, words.file, fault),
    }
}

/// Reads the file of the time zone, if one is named, and then lists the octets of the calendar file.
#[tactic(auto, using(crate::proofs::FileLaws::read_told, crate::proofs::FileLaws::not_failed))]
fn expand_octets<F: Files, O: Sink>(
    alloc: Global,
    words: &ExpandWords<'_>,
    octets: &[u8],
    files: &mut F,
    output: &mut O,
) -> ToolEnd
    requires { length octets.now ≤ resource_limit }
    ensures end { IsReadEnd result }
    ensures told { (zone : Option (List ℕ)) → option_map (F.content files.old) (text_there words.now.zone) ≡ option_map Some zone → HasTold (told.zone_told words.now.file.now (text_there words.now.zone) words.now.range octets.now zone) result (O.written output.old) (O.written output.new) }
    ensures unwritten { (result.end.status ≡ 0) ⊎ (result.end.status ≡ 5) ⊎ (output.new ≡ output.old) }
    ensures files_fault { result.end.status ≡ 4 → Rose (F.faults files.old) (F.faults files.new) }
    ensures output_fault { result.end.status ≡ 5 → Rose (O.faults output.old) (O.faults output.new) }
    ensures files_never_fall { F.faults files.old ≤ F.faults files.new }
    ensures output_never_falls { O.faults output.old ≤ O.faults output.new }
{
    let Some(path) = words.zone else {
        return expand_in_zone(alloc, words, octets, None, output);
    };
    match files.read(alloc, path, FILE_LIMIT) {
        Ok(zone) => expand_in_zone(alloc, words, octets, Some(zone.as_slice()), output),
        Err(fault) => unread_end(alloc, path, fault),
    }
}

/// Lists the octets of the calendar file, where those of the time zone are at hand.
fn expand_in_zone<O: Sink>(
    alloc: Global,
    words: &ExpandWords<'_>,
    octets: &[u8],
    zone: Option<&[u8]>,
    output: &mut O,
) -> ToolEnd
    requires octets { length octets.now ≤ resource_limit }
    requires zone { IfSome zone (λ text. length text.now ≤ resource_limit) }
    ensures end { IsToldEnd result }
    ensures told { HasTold (told.told_of words.now.file.now (unwrap_or (text_there words.now.zone) []) (file_listing octets.now (text_there zone.entry) words.now.range)) result (O.written output.old) (O.written output.new) }
    ensures unwritten { (result.end.status ≡ 0) ⊎ (result.end.status ≡ 5) ⊎ (output.new ≡ output.old) }
    ensures output_fault { result.end.status ≡ 5 → Rose (O.faults output.old) (O.faults output.new) }
    ensures output_never_falls { O.faults output.old ≤ O.faults output.new }
{
    tell(
        alloc,
        words.file,
        zone_path(words),
        rows_of::<Brand>(alloc, octets, zone, words.range, Blank::new(1)),
        output,
    )
}

/// The path of the file with the time zone; an empty one where none is named.
fn zone_path<'a>(words: &ExpandWords<'a>) -> &'a str
    ensures { result.now ≡ unwrap_or (text_there words.now.zone) [] }
{
    match words.zone {
        Some(path) => path,
        None => "",
    }
}

/// The rows of the octets in a range, where no step is counted.
fn rows_of<L: Ledger>(
    alloc: Global,
    octets: &[u8],
    zone: Option<&[u8]>,
    range: Range,
    blank: Blank,
) -> Listed
    requires octets { length octets.now ≤ resource_limit }
    requires zone { IfSome zone (λ text. length text.now ≤ resource_limit) }
    requires name { L.name ≡ blank.name }
    requires parts { L.parts ≡ blank.parts }
    requires some { 0 < blank.parts }
    ensures { IsAnswer (file_listing octets.now (text_there zone.entry) range) result }
{
    let mut steps = Steps::<L>::open(blank);
    list_rows(alloc, octets, zone, range, &mut steps)
}
