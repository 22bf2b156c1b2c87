//! How the commands `expand` and `check` end, and what they tell.
ghost use Rattle.std.specs.Prelude.{◌≡◌, ◌++◌, ◌≤◌, ◌⊎◌, List, ℕ, Option, Some, IfOk, codes, option_map, string_bytes};
ghost use Rattle.cal_base.specs.World.Outside.{Rose};
ghost use Rattle.cal_model.specs.Objects.ObjectReading.{Unread};
ghost use Rattle.ics_tool.specs.Answers.{IsAnswer, said_by};
ghost use Rattle.ics_tool.specs.Listings.{Listing};
ghost use Rattle.file_commands.specs.FileEnds.{HasRefused, HasTold, HasWritten, IsReadEnd, IsToldEnd};
ghost use Rattle.file_commands.specs.FileEnds as spec;
ghost use Rattle.file_commands.specs.FileTold as told;

use cal_base::{FileFault, NoMemory, Octets, Sink, write_all};
use cal_model::NotResource;
use cal_object::ReadFault;
use command_ends::ScriptEnd;
use ics_tool::Listed;
use std::alloc::Global;

/// The most octets of a calendar file, and of one with a time zone.
pub(crate) const FILE_LIMIT: u64 = 262_144;

/// How a command ended that looks at calendar files.
#[derive(Drop)]
pub struct ToolEnd {
    /// 0 the lines were written; 2 the words are others; 4 a file was not read; 5 the output failed; 7
    /// there was no memory; 12 a file is not taken. The place is that in the file at status 12 where it
    /// is no calendar, and else 0.
    pub end: ScriptEnd,
    /// At status 12 the line that tells of the file, without its end, and else nothing.
    pub line: Octets,
}

/// An end of which no line tells more.
pub(crate) fn silent_end(alloc: Global, status: u8) -> ToolEnd
    ensures { result ≡ spec.silent_end status }
{
    ToolEnd {
        end: ScriptEnd { status, place: 0 },
        line: Octets::new(alloc),
    }
}

/// The line that tells something of the file of a path.
fn line_about(alloc: Global, path: &str, why: &str) -> Result<Octets, NoMemory>
    ensures { IfOk result (λ line. line ≡ told.line_about path.now why.now) }
{
    let mut line = Octets::of(alloc, path.as_bytes())?;
    line.extend_from_slice(b": ")?;
    line.extend_from_slice(why.as_bytes())?;
    Ok(line)
}

/// The end where a file is not taken, and why.
fn line_end(alloc: Global, path: &str, why: &str, place: u64) -> ToolEnd
    ensures told { HasRefused (told.line_about path.now why.now) place result }
    ensures end { IsToldEnd result }
{
    match line_about(alloc, path, why) {
        Ok(line) => ToolEnd {
            end: ScriptEnd { status: 12, place },
            line,
        },
        Err(NoMemory) => silent_end(alloc, 7),
    }
}

/// The number of a reason why a calendar is not one resource.
fn number_of(why: NotResource) -> u32
    ensures { result ≡ told.number_of why }
{
    match why {
        NotResource::Method => 0,
        NotResource::NoComponent => 1,
        NotResource::MixedKinds => 2,
        NotResource::NoUid => 3,
        NotResource::MixedUids => 4,
        NotResource::TwoMasters => 5,
        NotResource::SameRecurrenceId => 6,
        NotResource::ZoneMissing => 7,
        NotResource::ExRule => 8,
    }
}

/// Why octets are not read, in words, and the place of that.
fn why_unread(alloc: Global, fault: ReadFault) -> Result<(String, u64), NoMemory>
    ensures { IfOk result (λ why. option_map told.why_of (said_by fault) ≡ Some (string_bytes why.0, why.1)) }
{
    match fault {
        ReadFault::NotCalendar { place } => {
            let why = format!(in alloc; "not a calendar at octet {place}")?;
            Ok((why, place))
        }
        ReadFault::NotResource(reason) => {
            let number = number_of(reason);
            let why = format!(in alloc; "not one resource: {number}")?;
            Ok((why, 0))
        }
        ReadFault::DateOutside(_, _) => {
            let why = String::from_str(alloc, "date outside")?;
            Ok((why, 0))
        }
        ReadFault::NoMemory => Err(NoMemory),
    }
}

/// The end where the octets of a file are not read.
fn refused_end(alloc: Global, path: &str, fault: ReadFault) -> ToolEnd
    ensures told { (why : Unread) → said_by fault ≡ Some why → (before after : Option (List ℕ)) → HasTold (told.unread path.now why) result before after }
    ensures end { IsToldEnd result }
    ensures not_begun { ¬ (result.end.status ≡ 5) }
{
    match why_unread(alloc, fault) {
        Ok((why, place)) => line_end(alloc, path, why.as_str(), place),
        Err(NoMemory) => silent_end(alloc, 7),
    }
}

/// Writes lines on standard output, and says how that ended.
fn written_end<O: Sink>(alloc: Global, text: &[u8], output: &mut O) -> ToolEnd
    ensures told { HasWritten text.now result.end.status (O.written output.old) (O.written output.new) }
    ensures end { IsToldEnd result }
    ensures output_fault { result.end.status ≡ 5 → Rose (O.faults output.old) (O.faults output.new) }
    ensures written { (result.end.status ≡ 0) ⊎ (result.end.status ≡ 5) }
    ensures output_never_falls { O.faults output.old ≤ O.faults output.new }
{
    match write_all(output, text) {
        Ok(()) => silent_end(alloc, 0),
        Err(_) => silent_end(alloc, 5),
    }
}

/// Tells what was listed of the file of a path, where floating times are read in the zone of another.
pub(crate) fn tell<O: Sink>(
    alloc: Global,
    file: &str,
    zone: &str,
    listed: Listed,
    output: &mut O,
) -> ToolEnd
    ensures told { (listing : Listing) → IsAnswer listing listed → HasTold (told.told_of file.now zone.now listing) result (O.written output.old) (O.written output.new) }
    ensures end { IsToldEnd result }
    ensures unwritten { (result.end.status ≡ 0) ⊎ (result.end.status ≡ 5) ⊎ (output.new ≡ output.old) }
    ensures output_fault { result.end.status ≡ 5 → Rose (O.faults output.old) (O.faults output.new) }
    ensures output_never_falls { O.faults output.old ≤ O.faults output.new }
{
    match listed {
        Listed::Text(text) => written_end(alloc, text.as_slice(), output),
        Listed::Refused(fault) => refused_end(alloc, file, fault),
        Listed::ZoneRefused(fault) => refused_end(alloc, zone, fault),
        Listed::TooMany => line_end(alloc, file, "too many instances", 0),
        Listed::NoMemory => silent_end(alloc, 7),
    }
}

/// The end where the file of a path is not given whole.
pub(crate) fn unread_end(alloc: Global, path: &str, fault: FileFault) -> ToolEnd
    ensures told { (about : told.Told) → (fault ≡ FileFault.TooLong → about ≡ told.too_long path.now) → (before after : Option (List ℕ)) → HasTold about result before after }
    ensures end { IsReadEnd result }
    ensures failed { result.end.status ≡ 4 → fault ≡ FileFault.Failed }
    ensures not_begun { ¬ (result.end.status ≡ 5) }
{
    match fault {
        FileFault::Failed => silent_end(alloc, 4),
        FileFault::TooLong => line_end(alloc, path, "too long", 0),
        FileFault::NoMemory => silent_end(alloc, 7),
    }
}
