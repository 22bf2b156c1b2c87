//! The words of the command `slot`.
ghost use Rattle.std.specs.Prelude.{◌≡◌, ◌↔◌, false, codes, IfOk, IfSome, IsErrOf, IsTrue, Some};
ghost use Rattle.clap.specs.Words.{app_of, rule_of};
ghost use Rattle.command_words.specs.Options.{IsPlain, IsShown, needed, value_text};
ghost use Rattle.command_words.specs.SlotSaid.{AreChosen, IsFoundIn, IsSaidBy, IsWithin, paths_found, range_found};
ghost use Rattle.command_words.specs.SlotWords as spec;

use crate::options::{
    Untaken, asked_text, is_plain, needed_option, new_command, number_said, text_of, why_untaken,
    with_notes, with_option,
};
use crate::range_said::{from_option, range_said, to_option};
use cal_base::{List, NoMemory, Word};
use cal_model::Range;
use clap::builder::ValueParser;
use clap::{Arg, ArgMatches, Command, Error};
use std::alloc::{AllocError, Global};

const ABOUT: &str =
    "Prints the times at which some calendars are all free, as far as a user may see when they are busy";

/// What help says below the options.
const NOTES: &str =
    "Of the times at which no calendar is busy, not even tentatively, those of so many minutes at least are
printed in order, each in a line `free START END` in UTC, or else `none`. Nothing is changed.

  caldav_server slot --users users --journal journal --as alice --from 20250310T080000Z \\
      --to 20250310T130000Z --minutes 60 --most 5 /calendars/alice/calendar/ /calendars/bob/calendar/

Where a word is refused, the line on standard error has its number: 0 for the user, who is not in the
users file; 1 for the first path, and so on, where it is no calendar whose busy times the user may see.
";

/// What the words of `slot` say.
#[derive(Drop)]
pub struct SlotWords<'a> {
    /// The path of the users file.
    pub users: &'a str,
    /// The path of the journal file.
    pub journal: &'a str,
    /// The name of the user who looks.
    pub user: &'a str,
    /// The range.
    pub range: Range,
    /// How many minutes a free time has at least, 1 to 100,000.
    pub minutes: u32,
    /// How many free times are asked for, 1 to 100.
    pub most: u32,
    /// The paths of the calendars, in the order in which they stand.
    pub paths: List<Word>,
}

/// The command, as `clap` reads it.
fn slot_command<'a>(alloc: Global) -> Result<Command<'a>, AllocError>
    ensures { IfOk result (λ c. app_of c ≡ spec.slot) }
{
    let command = files_command(alloc)?;
    let command = with_option(command, from_option(alloc))?;
    let command = with_option(command, to_option(alloc))?;
    let command = with_option(command, minutes_option(alloc))?;
    let command = with_option(command, most_option(alloc))?;
    let command = with_option(command, paths_option(alloc))?;
    Ok(command)
}

/// The command with the options that name files and the user.
fn files_command<'a>(alloc: Global) -> Result<Command<'a>, AllocError>
    ensures { IfOk result (λ c. app_of c ≡ spec.files) }
{
    let command = new_command(alloc, "slot", "caldav_server slot", ABOUT)?;
    let command = with_option(with_notes(command, NOTES), users_option(alloc))?;
    let command = with_option(command, journal_option(alloc))?;
    let command = with_option(command, user_option(alloc))?;
    Ok(command)
}

fn users_option<'a>(alloc: Global) -> Arg<'a>
    ensures rule { rule_of result ≡ needed (codes "users") }
    ensures local { result.global ≡ false }
{
    needed_option(alloc, "users", "FILE", "The users file of the server")
}

fn journal_option<'a>(alloc: Global) -> Arg<'a>
    ensures rule { rule_of result ≡ needed (codes "journal") }
    ensures local { result.global ≡ false }
{
    needed_option(
        alloc,
        "journal",
        "FILE",
        "The journal file of the server, which is only read",
    )
}

fn user_option<'a>(alloc: Global) -> Arg<'a>
    ensures rule { rule_of result ≡ needed (codes "as") }
    ensures local { result.global ≡ false }
{
    needed_option(alloc, "as", "USER", "The name of the user who looks")
}

fn minutes_option<'a>(alloc: Global) -> Arg<'a>
    ensures rule { rule_of result ≡ spec.needed_number (codes "minutes") 1 100_000 }
    ensures local { result.global ≡ false }
{
    let option = needed_option(
        alloc,
        "minutes",
        "NUMBER",
        "How many minutes a free time has at least, 1 to 100000",
    );
    option.value_parser(ValueParser::unsigned(1, 100_000))
}

fn most_option<'a>(alloc: Global) -> Arg<'a>
    ensures rule { rule_of result ≡ spec.needed_number (codes "most") 1 100 }
    ensures local { result.global ≡ false }
{
    let option = needed_option(
        alloc,
        "most",
        "NUMBER",
        "How many free times are printed at most, 1 to 100",
    );
    option.value_parser(ValueParser::unsigned(1, 100))
}

fn paths_option<'a>(alloc: Global) -> Arg<'a>
    ensures rule { rule_of result ≡ spec.paths_rule }
    ensures local { result.global ≡ false }
{
    Arg::new(alloc, "path")
        .value_name("PATH")
        .help("The paths of the calendars, 1 to 32, as /calendars/alice/calendar/")
        .num_args(1..=32)
        .required(true)
}

/// The help of `slot` or the version, where the words ask for it. Words that the command takes ask for
/// neither.
pub fn slot_text(alloc: Global, words: &[Word]) -> Option<Error>
    ensures shown { IfSome result (λ text. IsShown text) }
    ensures untaken { IfSome result (λ _. ¬ spec.TakesSlot words.now) }
{
    let Ok(command) = slot_command(alloc) else {
        return None;
    };
    match command.try_get_matches_from(words) {
        Ok(_) => None,
        Err(error) => asked_text(error),
    }
}

/// What the words say, if the command takes them.
pub fn read_slot<'a>(alloc: Global, words: &'a [Word]) -> Result<SlotWords<'a>, Untaken>
    ensures taken { IfOk result (λ _. spec.TakesSlot words.now) }
    ensures said { IfOk result (IsSaidBy words.now) }
    ensures within { IfOk result IsWithin }
    ensures untaken { IsErrOf result Untaken.Words → ¬ spec.TakesSlot words.now }
{
    let Ok(command) = slot_command(alloc) else {
        return Err(Untaken::NoMemory);
    };
    match command.try_get_matches_from(words) {
        Ok(matches) => chosen(alloc, &matches),
        Err(error) => Err(why_untaken(&error)),
    }
}

/// What the words say that the library takes, if each number is plain and the moments state a range.
fn chosen<'a>(alloc: Global, matches: &ArgMatches<'a>) -> Result<SlotWords<'a>, Untaken>
    ensures chosen { IfOk result (λ _. AreChosen matches.now) }
    ensures said { IfOk result (IsFoundIn matches.now) }
    ensures within { IfOk result IsWithin }
    ensures refused { IsErrOf result Untaken.Words → ¬ AreChosen matches.now }
{
    if !has_plain_numbers(matches) {
        return Err(Untaken::Words);
    }
    match range_said(text_of(matches, "from"), text_of(matches, "to")) {
        Some(range) => said(alloc, matches, range),
        None => Err(Untaken::Words),
    }
}

/// Whether each number is plain.
fn has_plain_numbers(matches: &ArgMatches<'_>) -> bool
    ensures { IsTrue result ↔ (IsPlain (value_text (codes "minutes") matches.now) × IsPlain (value_text (codes "most") matches.now)) }
{
    let minutes = is_plain(text_of(matches, "minutes"));
    let most = is_plain(text_of(matches, "most"));
    minutes && most
}

/// What the options of words that were taken say, which state this range. It fails for want of memory
/// alone.
fn said<'a>(alloc: Global, matches: &ArgMatches<'a>, range: Range) -> Result<SlotWords<'a>, Untaken>
    requires { range_found matches.now ≡ Some range }
    ensures said { IfOk result (IsFoundIn matches.now) }
    ensures within { IfOk result IsWithin }
    ensures memory { ¬ IsErrOf result Untaken.Words }
{
    match paths_of(alloc, matches) {
        Ok(paths) => Ok(SlotWords {
            users: text_of(matches, "users"),
            journal: text_of(matches, "journal"),
            user: text_of(matches, "as"),
            range,
            minutes: number_said(text_of(matches, "minutes"), 1, 100_000, 1) as u32,
            most: number_said(text_of(matches, "most"), 1, 100, 1) as u32,
            paths,
        }),
        Err(NoMemory) => Err(Untaken::NoMemory),
    }
}

/// The paths, in the order in which they stand.
fn paths_of(alloc: Global, matches: &ArgMatches<'_>) -> Result<List<Word>, NoMemory>
    ensures { IfOk result (λ paths. paths ≡ paths_found matches.now) }
{
    let mut paths = List::new(alloc);
    let Some(texts) = matches.get_strs("path") else {
        return Ok(paths);
    };
    'paths: for text in texts {
        paths.push(Word::of(alloc, text)?)?;
    }
    Ok(paths)
}
