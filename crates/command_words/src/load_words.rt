//! The words of the command `load`.
ghost use Rattle.std.specs.Prelude.{◌≡◌, ◌↔◌, false, codes, IfOk, IfSome, IsErrOf, IsTrue};
ghost use Rattle.clap.specs.Words.{app_of, rule_of};
ghost use Rattle.command_words.specs.Options.{IsShown, value_text};
ghost use Rattle.command_words.specs.LoadWords as spec;
ghost use Rattle.command_words.specs.LoadSaid.{ArePlain, IsSaid, IsWithin};

use crate::options::{
    Untaken, asked_text, is_plain, needed_option, new_command, number_said, sessions_option,
    text_of, why_untaken, with_option, workers_option,
};
use cal_base::Word;
use clap::builder::ValueParser;
use clap::{Arg, ArgMatches, Command, Error};
use std::alloc::{AllocError, Global};

const ABOUT: &str = "Runs sessions and workers over memory, and prints what they did";

const SESSIONS_HELP: &str = "How many sessions there are, 1 to 16";

/// What the words of `load` say.
#[derive(Clone, Copy)]
pub struct LoadWords {
    /// How many events each session puts.
    pub puts: u64,
    /// How many sessions there are, 1 to 16.
    pub sessions: u64,
    /// How many threads expand recurring events, 0 to 4.
    pub workers: u64,
}

/// The command, as `clap` reads it.
fn load_command<'a>(alloc: Global) -> Result<Command<'a>, AllocError>
    ensures { IfOk result (λ c. app_of c ≡ spec.load) }
{
    let command = new_command(alloc, "load", "caldav_server load", ABOUT)?;
    let command = with_option(command, puts_option(alloc))?;
    let command = with_option(command, sessions_option(alloc, SESSIONS_HELP))?;
    let command = with_option(command, workers_option(alloc))?;
    Ok(command)
}

fn puts_option<'a>(alloc: Global) -> Arg<'a>
    ensures rule { rule_of result ≡ spec.puts_rule }
    ensures local { result.global ≡ false }
{
    let option = needed_option(
        alloc,
        "number",
        "NUMBER",
        "How many events each session puts, 1 to 800",
    );
    option.value_parser(ValueParser::unsigned(1, 800))
}

/// The help of `load` or the version, where the words ask for it. Words that the command takes ask
/// for neither.
pub fn load_text(alloc: Global, words: &[Word]) -> Option<Error>
    ensures shown { IfSome result (λ text. IsShown text) }
    ensures untaken { IfSome result (λ _. ¬ spec.TakesLoad words.now) }
{
    let Ok(command) = load_command(alloc) else {
        return None;
    };
    match command.try_get_matches_from(words) {
        Ok(_) => None,
        Err(error) => asked_text(error),
    }
}

/// What the words say, if the command takes them.
pub fn read_load(alloc: Global, words: &[Word]) -> Result<LoadWords, Untaken>
    ensures taken { IfOk result (λ _. spec.TakesLoad words.now) }
    ensures said { IfOk result (λ w. IsSaid (spec.option_text (codes "number") words.now) (spec.option_text (codes "sessions") words.now) (spec.option_text (codes "workers") words.now) w) }
    ensures within { IfOk result (λ w. IsWithin w) }
    ensures untaken { IsErrOf result Untaken.Words → ¬ spec.TakesLoad words.now }
{
    let Ok(command) = load_command(alloc) else {
        return Err(Untaken::NoMemory);
    };
    match command.try_get_matches_from(words) {
        Ok(matches) => chosen(&matches),
        Err(error) => Err(why_untaken(&error)),
    }
}

/// What the words say that the library takes, if each number is plain.
fn chosen(matches: &ArgMatches<'_>) -> Result<LoadWords, Untaken>
    ensures plain { IfOk result (λ _. ArePlain (value_text (codes "number") matches.now) (value_text (codes "sessions") matches.now) (value_text (codes "workers") matches.now)) }
    ensures refused { IsErrOf result Untaken.Words → ¬ ArePlain (value_text (codes "number") matches.now) (value_text (codes "sessions") matches.now) (value_text (codes "workers") matches.now) }
    ensures said { IfOk result (λ w. IsSaid (value_text (codes "number") matches.now) (value_text (codes "sessions") matches.now) (value_text (codes "workers") matches.now) w) }
    ensures within { IfOk result (λ w. IsWithin w) }
{
    if has_plain_numbers(matches) {
        Ok(said(matches))
    } else {
        Err(Untaken::Words)
    }
}

/// Whether each number is plain.
fn has_plain_numbers(matches: &ArgMatches<'_>) -> bool
    ensures { IsTrue result ↔ ArePlain (value_text (codes "number") matches.now) (value_text (codes "sessions") matches.now) (value_text (codes "workers") matches.now) }
{
    let puts = is_plain(text_of(matches, "number"));
    let sessions = is_plain(text_of(matches, "sessions"));
    let workers = is_plain(text_of(matches, "workers"));
    puts && sessions && workers
}

/// What the options of words that were taken say.
fn said(matches: &ArgMatches<'_>) -> LoadWords
    ensures said { IsSaid (value_text (codes "number") matches.now) (value_text (codes "sessions") matches.now) (value_text (codes "workers") matches.now) result }
    ensures within { IsWithin result }
{
    LoadWords {
        puts: number_said(text_of(matches, "number"), 1, 800, 1),
        sessions: number_said(text_of(matches, "sessions"), 1, 16, 4),
        workers: number_said(text_of(matches, "workers"), 0, 4, 2),
    }
}
