//! The words of the command `serve`.
ghost use Rattle.std.specs.Prelude.{◌≡◌, ◌-◌, ◌^◌, ◌<◌, ◌↔◌, Bool, false, codes, IfOk, IfSome, IsErrOf, IsTrue};
ghost use Rattle.clap.specs.Words.{app_of, rule_of};
ghost use Rattle.command_words.specs.Options.{IsShown, free, needed, number, value_text};
ghost use Rattle.command_words.specs.ServeWords as spec;
ghost use Rattle.command_words.specs.SaidWords.{AreChosen, ArePlain, IsFoundIn, IsSaidBy};

use crate::options::{
    Numbers, Untaken, asked_text, free_option, is_given, is_plain, needed_option, new_command,
    number_option, number_said, sessions_option, text_of, why_untaken, with_option, workers_option,
};
use cal_base::Word;
use clap::{Arg, ArgMatches, Command, Error};
use std::alloc::{AllocError, Global};

const CONNECTIONS: Numbers<'static> = Numbers {
    low: 0,
    high: u64::MAX,
    other: "0",
};

const ABOUT: &str = "Serves calendars to calendar programs (CalDAV)";

const SESSIONS_HELP: &str = "How many connections are served at once, 1 to 16";

/// What the words of `serve` say.
#[derive(Clone, Copy)]
pub struct ServeWords<'a> {
    /// The path of the users file.
    pub users: &'a str,
    /// The address to listen at.
    pub listen: &'a str,
    /// How many connections are served at once, 1 to 16.
    pub sessions: u64,
    /// How many threads expand recurring events, 0 to 4.
    pub workers: u64,
    /// After how many connections the server ends; 0 is without end.
    pub connections: u64,
}

/// The command, as `clap` reads it.
fn serve_command<'a>(alloc: Global) -> Result<Command<'a>, AllocError>
    ensures { IfOk result (λ c. app_of c ≡ spec.serve) }
{
    let command = new_command(alloc, "serve", "caldav_server serve", ABOUT)?;
    let command = with_option(command, users_option(alloc))?;
    let command = with_option(command, listen_option(alloc))?;
    let command = with_option(command, journal_option(alloc))?;
    let command = with_option(command, sessions_option(alloc, SESSIONS_HELP))?;
    let command = with_option(command, workers_option(alloc))?;
    let command = with_option(command, connections_option(alloc))?;
    Ok(command)
}

fn users_option<'a>(alloc: Global) -> Arg<'a>
    ensures rule { rule_of result ≡ needed (codes "users") }
    ensures local { result.global ≡ false }
{
    needed_option(
        alloc,
        "users",
        "FILE",
        "Who may come in: a line `user NAME SHA256` for each, the SHA-256 of the password in hexadecimal digits",
    )
}

fn listen_option<'a>(alloc: Global) -> Arg<'a>
    ensures rule { rule_of result ≡ needed (codes "listen") }
    ensures local { result.global ≡ false }
{
    needed_option(
        alloc,
        "listen",
        "ADDRESS",
        "Where to listen, as 127.0.0.1:5232",
    )
}

fn journal_option<'a>(alloc: Global) -> Arg<'a>
    ensures rule { rule_of result ≡ free (codes "journal") }
    ensures local { result.global ≡ false }
{
    free_option(
        alloc,
        "journal",
        "FILE",
        "Where each change is kept before it is answered; it is made where there is none. Without it all is lost at the end",
    )
}

fn connections_option<'a>(alloc: Global) -> Arg<'a>
    ensures rule { rule_of result ≡ number (codes "connections") 0 (2 ^ 64 - 1) (codes "0") }
    ensures local { result.global ≡ false }
{
    number_option(
        alloc,
        "connections",
        CONNECTIONS,
        "After how many connections to end; 0 is never",
    )
}

/// The help of `serve` or the version, where the words ask for it. Words that the command takes, with a
/// journal file or without one, ask for neither.
pub fn serve_text(alloc: Global, words: &[Word]) -> Option<Error>
    ensures shown { IfSome result (λ text. IsShown text) }
    ensures untaken { IfSome result (λ _. (kept : Bool) → ¬ spec.TakesWith kept words.now) }
{
    let Ok(command) = serve_command(alloc) else {
        return None;
    };
    match command.try_get_matches_from(words) {
        Ok(_) => None,
        Err(error) => asked_text(error),
    }
}

/// What the words say, if the command takes them and they name no journal file.
pub fn read_serve<'a>(alloc: Global, words: &'a [Word]) -> Result<ServeWords<'a>, Untaken>
    ensures taken { IfOk result (λ _. spec.TakesServe words.now) }
    ensures said { IfOk result (IsSaidBy words.now) }
    ensures sessions { IfOk result (λ w. 0 < w.sessions) }
    ensures untaken { IsErrOf result Untaken.Words → ¬ spec.TakesServe words.now }
{
    read_with(alloc, words, false)
}

/// What the words say, if the command takes them and they name a journal file.
pub fn read_kept_serve<'a>(alloc: Global, words: &'a [Word]) -> Result<ServeWords<'a>, Untaken>
    ensures taken { IfOk result (λ _. spec.TakesKeptServe words.now) }
    ensures said { IfOk result (IsSaidBy words.now) }
    ensures sessions { IfOk result (λ w. 0 < w.sessions) }
    ensures untaken { IsErrOf result Untaken.Words → ¬ spec.TakesKeptServe words.now }
{
    read_with(alloc, words, true)
}

/// What the words say, if the command takes them and they name a journal file or do not.
fn read_with<'a>(alloc: Global, words: &'a [Word], kept: bool) -> Result<ServeWords<'a>, Untaken>
    ensures taken { IfOk result (λ _. spec.TakesWith kept words.now) }
    ensures said { IfOk result (IsSaidBy words.now) }
    ensures sessions { IfOk result (λ w. 0 < w.sessions) }
    ensures untaken { IsErrOf result Untaken.Words → ¬ spec.TakesWith kept words.now }
{
    let Ok(command) = serve_command(alloc) else {
        return Err(Untaken::NoMemory);
    };
    match command.try_get_matches_from(words) {
        Ok(matches) => chosen(&matches, kept),
        Err(error) => Err(why_untaken(&error)),
    }
}

/// What the words say that the library takes, if each number is plain and they name a journal file or
/// do not.
fn chosen<'a>(matches: &ArgMatches<'a>, kept: bool) -> Result<ServeWords<'a>, Untaken>
    ensures chosen { IfOk result (λ _. AreChosen kept matches.now) }
    ensures refused { IsErrOf result Untaken.Words → ¬ AreChosen kept matches.now }
    ensures said { IfOk result (IsFoundIn matches.now) }
    ensures sessions { IfOk result (λ w. 0 < w.sessions) }
{
    if is_given(matches, "journal") != kept {
        return Err(Untaken::Words);
    }
    if has_plain_numbers(matches) {
        Ok(said(matches))
    } else {
        Err(Untaken::Words)
    }
}

/// Whether each number is plain.
fn has_plain_numbers(matches: &ArgMatches<'_>) -> bool
    ensures { IsTrue result ↔ ArePlain (value_text (codes "sessions") matches.now) (value_text (codes "workers") matches.now) (value_text (codes "connections") matches.now) }
{
    let sessions = is_plain(text_of(matches, "sessions"));
    let workers = is_plain(text_of(matches, "workers"));
    let connections = is_plain(text_of(matches, "connections"));
    sessions && workers && connections
}

/// What the options of words that were taken say.
fn said<'a>(matches: &ArgMatches<'a>) -> ServeWords<'a>
    ensures said { IsFoundIn matches.now result }
    ensures some_sessions { 0 < result.sessions }
{
    ServeWords {
        users: text_of(matches, "users"),
        listen: text_of(matches, "listen"),
        sessions: number_said(text_of(matches, "sessions"), 1, 16, 4),
        workers: number_said(text_of(matches, "workers"), 0, 4, 2),
        connections: number_said(text_of(matches, "connections"), 0, u64::MAX, 0),
    }
}
