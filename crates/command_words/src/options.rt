//! Options of a command line, each of a command that a sentence describes.
//!
//! Each step of making a command is a function of its own, so that a contract says what the command
//! takes.
ghost use Rattle.std.specs.Prelude.{◌≡◌, ◌≢◌, ◌≤◌, ◌<◌, ◌⊎◌, ◌↔◌, IfOk, IfSome, IsTrue, EachIndex, codes, false, is_some, length, slice_index};
ghost use Rattle.clap.specs.Words.{app_of, first_value, found_of, kind_of, new_app, rule_of, with_rule};
ghost use Rattle.command_words.specs.Options.{IsPlain, IsShown, free, needed, number, number_said, value_text, with_version};

use clap::builder::ValueParser;
use clap::error::ErrorKind;
use clap::{Arg, ArgMatches, Command, Error};
use std::alloc::{AllocError, Global};

/// The version of the program.
pub const VERSION: &str = "0.1.0";

/// A command without an option, which help describes so.
pub(crate) fn new_command<'a>(
    alloc: Global,
    name: &'a str,
    call: &str,
    about: &'a str,
) -> Result<Command<'a>, AllocError>
    ensures { IfOk result (λ c. app_of c ≡ with_version (new_app name.entry.now)) }
{
    let command = described(alloc, name, about).bin_name(call)?;
    let command = command.display_name("caldav_server")?;
    Ok(command)
}

/// A command that says what it does, and has a version.
fn described<'a>(alloc: Global, name: &'a str, about: &'a str) -> Command<'a>
    ensures { app_of result ≡ with_version (new_app name.entry.now) }
{
    Command::new(alloc, name).about(about).version(VERSION)
}

/// A command whose help says more below its options.
pub(crate) fn with_notes<'a>(command: Command<'a>, notes: &'a str) -> Command<'a>
    ensures { app_of result ≡ app_of command.entry }
{
    command.after_help(notes)
}

/// A command with an option more.
pub(crate) fn with_option<'a>(
    command: Command<'a>,
    option: Arg<'a>,
) -> Result<Command<'a>, AllocError>
    requires { option.global ≡ false }
    ensures { IfOk result (λ c. app_of c ≡ with_rule (app_of command.entry) (rule_of option.entry)) }
{
    command.arg(option)
}

/// An option that may be given, with a value that help calls so.
pub(crate) fn free_option<'a>(
    alloc: Global,
    name: &'a str,
    value: &'a str,
    help: &'a str,
) -> Arg<'a>
    ensures rule { rule_of result ≡ free name.entry.now }
    ensures local { result.global ≡ false }
{
    Arg::new(alloc, name)
        .long(name)
        .value_name(value)
        .help(help)
}

/// An option that has to be given.
pub(crate) fn needed_option<'a>(
    alloc: Global,
    name: &'a str,
    value: &'a str,
    help: &'a str,
) -> Arg<'a>
    ensures rule { rule_of result ≡ needed name.entry.now }
    ensures local { result.global ≡ false }
{
    free_option(alloc, name, value, help).required(true)
}

/// The values of an option that is a number: the least and the greatest, and the one where the
/// option is not given.
#[derive(Clone, Copy)]
pub(crate) struct Numbers<'a> {
    pub(crate) low: u64,
    pub(crate) high: u64,
    pub(crate) other: &'a str,
}

const SESSIONS: Numbers<'static> = Numbers {
    low: 1,
    high: 16,
    other: "4",
};

const WORKERS: Numbers<'static> = Numbers {
    low: 0,
    high: 4,
    other: "2",
};

/// An option that is a number.
pub(crate) fn number_option<'a>(
    alloc: Global,
    name: &'a str,
    numbers: Numbers<'a>,
    help: &'a str,
) -> Arg<'a>
    ensures rule { rule_of result ≡ number name.entry.now numbers.entry.low numbers.entry.high numbers.entry.other.now }
    ensures local { result.global ≡ false }
{
    Arg::new(alloc, name)
        .long(name)
        .value_name("NUMBER")
        .help(help)
        .value_parser(ValueParser::unsigned(numbers.low, numbers.high))
        .default_value(numbers.other)
}

/// How many sessions there are at once: an option of `serve` and of `load`, which help describes so.
pub(crate) fn sessions_option<'a>(alloc: Global, help: &'a str) -> Arg<'a>
    ensures rule { rule_of result ≡ number (codes "sessions") 1 16 (codes "4") }
    ensures local { result.global ≡ false }
{
    number_option(alloc, "sessions", SESSIONS, help)
}

/// How many threads expand recurring events: an option of `serve` and of `load`.
pub(crate) fn workers_option<'a>(alloc: Global) -> Arg<'a>
    ensures rule { rule_of result ≡ number (codes "workers") 0 4 (codes "2") }
    ensures local { result.global ≡ false }
{
    number_option(
        alloc,
        "workers",
        WORKERS,
        "How many threads expand recurring events ahead of the queries, 0 to 4",
    )
}

/// The number that a text says, where it says one between these two, and else the other one.
pub(crate) fn number_said(text: &str, low: u64, high: u64, other: u64) -> u64
    requires { low ≤ other }
    ensures said { result ≡ number_said low high other text.now }
    ensures least { low ≤ result }
    ensures most { other ≤ high → result ≤ high }
{
    match text.parse::<u64>() {
        Ok(number) => {
            if low <= number && number <= high {
                number
            } else {
                other
            }
        }
        Err(_) => other,
    }
}

/// Whether a number is written in the one way: in digits, without a 0 in front of another digit.
pub(crate) fn is_plain(text: &str) -> bool
    ensures { IsTrue result ↔ IsPlain text.now }
{
    let octets = text.as_bytes();
    if !has_none_above_9(octets) {
        return false;
    }
    if !has_none_below_0(octets) {
        return false;
    }
    has_no_leading_zero(octets)
}

/// Whether no octet lies above the digit 9.
fn has_none_above_9(octets: &[u8]) -> bool
    ensures { IsTrue result ↔ EachIndex octets.now (λ k. slice_index octets.now k < 58) }
{
    octets.iter().all(|octet| *octet < 58)
}

/// Whether no octet lies below the digit 0.
fn has_none_below_0(octets: &[u8]) -> bool
    ensures { IsTrue result ↔ EachIndex octets.now (λ k. 47 < slice_index octets.now k) }
{
    octets.iter().all(|octet| 47 < *octet)
}

/// Whether octets are one, or some that do not begin with the digit 0.
fn has_no_leading_zero(octets: &[u8]) -> bool
    ensures { IsTrue result ↔ ((length octets.now ≡ 1) ⊎ ((0 < length octets.now) × (slice_index octets.now 0 ≢ 48))) }
{
    if octets.len() == 1 {
        return true;
    }
    !octets.is_empty() && octets[0] != b'0'
}

/// The text of an option that has one, given or not.
pub(crate) fn text_of<'a>(matches: &ArgMatches<'a>, name: &str) -> &'a str
    ensures { result.now ≡ value_text name.now matches.now }
{
    match matches.get_str(name) {
        Some(text) => text,
        None => "",
    }
}

/// Whether an option is given that has no default.
pub(crate) fn is_given(matches: &ArgMatches<'_>, name: &str) -> bool
    ensures { result ≡ is_some (first_value (found_of matches.now) name.now) }
{
    matches.get_str(name).is_some()
}

/// Why words are not taken.
pub enum Untaken {
    /// The command takes other words.
    Words,
    /// There is no memory.
    NoMemory,
}

/// Why the words were not taken.
pub(crate) fn why_untaken(error: &Error) -> Untaken
    ensures { result ≡ Untaken.Words → kind_of error.now ≢ ErrorKind.OutOfMemory }
{
    if error.kind() == ErrorKind::OutOfMemory {
        Untaken::NoMemory
    } else {
        Untaken::Words
    }
}

/// The help or the version, where the words were not taken since they ask for it.
pub(crate) fn asked_text(error: Error) -> Option<Error>
    ensures shown { IfSome result (λ text. IsShown text) }
    ensures asked { IfSome result (λ _. kind_of error ≢ ErrorKind.OutOfMemory) }
{
    match error.kind() {
        ErrorKind::DisplayHelp | ErrorKind::DisplayVersion => Some(error),
        _ => None,
    }
}
