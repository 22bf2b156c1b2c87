//! The words of the command `expand`.
ghost use Rattle.std.specs.Prelude.{◌≡◌, false, codes, IfOk, IfSome, IsErrOf};
ghost use Rattle.clap.specs.Words.{app_of, first_value, found_of, rule_of};
ghost use Rattle.command_words.specs.ExpandSaid.{IsSaid};
ghost use Rattle.command_words.specs.ExpandWords as spec;
ghost use Rattle.command_words.specs.Options.{IsShown, needed, value_text};
ghost use Rattle.command_words.specs.RangeSaid.{range_said};

use crate::file_words::{NOTES, file_option};
use crate::options::{
    Untaken, asked_text, needed_option, new_command, text_of, why_untaken, with_notes, with_option,
};
use crate::range_said::{from_option, range_said, to_option};
use cal_base::Word;
use cal_model::Range;
use clap::{Arg, ArgMatches, Command, Error};
use std::alloc::{AllocError, Global};

const ABOUT: &str =
    "Lists the instances of a calendar file in a range of time, as the server sees them";

/// What the words of `expand` say.
#[derive(Clone, Copy)]
pub struct ExpandWords<'a> {
    /// The path of the calendar file.
    pub file: &'a str,
    /// The path of the file whose time zone is that of floating times, if one is given.
    pub zone: Option<&'a str>,
    /// The range.
    pub range: Range,
}

/// The command, as `clap` reads it.
fn expand_command<'a>(alloc: Global) -> Result<Command<'a>, AllocError>
    ensures { IfOk result (λ c. app_of c ≡ spec.expand) }
{
    let command = new_command(alloc, "expand", "caldav_server expand", ABOUT)?;
    let command = with_option(with_notes(command, NOTES), file_option(alloc))?;
    let command = with_option(command, from_option(alloc))?;
    let command = with_option(command, to_option(alloc))?;
    let command = with_option(command, zone_option(alloc))?;
    Ok(command)
}

fn zone_option<'a>(alloc: Global) -> Arg<'a>
    ensures rule { rule_of result ≡ spec.given (codes "zone") }
    ensures local { result.global ≡ false }
{
    Arg::new(alloc, "zone").long("zone").value_name("FILE").help(
        "A calendar file with the time zone of floating times and dates; UTC where none is given",
    )
}

/// The help of `expand` or the version, where the words ask for it. Words that the command takes ask
/// for neither.
pub fn expand_text(alloc: Global, words: &[Word]) -> Option<Error>
    ensures shown { IfSome result (λ text. IsShown text) }
    ensures untaken { IfSome result (λ _. ¬ spec.TakesExpand words.now) }
{
    let Ok(command) = expand_command(alloc) else {
        return None;
    };
    match command.try_get_matches_from(words) {
        Ok(_) => None,
        Err(error) => asked_text(error),
    }
}

/// What the words say, if the command takes them.
pub fn read_expand<'a>(alloc: Global, words: &'a [Word]) -> Result<ExpandWords<'a>, Untaken>
    ensures taken { IfOk result (λ _. spec.TakesExpand words.now) }
    ensures said { IfOk result (λ w. IsSaid (spec.file_path words.now) (spec.zone_path words.now) (spec.range_of_words words.now) w) }
    ensures untaken { IsErrOf result Untaken.Words → ¬ spec.TakesExpand words.now }
{
    let Ok(command) = expand_command(alloc) else {
        return Err(Untaken::NoMemory);
    };
    match command.try_get_matches_from(words) {
        Ok(matches) => chosen(&matches),
        Err(error) => Err(why_untaken(&error)),
    }
}

/// What the words say that the library takes, if their moments state a range.
fn chosen<'a>(matches: &ArgMatches<'a>) -> Result<ExpandWords<'a>, Untaken>
    ensures said { IfOk result (λ w. IsSaid (value_text (codes "file") matches.now) (first_value (found_of matches.now) (codes "zone")) (range_said (value_text (codes "from") matches.now) (value_text (codes "to") matches.now)) w) }
    ensures refused { IsErrOf result Untaken.Words → range_said (value_text (codes "from") matches.now) (value_text (codes "to") matches.now) ≡ None }
{
    match range_said(text_of(matches, "from"), text_of(matches, "to")) {
        Some(range) => Ok(ExpandWords {
            file: text_of(matches, "file"),
            zone: matches.get_str("zone"),
            range,
        }),
        None => Err(Untaken::Words),
    }
}
