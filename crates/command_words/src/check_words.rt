//! The words of the command `check`.
ghost use Rattle.std.specs.Prelude.{◌≡◌, codes, IfOk, IfSome, IsErrOf};
ghost use Rattle.clap.specs.Words.{app_of};
ghost use Rattle.command_words.specs.CheckWords as spec;
ghost use Rattle.command_words.specs.Options.{IsShown};

use crate::file_words::{NOTES, file_option};
use crate::options::{
    Untaken, asked_text, new_command, text_of, why_untaken, with_notes, with_option,
};
use cal_base::Word;
use clap::{Command, Error};
use std::alloc::{AllocError, Global};

const ABOUT: &str = "Tells whether the server would take a calendar file, and what it sees in it";

/// The command, as `clap` reads it.
fn check_command<'a>(alloc: Global) -> Result<Command<'a>, AllocError>
    ensures { IfOk result (λ c. app_of c ≡ spec.check) }
{
    let command = new_command(alloc, "check", "caldav_server check", ABOUT)?;
    let command = with_option(with_notes(command, NOTES), file_option(alloc))?;
    Ok(command)
}

/// The help of `check` or the version, where the words ask for it. Words that the command takes ask
/// for neither.
pub fn check_text(alloc: Global, words: &[Word]) -> Option<Error>
    ensures shown { IfSome result (λ text. IsShown text) }
    ensures untaken { IfSome result (λ _. ¬ spec.TakesCheck words.now) }
{
    let Ok(command) = check_command(alloc) else {
        return None;
    };
    match command.try_get_matches_from(words) {
        Ok(_) => None,
        Err(error) => asked_text(error),
    }
}

/// The path of the file that the words name, if the command takes them.
pub fn read_check<'a>(alloc: Global, words: &'a [Word]) -> Result<&'a str, Untaken>
    ensures taken { IfOk result (λ _. spec.TakesCheck words.now) }
    ensures said { IfOk result (λ file. file.now ≡ spec.file_path words.now) }
    ensures untaken { IsErrOf result Untaken.Words → ¬ spec.TakesCheck words.now }
{
    let Ok(command) = check_command(alloc) else {
        return Err(Untaken::NoMemory);
    };
    match command.try_get_matches_from(words) {
        Ok(matches) => Ok(text_of(&matches, "file")),
        Err(error) => Err(why_untaken(&error)),
    }
}
