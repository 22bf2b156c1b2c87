//! The words of the command `migrate`.
ghost use Rattle.std.specs.Prelude.{◌≡◌, codes, false, true, IfOk, IfSome, IsErrOf};
ghost use Rattle.clap.specs.Words.{app_of, rule_of};
ghost use Rattle.command_words.specs.MigrateSaid.{AreChosen, IsFoundIn, IsSaidBy};
ghost use Rattle.command_words.specs.MigrateWords as spec;
ghost use Rattle.command_words.specs.Options.{IsShown, needed};

use crate::options::{
    Untaken, asked_text, needed_option, new_command, text_of, why_untaken, with_notes, with_option,
};
use cal_base::Word;
use clap::{Arg, ArgMatches, Command, Error};
use std::alloc::{AllocError, Global};

const ABOUT: &str = "Writes the journal of some users anew for others, whom these are all among";

/// What help says below the options.
const NOTES: &str =
    "Numbers of users and groups are mapped by their names: whoever is in the old users file, and each
group of it, has to be in the new one, in whatever order. The old journal is only read, and the new one
has the same changes. It must not be there yet, and is a journal only once it is whole.

  caldav_server migrate --users users --journal journal --new-users users.new --to journal.new

Each is to have what belongs to it: start the server with the new users file and the new journal.
";

/// What the words of `migrate` say.
#[derive(Drop)]
pub struct MigrateWords<'a> {
    /// The path of the old users file.
    pub users: &'a str,
    /// The path of the old journal file.
    pub journal: &'a str,
    /// The path of the new users file.
    pub new_users: &'a str,
    /// The path of the new journal file.
    pub to: &'a str,
}

/// The command, as `clap` reads it.
fn migrate_command<'a>(alloc: Global) -> Result<Command<'a>, AllocError>
    ensures { IfOk result (λ c. app_of c ≡ spec.migrate) }
{
    let command = new_command(alloc, "migrate", "caldav_server migrate", ABOUT)?;
    let command = with_option(with_notes(command, NOTES), users_option(alloc))?;
    let command = with_option(command, journal_option(alloc))?;
    let command = with_option(command, new_users_option(alloc))?;
    let command = with_option(command, to_option(alloc))?;
    Ok(command)
}

fn users_option<'a>(alloc: Global) -> Arg<'a>
    ensures rule { rule_of result ≡ needed (codes "users") }
    ensures local { result.global ≡ false }
{
    needed_option(alloc, "users", "FILE", "The users file of the old journal")
}

fn journal_option<'a>(alloc: Global) -> Arg<'a>
    ensures rule { rule_of result ≡ needed (codes "journal") }
    ensures local { result.global ≡ false }
{
    needed_option(
        alloc,
        "journal",
        "FILE",
        "The old journal, which is only read",
    )
}

fn new_users_option<'a>(alloc: Global) -> Arg<'a>
    ensures rule { rule_of result ≡ needed (codes "new-users") }
    ensures local { result.global ≡ false }
{
    needed_option(
        alloc,
        "new-users",
        "FILE",
        "The users file of the new journal",
    )
}

fn to_option<'a>(alloc: Global) -> Arg<'a>
    ensures rule { rule_of result ≡ needed (codes "to") }
    ensures local { result.global ≡ false }
{
    needed_option(
        alloc,
        "to",
        "FILE",
        "The new journal, which must not be there yet",
    )
}

/// The help of `migrate` or the version, where the words ask for it. Words that the command takes ask for
/// neither.
pub fn migrate_text(alloc: Global, words: &[Word]) -> Option<Error>
    ensures shown { IfSome result (λ text. IsShown text) }
    ensures untaken { IfSome result (λ _. ¬ spec.TakesMigrate words.now) }
{
    let Ok(command) = migrate_command(alloc) else {
        return None;
    };
    match command.try_get_matches_from(words) {
        Ok(_) => None,
        Err(error) => asked_text(error),
    }
}

/// What the words say, if the command takes them.
pub fn read_migrate<'a>(alloc: Global, words: &'a [Word]) -> Result<MigrateWords<'a>, Untaken>
    ensures taken { IfOk result (λ _. spec.TakesMigrate words.now) }
    ensures said { IfOk result (IsSaidBy words.now) }
    ensures untaken { IsErrOf result Untaken.Words → ¬ spec.TakesMigrate words.now }
{
    let Ok(command) = migrate_command(alloc) else {
        return Err(Untaken::NoMemory);
    };
    match command.try_get_matches_from(words) {
        Ok(matches) => chosen(&matches),
        Err(error) => Err(why_untaken(&error)),
    }
}

/// What the words say that the library takes, if the paths can be those of four files.
fn chosen<'a>(matches: &ArgMatches<'a>) -> Result<MigrateWords<'a>, Untaken>
    ensures chosen { IfOk result (λ _. AreChosen matches.now) }
    ensures said { IfOk result (IsFoundIn matches.now) }
    ensures refused { IsErrOf result Untaken.Words → ¬ AreChosen matches.now }
    ensures memory { ¬ IsErrOf result Untaken.NoMemory }
{
    let users = text_of(matches, "users");
    let journal = text_of(matches, "journal");
    let new_users = text_of(matches, "new-users");
    let to = text_of(matches, "to");
    if !are_paths(users, journal, new_users, to) {
        return Err(Untaken::Words);
    }
    Ok(MigrateWords {
        users,
        journal,
        new_users,
        to,
    })
}

/// Whether none of the paths is empty, and the new journal is not written at the path of the old one.
fn are_paths(users: &str, journal: &str, new_users: &str, to: &str) -> bool
    ensures { result ≡ spec.are_paths users.now journal.now new_users.now to.now }
{
    users != "" && journal != "" && new_users != "" && to != "" && to != journal
}
