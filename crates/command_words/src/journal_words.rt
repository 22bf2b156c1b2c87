//! The words that name a journal file.
ghost use Rattle.std.specs.Prelude.{◌≡◌, List};
ghost use Rattle.std.specs.Option.{option_copied};
ghost use Rattle.command_words.specs.JournalWords as spec;

use cal_base::Word;

/// The path of the journal file that the words name: the first of them that is `--journal` names the
/// word behind it, or no path where there is none, and the first that is `--journal=PATH` that path.
/// `None` where no word is either.
pub fn journal_path(words: &[Word]) -> Option<&str>
    ensures { option_copied result ≡ spec.journal_path words.now }
{
    let mut rest = words;
    'words: while let Some((word, behind)) = rest.split_first() {
        let named = path_named(word.as_str(), behind);
        if named.is_some() {
            return named;
        }
        rest = behind;
    }
    None
}

/// The path that a word names, in front of others.
fn path_named<'a>(word: &'a str, behind: &'a [Word]) -> Option<&'a str>
    ensures { option_copied result ≡ spec.path_named word.now behind.now }
{
    if word == "--journal" {
        return Some(first_or_empty(behind));
    }
    word.strip_prefix("--journal=")
}

/// The first word, or the empty text.
fn first_or_empty(words: &[Word]) -> &str
    ensures { result.now ≡ spec.first_or_empty words.now }
{
    match words.split_first() {
        Some((word, _)) => word.as_str(),
        None => "",
    }
}

/// The path of the users file, where the words are those of a script with a journal file: `script`,
/// `--users`, that path, `--journal` and the path of the journal file, neither of them empty.
pub fn kept_users_path(words: &[Word]) -> Option<&str>
    ensures { option_copied result ≡ spec.kept_users_path words.now }
{
    let [command, users, path, journal, file] = words else {
        return None;
    };
    if command.as_str() == "script"
        && users.as_str() == "--users"
        && path.as_str() != ""
        && journal.as_str() == "--journal"
        && file.as_str() != ""
    {
        return Some(path.as_str());
    }
    None
}
