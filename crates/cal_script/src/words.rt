//! The words of the command.
ghost use Rattle.std.specs.Prelude.{◌≡◌};
ghost use Rattle.std.specs.Option.{option_copied};
ghost use Rattle.cal_script.specs.ScriptEnds.{users_path};

use cal_base::{List, Word};

/// The path of the users file, where the words are `script`, `--users` and a path that is not
/// empty.
pub(crate) fn users_path(words: &List<Word>) -> Option<&Word>
    ensures { option_copied result ≡ users_path words.now }
{
    let [command, option, path] = words.as_slice() else {
        return None;
    };
    if command.as_str() == "script" && option.as_str() == "--users" && path.as_str() != "" {
        return Some(path);
    }
    None
}
