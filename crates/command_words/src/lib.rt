//! The words of the commands `serve`, `load`, `expand`, `check`, `slot` and `migrate`, those that name a journal file,
//! and the texts of help.
//!
//! Given: the words behind the program's name. Gives: what their options say, or why they are not
//! taken; and the help or the version where they ask for it. Used by: the program `caldav_server`.
#![tactic(auto)]

mod check_words;
mod expand_words;
mod file_words;
mod help;
mod journal_words;
mod load_words;
mod migrate_words;
mod options;
mod range_said;
mod serve_words;
mod slot_words;

pub use check_words::{check_text, read_check};
pub use expand_words::{ExpandWords, expand_text, read_expand};
pub use help::{HELP, SCRIPT_HELP};
pub use journal_words::{journal_path, kept_users_path};
pub use load_words::{LoadWords, load_text, read_load};
pub use migrate_words::{MigrateWords, migrate_text, read_migrate};
pub use options::{Untaken, VERSION};
pub use serve_words::{ServeWords, read_kept_serve, read_serve, serve_text};
pub use slot_words::{SlotWords, read_slot, slot_text};
