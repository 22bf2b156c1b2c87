//! A journal that is carried over to other users: those of the old file, in whatever order, and more.
//!
//! Given: the old users and the new ones, the disk of a journal file of the old users, and a disk whose
//! file has no octet. Gives: a journal file of the new users that stands for the same changes, in their
//! order, or why there is none. Numbers of users and groups are mapped by their names. Each change is
//! asked of a book of the old users and of one of the new; nothing is written before both have accepted
//! all of them. Used by: the command that does this.
#![tactic(auto)]

mod asking;
mod carrying;
mod gone;
mod migrating;
mod renumbering;
mod writing;

pub use gone::Principal;
pub use migrating::{Migrated, migrate};
