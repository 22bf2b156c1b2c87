//! Tests of the journal file, `cal_keeper`: what no clause says. That files have the octets that the
//! format's worked file has, that each call succeeds where there is memory, and what a stop, a failure, a
//! cut and a changed octet lead to; of a file that is written whole that it is the same as one whose
//! records were appended; of one that is carried over to other users, by `journal_migration`, what stops and
//! failures lead to; and of the file of the system that it answers as the disk in memory does, that it is
//! locked, and that it is read back.
//!
//! Given: the public calls of these crates. Gives: nothing; no crate stands on this one. The worked files are
//! written out by hand from `docs/JOURNAL.md`.
#![tactic(auto)]

#[cfg(test)]
mod cases;
#[cfg(test)]
mod damaged_files;
#[cfg(test)]
mod drafts;
#[cfg(test)]
mod groups;
#[cfg(test)]
mod migrations;
#[cfg(test)]
mod real_files;
#[cfg(test)]
mod records;
#[cfg(test)]
mod worked_files;
