//! What the commands `expand` and `check` have in common: the file, and what help says of refused ones.
ghost use Rattle.std.specs.Prelude.{◌≡◌, codes, false};
ghost use Rattle.clap.specs.Words.{rule_of};
ghost use Rattle.command_words.specs.Options.{needed};

use crate::options::needed_option;
use clap::Arg;
use std::alloc::Global;

/// What help says below the options: how refused files are told.
pub(crate) const NOTES: &str =
    "Where a file is not taken, the line on standard error says why, with the path of the file:
  not a calendar at octet P  the line that begins at octet P, counted from 0, cannot stand, or the
                             component that it begins; `head -c P FILE | wc -l` prints how many lines
                             stand before it, `tail -c +$((P + 1)) FILE | head -n 1` prints it
  not one resource: N        a calendar stores one resource a file, and this is none:
                               0  it has a METHOD
                               1  it has no event, to-do, journal entry or free-busy time
                               2  it has components of two of these kinds
                               3  a component has no UID
                               4  two components have different UIDs
                               5  two components have no RECURRENCE-ID
                               6  two components have the same RECURRENCE-ID
                               7  a TZID is not defined by a VTIMEZONE of the file
                               8  a component has an EXRULE
  date outside               a date lies before 1600 or behind 2100
  too many instances         it has more than 250,000 instances, or recurs by minutes or seconds
  too long                   it has more than 262,144 octets
";

/// The option that names the calendar file.
pub(crate) fn file_option<'a>(alloc: Global) -> Arg<'a>
    ensures rule { rule_of result ≡ needed (codes "file") }
    ensures local { result.global ≡ false }
{
    needed_option(
        alloc,
        "file",
        "FILE",
        "The calendar file, of 262,144 octets at most",
    )
}
