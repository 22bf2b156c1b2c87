//! The range that two words state, and the options that have them.
ghost use Rattle.std.specs.Prelude.{◌≡◌, codes, false};
ghost use Rattle.clap.specs.Words.{rule_of};
ghost use Rattle.command_words.specs.Options.{needed};
ghost use Rattle.command_words.specs.RangeSaid as spec;

use crate::options::needed_option;
use cal_model::{FIRST_DATE, LAST_DATE, Range, range_between, utc_of};
use clap::Arg;
use std::alloc::Global;

/// The option that says where a range begins.
pub(crate) fn from_option<'a>(alloc: Global) -> Arg<'a>
    ensures rule { rule_of result ≡ needed (codes "from") }
    ensures local { result.global ≡ false }
{
    needed_option(
        alloc,
        "from",
        "MOMENT",
        "From when on, in UTC, as 20250301T000000Z",
    )
}

/// The option that says where a range ends.
pub(crate) fn to_option<'a>(alloc: Global) -> Arg<'a>
    ensures rule { rule_of result ≡ needed (codes "to") }
    ensures local { result.global ≡ false }
{
    needed_option(
        alloc,
        "to",
        "MOMENT",
        "Up to when, in UTC, as 20250401T000000Z",
    )
}

/// The range from the moment that one word says up to the one that another says. Each is a DATE-TIME in
/// UTC of the dates that are served, and the first lies before the second.
pub(crate) fn range_said(from: &str, to: &str) -> Option<Range>
    ensures { result ≡ spec.range_said from.now to.now }
{
    let start = moment_said(from)?;
    let end = moment_said(to)?;
    range_between(start, end)
}

/// The moment that a word says, in seconds since 1970, if it is one of the dates that are served.
fn moment_said(text: &str) -> Option<i64>
    ensures { result ≡ spec.moment_said text.now }
{
    let moment = utc_of(text.as_bytes())?;
    served(moment)
}

/// A moment, if it is one of the dates that are served.
fn served(moment: i64) -> Option<i64>
    ensures { result ≡ spec.served moment }
{
    if FIRST_DATE <= moment && moment <= LAST_DATE {
        Some(moment)
    } else {
        None
    }
}
