//! The runs of one calendar: where so many seconds are free of them, and how far.

ghost use Rattle.std.specs.Prelude.{◌≡◌, ◌+ℤ◌, ◌≤ℤ◌, ◌<ℤ◌, All, filter, int_le, pos, true};
ghost use Rattle.slot_finder.specs.FreeTimes.{AreInOrder};
ghost use Rattle.slot_finder.specs.Fits as spec;

use freebusy::Run;

/// Whether there are so many seconds from one moment up to another.
pub(crate) fn has_room(from: i64, to: i64, seconds: u32) -> bool
    ensures { result ≡ int_le (from +ℤ pos seconds) to }
{
    from as i128 + seconds as i128 <= to as i128
}

/// The runs that end behind a moment. They are found by a search.
fn runs_behind(runs: &[Run], at: i64) -> &[Run]
    requires { AreInOrder runs.now }
    ensures { result.now ≡ filter (spec.ends_behind at) runs.now }
{
    let place = runs.partition_point(|run| run.end.0 <= at);
    let (_, behind) = runs.split_at(place);
    behind
}

/// The same, found at once where they begin at a place that is guessed.
fn runs_at_guess(runs: &[Run], at: i64, guess: usize) -> &[Run]
    requires { AreInOrder runs.now }
    ensures { result.now ≡ filter (spec.ends_behind at) runs.now }
{
    if runs.len() < guess {
        return runs_behind(runs, at);
    }
    let (before, behind) = runs.split_at(guess);
    if !are_over(before, at) || !end_behind(behind, at) {
        return runs_behind(runs, at);
    }
    behind
}

/// Whether some runs, in order, have all ended by a moment.
fn are_over(runs: &[Run], at: i64) -> bool
    requires { AreInOrder runs.now }
    ensures { result ≡ true → All (λ run. run.end.0 ≤ℤ at) runs.now }
{
    match runs.split_last() {
        Some((last, _rest)) => last.end.0 <= at,
        None => true,
    }
}

/// Whether some runs, in order, all end behind a moment.
fn end_behind(runs: &[Run], at: i64) -> bool
    requires { AreInOrder runs.now }
    ensures { result ≡ true → All (λ run. at <ℤ run.end.0) runs.now }
{
    match runs.split_first() {
        Some((first, _behind)) => at < first.end.0,
        None => true,
    }
}

/// The first moment, from one on, behind which so many seconds are free of some runs. The place in them
/// that is come to is noted, where a later search begins to look.
pub(crate) fn first_fit(runs: &[Run], at: i64, seconds: u32, guess: &mut usize) -> i64
    requires { AreInOrder runs.now }
    ensures { spec.IsFirstFit runs.now seconds at result }
{
    let (found, left) = pass_runs(runs_at_guess(runs, at, *guess), at, seconds);
    *guess = runs.len().saturating_sub(left.len());
    found
}

/// The same of runs that end behind the moment, with those that are not passed.
fn pass_runs(runs: &[Run], at: i64, seconds: u32) -> (i64, &[Run])
    requires order { AreInOrder runs.now }
    requires ahead { All (λ run. at <ℤ run.end.0) runs.now }
    ensures { spec.IsFirstFit runs.now seconds at result.0 }
{
    let mut found = at;
    let mut rest = runs;
    'runs: while let Some((run, behind)) = rest.split_first() {
        if has_room(found, run.start.0, seconds) {
            return (found, rest);
        }
        found = run.end.0;
        rest = behind;
    }
    (found, rest)
}

/// The last moment, up to a limit, before which the seconds from one on are free of some runs.
pub(crate) fn open_until(runs: &[Run], at: i64, limit: i64) -> i64
    requires { AreInOrder runs.now }
    ensures { spec.IsOpenUntil runs.now at limit result }
{
    let Some((run, _)) = runs_behind(runs, at).split_first() else {
        return limit;
    };
    run.start.0.min(limit)
}
