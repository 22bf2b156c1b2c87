//! The moments of a rule on one day: they stand at the same times of every day that passes (RFC 5545,
//! 3.3.10).
ghost use Rattle.std.specs.Prelude.{◌≡◌, ◌+◌, ◌*◌, ◌<◌, ◌≤◌, ◌++◌, true, false, All, OnOk};
ghost use Rattle.cal_moment.specs.Calendar.{day_of_moment};
ghost use Rattle.cal_model.specs.declared.rule.Freq.TheVariants.{Hourly};
ghost use Rattle.cal_model.specs.Recurrence.NextPassing.{end_day, is_fine};
ghost use Rattle.cal_model.specs.Recurrence.RuleBounds.{IsWritten};
ghost use Rattle.cal_model.specs.Recurrence.Passing.{passes};
ghost use Rattle.cal_model.specs.Values.LocalTimes.{moment_of_local};
ghost use Rattle.cal_model.specs.Walks.Clocks.{reading_by, IsClock};
ghost use Rattle.cal_model.specs.Walks.DayTimes.{times_of_day};
ghost use Rattle.cal_model.specs.Walks.KeptMoments.{found_between, if_there, moments_of};

use crate::rule::Rule;
use crate::walk::clock::Clock;
use cal_base::{List, NoMemory};
use cal_moment::Local;

/// Puts a moment behind the others, if it exists.
pub fn keep_if_there(clock: &Clock, m: Local, found: &mut List<Local>) -> Result<(), NoMemory>
    requires clock { IsClock clock.now }
    requires written { IsWritten m }
    ensures found { OnOk result (moments_of found.new ≡ moments_of found.old ++ if_there (reading_by clock.now) (moment_of_local m)) }
    ensures written { OnOk result (All (λ l. IsWritten l) found.old → All (λ l. IsWritten l) found.new) }
{
    if clock.exists(m) {
        found.push(m)?;
    }
    Ok(())
}

/// The first second of the next day.
pub fn next_midnight(m: Local) -> Local
    requires written { IsWritten m }
    requires before_end { moment_of_local m < 86_400 * end_day }
    ensures written { IsWritten result }
    ensures value { moment_of_local result ≡ 86_400 * (day_of_moment (moment_of_local m) + 1) }
{
    Local {
        day: m.day + 1,
        second: 0,
    }
}

/// Puts a moment that passes and those behind it on its day behind the others, as far as they exist. The
/// day has the times of every day that passes, in order.
pub fn keep_day(
    rule: &Rule,
    start: Local,
    clock: &Clock,
    times: &[u32],
    m: Local,
    found: &mut List<Local>,
) -> Result<(), NoMemory>
    requires clock { IsClock clock.now }
    requires coarse { is_fine rule.now.freq ≡ false }
    requires whole { rule.now.freq ≡ Hourly → ⊥ }
    requires times { times.now ≡ times_of_day rule.now (moment_of_local start) (reading_by clock.now).dated }
    requires written { IsWritten m }
    requires passing { passes rule.now (moment_of_local start) (reading_by clock.now).dated (moment_of_local m) ≡ true }
    ensures found { OnOk result (moments_of found.new ≡ moments_of found.old ++ found_between rule.now (moment_of_local start) (reading_by clock.now) (moment_of_local m) (86_400 * (day_of_moment (moment_of_local m) + 1))) }
    ensures written { OnOk result (All (λ l. IsWritten l) found.old → All (λ l. IsWritten l) found.new) }
{
    let _ = rule;
    let _ = start;
    let mut rest = times;
    'times: while let Some((second, behind)) = rest.split_first() {
        if *second >= m.second {
            let later = Local {
                day: m.day,
                second: *second,
            };
            keep_if_there(clock, later, found)?;
        }
        rest = behind;
    }
    Ok(())
}
