//! Steps of rules, and the table of a zone, with both bodies that find the next moment of a rule.
ghost use Rattle.std.specs.Prelude.{◌≡◌, ◌<◌, ◌≤◌, ◌*◌, All, IfOk, false};
ghost use Rattle.std.specs.Int.{IsInRange};
ghost use Rattle.cal_model.specs.Recurrence.NextPassing.{end_day, is_fine};
ghost use Rattle.cal_model.specs.Recurrence.RuleBounds.{IsWritten, IsUsable, IsDayPart};
ghost use Rattle.cal_model.specs.TimeZones.TableBounds.{IsOffset, IsPart};
ghost use Rattle.cal_model.specs.Values.LocalTimes.{moment_of_local};
ghost use Rattle.cal_model.specs.Words.Lists.{is_empty};

use cal_base::{List, NoMemory};
use cal_model::{DayPart, Freq, ReadyRule, Rule, Rules, ZonePart};
use cal_moment::Local;
use rrule_filter::DayFilter;
use rrule_step::PeriodStep;
use std::alloc::Global;
use std::io;
use std::time::Instant;
use vtimezone::make_table;

/// How many steps are taken of a rule.
const STEPS: u32 = 1000;

/// How often they are taken where they are timed; the round that took least counts.
const ROUNDS: u32 = 20;

/// A rule of a frequency alone.
fn plain(alloc: Global, freq: Freq) -> Rule
    ensures usable { IsUsable result }
    ensures freq { result.freq ≡ freq }
{
    Rule {
        freq,
        interval: 1,
        count: None,
        until: None,
        week_start: 0,
        by_month: List::new(alloc),
        by_week: List::new(alloc),
        by_year_day: List::new(alloc),
        by_month_day: List::new(alloc),
        by_day: List::new(alloc),
        by_hour: List::new(alloc),
        by_minute: List::new(alloc),
        by_second: List::new(alloc),
        by_set_pos: List::new(alloc),
    }
}

/// The moment a second later.
fn after(m: Local) -> Local
    requires written { IsWritten m }
    requires before_end { moment_of_local m < 86_400 * end_day }
    ensures { IsWritten result }
{
    if m.second < 86_399 {
        Local {
            day: m.day,
            second: m.second + 1,
        }
    } else {
        Local {
            day: m.day + 1,
            second: 0,
        }
    }
}

/// How many moments the steps of a rule that is ready find.
fn found_by<R: ReadyRule>(ready: &R, rule: &Rule, start: Local) -> u32
    requires ready { R.IsReadyFor ready.now rule.now (moment_of_local start) false }
    requires start { IsWritten start }
    requires rule { IsUsable rule.now }
    requires coarse { is_fine rule.now.freq ≡ false }
{
    let mut from = start;
    let mut count = 0u32;
    'steps: for _ in 0..STEPS {
        let Some(m) = ready.next_passing(rule, start, false, from) else {
            return count;
        };
        count = count.wrapping_add(1);
        from = after(m);
    }
    count
}

/// How many moments the steps of a rule find.
fn found<R: Rules>(body: &R, rule: &Rule, start: Local) -> u32
    requires start { IsWritten start }
    requires rule { IsUsable rule.now }
    requires coarse { is_fine rule.now.freq ≡ false }
{
    let ready = body.ready(rule, start, false);
    found_by(&ready, rule, start)
}

/// The nanoseconds of a step, in the round that took least.
fn nanoseconds<R: Rules>(rt: &HostRuntime, body: &R, rule: &Rule, start: Local) -> io::Result<u128>
    requires start { IsWritten start }
    requires rule { IsUsable rule.now }
    requires coarse { is_fine rule.now.freq ≡ false }
{
    let mut least = u128::MAX;
    for _ in 0..ROUNDS {
        let begin = Instant::now(rt)?;
        let count = found(body, rule, start);
        let spent = begin.elapsed(rt)?;
        least = least.min(spent.as_nanos() / u128::from(count.max(1)));
    }
    Ok(least)
}

/// One frequency with both bodies, from 4 March of the year 990, at nine in the morning.
fn measure_rule(rt: &HostRuntime, name: &str, freq: Freq, timed: bool) -> io::Result<()>
    requires { is_fine freq ≡ false }
{
    let start = Local {
        day: -357_875,
        second: 32_400,
    };
    measure_steps(rt, name, &plain(rt.alloc(), freq), start, timed)
}

/// One rule with both bodies, from a moment on.
fn measure_steps(
    rt: &HostRuntime,
    name: &str,
    rule: &Rule,
    start: Local,
    timed: bool,
) -> io::Result<()>
    requires start { IsWritten start }
    requires rule { IsUsable rule.now }
    requires coarse { is_fine rule.now.freq ≡ false }
{
    let plainly = found(&DayFilter, rule, start);
    let stepping = found(&PeriodStep, rule, start);
    println!(rt; "{name}: {plainly} and {stepping} moments")?;
    if timed {
        let plainly = nanoseconds(rt, &DayFilter, rule, start)?;
        let stepping = nanoseconds(rt, &PeriodStep, rule, start)?;
        println!(rt; "{name}: {plainly} and {stepping} ns a step")?;
    }
    Ok(())
}

/// A rule of one Sunday of a month each year.
fn yearly(alloc: Global, month: u8, part: DayPart) -> Result<Rule, NoMemory>
    requires month { IsInRange 1 12 month }
    requires part { IsDayPart part }
    ensures usable { IfOk result IsUsable }
    ensures coarse { IfOk result (λ rule. is_fine rule.freq ≡ false) }
{
    let by_month = List::of(alloc, &[month])?;
    let by_day = List::of(alloc, &[part])?;
    let mut rule = plain(alloc, Freq::Yearly);
    rule.by_month = by_month;
    rule.by_day = by_day;
    Ok(rule)
}

/// A part of a zone from the start of 1601 on, at two in the morning.
fn part(alloc: Global, from: i32, to: i32, rule: Rule) -> Result<ZonePart, NoMemory>
    requires from { IsOffset from }
    requires to { IsOffset to }
    requires rule { IsUsable rule }
    requires coarse { is_fine rule.freq ≡ false }
    ensures { IfOk result IsPart }
{
    let mut rules = List::new(alloc);
    rules.push(rule)?;
    Ok(ZonePart {
        start: Local {
            day: -134_774,
            second: 7200,
        },
        from,
        to,
        rules,
        dates: List::new(alloc),
    })
}

/// New York's daylight saving of today, as if from 1601 on: as some calendars have it.
fn new_york(alloc: Global) -> Result<List<ZonePart>, NoMemory>
    ensures some { IfOk result (λ parts. is_empty parts ≡ false) }
    ensures parts { IfOk result (All IsPart) }
{
    let march = yearly(
        alloc,
        3,
        DayPart {
            ordinal: 2,
            weekday: 6,
        },
    )?;
    let daylight = part(alloc, -18_000, -14_400, march)?;
    let november = yearly(
        alloc,
        11,
        DayPart {
            ordinal: 1,
            weekday: 6,
        },
    )?;
    let standard = part(alloc, -14_400, -18_000, november)?;
    let mut parts = List::new(alloc);
    parts.push(daylight)?;
    parts.push(standard)?;
    Ok(parts)
}

/// How many onsets the table of a zone has.
fn onsets<R: Rules>(alloc: Global, body: &R, parts: &List<ZonePart>) -> usize
    requires some { is_empty parts.now ≡ false }
    requires parts { All IsPart parts.now }
{
    match make_table(alloc, b"Zone", parts, 50_000, body) {
        Ok((table, _)) => table.onsets.len(),
        Err(_) => 0,
    }
}

/// The microseconds of a table, in the round that took least.
fn microseconds<R: Rules>(rt: &HostRuntime, body: &R, parts: &List<ZonePart>) -> io::Result<u128>
    requires some { is_empty parts.now ≡ false }
    requires parts { All IsPart parts.now }
{
    let mut least = u128::MAX;
    for _ in 0..ROUNDS {
        let begin = Instant::now(rt)?;
        let count = onsets(rt.alloc(), body, parts);
        let spent = begin.elapsed(rt)?;
        if 0 < count {
            least = least.min(spent.as_micros());
        }
    }
    Ok(least)
}

/// The table of that zone with both bodies.
fn measure_zone(rt: &HostRuntime, timed: bool) -> io::Result<()> {
    let Ok(parts) = new_york(rt.alloc()) else {
        return println!(rt; "a zone from 1601: no memory");
    };
    let plainly = onsets(rt.alloc(), &DayFilter, &parts);
    let stepping = onsets(rt.alloc(), &PeriodStep, &parts);
    println!(rt; "a zone from 1601: {plainly} and {stepping} onsets")?;
    if timed {
        let plainly = microseconds(rt, &DayFilter, &parts)?;
        let stepping = microseconds(rt, &PeriodStep, &parts)?;
        println!(rt; "a zone from 1601: {plainly} and {stepping} us a table")?;
    }
    Ok(())
}

/// Prints for each frequency how many moments a thousand steps find with `DayFilter` and with
/// `PeriodStep`, and the onsets that a zone from 1601 has; where it is timed also the nanoseconds of a
/// step, and the microseconds of the zone's table.
pub fn measure(rt: &HostRuntime, timed: bool) -> io::Result<()> {
    measure_rule(rt, "HOURLY", Freq::Hourly, timed)?;
    measure_rule(rt, "DAILY", Freq::Daily, timed)?;
    measure_rule(rt, "WEEKLY", Freq::Weekly, timed)?;
    measure_rule(rt, "MONTHLY", Freq::Monthly, timed)?;
    measure_rule(rt, "YEARLY", Freq::Yearly, timed)?;
    measure_zone(rt, timed)
}
