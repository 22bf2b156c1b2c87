//! The moments of rules: the examples of RFC 5545, 3.8.5.3, and the two bodies side by side.
ghost use Rattle.std.specs.Prelude.{◌≡◌, ◌<◌, ◌≤◌, false, true, IfSome};
ghost use Rattle.cal_model.specs.Recurrence.NextPassing.{is_fine};
ghost use Rattle.cal_model.specs.Recurrence.RuleBounds.{IsWritten, IsUsable};
ghost use Rattle.cal_model.specs.Values.LocalTimes.{moment_of_local};

use crate::rule_cases::{NONE, Parts, after, moment, rule_of};
use cal_model::{Freq, ReadyRule, Rule, Rules};
use cal_moment::Local;
use rrule_filter::DayFilter;
use rrule_step::PeriodStep;
use std::alloc::Global;
use std::process::Abort;
use std::rt::HostRuntime;

/// The first moments of a rule from its start on are those of these days, at the start's time.
fn gives<R: ReadyRule>(
    rt: &impl Abort,
    ready: &R,
    rule: &Rule,
    start: Local,
    days: &[(i32, u8, u8)],
)
    requires ready { R.IsReadyFor ready.now rule.now (moment_of_local start) false }
    requires start { IsWritten start }
    requires rule { IsUsable rule.now }
    requires coarse { is_fine rule.now.freq ≡ false }
{
    let mut from = start;
    'days: for date in days {
        let wanted = moment(*date, 32_400);
        let found = ready.next_passing(rule, start, false, from);
        let day = from.day;
        assert!(rt; found == wanted, "from day {day} on");
        if let Some(m) = found {
            from = after(m);
        }
    }
}

/// Both bodies give those days.
fn both_give(rt: &impl Abort, rule: &Rule, start: (i32, u8, u8), days: &[(i32, u8, u8)])
    requires rule { IsUsable rule.now }
    requires coarse { is_fine rule.now.freq ≡ false }
{
    if let Some(start) = moment(start, 32_400) {
        let plain = DayFilter.ready(rule, start, false);
        gives(rt, &plain, rule, start, days);
        let fast = PeriodStep.ready(rule, start, false);
        gives(rt, &fast, rule, start, days);
    }
}

/// An example of RFC 5545, 3.8.5.3, at nine in the morning.
struct Example {
    freq: Freq,
    interval: u32,
    week_start: u8,
    parts: Parts,
    start: (i32, u8, u8),
    days: &'static [(i32, u8, u8)],
}

/// Those that tell the parts apart.
const EXAMPLES: [Example; 14] = [
    // every other day
    Example {
        freq: Freq::Daily,
        interval: 2,
        week_start: 0,
        parts: NONE,
        start: (1997, 9, 2),
        days: &[(1997, 9, 2), (1997, 9, 4), (1997, 9, 6)],
    },
    // every other week on Tuesday and Sunday, where weeks begin on Monday
    Example {
        freq: Freq::Weekly,
        interval: 2,
        week_start: 0,
        parts: Parts {
            days: &[(0, 1), (0, 6)],
            ..NONE
        },
        start: (1997, 8, 5),
        days: &[(1997, 8, 5), (1997, 8, 10), (1997, 8, 19), (1997, 8, 24)],
    },
    // and where they begin on Sunday
    Example {
        freq: Freq::Weekly,
        interval: 2,
        week_start: 6,
        parts: Parts {
            days: &[(0, 1), (0, 6)],
            ..NONE
        },
        start: (1997, 8, 5),
        days: &[(1997, 8, 5), (1997, 8, 17), (1997, 8, 19), (1997, 8, 31)],
    },
    // the second-to-last Monday of the month
    Example {
        freq: Freq::Monthly,
        interval: 1,
        week_start: 0,
        parts: Parts {
            days: &[(-2, 0)],
            ..NONE
        },
        start: (1997, 9, 22),
        days: &[
            (1997, 9, 22),
            (1997, 10, 20),
            (1997, 11, 17),
            (1997, 12, 22),
            (1998, 1, 19),
            (1998, 2, 16),
        ],
    },
    // the third-to-last day of the month
    Example {
        freq: Freq::Monthly,
        interval: 1,
        week_start: 0,
        parts: Parts {
            month_days: &[-3],
            ..NONE
        },
        start: (1997, 9, 28),
        days: &[
            (1997, 9, 28),
            (1997, 10, 29),
            (1997, 11, 28),
            (1997, 12, 29),
            (1998, 1, 29),
            (1998, 2, 26),
        ],
    },
    // every Friday the 13th
    Example {
        freq: Freq::Monthly,
        interval: 1,
        week_start: 0,
        parts: Parts {
            days: &[(0, 4)],
            month_days: &[13],
            ..NONE
        },
        start: (1997, 9, 2),
        days: &[
            (1998, 2, 13),
            (1998, 3, 13),
            (1998, 11, 13),
            (1999, 8, 13),
            (2000, 10, 13),
        ],
    },
    // the 10th to the 15th of every eighteenth month
    Example {
        freq: Freq::Monthly,
        interval: 18,
        week_start: 0,
        parts: Parts {
            month_days: &[10, 11, 12, 13, 14, 15],
            ..NONE
        },
        start: (1997, 9, 10),
        days: &[
            (1997, 9, 10),
            (1997, 9, 11),
            (1997, 9, 12),
            (1997, 9, 13),
            (1997, 9, 14),
            (1997, 9, 15),
            (1999, 3, 10),
        ],
    },
    // the 15th and the 30th, which February lacks
    Example {
        freq: Freq::Monthly,
        interval: 1,
        week_start: 0,
        parts: Parts {
            month_days: &[15, 30],
            ..NONE
        },
        start: (2007, 1, 15),
        days: &[
            (2007, 1, 15),
            (2007, 1, 30),
            (2007, 2, 15),
            (2007, 3, 15),
            (2007, 3, 30),
        ],
    },
    // June and July of each year
    Example {
        freq: Freq::Yearly,
        interval: 1,
        week_start: 0,
        parts: Parts {
            months: &[6, 7],
            ..NONE
        },
        start: (1997, 6, 10),
        days: &[(1997, 6, 10), (1997, 7, 10), (1998, 6, 10), (1998, 7, 10)],
    },
    // the 1st, the 100th and the 200th day of every third year
    Example {
        freq: Freq::Yearly,
        interval: 3,
        week_start: 0,
        parts: Parts {
            year_days: &[1, 100, 200],
            ..NONE
        },
        start: (1997, 1, 1),
        days: &[
            (1997, 1, 1),
            (1997, 4, 10),
            (1997, 7, 19),
            (2000, 1, 1),
            (2000, 4, 9),
            (2000, 7, 18),
            (2003, 1, 1),
        ],
    },
    // the 20th Monday of the year
    Example {
        freq: Freq::Yearly,
        interval: 1,
        week_start: 0,
        parts: Parts {
            days: &[(20, 0)],
            ..NONE
        },
        start: (1997, 5, 19),
        days: &[(1997, 5, 19), (1998, 5, 18), (1999, 5, 17)],
    },
    // Monday of week 20
    Example {
        freq: Freq::Yearly,
        interval: 1,
        week_start: 0,
        parts: Parts {
            weeks: &[20],
            days: &[(0, 0)],
            ..NONE
        },
        start: (1997, 5, 12),
        days: &[(1997, 5, 12), (1998, 5, 11), (1999, 5, 17)],
    },
    // each Thursday in March
    Example {
        freq: Freq::Yearly,
        interval: 1,
        week_start: 0,
        parts: Parts {
            months: &[3],
            days: &[(0, 3)],
            ..NONE
        },
        start: (1997, 3, 13),
        days: &[
            (1997, 3, 13),
            (1997, 3, 20),
            (1997, 3, 27),
            (1998, 3, 5),
            (1998, 3, 12),
        ],
    },
    // the election day of the United States
    Example {
        freq: Freq::Yearly,
        interval: 4,
        week_start: 0,
        parts: Parts {
            months: &[11],
            days: &[(0, 1)],
            month_days: &[2, 3, 4, 5, 6, 7, 8],
            ..NONE
        },
        start: (1996, 11, 5),
        days: &[(1996, 11, 5), (2000, 11, 7), (2004, 11, 2)],
    },
];

/// Whether a frequency is one that is served.
fn is_coarse(freq: Freq) -> bool
    ensures { result ≡ true → is_fine freq ≡ false }
{
    match freq {
        Freq::Secondly | Freq::Minutely => false,
        _ => true,
    }
}

/// Both bodies find the days of an example.
fn is_found(rt: &impl Abort, alloc: Global, example: &Example) {
    if 0 < example.interval && example.week_start < 7 && is_coarse(example.freq) {
        let rule = rule_of(
            alloc,
            example.freq,
            example.interval,
            example.week_start,
            example.parts,
        );
        both_give(rt, &rule, example.start, example.days);
        drop(rule);
    } else {
        assert!(rt; false);
    }
}

#[test]
fn examples_of_the_standard(rt: HostRuntime) {
    for example in EXAMPLES.iter() {
        is_found(&rt, rt.alloc(), example);
    }
}

/// Parts with negative numbers, ordinals, week 53, leap days and times of the day.
const PARTS: [Parts; 14] = [
    NONE,
    Parts {
        months: &[2],
        ..NONE
    },
    Parts {
        months: &[2],
        month_days: &[30],
        ..NONE
    },
    Parts {
        months: &[2],
        month_days: &[29],
        ..NONE
    },
    Parts {
        month_days: &[-1, 31],
        ..NONE
    },
    Parts {
        year_days: &[-1, 366, 60],
        ..NONE
    },
    Parts {
        days: &[(-1, 4), (2, 0)],
        ..NONE
    },
    Parts {
        months: &[3, 10],
        days: &[(-1, 6)],
        ..NONE
    },
    Parts {
        weeks: &[53, -1],
        ..NONE
    },
    Parts {
        weeks: &[1],
        days: &[(0, 6)],
        ..NONE
    },
    Parts {
        days: &[(53, 3), (-53, 0)],
        ..NONE
    },
    Parts {
        hours: &[23, 0],
        minutes: &[59, 0],
        ..NONE
    },
    Parts {
        months: &[12, 1],
        hours: &[0],
        ..NONE
    },
    Parts {
        days: &[(0, 5)],
        month_days: &[1, 8, -8],
        minutes: &[30],
        ..NONE
    },
];

/// Parts whose lists are long, with numbers that stand there twice, or that only some periods have.
const LONG_PARTS: [Parts; 6] = [
    Parts {
        month_days: &[
            31, 30, 29, 28, -28, -29, -30, -31, 1, 1, 31, -1, -31, 15, 15, 15, 2, 3, 5, 7, 11, 13,
        ],
        ..NONE
    },
    Parts {
        year_days: &[
            366, -366, 365, -365, 60, -60, 59, -307, 1, 1, -1, 32, 61, 91, 92, 121, 152, 182, 213,
            244, 274, 305, 335, 336, -336, 100, 200, 300, 100, 200, 300,
        ],
        ..NONE
    },
    Parts {
        days: &[
            (5, 0),
            (-5, 0),
            (1, 1),
            (1, 1),
            (-1, 1),
            (2, 2),
            (4, 2),
            (-4, 2),
            (0, 3),
            (0, 3),
            (3, 3),
            (53, 4),
            (-53, 4),
            (52, 4),
            (-52, 5),
            (6, 5),
            (-6, 6),
            (0, 6),
            (10, 6),
            (27, 0),
            (-27, 0),
        ],
        ..NONE
    },
    Parts {
        months: &[2, 12, 1, 2, 12, 1, 7, 7],
        days: &[
            (5, 0),
            (-5, 0),
            (1, 1),
            (1, 1),
            (-1, 1),
            (5, 2),
            (-5, 3),
            (-1, 6),
            (6, 6),
            (0, 4),
        ],
        ..NONE
    },
    Parts {
        weeks: &[
            1, 53, -53, 52, -52, -1, 1, 53, -53, 10, 20, 20, 30, -10, -20, -20, 40, 50, 51, -51, 2,
        ],
        days: &[(0, 0), (0, 3), (0, 6), (0, 6)],
        ..NONE
    },
    Parts {
        hours: &[23, 0, 23, 5, 5, 5, 0, 12, 9, 9],
        minutes: &[59, 0, 59, 0, 30, 30, 30],
        days: &[(0, 1), (0, 1), (0, 2), (0, 1)],
        ..NONE
    },
];

/// The frequencies that are served.
const FREQS: [Freq; 5] = [
    Freq::Hourly,
    Freq::Daily,
    Freq::Weekly,
    Freq::Monthly,
    Freq::Yearly,
];

/// The first year and the last, a leap day, and the end of a year whose last week is the next one's.
const STARTS: [(i32, u8, u8); 4] = [(1, 1, 1), (2000, 2, 29), (2025, 12, 29), (2100, 12, 31)];

/// Both bodies give the same next moments from a start on.
fn bodies_agree(rt: &impl Abort, rule: &Rule, start: Local, dated: bool)
    requires start { IsWritten start }
    requires rule { IsUsable rule.now }
    requires coarse { is_fine rule.now.freq ≡ false }
{
    let plain = DayFilter.ready(rule, start, dated);
    let fast = PeriodStep.ready(rule, start, dated);
    let mut from = start;
    'steps: for _ in 0..5 {
        let expected = plain.next_passing(rule, start, dated, from);
        let found = fast.next_passing(rule, start, dated, from);
        let day = from.day;
        assert!(rt; found == expected, "from day {day} on");
        match expected {
            Some(m) => from = after(m),
            None => break,
        }
    }
}

/// The same for each start, as a time and as a DATE.
fn bodies_agree_at_starts(rt: &impl Abort, rule: &Rule)
    requires rule { IsUsable rule.now }
    requires coarse { is_fine rule.now.freq ≡ false }
{
    for date in STARTS.iter() {
        if let Some(start) = moment(*date, 35_999) {
            bodies_agree(rt, rule, start, false);
        }
        if let Some(start) = moment(*date, 0) {
            bodies_agree(rt, rule, start, true);
        }
    }
}

/// Both bodies agree on a rule with those parts, for weeks that begin on Monday and on Sunday.
fn bodies_agree_on(rt: &impl Abort, alloc: Global, freq: Freq, interval: u32, parts: Parts) {
    for week_start in [0u8, 6] {
        if is_coarse(freq) && 0 < interval && week_start < 7 {
            let rule = rule_of(alloc, freq, interval, week_start, parts);
            bodies_agree_at_starts(rt, &rule);
            drop(rule);
        }
    }
}

#[test]
fn both_bodies_agree(rt: HostRuntime) {
    for freq in FREQS.iter() {
        for parts in PARTS.iter() {
            for interval in [1u32, 2, 5, 999_999_999] {
                bodies_agree_on(&rt, rt.alloc(), *freq, interval, *parts);
            }
        }
        for parts in LONG_PARTS.iter() {
            for interval in [1u32, 3] {
                bodies_agree_on(&rt, rt.alloc(), *freq, interval, *parts);
            }
        }
    }
}
