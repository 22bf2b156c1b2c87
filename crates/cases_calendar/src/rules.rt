//! What rules say, by their texts.

use cal_model::{DayPart, Freq, Rule, Until};
use ical_values::{ValueFault, read_rule};
use std::io;

/// The word for a frequency.
fn frequency(freq: Freq) -> &'static str {
    match freq {
        Freq::Secondly => "secondly",
        Freq::Minutely => "minutely",
        Freq::Hourly => "hourly",
        Freq::Daily => "daily",
        Freq::Weekly => "weekly",
        Freq::Monthly => "monthly",
        Freq::Yearly => "yearly",
    }
}

/// The last moment of a rule: what it is written as, and its day, moment or both as numbers.
fn last(until: Option<Until>) -> (&'static str, i64, u32) {
    match until {
        None => ("never", 0, 0),
        Some(Until::Day(day)) => ("day", day.0 as i64, 0),
        Some(Until::Local(local)) => ("local", local.day as i64, local.second),
        Some(Until::Utc(utc)) => ("UTC", utc.0, 0),
    }
}

/// Prints the days of a rule: which of a weekday, and the weekday, 0 for Monday.
fn print_days(rt: &HostRuntime, days: &[DayPart]) -> io::Result<()> {
    for day in days {
        print!(rt; " {}/{}", day.ordinal, day.weekday)?;
    }
    Ok(())
}

/// Prints what a rule says.
fn print_rule(rt: &HostRuntime, rule: &Rule) -> io::Result<()> {
    let (form, day, second) = last(rule.until);
    print!(rt; "{} every {}", frequency(rule.freq), rule.interval)?;
    print!(rt;
        " count {:?} until {form} {day} {second} week {}",
        rule.count, rule.week_start
    )?;
    print!(rt;
        " months {:?} weeks {:?}",
        rule.by_month.as_slice(),
        rule.by_week.as_slice()
    )?;
    print!(rt; " year {:?}", rule.by_year_day.as_slice())?;
    print!(rt; " month {:?} days", rule.by_month_day.as_slice())?;
    print_days(rt, rule.by_day.as_slice())?;
    print!(rt; " hours {:?}", rule.by_hour.as_slice())?;
    print!(rt; " minutes {:?}", rule.by_minute.as_slice())?;
    print!(rt; " seconds {:?}", rule.by_second.as_slice())?;
    println!(rt; " places {:?}", rule.by_set_pos.as_slice())
}

/// Prints what a text says.
fn print_case(rt: &HostRuntime, text: &[u8]) -> io::Result<()> {
    match read_rule(rt.alloc(), text) {
        Ok(rule) => print_rule(rt, &rule),
        Err(ValueFault::Bad { place }) => println!(rt; "bad at {place}"),
        Err(ValueFault::NoMemory) => println!(rt; "out of memory"),
    }
}

/// Prints for each text, one a line, what the rule says, or the place of its first fault.
pub fn print_rules(rt: &HostRuntime, texts: &[u8]) -> io::Result<()> {
    for text in without_end(texts).split(|octet| *octet == b'\n') {
        print_case(rt, text)?;
    }
    Ok(())
}

/// Lines without the end of the last one.
fn without_end(texts: &[u8]) -> &[u8] {
    match texts.split_last() {
        Some((b'\n', front)) => front,
        _ => texts,
    }
}
