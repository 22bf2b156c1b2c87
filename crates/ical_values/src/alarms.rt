//! What the lines of an alarm say (RFC 5545, 3.6.6), and the length that DURATION gives a component.
ghost use Rattle.std.specs.Prelude.{◌≡◌, codes, option_map, unwrap_or, pos, neg_ℤ, IfSome};
ghost use Rattle.std.specs.Option.{option_copied};
ghost use Rattle.cal_moment.specs.Calendar.{IsBetween};
ghost use Rattle.cal_model.specs.Objects.ComponentLines.{one_of};
ghost use Rattle.cal_model.specs.Objects.ComponentReading as spec;
ghost use Rattle.cal_model.specs.Objects.LineValues.{value_at};
ghost use Rattle.cal_model.specs.Values.StampTexts.{repeat_of, trigger_of};
ghost use Rattle.cal_model.specs.Values.ValueTexts.{length_of};

use crate::numbers::read_repeat;
use crate::single::{read_duration, read_trigger};
use cal_base::{Line, Node};
use cal_model::Alarm;
use cal_moment::Length;

/// The first line of a name, which is in upper case: where a line may stand once, the one that
/// counts.
pub fn one_of<'a>(lines: &'a [Line], name: &[u8]) -> Option<&'a Line>
    ensures { option_copied result ≡ one_of name.now lines.now }
{
    lines.iter().find(|line| line.name.as_slice() == name)
}

/// The length that DURATION gives, if it is there and can be read.
pub fn length_in(lines: &[Line]) -> Option<Length>
    ensures length { result ≡ value_at length_of (codes "DURATION") lines.now }
    ensures days { IfSome result (λ length. IsBetween (neg_ℤ (pos 6_999_999_993)) (pos 6_999_999_993) length.days) }
    ensures seconds { IfSome result (λ length. IsBetween (neg_ℤ (pos 10_800_000_000_000)) (pos 10_800_000_000_000) length.seconds) }
{
    let Some(line) = one_of(lines, b"DURATION") else {
        return None;
    };
    match read_duration(line.value.as_slice()) {
        Ok(length) => Some(length),
        Err(_) => None,
    }
}

/// Whether a component is a VALARM.
pub fn is_alarm(node: &Node) -> bool
    ensures { result ≡ spec.is_alarm node.now }
{
    node.name.as_slice() == b"VALARM".as_slice()
}

/// How many times an alarm goes off after the first time: REPEAT, or 0.
fn repeats_in(lines: &[Line]) -> u32
    ensures { result ≡ unwrap_or (value_at repeat_of (codes "REPEAT") lines.now) 0 }
{
    match one_of(lines, b"REPEAT") {
        Some(line) => read_repeat(line.value.as_slice()).unwrap_or(0),
        None => 0,
    }
}

/// How long after the time before each of these is: DURATION, or nothing.
fn gap_in(lines: &[Line]) -> Length
    ensures { result ≡ unwrap_or (value_at length_of (codes "DURATION") lines.now) spec.no_length }
{
    match length_in(lines) {
        Some(length) => length,
        None => Length {
            days: 0,
            seconds: 0,
        },
    }
}

/// The alarm of some lines, by the one that is its TRIGGER; none where that cannot be read.
fn alarm_with(lines: &[Line], line: &Line) -> Option<Alarm>
    ensures { result ≡ option_map (spec.alarm_with lines.now) (trigger_of line.now) }
{
    match read_trigger(line) {
        Ok(trigger) => Some(Alarm {
            trigger,
            repeat: repeats_in(lines),
            gap: gap_in(lines),
        }),
        Err(_) => None,
    }
}

/// The alarm of a VALARM; none where it has no TRIGGER that can be read, since it never goes off.
pub fn alarm_of(node: &Node) -> Option<Alarm>
    ensures { result ≡ spec.alarm_of node.now }
{
    let lines = node.lines.as_slice();
    match one_of(lines, b"TRIGGER") {
        Some(line) => alarm_with(lines, line),
        None => None,
    }
}
