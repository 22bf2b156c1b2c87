//! The start of a rule.
ghost use Rattle.std.specs.Prelude.{◌≡◌, ◌<◌, ◌≤◌};
ghost use Rattle.cal_moment.specs.Calendar as cal;

/// A start: its day, counted from 1 January of the year 0, the month and the day of the month of
/// that, and its second of the day.
#[derive(Drop)]
pub struct Start {
    pub day: u32,
    pub month: u32,
    pub of_month: u32,
    pub second: u32,
    ghost day_is: { (366 ≤ day) × (day < 3_652_425) },
    ghost month_is: { month ≡ cal.month_of day },
    ghost month_within: { (1 ≤ month) × (month ≤ 12) },
    ghost of_month_is: { of_month ≡ cal.day_of_month day },
    ghost of_month_within: { (1 ≤ of_month) × (of_month ≤ 31) },
    ghost second_below: { second < 86_400 },
}
