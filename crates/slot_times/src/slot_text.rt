//! The text that tells free times.
ghost use Rattle.std.specs.Prelude.{◌≡◌, ◌++◌, All, IfOk, OnOk, flat_map};
ghost use Rattle.cal_moment.specs.Calendar.{IsCalendarMoment};
ghost use Rattle.slot_times.specs.SlotCalendars.{IsWritable};
ghost use Rattle.slot_times.specs.SlotTimes.{time_line, times_text};

use cal_base::{NoMemory, Octets};
use cal_model::Range;
use cal_moment::write_utc;
use std::alloc::Global;

/// A line for each free time, or one that says that there is none.
pub(crate) fn text_of_times(alloc: Global, times: &[Range]) -> Result<Octets, NoMemory>
    requires { All IsWritable times.now }
    ensures { IfOk result (λ text. text ≡ times_text times.now) }
{
    if times.is_empty() {
        return Octets::of(alloc, b"none\n");
    }
    lines_of_times(alloc, times)
}

/// A line for each free time.
fn lines_of_times(alloc: Global, times: &[Range]) -> Result<Octets, NoMemory>
    requires { All IsWritable times.now }
    ensures { IfOk result (λ text. text ≡ flat_map time_line times.now) }
{
    let mut text = Octets::new(alloc);
    let mut rest = times;
    'times: while let Some((time, behind)) = rest.split_first() {
        put_time(*time, &mut text)?;
        rest = behind;
    }
    Ok(text)
}

/// Appends the line of a free time.
fn put_time(time: Range, text: &mut Octets) -> Result<(), NoMemory>
    requires { IsWritable time }
    ensures { OnOk result (text.new ≡ text.old ++ time_line time) }
{
    text.extend_from_slice(b"free ")?;
    text.extend_from_slice(&write_utc(time.start))?;
    text.extend_from_slice(b" ")?;
    text.extend_from_slice(&write_utc(time.end))?;
    text.extend_from_slice(b"\n")
}
