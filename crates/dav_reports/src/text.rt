//! The answer to a query for busy times (RFC 4791, 7.10; RFC 5545, 3.6.4 and 3.8.2.6).
ghost use Rattle.std.specs.Prelude.{◌≡◌, ◌++◌, ◌<◌, ℕ, List, length, map, codes, All, IfOk, OnOk, MatchBool};
ghost use Rattle.cal_moment.specs.Calendar.{IsCalendarMoment};
ghost use Rattle.cal_model.specs.Busy.FreeBusyText as spec;
ghost use Rattle.cal_model.specs.Refusals.RequestLimits.{answer_limit};
ghost use Rattle.cal_model.specs.Words.TextLines.{ended, lines_text};
ghost use Rattle.freebusy.specs.declared.busy.Run.{Run};
ghost use Rattle.freebusy.specs.Times.{time_of_run};
ghost use Rattle.dav_reports.specs.FreeBusyLines.{IsWithinDates, run_lines};
ghost use Rattle.dav_reports.specs.SeenCalendars.{IsBody};

use cal_base::{NoMemory, Octets};
use cal_model::{ANSWER_LIMIT, Class, Range};
use cal_moment::{Utc, write_utc};
use freebusy::Run;
use std::alloc::Global;

/// What stands before the moment of the answer.
const HEAD: &[u8] =
    b"BEGIN:VCALENDAR\r\nVERSION:2.0\r\nPRODID:-//caldav_server//EN\r\nBEGIN:VFREEBUSY\r\nUID:free-busy\r\nDTSTAMP:";

/// Appends a moment in UTC.
fn put_moment(moment: Utc, out: &mut Octets) -> Result<(), NoMemory>
    requires { IsCalendarMoment moment.0 }
    ensures { OnOk result (out.new ≡ out.old ++ spec.utc_text moment.0) }
{
    out.extend_from_slice(&write_utc(moment))
}

/// Appends a line that says a moment.
fn put_moment_line(name: &[u8], moment: Utc, out: &mut Octets) -> Result<(), NoMemory>
    requires { IsCalendarMoment moment.0 }
    ensures { OnOk result (out.new ≡ out.old ++ ended (name.now ++ spec.utc_text moment.0)) }
{
    out.extend_from_slice(name)?;
    put_moment(moment, out)?;
    out.extend_from_slice(b"\r\n")
}

/// Appends the lines before those of the runs.
fn put_head(moment: i64, range: Range, out: &mut Octets) -> Result<(), NoMemory>
    requires moment { IsCalendarMoment moment }
    requires start { IsCalendarMoment range.start.0 }
    requires end { IsCalendarMoment range.end.0 }
    ensures { OnOk result (out.new ≡ out.old ++ lines_text (spec.head_lines moment range)) }
{
    put_moment_line(HEAD, Utc(moment), out)?;
    put_moment_line(b"DTSTART:", range.start, out)?;
    put_moment_line(b"DTEND:", range.end, out)
}

/// How the line of a run of a class begins.
fn run_name(class: Class) -> &'static [u8]
    ensures { result.now ≡ codes "FREEBUSY;FBTYPE=" ++ (spec.class_name class ++ codes ":") }
{
    match class {
        Class::Busy => b"FREEBUSY;FBTYPE=BUSY:",
        Class::Unavailable => b"FREEBUSY;FBTYPE=BUSY-UNAVAILABLE:",
        Class::Tentative => b"FREEBUSY;FBTYPE=BUSY-TENTATIVE:",
    }
}

/// Appends the line of a run.
fn put_run(run: Run, out: &mut Octets) -> Result<(), NoMemory>
    requires start { IsCalendarMoment run.start.0 }
    requires end { IsCalendarMoment run.end.0 }
    ensures { OnOk result (out.new ≡ out.old ++ ended (spec.run_line (time_of_run run))) }
{
    out.extend_from_slice(run_name(run.class))?;
    put_moment(run.start, out)?;
    put_moment_line(b"/", run.end, out)
}

/// Appends a line for each run: whether all were, or the answer is longer than one may be.
fn put_runs(runs: &[Run], out: &mut Octets) -> Result<bool, NoMemory>
    requires { All IsWithinDates runs.now }
    ensures { IfOk result (λ whole. MatchBool whole (out.new ≡ out.old ++ run_lines runs.now) (answer_limit < length (out.old ++ run_lines runs.now))) }
{
    let mut rest = runs;
    'lines: while let Some((run, behind)) = rest.split_first() {
        if out.len() > ANSWER_LIMIT {
            return Ok(false);
        }
        put_run(*run, out)?;
        rest = behind;
    }
    Ok(true)
}

/// The text of the answer at a moment, for a range and its runs. None where it is longer than an answer
/// may be; then it is not written whole.
pub(crate) fn free_busy_text(
    alloc: Global,
    moment: i64,
    range: Range,
    runs: &[Run],
) -> Result<Option<Octets>, NoMemory>
    requires moment { IsCalendarMoment moment }
    requires start { IsCalendarMoment range.start.0 }
    requires end { IsCalendarMoment range.end.0 }
    requires runs { All IsWithinDates runs.now }
    ensures { IfOk result (λ text. IsBody text (spec.free_busy_text moment range (map time_of_run runs.now))) }
{
    let mut out = Octets::new(alloc);
    put_head(moment, range, &mut out)?;
    if !put_runs(runs, &mut out)? {
        return Ok(None);
    }
    out.extend_from_slice(b"END:VFREEBUSY\r\nEND:VCALENDAR\r\n")?;
    if out.len() > ANSWER_LIMIT {
        return Ok(None);
    }
    Ok(Some(out))
}
