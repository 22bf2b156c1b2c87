//! The reply to a report (RFC 4791, 7.8 to 7.10).
ghost use Rattle.std.specs.Prelude.{◌≡◌, ◌+◌, ◌≤◌, ◌<◌, true, length, pos, ◌≤ℤ◌, IfOk, IsSome, IsTrue};
ghost use Rattle.cal_model.specs.declared.reply.Reply.{Reply as Answer};
ghost use Rattle.cal_model.specs.Access.Privileges.{has_all};
ghost use Rattle.cal_model.specs.Bodies.SoundReports.{report_is_sound};
ghost use Rattle.cal_model.specs.Refusals.ReportRefusals.{zone_text};
ghost use Rattle.cal_model.specs.Serving.ReadingReplies.{report_reply};
ghost use Rattle.cal_model.specs.Sight.Scenes.{held_in};
ghost use Rattle.cal_model.specs.State.ServerState.{Calendar, calendar_at};
ghost use Rattle.cal_model.specs.State.SoundStates.{IsSound};
ghost use Rattle.cal_model.specs.TimeZones.TableBounds.{IsTable};
ghost use Rattle.dav_reports.specs.CalendarObjects.{AreHeldRight, entries_cost, objects_concerned};
ghost use Rattle.dav_reports.specs.ReportOutcomes.{HasServedRange, IsBodyOf, MaySee, answer_body, calendar_scene, privilege_needed, reply_of, reply_to_report, unless_long, unless_outside, zone_given, zone_of_text};
ghost use Rattle.dav_reports.specs.SeenCalendars.{IsBody};

use crate::dates::first_outside;
use crate::free_busy::busy_body;
use crate::multiget::multiget;
use crate::query::query;
use crate::refusals::{refused, refused_length, refused_range};
use crate::report_zones::{report_zone, utc};
use cal_base::{NoMemory, Octets, Steps};
use cal_model::view::Pieces;
use cal_model::{Media, PropAnswers, Refusal, Reply, ReportRequest, Seen, ZoneTable};
use object_walk::Walks;
use std::alloc::Global;
use std::sync::ledger::Ledger;

/// The answer to a report, or none where it is too long. Floating times are read in the zone.
fn report_body<V: Walks, A: PropAnswers, P: Pieces, L: Ledger>(
    alloc: Global,
    seen: &Seen<'_, V>,
    calendar: (u32, &[u8]),
    pieces: &P,
    answers: &A,
    zone: &ZoneTable,
    request: &ReportRequest,
    moment: i64,
    steps: &mut Steps<L>,
) -> Result<Option<Octets>, NoMemory>
    requires user { seen.now.who < length (V.directory seen.now.view.now).names }
    requires home { calendar.0 < length (V.directory seen.now.view.now).names }
    requires sound { IsSound (V.directory seen.now.view.now) (V.state seen.now.view.now) }
    requires right { AreHeldRight (P.held pieces.now) (V.origins seen.now.view.now) (V.state seen.now.view.now) calendar.0 calendar.1.now }
    requires there { IsSome (calendar_at (V.state seen.now.view.now) calendar.0 calendar.1.now) }
    requires zone { IsTable zone.now }
    requires range { HasServedRange request.now }
    requires from_1970 { pos 0 ≤ℤ moment }
    requires to_9999 { moment ≤ℤ pos 253_402_300_799 }
    ensures steps { steps.new ≤ steps.old + entries_cost (P.held pieces.now) request.now (V.origins seen.now.view.now calendar.entry.0 calendar.entry.1.now) (objects_concerned (V.directory seen.now.view.now) (V.state seen.now.view.now) calendar.entry.0 calendar.entry.1.now request.now) }
    ensures body { IfOk result (λ body. (c : Calendar) → MaySee (V.directory seen.now.view.now) (V.state seen.now.view.now) seen.now.who calendar.entry.0 calendar.entry.1.now (privilege_needed request.now) c → IsBody body (answer_body (V.directory seen.now.view.now) seen.now.who calendar.entry.0 calendar.entry.1.now moment zone.now c request.now)) }
{
    match request {
        ReportRequest::Query {
            props,
            select,
            filter,
            ..
        } => {
            let asked = (props, select, filter);
            query(alloc, seen, calendar, pieces, answers, zone, asked, steps)
        }
        ReportRequest::Multiget {
            props,
            select,
            hrefs,
        } => {
            let asked = (props, select, hrefs);
            multiget(alloc, seen, calendar, pieces, answers, zone, asked, steps)
        }
        ReportRequest::FreeBusy { range } => {
            busy_body(alloc, seen, calendar, pieces, *range, moment, steps)
        }
    }
}

/// The same in the zone of the report, or else in that of the calendar, or in UTC.
fn body_in_zone<V: Walks, A: PropAnswers, P: Pieces, L: Ledger>(
    alloc: Global,
    seen: &Seen<'_, V>,
    calendar: (u32, &[u8]),
    pieces: &P,
    answers: &A,
    own: &Option<ZoneTable>,
    request: &ReportRequest,
    moment: i64,
    steps: &mut Steps<L>,
) -> Result<Option<Octets>, NoMemory>
    requires user { seen.now.who < length (V.directory seen.now.view.now).names }
    requires right { AreHeldRight (P.held pieces.now) (V.origins seen.now.view.now) (V.state seen.now.view.now) calendar.0 calendar.1.now }
    requires there { IsSome (calendar_at (V.state seen.now.view.now) calendar.0 calendar.1.now) }
    requires held { has_all (held_in (calendar_scene (V.directory seen.now.view.now) (V.state seen.now.view.now) seen.now.who calendar.0 calendar.1.now)) (privilege_needed request.now) ≡ true }
    requires own { own.now ≡ zone_of_text (zone_text request.now) }
    requires range { HasServedRange request.now }
    requires from_1970 { pos 0 ≤ℤ moment }
    requires to_9999 { moment ≤ℤ pos 253_402_300_799 }
    ensures steps { steps.new ≤ steps.old + entries_cost (P.held pieces.now) request.now (V.origins seen.now.view.now calendar.entry.0 calendar.entry.1.now) (objects_concerned (V.directory seen.now.view.now) (V.state seen.now.view.now) calendar.entry.0 calendar.entry.1.now request.now) }
    ensures body { IfOk result (IsBodyOf request.now (report_reply (calendar_scene (V.directory seen.now.view.now) (V.state seen.now.view.now) seen.now.who calendar.entry.0 calendar.entry.1.now) moment request.now)) }
{
    let (home, name) = calendar;
    let Some(data) = seen.view.calendar(home, name) else {
        unreachable!();
    };
    // With a name the view says that users are told apart.
    let _name = seen.view.user_name(seen.who);
    let utc = utc(alloc);
    let zone = report_zone(own, data, &utc);
    report_body(
        alloc, seen, calendar, pieces, answers, zone, request, moment, steps,
    )
}

/// What the body of the answer to a report is.
fn reply_with(request: &ReportRequest, body: Octets) -> Reply
    ensures { result ≡ reply_of request.now body }
{
    let (status, media) = match request {
        ReportRequest::FreeBusy { .. } => (200, Media::Calendar),
        _ => (207, Media::Xml),
    };
    Reply {
        status,
        etag: None,
        allow: None,
        media,
        body,
    }
}

/// The reply to a report of a body, or the refusal of one that is too long.
fn finished(alloc: Global, request: &ReportRequest, body: Option<Octets>) -> Result<Reply, NoMemory>
    ensures { IfOk result (λ reply. (answered : Answer) → IsBodyOf request.now answered body → reply ≡ unless_long answered) }
{
    match body {
        Some(body) => Ok(reply_with(request, body)),
        None => refused_length(alloc),
    }
}

/// The reply to a report of which no range leaves the dates that are served.
fn answered<V: Walks, A: PropAnswers, P: Pieces, L: Ledger>(
    alloc: Global,
    seen: &Seen<'_, V>,
    calendar: (u32, &[u8]),
    pieces: &P,
    answers: &A,
    own: &Option<ZoneTable>,
    request: &ReportRequest,
    moment: i64,
    steps: &mut Steps<L>,
) -> Result<Reply, NoMemory>
    requires user { seen.now.who < length (V.directory seen.now.view.now).names }
    requires right { AreHeldRight (P.held pieces.now) (V.origins seen.now.view.now) (V.state seen.now.view.now) calendar.0 calendar.1.now }
    requires there { IsSome (calendar_at (V.state seen.now.view.now) calendar.0 calendar.1.now) }
    requires held { has_all (held_in (calendar_scene (V.directory seen.now.view.now) (V.state seen.now.view.now) seen.now.who calendar.0 calendar.1.now)) (privilege_needed request.now) ≡ true }
    requires own { own.now ≡ zone_of_text (zone_text request.now) }
    requires range { HasServedRange request.now }
    requires from_1970 { pos 0 ≤ℤ moment }
    requires to_9999 { moment ≤ℤ pos 253_402_300_799 }
    ensures steps { steps.new ≤ steps.old + entries_cost (P.held pieces.now) request.now (V.origins seen.now.view.now calendar.entry.0 calendar.entry.1.now) (objects_concerned (V.directory seen.now.view.now) (V.state seen.now.view.now) calendar.entry.0 calendar.entry.1.now request.now) }
    ensures reply { IfOk result (λ reply. reply ≡ unless_long (report_reply (calendar_scene (V.directory seen.now.view.now) (V.state seen.now.view.now) seen.now.who calendar.entry.0 calendar.entry.1.now) moment request.now)) }
{
    let body = body_in_zone(
        alloc, seen, calendar, pieces, answers, own, request, moment, steps,
    )?;
    finished(alloc, request, body)
}

/// The reply to a report whose own zone, if it has one, was read.
fn reply_in_zone<V: Walks, A: PropAnswers, P: Pieces, L: Ledger>(
    alloc: Global,
    seen: &Seen<'_, V>,
    calendar: (u32, &[u8]),
    pieces: &P,
    answers: &A,
    own: &Option<ZoneTable>,
    request: &ReportRequest,
    moment: i64,
    steps: &mut Steps<L>,
) -> Result<Reply, NoMemory>
    requires user { seen.now.who < length (V.directory seen.now.view.now).names }
    requires right { AreHeldRight (P.held pieces.now) (V.origins seen.now.view.now) (V.state seen.now.view.now) calendar.0 calendar.1.now }
    requires there { IsSome (calendar_at (V.state seen.now.view.now) calendar.0 calendar.1.now) }
    requires held { has_all (held_in (calendar_scene (V.directory seen.now.view.now) (V.state seen.now.view.now) seen.now.who calendar.0 calendar.1.now)) (privilege_needed request.now) ≡ true }
    requires own { own.now ≡ zone_of_text (zone_text request.now) }
    requires sound { IsTrue (report_is_sound request.now) }
    requires from_1970 { pos 0 ≤ℤ moment }
    requires to_9999 { moment ≤ℤ pos 253_402_300_799 }
    ensures steps { steps.new ≤ steps.old + entries_cost (P.held pieces.now) request.now (V.origins seen.now.view.now calendar.entry.0 calendar.entry.1.now) (objects_concerned (V.directory seen.now.view.now) (V.state seen.now.view.now) calendar.entry.0 calendar.entry.1.now request.now) }
    ensures reply { IfOk result (λ reply. reply ≡ unless_outside request.now (unless_long (report_reply (calendar_scene (V.directory seen.now.view.now) (V.state seen.now.view.now) seen.now.who calendar.entry.0 calendar.entry.1.now) moment request.now))) }
{
    match first_outside(request) {
        Some(outside) => refused_range(alloc, outside),
        None => answered(
            alloc, seen, calendar, pieces, answers, own, request, moment, steps,
        ),
    }
}

/// The reply to a report about a calendar that is there and on which its caller holds what the report
/// needs (RFC 4791, 7.8 to 7.10): 403 where the text of its time zone is none (`zone` is what that text
/// gives), where a range leaves the dates that are served, or where the answer is longer than 64 MiB;
/// or else the answer. Rows come from pieces wherever there is one, are looked for only of objects that
/// the report is about, and no answer is written that is too long. `moment`, in seconds since 1970, is
/// when an answer to a query for busy times is given.
pub fn run_report<V: Walks, A: PropAnswers, P: Pieces, L: Ledger>(
    alloc: Global,
    seen: &Seen<'_, V>,
    calendar: (u32, &[u8]),
    pieces: &P,
    answers: &A,
    zone: Result<Option<ZoneTable>, Refusal>,
    request: &ReportRequest,
    moment: i64,
    steps: &mut Steps<L>,
) -> Result<Reply, NoMemory>
    requires user { seen.now.who < length (V.directory seen.now.view.now).names }
    requires right { AreHeldRight (P.held pieces.now) (V.origins seen.now.view.now) (V.state seen.now.view.now) calendar.0 calendar.1.now }
    requires there { IsSome (calendar_at (V.state seen.now.view.now) calendar.0 calendar.1.now) }
    requires held { has_all (held_in (calendar_scene (V.directory seen.now.view.now) (V.state seen.now.view.now) seen.now.who calendar.0 calendar.1.now)) (privilege_needed request.now) ≡ true }
    requires zone { zone ≡ zone_given (zone_text request.now) }
    requires sound { IsTrue (report_is_sound request.now) }
    requires from_1970 { pos 0 ≤ℤ moment }
    requires to_9999 { moment ≤ℤ pos 253_402_300_799 }
    ensures steps { steps.new ≤ steps.old + entries_cost (P.held pieces.now) request.now (V.origins seen.now.view.now calendar.entry.0 calendar.entry.1.now) (objects_concerned (V.directory seen.now.view.now) (V.state seen.now.view.now) calendar.entry.0 calendar.entry.1.now request.now) }
    ensures reply { IfOk result (λ reply. reply ≡ reply_to_report (V.directory seen.now.view.now) (V.state seen.now.view.now) seen.now.who calendar.entry.0 calendar.entry.1.now moment request.now) }
{
    match zone {
        Ok(own) => reply_in_zone(
            alloc, seen, calendar, pieces, answers, &own, request, moment, steps,
        ),
        Err(refusal) => refused(alloc, &refusal),
    }
}
