//! What the sessions ask, as texts: the bodies of their events, and their requests.
ghost use Rattle.std.specs.Prelude.{◌≡◌, ℕ, ◌<◌, ◌≤◌, ◌+◌, ◌*◌, ◌^◌, ◌++◌, IfOk, string_bytes, codes, decimal, pos};
ghost use Rattle.cal_moment.specs.Texts.{digits};
ghost use Rattle.cal_model.specs.Busy.FreeBusyText.{utc_text};
ghost use Rattle.cal_model.specs.Load.LoadRequests as spec;
ghost use Rattle.load_requests.specs.EventTexts.{event_front, length_lines, rule_text};

use cal_base::{NoMemory, Octets};
use cal_moment::{Utc, write_utc};
use std::alloc::{AllocError, Global};

/// The moment of all sessions: 1 January 2025, in seconds since 1970.
pub const MOMENT: i64 = 1_735_689_600;

/// A free-busy query over the year 2025.
pub(crate) const BUSY_YEAR: &[u8] =
    b"<C:free-busy-query xmlns:C=\"urn:ietf:params:xml:ns:caldav\"><C:time-range start=\"20250101T000000Z\" end=\"20260101T000000Z\"/></C:free-busy-query>";

/// A query for the events of March 2025.
pub(crate) const EVENTS_OF_MARCH: &[u8] =
    b"<C:calendar-query xmlns:D=\"DAV:\" xmlns:C=\"urn:ietf:params:xml:ns:caldav\"><D:prop><D:getetag/><C:calendar-data/></D:prop><C:filter><C:comp-filter name=\"VCALENDAR\"><C:comp-filter name=\"VEVENT\"><C:time-range start=\"20250301T000000Z\" end=\"20250401T000000Z\"/></C:comp-filter></C:comp-filter></C:filter></C:calendar-query>";

/// The name of the user of a session.
pub(crate) fn user_name(session: u32) -> [u8; 3]
    requires { session < 100 }
    ensures { result ≡ spec.load_user session }
{
    [
        b'u',
        b'0' + (session / 10) as u8,
        b'0' + (session % 10) as u8,
    ]
}

/// The name of the object of a put.
pub(crate) fn object_name(alloc: Global, number: u64) -> Result<String, AllocError>
    ensures { IfOk result (λ name. string_bytes name ≡ decimal number ++ codes ".ics") }
{
    format!(in alloc; "{number}.ics")
}

/// Numbers that are drawn one after the other.
#[derive(Clone, Copy)]
pub(crate) struct Draws {
    number: u64,
}

impl Draws {
    /// The draws of a session.
    pub(crate) fn of_session(puts: u64, session: u32) -> Draws
        requires few { puts ≤ 800 }
        requires session { session < 100 }
        ensures { result.number ≡ spec.first_number puts session }
    {
        Draws {
            number: 64 * puts + session as u64,
        }
    }

    /// Draws a number below another.
    pub(crate) fn below(&mut self, most: u64) -> u64
        requires some { 0 < most }
        ensures next { self.new.number ≡ spec.next_draw self.old.number }
        ensures drawn { result ≡ spec.drawn_below most self.new.number }
        ensures within { result < most }
    {
        self.number = self
            .number
            .wrapping_mul(6_364_136_223_846_793_005)
            .wrapping_add(1_442_695_040_888_963_407);
        (self.number >> 33) % most
    }
}

/// What is drawn for an event.
#[derive(Clone, Copy)]
pub(crate) struct Drawn {
    pub(crate) day: u64,
    pub(crate) hour: u64,
    pub(crate) form: u64,
    pub(crate) minutes: u64,
}

impl Drawn {
    /// Draws an event.
    pub(crate) fn next(draws: &mut Draws) -> Drawn
        ensures next { draws.new.number ≡ spec.after_draws 4 draws.old.number }
        ensures day { (result.day ≡ spec.drawn_below 365 (spec.after_draws 1 draws.old.number)) × (result.day < 365) }
        ensures hour { (result.hour ≡ spec.drawn_below 24 (spec.after_draws 2 draws.old.number)) × (result.hour < 24) }
        ensures form { result.form ≡ spec.drawn_below 4 (spec.after_draws 3 draws.old.number) }
        ensures minutes { (result.minutes ≡ spec.drawn_below 180 (spec.after_draws 4 draws.old.number)) × (result.minutes < 180) }
    {
        let day = draws.below(365);
        let hour = draws.below(24);
        let form = draws.below(4);
        let minutes = draws.below(180);
        Drawn {
            day,
            hour,
            form,
            minutes,
        }
    }
}

/// The octets of an event.
pub(crate) fn event_octets(alloc: Global, number: u64, drawn: Drawn) -> Result<Octets, NoMemory>
    requires day { drawn.day < 365 }
    requires hour { drawn.hour < 24 }
    requires minutes { drawn.minutes < 180 }
    ensures { IfOk result (λ octets. octets ≡ spec.load_body number drawn.day drawn.hour drawn.form drawn.minutes) }
{
    let front = front_text(alloc, number)?;
    let length = length_text(alloc, drawn.minutes + 1)?;
    let mut octets = Octets::of(alloc, front.as_bytes())?;
    octets.extend_from_slice(&start_text(drawn.day, drawn.hour))?;
    octets.extend_from_slice(length.as_bytes())?;
    octets.extend_from_slice(rule_line(drawn.form))?;
    octets.extend_from_slice(b"END:VEVENT\r\nEND:VCALENDAR\r\n")?;
    Ok(octets)
}

/// The lines of an event up to its start.
fn front_text(alloc: Global, number: u64) -> Result<String, AllocError>
    ensures { IfOk result (λ text. string_bytes text ≡ event_front number) }
{
    format!(in alloc;
        "BEGIN:VCALENDAR\r\nVERSION:2.0\r\nPRODID:-//caldav_server//EN\r\nBEGIN:VEVENT\r\nUID:{number}\r\nDTSTAMP:20250101T000000Z\r\nDTSTART:"
    )
}

/// The start of an event, so many days and hours behind the moment of all sessions.
fn start_text(day: u64, hour: u64) -> [u8; 16]
    requires day { day < 365 }
    requires hour { hour < 24 }
    ensures { result ≡ utc_text (pos (spec.load_moment + 86_400 * day + 3600 * hour)) }
{
    let seconds = 1_735_689_600 + 86_400 * day + 3_600 * hour;
    write_utc(Utc(seconds as i64))
}

/// The line of the length of an event.
fn length_text(alloc: Global, minutes: u64) -> Result<String, AllocError>
    ensures { IfOk result (λ text. string_bytes text ≡ length_lines minutes) }
{
    format!(in alloc; "\r\nDURATION:PT{minutes}M\r\n")
}

/// The line by which an event recurs, by the form that was drawn.
fn rule_line(form: u64) -> &'static [u8]
    ensures { result.now ≡ rule_text form }
{
    match form {
        1 => b"RRULE:FREQ=DAILY;COUNT=30\r\n",
        2 => b"RRULE:FREQ=WEEKLY;COUNT=52\r\n",
        3 => b"RRULE:FREQ=MONTHLY;COUNT=24\r\n",
        _ => b"",
    }
}

/// The octets of a PUT of an event.
pub(crate) fn put_octets(
    alloc: Global,
    signature: &str,
    session: u32,
    number: u64,
    event: &[u8],
) -> Result<Octets, NoMemory> {
    let len = event.len();
    let head = format!(in alloc;
        "PUT /calendars/u{session:02}/calendar/{number}.ics HTTP/1.1\r\nHost: h\r\nAuthorization: Basic {signature}\r\nContent-Type: text/calendar\r\nContent-Length: {len}\r\n\r\n"
    )?;
    let mut octets = Octets::of(alloc, head.as_bytes())?;
    octets.extend_from_slice(event)?;
    Ok(octets)
}

/// The octets of a REPORT on the calendar.
pub(crate) fn report_octets(
    alloc: Global,
    signature: &str,
    session: u32,
    body: &[u8],
) -> Result<Octets, NoMemory> {
    let len = body.len();
    let head = format!(in alloc;
        "REPORT /calendars/u{session:02}/calendar/ HTTP/1.1\r\nHost: h\r\nAuthorization: Basic {signature}\r\nContent-Type: application/xml\r\nContent-Length: {len}\r\n\r\n"
    )?;
    let mut octets = Octets::of(alloc, head.as_bytes())?;
    octets.extend_from_slice(body)?;
    Ok(octets)
}
