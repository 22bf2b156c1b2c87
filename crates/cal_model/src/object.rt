//! Calendar objects (RFC 5545, 3.4 and 3.6; RFC 4791, 4.1).

use crate::rule::Rule;
use crate::zone::ZoneTable;
use cal_base::{List, Node, Octets};
use cal_moment::{Length, Period, Stamp, Utc};

/// The kinds of components that a calendar stores.
#[derive(Clone, Copy, PartialEq, Eq)]
pub enum Kind {
    /// VEVENT.
    Event,
    /// VTODO.
    Todo,
    /// VJOURNAL.
    Journal,
    /// VFREEBUSY.
    FreeBusy,
}

/// How a component says when it ends (RFC 5545, 3.6.1 to 3.6.4). DUE counts in a VTODO alone, DTEND
/// in the other kinds alone, and DURATION in all. A component that is read has DURATION beside
/// neither of the two; DTEND and DUE may stand together, and then the one that counts says the end.
#[derive(Clone, Copy, PartialEq, Eq)]
pub enum Extent {
    /// By DTEND, of a VEVENT, VJOURNAL or VFREEBUSY: at that value.
    End(Stamp),
    /// By DURATION: so long after its start. Without DTSTART it gives no end; in a VFREEBUSY it
    /// never does.
    Lasting(Length),
    /// By no line. A VEVENT or VJOURNAL whose DTSTART is a DATE-TIME, and a VTODO with any DTSTART,
    /// ends where it starts; a VEVENT or VJOURNAL without DTSTART has no end.
    Point,
    /// By no line, of a VEVENT or VJOURNAL whose DTSTART is a DATE: it lasts that day.
    WholeDay,
    /// By DUE, of a VTODO: at that value. Without DTSTART the VTODO also starts there.
    Due(Stamp),
    /// By no line: a VTODO without DTSTART, or a VFREEBUSY.
    None,
}

/// How busy a component makes its owner (RFC 4791, 7.10).
#[derive(Clone, Copy, PartialEq, Eq)]
pub enum Class {
    Busy,
    Unavailable,
    Tentative,
}

/// The end of a component that an alarm is tied to (RFC 5545, 3.2.14).
#[derive(Clone, Copy, PartialEq, Eq)]
pub enum Related {
    Start,
    End,
}

/// When an alarm goes off first (RFC 5545, 3.8.6.3).
#[derive(Clone, Copy, PartialEq, Eq)]
pub enum Trigger {
    /// At a moment.
    At(Utc),
    /// A length after the start or the end of each instance.
    From(Related, Length),
}

/// An alarm that has a TRIGGER (RFC 5545, 3.6.6). One without never goes off, and is not kept.
#[derive(Clone, Copy, PartialEq, Eq)]
pub struct Alarm {
    pub trigger: Trigger,
    /// How many times it goes off after the first time: REPEAT, or 0.
    pub repeat: u32,
    /// How long after the time before each of these is: DURATION, or nothing. A negative one goes
    /// backwards.
    pub gap: Length,
}

/// A VEVENT, VTODO, VJOURNAL or VFREEBUSY of an object. Its number is its place among the
/// components of its object, counted from 0.
#[derive(Drop)]
pub struct Component {
    pub kind: Kind,
    /// Its place among the children of the object's tree, counted from 0.
    pub child: u32,
    /// DTSTART.
    pub start: Option<Stamp>,
    /// What DTEND, DUE or DURATION says, or that none of them is there.
    pub extent: Extent,
    /// RECURRENCE-ID: the instance that this component takes the place of.
    pub recurrence_id: Option<Stamp>,
    /// The RRULE lines in order.
    pub rules: List<Rule>,
    /// The RDATE values that are dates or moments.
    pub dates: List<Stamp>,
    /// The RDATE values that are periods.
    pub periods: List<Period>,
    /// The EXDATE values.
    pub except: List<Stamp>,
    pub completed: Option<Utc>,
    pub created: Option<Utc>,
    /// The class of its instances; none for a component that counts as free.
    pub busy: Option<Class>,
    /// The FREEBUSY periods, in UTC. One without a class is free.
    pub stored_busy: List<(Option<Class>, Period)>,
    /// Its VALARMs that have a TRIGGER, in order.
    pub alarms: List<Alarm>,
    /// It moves all later instances too (RFC 5545, 3.2.13): its RECURRENCE-ID has
    /// RANGE=THISANDFUTURE, and its DTSTART is there and of the kind of the object's ids, a DATE, a
    /// floating time or an instant.
    pub future: bool,
}

/// A calendar object: what a calendar stores under one name.
#[derive(Drop)]
pub struct Object {
    /// The one kind of its components.
    pub kind: Kind,
    /// The one UID of its components.
    pub uid: Octets,
    /// Its VCALENDAR.
    pub tree: Node,
    /// Its VTIMEZONEs in order. A zone's number is its place here, counted from 0.
    pub zones: List<ZoneTable>,
    /// Its components of the four kinds in the order of the text.
    pub components: List<Component>,
}

/// Why a calendar that can be read cannot be stored as an object (RFC 4791, 4.1), in the order in
/// which these are looked at.
#[derive(Clone, Copy, PartialEq, Eq)]
pub enum NotResource {
    /// The VCALENDAR has a METHOD.
    Method,
    /// It has no component of the four kinds.
    NoComponent,
    /// It has components of two kinds.
    MixedKinds,
    /// A component has no UID.
    NoUid,
    /// Two components have different UIDs.
    MixedUids,
    /// Two components have no RECURRENCE-ID.
    TwoMasters,
    /// Two components take the place of one instance.
    SameRecurrenceId,
    /// A value is in a zone that no VTIMEZONE defines.
    ZoneMissing,
    /// A component has an EXRULE.
    ExRule,
}
