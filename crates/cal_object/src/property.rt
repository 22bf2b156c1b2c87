//! The properties whose values are looked at before anything else of a calendar (RFC 5545, 3.8).
ghost use Rattle.std.specs.Prelude.{◌≡◌, ◌<◌, bytes_eq};
ghost use Rattle.std.specs.Option.{option_copied};
ghost use Rattle.cal_object.specs.Properties as spec;

/// A property whose value is looked at, by the name of its lines.
#[derive(Clone, Copy)]
pub enum Property {
    /// DTSTART.
    Start,
    /// DTEND.
    End,
    /// DUE.
    Due,
    /// DURATION.
    Duration,
    /// RRULE.
    Rule,
    /// RDATE.
    Dates,
    /// EXDATE.
    Except,
    /// RECURRENCE-ID.
    RecurrenceId,
    /// COMPLETED.
    Completed,
    /// CREATED.
    Created,
    /// DTSTAMP.
    TimeStamp,
    /// LAST-MODIFIED.
    LastModified,
    /// FREEBUSY.
    FreeBusy,
    /// TRIGGER.
    Trigger,
    /// REPEAT.
    Repeat,
    /// TZOFFSETFROM.
    OffsetFrom,
    /// TZOFFSETTO.
    OffsetTo,
}

/// All of them, in the order of their numbers.
const ALL: [Property; 17] = [
    Property::Start,
    Property::End,
    Property::Due,
    Property::Duration,
    Property::Rule,
    Property::Dates,
    Property::Except,
    Property::RecurrenceId,
    Property::Completed,
    Property::Created,
    Property::TimeStamp,
    Property::LastModified,
    Property::FreeBusy,
    Property::Trigger,
    Property::Repeat,
    Property::OffsetFrom,
    Property::OffsetTo,
];

/// The name of a property's lines, in upper case.
fn name_of(property: Property) -> &'static [u8]
    ensures { result.now ≡ spec.name_of property }
{
    match property {
        Property::Start => b"DTSTART",
        Property::End => b"DTEND",
        Property::Due => b"DUE",
        Property::Duration => b"DURATION",
        Property::Rule => b"RRULE",
        Property::Dates => b"RDATE",
        Property::Except => b"EXDATE",
        Property::RecurrenceId => b"RECURRENCE-ID",
        Property::Completed => b"COMPLETED",
        Property::Created => b"CREATED",
        Property::TimeStamp => b"DTSTAMP",
        Property::LastModified => b"LAST-MODIFIED",
        Property::FreeBusy => b"FREEBUSY",
        Property::Trigger => b"TRIGGER",
        Property::Repeat => b"REPEAT",
        Property::OffsetFrom => b"TZOFFSETFROM",
        Property::OffsetTo => b"TZOFFSETTO",
    }
}

/// Whether a property has a name, which is in upper case.
fn is_named(property: Property, name: &[u8]) -> bool
    ensures { result ≡ bytes_eq name.now (spec.name_of property) }
{
    name == name_of(property)
}

/// The first of some properties that has a name, which is in upper case.
fn first_named<'p>(properties: &'p [Property], name: &[u8]) -> Option<&'p Property>
    ensures { option_copied result ≡ spec.first_named properties.now name.now }
{
    properties
        .iter()
        .find(|property| is_named(**property, name))
}

impl Property {
    /// The property of a name, which is in upper case.
    pub fn named(name: &[u8]) -> Option<Property>
        ensures { result ≡ spec.property_named name.now }
    {
        first_named(&ALL, name).copied()
    }

    /// Whether it may stand more than once in a component.
    pub fn is_repeatable(self) -> bool
        ensures { result ≡ spec.is_repeatable self }
    {
        match self {
            Property::Rule | Property::Dates | Property::Except | Property::FreeBusy => true,
            _ => false,
        }
    }

    /// Its number among all of them.
    pub fn number(self) -> u32
        ensures value { result ≡ spec.number_of self }
        ensures bound { result < 17 }
    {
        match self {
            Property::Start => 0,
            Property::End => 1,
            Property::Due => 2,
            Property::Duration => 3,
            Property::Rule => 4,
            Property::Dates => 5,
            Property::Except => 6,
            Property::RecurrenceId => 7,
            Property::Completed => 8,
            Property::Created => 9,
            Property::TimeStamp => 10,
            Property::LastModified => 11,
            Property::FreeBusy => 12,
            Property::Trigger => 13,
            Property::Repeat => 14,
            Property::OffsetFrom => 15,
            Property::OffsetTo => 16,
        }
    }
}
