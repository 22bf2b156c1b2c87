//! The table of properties.
ghost use Rattle.std.specs.Prelude.{◌≡◌, ◌&&◌, List, ℕ, find, bytes_eq, filter, map};
ghost use Rattle.std.specs.Option.{option_copied};
ghost use Rattle.cal_model.specs.Access.Privileges.{same_name};
ghost use Rattle.cal_model.specs.declared.property.PropName.{PropName as Name};
ghost use Rattle.cal_model.specs.Properties.PropertyTable as table;
ghost use Rattle.dav_props.specs.Rows as spec;

use cal_model::PropName;
use cal_model::privilege::{READ, READ_ACL, READ_HELD};

/// A property: one that has a row of its own in the table, or a text.
#[derive(Clone, Copy)]
pub(crate) enum Row {
    ResourceType,
    AskingPrincipal,
    Owner,
    HeldPrivileges,
    DisplayName,
    PrincipalUrl,
    CalendarHome,
    GroupMembers,
    GroupMemberships,
    Etag,
    ContentType,
    ContentLength,
    CalendarData,
    Description,
    Timezone,
    Kinds,
    DataType,
    MaxSize,
    MinDate,
    MaxDate,
    MaxInstances,
    Reports,
    Acl,
    /// Any other name.
    Text,
}

/// On which resources a property is.
#[derive(Clone, Copy)]
pub(crate) enum Place {
    Anywhere,
    /// A home and all in it.
    Owned,
    Principal,
    User,
    Group,
    Calendar,
    /// A principal or a calendar.
    Named,
    Object,
}

/// What lists a property that is not asked for by name.
#[derive(Clone, Copy)]
pub(crate) enum Listing {
    /// `allprop` and `propname`.
    Both,
    /// `propname`.
    Names,
    Neither,
}

/// How a property is set.
#[derive(Clone, Copy)]
pub(crate) enum Setting {
    /// Not at all.
    Protected,
    /// To a text.
    Text,
    /// To the text of a time zone.
    Zone,
    /// To a list of kinds, when the calendar is made.
    Kinds,
}

/// What the table says of a property.
#[derive(Clone, Copy)]
pub(crate) struct Columns {
    pub place: Place,
    /// The privilege that shows it, as a bit; 0 where the resource need only be visible.
    pub needs: u16,
    pub listing: Listing,
    pub setting: Setting,
}

/// A property with the name that it is asked for by.
#[derive(Clone, Copy)]
pub(crate) struct Asked<'a> {
    pub row: Row,
    pub space: &'a [u8],
    pub name: &'a [u8],
}

/// The properties that have rows of their own, in the order in which they are listed.
pub(crate) const ROWS: [Row; 23] = [
    Row::ResourceType,
    Row::AskingPrincipal,
    Row::Owner,
    Row::HeldPrivileges,
    Row::DisplayName,
    Row::PrincipalUrl,
    Row::CalendarHome,
    Row::GroupMembers,
    Row::GroupMemberships,
    Row::Etag,
    Row::ContentType,
    Row::ContentLength,
    Row::CalendarData,
    Row::Description,
    Row::Timezone,
    Row::Kinds,
    Row::DataType,
    Row::MaxSize,
    Row::MinDate,
    Row::MaxDate,
    Row::MaxInstances,
    Row::Reports,
    Row::Acl,
];

/// The namespace of WebDAV (RFC 4918, 21.1).
const DAV: &[u8] = b"DAV:";

/// The namespace of CalDAV (RFC 4791, 4).
const CALDAV: &[u8] = b"urn:ietf:params:xml:ns:caldav";

/// The name of a property that has a row of its own.
pub(crate) fn name_of(row: Row) -> &'static [u8]
    ensures { result.now ≡ (spec.name_of row).name }
{
    match row {
        Row::ResourceType => b"resourcetype",
        Row::AskingPrincipal => b"current-user-principal",
        Row::Owner => b"owner",
        Row::HeldPrivileges => b"current-user-privilege-set",
        Row::DisplayName => b"displayname",
        Row::PrincipalUrl => b"principal-URL",
        Row::CalendarHome => b"calendar-home-set",
        Row::GroupMembers => b"group-member-set",
        Row::GroupMemberships => b"group-membership",
        Row::Etag => b"getetag",
        Row::ContentType => b"getcontenttype",
        Row::ContentLength => b"getcontentlength",
        Row::CalendarData => b"calendar-data",
        Row::Description => b"calendar-description",
        Row::Timezone => b"calendar-timezone",
        Row::Kinds => b"supported-calendar-component-set",
        Row::DataType => b"supported-calendar-data",
        Row::MaxSize => b"max-resource-size",
        Row::MinDate => b"min-date-time",
        Row::MaxDate => b"max-date-time",
        Row::MaxInstances => b"max-instances",
        Row::Reports => b"supported-report-set",
        Row::Acl => b"acl",
        Row::Text => b"",
    }
}

/// Its namespace.
pub(crate) fn space_of(row: Row) -> &'static [u8]
    ensures { result.now ≡ (spec.name_of row).space }
{
    match row {
        Row::CalendarHome
        | Row::CalendarData
        | Row::Description
        | Row::Timezone
        | Row::Kinds
        | Row::DataType
        | Row::MaxSize
        | Row::MinDate
        | Row::MaxDate
        | Row::MaxInstances => CALDAV,
        Row::Text => b"",
        _ => DAV,
    }
}

/// What the table says of a property.
pub(crate) fn columns_of(row: Row) -> Columns
    ensures { (name : Name) → spec.AreColumns result (spec.property_of row name) }
{
    let (place, needs, listing, setting) = match row {
        Row::ResourceType => (Place::Anywhere, 0, Listing::Both, Setting::Protected),
        Row::AskingPrincipal => (Place::Anywhere, 0, Listing::Names, Setting::Protected),
        Row::Owner => (Place::Owned, 0, Listing::Names, Setting::Protected),
        Row::HeldPrivileges => (
            Place::Calendar,
            READ_HELD,
            Listing::Names,
            Setting::Protected,
        ),
        Row::DisplayName => (Place::Named, READ, Listing::Both, Setting::Text),
        Row::PrincipalUrl => (Place::Principal, 0, Listing::Names, Setting::Protected),
        Row::CalendarHome => (Place::User, 0, Listing::Names, Setting::Protected),
        Row::GroupMembers => (Place::Group, 0, Listing::Names, Setting::Protected),
        Row::GroupMemberships => (Place::Principal, 0, Listing::Names, Setting::Protected),
        Row::Etag => (Place::Object, READ, Listing::Both, Setting::Protected),
        Row::ContentType => (Place::Object, READ, Listing::Both, Setting::Protected),
        Row::ContentLength => (Place::Object, READ, Listing::Both, Setting::Protected),
        Row::CalendarData => (Place::Object, READ, Listing::Neither, Setting::Protected),
        Row::Description => (Place::Calendar, READ, Listing::Names, Setting::Text),
        Row::Timezone => (Place::Calendar, READ, Listing::Names, Setting::Zone),
        Row::Kinds => (Place::Calendar, READ, Listing::Names, Setting::Kinds),
        Row::DataType => (Place::Calendar, READ, Listing::Names, Setting::Protected),
        Row::MaxSize => (Place::Calendar, READ, Listing::Names, Setting::Protected),
        Row::MinDate => (Place::Calendar, READ, Listing::Names, Setting::Protected),
        Row::MaxDate => (Place::Calendar, READ, Listing::Names, Setting::Protected),
        Row::MaxInstances => (Place::Calendar, READ, Listing::Names, Setting::Protected),
        Row::Reports => (Place::Calendar, READ, Listing::Names, Setting::Protected),
        Row::Acl => (
            Place::Calendar,
            READ_ACL,
            Listing::Names,
            Setting::Protected,
        ),
        Row::Text => (Place::Calendar, READ, Listing::Both, Setting::Text),
    };
    Columns {
        place,
        needs,
        listing,
        setting,
    }
}

/// The property that a name asks for.
pub(crate) fn asked_for(name: &PropName) -> Asked<'_>
    ensures name { spec.asked_name result ≡ name.now }
    ensures row { table.row_of name.now ≡ spec.property_of result.row name.now }
    ensures own { spec.IsOwnName result.row name.now }
{
    Asked {
        row: row_of(name),
        space: name.space.as_slice(),
        name: name.name.as_slice(),
    }
}

/// The property of a row, under the name of its own.
pub(crate) fn asked_row(row: Row) -> Asked<'static>
    ensures name { spec.asked_name result ≡ spec.name_of row }
    ensures row { result.row ≡ row }
{
    Asked {
        row,
        space: space_of(row),
        name: name_of(row),
    }
}

/// Whether a name has no row of its own.
pub(crate) fn is_text(name: &PropName) -> bool
    ensures { result ≡ table.is_text name.now }
{
    first_named(&ROWS, name).is_none()
}

/// The row of a name.
pub(crate) fn row_of(name: &PropName) -> Row
    ensures row { table.row_of name.now ≡ spec.property_of result name.now }
    ensures own { spec.IsOwnName result name.now }
{
    match first_named(&ROWS, name) {
        Some(row) => *row,
        None => Row::Text,
    }
}

/// The first of some properties that has a name.
fn first_named<'r>(rows: &'r [Row], name: &PropName) -> Option<&'r Row>
    ensures { option_copied result ≡ find (λ row. same_name (spec.name_of row) name.now) rows.now }
{
    rows.iter().find(|row| is_named(**row, name))
}

/// Whether a property has a name.
fn is_named(row: Row, name: &PropName) -> bool
    ensures { result ≡ same_name (spec.name_of row) name.now }
{
    name_of(row) == name.name.as_slice() && space_of(row) == name.space.as_slice()
}
