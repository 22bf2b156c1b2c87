//! The paths of resources. Names are as they are stored, not percent-encoded.

use cal_base::Octets;

/// A resource by its path.
#[derive(Drop)]
pub enum Path {
    /// `/`.
    Root,
    /// `/principals/U/`, of the name of a user or a group.
    Principal(Octets),
    /// `/calendars/U/`, of a user's name.
    Home(Octets),
    /// `/calendars/U/C/`, of the names of a user and a calendar.
    Calendar(Octets, Octets),
    /// `/calendars/U/C/O`, of the names of a user, a calendar and an object.
    Object(Octets, Octets, Octets),
}

/// The place of an object.
#[derive(Drop)]
pub struct ObjectPath {
    /// The number of the user whose home it is in.
    pub home: u32,
    /// The name of its calendar.
    pub calendar: Octets,
    /// Its own name in the calendar.
    pub object: Octets,
}
