//! Privileges on a calendar (RFC 3744, 3 and 5.5; RFC 4791, 6.1.1).

use cal_base::List;

// The bits of the privileges, as the definition has them (`Access.Privileges`).

/// The bit of CALDAV:read-free-busy.
pub const READ_FREE_BUSY: u16 = 1;

/// The bit of DAV:read.
pub const READ: u16 = 2;

/// The bit of DAV:write-content.
pub const WRITE_CONTENT: u16 = 4;

/// The bit of DAV:write-properties.
pub const WRITE_PROPERTIES: u16 = 8;

/// The bit of DAV:bind.
pub const BIND: u16 = 16;

/// The bit of DAV:unbind.
pub const UNBIND: u16 = 32;

/// The bit of DAV:read-acl.
pub const READ_ACL: u16 = 64;

/// The bit of DAV:write-acl.
pub const WRITE_ACL: u16 = 128;

/// The bit of DAV:read-current-user-privilege-set.
pub const READ_HELD: u16 = 256;

/// All that change what a calendar has, as DAV:write contains them.
pub const WRITE: u16 = 60;

/// All nine, as DAV:all contains them.
pub const ALL: u16 = 511;

/// Who a grant is for.
#[derive(Clone, Copy, PartialEq, Eq)]
pub enum Who {
    /// Every user.
    Everyone,
    /// The owner of the calendar.
    Owner,
    /// The user of that number.
    Principal(u32),
    /// The members of the group of that number.
    Group(u32),
}

/// A set of privileges: nine bits, one for each.
#[derive(Clone, Copy, PartialEq, Eq)]
pub struct PrivilegeSet(pub u16);

/// What is granted to whom.
#[derive(Clone, Copy, PartialEq, Eq)]
pub struct Grant {
    pub who: Who,
    pub held: PrivilegeSet,
}

/// The grants of a calendar, at most 64. Its owner holds all privileges without a grant.
#[derive(Drop)]
pub struct Acl {
    pub grants: List<Grant>,
}
