//! The limits of this server, which stand in no standard. Each is the number that its definition has
//! under the same name: `Words.Limits` the dates and the cost, `Refusals.RequestLimits` the others.

/// The first second that is served, 16000101T000000Z, in seconds since 1970.
pub const FIRST_DATE: i64 = -11_676_096_000;

/// The last second that is served, 21001231T235959Z, in seconds since 1970.
pub const LAST_DATE: i64 = 4_133_980_799;

/// What each change costs beside the octets of its request's body.
pub const CHANGE_COST: u64 = 256;

/// The most octets of one object.
pub const RESOURCE_LIMIT: usize = 262_144;

/// The most octets of an answer to a report or a PROPFIND.
pub const ANSWER_LIMIT: usize = 67_108_864;
