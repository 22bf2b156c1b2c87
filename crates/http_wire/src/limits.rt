//! The limits of what comes on a connection that several parts of the reading know.

/// The most octets of a head, with the empty lines before it.
pub(crate) const HEAD_LIMIT: usize = 16_384;

/// The most octets of a body.
pub(crate) const BODY_LIMIT: usize = 1_048_576;

/// The most requests of a connection: the reply to the last of them says that it closes.
pub const REQUEST_LIMIT: usize = 1_000;
