//! Replies.
ghost use Rattle.std.specs.Prelude.{◌≡◌, ◌≤ℤ◌, pos, unsigned_abs};
ghost use Rattle.cal_model.specs.Replies.BareReplies as bare;
ghost use Rattle.cal_model.specs.Replies.DateField.{date_of_moment};
ghost use Rattle.cal_model.specs.Replies.Etags.{etag_of};

use crate::path::Path;
use cal_base::Octets;
use httpdate::HttpDate;
use sha2::{Digest, Sha256};
use std::alloc::Global;

/// The condition that a refusal names (RFC 4918, 16).
#[derive(Drop)]
pub enum Cond {
    /// None: the refusal has no body.
    None,
    /// An element of the namespace of WebDAV, as it is written.
    Dav(Octets),
    /// An element of the namespace of CalDAV, as it is written.
    Cal(Octets),
}

/// Why a request is refused.
#[derive(Drop)]
pub struct Refusal {
    pub status: u16,
    pub cond: Cond,
}

/// What a body is.
#[derive(Clone, Copy, PartialEq, Eq)]
pub enum Media {
    /// No type: there is no body.
    None,
    /// A calendar object, as stored.
    Calendar,
    /// XML.
    Xml,
}

/// An entity tag (RFC 9110, 8.8.3) without its quotes: the SHA-256 of the stored octets in 64
/// lower-case hexadecimal digits.
#[derive(Clone, Copy, PartialEq, Eq)]
pub struct Etag(pub [u8; 64]);

impl Etag {
    /// The tag of stored octets. It takes no memory.
    #[tactic(auto, unfolding(crate::specs::Replies::Etags::etag_of))]
    pub fn of(octets: &[u8]) -> Etag
        ensures { result ≡ etag_of octets.now }
    {
        let digest = Sha256::digest(octets);
        let mut text = [0u8; 64];
        let _ = hex::encode_to_slice(digest.as_slice(), &mut text);
        Etag(text)
    }
}

/// The value of the field Date at a moment, in seconds since 1970 (RFC 9110, 6.6.1). It takes no
/// memory.
pub fn date_value(moment: i64) -> [u8; 29]
    requires from_1970 { pos 0 ≤ℤ moment }
    requires to_9999 { moment ≤ℤ pos 253_402_300_799 }
    ensures { result ≡ date_of_moment (unsigned_abs moment) }
{
    match HttpDate::from_unix_secs(moment as u64) {
        Ok(date) => date.to_bytes(),
        // The moment lies before the year 10000, so this does not come.
        Err(_) => [b' '; 29],
    }
}

/// A reply before it is written.
#[derive(Drop)]
pub struct Reply {
    /// A status that has a reason phrase.
    pub status: u16,
    pub etag: Option<Etag>,
    /// The path whose methods the field Allow lists.
    pub allow: Option<Path>,
    pub media: Media,
    pub body: Octets,
}

/// A reply that is a status alone. It takes no memory.
pub fn bare_reply(alloc: Global, status: u16) -> Reply
    ensures { result ≡ bare.bare_reply status }
{
    Reply {
        status,
        etag: None,
        allow: None,
        media: Media::None,
        body: Octets::new(alloc),
    }
}
