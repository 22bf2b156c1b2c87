//! The faults of bodies.
ghost use Rattle.std.specs.Prelude.{◌≡◌};

use cal_base::NoMemory;

/// Why something in a body cannot stand, in the order in which reasons are weighed at one place.
#[derive(Debug, Clone, Copy, PartialEq, Eq)]
pub enum Why {
    /// The declaration names another encoding than UTF-8.
    Encoding,
    /// A markup is none by itself, or cannot stand where it is.
    Syntax,
    /// A document type.
    Dtd,
    /// A reference to another entity than the five, or to no character.
    Entity,
    /// A prefix that is not declared.
    Prefix,
    /// An element within 32 others.
    TooDeep,
    /// The body ends before its root is closed, or within a markup.
    Cut,
}

/// Why octets are no body.
#[derive(Debug, Clone, Copy, PartialEq, Eq)]
pub enum BodyFault {
    /// The first fault: the offset of the octet at which it stands, and why it is one.
    At { place: u64, why: Why },
    /// There was no memory, or none is given for so many copies of the body's namespaces.
    NoMemory,
}

impl From<NoMemory> for BodyFault {
    ghost use Rattle.dav_body.specs.declared.fault.BodyFault.TheVariants.{NoMemory};

    ghost from_gives = { λ error fault. fault ≡ NoMemory };

    fn from(_error: NoMemory) -> BodyFault {
        BodyFault::NoMemory
    }
}

/// A fault at its place, an offset of an octet.
#[derive(Debug, Clone, Copy, PartialEq, Eq)]
pub struct Fault {
    pub place: u64,
    pub why: Why,
}
