//! Why octets are not read.
ghost use Rattle.std.specs.Prelude.{◌≡◌};

use cal_base::NoMemory;
use cal_model::{Kind, NotResource};
use cal_moment::Stamp;

/// Why octets are no calendar object, in the order in which this is looked at (RFC 5545, 3.4 to 3.6;
/// RFC 4791, 4.1).
#[derive(Clone, Copy)]
pub enum ReadFault {
    /// They are no calendar. The place is the offset of the first octet of a line: of the line that
    /// cannot stand, or of the BEGIN of the time zone or component that cannot.
    NotCalendar { place: u64 },
    /// The calendar cannot be stored as an object.
    NotResource(NotResource),
    /// A date of an object of this kind, as it is written, lies outside the years that are served.
    DateOutside(Kind, Stamp),
    /// There was no memory.
    NoMemory,
}

impl From<NoMemory> for ReadFault {
    ghost use Rattle.cal_object.specs.declared.fault.ReadFault.TheVariants.{NoMemory as WithoutMemory};

    ghost from_gives = { λ _ fault. fault ≡ WithoutMemory };

    fn from(_error: NoMemory) -> ReadFault {
        ReadFault::NoMemory
    }
}
