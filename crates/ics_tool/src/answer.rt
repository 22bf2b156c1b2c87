//! What is told of a calendar file.
ghost use Rattle.std.specs.Prelude.{◌≡◌};
ghost use Rattle.ics_tool.specs.Answers as spec;

use cal_base::Octets;
use cal_object::ReadFault;

/// What is told of a calendar file.
#[derive(Drop)]
pub enum Listed {
    /// The lines.
    Text(Octets),
    /// The file is no calendar object. The fault is never want of memory.
    Refused(ReadFault),
    /// The file of the zone has none. The fault is never want of memory.
    ZoneRefused(ReadFault),
    /// The object has more instances than are served, or a rule that recurs by seconds or minutes.
    TooMany,
    /// There was no memory.
    NoMemory,
}

/// What is told where the file is not read.
pub(crate) fn refusal(fault: ReadFault) -> Listed
    ensures { result ≡ spec.refusal fault }
{
    match fault {
        ReadFault::NotCalendar { place } => Listed::Refused(ReadFault::NotCalendar { place }),
        ReadFault::NotResource(why) => Listed::Refused(ReadFault::NotResource(why)),
        ReadFault::DateOutside(kind, stamp) => Listed::Refused(ReadFault::DateOutside(kind, stamp)),
        ReadFault::NoMemory => Listed::NoMemory,
    }
}

/// What is told where the zone is not read.
pub(crate) fn zone_refusal(fault: ReadFault) -> Listed
    ensures { result ≡ spec.zone_refusal fault }
{
    match fault {
        ReadFault::NotCalendar { place } => Listed::ZoneRefused(ReadFault::NotCalendar { place }),
        ReadFault::NotResource(why) => Listed::ZoneRefused(ReadFault::NotResource(why)),
        ReadFault::DateOutside(kind, stamp) => {
            Listed::ZoneRefused(ReadFault::DateOutside(kind, stamp))
        }
        ReadFault::NoMemory => Listed::NoMemory,
    }
}
