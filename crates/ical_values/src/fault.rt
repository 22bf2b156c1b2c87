//! The faults of a value.
use cal_base::NoMemory;
use cal_moment::Bad;

/// Why a value was not read.
#[derive(Debug, Clone, Copy, PartialEq, Eq)]
pub enum ValueFault {
    /// The text says no value.
    Bad {
        /// The first octet at which no text of the grammar goes on, counted from 0; the length of
        /// the text where only its end comes too early; and 0 where only a zone is missing.
        place: u64,
    },
    /// There was no memory.
    NoMemory,
}

impl From<NoMemory> for ValueFault {
    ghost use Rattle.std.specs.Prelude.{◌≡◌};
    ghost use Rattle.ical_values.specs.declared.fault.ValueFault.TheVariants.{NoMemory as WithoutMemory};

    ghost from_gives = { λ _ fault. fault ≡ WithoutMemory };

    fn from(_error: NoMemory) -> ValueFault {
        ValueFault::NoMemory
    }
}

impl From<Bad> for ValueFault {
    ghost use Rattle.std.specs.Prelude.{◌≡◌};
    ghost use Rattle.ical_values.specs.declared.fault.ValueFault.TheVariants.{Bad as BadValue};

    ghost from_gives = { λ bad fault. fault ≡ BadValue bad.place };

    fn from(bad: Bad) -> ValueFault {
        ValueFault::Bad { place: bad.place }
    }
}
