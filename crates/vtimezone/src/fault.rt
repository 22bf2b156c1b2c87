//! Why there is no table.
use cal_base::NoMemory;

/// Why there is no table.
#[derive(Debug, Clone, Copy, PartialEq, Eq)]
pub enum TableFault {
    /// The parts count more than the limit.
    TooMany,
    /// There was no memory.
    NoMemory,
}

impl From<NoMemory> for TableFault {
    ghost use Rattle.std.specs.Prelude.{◌≡◌};
    ghost use Rattle.vtimezone.specs.declared.fault.TableFault.TheVariants.{NoMemory as WithoutMemory};

    ghost from_gives = { λ _ fault. fault ≡ WithoutMemory };

    fn from(_fault: NoMemory) -> TableFault {
        TableFault::NoMemory
    }
}
