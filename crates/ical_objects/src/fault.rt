//! The faults of nesting.
ghost use Rattle.std.specs.Prelude.{◌≡◌};

use cal_base::NoMemory;

/// Why lines make up no tree. Lines are counted from 0.
#[derive(Debug, Clone, Copy, PartialEq, Eq)]
pub enum TreeFault {
    /// The lines end within a component: the line of the innermost open BEGIN, or 0 where there is no
    /// line at all.
    Unclosed { line: u32 },
    /// The first line is no BEGIN, a line stands behind the outermost END, or an END has another name
    /// than the innermost open component.
    WrongEnd { line: u32 },
    /// A BEGIN stands within four open components.
    TooDeep { line: u32 },
    /// There was no memory.
    NoMemory,
}

impl From<NoMemory> for TreeFault {
    ghost use Rattle.ical_objects.specs.declared.fault.TreeFault.TheVariants.{NoMemory};

    ghost from_gives = { λ error fault. fault ≡ NoMemory };

    fn from(_error: NoMemory) -> TreeFault {
        TreeFault::NoMemory
    }
}
