// Why nothing is selected.
use std::alloc::AllocFailed;

/// Why a list of patterns selects nothing.
#[derive(Clone, Copy, Debug, PartialEq, Eq, Drop)]
pub enum SelectFault {
    /// The pattern at this place fits no name; 0 also where there is no pattern.
    Nothing { pattern: u32 },
    /// Memory ran out.
    NoMemory,
}

impl<T: Drop> From<AllocFailed<T>> for SelectFault {
    ghost use Rattle.std.specs.Prelude.{◌≡◌};
    ghost use Rattle.wildcards.specs.declared.fault.SelectFault.TheVariants.{NoMemory};

    ghost from_gives = { λ _ fault. fault ≡ NoMemory };

    fn from(_: AllocFailed<T>) -> SelectFault {
        SelectFault::NoMemory
    }
}
