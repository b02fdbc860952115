// Why a map gives no entries.
ghost use Rattle.std.specs.Prelude.{◌≡◌};
ghost use Rattle.journal_recover.specs.declared.parts.MapFault.TheVariants.{Failed as MapFailed, NoMemory as MapNoMemory};

use journal_layout::Damage;
use std::alloc::{AllocError, AllocFailed};
use vd_outside::Failed;

/// Why a map's entries weren't read.
#[derive(Clone, Copy, Debug, PartialEq, Eq, Drop)]
pub enum MapFault {
    /// This place of the map has no entry.
    Place(u32),
    /// A read failed.
    Failed,
    /// No memory for the entries.
    NoMemory,
}

impl From<Failed> for MapFault {
    ghost from_gives = { λ _ e. e ≡ MapFailed };

    fn from(_: Failed) -> Self {
        MapFault::Failed
    }
}

impl From<AllocError> for MapFault {
    ghost from_gives = { λ _ e. e ≡ MapNoMemory };

    fn from(_: AllocError) -> Self {
        MapFault::NoMemory
    }
}

impl<T: Drop> From<AllocFailed<T>> for MapFault {
    ghost from_gives = { λ _ e. e ≡ MapNoMemory };

    fn from(_: AllocFailed<T>) -> Self {
        MapFault::NoMemory
    }
}
