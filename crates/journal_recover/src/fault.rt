// Why nothing is recovered.
ghost use Rattle.std.specs.Prelude.{◌≡◌};
ghost use Rattle.journal_recover.specs.declared.fault.RecoverFault.TheVariants.{Failed as FailedFault, NoMemory};

use journal_layout::Damage;
use std::alloc::{AllocError, AllocFailed};
use vd_base::StoreId;
use vd_outside::Failed;

/// Why a journal gives nothing.
#[derive(Clone, Copy, Debug, PartialEq, Eq, Drop)]
pub enum RecoverFault {
    /// Neither gate is valid.
    NoJournal,
    /// The live gate is another store's.
    Mismatch { found: StoreId, wanted: StoreId },
    /// A sector is missing, or one is wrong at a place in it.
    Damaged { sector: u64, what: Damage, at: u32 },
    /// A read failed.
    Failed,
    /// No memory for the entries.
    NoMemory,
}

impl From<Failed> for RecoverFault {
    ghost from_gives = { λ _ e. e ≡ FailedFault };

    fn from(_: Failed) -> Self {
        RecoverFault::Failed
    }
}

impl From<AllocError> for RecoverFault {
    ghost from_gives = { λ _ e. e ≡ NoMemory };

    fn from(_: AllocError) -> Self {
        RecoverFault::NoMemory
    }
}

impl<T: Drop> From<AllocFailed<T>> for RecoverFault {
    ghost from_gives = { λ _ e. e ≡ NoMemory };

    fn from(_: AllocFailed<T>) -> Self {
        RecoverFault::NoMemory
    }
}
