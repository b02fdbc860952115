// Why definitions are refused.
ghost use Rattle.std.specs.Prelude.{◌≡◌};
ghost use Rattle.parm_defs.specs.Answers.{fault_at};
ghost use Rattle.parm_defs.specs.declared.fault.DefsRefused.TheVariants.{Fault, NoMemory};

use parm_forms::ParmKind;
use std::alloc::{AllocError, AllocFailed};
use vd_outside::NoMemory;

/// The first fault of a file's definitions: what it is, and its line, from 1.
#[derive(Clone, Copy, Debug, PartialEq, Eq, Drop)]
pub struct ParmFault {
    /// That of the part, or for what is wrong with a whole definition its first.
    pub line: u32,
    pub kind: ParmKind,
}

/// Why a file's definitions were not read.
#[derive(Clone, Copy, Debug, PartialEq, Eq, Drop)]
pub enum DefsRefused {
    /// They have this fault.
    Fault(ParmFault),
    /// Memory ran out.
    NoMemory,
}

impl DefsRefused {
    /// A fault that is found on a line.
    pub fn at(line: u32, kind: ParmKind) -> DefsRefused
        ensures { result ≡ Fault (fault_at line kind) }
    {
        DefsRefused::Fault(ParmFault { line, kind })
    }
}

impl From<NoMemory> for DefsRefused {
    ghost from_gives = { λ _ refused. refused ≡ NoMemory };

    fn from(_: NoMemory) -> DefsRefused {
        DefsRefused::NoMemory
    }
}

impl From<AllocError> for DefsRefused {
    ghost from_gives = { λ _ refused. refused ≡ NoMemory };

    fn from(_: AllocError) -> DefsRefused {
        DefsRefused::NoMemory
    }
}

impl<T: Drop> From<AllocFailed<T>> for DefsRefused {
    ghost from_gives = { λ _ refused. refused ≡ NoMemory };

    fn from(_: AllocFailed<T>) -> DefsRefused {
        DefsRefused::NoMemory
    }
}
