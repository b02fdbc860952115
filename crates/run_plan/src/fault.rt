// Why definitions give no plan.
ghost use Rattle.std.specs.Prelude.{◌≡◌};
ghost use Rattle.run_plan.specs.Outcomes.{Stops, at_line};

use std::alloc::{AllocError, AllocFailed};

/// What is wrong with a definition.
#[derive(Clone, Copy, Debug, PartialEq, Eq, Drop)]
pub enum PlanKind {
    /// There is no run definition; its line is 0.
    NoRuns,
    /// A store's path isn't given.
    PathMissing,
    /// A store's size isn't given.
    SizeMissing,
    /// A tree that breaks a limit; not answered until trees are built.
    BadTree,
    /// A store's path or journal is an earlier store's path or journal, or both are the same.
    PathTaken,
    /// A pattern fits no name, or there is no pattern where one is wanted.
    NothingSelected,
    /// A format of a store that has no tree.
    WrongKind,
    /// The weights of a run's workloads can't add up to 100.
    SkewSum,
    /// A run has more than 100,000 intervals.
    IntervalsMany,
    /// A run has more than 512 workers.
    WorkersMany,
    /// The runs up to this definition are more than 1,000.
    RunsMany,
    /// A transfer isn't 1 to 64 whole blocks of its store.
    TransferNotMultiple,
    /// A store has no whole block, or fewer blocks than one of its transfers.
    SizeSmall,
    /// The blocks up to this store are more than 16,777,216.
    BlocksMany,
    /// A tree or a workload over one stands in the file, and isn't built yet.
    TreeNotBuilt,
}

/// The first fault of definitions.
#[derive(Clone, Copy, Debug, PartialEq, Eq, Drop)]
pub struct PlanFault {
    /// The definition's first line, from 1; 0 for `NoRuns`.
    pub line: u32,
    pub kind: PlanKind,
}

/// Why there is no plan.
#[derive(Clone, Copy, Debug, PartialEq, Eq, Drop)]
pub enum PlanRefused {
    Fault(PlanFault),
    /// Memory ran out.
    NoMemory,
}

impl From<AllocError> for PlanRefused {
    ghost use Rattle.std.specs.Prelude.{◌≡◌};
    ghost use Rattle.run_plan.specs.declared.fault.PlanRefused.TheVariants.{NoMemory};

    ghost from_gives = { λ _ refused. refused ≡ NoMemory };

    fn from(_: AllocError) -> PlanRefused {
        PlanRefused::NoMemory
    }
}

impl<T: Drop> From<AllocFailed<T>> for PlanRefused {
    ghost use Rattle.std.specs.Prelude.{◌≡◌};
    ghost use Rattle.run_plan.specs.declared.fault.PlanRefused.TheVariants.{NoMemory};

    ghost from_gives = { λ _ refused. refused ≡ NoMemory };

    fn from(_: AllocFailed<T>) -> PlanRefused {
        PlanRefused::NoMemory
    }
}

/// A fault of a kind at a line.
pub(crate) fn at_line(line: u32, kind: Option<PlanKind>) -> Option<PlanFault>
    ensures { result ≡ at_line line kind }
{
    match kind {
        Some(kind) => Some(PlanFault { line, kind }),
        None => None,
    }
}

impl From<PlanFault> for PlanRefused {
    ghost use Rattle.std.specs.Prelude.{◌≡◌};
    ghost use Rattle.run_plan.specs.declared.fault.PlanRefused.TheVariants.{Fault};

    ghost from_gives = { λ fault refused. refused ≡ Fault fault };

    fn from(fault: PlanFault) -> PlanRefused {
        PlanRefused::Fault(fault)
    }
}

/// A definition's fault, where it has one.
pub(crate) fn stop(line: u32, kind: Option<PlanKind>) -> Result<(), PlanFault>
    ensures { Stops result line kind }
{
    match kind {
        Some(kind) => Err(PlanFault { line, kind }),
        None => Ok(()),
    }
}
