// Why definitions are refused.
use parm_value::ValueFault;
use std::alloc::{AllocError, AllocFailed};
use vd_outside::NoMemory;

/// What is wrong with a definition.
#[derive(Clone, Copy, Debug, PartialEq, Eq, Drop)]
pub enum ParmKind {
    /// The word isn't a keyword of this kind.
    UnknownKeyword,
    /// The keyword stood in this definition before, or, of the general ones, in an earlier line.
    RepeatedKeyword,
    /// So many items may not stand there.
    ValueCount,
    /// An item isn't spelled as a number, a size or seconds.
    BadNumber,
    /// An item is spelled so, and out of its range or no multiple of 512 where one is wanted.
    OutOfRange,
    /// An item is none of the choices or no path, or a count stands on a default.
    BadChoice,
    /// A name or a pattern breaks its rule.
    BadName,
    /// Storage definitions and file systems stand in one file.
    BothKinds,
    /// Another definition of the kind has the name.
    NameTaken,
    /// A host is another machine.
    RemoteHost,
    /// The kind has more definitions than may be.
    TooMany,
}

impl From<ValueFault> for ParmKind {
    ghost use Rattle.std.specs.Prelude.{◌≡◌};
    ghost use Rattle.parm_forms.specs.Forms.{kind_of};

    ghost from_gives = { λ fault kind. kind ≡ kind_of fault };

    fn from(fault: ValueFault) -> ParmKind {
        match fault {
            ValueFault::BadNumber => ParmKind::BadNumber,
            ValueFault::OutOfRange => ParmKind::OutOfRange,
        }
    }
}

/// Why a value isn't read.
#[derive(Clone, Copy, Debug, PartialEq, Eq, Drop)]
pub enum ValueRefused {
    Fault(ParmKind),
    /// Memory ran out.
    NoMemory,
}

impl From<ParmKind> for ValueRefused {
    ghost use Rattle.std.specs.Prelude.{◌≡◌};
    ghost use Rattle.parm_forms.specs.declared.fault.ValueRefused.TheVariants.{Fault};

    ghost from_gives = { λ kind refused. refused ≡ Fault kind };

    fn from(kind: ParmKind) -> ValueRefused {
        ValueRefused::Fault(kind)
    }
}

impl From<AllocError> for ValueRefused {
    ghost use Rattle.std.specs.Prelude.{◌≡◌};
    ghost use Rattle.parm_forms.specs.declared.fault.ValueRefused.TheVariants.{NoMemory};

    ghost from_gives = { λ _ refused. refused ≡ NoMemory };

    fn from(_: AllocError) -> ValueRefused {
        ValueRefused::NoMemory
    }
}

impl<T: Drop> From<AllocFailed<T>> for ValueRefused {
    ghost use Rattle.std.specs.Prelude.{◌≡◌};
    ghost use Rattle.parm_forms.specs.declared.fault.ValueRefused.TheVariants.{NoMemory};

    ghost from_gives = { λ _ refused. refused ≡ NoMemory };

    fn from(_: AllocFailed<T>) -> ValueRefused {
        ValueRefused::NoMemory
    }
}

impl From<NoMemory> for ValueRefused {
    ghost use Rattle.std.specs.Prelude.{◌≡◌};
    ghost use Rattle.parm_forms.specs.declared.fault.ValueRefused.TheVariants as variants;

    ghost from_gives = { λ _ refused. refused ≡ variants.NoMemory };

    fn from(_: NoMemory) -> ValueRefused {
        ValueRefused::NoMemory
    }
}
