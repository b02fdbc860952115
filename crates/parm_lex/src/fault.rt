// Why a parameter file could not be read.
ghost use Rattle.std.specs.Prelude.{◌≡◌};
ghost use Rattle.parm_lex.specs.declared.fault.LexRefused.TheVariants.{NoMemory, Fault};

use std::alloc::{AllocError, AllocFailed};

/// What is wrong at a place of a line.
#[derive(Clone, Copy, Debug, PartialEq, Eq, Drop)]
pub enum LexWhy {
    /// The file has more than 1,048,576 bytes; at line 0, column 0.
    FileTooLong,
    /// The line has more than 4,096 bytes; at column 4,097.
    LineTooLong,
    /// A part is wanted, and this byte can't begin a word.
    EmptyPart,
    /// No `=` stands behind a word.
    MissingEquals,
    /// An item is wanted, and none begins here.
    EmptyValue,
    /// A quoted item isn't closed before the line's end or a tab.
    UnclosedQuote,
    /// A list isn't closed before the line's end.
    UnclosedParen,
    /// This printable byte can't stand behind a value, or inside a list behind an item.
    AfterValue,
    /// This byte is no blank and isn't printable.
    BadByte,
    /// The file ends while the line is continued; one past the line's end.
    OpenEnd,
}

/// The first fault of a file: where it is, lines and columns from 1, and what it is.
#[derive(Clone, Copy, Debug, PartialEq, Eq, Drop)]
pub struct LexFault {
    pub line: u32,
    pub column: u32,
    pub why: LexWhy,
}

/// Why a file was not read.
#[derive(Clone, Copy, Debug, PartialEq, Eq, Drop)]
pub enum LexRefused {
    /// The file has this fault.
    Fault(LexFault),
    /// Memory ran out.
    NoMemory,
}

impl From<LexFault> for LexRefused {
    ghost from_gives = { λ fault refused. refused ≡ Fault fault };

    fn from(fault: LexFault) -> LexRefused {
        LexRefused::Fault(fault)
    }
}

impl From<AllocError> for LexRefused {
    ghost from_gives = { λ _ refused. refused ≡ NoMemory };

    fn from(_: AllocError) -> LexRefused {
        LexRefused::NoMemory
    }
}

impl<T: Drop> From<AllocFailed<T>> for LexRefused {
    ghost from_gives = { λ _ refused. refused ≡ NoMemory };

    fn from(_: AllocFailed<T>) -> LexRefused {
        LexRefused::NoMemory
    }
}
