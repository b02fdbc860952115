//! The lines of a parameter file: from bytes to words and values, or to the first fault.
//!
//! It promises that `lines` reads exactly what the grammar says, with the fault at which a reader from the left stops in the first
//! faulty line (`found`), that the grammar says nothing else of the file (`only`), and that what is read are pieces of printable text
//! of the file (`spans`). A file has exactly one reading (`file_is_read_once`). One line, where it lies in the file, is read exactly where
//! the grammar in one piece spells it, in whatever order a reader goes (`lines_are_spelled`, `spelled_lines_are_read`). How a file is cut
//! into lines and how one continues another is said by definition alone (`cut_at`, `CutStep`). It stands on std alone.
#![tactic(auto)]

mod bytes;
mod fault;
mod file;
mod item;
mod line;
mod part;
mod span;
mod spelling;

pub use fault::{LexFault, LexRefused, LexWhy};
pub use file::{file_is_read_once, lines};
pub use line::ParmLine;
pub use part::{ParmPart, Parts};
pub use span::{Span, Spans};
pub use spelling::{lines_are_spelled, no_part_is_wanted_at_an_end, spelled_lines_are_read};

#[cfg(test)]
mod tests;
