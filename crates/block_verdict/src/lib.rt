//! Verdicts: what the bytes of a block say beside the entry that a journal has for it.
//!
//! It promises that `verdict` answers the one verdict of these bytes, that it is corrupt exactly where the bytes don't
//! fit the entry, with the first sector and part that differ, and that after `settle` the bytes fit the entry that is
//! left. It stands on `vd_base`, on `key_state` for entries, on `sector_stamp` for images, and takes no memory.
#![tactic(auto)]

mod finding;
mod held;
mod judging;
mod outcome;

pub use finding::Finding;
pub use judging::{settle, verdict, verdict_laws};
pub use outcome::Verdict;

#[cfg(test)]
mod tests;
