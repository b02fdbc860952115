//! A journal's records, listed and audited.
//!
//! `list` gives exactly the records that recovery reads, each with its sector and its place there, the live map, and what else stands
//! in the journal: log sectors behind the end that are of the same epoch, and the area of the epoch before. It refuses where recovery
//! refuses, with the records before the damage, and writes nothing. It stands on `journal_layout` (the bytes, and what they give),
//! `journal_recover` (the one body that reads a log), `key_state` (entries, records) and `vd_disk` (the disk).
#![tactic(auto)]

mod audits;
mod before;
mod counts;
mod kept;
mod listing;
mod lists;
mod outcome;
#[cfg(test)]
mod tests;
mod unused;
mod window;

pub use audits::audit;
pub use listing::{ListFault, Listing};
pub use lists::list;
pub use outcome::Audit;
