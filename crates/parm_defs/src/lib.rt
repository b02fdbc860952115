//! The definitions of a parameter file, with defaults folded in and counts expanded, or its first fault.
//!
//! `Definitions::read` promises exactly what is defined of the file's lines (`gives`): each definition with the value of each of its
//! keywords, or the fault that a reader of the tables from the first line on comes to first. It stands on
//! `parm_lex` (lines), `parm_forms` (what the items of a keyword spell), `parm_records` (the records), `wildcards` (numbered names),
//! `vd_base` (names of stores), `vd_list` and `vd_outside`.
#![tactic(auto)]

mod copies;
mod definitions;
mod fault;
mod file;
mod given;
mod laws;
mod made;
mod records;
mod whole;

pub use definitions::Definitions;
pub use fault::{DefsRefused, ParmFault};
pub use laws::{definitions_fit, own_else_begun, records_show_all, shown_tells};

#[cfg(test)]
mod tests;
