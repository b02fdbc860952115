//! The runs of a plan over journals that are recovered: each journal is recovered, each store verified by what its journal gave, the
//! journals are opened in their next epoch with the entries that verification left, and the runs follow over the passes that are open.
//!
//! `run_resumed` does all of that for a command. It says first what a still command says, and where that stops it stops, with nothing
//! written. Then each journal is opened after the settled entries of its store's blocks; where one can't be opened no run starts. In any
//! case all passes and disks go back to the yard. The crate stands on `plan_reopened`, `plan_verified` and `plan_journaled`.
#![tactic(auto)]

mod going;
mod resumed;
mod seating;

pub use resumed::run_resumed;
