//! The runs of a plan over journals: the journals are made anew, the runs follow in order, and the journals are closed.
//!
//! `run_over` makes the runs from hands whose books are open journals, of whatever epoch, gives the open passes back and closes the
//! journals. `run_journaled` makes the journals of all stores first. With a status of 0, 1 or 2 each journal stands closed with all records
//! of its book. The disk that the yard keeps at a path is the one that it kept, one that was only read, or what is left of one of these journals.
//! The crate stands on `plan_journals`, `plan_hands` and `plan_runs`.
#![tactic(auto)]

mod journaled;
mod laws;
mod over;

pub use journaled::run_journaled;
pub use laws::journaled_laws;
pub use over::run_over;
