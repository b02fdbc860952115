//! What the runs of a plan add up to.
//!
//! Laws over all runs of a plan. `runs_add_up`: which of them were made, that the text is theirs, that the errors are their findings, and
//! for each store that its book, its path's counts and its bad blocks rose by what its total lines add up to, and that bytes which fitted
//! still do. `runs_are_drawn`: that the total lines are those of the turns that the workers drew. Both lift `run_totals`'s laws of one run to
//! whatever `plan_runs` makes.
#![tactic(auto)]

mod law;

pub use law::{runs_add_up, runs_are_drawn};
