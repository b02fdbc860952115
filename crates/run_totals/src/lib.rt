//! What the totals of a run have to do with its stores.
//!
//! A law over every run whose workers started: `run_adds_up` says of each of its stores that its book ended as many writes more as the
//! totals say, that its path's good reads, good writes and arm faults rose by them, that it has as many bad blocks more as there were
//! corrupt ones, and that bytes which fitted still do; and of the run that its errors are its findings and that each worker's end has its
//! cause. `run_is_drawn` says that the totals of a store in which nothing went wrong are those of the turns that its workers drew. It stands
//! on `master_run` and on how `run_report` adds totals up.
#![tactic(auto)]

mod law;

pub use law::{run_adds_up, run_is_drawn};
