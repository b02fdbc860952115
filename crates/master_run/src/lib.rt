//! A run: all workers of all its stores, at once.
//!
//! It promises that a run takes each store's passes and book and gives them back, whatever happens: as they were where the workers
//! didn't start, and else as the work of its workers made them. `run_one` says of each store that there are its workers' labors, each
//! the turns of its draw over a table of that store (`Ran`), of the yard that each arm that was opened is back (`WereUsed`), and of the
//! errors that they are those from before and each worker's notes. It stands on `slave_worker` (one worker), `claim_table`,
//! `error_limit` and `vd_yard`.
#![tactic(auto)]

mod crew;
mod post;
mod running;

pub use running::run_one;
