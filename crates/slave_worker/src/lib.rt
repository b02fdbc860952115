//! A worker's work in a run: turn after turn it claims a run of blocks, reads or writes it, checks what it read, and releases it.
//!
//! It promises what each turn did and that all of a worker's numbers, lists, claims and calls are those of its turns: `work` says that
//! there is a list of turns (`Did`), the first ones of its draw, each by the rules (`IsTurn`), which made the seat's view, the tally, the
//! arm's counts, the notes of errors and the clock from what they were before (`Worked`), and why the work ended (`Finished`).
//! `turns_add_up` says what all of these have to do with each other, whatever the turns were, and `draws_add_up` what a worker's numbers
//! have to do with its draw. Data is written by `block_ops` alone, so
//! only over a synced beginning. It may wait for the book, for a turn to be due, and at the gate; it takes no memory. It stands on
//! `seat_ops` and `block_ops`, `claim_table`, `worker_tally`, `workload_gen`, `error_limit` and `plan_types`.
#![tactic(auto)]

mod device;
mod did;
mod hand;
mod law;
mod marking;
mod turning;
mod watch;
mod working;
mod writing;

pub use did::{Did, Rules, WorkEnd};
pub use hand::{RunAnswer, RunFault, StoreHand};
pub use law::{draws_add_up, turns_add_up};
pub use working::{one_turn, work};
