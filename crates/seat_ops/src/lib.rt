//! Operations of a seat that holds a run of blocks, each of which takes the book, makes one operation on it, and gives it back.
//!
//! It promises, under any schedule of the other seats, that each call does to the seat's view what its operation did to the book for the
//! run's blocks, and nothing else: the entries that the seat has for them, the blocks whose write it ended, and those that it made bad.
//! After a good `confirm_begun` each block is pending in what is synced, as the seat's view tells. Each call may wait for the book and
//! for nothing else. It stands on `claim_table` and `block_ops`.
#![tactic(auto)]

mod uses;

pub use uses::{confirm_begun, end_written, make_bad, queue_held};
