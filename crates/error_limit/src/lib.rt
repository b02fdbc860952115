//! The error limit: one count of errors that all workers of a run add to.
//!
//! It promises that `note` answers the count from before the run with the notes so far, its own among them, and that `close`
//! answers the count from before the run and all notes, under any schedule of the seats. No two notes get the same answer: once
//! all seats are joined, each count above the one from before, up to the last, was answered to exactly one note, and a seat's
//! answers rise. It stands on `vd_outside` and on `atomic_table`. Neither `note` nor `close` takes memory or waits.
#![tactic(auto)]

mod calls;
mod rule;
mod word;

pub use word::{ErrorSeat, ErrorWord};

#[cfg(test)]
mod tests;
