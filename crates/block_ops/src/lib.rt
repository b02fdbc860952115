//! Operations on a run of blocks that a seat holds, typed by how far its write has come.
//!
//! A write goes from a claimed run to `Queued` (its beginning is in the book), `Begun` (and no stop can take it back), `Written` (the
//! device has answered) and `Ended` (its end is in the book). Each state owns the run, so nobody else can act on its blocks, and is made
//! by the step before it alone: no data is written whose beginning isn't synced, and no end is recorded before the device has answered.
//! Each call says, in the one record `Acted`, what it did to the book, whether it ended well or not; a refusal gives back what went in,
//! with the entries that the book has, and names its cause. No call takes memory. It stands on `claim_table` (runs, and passes that
//! fit), `key_state` (books and entries), `vd_arm` (passes), `block_verdict` and `sector_stamp`.
#![tactic(auto)]

mod bytes;
mod reading;
mod records;
mod states;

pub use reading::read_block;
pub use states::{
    Begun, Ended, Queued, Written, begin_write, confirm, end_write, mark_bad, queue_begin,
    write_block,
};

#[cfg(test)]
mod tests;
