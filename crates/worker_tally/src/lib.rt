//! What a worker's turns add up to.
//!
//! A turn that had its blocks is told as plain data (`Done`): how far its reads and its write came. `Tally::add` counts it, once in the
//! worker's numbers and once in the row of the interval in which its last transfer ended, and says exactly what it changed; `push` keeps
//! a finding, `turn_away` counts a turn that had none of its blocks. No call but `new` takes memory. It stands on `vd_base`,
//! `vd_outside` and on `block_verdict` for findings.
#![tactic(auto)]

mod done;
mod law;
mod row;
mod tally;

pub use done::{Done, Look, Put, Refusal, Timed};
pub use law::{rows_add_up, rows_fit, turns_stay_small};
pub use row::{IntervalRow, Intervals};
pub use tally::{Numbers, Tally};

#[cfg(test)]
mod tests;
