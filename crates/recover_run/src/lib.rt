//! Verification: each block of a store is read once and compared with what its entry permits.
//!
//! It promises exactly which blocks are read, one finding for each that is corrupt, pending or not readable, and the entry that each
//! block has after it was read. It stands on `block_verdict` (one block) and on the arms of `vd_arm`.
#![tactic(auto)]

mod look;
mod part;

pub use look::Look;
pub use part::verify_part;
