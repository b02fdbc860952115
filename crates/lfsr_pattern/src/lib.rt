//! Patterns: 480 bytes that a shift register of 32 bits makes from a seed.
//!
//! It promises that `fill` makes the pattern of its seed and `fill_lanes` those of eight seeds at once, that `is_pattern`
//! says yes to that pattern and to nothing else, that a step of a byte makes eight bits of the recurrence, and that a seed
//! has one pattern. It stands on std alone and takes no memory.
#![tactic(auto)]

mod checking;
mod lanes;
mod making;

pub use checking::{is_pattern, told_by_bytes};
pub use lanes::fill_lanes;
pub use making::{byte_step, fill, one_pattern, seed};

#[cfg(test)]
mod tests;
