//! Passes and arms: the right to one block, and a worker's way to a device.
//!
//! `Pass` and `Arm` say what the layers above may rely on. `MemPass` and `MemArm` meet it in memory and tell all; `LiarPass` and
//! `LiarArm` meet it too, tell nothing, and lie; `FilePass` and `FileArm` are the real ones and tell nothing. It stands on `vd_base` (block numbers) and `vd_outside` (counts of faults).
#![tactic(auto)]

mod arm;
mod file;
mod liar;
mod memory;
mod runs;

pub use arm::{Arm, Pass};
pub use file::{FileArm, FilePass};
pub use liar::{LiarArm, LiarPass, Lie};
pub use memory::{MemArm, MemPass};
