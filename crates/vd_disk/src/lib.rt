//! Rows of sectors: what a read gives, and what a stop may leave.
//!
//! `Disk` says what the layers above may rely on. `MemDisk` meets it in memory and tells all; `FileDisk` is the real one and tells
//! nothing. It stands on `vd_base` (the sector) and `vd_outside` (counts of faults).
#![tactic(auto)]

mod calls;
mod disk;
mod file;
mod memory;

pub use disk::Disk;
pub use file::FileDisk;
pub use memory::MemDisk;
