//! The yard: where a command gets its files, and gives them back.
//!
//! `Yard` says what the layers above may rely on: what is out, each path's counts, what is kept. `MemYard` meets it in memory and
//! tells all; `HostYard` opens real files and tells nothing. It stands on the traits of `vd_outside`, `vd_disk` and `vd_arm`.
#![tactic(auto)]

mod arm_plan;
mod data;
mod disks;
mod fault;
mod host;
mod ledger;
mod memory;
mod path_map;
mod refusals;
mod source_file;
mod yard;

pub use fault::YardFault;
pub use host::HostYard;
pub use memory::MemYard;
pub use yard::Yard;
