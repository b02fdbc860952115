//! Recovery of a journal: its live area, its stored records, and the entry of each block after them.
//!
//! `recovered` answers exactly what the disk's sectors give by the definition `Gives` of `journal_layout`, of whatever contents,
//! and writes nothing. `area_log` is the one body that reads a log; it hands each record on to a `RecordSink`. It stands on `journal_layout` (the bytes), `key_state` (entries and records) and `vd_disk` (the disk).
#![tactic(auto)]

mod fault;
mod found;
mod gates;
mod logs;
mod maps;
mod parts;
mod places;
mod recover;
mod sectors;
mod sink;
#[cfg(test)]
mod tests;

pub use fault::RecoverFault;
pub use found::Recovered;
pub use gates::{gate_at, live_of, wanted_gate};
pub use logs::area_log;
pub use places::log_sector;
pub use recover::{area_map, recover_area, recovered};
pub use sink::{NoSink, RecordSink};
