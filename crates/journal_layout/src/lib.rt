//! The bytes of a journal's sectors, and what a journal's sectors give.
//!
//! A journal is a row of sectors: two gates, and two areas, each a map of the entries and a log of the records since. This crate
//! reads and writes each sector, one spelling each, and says by `Gives` what is recovered from the sectors of a journal or why
//! it is refused. It stands on `vd_base` (names, geometries) and `key_state` (entries, records).
#![tactic(auto)]

mod bytes;
mod damage;
mod gate;
mod gates;
mod head;
mod live;
mod logs;
mod maps;
mod outcomes;
mod places;
mod records;

pub use damage::Damage;
pub use gate::Gate;
pub use gates::{gate_of, put_gate};
pub use head::Head;
pub use live::Live;
pub use logs::{log_head, put_log_head, tail_is_zero};
pub use maps::{entry_of, put_entry};
pub use outcomes::gives_once;
pub use places::Places;
pub use records::{put_record, record_of};
