//! The journal of a store, written: made new, opened in a new epoch, appended to, made to outlive stops, turned over, closed.
//!
//! `JournalBook` is a `Book` over any `Disk`. Whatever a stop leaves of a disk that tells its sectors, at each moment since the opening
//! ended, is a journal that recovery reads: the states after a front of the records that the calls named, which holds every synced one,
//! or during a turnover the next epoch. Within the opening of a disk at rest it is what was there before, what is opened, or, while a
//! journal is made, none. The law `one_history` says so of every book, by what recovery gives alone; the appends, `turnover` and `flush`
//! say how a book's story goes on; `create`, `open_after` and `close` say what they leave. It stands on `journal_layout` (the bytes, and
//! what they give), `key_state` (records, entries, books) and `vd_disk` (the disk).
#![tactic(auto)]

mod book;
mod device;
mod fault;
mod places;
mod records;
mod sector;
#[cfg(test)]
mod tests;

pub use book::JournalBook;
pub use fault::{OpenFault, OpenRefused};
