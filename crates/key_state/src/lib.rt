//! What is known of a block of a store, the records that change it, and the books that keep them.
//!
//! It promises which records may stand where (`Takes`), what each block's entry is after a list of them (`states`), that a
//! history that is legal block by block is legal record by record, and what every book does (`Book`: `ok`, `err`, `cause`), with
//! `QuietBook` as the one that needs no journal. It stands on `vd_base` and `vd_outside`.
#![tactic(auto)]

mod book;
mod entry;
mod fault;
mod history;
mod quiet;
mod record;
mod seen;
mod step;

pub use book::Book;
pub use entry::{Entry, permits};
pub use fault::BookFault;
pub use history::{entries_stay, history_is_legal, states_append, steps_are_states};
pub use quiet::QuietBook;
pub use record::{Record, apply};
pub use seen::{BookSeen, Origin};
pub use step::{count_used, take_step};
