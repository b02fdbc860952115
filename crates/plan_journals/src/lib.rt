//! The journals of a plan's stores: made anew before a command's first run, and closed after its last.
//!
//! `open_journals` makes the journal of each store and says its line; `close_journals` closes open ones, gives their disks back, and says
//! the line of each that failed only then. Whatever the yard then keeps at a path is what it kept before, a disk that was only read, or
//! what is left of a store's journal. One that was open keeps, where its disk tells, the history of its book in every image since its
//! opening ended. Where its making failed, each image since the disk was handed out gives what that gave, no journal, or the new one, if
//! the disk was at rest. Where memory ran out in making it, it is the disk as it was handed out; status 20 doesn't say so, since it may
//! come of a line too. Closing serves a journal that was opened in a later epoch too: what is promised of it takes the epoch and the
//! entries with which it was opened. The crate stands on `journal_core` (one journal), the yard, and `run_report` (the lines).
#![tactic(auto)]

mod closing;
mod laws;
mod opening;

pub use closing::{Closed, after_closing, after_refusal, close_journal, close_journals};
pub use laws::journal_laws;
pub use opening::{NotOpened, open_journal, open_journals};
