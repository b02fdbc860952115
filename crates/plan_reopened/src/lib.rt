//! The journals of a plan's stores, recovered and opened again in their next epoch.
//!
//! `recover_journals` recovers the journal of each store with the lines of a still command, and keeps the disks out; `give_back` gives such
//! disks back as they were. `reopen_journals` opens each of them in the next epoch, with the entries that it is handed, and says its line.
//! It stops at the first whose last epoch is over or whose disk fails; then all disks that aren't of open journals are back. What is open
//! was opened over what the yard kept as the disks were taken, so that `close_journals` of `plan_journals` closes it. The crate stands on
//! that one (what is kept of open journals), on `still_plan` (the lines of recovery) and on `journal_core` (one journal).
#![tactic(auto)]

mod kept;
mod laws;
mod recovering;
mod reopening;

pub use kept::give_back;
pub use laws::reopen_laws;
pub use recovering::{OpenJournal, OpenJournals, recover_journal, recover_journals};
pub use reopening::{NotReopened, reopen_journal, reopen_journals};
