//! One store, as a still command sees it: its journal recovered, and its blocks verified.
//!
//! `recover_store` opens a store's journal, recovers it and gives it back; `verify_store` opens a store's passes and an arm, verifies each
//! block, prints what is found and gives them back. `look_at_store` does the same, but keeps the passes and answers the entry that each block
//! has then. None of them writes a journal or changes a block. It stands on `journal_recover`, `recover_run`, `run_report` and the yard.
#![tactic(auto)]

mod recovery;
mod verification;

pub use recovery::{NotRecovered, recover_store};
pub use verification::{Looked, NotVerified, look_at_store, verify_store};
