//! Plain data of a parameter file: one record for each definition, with one field for each keyword of its kind.
//!
//! What a definition doesn't give stands there from the defaults of its kind, or from the table of keywords; where that has none, an
//! `Option` is None and a list is empty. `AreDefs` of its definitions says what holds of each file that is
//! accepted. It stands on `vd_base`, `vd_list` and `vd_outside`.
#![tactic(auto)]

mod files;
mod general;
mod runs;
mod stores;

pub use files::{FsdDef, FwdDef};
pub use general::{General, HdDef};
pub use runs::RdDef;
pub use stores::{SdDef, WdDef};
