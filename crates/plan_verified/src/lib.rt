//! The stores of a plan, verified by what their journals gave, for a command that goes on behind that.
//!
//! `look_at_stores` says just what a still command's verification says, with its status, but where that doesn't stop, each store's passes
//! stay out and the entry that each block has now is at hand; `give_back` takes the passes back. It stands on `still_store` (one store)
//! and on the text and status of `still_plan`.
#![tactic(auto)]

mod back;
mod laws;
mod stores;
mod verified;

pub use back::give_back;
pub use laws::verified_laws;
pub use stores::look_at_stores;
pub use verified::VerifiedStore;
