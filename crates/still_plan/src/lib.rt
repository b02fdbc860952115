//! The stores of a plan, as a still command sees them: every journal recovered, then every store verified.
//!
//! `still_stores` says which lines go out, in which order, with which status, for any number of stores, and what stays as it was. It stands
//! on `still_store` (one store) and `run_report` (the lines).
#![tactic(auto)]

mod journals;
mod lines;
mod plan;
mod stores;

pub use journals::say_recovered;
pub use lines::{refuse, say_line};
pub use plan::still_stores;
pub use stores::{status_of, worse};
