//! Plain data of a plan: what a command does to which stores.
//!
//! `IsPlan` of its definitions says which plans are valid: within the limits, with stores, shares and workers that belong together. It
//! stands on `vd_base` (names and geometries), `vd_outside` (texts) and `vd_list` (lists).
#![tactic(auto)]

mod plan;
mod run;
mod store;

pub use plan::Plan;
pub use run::{Format, RunPlan, Share, WorkerPlan};
pub use store::StorePlan;
