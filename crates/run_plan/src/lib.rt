//! From definitions to the plan: what a parameter file asks for, exactly, or its first refusal.
//!
//! It promises the layer above that `plan_of` answers the plan that is defined, or the first fault in the order of the steps
//! (`gives`), and that a plan is valid (`valid`). It stands on `parm_records` (definitions within their ranges), `wildcards`
//! (selections), `plan_types` (what a valid plan is), `vd_base` (names and geometries), `vd_list` (lists) and `vd_outside` (texts).
#![tactic(auto)]

mod fault;
mod hosts;
mod loops;
mod plan;
mod runs;
mod sizes;
mod stores;
mod texts;
mod weights;
mod workers;
mod workloads;

pub use fault::{PlanFault, PlanKind, PlanRefused};
pub use plan::plan_of;

#[cfg(test)]
mod tests;
