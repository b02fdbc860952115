//! What a command prints: its lines, how they go out, and the status that it ends with.
//!
//! Each line is exactly its definition. `Printer` lets lines go out as the work goes on, and nothing after a write that failed. It
//! stands on plain data of the layers below, on `vd_outside` (`Text`, `Sink`) and on `worker_tally` for what a run prints.
#![tactic(auto)]

mod finding;
mod journal;
mod plan;
mod plan_print;
mod printer;
mod run_lines;
mod run_print;
mod run_sums;
mod simulation;
mod status;
mod words;

pub use finding::{Verified, finding_line, verified_line};
pub use journal::{
    damaged_line, epoch_end_line, journal_fault_line, journal_line, mismatch_line, no_journal_line,
    opened_line,
};
pub use plan::{parameter_column_line, parameter_line, run_line, share_line, store_line};
pub use plan_print::say_plan;
pub use printer::Printer;
pub use run_print::say_run_text;
pub use run_sums::{Group, Totals};
pub use simulation::{Simulated, simulation_line};
pub use status::{Status, last_lines};
pub use words::{cannot_open_line, cannot_read_line, usage_line};

#[cfg(test)]
mod tests;
