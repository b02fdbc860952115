//! A parameter file's plan: from its bytes to what it asks for, or to the line that says why it is refused.
//!
//! `plan_of_file` answers the plan that the grammar, the tables of keywords and the steps of the plan make of a file, or the line of
//! its first fault (`plans`), and that is one outcome for each file (`plans_once`). It stands on `parm_lex`, `parm_defs` and `run_plan`, and on `run_report` for the lines.
#![tactic(auto)]

mod file;
mod laws;
mod words;

pub use file::{Unplanned, plan_of_file, plans};
pub use laws::plans_once;
pub use words::{defs_word, lex_word, plan_word};

#[cfg(test)]
mod tests;
