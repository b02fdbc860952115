//! The top call: a command, from its words to its status.
//!
//! It promises what a command prints and how it ends, by what it finds outside; that a status of a fault comes only by its cause; and
//! that nothing which it opened stays out. It stands on all layers below.
#![tactic(auto)]

mod run;
mod simulation;
mod source;
mod still;
mod words;

pub use command_words::{Command, Mode};
pub use run::vdbench;
pub use still::vdbench_still;
pub use words::command_of;
