//! What the words of a command ask for.
//!
//! `command_of` answers a command exactly where the words are its options in any order, each group at most once and the file exactly
//! once, or a schedule and its number. It stands on `parm_value` (how a number is spelled).
#![tactic(auto)]

mod command;
mod words;

pub use command::{Command, Mode};
pub use words::command_of;
