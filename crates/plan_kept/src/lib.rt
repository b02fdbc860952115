//! What a plan's runs leave of the kept data, and when a command over them says that a block is corrupt.
//!
//! A store's data and its journal are kept apart. These laws bring them together: with a status of 0, 1 or 2 each image that a stop may
//! leave of a closed journal gives entries that the kept bytes of its store fit, and over bytes that fit at first no corrupt block is
//! found. The crate has no code of its own; its laws are used by the call that a program makes.
#![tactic(auto)]

mod laws;

pub use laws::{count_laws, ending_laws, kept_laws, sound_laws};
