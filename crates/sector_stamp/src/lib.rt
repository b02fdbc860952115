//! Stamps: what each sector of a store holds after a write with a key, and how a sector that was read differs from it.
//!
//! A sector's image has the address at which it begins, the key with a check byte, the store's name and a pattern of
//! address and key. It promises that `stamp` and `stamp_block` make the image, that `first_difference` finds none
//! exactly at the image, that an image is one list of bytes, and that no other name, address or key has it.
//! It stands on `vd_base` for names and places and on `lfsr_pattern` for the pattern, and takes no memory.
#![tactic(auto)]

mod comparing;
mod heading;
mod part;
mod stamping;

pub use comparing::first_difference;
pub use part::Part;
pub use stamping::{image_laws, stamp, stamp_block};

#[cfg(test)]
mod tests;
