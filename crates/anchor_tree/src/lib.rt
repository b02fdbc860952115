//! Trees of files below an anchor: how many directories and files they have, what those are called, and which block lies where.
//!
//! It promises which trees are refused (`Tree::new`), the exact numbers, sizes and names of the others, and that blocks and the places
//! of files are one to one in order (`blocks_are_places`), that no two directories or files have one name (`names_differ`), that a
//! directory comes behind the one that it stands in (`directories_stand`), and which files a directory has (`files_stand`). It stands
//! on `vd_base` (numbers of blocks) and `vd_outside` (texts).
#![tactic(auto)]

mod blocks;
mod counts;
mod distribution;
mod fault;
mod laws;
mod names;
mod sizes;
mod tree;

pub use distribution::Distribution;
pub use fault::TreeFault;
pub use laws::{blocks_are_places, directories_stand, files_stand, names_differ};
pub use tree::Tree;

#[cfg(test)]
mod tests;
