//! Worked rows: whole commands over files in memory, with the bytes and the status that each must give.
//!
//! It has tests alone. Journals and images are made here from bytes, apart from the program's writers. It stands on
//! `vdbench_top` (the command) and on `vd_yard`, `vd_disk` and `vd_outside` (what it runs over).
#![tactic(auto)]

#[cfg(test)]
mod image;
#[cfg(test)]
mod journaled;
#[cfg(test)]
mod plans;
#[cfg(test)]
mod refusals;
#[cfg(test)]
mod resumed;
#[cfg(test)]
mod resumed_faults;
#[cfg(test)]
mod runs;
#[cfg(test)]
mod setting;
#[cfg(test)]
mod stores;
#[cfg(test)]
mod tests;
#[cfg(test)]
mod words;
