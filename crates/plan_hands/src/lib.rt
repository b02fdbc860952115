//! The stores of a plan while its runs go on: each has a book from the beginning, and passes from the first run on that needs them.
//!
//! It promises that hands and books keep their order and that nothing is lost: `hands_of` puts books into hands and `leave` takes them out
//! again, `open_passes` opens just the passes that a run needs and that aren't open, `part` and `join` take the hands of a run's stores out
//! and put them back, and `leave` gives every open pass back to the yard. It stands on `vd_yard`, on `plan_types` and on the hands of
//! `slave_worker`.
#![tactic(auto)]

mod opening;
mod parting;
mod seating;

pub use opening::{leave, open_passes};
pub use parting::{has_worker, join, part};
pub use seating::hands_of;
