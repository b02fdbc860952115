//! The claim table: many workers write one store, and no block is ever in two operations.
//!
//! It promises, under any schedule of its seats, that no two of them hold one block, that a claimed block's entry and pass are the
//! book's and the block's, that the book is lent to one seat at a time and comes back with each write, clear and bad block counted once,
//! and that closing gives back the passes in block order and the book. What contracts see of a seat is its view (`View`), plain data that
//! only its own calls change; `specs/Rule.antt` says what the views, words, slots and book have to do with each other between any two
//! steps. `claim`, `release` and `look` neither wait nor take memory, nor do `claim_run` and `release_run`, which are made of them;
//! `take_book` waits. While a block's pass is out, its holder's transfers on the device are the Writes, the Ack and the Fault of the core.
//!
//! It stands on `vd_base` (blocks and stores), `vd_arm` (passes), `key_state` (entries and books), `block_verdict` (bytes that fit an
//! entry) and `atomic_table`.
#![tactic(auto)]

mod books;
mod claim;
mod claims;
mod closing;
mod code;
mod opening;
mod rule;
mod run;
mod runs;
mod seats;
mod slot;
mod table;
mod view;

pub use claim::{Claim, Claimed};
pub use closing::untouched_all;
pub use opening::NewRefused;
pub use run::{Run, RunClaim};
pub use table::{ClaimSeat, ClaimTable};
pub use view::{Answer, Item, Made, Try, View};

#[cfg(test)]
mod tests;
