//! The draws of a worker: which blocks it reads or writes, turn after turn.
//!
//! It promises that `Draw::next` answers exactly the next turn, which numbers of the plan alone determine, and that the list of
//! the turns drawn grows by it; a turn's share is one of the worker's store, and its whole transfer lies in the store. Each worker
//! of a valid plan can draw (`runs_can_draw`). It stands on `vd_base`, `vd_outside`, `vd_list`, `plan_types` and on the generator
//! of `rand_pcg`. Drawing takes no memory.
#![tactic(auto)]

mod draw;
mod laws;
mod task;
mod turn;
mod words;

pub use draw::Draw;
pub use laws::runs_can_draw;
pub use task::{StoreShare, Task};
pub use turn::Turn;

#[cfg(test)]
mod tests;
