//! The runs of a plan, one after the other.
//!
//! It promises that `run_all` makes the runs in order, each from what the one before left, none once the errors have reached the plan's
//! limit and none behind one whose journal failed or is at its end, whose data couldn't be opened, or that ran out of memory; and that it
//! says the text and answers the status that go with what they did. `run_quietly` does so without journals, and gives back whatever was
//! opened. `say_ran` says the lines of a run and behind them, store by store, one for each of its stores whose book failed or is at the end
//! of its last epoch, and the status is the worst of what was found: a failed journal, the end of a last epoch, a failed device, a corrupt
//! block, in this order (`worse`). Where memory runs out a front of the lines was said. `findings_have_lines` says that whatever a worker
//! finds can be printed. It stands on `master_run` and `run_totals`, on `plan_hands`, on the lines of `run_report` and on `still_plan`'s
//! `say_line`; journals come in by `journal_core`.
#![tactic(auto)]

mod books;
mod law;
mod quiet;
mod running;
mod said;
mod statuses;

pub use books::{BookEnd, RunBook};
pub use law::findings_have_lines;
pub use quiet::run_quietly;
pub use running::run_all;
pub use said::say_ran;
pub use statuses::worse;
