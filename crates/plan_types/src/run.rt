// Runs: what their workers do to which stores.
use vd_list::Items;
use vd_outside::Text;

/// Whether a run builds the trees of its stores before its work, or does nothing else.
#[derive(Clone, Copy, Debug, PartialEq, Eq, Drop)]
pub enum Format {
    No,
    Yes,
    Only,
}

/// What a workload does to one store in a run.
#[derive(Drop)]
pub struct Share {
    /// The workload's name.
    pub workload: Text,
    /// The store's place in the plan's stores, from 0.
    pub store: u32,
    /// The bytes of one transfer: 1 to 64 whole blocks of the store.
    pub xfersize: u32,
    /// Of 100 turns, so many read.
    pub rdpct: u32,
    /// Of 100 turns, so many go to a random block.
    pub seekpct: u32,
    /// Its part among the shares of its store, 1 to 100.
    pub weight: u32,
}

/// A worker of a run.
#[derive(Clone, Copy, Debug, PartialEq, Eq, Drop)]
pub struct WorkerPlan {
    /// Its number in the run, from 0.
    pub number: u32,
    /// The slave that it belongs to, from 1.
    pub slave: u32,
    /// Its store's place in the plan's stores, from 0.
    pub store: u32,
    /// The block at which its turns in order begin.
    pub start: u32,
}

/// One run.
#[derive(Drop)]
pub struct RunPlan {
    /// Its number among all runs, from 1.
    pub number: u32,
    /// The line of its definition, from 1.
    pub line: u32,
    /// The name of its definition.
    pub name: Text,
    /// Turns a second that are due over all its workers; 0 where they are due as soon as can be.
    pub iorate: u32,
    /// When it ends, in seconds.
    pub elapsed: u32,
    /// The seconds of one row of its report.
    pub interval: u32,
    /// The turns that each worker makes at most.
    pub turns: u32,
    pub format: Format,
    /// How many slaves its workers are dealt to.
    pub slaves: u32,
    /// Workload by workload, and in it store by store.
    pub shares: Items<Share>,
    /// By their numbers.
    pub workers: Items<WorkerPlan>,
}
