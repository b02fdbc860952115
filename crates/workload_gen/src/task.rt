// What a worker's turns are drawn from.
ghost use Rattle.std.specs.Prelude.{◌≡◌, ◌<◌, ◌≤◌, IfOk, length};
ghost use Rattle.workload_gen.specs.Task.{shares_of, task_of, weight_of};

use plan_types::{RunPlan, Share, WorkerPlan};
use std::alloc::{AllocError, Global};
use vd_base::Geometry;
use vd_list::Items;

/// A share of the worker's store.
#[derive(Clone, Copy, Debug, PartialEq, Eq, Drop)]
pub struct StoreShare {
    /// Its place in the run's shares, from 0.
    pub place: u32,
    /// Its part among the shares of its store.
    pub weight: u32,
    /// Of 100 turns, so many read.
    pub rdpct: u32,
    /// Of 100 turns, so many go to a random block.
    pub seekpct: u32,
    /// The blocks of one transfer.
    pub many: u32,
}

/// What determines the turns of a worker.
#[derive(Drop)]
pub struct Task {
    /// The run's number.
    pub run: u32,
    /// The worker's number in the run, from 0.
    pub worker: u32,
    /// How many workers the run has.
    pub workers: u32,
    /// Turns a second that are due over all the run's workers; 0 where they are due as soon as can be.
    pub rate: u32,
    /// The blocks of the worker's store.
    pub blocks: u32,
    /// The block at which its turns in order begin.
    pub start: u32,
    /// The shares of its store, in the run's order.
    pub shares: Items<StoreShare>,
}

/// The shares of a store among those of a run.
fn store_shares(
    alloc: Global,
    shares: &[Share],
    store: u32,
    block_size: u32,
) -> Result<Vec<StoreShare>, AllocError>
    requires few { length shares.now ≤ 4096 }
    requires size { 0 < block_size }
    ensures value { IfOk result (λ found. found.items ≡ shares_of block_size store shares.now) }
    ensures few { IfOk result (λ found. length found.items ≤ 4096) }
{
    let mut found = Vec::new(alloc);
    for (place, share) in shares.iter().enumerate() {
        if share.store == store {
            found.push(StoreShare {
                place: place as u32,
                weight: share.weight,
                rdpct: share.rdpct,
                seekpct: share.seekpct,
                many: share.xfersize / block_size,
            })?;
        }
    }
    Ok(found)
}

/// The weights of shares, added up.
pub(crate) fn weight_of(shares: &[StoreShare]) -> u64
    requires few { length shares.now ≤ 4096 }
    ensures value { result ≡ weight_of shares.now }
{
    let mut weight = 0;
    for share in shares {
        weight += u64::from(share.weight);
    }
    weight
}

impl Task {
    /// The task of a worker of the run, over a store of this geometry.
    pub(crate) fn of(
        alloc: Global,
        run: &RunPlan,
        worker: &WorkerPlan,
        geometry: &Geometry,
    ) -> Result<Task, AllocError>
        requires shares { length run.now.shares ≤ 4096 }
        requires workers { length run.now.workers ≤ 512 }
        ensures value { IfOk result (λ task. task ≡ task_of run.now worker.now geometry.now) }
        ensures few { IfOk result (λ task. length task.shares ≤ 4096) }
        ensures few_blocks { IfOk result (λ task. task.blocks ≤ 16777216) }
    {
        let block_size = geometry.block_size();
        let shares = store_shares(alloc, run.shares.as_slice(), worker.store, block_size)?;
        Ok(Task {
            run: run.number,
            worker: worker.number,
            workers: run.workers.as_slice().len() as u32,
            rate: run.iorate,
            blocks: geometry.blocks(),
            start: worker.start,
            shares: Items::of(shares),
        })
    }
}
