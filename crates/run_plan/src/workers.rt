// The workers of a run.
ghost use Rattle.std.specs.Prelude.{◌≡◌, ◌++◌, ◌<◌, ◌≤◌, ◌+◌, ◌*◌, ◌^◌, [], All, IfOk, IfSome, OnOk, Some, length, map, slice_get};
ghost use Rattle.plan_types.specs.Valid.{IsStore};
ghost use Rattle.run_plan.specs.Drafts.{IsDraft};
ghost use Rattle.run_plan.specs.Runs.{or_else};
ghost use Rattle.run_plan.specs.Workers.{run_of, worker_of, workers_at, workers_of};

use crate::runs::{Draft, or_else, stores_of};
use plan_types::{RunPlan, StorePlan, WorkerPlan};
use std::alloc::{AllocError, Global};
use vd_list::Items;

/// The i-th of so many workers of a store.
fn worker_of(
    plan: &StorePlan,
    store: u32,
    slaves: u32,
    many: u32,
    number: u32,
    i: u32,
) -> WorkerPlan
    requires slaves { 0 < slaves }
    requires i { i < many }
    requires number { number + i < 2 ^ 31 }
    ensures { result ≡ worker_of plan.now store slaves many number i }
{
    let number = number + i;
    WorkerPlan {
        number,
        slave: number % slaves + 1,
        store,
        start: (i as u64 * plan.id.geometry.blocks() as u64 / many as u64) as u32,
    }
}

/// Adds a store's workers, numbered behind those before.
fn push_workers(
    plan: &StorePlan,
    store: u32,
    slaves: u32,
    choice: Option<u32>,
    workers: &mut Vec<WorkerPlan>,
) -> Result<(), AllocError>
    requires slaves { 0 < slaves }
    requires many { length workers.old.items + or_else choice plan.now.threads < 2 ^ 31 }
    ensures many { OnOk result (length workers.new.items ≡ length workers.old.items + or_else choice plan.now.threads) }
    ensures value { OnOk result (workers.new.items ≡ workers.old.items ++ workers_at (Some plan.now) store slaves choice (length workers.old.items)) }
{
    let many = or_else(choice, plan.threads);
    let number = workers.len() as u32;
    for i in 0..many {
        workers.push(worker_of(plan, store, slaves, many, number, i))?;
    }
    Ok(())
}

/// Adds the workers of the store at a place, where there is one.
fn push_workers_at(
    plans: &[StorePlan],
    store: u32,
    slaves: u32,
    choice: Option<u32>,
    workers: &mut Vec<WorkerPlan>,
) -> Result<(), AllocError>
    requires slaves { 0 < slaves }
    requires before { length workers.old.items ≤ 2 ^ 24 * 64 }
    requires choice { IfSome choice (λ n. n < 2 ^ 24) }
    requires plans { All IsStore plans.now }
    ensures value { OnOk result (workers.new.items ≡ workers.old.items ++ workers_at (slice_get plans.now store) store slaves choice (length workers.old.items)) }
    ensures few { OnOk result (length workers.new.items ≤ length workers.old.items + 2 ^ 24) }
{
    match plans.get(store as usize) {
        None => Ok(()),
        Some(plan) => push_workers(plan, store, slaves, choice, workers),
    }
}

/// The workers of stores, numbered store by store.
fn workers_of(
    alloc: Global,
    plans: &[StorePlan],
    slaves: u32,
    choice: Option<u32>,
    stores: &[u32],
) -> Result<Items<WorkerPlan>, AllocError>
    requires slaves { 0 < slaves }
    requires few { length stores.now ≤ 64 }
    requires choice { IfSome choice (λ n. n < 2 ^ 24) }
    requires plans { All IsStore plans.now }
    ensures { IfOk result (λ workers. workers ≡ workers_of plans.now slaves choice [] stores.now) }
{
    let mut workers = Vec::new(alloc);
    for store in stores {
        push_workers_at(plans, *store, slaves, choice, &mut workers)?;
    }
    Ok(Items::of(workers))
}

/// A run with its workers.
fn run_of(alloc: Global, plans: &[StorePlan], draft: Draft) -> Result<RunPlan, AllocError>
    requires slaves { 0 < draft.run.slaves }
    requires few { length plans.now ≤ 64 }
    requires choice { IfSome draft.threads (λ n. n < 2 ^ 24) }
    requires plans { All IsStore plans.now }
    ensures { IfOk result (λ run. run ≡ run_of plans.now draft) }
{
    let stores = stores_of(alloc, plans.len() as u32, draft.run.shares.as_slice())?;
    let workers = workers_of(
        alloc,
        plans,
        draft.run.slaves,
        draft.threads,
        stores.as_slice(),
    )?;
    Ok(RunPlan {
        workers,
        ..draft.run
    })
}

/// The runs with their workers.
pub(crate) fn runs_of(
    alloc: Global,
    plans: &[StorePlan],
    drafts: Items<Draft>,
) -> Result<Items<RunPlan>, AllocError>
    requires drafts { All IsDraft drafts }
    requires few { length plans.now ≤ 64 }
    requires plans { All IsStore plans.now }
    ensures value { IfOk result (λ runs. runs ≡ map (run_of plans.now) drafts) }
    ensures many { IfOk result (λ runs. length runs ≡ length drafts) }
{
    let mut runs = Vec::new(alloc);
    for draft in drafts.into_vec() {
        runs.push(run_of(alloc, plans, draft)?)?;
    }
    Ok(Items::of(runs))
}
