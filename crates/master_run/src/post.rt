// One worker with all that it needs.
ghost use Rattle.std.specs.Prelude.{◌≡◌, ◌≤◌, ◌<◌, ◌+◌, [], IfOk, length, All, Some};
ghost use Rattle.claim_table.specs.Seats.{made_in};
ghost use Rattle.slave_worker.specs.Ends.{HasBytes, IsWorkOf, rules_of};
ghost use Rattle.slave_worker.specs.Standings.{AreIntervals};
ghost use Rattle.workload_gen.specs.Task.{task_of};
ghost use Rattle.master_run.specs.Labors.{DidWork, IsEmptyTally};
ghost use Rattle.master_run.specs.Posts.{IsDone, IsReady, labor_of};

use claim_table::{ClaimSeat, ClaimTable, Run};
use error_limit::{ErrorSeat, ErrorWord};
use key_state::Book;
use plan_types::{Plan, RunPlan, Share, WorkerPlan};
use slave_worker::{WorkEnd, work};
use std::alloc::Global;
use std::mem;
use std::sync::Wait;
use vd_arm::{Arm, Pass};
use vd_base::StoreId;
use vd_outside::{Clock, NoMemory, Turnstile};
use worker_tally::Tally;
use workload_gen::{Draw, runs_can_draw};

/// A worker of a store in a run, with all that it needs.
#[derive(Drop)]
pub(crate) struct Post<P, A, C> {
    pub(crate) worker: WorkerPlan,
    pub(crate) seat: ClaimSeat,
    pub(crate) error_seat: ErrorSeat,
    pub(crate) arm: A,
    pub(crate) clock: C,
    pub(crate) draw: Draw,
    pub(crate) buf: Vec<u8>,
    pub(crate) tally: Tally,
    /// The empty run that its work takes.
    pub(crate) room: Option<Run<P>>,
    pub(crate) end: WorkEnd,
}

/// What a worker takes memory for.
#[derive(Drop)]
pub(crate) struct Outfit<P> {
    pub(crate) draw: Draw,
    pub(crate) buf: Vec<u8>,
    pub(crate) tally: Tally,
    pub(crate) room: Run<P>,
}

/// The bytes of the greatest transfer of a store in a run.
fn greatest_transfer(shares: &[Share], store: u32) -> u32
    ensures { All (λ share. share.store ≡ store → share.xfersize ≤ result) shares.now }
{
    let mut greatest = 0;
    for share in shares {
        if share.store == store && share.xfersize > greatest {
            greatest = share.xfersize;
        }
    }
    greatest
}

/// The memory of a worker.
pub(crate) fn fit_out<P: Pass>(
    alloc: Global,
    plan: &Plan,
    run: &RunPlan,
    worker: &WorkerPlan,
    store: &StoreId,
) -> Result<Outfit<P>, NoMemory>
    requires { IsWorkOf plan.now run.now worker.now store.now }
    ensures draw { IfOk result (λ outfit. outfit.draw ≡ record { task = task_of run.now worker.now store.now.geometry; turns = 0 }) }
    ensures bytes { IfOk result (λ outfit. HasBytes run.now worker.now (length outfit.buf.items)) }
    ensures tally { IfOk result (λ outfit. IsEmptyTally outfit.tally) }
    ensures rows { IfOk result (λ outfit. AreIntervals (rules_of plan.now run.now worker.now 0).intervals outfit.tally) }
    ensures findings { IfOk result (λ outfit. plan.now.data_errors + 64 ≤ outfit.tally.finding_room) }
    ensures room { IfOk result (λ outfit. outfit.room.entries.items ≡ []) }
{
    // The law by which the worker can draw.
    runs_can_draw();
    let draw = Draw::new(alloc, run, worker, &store.geometry)?;
    let size = greatest_transfer(run.shares.as_slice(), worker.store);
    let buf = vec![in alloc; 0u8; size as usize]?;
    let rows = (run.elapsed + run.interval - 1) / run.interval;
    let tally = Tally::new(alloc, rows, plan.data_errors + 64)?;
    let room = Run::new(alloc)?;
    Ok(Outfit {
        draw,
        buf,
        tally,
        room,
    })
}

impl<A: Arm, C: Clock> Post<A::Pass, A, C> {
    /// The work of the worker, in a run that began at `start`.
    pub(crate) fn work<B: Book, T: Turnstile, R: Wait>(
        &mut self,
        rt: &R,
        plan: &Plan,
        run: &RunPlan,
        store: &StoreId,
        table: &ClaimTable<A::Pass, B>,
        errors: &ErrorWord,
        gate: &T,
        start: u64,
    )
        requires of { IsWorkOf plan.now run.now self.old.worker store.now }
        requires store { (made_in A.Pass.seen B.seen table.now).store ≡ store.now }
        requires ready { IsReady A.Pass.seen B.seen A.seen plan.now run.now self.old.worker.store store.now (A.seen self.old.arm).sure errors.now table.now self.old }
        ensures worker { self.new.worker ≡ self.old.worker }
        ensures done { IsDone self.old.worker.store errors.now table.now self.new }
        ensures did { DidWork plan.now run.now store.now start (C.seen self.old.clock) (made_in A.Pass.seen B.seen table.now) (A.seen self.old.arm).sure (labor_of A.seen C.seen self.new) }
    {
        let Some(room) = mem::replace(&mut self.room, None) else {
            unreachable!()
        };
        self.end = work(
            rt,
            plan,
            run,
            &self.worker,
            store,
            &mut self.draw,
            table,
            &mut self.seat,
            errors,
            &mut self.error_seat,
            &mut self.arm,
            &mut self.clock,
            gate,
            start,
            self.buf.as_mut_slice(),
            &mut self.tally,
            room,
        );
    }
}
