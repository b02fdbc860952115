// A store with its workers.
ghost use Rattle.std.specs.Prelude.{◌≡◌, ◌+◌, ◌<◌, ◌≤◌, ◌++◌, ◌∷◌, [], All, IfErr, IfOk, List, OnErr, OnOk, Some, length, map, slice_get};
ghost use Rattle.std.specs.Vec.{vec_capacity};
ghost use Rattle.vd_outside.specs.Clocks.{ClockSeen};
ghost use Rattle.vd_yard.specs.Out.{AtArm, out_at};
ghost use Rattle.claim_table.specs.Seats.{IsNew};
ghost use Rattle.error_limit.specs.Seats.{IsNew as IsNewErrorSeat};
ghost use Rattle.slave_worker.specs.Ends.{IsWorkOf};
ghost use Rattle.slave_worker.specs.Hands.{IsHandOf, IsRunOf, hand_seen, workers_at, workers_in};
ghost use Rattle.master_run.specs.Posts.{AllClocks, CanClose, CanDismiss, CanWork, Closed, HasLeft, HasMore, HasRoom, IsManned, IsReady, IsUndone, StaysManned, Works, arms_at, paths_at};
ghost use Rattle.master_run.specs.Starts.{CanStart, HasDone};
ghost use Rattle.master_run.specs.Yards.{AreOut, GaveArms, HasYardCause, NamesStore, TookArms, why_of};
ghost use Rattle.master_run.specs.declared.post.Post.{Post as APost};
ghost use Rattle.error_limit.specs.declared.word.ErrorWord.{ErrorWord as AWord};

use crate::post::{Outfit, Post, fit_out};
use claim_table::{ClaimSeat, ClaimTable, NewRefused, untouched_all};
use error_limit::{ErrorSeat, ErrorWord};
use key_state::Book;
use plan_types::{Plan, RunPlan, StorePlan, WorkerPlan};
use slave_worker::{RunFault, StoreHand, WorkEnd};
use std::alloc::Global;
use std::sync::Wait;
use std::thread;
use std::thread::Threads;
use vd_arm::{Arm, Pass};
use vd_outside::{Turnstile, Twin};
use vd_yard::{Yard, YardFault};
use worker_tally::Tally;

/// A store in a run: its place in the plan's stores, the table over its passes and its book, its workers, and the seats that no worker
/// has yet.
#[derive(Drop)]
pub(crate) struct Crew<P: Pass, B: Book, A, C> {
    pub(crate) place: u32,
    pub(crate) table: ClaimTable<P, B>,
    pub(crate) posts: Vec<Post<P, A, C>>,
    pub(crate) spare: Vec<ClaimSeat>,
}

/// What is left of workers that are done, worker by worker.
#[derive(Drop)]
pub(crate) struct Left {
    pub(crate) error_seats: Vec<ErrorSeat>,
    pub(crate) tallies: Vec<Tally>,
    pub(crate) ends: Vec<WorkEnd>,
}

/// How many workers a store has.
fn workers_of(workers: &[WorkerPlan], store: u32) -> u32
    requires { length workers.now ≤ 512 }
    ensures { result ≡ length (workers_at store workers.now) }
{
    let mut many = 0;
    for worker in workers {
        if worker.store == store {
            many += 1;
        }
    }
    many
}

/// A worker's arm and its seat at the table go back; what is left of it.
fn leave<Y: Yard, C: Drop>(
    post: Post<<Y::Arm as Arm>::Pass, Y::Arm, C>,
    store: &StorePlan,
    yard: &mut Y,
    seats: &mut Vec<ClaimSeat>,
) -> (ErrorSeat, Tally, WorkEnd)
    requires out { 1 ≤ out_at (Y.seen yard.old).out AtArm store.now.path }
    requires room { length seats.old.items < vec_capacity seats.old }
    ensures left { (result.0 ≡ post.error_seat) × (result.1 ≡ post.tally) × (result.2 ≡ post.end) }
    ensures seat { seats.new.items ≡ seats.old.items ++ post.seat ∷ [] }
    ensures room { vec_capacity seats.new ≡ vec_capacity seats.old }
    ensures arm { GaveArms ((store.now.path, Y.Arm.seen post.arm) ∷ []) (Y.seen yard.old) (Y.seen yard.new) }
{
    let Post {
        seat,
        error_seat,
        arm,
        tally,
        end,
        ..
    } = post;
    seats.push_reserved(seat);
    yard.keep_arm(store, arm);
    (error_seat, tally, end)
}

/// All workers leave, from the first on, and what is left of each is kept.
fn leave_all<Y: Yard, C: Drop>(
    posts: &mut Vec<Post<<Y::Arm as Arm>::Pass, Y::Arm, C>>,
    store: &StorePlan,
    yard: &mut Y,
    seats: &mut Vec<ClaimSeat>,
    left: &mut Left,
)
    requires out { AreOut (paths_at store.now.path posts.old.items) (Y.seen yard.old) }
    requires room { length seats.old.items + length posts.old.items ≤ vec_capacity seats.old }
    requires left { HasRoom left.old (length posts.old.items) }
    ensures none { posts.new.items ≡ [] }
    ensures seats { seats.new.items ≡ seats.old.items ++ map (λ (post : APost (Y.Arm.Pass) (Y.Arm) C). post.seat) posts.old.items }
    ensures left { HasLeft left.old posts.old.items left.new }
    ensures room { vec_capacity seats.new ≡ vec_capacity seats.old }
    ensures arms { GaveArms (arms_at Y.Arm.seen store.now.path posts.old.items) (Y.seen yard.old) (Y.seen yard.new) }
{
    let Some(post) = posts.pop() else { return };
    leave_all(posts, store, yard, seats, left);
    let (error_seat, tally, end) = leave(post, store, yard, seats);
    left.error_seats.push_reserved(error_seat);
    left.tallies.push_reserved(tally);
    left.ends.push_reserved(end);
}

/// All workers leave before they worked.
fn dismiss_all<Y: Yard, C: Drop>(
    posts: &mut Vec<Post<<Y::Arm as Arm>::Pass, Y::Arm, C>>,
    store: &StorePlan,
    yard: &mut Y,
    seats: &mut Vec<ClaimSeat>,
)
    requires out { AreOut (paths_at store.now.path posts.old.items) (Y.seen yard.old) }
    requires room { length seats.old.items + length posts.old.items ≤ vec_capacity seats.old }
    ensures none { posts.new.items ≡ [] }
    ensures seats { seats.new.items ≡ seats.old.items ++ map (λ (post : APost (Y.Arm.Pass) (Y.Arm) C). post.seat) posts.old.items }
    ensures room { vec_capacity seats.new ≡ vec_capacity seats.old }
    ensures arms { GaveArms (arms_at Y.Arm.seen store.now.path posts.old.items) (Y.seen yard.old) (Y.seen yard.new) }
{
    let Some(post) = posts.pop() else { return };
    dismiss_all(posts, store, yard, seats);
    let _left = leave(post, store, yard, seats);
}

impl<A: Arm, B: Book, C: Twin> Crew<A::Pass, B, A, C> {
    /// One worker more, with all that it needs. Where it can't be had nothing of it is left.
    fn post<Y: Yard<Arm = A>>(
        &mut self,
        alloc: Global,
        plan: &Plan,
        run: &RunPlan,
        worker: &WorkerPlan,
        store: &StorePlan,
        yard: &mut Y,
        error_seats: &mut Vec<ErrorSeat>,
        clock: &C,
    ) -> Result<(), RunFault>
        requires of { IsWorkOf plan.now run.now worker.now store.now.id }
        requires place { worker.now.store ≡ self.old.place }
        requires spare { (0 < length self.old.spare.items) × All (IsNew A.Pass.seen B.seen self.old.table) self.old.spare.items }
        requires error_seats { 0 < length error_seats.old.items }
        requires room { length self.old.posts.items < vec_capacity self.old.posts }
        ensures more { (more : List (APost (A.Pass) A C))
            × HasMore A.Pass.seen B.seen A.seen ((Y.seen yard.old).tells.sure AtArm store.now.path) self.old self.new more
            × OnOk result (map (λ (post : APost (A.Pass) A C). post.worker) more ≡ worker.now ∷ [])
            × (length error_seats.old.items ≡ length error_seats.new.items + length more)
            × TookArms (paths_at store.now.path more) (Y.seen yard.old) (Y.seen yard.new)
            × ((word : AWord) → All (IsNewErrorSeat word) error_seats.old.items → All (IsReady A.Pass.seen B.seen A.seen plan.now run.now self.old.place store.now.id ((Y.seen yard.old).tells.sure AtArm store.now.path) word self.old.table) more × All (IsNewErrorSeat word) error_seats.new.items) }
        ensures room { vec_capacity error_seats.new ≡ vec_capacity error_seats.old }
        ensures counts { (Y.seen yard.new).counts ≡ (Y.seen yard.old).counts }
        ensures cause { HasYardCause (Y.seen yard.old) (Y.seen yard.new) result }
        ensures named { NamesStore self.old.place result }
    {
        let Ok(outfit) = fit_out(alloc, plan, run, worker, &store.id) else {
            return Err(RunFault::NoMemory);
        };
        let arm = match yard.arm(store) {
            Ok(arm) => arm,
            Err(YardFault::Failed) => return Err(RunFault::Yard { store: self.place }),
            Err(YardFault::NoMemory) => return Err(RunFault::NoMemory),
        };
        let (Some(seat), Some(error_seat)) = (self.spare.pop(), error_seats.pop()) else {
            unreachable!()
        };
        let Outfit {
            draw,
            buf,
            tally,
            room,
        } = outfit;
        self.posts.push_reserved(Post {
            worker: *worker,
            seat,
            error_seat,
            arm,
            clock: clock.twin(),
            draw,
            buf,
            tally,
            room: Some(room),
            end: WorkEnd::TurnsMade,
        });
        Ok(())
    }

    /// The workers of the store among these, each with all that it needs, from the first on.
    fn man<Y: Yard<Arm = A>>(
        &mut self,
        alloc: Global,
        plan: &Plan,
        run: &RunPlan,
        workers: &[WorkerPlan],
        store: &StorePlan,
        yard: &mut Y,
        error_seats: &mut Vec<ErrorSeat>,
        clock: &C,
    ) -> Result<(), RunFault>
        requires of { All (λ worker. worker.store ≡ self.old.place → IsWorkOf plan.now run.now worker store.now.id) workers.now }
        requires spare { (length self.old.spare.items ≡ length (workers_at self.old.place workers.now)) × All (IsNew A.Pass.seen B.seen self.old.table) self.old.spare.items }
        requires error_seats { length (workers_at self.old.place workers.now) ≤ length error_seats.old.items }
        requires room { length self.old.posts.items + length (workers_at self.old.place workers.now) ≤ vec_capacity self.old.posts }
        ensures more { (more : List (APost (A.Pass) A C))
            × HasMore A.Pass.seen B.seen A.seen ((Y.seen yard.old).tells.sure AtArm store.now.path) self.old self.new more
            × OnOk result (map (λ (post : APost (A.Pass) A C). post.worker) more ≡ workers_at self.old.place workers.now)
            × (length error_seats.old.items ≡ length error_seats.new.items + length more)
            × TookArms (paths_at store.now.path more) (Y.seen yard.old) (Y.seen yard.new)
            × ((word : AWord) → All (IsNewErrorSeat word) error_seats.old.items → All (IsReady A.Pass.seen B.seen A.seen plan.now run.now self.old.place store.now.id ((Y.seen yard.old).tells.sure AtArm store.now.path) word self.old.table) more × All (IsNewErrorSeat word) error_seats.new.items) }
        ensures room { vec_capacity error_seats.new ≡ vec_capacity error_seats.old }
        ensures counts { (Y.seen yard.new).counts ≡ (Y.seen yard.old).counts }
        ensures cause { HasYardCause (Y.seen yard.old) (Y.seen yard.new) result }
        ensures named { NamesStore self.old.place result }
    {
        let [worker, others @ ..] = workers else {
            return Ok(());
        };
        if worker.store != self.place {
            return self.man(alloc, plan, run, others, store, yard, error_seats, clock);
        }
        let posted = self.post(alloc, plan, run, worker, store, yard, error_seats, clock);
        if let Err(fault) = posted {
            return Err(fault);
        }
        self.man(alloc, plan, run, others, store, yard, error_seats, clock)
    }

    /// The store's passes and book, of which nothing was used; its workers leave.
    pub(crate) fn dismiss<Y: Yard<Arm = A>>(
        self,
        store: &StorePlan,
        yard: &mut Y,
    ) -> StoreHand<A::Pass, B>
        requires can { CanDismiss A.Pass.seen B.seen self }
        requires out { AreOut (paths_at store.now.path self.posts.items) (Y.seen yard.old) }
        ensures undone { IsUndone A.Pass.seen B.seen self result }
        ensures arms { GaveArms (arms_at A.seen store.now.path self.posts.items) (Y.seen yard.old) (Y.seen yard.new) }
    {
        let Crew {
            place,
            table,
            mut posts,
            mut spare,
        } = self;
        dismiss_all(&mut posts, store, yard, &mut spare);
        // The laws by which a table whose seats did nothing gives back what it was made over.
        untouched_all::<A::Pass, B>();
        let (passes, book) = table.close(spare);
        StoreHand {
            store: place,
            passes,
            book,
        }
    }

    /// The store's passes and book as the work left them; its workers leave, and what is left of each is kept.
    pub(crate) fn close<Y: Yard<Arm = A>>(
        self,
        store: &StorePlan,
        yard: &mut Y,
        left: &mut Left,
    ) -> StoreHand<A::Pass, B>
        requires can { CanClose A.Pass.seen B.seen self }
        requires out { AreOut (paths_at store.now.path self.posts.items) (Y.seen yard.old) }
        requires left { HasRoom left.old (length self.posts.items) }
        ensures closed { Closed A.Pass.seen B.seen self result }
        ensures left { HasLeft left.old self.posts.items left.new }
        ensures arms { GaveArms (arms_at A.seen store.now.path self.posts.items) (Y.seen yard.old) (Y.seen yard.new) }
    {
        let Crew {
            place,
            table,
            mut posts,
            mut spare,
        } = self;
        leave_all(&mut posts, store, yard, &mut spare, left);
        let (passes, book) = table.close(spare);
        StoreHand {
            store: place,
            passes,
            book,
        }
    }

    /// The clock of each worker is a twin of this one.
    pub(crate) fn set_clocks(&mut self, clock: &C)
        ensures clocks { AllClocks C.seen (C.seen clock.now) self.new }
        ensures manned { StaysManned A.Pass.seen B.seen A.seen self.old self.new }
    {
        for post in self.posts.iter_mut() {
            post.clock = clock.twin();
        }
    }
}

/// A store with its workers, each with all that it needs. Where that can't be had the store comes back as it was.
pub(crate) fn crew_of<Y: Yard, B: Book, C: Twin>(
    alloc: Global,
    plan: &Plan,
    run: &RunPlan,
    hand: StoreHand<<Y::Arm as Arm>::Pass, B>,
    store: &StorePlan,
    yard: &mut Y,
    error_seats: &mut Vec<ErrorSeat>,
    clock: &C,
) -> Result<
    Crew<<Y::Arm as Arm>::Pass, B, Y::Arm, C>,
    (StoreHand<<Y::Arm as Arm>::Pass, B>, RunFault),
>
    requires run { IsRunOf plan.now run.now }
    requires store { slice_get plan.now.stores hand.store ≡ Some store.now }
    requires hand { IsHandOf Y.Arm.Pass.seen B.seen store.now hand }
    requires some { 0 < length (workers_in run.now hand.store) }
    requires seats { length (workers_in run.now hand.store) ≤ length error_seats.old.items }
    ensures manned { (word : AWord) → All (IsNewErrorSeat word) error_seats.old.items → IfOk result (λ crew. IsManned Y.Arm.Pass.seen B.seen Y.Arm.seen plan.now run.now word (Y.seen yard.old).tells store.now hand crew) × All (IsNewErrorSeat word) error_seats.new.items }
    ensures used { IfOk result (λ crew. length error_seats.old.items ≡ length error_seats.new.items + length crew.posts.items) }
    ensures room { vec_capacity error_seats.new ≡ vec_capacity error_seats.old }
    ensures back { IfErr result (λ back. hand_seen Y.Arm.Pass.seen B.seen back.0 ≡ hand_seen Y.Arm.Pass.seen B.seen hand) }
    ensures took { IfOk result (λ crew. TookArms (paths_at store.now.path crew.posts.items) (Y.seen yard.old) (Y.seen yard.new)) }
    ensures counts { OnOk result ((Y.seen yard.new).counts ≡ (Y.seen yard.old).counts) }
    ensures gave { OnErr result (TookArms [] (Y.seen yard.old) (Y.seen yard.new)) }
    ensures cause { HasYardCause (Y.seen yard.old) (Y.seen yard.new) (why_of result) }
    ensures named { NamesStore hand.store (why_of result) }
{
    let StoreHand {
        store: place,
        passes,
        book,
    } = hand;
    let workers = run.workers.as_slice();
    let many = workers_of(workers, place);
    let Ok(posts) = Vec::with_capacity(alloc, many as usize) else {
        let hand = StoreHand {
            store: place,
            passes,
            book,
        };
        return Err((hand, RunFault::NoMemory));
    };
    let (table, spare) = match ClaimTable::new(alloc, &store.id, passes, book, many) {
        Ok(made) => made,
        Err(NewRefused { passes, book }) => {
            let hand = StoreHand {
                store: place,
                passes,
                book,
            };
            return Err((hand, RunFault::NoMemory));
        }
    };
    let mut crew = Crew {
        place,
        table,
        posts,
        spare,
    };
    let manned = crew.man(alloc, plan, run, workers, store, yard, error_seats, clock);
    match manned {
        Ok(()) => Ok(crew),
        Err(fault) => Err((crew.dismiss(store, yard), fault)),
    }
}

/// All workers of a store work at once, in a run that began at `start`.
pub(crate) fn work_crew<A: Arm, B: Book, C: Twin, T: Turnstile, R: Threads + Wait + Sync>(
    rt: &R,
    plan: &Plan,
    run: &RunPlan,
    crew: &mut Crew<A::Pass, B, A, C>,
    errors: &ErrorWord,
    gate: &T,
    start: u64,
)
    requires run { IsRunOf plan.now run.now }
    requires can { CanWork A.Pass.seen B.seen A.seen plan.now run.now errors.now crew.old }
    ensures works { (clock : ClockSeen) → AllClocks C.seen clock crew.old → Works A.Pass.seen B.seen A.seen plan.now run.now errors.now C.seen start clock crew.old crew.new }
{
    let Crew {
        place,
        table,
        posts,
        spare: _,
    } = crew;
    let store = &plan.stores.as_slice()[*place as usize].id;
    let table = &*table;
    let threads = posts.len().max(1);
    thread::for_each_mut(
        rt,
        posts.as_mut_slice(),
        threads,
        &|_: usize, post: &mut Post<A::Pass, A, C>|
            requires { CanStart A.Pass.seen B.seen A.seen plan.now run.now store.now errors.now table.now post.old }
            ensures { HasDone A.Pass.seen B.seen A.seen plan.entry.now run.entry.now store.entry.now errors.entry.now table.entry.now C.seen start post.old post.new }
        { post.work(rt, plan, run, store, table, errors, gate, start) },
    );
}
