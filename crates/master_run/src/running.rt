// A whole run.
ghost use Rattle.std.specs.Prelude.{◌≡◌, ◌+◌, ◌++◌, ◌<◌, ◌≤◌, [], All, Err, IfOk, List, OnErr, OnOk, length, map, reverse};
ghost use Rattle.std.specs.List.{AllZip, flat_map};
ghost use Rattle.std.specs.Vec.{vec_capacity};
ghost use Rattle.plan_types.specs.Valid.{IsFrom};
ghost use Rattle.error_limit.specs.Seats.{IsNew as IsNewErrorSeat, before_of, seats_of};
ghost use Rattle.error_limit.specs.declared.word.ErrorWord.{ErrorWord as AWord};
ghost use Rattle.slave_worker.specs.declared.hand.StoreHand.{StoreHand as AHand};
ghost use Rattle.master_run.specs.Crews.{DidNotRun, DidRun};
ghost use Rattle.slave_worker.specs.Hands.{AreHands, IsHandIn, IsRunOf, workers_in};
ghost use Rattle.master_run.specs.Musters.{Mustered};
ghost use Rattle.master_run.specs.Posts.{AllClocks, CanClose, CanDismiss, CanWork, Closed, HasLeft, HasRoom, IsUndone, StaysManned, Works, all_arms, all_paths, posts_of};
ghost use Rattle.vd_outside.specs.Clocks.{ClockSeen};
ghost use Rattle.master_run.specs.Yards.{AreOut, GaveArms, HasYardCause, NamesStoreIn};
ghost use Rattle.master_run.specs.declared.crew.Crew.{Crew as ACrew};

use crate::crew::{Crew, Left, crew_of, work_crew};
use error_limit::ErrorWord;
use key_state::Book;
use plan_types::{Plan, RunPlan};
use slave_worker::{RunAnswer, RunFault, StoreHand};
use std::alloc::Global;
use std::sync::Wait;
use std::thread;
use std::thread::Threads;
use vd_arm::{Arm, Pass};
use vd_outside::{Clock, NoMemory, Turnstile, Twin};
use vd_yard::Yard;

/// Makes a crew of each store, from the last on. Where one can't be made the store and those before it stay, as they were.
fn muster<Y: Yard, B: Book, C: Twin>(
    alloc: Global,
    plan: &Plan,
    run: &RunPlan,
    hands: &mut Vec<StoreHand<<Y::Arm as Arm>::Pass, B>>,
    crews: &mut Vec<Crew<<Y::Arm as Arm>::Pass, B, Y::Arm, C>>,
    yard: &mut Y,
    left: &mut Left,
    clock: &C,
) -> Result<(), RunFault>
    requires run { IsRunOf plan.now run.now }
    requires hands { All (IsHandIn Y.Arm.Pass.seen B.seen plan.now run.now) hands.old.items }
    requires crews { length crews.old.items + length hands.old.items ≤ vec_capacity crews.old }
    requires seats { length (flat_map (workers_in run.now) (map (λ (hand : AHand (Y.Arm.Pass) B). hand.store) hands.old.items)) ≤ length left.old.error_seats.items }
    requires new { (word : AWord) × All (IsNewErrorSeat word) left.old.error_seats.items }
    ensures mustered { OnOk result (hands.new.items ≡ []) }
    ensures taken { Mustered Y.Arm.Pass.seen B.seen Y.Arm.seen plan.now run.now (Y.seen yard.old) (Y.seen yard.new) hands.old.items hands.new.items crews.old.items crews.new.items left.old.error_seats.items left.new.error_seats.items result }
    ensures left { (left.new.tallies ≡ left.old.tallies) × (left.new.ends ≡ left.old.ends) × (vec_capacity left.new.error_seats ≡ vec_capacity left.old.error_seats) }
    ensures rooms { (vec_capacity hands.new ≡ vec_capacity hands.old) × (vec_capacity crews.new ≡ vec_capacity crews.old) }
    ensures counts { OnOk result ((Y.seen yard.new).counts ≡ (Y.seen yard.old).counts) }
    ensures cause { HasYardCause (Y.seen yard.old) (Y.seen yard.new) result }
    ensures named { NamesStoreIn run.now result }
{
    let Some(hand) = hands.pop() else {
        return Ok(());
    };
    let store = &plan.stores.as_slice()[hand.store as usize];
    let made = crew_of(
        alloc,
        plan,
        run,
        hand,
        store,
        yard,
        &mut left.error_seats,
        clock,
    );
    match made {
        Ok(crew) => {
            crews.push_reserved(crew);
            muster(alloc, plan, run, hands, crews, yard, left, clock)
        }
        Err((hand, fault)) => {
            hands.push_reserved(hand);
            Err(fault)
        }
    }
}

/// The stores of all crews that didn't work come back, from the first on.
fn dismiss<Y: Yard, B: Book, C: Twin>(
    plan: &Plan,
    crews: &mut Vec<Crew<<Y::Arm as Arm>::Pass, B, Y::Arm, C>>,
    hands: &mut Vec<StoreHand<<Y::Arm as Arm>::Pass, B>>,
    yard: &mut Y,
)
    requires can { All (CanDismiss Y.Arm.Pass.seen B.seen) crews.old.items }
    requires stores { All (λ (crew : ACrew (Y.Arm.Pass) B (Y.Arm) C). crew.place < length plan.now.stores) crews.old.items }
    requires out { AreOut (all_paths plan.now (reverse crews.old.items)) (Y.seen yard.old) }
    requires room { length hands.old.items + length crews.old.items ≤ vec_capacity hands.old }
    ensures back { (backs : List (AHand (Y.Arm.Pass) B)) × (hands.new.items ≡ hands.old.items ++ backs) × AllZip (IsUndone Y.Arm.Pass.seen B.seen) (reverse crews.old.items) backs }
    ensures arms { GaveArms (all_arms Y.Arm.seen plan.now (reverse crews.old.items)) (Y.seen yard.old) (Y.seen yard.new) }
{
    let Some(crew) = crews.pop() else { return };
    let store = &plan.stores.as_slice()[crew.place as usize];
    hands.push_reserved(crew.dismiss(store, yard));
    dismiss(plan, crews, hands, yard);
}

/// The stores of all crews come back, from the first on.
fn close<Y: Yard, B: Book, C: Twin>(
    plan: &Plan,
    crews: &mut Vec<Crew<<Y::Arm as Arm>::Pass, B, Y::Arm, C>>,
    hands: &mut Vec<StoreHand<<Y::Arm as Arm>::Pass, B>>,
    yard: &mut Y,
    left: &mut Left,
)
    requires can { All (CanClose Y.Arm.Pass.seen B.seen) crews.old.items }
    requires stores { All (λ (crew : ACrew (Y.Arm.Pass) B (Y.Arm) C). crew.place < length plan.now.stores) crews.old.items }
    requires out { AreOut (all_paths plan.now (reverse crews.old.items)) (Y.seen yard.old) }
    requires room { length hands.old.items + length crews.old.items ≤ vec_capacity hands.old }
    requires left { HasRoom left.old (length (posts_of (reverse crews.old.items))) }
    ensures back { (backs : List (AHand (Y.Arm.Pass) B)) × (hands.new.items ≡ hands.old.items ++ backs) × AllZip (Closed Y.Arm.Pass.seen B.seen) (reverse crews.old.items) backs }
    ensures left { HasLeft left.old (posts_of (reverse crews.old.items)) left.new }
    ensures arms { GaveArms (all_arms Y.Arm.seen plan.now (reverse crews.old.items)) (Y.seen yard.old) (Y.seen yard.new) }
{
    let Some(crew) = crews.pop() else { return };
    let store = &plan.stores.as_slice()[crew.place as usize];
    hands.push_reserved(crew.close(store, yard, left));
    close(plan, crews, hands, yard, left);
}

/// What a run takes memory for, but for its stores' tables and its workers.
#[derive(Drop)]
struct Hall<P: Pass, B: Book, A, C> {
    crews: Vec<Crew<P, B, A, C>>,
    errors: ErrorWord,
    left: Left,
}

/// The memory of a run over so many stores.
fn make_hall<P: Pass, B: Book, A: Arm, C: Clock>(
    alloc: Global,
    run: &RunPlan,
    stores: usize,
    errors_before: u32,
) -> Result<Hall<P, B, A, C>, NoMemory>
    requires workers { IsFrom 1 512 (length run.now.workers) }
    ensures crews { IfOk result (λ hall. (hall.crews.items ≡ []) × (stores ≤ vec_capacity hall.crews)) }
    ensures errors { IfOk result (λ hall. (before_of hall.errors ≡ errors_before) × (seats_of hall.errors ≡ length run.now.workers)) }
    ensures seats { IfOk result (λ hall. (length hall.left.error_seats.items ≡ length run.now.workers) × All (IsNewErrorSeat hall.errors) hall.left.error_seats.items) }
    ensures left { IfOk result (λ hall. (hall.left.tallies.items ≡ []) × (hall.left.ends.items ≡ []) × (length run.now.workers ≤ vec_capacity hall.left.tallies) × (length run.now.workers ≤ vec_capacity hall.left.ends)) }
{
    let many = run.workers.as_slice().len();
    let crews = Vec::with_capacity(alloc, stores)?;
    let tallies = Vec::with_capacity(alloc, many)?;
    let ends = Vec::with_capacity(alloc, many)?;
    let (errors, error_seats) = ErrorWord::new(alloc, errors_before, many as u32)?;
    Ok(Hall {
        crews,
        errors,
        left: Left {
            error_seats,
            tallies,
            ends,
        },
    })
}

/// The last comes first.
fn turn<T>(items: &mut Vec<T>)
    ensures turned { items.new.items ≡ reverse items.old.items }
    ensures room { vec_capacity items.new ≡ vec_capacity items.old }
{
    items.as_mut_slice().reverse();
}

/// The answer of a run whose workers didn't start.
fn not_run<P: Pass, B: Book>(
    alloc: Global,
    hands: Vec<StoreHand<P, B>>,
    errors_before: u32,
    fault: RunFault,
) -> RunAnswer<P, B>
    ensures hands { result.hands.items ≡ hands.items }
    ensures tallies { result.tallies.items ≡ [] }
    ensures ends { result.ends.items ≡ [] }
    ensures errors { result.errors ≡ errors_before }
    ensures why { result.why ≡ Err fault }
{
    RunAnswer {
        hands,
        tallies: Vec::new(alloc),
        ends: Vec::new(alloc),
        errors: u64::from(errors_before),
        why: Err(fault),
    }
}

/// A run: all workers of all its stores work at once, each with a twin of the clock, from one reading of it on.
///
/// The hands are those of the run's stores, in order of definition, each with one pass for each block, in block order, and a book with
/// one entry for each. They come back in that order, whatever happens. `errors_before` is below the plan's limit. Where memory runs out,
/// or an arm can't be opened, no worker starts: the hands come back as they were, and there are no tallies; the yard's count of faults may
/// have risen, and files may have come. Arms are opened in the order of the stores.
pub fn run_one<Y: Yard, B: Book, C: Twin, T: Turnstile, R: Threads + Wait + Sync>(
    rt: &R,
    alloc: Global,
    plan: &Plan,
    run: &RunPlan,
    errors_before: u32,
    yard: &mut Y,
    hands: Vec<StoreHand<<Y::Arm as Arm>::Pass, B>>,
    clock: &mut C,
    gate: &T,
) -> RunAnswer<<Y::Arm as Arm>::Pass, B>
    requires run { IsRunOf plan.now run.now }
    requires hands { AreHands Y.Arm.Pass.seen B.seen plan.now run.now hands.items }
    requires errors { errors_before < plan.now.data_errors }
    ensures ran { OnOk result.why (DidRun Y.Arm.Pass.seen B.seen plan.now run.now errors_before (Y.seen yard.old) (Y.seen yard.new) (C.seen clock.old) (C.seen clock.new) hands.items result) }
    ensures refused { OnErr result.why (DidNotRun Y.Arm.Pass.seen B.seen errors_before (Y.seen yard.old) (Y.seen yard.new) (C.seen clock.old) (C.seen clock.new) hands.items result) }
    ensures cause { HasYardCause (Y.seen yard.old) (Y.seen yard.new) result.why }
    ensures named { NamesStoreIn run.now result.why }
{
    let mut hands = hands;
    let Ok(hall) = make_hall(alloc, run, hands.len(), errors_before) else {
        return not_run(alloc, hands, errors_before, RunFault::NoMemory);
    };
    let Hall {
        mut crews,
        errors,
        mut left,
    } = hall;
    // Crews are made from the last hand on, so that arms are opened in the order of the stores.
    turn(&mut hands);
    let mustered = muster(
        alloc, plan, run, &mut hands, &mut crews, yard, &mut left, clock,
    );
    if let Err(fault) = mustered {
        dismiss(plan, &mut crews, &mut hands, yard);
        turn(&mut hands);
        return not_run(alloc, hands, errors_before, fault);
    }
    // They are closed from the last on, and give back what is left of the workers in the order of the stores.
    turn(&mut crews);
    let start = clock.now();
    work_all(rt, plan, run, &mut crews, &errors, gate, start, clock);
    close(plan, &mut crews, &mut hands, yard, &mut left);
    let Left {
        error_seats,
        tallies,
        ends,
    } = left;
    RunAnswer {
        hands,
        tallies,
        ends,
        errors: errors.close(error_seats),
        why: Ok(()),
    }
}

/// The clock of each worker of all crews is a twin of this one.
fn set_all_clocks<A: Arm, B: Book, C: Twin>(crews: &mut [Crew<A::Pass, B, A, C>], clock: &C)
    ensures { AllZip (λ before after. AllClocks C.seen (C.seen clock.now) after × StaysManned A.Pass.seen B.seen A.seen before after) crews.old crews.new }
{
    for crew in crews.iter_mut() {
        crew.set_clocks(clock);
    }
}

/// All crews work at once.
fn work_all<A: Arm, B: Book, C: Twin, T: Turnstile, R: Threads + Wait + Sync>(
    rt: &R,
    plan: &Plan,
    run: &RunPlan,
    crews: &mut Vec<Crew<A::Pass, B, A, C>>,
    errors: &ErrorWord,
    gate: &T,
    start: u64,
    clock: &C,
)
    requires run { IsRunOf plan.now run.now }
    requires can { All (CanWork A.Pass.seen B.seen A.seen plan.now run.now errors.now) crews.old.items }
    ensures works { AllZip (Works A.Pass.seen B.seen A.seen plan.now run.now errors.now C.seen start (C.seen clock.now)) crews.old.items crews.new.items }
{
    set_all_clocks(crews.as_mut_slice(), clock);
    let threads = crews.len().max(1);
    thread::for_each_mut(
        rt,
        crews.as_mut_slice(),
        threads,
        &|_: usize, crew: &mut Crew<A::Pass, B, A, C>|
            requires { IsRunOf plan.now run.now × CanWork A.Pass.seen B.seen A.seen plan.now run.now errors.now crew.old }
            ensures { (clock : ClockSeen) → AllClocks C.seen clock crew.old → Works A.Pass.seen B.seen A.seen plan.entry.now run.entry.now errors.entry.now C.seen start clock crew.old crew.new }
        { work_crew(rt, plan, run, crew, errors, gate, start) },
    );
}
