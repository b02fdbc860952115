// The runs of a plan.
ghost use Rattle.std.specs.Prelude.{◌≡◌, ◌≢◌, ◌<◌, All, Err, IfErr, IsTrue, List, OnOk, length, map, ℕ};
ghost use Rattle.vd_outside.specs.Causes.{Rose};
ghost use Rattle.vd_yard.specs.Counts.{arm_faults, source_faults};
ghost use Rattle.vd_yard.specs.Out.{Out};
ghost use Rattle.slave_worker.specs.Hands.{IsRunOf, hand_seen};
ghost use Rattle.slave_worker.specs.declared.hand.StoreHand.{StoreHand as AHand};
ghost use Rattle.master_run.specs.Yards.{IsSameYard};
ghost use Rattle.run_report.specs.Says.{printing};
ghost use Rattle.run_report.specs.Runs.{PrintsRun};
ghost use Rattle.plan_hands.specs.Openings.{passes_out};
ghost use Rattle.plan_hands.specs.Stores.{AreStores};
ghost use Rattle.plan_runs.specs.Books.{SaysAll};
ghost use Rattle.plan_runs.specs.Ready.{AreOpen, CameBack, HasRunCause, RunsOpen};
ghost use Rattle.plan_runs.specs.Stages.{RunsMade, SaysOneRun, fault_status, fault_text, is_last, made_status, made_text, stage};
ghost use Rattle.still_plan.specs.Lines.{SaysOr};

use crate::books::RunBook;
use crate::law::findings_have_lines;
use crate::said::say_ran;
use crate::statuses::worse;
use master_run::run_one;
use plan_hands::{join, open_passes, part};
use plan_types::{Plan, RunPlan};
use run_report::{Printer, Status, cannot_open_line};
use slave_worker::{RunAnswer, RunFault, StoreHand, turns_add_up};
use std::alloc::Global;
use std::sync::Wait;
use std::thread::Threads;
use still_plan::say_line;
use vd_arm::{Arm, Pass};
use vd_outside::{Sink, Turnstile, Twin};
use vd_yard::Yard;

/// Says why a run couldn't be begun, and answers the status.
fn refuse<S: Sink>(
    alloc: Global,
    plan: &Plan,
    why: RunFault,
    printer: &mut Printer,
    out: &mut S,
) -> Status
    requires { (store : ℕ) → why ≡ RunFault.Yard store → store < length plan.now.stores }
    ensures { SaysOr (fault_text plan.now why) (fault_status why) result (printing printer.old.failed (S.taken out.old) (S.faults out.old)) (printing printer.new.failed (S.taken out.new) (S.faults out.new)) }
{
    match why {
        RunFault::Yard { store } => say_line(
            cannot_open_line(alloc, &plan.stores.as_slice()[store as usize].path),
            Status::Yard,
            printer,
            out,
        ),
        RunFault::NoMemory => Status::NoMemory,
    }
}

/// Says what came of a run, and answers the status that goes with it.
fn say_answer<P: Pass, B: RunBook, S: Sink>(
    alloc: Global,
    plan: &Plan,
    run: &RunPlan,
    answer: &RunAnswer<P, B>,
    printer: &mut Printer,
    out: &mut S,
) -> Status
    requires prints { OnOk answer.now.why (PrintsRun plan.now.stores run.now answer.now.tallies.items) }
    requires stores { OnOk answer.now.why (All (λ (hand : AHand P B). hand.store < length plan.now.stores) answer.now.hands.items) }
    requires named { (store : ℕ) → answer.now.why ≡ Err (RunFault.Yard store) → store < length plan.now.stores }
    ensures ran { OnOk answer.now.why (SaysAll (made_text P.seen B.seen plan.now run.now answer.now) (made_status P.seen B.seen run.now answer.now) result
        (printing printer.old.failed (S.taken out.old) (S.faults out.old)) (printing printer.new.failed (S.taken out.new) (S.faults out.new))) }
    ensures refused { IfErr answer.now.why (λ why. SaysOr (fault_text plan.now why) (fault_status why) result
        (printing printer.old.failed (S.taken out.old) (S.faults out.old)) (printing printer.new.failed (S.taken out.new) (S.faults out.new))) }
{
    match answer.why {
        Ok(()) => say_ran(
            alloc,
            plan.stores.as_slice(),
            run,
            answer.tallies.as_slice(),
            answer.ends.as_slice(),
            answer.hands.as_slice(),
            printer,
            out,
        ),
        Err(fault) => refuse(alloc, plan, fault, printer, out),
    }
}

/// One run whose passes are open: its workers work, and what it prints is said. Of `run_next` it is all but the opening.
fn run_open<Y: Yard, B: RunBook, C: Twin, T: Turnstile, S: Sink, R: Threads + Wait + Sync>(
    rt: &R,
    alloc: Global,
    plan: &Plan,
    run: &RunPlan,
    errors: &mut u64,
    hands: &mut Vec<StoreHand<<Y::Arm as Arm>::Pass, B>>,
    yard: &mut Y,
    clock: &mut C,
    gate: &T,
    printer: &mut Printer,
    out: &mut S,
) -> Status
    requires run { IsRunOf plan.now run.now }
    requires ready { AreOpen plan.now run.now (map (hand_seen Y.Arm.Pass.seen B.seen) hands.old.items) }
    requires few { errors.old < plan.now.data_errors }
    ensures back { CameBack plan.now (map (hand_seen Y.Arm.Pass.seen B.seen) hands.old.items) (map (hand_seen Y.Arm.Pass.seen B.seen) hands.new.items) }
    ensures ran { (text : List ℕ) × RunsOpen Y.Arm.Pass.seen B.seen plan.now run.now
        (stage (map (hand_seen Y.Arm.Pass.seen B.seen) hands.old.items) (Y.seen yard.old) (C.seen clock.old) errors.old (printing printer.old.failed (S.taken out.old) (S.faults out.old)))
        (stage (map (hand_seen Y.Arm.Pass.seen B.seen) hands.new.items) (Y.seen yard.new) (C.seen clock.new) errors.new (printing printer.new.failed (S.taken out.new) (S.faults out.new))) text result }
    ensures same { IsSameYard (Y.seen yard.old) (Y.seen yard.new) }
    ensures out { (Y.seen yard.new).out ≡ (Y.seen yard.old).out }
    ensures cause { HasRunCause (Y.seen yard.old) (Y.seen yard.new) result }
{
    findings_have_lines();
    let many = hands.len();
    let Ok(mut active) = Vec::with_capacity(alloc, many) else {
        return Status::NoMemory;
    };
    let Ok(mut resting) = Vec::with_capacity(alloc, many) else {
        return Status::NoMemory;
    };
    part(run, hands, &mut active, &mut resting);
    let answer = run_one(
        rt,
        alloc,
        plan,
        run,
        *errors as u32,
        yard,
        active,
        clock,
        gate,
    );
    *errors = answer.errors;
    let status = say_answer(alloc, plan, run, &answer, printer, out);
    let RunAnswer {
        hands: mut back,
        ..
    } = answer;
    join(run, many as u32, &mut back, &mut resting, hands);
    status
}

/// One run: the passes that it needs are opened, its workers work, and what it prints is said.
///
/// `hands` has one hand for each store of the plan, in order, also afterwards. `errors` are those of the runs before, below the plan's
/// limit, and then those of this one too. It answers the status that goes with what it found, or why it couldn't start.
fn run_next<Y: Yard, B: RunBook, C: Twin, T: Turnstile, S: Sink, R: Threads + Wait + Sync>(
    rt: &R,
    alloc: Global,
    plan: &Plan,
    run: &RunPlan,
    errors: &mut u64,
    hands: &mut Vec<StoreHand<<Y::Arm as Arm>::Pass, B>>,
    yard: &mut Y,
    clock: &mut C,
    gate: &T,
    printer: &mut Printer,
    out: &mut S,
) -> Status
    requires run { IsRunOf plan.now run.now }
    requires stores { AreStores plan.now (map (hand_seen Y.Arm.Pass.seen B.seen) hands.old.items) }
    requires few { errors.old < plan.now.data_errors }
    ensures stores { AreStores plan.now (map (hand_seen Y.Arm.Pass.seen B.seen) hands.new.items) }
    ensures ran { (text : List ℕ) × SaysOneRun Y.Arm.Pass.seen B.seen plan.now run.now
        (stage (map (hand_seen Y.Arm.Pass.seen B.seen) hands.old.items) (Y.seen yard.old) (C.seen clock.old) errors.old (printing printer.old.failed (S.taken out.old) (S.faults out.old)))
        (stage (map (hand_seen Y.Arm.Pass.seen B.seen) hands.new.items) (Y.seen yard.new) (C.seen clock.new) errors.new (printing printer.new.failed (S.taken out.new) (S.faults out.new))) text result }
    ensures same { IsSameYard (Y.seen yard.old) (Y.seen yard.new) }
    ensures passes { (before : Out) → (Y.seen yard.old).out ≡ passes_out plan.now (map (hand_seen Y.Arm.Pass.seen B.seen) hands.old.items) before → (Y.seen yard.new).out ≡ passes_out plan.now (map (hand_seen Y.Arm.Pass.seen B.seen) hands.new.items) before }
    ensures yard_cause { HasRunCause (Y.seen yard.old) (Y.seen yard.new) result }
{
    if let Err(fault) = open_passes(plan, run, hands.as_mut_slice(), yard) {
        return refuse(alloc, plan, fault, printer, out);
    }
    run_open(
        rt, alloc, plan, run, errors, hands, yard, clock, gate, printer, out,
    )
}

/// Whether no run follows one that ended so.
fn is_the_last(status: Status) -> bool
    ensures { result ≡ is_last status }
{
    match status {
        Status::Good => false,
        Status::Corrupt => false,
        Status::Device => false,
        _ => true,
    }
}

/// The runs of a plan, one after the other, from these on. None starts once the errors have reached the plan's limit, a journal has failed
/// or is at the end of its last epoch, data couldn't be opened, or memory ran out. After a failed write of the output they go on unheard,
/// since what they write is worth more than their text.
///
/// `hands` has one hand for each store of the plan, in order, also afterwards. It answers the status that goes with what the runs found.
pub fn run_all<Y: Yard, B: RunBook, C: Twin, T: Turnstile, S: Sink, R: Threads + Wait + Sync>(
    rt: &R,
    alloc: Global,
    plan: &Plan,
    runs: &[RunPlan],
    errors: &mut u64,
    hands: &mut Vec<StoreHand<<Y::Arm as Arm>::Pass, B>>,
    yard: &mut Y,
    clock: &mut C,
    gate: &T,
    printer: &mut Printer,
    out: &mut S,
) -> Status
    requires runs { All (IsRunOf plan.now) runs.now }
    requires stores { AreStores plan.now (map (hand_seen Y.Arm.Pass.seen B.seen) hands.old.items) }
    ensures stores { AreStores plan.now (map (hand_seen Y.Arm.Pass.seen B.seen) hands.new.items) }
    ensures ran { (text : List ℕ) × RunsMade Y.Arm.Pass.seen B.seen plan.now runs.now
        (stage (map (hand_seen Y.Arm.Pass.seen B.seen) hands.old.items) (Y.seen yard.old) (C.seen clock.old) errors.old (printing printer.old.failed (S.taken out.old) (S.faults out.old)))
        (stage (map (hand_seen Y.Arm.Pass.seen B.seen) hands.new.items) (Y.seen yard.new) (C.seen clock.new) errors.new (printing printer.new.failed (S.taken out.new) (S.faults out.new))) text result }
    ensures same { IsSameYard (Y.seen yard.old) (Y.seen yard.new) }
    ensures passes { (before : Out) → (Y.seen yard.old).out ≡ passes_out plan.now (map (hand_seen Y.Arm.Pass.seen B.seen) hands.old.items) before → (Y.seen yard.new).out ≡ passes_out plan.now (map (hand_seen Y.Arm.Pass.seen B.seen) hands.new.items) before }
    ensures yard_fault { result ≡ Status.Yard → Rose (Y.seen yard.old).faults (Y.seen yard.new).faults }
    ensures yard_quiet { result ≢ Status.Yard → result ≢ Status.NoMemory → (Y.seen yard.new).faults ≡ (Y.seen yard.old).faults }
    ensures device_fault { result ≡ Status.Device → (path : List ℕ) × Rose (arm_faults (Y.seen yard.old).counts path) (arm_faults (Y.seen yard.new).counts path) }
    ensures device_quiet { result ≢ Status.Device → result ≢ Status.EpochEnd → result ≢ Status.Journal → result ≢ Status.Yard → result ≢ Status.NoMemory → (path : List ℕ) → arm_faults (Y.seen yard.new).counts path ≡ arm_faults (Y.seen yard.old).counts path }
    ensures sources { (path : List ℕ) → source_faults (Y.seen yard.new).counts path ≡ source_faults (Y.seen yard.old).counts path }
    ensures willing { IsTrue (Y.seen yard.old).willing → result ≢ Status.Yard }
{
    turns_add_up();
    let Some((run, others)) = runs.split_first() else {
        return Status::Good;
    };
    if *errors >= u64::from(plan.data_errors) {
        return Status::Good;
    }
    let first = run_next(
        rt, alloc, plan, run, errors, hands, yard, clock, gate, printer, out,
    );
    if is_the_last(first) {
        return first;
    }
    let rest = run_all(
        rt, alloc, plan, others, errors, hands, yard, clock, gate, printer, out,
    );
    worse(first, rest)
}
