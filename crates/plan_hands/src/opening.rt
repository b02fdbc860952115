// Passes: opened where a run needs them, and given back in the end.
ghost use Rattle.std.specs.Prelude.{◌≡◌, ◌+◌, ◌++◌, ◌∷◌, ◌<◌, ◌≤◌, [], All, IfErr, OnErr, OnOk, List, length, map};
ghost use Rattle.std.specs.List.{AllZip};
ghost use Rattle.std.specs.Vec.{vec_capacity};
ghost use Rattle.vd_yard.specs.Out.{Out};
ghost use Rattle.slave_worker.specs.Hands.{HandSeen, hand_seen};
ghost use Rattle.slave_worker.specs.declared.hand.StoreHand.{StoreHand as AHand};
ghost use Rattle.plan_hands.specs.Openings.{HasOpenCause, IsRefused, Opened, OpensData, PassesBack, StopsOpening, passes_out};
ghost use Rattle.plan_hands.specs.Stores.{KeepsHand};

use crate::parting::has_worker;
use key_state::Book;
use plan_types::{Plan, RunPlan};
use slave_worker::{RunFault, StoreHand};
use vd_arm::Arm;
use vd_yard::{Yard, YardFault};

/// Opens the passes of one store, where it works in the run and they aren't open.
fn open_one<Y: Yard, B: Book>(
    plan: &Plan,
    run: &RunPlan,
    hand: &mut StoreHand<<Y::Arm as Arm>::Pass, B>,
    yard: &mut Y,
) -> Result<(), RunFault>
    requires { hand.old.store < length plan.now.stores }
    ensures opened { OnOk result (Opened plan.now run.now (Y.seen yard.old) (hand_seen Y.Arm.Pass.seen B.seen hand.old) (hand_seen Y.Arm.Pass.seen B.seen hand.new)) }
    ensures refused { IfErr result (λ why. IsRefused run.now (hand_seen Y.Arm.Pass.seen B.seen hand.old) why) }
    ensures kept { OnErr result (hand_seen Y.Arm.Pass.seen B.seen hand.new ≡ hand_seen Y.Arm.Pass.seen B.seen hand.old) }
    ensures same { KeepsHand hand.old hand.new }
    ensures data { OpensData (Y.seen yard.old) (Y.seen yard.new) }
    ensures out { (before : Out) → (Y.seen yard.old).out ≡ passes_out plan.now (hand_seen Y.Arm.Pass.seen B.seen hand.old ∷ []) before → (Y.seen yard.new).out ≡ passes_out plan.now (hand_seen Y.Arm.Pass.seen B.seen hand.new ∷ []) before }
    ensures cause { HasOpenCause (Y.seen yard.old) (Y.seen yard.new) result }
{
    if !has_worker(run, hand.store) {
        return Ok(());
    }
    if !hand.passes.is_empty() {
        return Ok(());
    }
    let store = &plan.stores.as_slice()[hand.store as usize];
    // It has a block at least, so that open passes aren't none.
    let _blocks = store.id.geometry.blocks();
    match yard.passes(store) {
        Ok(passes) => {
            hand.passes = passes;
            Ok(())
        }
        Err(YardFault::Failed) => Err(RunFault::Yard { store: hand.store }),
        Err(YardFault::NoMemory) => Err(RunFault::NoMemory),
    }
}

/// Opens the passes of the stores that work in a run and whose passes aren't open, in order. It stops at the first that can't be opened:
/// those before it are open then.
pub fn open_passes<Y: Yard, B: Book>(
    plan: &Plan,
    run: &RunPlan,
    hands: &mut [StoreHand<<Y::Arm as Arm>::Pass, B>],
    yard: &mut Y,
) -> Result<(), RunFault>
    requires { All (λ (hand : AHand (Y.Arm.Pass) B). hand.store < length plan.now.stores) hands.old }
    ensures opened { OnOk result (AllZip (Opened plan.now run.now (Y.seen yard.old)) (map (hand_seen Y.Arm.Pass.seen B.seen) hands.old) (map (hand_seen Y.Arm.Pass.seen B.seen) hands.new)) }
    ensures stops { IfErr result (λ why. StopsOpening plan.now run.now (Y.seen yard.old) (map (hand_seen Y.Arm.Pass.seen B.seen) hands.old) (map (hand_seen Y.Arm.Pass.seen B.seen) hands.new) why) }
    ensures same { AllZip KeepsHand hands.old hands.new }
    ensures data { OpensData (Y.seen yard.old) (Y.seen yard.new) }
    ensures out { (before : Out) → (Y.seen yard.old).out ≡ passes_out plan.now (map (hand_seen Y.Arm.Pass.seen B.seen) hands.old) before → (Y.seen yard.new).out ≡ passes_out plan.now (map (hand_seen Y.Arm.Pass.seen B.seen) hands.new) before }
    ensures cause { HasOpenCause (Y.seen yard.old) (Y.seen yard.new) result }
{
    let Some((first, others)) = hands.split_first_mut() else {
        return Ok(());
    };
    if let Err(fault) = open_one(plan, run, first, yard) {
        return Err(fault);
    }
    open_passes(plan, run, others, yard)
}

/// The open passes of a hand go back to the yard, and its book to the caller.
fn leave_one<Y: Yard, B: Book>(
    plan: &Plan,
    hand: StoreHand<<Y::Arm as Arm>::Pass, B>,
    yard: &mut Y,
) -> B
    requires store { hand.store < length plan.now.stores }
    requires out { (before : Out) × ((Y.seen yard.old).out ≡ passes_out plan.now (hand_seen Y.Arm.Pass.seen B.seen hand ∷ []) before) }
    ensures book { result ≡ hand.book }
    ensures back { PassesBack plan.now (hand_seen Y.Arm.Pass.seen B.seen hand ∷ []) (Y.seen yard.old) (Y.seen yard.new) }
{
    let StoreHand {
        store,
        passes,
        book,
    } = hand;
    if passes.is_empty() {
        return book;
    }
    yard.keep_passes(&plan.stores.as_slice()[store as usize], passes);
    book
}

/// All open passes go back to the yard, from the first store on, and the books behind `books`, in order.
pub fn leave<Y: Yard, B: Book>(
    plan: &Plan,
    hands: &mut Vec<StoreHand<<Y::Arm as Arm>::Pass, B>>,
    books: &mut Vec<B>,
    yard: &mut Y,
)
    requires stores { All (λ (hand : AHand (Y.Arm.Pass) B). hand.store < length plan.now.stores) hands.old.items }
    requires out { (before : Out) × ((Y.seen yard.old).out ≡ passes_out plan.now (map (hand_seen Y.Arm.Pass.seen B.seen) hands.old.items) before) }
    requires room { length books.old.items + length hands.old.items ≤ vec_capacity books.old }
    ensures none { hands.new.items ≡ [] }
    ensures books { books.new.items ≡ books.old.items ++ map (λ (hand : AHand (Y.Arm.Pass) B). hand.book) hands.old.items }
    ensures back { PassesBack plan.now (map (hand_seen Y.Arm.Pass.seen B.seen) hands.old.items) (Y.seen yard.old) (Y.seen yard.new) }
    ensures room { vec_capacity books.new ≡ vec_capacity books.old }
{
    let Some(hand) = hands.pop() else { return };
    leave(plan, hands, books, yard);
    let book = leave_one(plan, hand, yard);
    books.push_reserved(book);
}
