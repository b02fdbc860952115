// The hands of a run's stores, and the others.
ghost use Rattle.std.specs.Prelude.{◌≡◌, ◌+◌, ◌++◌, ◌≤◌, [], List, filter, length, map, not};
ghost use Rattle.std.specs.List.{range_with_len};
ghost use Rattle.std.specs.Vec.{vec_capacity};
ghost use Rattle.slave_worker.specs.Hands.{HandSeen, hand_seen, works_in};
ghost use Rattle.slave_worker.specs.declared.hand.StoreHand.{StoreHand as AHand};
ghost use Rattle.plan_hands.specs.Stores.{Joins, not_of_run, of_run, place_of};

use key_state::Book;
use plan_types::RunPlan;
use slave_worker::StoreHand;
use vd_arm::Pass;

/// Whether the store at a place has a worker in a run.
pub fn has_worker(run: &RunPlan, store: u32) -> bool
    ensures { result ≡ works_in run.now store }
{
    run.workers
        .as_slice()
        .iter()
        .any(|worker| worker.store == store)
}

/// Moves the hands of a run's stores behind `active` and the others behind `resting`, each in their order.
pub fn part<P: Pass, B: Book>(
    run: &RunPlan,
    hands: &mut Vec<StoreHand<P, B>>,
    active: &mut Vec<StoreHand<P, B>>,
    resting: &mut Vec<StoreHand<P, B>>,
)
    requires room { length active.old.items + length hands.old.items ≤ vec_capacity active.old }
    requires resting_room { length resting.old.items + length hands.old.items ≤ vec_capacity resting.old }
    ensures none { hands.new.items ≡ [] }
    ensures active { map (hand_seen P.seen B.seen) active.new.items ≡ map (hand_seen P.seen B.seen) active.old.items ++ of_run run.now (map (hand_seen P.seen B.seen) hands.old.items) }
    ensures resting { map (hand_seen P.seen B.seen) resting.new.items ≡ map (hand_seen P.seen B.seen) resting.old.items ++ not_of_run run.now (map (hand_seen P.seen B.seen) hands.old.items) }
    ensures its_hands { active.new.items ≡ active.old.items ++ filter (λ (hand : AHand P B). works_in run.now hand.store) hands.old.items }
    ensures other_hands { resting.new.items ≡ resting.old.items ++ filter (λ (hand : AHand P B). not (works_in run.now hand.store)) hands.old.items }
    ensures rooms { (vec_capacity hands.new ≡ vec_capacity hands.old) × (vec_capacity active.new ≡ vec_capacity active.old) × (vec_capacity resting.new ≡ vec_capacity resting.old) }
{
    let Some(hand) = hands.pop() else { return };
    part(run, hands, active, resting);
    if has_worker(run, hand.store) {
        active.push_reserved(hand);
    } else {
        resting.push_reserved(hand);
    }
}

/// Moves the hands of the first so many stores behind `hands`, in order: those of a run's stores out of `active`, the others out of
/// `resting`.
pub fn join<P: Pass, B: Book>(
    run: &RunPlan,
    places: u32,
    active: &mut Vec<StoreHand<P, B>>,
    resting: &mut Vec<StoreHand<P, B>>,
    hands: &mut Vec<StoreHand<P, B>>,
)
    requires active { map place_of (map (hand_seen P.seen B.seen) active.old.items) ≡ filter (works_in run.now) (range_with_len 0 places) }
    requires resting { map place_of (map (hand_seen P.seen B.seen) resting.old.items) ≡ filter (λ place. not (works_in run.now place)) (range_with_len 0 places) }
    requires room { length hands.old.items + places ≤ vec_capacity hands.old }
    ensures none { (active.new.items ≡ []) × (resting.new.items ≡ []) }
    ensures joined { (all : List HandSeen)
        × (map (hand_seen P.seen B.seen) hands.new.items ≡ map (hand_seen P.seen B.seen) hands.old.items ++ all)
        × Joins run.now places (map (hand_seen P.seen B.seen) active.old.items) (map (hand_seen P.seen B.seen) resting.old.items) all }
    ensures same { (all : List (AHand P B))
        × (hands.new.items ≡ hands.old.items ++ all)
        × (filter (λ (hand : AHand P B). works_in run.now hand.store) all ≡ active.old.items)
        × (filter (λ (hand : AHand P B). not (works_in run.now hand.store)) all ≡ resting.old.items) }
    ensures rooms { (vec_capacity hands.new ≡ vec_capacity hands.old) × (vec_capacity active.new ≡ vec_capacity active.old) × (vec_capacity resting.new ≡ vec_capacity resting.old) }
{
    let Some(place) = places.checked_sub(1) else {
        return;
    };
    if has_worker(run, place) {
        let Some(hand) = active.pop() else {
            unreachable!()
        };
        join(run, place, active, resting, hands);
        hands.push_reserved(hand);
        return;
    }
    let Some(hand) = resting.pop() else {
        unreachable!()
    };
    join(run, place, active, resting, hands);
    hands.push_reserved(hand);
}
