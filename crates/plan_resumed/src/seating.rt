// Verified stores and open journals, put into hands.
ghost use Rattle.std.specs.Prelude.{◌≡◌, ◌+◌, ◌++◌, ◌<◌, ◌≤◌, ◌^◌, [], IfOk, OnErr, OnOk, length, map};
ghost use Rattle.std.specs.Vec.{vec_capacity};
ghost use Rattle.slave_worker.specs.Hands.{hand_seen};
ghost use Rattle.plan_verified.specs.Stores.{settled_of, store_seen};
ghost use Rattle.plan_reopened.specs.Reopening.{items_of};
ghost use Rattle.plan_resumed.specs.Seating.{emptied, with_passes};

use key_state::{Book, Entry};
use plan_verified::VerifiedStore;
use slave_worker::StoreHand;
use std::alloc::Global;
use vd_arm::Pass;
use vd_outside::NoMemory;

/// Moves the settled entries of the stores behind `settled`, which has room for them, in order.
fn move_settled<P: Pass>(
    alloc: Global,
    verified: &mut Vec<VerifiedStore<P>>,
    settled: &mut Vec<Vec<Entry>>,
)
    requires room { length settled.old.items + length verified.old.items ≤ vec_capacity settled.old }
    ensures settled { map items_of settled.new.items ≡ map items_of settled.old.items ++ map settled_of (map (store_seen P.seen) verified.old.items) }
    ensures left { map (store_seen P.seen) verified.new.items ≡ map emptied (map (store_seen P.seen) verified.old.items) }
    ensures rooms { (vec_capacity settled.new ≡ vec_capacity settled.old) × (vec_capacity verified.new ≡ vec_capacity verified.old) }
{
    let Some(
        VerifiedStore {
            passes,
            settled: entries,
        },
    ) = verified.pop()
    else {
        return;
    };
    move_settled(alloc, verified, settled);
    settled.push_reserved(entries);
    verified.push_reserved(VerifiedStore {
        passes,
        settled: Vec::new(alloc),
    });
}

/// The settled entries of these stores, in order; `verified` keeps their passes. Where memory runs out nothing changes.
pub(crate) fn take_settled<P: Pass>(
    alloc: Global,
    verified: &mut Vec<VerifiedStore<P>>,
) -> Result<Vec<Vec<Entry>>, NoMemory>
    ensures settled { IfOk result (λ settled. map items_of settled.items ≡ map settled_of (map (store_seen P.seen) verified.old.items)) }
    ensures left { OnOk result (map (store_seen P.seen) verified.new.items ≡ map emptied (map (store_seen P.seen) verified.old.items)) }
    ensures refused { OnErr result (verified.new ≡ verified.old) }
{
    let mut settled = Vec::with_capacity(alloc, verified.len())?;
    move_settled(alloc, verified, &mut settled);
    Ok(settled)
}

/// Moves the passes of the stores and the books into hands that have room for them, in order.
fn seat<P: Pass, B: Book>(
    verified: &mut Vec<VerifiedStore<P>>,
    books: &mut Vec<B>,
    hands: &mut Vec<StoreHand<P, B>>,
)
    requires as_many { length verified.old.items ≡ length books.old.items }
    requires few { length books.old.items < 2 ^ 32 }
    requires room { length hands.old.items + length books.old.items ≤ vec_capacity hands.old }
    ensures hands { map (hand_seen P.seen B.seen) hands.new.items ≡ map (hand_seen P.seen B.seen) hands.old.items ++ with_passes (map (store_seen P.seen) verified.old.items) (map B.seen books.old.items) }
    ensures none { (verified.new.items ≡ []) × (books.new.items ≡ []) }
    ensures rooms { (vec_capacity books.new ≡ vec_capacity books.old) × (vec_capacity hands.new ≡ vec_capacity hands.old) }
{
    let Some(book) = books.pop() else { return };
    let Some(store) = verified.pop() else {
        unreachable!()
    };
    let place = books.len() as u32;
    seat(verified, books, hands);
    hands.push_reserved(StoreHand {
        store: place,
        passes: store.passes,
        book,
    });
}

/// A hand for each of these stores, in order, with its open passes and its book. `verified` and `books` are empty then, and `books` keeps
/// its room, so that the books can come back. Where memory runs out nothing changes.
pub(crate) fn open_hands_of<P: Pass, B: Book>(
    alloc: Global,
    verified: &mut Vec<VerifiedStore<P>>,
    books: &mut Vec<B>,
) -> Result<Vec<StoreHand<P, B>>, NoMemory>
    requires as_many { length verified.old.items ≡ length books.old.items }
    requires few { length books.old.items < 2 ^ 32 }
    ensures hands { IfOk result (λ hands. map (hand_seen P.seen B.seen) hands.items ≡ with_passes (map (store_seen P.seen) verified.old.items) (map B.seen books.old.items)) }
    ensures moved { OnOk result (books.new.items ≡ []) }
    ensures room { (vec_capacity books.new ≡ vec_capacity books.old) × (length books.old.items ≤ vec_capacity books.new) }
    ensures refused { OnErr result ((books.new ≡ books.old) × (verified.new ≡ verified.old)) }
{
    let mut hands = Vec::with_capacity(alloc, books.len())?;
    seat(verified, books, &mut hands);
    Ok(hands)
}
