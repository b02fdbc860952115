// Books in hands.
ghost use Rattle.std.specs.Prelude.{◌≡◌, ◌+◌, ◌++◌, ◌<◌, ◌≤◌, ◌^◌, [], IfOk, OnErr, OnOk, length, map};
ghost use Rattle.std.specs.Vec.{vec_capacity};
ghost use Rattle.slave_worker.specs.Hands.{hand_seen};
ghost use Rattle.slave_worker.specs.declared.hand.StoreHand.{StoreHand as AHand};
ghost use Rattle.plan_hands.specs.Stores.{with_books};

use key_state::Book;
use slave_worker::StoreHand;
use std::alloc::Global;
use vd_arm::Pass;
use vd_outside::NoMemory;

/// Moves the books into hands that have room for them, in order.
fn seat<P: Pass, B: Book>(alloc: Global, books: &mut Vec<B>, hands: &mut Vec<StoreHand<P, B>>)
    requires few { length books.old.items < 2 ^ 32 }
    requires room { length hands.old.items + length books.old.items ≤ vec_capacity hands.old }
    ensures hands { map (hand_seen P.seen B.seen) hands.new.items ≡ map (hand_seen P.seen B.seen) hands.old.items ++ with_books (map B.seen books.old.items) }
    ensures same { map (λ (hand : AHand P B). hand.book) hands.new.items ≡ map (λ (hand : AHand P B). hand.book) hands.old.items ++ books.old.items }
    ensures none { books.new.items ≡ [] }
    ensures rooms { (vec_capacity books.new ≡ vec_capacity books.old) × (vec_capacity hands.new ≡ vec_capacity hands.old) }
{
    let Some(book) = books.pop() else { return };
    let store = books.len() as u32;
    seat(alloc, books, hands);
    hands.push_reserved(StoreHand {
        store,
        passes: Vec::new(alloc),
        book,
    });
}

/// A hand for each of these books, store by store, none with open passes. `books` is empty then, and keeps its room, so that the books can
/// come back. Where memory runs out nothing changes.
pub fn hands_of<P: Pass, B: Book>(
    alloc: Global,
    books: &mut Vec<B>,
) -> Result<Vec<StoreHand<P, B>>, NoMemory>
    requires { length books.old.items < 2 ^ 32 }
    ensures hands { IfOk result (λ hands. map (hand_seen P.seen B.seen) hands.items ≡ with_books (map B.seen books.old.items)) }
    ensures books { IfOk result (λ hands. map (λ (hand : AHand P B). hand.book) hands.items ≡ books.old.items) }
    ensures moved { OnOk result (books.new.items ≡ []) }
    ensures room { vec_capacity books.new ≡ vec_capacity books.old }
    ensures refused { OnErr result (books.new ≡ books.old) }
{
    let mut hands = Vec::with_capacity(alloc, books.len())?;
    seat(alloc, books, &mut hands);
    Ok(hands)
}
