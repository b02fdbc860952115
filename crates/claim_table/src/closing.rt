// A table is closed with all its seats.
ghost use Rattle.std.specs.Prelude.{◌≡◌, ℕ, ◌+◌, ◌≤◌, ◌<◌, [], ◌∷◌, false, true, All, length, map, slice_index_or};
ghost use Rattle.std.specs.Slots.{slots_items, slots_filled, slots_len, IsFull};
ghost use Rattle.std.specs.Vec.{vec_capacity};
ghost use mathlib.Core.Option.{some};
ghost use lib.ListN.{get_elem?};
ghost use Rattle.claim_table.specs.declared.slot.Slot.TheVariants as Slot;
ghost use Rattle.claim_table.specs.Sums.{total};
ghost use Rattle.claim_table.specs.Views.{parts, parts_in};
ghost use Rattle.claim_table.specs.Closings.{HasPass, HasAll, Returned, Gathered, ToldKept, PassesKept, BookKept, NewDidNothing};
ghost use Rattle.claim_table.specs.Seats.{view_of, IsSeatOf, IsIdle, made_in, room_of};

use crate::slot::Slot;
use crate::table::{ClaimSeat, ClaimTable};
use atomic_table::Closed;
use key_state::Book;
use std::alloc::Global;
use vd_arm::Pass;

/// The passes of all blocks, in order, into the list that was kept for them.
fn take_passes<P, B>(
    closed: &mut Closed<Slot<P, B>, Global>,
    blocks: u32,
    mut room: Vec<P>,
) -> Vec<P>
    requires slots { (blocks < slots_len closed.old.slots) × IsFull closed.old.slots }
    requires passes { (k : ℕ) → k < blocks → HasPass (slots_items closed.old.slots) k }
    requires room { (blocks ≤ vec_capacity room) × (room.items ≡ []) }
    ensures many { length result.items ≡ blocks }
    ensures each { (k : ℕ) → k < blocks → (p : _) × (get_elem? result.items k ≡ some p) × (get_elem? (slots_items closed.old.slots) k ≡ some (Slot.Pass p)) }
    ensures slots { (slots_items closed.new.slots ≡ slots_items closed.old.slots) × (slots_len closed.new.slots ≡ slots_len closed.old.slots) }
    ensures left { (k : ℕ) → k < blocks → slice_index_or (slots_filled closed.new.slots) k false ≡ false }
    ensures last { slice_index_or (slots_filled closed.new.slots) blocks false ≡ true }
    ensures list { vec_capacity result ≡ vec_capacity room }
{
    for block in 0..blocks {
        match closed.take(block as usize) {
            Slot::Pass(pass) => room.push_reserved(pass),
            _ => unreachable!(),
        }
    }
    room
}

impl<P: Pass, B: Book> ClaimTable<P, B> {
    /// Gives back the passes in block order, and the book. It takes all seats of the table, each of which holds no block and doesn't have
    /// the book. The book's Ends and Clears, and how many of its blocks are bad, are those that it was made with and what the seats'
    /// lists add. It follows each book that a seat gave back: where one of those is stopped or shut, it is too. It takes no memory: the
    /// passes go back into the list in which they came.
    pub fn close(self, seats: Vec<ClaimSeat>) -> (Vec<P>, B)
        requires idle { All (IsIdle self) seats.items }
        requires all { total parts (map view_of seats.items) ≡ parts_in (made_in P.seen B.seen self) }
        ensures returned { Returned (made_in P.seen B.seen self) (map view_of seats.items) (map P.seen result.0.items) (B.seen result.1) }
        ensures list { vec_capacity result.0 ≡ room_of self }
    {
        let seat = self.gather(seats);
        self.close_with(seat)
    }

    /// All seats in one.
    fn gather(&self, mut seats: Vec<ClaimSeat>) -> ClaimSeat
        requires idle { All (IsIdle self.now) seats.items }
        requires all { total parts (map view_of seats.items) ≡ parts_in (made_in P.seen B.seen self.now) }
        ensures idle { IsIdle self.now result }
        ensures all { Gathered (map view_of seats.items) (view_of result) }
        ensures whole { HasAll (view_of result) (made_in P.seen B.seen self.now) }
    {
        let Some(mut all) = seats.pop() else {
            unreachable!()
        };
        while let Some(other) = seats.pop() {
            self.join(&mut all, other);
        }
        seats.destroy_empty();
        all
    }

    fn close_with(self, seat: ClaimSeat) -> (Vec<P>, B)
        requires idle { IsIdle self seat }
        requires all { HasAll (view_of seat) (made_in P.seen B.seen self) }
        ensures returned { Returned (made_in P.seen B.seen self) (view_of seat ∷ []) (map P.seen result.0.items) (B.seen result.1) }
        ensures list { vec_capacity result.0 ≡ room_of self }
    {
        let ClaimTable {
            table,
            blocks,
            room,
        } = self;
        let ClaimSeat { badge } = seat;
        let mut closed = table.close_with(badge.into_seat::<Slot<P, B>>());
        let room = take_passes(&mut closed, blocks, room);
        let mut shelf = match closed.take(blocks as usize) {
            Slot::Book(shelf) => shelf,
            _ => unreachable!(),
        };
        closed.free();
        let book = shelf.take();
        (room, book)
    }
}

/// The laws that what comes back is as it was handed in: the passes where no seat made a claim, the book where none gave one back. Seats
/// that are as they were made did neither. It does nothing.
pub fn untouched_all<P: Pass, B: Book>()
    ensures passes { PassesKept P.seen B.seen }
    ensures told { ToldKept }
    ensures book { BookKept }
    ensures new { NewDidNothing P.seen B.seen }
{}
