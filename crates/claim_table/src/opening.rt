// A table is made.
ghost use Rattle.std.specs.Prelude.{◌≡◌, ℕ, ◌+◌, ◌*◌, ◌/◌, ◌^◌, ◌≤◌, ◌<◌, [], ◌∷◌, ◌++◌, All, length, map, IfOk, IfErr};
ghost use Rattle.std.specs.Vec.{vec_capacity, vec_len};
ghost use Rattle.claim_table.specs.declared.slot.Slot.TheVariants as Slot;
ghost use Rattle.claim_table.specs.Sums.{total};
ghost use Rattle.claim_table.specs.Views.{fresh};
ghost use Rattle.claim_table.specs.Passes.{ArePasses};
ghost use Rattle.claim_table.specs.Openings.{HasEntries, AreSlots, CameFrom, made_with, passes_in};
ghost use Rattle.claim_table.specs.Seats.{view_of, IsNew, made_in, room_of};

use crate::code::{encode, in_lane, word_index};
use crate::rule::Deal;
use crate::slot::{Key, Shelf, Slot};
use crate::table::{ClaimSeat, ClaimTable, Place};
use atomic_table::{Refused, Table};
use key_state::Book;
use std::alloc::{AllocError, Global};
use std::snapshot::Snapshot;
use vd_arm::Pass;
use vd_base::{BlockNo, StoreId};

/// There was no memory for a table. What it was to be made with comes back.
#[derive(Drop)]
pub struct NewRefused<P, B> {
    pub passes: Vec<P>,
    pub book: B,
}

/// The memory of a table: its words, with each block's entry, its slots, and the list of its seats.
#[derive(Drop)]
struct Memory<P, B> {
    words: Vec<u64>,
    slots: Vec<Slot<P, B>>,
    seats: Vec<ClaimSeat>,
}

fn zero_words(alloc: Global, count: usize) -> Result<Vec<u64>, AllocError>
    ensures { IfOk result (λ v. (length v.items ≡ count) × (total (λ n. n) v.items ≡ 0)) }
{
    let mut words = Vec::with_capacity(alloc, count)?;
    for _ in 0..count {
        words.push_reserved(0);
    }
    Ok(words)
}

/// Each block's entry in its word, four in each. The lock isn't set.
fn packed<B: Book>(alloc: Global, blocks: u32, book: &B) -> Result<Vec<u64>, AllocError>
    requires { length (B.seen book.now).now ≡ blocks }
    ensures { IfOk result (λ words. HasEntries (B.seen book.now) blocks words.items) }
{
    let mut words = zero_words(alloc, (blocks as usize + 3) / 4 + 1)?;
    for block in 0..blocks {
        let at = word_index(block);
        words[at] |= in_lane(block, encode(book.entry(BlockNo(block))));
    }
    Ok(words)
}

fn reserve<P: Drop, B: Book>(
    alloc: Global,
    blocks: u32,
    seats: u32,
    book: &B,
) -> Result<Memory<P, B>, AllocError>
    requires { length (B.seen book.now).now ≡ blocks }
    ensures words { IfOk result (λ m. HasEntries (B.seen book.now) blocks m.words.items) }
    ensures lists { IfOk result (λ m. (m.slots.items ≡ []) × (m.seats.items ≡ [])) }
    ensures room { IfOk result (λ m. (blocks < vec_capacity m.slots) × (seats ≤ vec_capacity m.seats)) }
{
    let words = packed(alloc, blocks, book)?;
    let slots = Vec::with_capacity(alloc, blocks as usize + 1)?;
    let seats = Vec::with_capacity(alloc, seats as usize)?;
    Ok(Memory {
        words,
        slots,
        seats,
    })
}

/// The passes go into slots, and the book behind them. The list in which they came is left empty.
fn slots_of<P: Drop, B>(
    mut slots: Vec<Slot<P, B>>,
    passes: &mut Vec<P>,
    shelf: Shelf<B>,
) -> Vec<Slot<P, B>>
    requires { (slots.items ≡ []) × (length passes.old.items < vec_capacity slots) }
    ensures slots { result.items ≡ map Slot.Pass passes.old.items ++ Slot.Book shelf ∷ [] }
    ensures emptied { passes.new.items ≡ [] }
    ensures room { vec_capacity passes.new ≡ vec_capacity passes.old }
{
    for pass in passes.drain(..) {
        slots.push_reserved(Slot::Pass(pass));
    }
    slots.push_reserved(Slot::Book(shelf));
    slots
}

/// The list with the pass that lies in a slot.
fn with_pass<P: Drop, B: Drop>(mut room: Vec<P>, slot: Slot<P, B>) -> Vec<P>
    requires { vec_len room < vec_capacity room }
    ensures items { result.items ≡ room.items ++ passes_in (slot ∷ []) }
    ensures capacity { vec_capacity result ≡ vec_capacity room }
{
    match slot {
        Slot::Pass(pass) => room.push_reserved(pass),
        _ => {}
    }
    room
}

/// The list of the passes that lie in slots.
fn passes_of<P: Drop, B: Drop>(slots: Vec<Slot<P, B>>, mut room: Vec<P>) -> Vec<P>
    requires { (room.items ≡ []) × (length slots.items ≤ vec_capacity room) }
    ensures { result.items ≡ passes_in slots.items }
{
    for slot in slots {
        room = with_pass(room, slot);
    }
    room
}

/// The passes go back into a list, and the book comes out of its place.
fn give_back<P: Drop, B: Drop>(mut slots: Vec<Slot<P, B>>, room: Vec<P>) -> NewRefused<P, B>
    requires slots { AreSlots slots.items }
    requires room { (room.items ≡ []) × (length slots.items ≤ vec_capacity room + 1) }
    ensures { CameFrom slots.items result.passes.items result.book }
{
    let Some(Slot::Book(mut shelf)) = slots.pop() else {
        unreachable!()
    };
    NewRefused {
        passes: passes_of(slots, room),
        book: shelf.take(),
    }
}

impl<P: Pass, B: Book> ClaimTable<P, B> {
    /// Makes a table over the passes of all blocks, in block order, and a book with one entry for each block, with 1 to 65,536 seats. Each
    /// has 2^32 parts. The list in which the passes came is kept for them. Want of memory gives passes and book back.
    pub fn new(
        alloc: Global,
        store: &StoreId,
        mut passes: Vec<P>,
        book: B,
        seats: u32,
    ) -> Result<(ClaimTable<P, B>, Vec<ClaimSeat>), NewRefused<P, B>>
        requires seats { (1 ≤ seats) × (seats ≤ 65536) }
        requires passes { ArePasses store.now (map P.seen passes.items) }
        requires book { length (B.seen book).now ≡ store.now.geometry.blocks }
        ensures made { IfOk result (λ made. made_in P.seen B.seen made.0 ≡ made_with P.seen B.seen store.now seats passes.items book) }
        ensures room { IfOk result (λ made. room_of made.0 ≡ vec_capacity passes) }
        ensures seats { IfOk result (λ made. (length made.1.items ≡ seats) × All (IsNew P.seen B.seen made.0) made.1.items) }
        ensures refused { IfErr result (λ back. (back.passes.items ≡ passes.items) × (back.book ≡ book)) }
    {
        let blocks = store.geometry.blocks();
        let Ok(memory) = reserve(alloc, blocks, seats, &book) else {
            return Err(NewRefused { passes, book });
        };
        let key = Key {
            store: *store,
            seats,
            passes: Snapshot::of(&passes),
            book: Snapshot::of(&book),
        };
        let shelf = match Shelf::new(alloc, book) {
            Ok(shelf) => shelf,
            Err(book) => return Err(NewRefused { passes, book }),
        };
        let Memory {
            words,
            slots,
            seats: list,
        } = memory;
        let slots = slots_of(slots, &mut passes, shelf);
        match Table::new(alloc, &words, slots, &key) {
            Ok((table, seat)) => {
                let table = ClaimTable {
                    table,
                    blocks,
                    room: passes,
                };
                let list = table.deal(seat, list, seats);
                Ok((table, list))
            }
            Err(Refused { slots }) => Err(give_back(slots, passes)),
        }
    }

    /// The parts of one seat go to each of so many seats.
    fn deal(&self, mut all: Place<P, B>, mut seats: Vec<ClaimSeat>, many: u32) -> Vec<ClaimSeat>
        requires all { (all.table_id ≡ self.now.table.shared.table_id) × (all.me.1 ≡ []) × (all.me.0 ≡ fresh (made_in P.seen B.seen self.now) (many * 2 ^ 32)) }
        requires room { (1 ≤ many) × (seats.items ≡ []) × (many ≤ vec_capacity seats) }
        ensures many { length result.items ≡ many }
        ensures each { All (IsNew P.seen B.seen self.now) result.items }
    {
        for _ in 1..many {
            let seat = self.table.shared.split_seat::<Deal>(&mut all);
            seats.push_reserved(ClaimSeat {
                badge: seat.into_badge(),
            });
        }
        seats.push_reserved(ClaimSeat {
            badge: all.into_badge(),
        });
        seats
    }
}
