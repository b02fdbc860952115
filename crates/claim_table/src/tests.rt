// Seats by turns, by runs, and in eight threads.
ghost use Rattle.std.specs.Prelude.{◌≡◌, ◌≢◌, ◌+◌, ◌^◌, ◌≤◌, ◌<◌, [], ◌∷◌, None, All, length, map};
ghost use Rattle.key_state.specs.declared.entry.Entry.TheVariants.{Bad};
ghost use Rattle.claim_table.specs.Passes.{ArePasses};
ghost use Rattle.claim_table.specs.Views.{blocks_of};
ghost use Rattle.claim_table.specs.Seats.{view_of, IsSeatOf, IsIdle, IsNew, made_in};
ghost use Rattle.claim_table.specs.Runs.{AreNewest, ArePassesFor};

use crate::{Claim, ClaimSeat, ClaimTable, Claimed, NewRefused, Run, RunClaim};
use key_state::{Book, Entry, QuietBook};
use std::alloc::Global;
use std::process::Abort;
use std::sync::atomic::{AtomicU32, Ordering};
use std::sync::{Barrier, Wait};
use std::thread;
use vd_arm::{FilePass, Pass};
use vd_base::{BlockNo, Geometry, StoreId, StoreName, next_key};

fn store_of(rt: &impl Abort, blocks: u32) -> StoreId
    ensures { result.geometry ≡ record { blocks = blocks; block_size = 512 } }
{
    StoreId {
        name: StoreName::read(b"sd1").expect(rt, "a name"),
        geometry: Geometry::new(blocks, 512).expect(rt, "a geometry"),
    }
}

fn passes_of(rt: &impl Abort, alloc: Global, store: &StoreId) -> Vec<FilePass>
    ensures { ArePasses store.now (map ⟦<FilePass as Pass>⟧.seen result.items) }
{
    let size = store.geometry.block_size();
    let mut passes = Vec::new(alloc);
    for block in 0..store.geometry.blocks() {
        passes
            .push(FilePass::new(BlockNo(block), size))
            .expect(rt, "memory");
    }
    passes
}

/// A table of so many blocks that were never written, and its seats.
fn table_of(
    rt: &impl Abort,
    alloc: Global,
    blocks: u32,
    seats: u32,
) -> (ClaimTable<FilePass, QuietBook>, Vec<ClaimSeat>)
    requires { (1 ≤ seats) × (seats ≤ 65536) }
    ensures blocks { blocks_of (made_in ⟦<FilePass as Pass>⟧.seen ⟦<QuietBook as Book>⟧.seen result.0) ≡ blocks }
    ensures made { (made_in ⟦<FilePass as Pass>⟧.seen ⟦<QuietBook as Book>⟧.seen result.0).seats ≡ seats }
    ensures entries { length (made_in ⟦<FilePass as Pass>⟧.seen ⟦<QuietBook as Book>⟧.seen result.0).book.now ≡ blocks }
    ensures many { length result.1.items ≡ seats }
    ensures seats { All (IsNew ⟦<FilePass as Pass>⟧.seen ⟦<QuietBook as Book>⟧.seen result.0) result.1.items }
{
    let store = store_of(rt, blocks);
    let passes = passes_of(rt, alloc, &store);
    let book = QuietBook::new(alloc, blocks).expect(rt, "memory");
    match ClaimTable::new(alloc, &store, passes, book, seats) {
        Ok(made) => made,
        // Reached where memory is refused once: what came back makes a table.
        Err(NewRefused { passes, book }) => {
            match ClaimTable::new(alloc, &store, passes, book, seats) {
                Ok(made) => made,
                Err(_) => panic!(rt; "memory"),
            }
        }
    }
}

/// Closes a table with all its seats.
fn closed(
    table: ClaimTable<FilePass, QuietBook>,
    seats: Vec<ClaimSeat>,
) -> (Vec<FilePass>, QuietBook)
    requires each { All (λ seat. IsIdle table seat × ((view_of seat).parts ≡ 2 ^ 32)) seats.items }
    requires many { length seats.items ≡ (made_in ⟦<FilePass as Pass>⟧.seen ⟦<QuietBook as Book>⟧.seen table).seats }
    ensures entries { length (⟦<QuietBook as Book>⟧.seen result.1).now ≡ length (made_in ⟦<FilePass as Pass>⟧.seen ⟦<QuietBook as Book>⟧.seen table).book.now }
{
    table.close(seats)
}

fn is_settled(entry: Entry, key: u8) -> bool {
    match entry {
        Entry::Settled(settled) => settled.get() == key,
        _ => false,
    }
}

/// Begins and ends a write of the one block that a seat holds, which is settled, each under a loan of its own.
fn write_block<R: Abort + Wait>(
    rt: &R,
    table: &ClaimTable<FilePass, QuietBook>,
    seat: &mut ClaimSeat,
    held: Claimed<FilePass>,
) -> Claimed<FilePass>
    requires of { IsSeatOf table.now seat.old × ((view_of seat.old).loan ≡ None) }
    requires one { (i : _) × ((view_of seat.old).held ≡ i ∷ []) × (i.block ≡ held.block.0) × (i.own ≡ held.entry) }
    requires block { held.block.0 < blocks_of (view_of seat.old).made }
    ensures of { IsSeatOf table.now seat.new × ((view_of seat.new).loan ≡ None) }
    ensures one { (i : _) × ((view_of seat.new).held ≡ i ∷ []) × (i.block ≡ result.block.0) × (i.own ≡ result.entry) }
    ensures same { (result.block ≡ held.block) × (result.pass ≡ held.pass) }
    ensures parts { (view_of seat.new).parts ≡ (view_of seat.old).parts }
    ensures made { (view_of seat.new).made ≡ (view_of seat.old).made }
{
    let Claimed { block, entry, pass } = held;
    let Entry::Settled(old) = entry else {
        panic!(rt; "the block is settled")
    };
    let new = next_key(old);
    let mut book = table.take_book(rt, seat);
    book.begin(block, old, new).expect(rt, "a book in memory");
    table.give_book(seat, book);
    let mut book = table.take_book(rt, seat);
    book.end(block, new).expect(rt, "a book in memory");
    table.give_book(seat, book);
    Claimed {
        block,
        entry: Entry::Settled(new),
        pass,
    }
}

/// A seat that claims block 3 while another finds it busy, and writes it.
fn write_in_turn<R: Abort + Wait>(
    rt: &R,
    table: &ClaimTable<FilePass, QuietBook>,
    turn: &Barrier,
    seat: &mut ClaimSeat,
)
    requires of { IsIdle table.now seat.old }
    requires blocks { 16 ≤ blocks_of (view_of seat.old).made }
    ensures of { IsIdle table.now seat.new }
    ensures parts { (view_of seat.new).parts ≡ (view_of seat.old).parts }
{
    let Claim::Claimed(held) = table.claim(seat, BlockNo(3)) else {
        panic!(rt; "block 3 is free")
    };
    assert!(rt; is_settled(held.entry, 0));
    turn.wait(rt);
    turn.wait(rt);
    let written = write_block(rt, table, seat, held);
    table.release(seat, written);
    turn.wait(rt);
}

/// A seat that claims block 3 while the other has it, and after it was written and released.
fn claim_in_turn<R: Abort + Wait>(
    rt: &R,
    table: &ClaimTable<FilePass, QuietBook>,
    turn: &Barrier,
    seat: &mut ClaimSeat,
)
    requires of { IsIdle table.now seat.old }
    requires blocks { 16 ≤ blocks_of (view_of seat.old).made }
    ensures of { IsIdle table.now seat.new }
    ensures parts { (view_of seat.new).parts ≡ (view_of seat.old).parts }
{
    turn.wait(rt);
    assert!(rt; matches!(table.claim(seat, BlockNo(3)), Claim::Busy { .. }));
    turn.wait(rt);
    turn.wait(rt);
    let Claim::Claimed(held) = table.claim(seat, BlockNo(3)) else {
        panic!(rt; "block 3 is free again")
    };
    assert!(rt; is_settled(held.entry, 1));
    table.release(seat, held);
}

fn by_turns<R: Abort + Wait>(
    rt: &R,
    table: &ClaimTable<FilePass, QuietBook>,
    turn: &Barrier,
    first: bool,
    seat: &mut ClaimSeat,
)
    requires of { IsIdle table.now seat.old × ((view_of seat.old).parts ≡ 2 ^ 32) }
    requires blocks { 16 ≤ blocks_of (view_of seat.old).made }
    ensures { IsIdle table.now seat.new × ((view_of seat.new).parts ≡ 2 ^ 32) }
{
    if first {
        write_in_turn(rt, table, turn, seat);
    } else {
        claim_in_turn(rt, table, turn, seat);
    }
}

#[test]
fn two_seats(rt: HostRuntime) {
    let (table, mut seats) = table_of(&rt, rt.alloc(), 16, 2);
    let turn = Barrier::new(2);
    thread::for_each_mut(
        &rt,
        &mut seats,
        2,
        &|i, seat| { by_turns(&rt, &table, &turn, i == 0, seat) },
    );
    let (passes, book) = closed(table, seats);
    assert_eq!(rt; (passes.len(), book.ends()), (16, 1));
    assert!(rt; is_settled(book.entry(BlockNo(3)), 1));
}

/// Claims a run that is free.
fn had<R: Abort>(
    rt: &R,
    table: &ClaimTable<FilePass, QuietBook>,
    seat: &mut ClaimSeat,
    first: u32,
    many: u32,
    room: Run<FilePass>,
) -> Run<FilePass>
    requires of { IsIdle table.now seat.old }
    requires many { (1 ≤ many) × (many ≤ 64) }
    requires blocks { first + many ≤ blocks_of (view_of seat.old).made }
    requires room { room.entries.items ≡ [] }
    ensures of { IsSeatOf table.now seat.new × ((view_of seat.new).loan ≡ None) }
    ensures newest { AreNewest result.first.0 result.entries.items (view_of seat.new).held [] }
    ensures fits { ArePassesFor ⟦<FilePass as Pass>⟧.seen (view_of seat.new).made result.first.0 result.entries.items result.passes.items }
    ensures parts { (view_of seat.new).parts ≡ (view_of seat.old).parts }
    ensures made { (view_of seat.new).made ≡ (view_of seat.old).made }
{
    let RunClaim::Claimed(run) = table.claim_run(seat, BlockNo(first), many, room) else {
        panic!(rt; "no block of the run is held")
    };
    assert_eq!(rt; run.entries.len(), many as usize);
    run
}

/// Claims a run of which another seat holds one block. Which, and the room.
fn turned_away<R: Abort>(
    rt: &R,
    table: &ClaimTable<FilePass, QuietBook>,
    seat: &mut ClaimSeat,
    first: u32,
    many: u32,
    room: Run<FilePass>,
) -> (Run<FilePass>, BlockNo)
    requires of { IsIdle table.now seat.old }
    requires many { (1 ≤ many) × (many ≤ 64) }
    requires blocks { first + many ≤ blocks_of (view_of seat.old).made }
    requires room { room.entries.items ≡ [] }
    ensures of { IsIdle table.now seat.new }
    ensures room { result.0.entries.items ≡ [] }
    ensures parts { (view_of seat.new).parts ≡ (view_of seat.old).parts }
    ensures made { (view_of seat.new).made ≡ (view_of seat.old).made }
{
    let RunClaim::Busy { room, block, .. } = table.claim_run(seat, BlockNo(first), many, room)
    else {
        panic!(rt; "a block of the run is held")
    };
    (room, block)
}

/// Two seats whose runs overlap.
fn runs_in_turn<R: Abort>(
    rt: &R,
    table: &ClaimTable<FilePass, QuietBook>,
    first: &mut ClaimSeat,
    second: &mut ClaimSeat,
    rooms: (Run<FilePass>, Run<FilePass>),
)
    requires first { IsIdle table.now first.old × (16 ≤ blocks_of (view_of first.old).made) }
    requires second { IsIdle table.now second.old × (16 ≤ blocks_of (view_of second.old).made) }
    requires rooms { (rooms.0.entries.items ≡ []) × (rooms.1.entries.items ≡ []) }
    ensures first { IsIdle table.now first.new × ((view_of first.new).parts ≡ (view_of first.old).parts) }
    ensures second { IsIdle table.now second.new × ((view_of second.new).parts ≡ (view_of second.old).parts) }
{
    let (room, other) = rooms;
    let held = had(rt, table, first, 4, 4, room);
    let (other, block) = turned_away(rt, table, second, 2, 4, other);
    assert_eq!(rt; block, BlockNo(4));
    let run = had(rt, table, second, 2, 2, other);
    let other = table.release_run(second, run);
    table.release_run(first, held);
    let run = had(rt, table, second, 2, 4, other);
    table.release_run(second, run);
}

#[test]
fn runs_of_two_seats(rt: HostRuntime) {
    let alloc = rt.alloc();
    let (table, mut seats) = table_of(&rt, alloc, 16, 2);
    let rooms = (
        Run::new(alloc).expect(&rt, "memory"),
        Run::new(alloc).expect(&rt, "memory"),
    );
    let mut second = seats.pop().expect(&rt, "the second seat");
    let mut first = seats.pop().expect(&rt, "the first seat");
    runs_in_turn(&rt, &table, &mut first, &mut second, rooms);
    seats.push(first).expect(&rt, "memory");
    seats.push(second).expect(&rt, "memory");
    let (passes, _book) = closed(table, seats);
    assert_eq!(rt; passes.len(), 16);
}

/// Makes the one block bad that a seat holds, which isn't yet.
fn spoil_block<R: Wait + Abort>(
    rt: &R,
    table: &ClaimTable<FilePass, QuietBook>,
    seat: &mut ClaimSeat,
    held: Claimed<FilePass>,
) -> Claimed<FilePass>
    requires of { IsSeatOf table.now seat.old × ((view_of seat.old).loan ≡ None) }
    requires one { (i : _) × ((view_of seat.old).held ≡ i ∷ []) × (i.block ≡ held.block.0) × (i.own ≡ held.entry) }
    requires good { held.entry ≢ Bad }
    requires block { held.block.0 < blocks_of (view_of seat.old).made }
    ensures of { IsSeatOf table.now seat.new × ((view_of seat.new).loan ≡ None) }
    ensures one { (i : _) × ((view_of seat.new).held ≡ i ∷ []) × (i.block ≡ result.block.0) × (i.own ≡ result.entry) }
    ensures same { (result.block ≡ held.block) × (result.pass ≡ held.pass) }
    ensures parts { (view_of seat.new).parts ≡ (view_of seat.old).parts }
    ensures made { (view_of seat.new).made ≡ (view_of seat.old).made }
{
    let Claimed {
        block,
        entry: _,
        pass,
    } = held;
    let mut book = table.take_book(rt, seat);
    book.bad(block).expect(rt, "a book in memory");
    table.give_book(seat, book);
    Claimed {
        block,
        entry: Entry::Bad,
        pass,
    }
}

/// Claims a run of which one block is bad. Which.
fn bad_in_run<R: Abort>(
    rt: &R,
    table: &ClaimTable<FilePass, QuietBook>,
    seat: &mut ClaimSeat,
    first: u32,
    many: u32,
    room: Run<FilePass>,
) -> BlockNo
    requires of { IsIdle table.now seat.old }
    requires many { (1 ≤ many) × (many ≤ 64) }
    requires blocks { first + many ≤ blocks_of (view_of seat.old).made }
    requires room { room.entries.items ≡ [] }
    ensures of { IsIdle table.now seat.new }
    ensures parts { (view_of seat.new).parts ≡ (view_of seat.old).parts }
    ensures made { (view_of seat.new).made ≡ (view_of seat.old).made }
{
    let RunClaim::BadBlock { block, .. } = table.claim_run(seat, BlockNo(first), many, room) else {
        panic!(rt; "a block of the run is bad")
    };
    block
}

/// Makes block 5 bad, and then claims it, alone and in a run.
fn meet_bad_block<R: Wait + Abort>(
    rt: &R,
    table: &ClaimTable<FilePass, QuietBook>,
    seat: &mut ClaimSeat,
    room: Run<FilePass>,
)
    requires of { IsIdle table.now seat.old }
    requires blocks { 16 ≤ blocks_of (view_of seat.old).made }
    requires room { room.entries.items ≡ [] }
    ensures of { IsIdle table.now seat.new }
    ensures parts { (view_of seat.new).parts ≡ (view_of seat.old).parts }
    ensures made { (view_of seat.new).made ≡ (view_of seat.old).made }
{
    let Claim::Claimed(held) = table.claim(seat, BlockNo(5)) else {
        panic!(rt; "block 5 is free")
    };
    let spoilt = spoil_block(rt, table, seat, held);
    table.release(seat, spoilt);
    assert!(rt; matches!(table.claim(seat, BlockNo(5)), Claim::BadBlock));
    assert_eq!(rt; bad_in_run(rt, table, seat, 4, 4, room), BlockNo(5));
    assert_eq!(rt; table.look(seat, BlockNo(5)), Entry::Bad);
}

/// Splits a seat and joins both again.
fn split_and_join<R: Abort>(rt: &R, table: &ClaimTable<FilePass, QuietBook>, seat: &mut ClaimSeat)
    requires of { IsIdle table.now seat.old × (2 ≤ (view_of seat.old).parts) }
    requires blocks { 16 ≤ blocks_of (view_of seat.old).made }
    ensures of { IsIdle table.now seat.new }
    ensures parts { (view_of seat.new).parts ≡ (view_of seat.old).parts }
{
    let mut other = table.split(seat);
    assert!(rt; is_settled(table.look(&mut other, BlockNo(4)), 0));
    table.join(seat, other);
}

#[test]
fn a_bad_block(rt: HostRuntime) {
    let alloc = rt.alloc();
    let (table, mut seats) = table_of(&rt, alloc, 16, 1);
    let room = Run::new(alloc).expect(&rt, "memory");
    let mut seat = seats.pop().expect(&rt, "the seat");
    meet_bad_block(&rt, &table, &mut seat, room);
    split_and_join(&rt, &table, &mut seat);
    seats.push(seat).expect(&rt, "memory");
    let (passes, book) = closed(table, seats);
    assert_eq!(rt; passes.len(), 16);
    assert_eq!(rt; book.entry(BlockNo(5)), Entry::Bad);
}

/// Claims a block, and releases it where it was had. Whether it was.
fn claim_once(table: &ClaimTable<FilePass, QuietBook>, seat: &mut ClaimSeat, block: u32) -> bool
    requires of { IsIdle table.now seat.old }
    requires block { block < blocks_of (view_of seat.old).made }
    ensures of { IsIdle table.now seat.new }
    ensures parts { (view_of seat.new).parts ≡ (view_of seat.old).parts }
    ensures made { (view_of seat.new).made ≡ (view_of seat.old).made }
{
    match table.claim(seat, BlockNo(block)) {
        Claim::Claimed(held) => {
            table.release(seat, held);
            true
        }
        _ => false,
    }
}

/// Many claims, which are counted by what they answered.
fn claim_often(
    table: &ClaimTable<FilePass, QuietBook>,
    seat: &mut ClaimSeat,
    from: u32,
    had: &AtomicU32,
    refused: &AtomicU32,
)
    requires of { IsIdle table.now seat.old × ((view_of seat.old).parts ≡ 2 ^ 32) }
    requires blocks { 64 ≤ blocks_of (view_of seat.old).made }
    requires from { from < 8 }
    ensures of { IsIdle table.now seat.new × ((view_of seat.new).parts ≡ 2 ^ 32) }
    ensures made { (view_of seat.new).made ≡ (view_of seat.old).made }
{
    for i in 0..100_000u32 {
        if claim_once(table, seat, (from + i * 7) % 64) {
            had.fetch_add(1, Ordering::SeqCst);
        } else {
            refused.fetch_add(1, Ordering::SeqCst);
        }
    }
}

/// Claims the eight blocks that no other thread claims. Each is had.
fn claim_own<R: Abort>(
    rt: &R,
    table: &ClaimTable<FilePass, QuietBook>,
    seat: &mut ClaimSeat,
    thread: u32,
)
    requires of { IsIdle table.now seat.old × ((view_of seat.old).parts ≡ 2 ^ 32) }
    requires blocks { 64 ≤ blocks_of (view_of seat.old).made }
    requires thread { thread < 8 }
    ensures of { IsIdle table.now seat.new × ((view_of seat.new).parts ≡ 2 ^ 32) }
    ensures made { (view_of seat.new).made ≡ (view_of seat.old).made }
{
    for i in 0..8u32 {
        assert!(rt; claim_once(table, seat, thread * 8 + i));
    }
}

/// Claims of a thread: first of its own blocks, and when all threads have done so of all blocks. When all are done, each block is at
/// home, as one of them finds.
fn claim_by_turns<R: Abort + Wait>(
    rt: &R,
    table: &ClaimTable<FilePass, QuietBook>,
    turn: &Barrier,
    seat: &mut ClaimSeat,
    thread: u32,
    had: &AtomicU32,
    refused: &AtomicU32,
)
    requires of { IsIdle table.now seat.old × ((view_of seat.old).parts ≡ 2 ^ 32) }
    requires blocks { 64 ≤ blocks_of (view_of seat.old).made }
    requires thread { thread < 8 }
    ensures { IsIdle table.now seat.new × ((view_of seat.new).parts ≡ 2 ^ 32) }
{
    claim_own(rt, table, seat, thread);
    turn.wait(rt);
    claim_often(table, seat, thread, had, refused);
    turn.wait(rt);
    if thread == 0 {
        claim_each(rt, table, seat);
    }
}

/// Claims each of 64 blocks once, none of which is held.
fn claim_each<R: Abort>(rt: &R, table: &ClaimTable<FilePass, QuietBook>, seat: &mut ClaimSeat)
    requires of { IsIdle table.now seat.old × ((view_of seat.old).parts ≡ 2 ^ 32) }
    requires blocks { 64 ≤ blocks_of (view_of seat.old).made }
    ensures { IsIdle table.now seat.new × ((view_of seat.new).parts ≡ 2 ^ 32) }
{
    for block in 0..64u32 {
        assert!(rt; claim_once(table, seat, block));
    }
}

#[test]
fn eight_threads(rt: HostRuntime) {
    let (table, mut seats) = table_of(&rt, rt.alloc(), 64, 8);
    let turn = Barrier::new(8);
    let had = AtomicU32::new(0);
    let refused = AtomicU32::new(0);
    thread::for_each_mut(
        &rt,
        &mut seats,
        8,
        &|i, seat| { claim_by_turns(&rt, &table, &turn, seat, (i % 8) as u32, &had, &refused) },
    );
    let had = had.load(Ordering::SeqCst) as u64;
    let refused = refused.load(Ordering::SeqCst) as u64;
    assert_eq!(rt; had + refused, 800_000);
    // The first claim of each block is had.
    assert!(rt; had >= 64);
    let (passes, _book) = closed(table, seats);
    assert_eq!(rt; passes.len(), 64);
}

/// Takes the book, lets the other seat ask for it, and gives it back after a while.
fn keep_book<R: Abort + Wait>(
    rt: &R,
    table: &ClaimTable<FilePass, QuietBook>,
    turn: &Barrier,
    while_kept: &AtomicU32,
    seat: &mut ClaimSeat,
)
    requires { IsIdle table.now seat.old }
    ensures of { IsIdle table.now seat.new }
    ensures parts { (view_of seat.new).parts ≡ (view_of seat.old).parts }
{
    let book = table.take_book(rt, seat);
    turn.wait(rt);
    for _ in 0..5_000_000u32 {
        while_kept.fetch_add(1, Ordering::SeqCst);
    }
    table.give_book(seat, book);
}

/// Takes the book while the other seat has it, which is to wait until that gives it back.
fn wait_for_book<R: Abort + Wait>(
    rt: &R,
    table: &ClaimTable<FilePass, QuietBook>,
    turn: &Barrier,
    while_kept: &AtomicU32,
    seat: &mut ClaimSeat,
)
    requires { IsIdle table.now seat.old }
    ensures of { IsIdle table.now seat.new }
    ensures parts { (view_of seat.new).parts ≡ (view_of seat.old).parts }
{
    turn.wait(rt);
    let book = table.take_book(rt, seat);
    assert_eq!(rt; while_kept.load(Ordering::SeqCst), 5_000_000);
    table.give_book(seat, book);
}

fn book_by_turns<R: Abort + Wait>(
    rt: &R,
    table: &ClaimTable<FilePass, QuietBook>,
    turn: &Barrier,
    while_kept: &AtomicU32,
    first: bool,
    seat: &mut ClaimSeat,
)
    requires { IsIdle table.now seat.old × ((view_of seat.old).parts ≡ 2 ^ 32) }
    ensures { IsIdle table.now seat.new × ((view_of seat.new).parts ≡ 2 ^ 32) }
{
    if first {
        keep_book(rt, table, turn, while_kept, seat);
    } else {
        wait_for_book(rt, table, turn, while_kept, seat);
    }
}

#[test]
fn a_seat_waits_for_the_book(rt: HostRuntime) {
    let (table, mut seats) = table_of(&rt, rt.alloc(), 16, 2);
    let turn = Barrier::new(2);
    let while_kept = AtomicU32::new(0);
    thread::for_each_mut(
        &rt,
        &mut seats,
        2,
        &|i, seat| { book_by_turns(&rt, &table, &turn, &while_kept, i == 0, seat) },
    );
    let (passes, _book) = closed(table, seats);
    assert_eq!(rt; passes.len(), 16);
}
