// Threads that claim and release blocks.
ghost use Rattle.std.specs.Prelude.{◌≡◌, ◌+◌, ◌≤◌, ◌<◌};
ghost use Rattle.claim_table.specs.Views.{blocks_of};
ghost use Rattle.claim_table.specs.Seats.{view_of, IsIdle};

use crate::store::table_of;
use claim_table::{Claim, ClaimSeat, ClaimTable};
use key_state::QuietBook;
use std::alloc::Global;
use std::rt::Clock;
use std::sync::atomic::{AtomicU64, Ordering};
use std::thread::Threads;
use std::time::Instant;
use std::{io, thread};
use vd_arm::FilePass;
use vd_base::BlockNo;

/// How many blocks a thread goes round.
const SPAN: u32 = 64;

/// How many claims each thread makes.
const ROUNDS: u32 = 2_000_000;

/// Claims a block, and releases it where it was had. Whether it was.
fn claim_once(table: &ClaimTable<FilePass, QuietBook>, seat: &mut ClaimSeat, block: u32) -> bool
    requires of { IsIdle table.now seat.old }
    requires block { block < blocks_of (view_of seat.old).made }
    ensures of { IsIdle table.now seat.new }
    ensures made { (view_of seat.new).made ≡ (view_of seat.old).made }
{
    match table.claim(seat, BlockNo(block)) {
        Claim::Claimed(held) => {
            table.release(seat, held);
            true
        }
        _ => false,
    }
}

/// All claims of one thread, over the 64 blocks from `base` on, the first of them at `start`. How many were had.
fn claim_often(
    table: &ClaimTable<FilePass, QuietBook>,
    seat: &mut ClaimSeat,
    base: u32,
    start: u32,
) -> u64
    requires of { IsIdle table.now seat.old }
    requires base { (base + 64 ≤ 256) × (256 ≤ blocks_of (view_of seat.old).made) }
    requires start { start < 64 }
{
    let mut had = 0u64;
    for i in 0..ROUNDS {
        if claim_once(table, seat, base + (start + i * 7) % SPAN) {
            had = had.wrapping_add(1);
        }
    }
    had
}

/// Runs so many threads and prints their claims, those that were had, and the microseconds. False where there is no such number of
/// threads, no memory or no clock.
pub(crate) fn report<R: Threads + Sync + Clock + Print>(
    rt: &R,
    alloc: Global,
    threads: u32,
    shared: bool,
) -> io::Result<bool> {
    if threads < 1 || threads > 4 {
        return Ok(false);
    }
    let Some((table, mut seats)) = table_of(alloc, 4 * SPAN, threads) else {
        return Ok(false);
    };
    let had = AtomicU64::new(0);
    let begun = Instant::now(rt)?;
    thread::for_each_mut(
        rt,
        &mut seats,
        threads as usize,
        &|i, seat| {
            let place = (i % 4) as u32;
            let base = if shared { 0 } else { place * SPAN };
            had.fetch_add(
                claim_often(&table, seat, base, place * 16),
                Ordering::SeqCst,
            );
        },
    );
    let micros = begun.elapsed(rt)?.as_micros();
    let claims = threads as u64 * ROUNDS as u64;
    let had = had.load(Ordering::SeqCst);
    println!(rt; "claims {claims} had {had} micros {micros}")?;
    Ok(true)
}
