//! Claims and releases of blocks by several threads, and a table of many blocks: the side of `bench/claims.py` that stands on
//! `claim_table`.
//!
//!     bench_claims disjoint THREADS     each thread claims and releases 64 blocks of its own
//!     bench_claims shared THREADS       all threads claim and release the same 64 blocks
//!     bench_claims passes BLOCKS        the passes and the book of so many blocks are held
//!     bench_claims table BLOCKS         a table over such passes and such a book is held
//!
//! The first two print how many claims were made, how many were had, and how many microseconds all took. The others print `ready` and
//! hold what they made until a line is read.
#![tactic(auto)]

mod rounds;
mod store;

use std::process::ExitCode;
use std::{env, io};
use store::{material_of, table_of};

const USAGE: &str =
    "usage: bench_claims disjoint or shared, threads from 1 to 4, or bench_claims passes or table, blocks";

/// What the words ask for.
#[derive(Clone, Copy, Drop)]
enum Wanted {
    Disjoint(u32),
    Shared(u32),
    Passes(u32),
    Table(u32),
}

fn wanted_of(mode: &str, number: &str) -> Option<Wanted> {
    let number = number.parse::<u32>().ok()?;
    match mode {
        "disjoint" => Some(Wanted::Disjoint(number)),
        "shared" => Some(Wanted::Shared(number)),
        "passes" => Some(Wanted::Passes(number)),
        "table" => Some(Wanted::Table(number)),
        _ => None,
    }
}

fn words(rt: &HostRuntime) -> Option<Wanted> {
    let mut args = env::args(rt).ok()?.skip(1);
    let mode = args.next()?;
    let number = args.next()?;
    wanted_of(&mode, &number)
}

/// Says that all is there, and waits until it was looked at.
fn wait_for_line<R: Input + Print + Alloc>(rt: &R) -> io::Result<bool> {
    println!(rt; "ready")?;
    let mut line = String::new(rt.alloc());
    rt.read_line(&mut line)?;
    Ok(true)
}

fn main(rt: HostRuntime) -> io::Result<ExitCode> {
    let alloc = rt.alloc();
    let done = match words(&rt) {
        Some(Wanted::Disjoint(threads)) => rounds::report(&rt, alloc, threads, false)?,
        Some(Wanted::Shared(threads)) => rounds::report(&rt, alloc, threads, true)?,
        Some(Wanted::Passes(blocks)) => match material_of(alloc, blocks) {
            Some(_held) => wait_for_line(&rt)?,
            None => false,
        },
        Some(Wanted::Table(blocks)) => match table_of(alloc, blocks, 1) {
            Some(_held) => wait_for_line(&rt)?,
            None => false,
        },
        None => false,
    };
    if !done {
        println!(rt; "{USAGE}")?;
        return Ok(ExitCode::from(2));
    }
    Ok(ExitCode::SUCCESS)
}
