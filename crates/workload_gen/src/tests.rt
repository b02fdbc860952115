// Draws of three workers. The first words are those that the generator's authors print for state 42 and stream 54; `examples/draws.py`
// computes the turns.
ghost use Rattle.std.specs.Prelude.{◌≡◌, ◌+◌, ◌<◌, ◌^◌, length};

use crate::words::{generator_of, next_words};
use crate::{Draw, Turn, runs_can_draw};
use plan_types::{Format, RunPlan, Share, WorkerPlan};
use std::process::Abort;
use vd_base::{BlockNo, Geometry};
use vd_list::Items;
use vd_outside::Text;

#[test]
fn words_of_a_turn(rt: HostRuntime) {
    let mut generator = generator_of(42, 54);
    let words = next_words(&mut generator);
    assert_eq!(rt; words.share, 0xa15c_02b7);
    assert_eq!(rt; words.read, 0x7b47_f409);
    assert_eq!(rt; words.random, 0xba1d_3330);
    assert_eq!(rt; words.block, 0x83d2_f293);
}

fn turn(block: u32, many: u32, read: bool, due: u64, share: u32) -> Turn {
    Turn {
        block: BlockNo(block),
        many,
        read,
        due,
        share,
    }
}

/// Draws as many turns, and asserts each of them.
fn assert_turns(rt: &impl Abort, draw: &mut Draw, expected: &[Turn])
    requires { draw.old.turns + length expected.now < 2 ^ 32 }
{
    for turn in expected {
        assert_eq!(rt; draw.next(), *turn);
    }
}

fn share(name: Text, store: u32, xfersize: u32, rdpct: u32, seekpct: u32, weight: u32) -> Share
    ensures store { result.store ≡ store }
    ensures xfersize { result.xfersize ≡ xfersize }
    ensures weight { result.weight ≡ weight }
{
    Share {
        workload: name,
        store,
        xfersize,
        rdpct,
        seekpct,
        weight,
    }
}

fn run(
    number: u32,
    name: Text,
    iorate: u32,
    shares: Vec<Share>,
    workers: Vec<WorkerPlan>,
) -> RunPlan
    ensures shares { result.shares ≡ shares.items }
    ensures workers { result.workers ≡ workers.items }
{
    RunPlan {
        number,
        line: 1,
        name,
        iorate,
        elapsed: 30,
        interval: 1,
        turns: 16,
        format: Format::No,
        slaves: 1,
        shares: Items::of(shares),
        workers: Items::of(workers),
    }
}

fn worker(number: u32, store: u32, start: u32) -> WorkerPlan
    ensures store { result.store ≡ store }
    ensures start { result.start ≡ start }
{
    WorkerPlan {
        number,
        slave: 1,
        store,
        start,
    }
}

#[test]
fn at_random(rt: HostRuntime) {
    let alloc = rt.alloc();
    let name = Text::from_str(alloc, "wd1").expect(&rt, "memory");
    let mut shares = Vec::new(alloc);
    shares
        .push(share(name, 0, 4096, 50, 100, 100))
        .expect(&rt, "memory");
    let name = Text::from_str(alloc, "rd1").expect(&rt, "memory");
    let run = run(42, name, 0, shares, Vec::new(alloc));
    let geometry = Geometry::new(16, 4096).expect(&rt, "a geometry");
    let mut draw = Draw::new(alloc, &run, &worker(54, 0, 0), &geometry).expect(&rt, "memory");
    let expected = [
        turn(3, 1, false, 0, 0),
        turn(13, 1, false, 0, 0),
        turn(9, 1, true, 0, 0),
        turn(11, 1, false, 0, 0),
        turn(6, 1, true, 0, 0),
        turn(9, 1, false, 0, 0),
        turn(4, 1, false, 0, 0),
        turn(15, 1, true, 0, 0),
    ];
    assert_turns(&rt, &mut draw, &expected);
}

#[test]
fn in_order(rt: HostRuntime) {
    let alloc = rt.alloc();
    let name = Text::from_str(alloc, "wd1").expect(&rt, "memory");
    let mut shares = Vec::new(alloc);
    shares
        .push(share(name, 0, 16_384, 0, 0, 100))
        .expect(&rt, "memory");
    let name = Text::from_str(alloc, "rd1").expect(&rt, "memory");
    let run = run(2, name, 0, shares, Vec::new(alloc));
    let geometry = Geometry::new(16, 4096).expect(&rt, "a geometry");
    let mut draw = Draw::new(alloc, &run, &worker(0, 0, 0), &geometry).expect(&rt, "memory");
    let expected = [
        turn(0, 4, false, 0, 0),
        turn(4, 4, false, 0, 0),
        turn(8, 4, false, 0, 0),
        turn(12, 4, false, 0, 0),
        turn(0, 4, false, 0, 0),
        turn(4, 4, false, 0, 0),
    ];
    assert_turns(&rt, &mut draw, &expected);
}

#[test]
fn three_shares(rt: HostRuntime) {
    let alloc = rt.alloc();
    let name = Text::from_str(alloc, "wd1").expect(&rt, "memory");
    let mut shares = Vec::new(alloc);
    shares
        .push(share(name, 1, 4096, 30, 40, 45))
        .expect(&rt, "memory");
    let name = Text::from_str(alloc, "wd2").expect(&rt, "memory");
    shares
        .push(share(name, 0, 4096, 50, 50, 100))
        .expect(&rt, "memory");
    let name = Text::from_str(alloc, "wd3").expect(&rt, "memory");
    shares
        .push(share(name, 1, 7168, 80, 10, 35))
        .expect(&rt, "memory");
    let name = Text::from_str(alloc, "wd4").expect(&rt, "memory");
    shares
        .push(share(name, 1, 3072, 100, 100, 20))
        .expect(&rt, "memory");
    let workers = [
        worker(0, 0, 0),
        worker(1, 0, 25),
        worker(2, 1, 45),
        worker(3, 1, 10),
        worker(4, 1, 20),
    ];
    let workers = Vec::from_slice(alloc, &workers).expect(&rt, "memory");
    let name = Text::from_str(alloc, "rd1").expect(&rt, "memory");
    let run = run(7, name, 300, shares, workers);
    let geometry = Geometry::new(50, 1024).expect(&rt, "a geometry");
    let mut draw = Draw::new(alloc, &run, &worker(2, 1, 45), &geometry).expect(&rt, "memory");
    let expected = [
        turn(45, 4, false, 6666, 0),
        turn(0, 4, true, 23333, 0),
        turn(42, 3, true, 40000, 3),
        turn(4, 4, true, 56666, 0),
        turn(0, 7, true, 73333, 2),
        turn(44, 4, false, 90000, 0),
        turn(8, 4, false, 106_666, 0),
        turn(12, 4, false, 123_333, 0),
        turn(16, 7, true, 140_000, 2),
        turn(23, 7, false, 156_666, 2),
        turn(30, 4, false, 173_333, 0),
        turn(36, 4, false, 190_000, 0),
    ];
    assert_turns(&rt, &mut draw, &expected);
}

#[test]
fn laws_are_called() {
    runs_can_draw();
}
