// A schedule that is drawn from a number.
ghost use Rattle.std.specs.Prelude.{◌≡◌, ◌<◌, ◌≤◌, ◌+◌, ◌-◌, ◌^◌, ◌%◌, ◌↔◌, length, if◌then◌else◌, IsTrue, IfOk, OnOk, Some, None};
ghost use Rattle.interleave_core.specs.declared.event.Event.TheVariants as events;
ghost use Rattle.interleave_core.specs.Schedule.{IsStop, Simulates, Stops, Tries, Turn, asked, draw, is_free, keep_of, seeded, wrong_at, wrong_in, wrong_of};
ghost use Rattle.interleave_core.specs.Summary.{Grew, HasRoom};

use crate::entries::fits;
use crate::machine::Machine;
use crate::{Event, Hold, Summary};
use rand_core::utils::NextWord;
use rand_pcg::Lcg64Xsh32;
use std::alloc::Global;
use vd_base::BlockNo;
use vd_outside::NoMemory;

/// The three words of one step.
#[derive(Clone, Copy, Debug)]
struct Words {
    x: u32,
    y: u32,
    z: u32,
}

/// The generator of a schedule.
fn seeded(n: u32) -> Lcg64Xsh32
    ensures { result ≡ seeded n }
{
    Lcg64Xsh32::new(u64::from(n), 0)
}

/// The next three words.
fn next_words(generator: &mut Lcg64Xsh32) -> Words
    ensures x { result.x ≡ (draw generator.old).x }
    ensures y { result.y ≡ (draw generator.old).y }
    ensures z { result.z ≡ (draw generator.old).z }
    ensures rest { generator.new ≡ (draw generator.old).rest }
{
    let x = generator.next_word();
    let y = generator.next_word();
    let z = generator.next_word();
    Words { x, y, z }
}

/// A claim of the block of this word, where the worker holds nothing.
fn asked_claim(worker: u32, hold: Hold, word: u32) -> Option<Event>
    ensures { result ≡ (if is_free hold.stage then Some (events.Claim worker (record { 0 = word % 64 })) else None) }
{
    if !hold.stage.is_free() {
        return None;
    }
    Some(Event::Claim {
        worker,
        block: BlockNo(word % 64),
    })
}

/// A write of the sector of this word, where the worker holds a block.
fn asked_write(worker: u32, hold: Hold, word: u32) -> Option<Event>
    ensures { result ≡ (if is_free hold.stage then None else Some (events.Write worker hold.first (word % 8))) }
{
    if hold.stage.is_free() {
        return None;
    }
    Some(Event::Write {
        worker,
        block: hold.first,
        sector: word % 8,
    })
}

/// The event that three words ask for, where it isn't a stop.
fn asked(world: &Machine, words: &Words) -> Option<Event>
    ensures { result ≡ asked world.now words.now.x words.now.y words.now.z }
{
    let worker = words.y % 4;
    let hold = world.hold_or_none(worker);
    match words.x % 16 {
        0 | 1 => asked_claim(worker, hold, words.z),
        2 | 3 => Some(Event::Begin { worker }),
        4 => Some(Event::Sync),
        5..=9 => asked_write(worker, hold, words.z),
        10 => Some(Event::Ack { worker }),
        11 => Some(Event::End { worker }),
        12 | 13 => Some(Event::Release { worker }),
        14 => {
            if words.z % 64 == 0 {
                return Some(Event::Fault { worker });
            }
            Some(Event::Ack { worker })
        }
        _ => {
            if words.z % 256 == 0 {
                return Some(Event::Turnover);
            }
            Some(Event::End { worker })
        }
    }
}

/// Whether the words ask for a stop.
fn is_stop(words: &Words) -> bool
    ensures { IsTrue result ↔ IsStop words.now.x words.now.z }
{
    words.x % 16 == 15 && words.z % 256 == 1
}

/// How many records a stop with this word keeps.
fn keep_of(world: &Machine, word: u32) -> u64
    ensures { result ≡ keep_of world.now word }
{
    let synced = world.synced();
    let unsynced = world.records() - synced;
    synced + u64::from(word / 256) % (unsynced + 1)
}

/// 1 where a sector doesn't fit the entry of its block.
fn wrong_at(world: &Machine, block: BlockNo, sector: u32) -> u64
    requires block { block.0 < length world.now.base }
    requires sector { sector < world.now.sectors }
    ensures value { result ≡ wrong_at world.now block.0 sector }
    ensures few { result ≤ 1 }
{
    if fits(world.entry(block), world.key(block, sector)) {
        0
    } else {
        1
    }
}

/// How many of a block's sectors don't fit its entry.
#[tactic(auto, using(crate::proofs::Wrong::sum_more))]
fn wrong_in(world: &Machine, block: BlockNo) -> u64
    requires { block.0 < length world.now.base }
    ensures value { result ≡ wrong_in world.now block.0 }
    ensures few { result ≤ world.now.sectors }
{
    let mut wrong = 0;
    for sector in 0..world.sectors() {
        wrong += wrong_at(world, block, sector);
    }
    wrong
}

/// How many sectors don't fit the entries of their blocks.
#[tactic(auto, using(crate::proofs::Wrong::sum_more))]
fn wrong_of(world: &Machine) -> u64
    ensures value { result ≡ wrong_of world.now }
    ensures few { result < 2 ^ 32 }
{
    let mut wrong = 0;
    for block in 0..world.blocks() {
        wrong += wrong_in(world, BlockNo(block));
    }
    wrong
}

/// Takes a step that asks for an event or for none.
fn tries(world: &mut Machine, event: Option<Event>, counts: &mut Summary) -> Result<(), NoMemory>
    requires { HasRoom counts.old }
    ensures ok { OnOk result (Tries world.old event world.new counts.old counts.new) }
    ensures grew { Grew counts.old counts.new }
{
    let Some(event) = event else {
        counts.idle += 1;
        return Ok(());
    };
    if !world.step(&event)? {
        counts.idle += 1;
        return Ok(());
    }
    counts.taken += 1;
    if let Event::End { .. } = event {
        counts.ends += 1;
    }
    Ok(())
}

/// Stops, counts the sectors that don't fit, and recovers.
fn stops(world: &mut Machine, keep: u64, counts: &mut Summary)
    requires { HasRoom counts.old }
    ensures stops { Stops world.old keep world.new counts.old counts.new }
    ensures grew { Grew counts.old counts.new }
{
    if !world.stop(keep) {
        counts.idle += 1;
        return;
    }
    counts.taken += 1;
    counts.stops += 1;
    counts.wrong += wrong_of(world);
    world.recover();
}

/// One step of a schedule.
fn turn(world: &mut Machine, words: &Words, counts: &mut Summary) -> Result<(), NoMemory>
    requires { HasRoom counts.old }
    ensures ok { OnOk result (Turn world.old words.now.x words.now.y words.now.z world.new counts.old counts.new) }
    ensures grew { Grew counts.old counts.new }
{
    if is_stop(words) {
        let keep = keep_of(world, words.z);
        stops(world, keep, counts);
        return Ok(());
    }
    let event = asked(world, words);
    tries(world, event, counts)
}

/// Makes a schedule of n steps from the number n, over 64 blocks of 8 sectors and 4 workers, runs it and counts. Memory for the
/// records of one epoch is taken on the way.
pub fn simulate(alloc: Global, n: u32) -> Result<Summary, NoMemory>
    ensures counts { IfOk result (λ counts. Simulates n counts) }
    ensures wrong { IfOk result (λ counts. counts.wrong ≡ 0) }
    ensures steps { IfOk result (λ counts. counts.taken + counts.idle ≡ n) }
{
    let mut world = Machine::new(alloc, 64, 8, 4)?;
    let mut generator = seeded(n);
    let mut counts = Summary {
        taken: 0,
        idle: 0,
        ends: 0,
        stops: 0,
        wrong: 0,
    };
    for _i in 0..n {
        let words = next_words(&mut generator);
        turn(&mut world, &words, &mut counts)?;
    }
    Ok(counts)
}
