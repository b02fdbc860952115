// Records on the entries of a window of blocks.
ghost use Rattle.std.specs.Prelude.{◌≡◌, ◌≤◌, ◌<◌, ◌+◌, ◌-◌, ℕ, IsTrue, false, length, take, map, sum_by};
ghost use Rattle.std.specs.List.{range_with_len};
ghost use Rattle.key_state.specs.Entries.{AreEntries, IsEntry, entry_at};
ghost use Rattle.journal_list.specs.Audits.{AreLegalIn, AreValidIn, IsRefused, IsRefusedIn, IsStepIn, Shows, bad_in, made_of, pending_in};

use crate::counts::made_at;
use key_state::{Entry, Record, apply};

/// How many blocks a window has at most.
pub const WINDOW: usize = 65536;

/// How many of a window's blocks are pending, and how many bad.
#[derive(Drop)]
pub struct Counts {
    pub pending: u64,
    pub bad: u64,
}

/// Copies the entries of the blocks from low up to high.
fn copy_window(base: &[Entry], low: usize, high: usize, window: &mut [Entry])
    requires order { low ≤ high }
    requires inside { high ≤ length base.now }
    requires room { high ≤ low + length window.old }
    ensures copies { (block : ℕ) → low ≤ block → block < high → entry_at window.new (block - low) ≡ entry_at base.now block }
    ensures long { length window.new ≡ length window.old }
{
    for block in low..high {
        window[block - low] = base[block];
    }
}

/// Makes a record on those of its blocks that stand in the window, and answers whether it is legal there.
fn make_within(made: &Record, low: usize, high: usize, window: &mut [Entry]) -> bool
    requires order { low ≤ high }
    requires few { high ≤ 16777216 }
    requires room { high ≤ low + length window.old }
    requires valid { AreValidIn low high window.old }
    ensures yes { IsTrue result → IsStepIn made.now low high window.old window.new }
    ensures no { result ≡ false → IsRefusedIn made.now low high window.old }
    ensures long { length window.new ≡ length window.old }
{
    let first = made.first().0 as usize;
    let end = high.min(first + made.many() as usize);
    for block in low.max(first)..end {
        match apply(window[block - low], made) {
            Some(after) => window[block - low] = after,
            None => return false,
        }
    }
    true
}

/// Makes so many records on the blocks from low up to high, until one isn't legal there, and answers how many were made.
pub fn make_window(
    base: &[Entry],
    low: usize,
    high: usize,
    records: &[(u64, u32, Record)],
    legal: usize,
    window: &mut [Entry],
) -> usize
    requires order { low ≤ high }
    requires inside { high ≤ length base.now }
    requires few { length base.now ≤ 16777216 }
    requires room { high ≤ low + length window.old }
    requires valid { AreEntries base.now }
    requires legal { legal ≤ length records.now }
    ensures most { result ≤ legal }
    ensures legal { AreLegalIn base.now (made_of records.now) low high result }
    ensures refused { result < legal → IsRefused base.now (made_of records.now) result }
    ensures shows { result ≡ legal → Shows base.now (take legal (made_of records.now)) low high window.new }
    ensures long { length window.new ≡ length window.old }
{
    copy_window(base, low, high, window);
    for i in 0..legal {
        let made = made_at(records, i);
        if !make_within(&made, low, high, window) {
            return i;
        }
    }
    legal
}

/// 1 for a pending entry.
fn count_pending(entry: Entry) -> u64
    ensures value { result ≡ pending_in entry }
    ensures few { result ≤ 1 }
{
    match entry {
        Entry::Settled(_) => 0,
        Entry::Pending { .. } => 1,
        Entry::Bad => 0,
    }
}

/// 1 for a bad entry.
fn count_bad(entry: Entry) -> u64
    ensures value { result ≡ bad_in entry }
    ensures few { result ≤ 1 }
{
    match entry {
        Entry::Settled(_) => 0,
        Entry::Pending { .. } => 0,
        Entry::Bad => 1,
    }
}

/// How many of so many blocks are pending, and how many bad.
pub fn count_window(window: &[Entry], many: usize) -> Counts
    requires inside { many ≤ length window.now }
    requires few { many ≤ 16777216 }
    ensures pending { result.pending ≡ sum_by pending_in (map (entry_at window.now) (range_with_len 0 many)) }
    ensures bad { result.bad ≡ sum_by bad_in (map (entry_at window.now) (range_with_len 0 many)) }
    ensures few_pending { result.pending ≤ many }
    ensures few_bad { result.bad ≤ many }
{
    let mut pending = 0;
    let mut bad = 0;
    for j in 0..many {
        pending += count_pending(window[j]);
        bad += count_bad(window[j]);
    }
    Counts { pending, bad }
}
