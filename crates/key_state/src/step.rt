// A record's step on the entries of a store.
ghost use Rattle.std.specs.Prelude.{◌≡◌, ◌≤◌, ◌+◌, [], ◌∷◌, if◌then◌else◌, length};
ghost use Rattle.key_state.specs.Books.{Steps, used, used_among};
ghost use Rattle.key_state.specs.Entries.{AreEntries, IsLegalOn, states};

use crate::{Entry, Record, apply};
use vd_base::BlockNo;

/// Takes each block of the record through its step.
pub fn take_step(entries: &mut [Entry], made: &Record)
    requires valid { AreEntries entries.old }
    requires legal { IsLegalOn entries.old made.now }
    ensures steps { Steps made.now entries.old entries.new }
    ensures states { entries.new ≡ states entries.old (made.now ∷ []) }
    ensures valid { AreEntries entries.new }
{
    let first = made.first().0 as usize;
    for i in first..first + made.many() as usize {
        match apply(entries[i], made) {
            Some(after) => entries[i] = after,
            // the record is legal at each of its blocks
            None => {}
        }
    }
}

/// Whether a Clear of its block changes the entry: it isn't settled at 0.
fn is_used(entry: Entry) -> bool
    ensures { (if result then 1 else 0) ≡ used entry }
{
    match entry {
        Entry::Settled(key) => key.get() != 0,
        Entry::Pending { .. } | Entry::Bad => true,
    }
}

/// How many of these blocks have an entry that isn't settled at 0.
pub fn count_used(entries: &[Entry], first: BlockNo, many: u32) -> u32
    requires { first.0 + many ≤ length entries.now }
    ensures { result ≡ used_among entries.now first.0 many }
{
    let mut count = 0;
    for i in 0..many {
        if is_used(entries[first.0 as usize + i as usize]) {
            count += 1;
        }
    }
    count
}
