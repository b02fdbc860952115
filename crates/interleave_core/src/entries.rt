// Questions about one entry, and what a record or a recovery makes of it.
ghost use Rattle.std.specs.Prelude.{◌≡◌, ◌↔◌, ◌≤◌, ◌<◌, ◌+◌, IsTrue, length, slice_index_or};
ghost use Rattle.key_state.specs.declared.entry.Entry.TheVariants as entries;
ghost use Rattle.key_state.specs.Entries.{IsPending, leaves, names_block};
ghost use Rattle.interleave_core.specs.Event.{IsSettled, pending_key, settled_key};
ghost use Rattle.interleave_core.specs.Fits.{AllFit, AllMatch, Fits, Matches, Settles};
ghost use Rattle.interleave_core.specs.Schedule.{fits, matches};

use key_state::{Entry, Record};
use vd_base::{BlockNo, Key, next_key};

/// Whether a block isn't used any more.
pub fn is_bad(entry: Entry) -> bool
    ensures { IsTrue result ↔ (entry ≡ entries.Bad) }
{
    match entry {
        Entry::Bad => true,
        Entry::Settled(_) | Entry::Pending { .. } => false,
    }
}

/// Whether no write of the block is begun.
pub fn is_settled(entry: Entry) -> bool
    ensures { IsTrue result ↔ IsSettled entry }
{
    match entry {
        Entry::Settled(_) => true,
        Entry::Bad | Entry::Pending { .. } => false,
    }
}

/// Whether a write of the block is begun.
pub fn is_pending(entry: Entry) -> bool
    ensures { IsTrue result ↔ IsPending entry }
{
    match entry {
        Entry::Pending { .. } => true,
        Entry::Bad | Entry::Settled(_) => false,
    }
}

/// The key with which a pending block is written.
pub fn pending_key(entry: Entry) -> Key
    ensures { result ≡ pending_key entry }
{
    match entry {
        Entry::Pending { new, .. } => new,
        Entry::Bad | Entry::Settled(_) => Key::never(),
    }
}

/// The key of a settled block, the old one of a pending block.
pub fn settled_key(entry: Entry) -> Key
    ensures { result ≡ settled_key entry }
{
    match entry {
        Entry::Settled(key) => key,
        Entry::Pending { old, .. } => old,
        Entry::Bad => Key::never(),
    }
}

/// The entry that a record leaves where it is legal.
pub fn leaves(made: &Record, entry: Entry) -> Entry
    ensures { result ≡ leaves made.now entry }
{
    match made {
        Record::Begin { old, new, .. } => Entry::Pending {
            old: *old,
            new: *new,
        },
        Record::End { key, .. } => Entry::Settled(*key),
        Record::Bad { .. } => Entry::Bad,
        Record::BeginRun { .. } => match entry {
            Entry::Settled(key) => Entry::Pending {
                old: key,
                new: next_key(key),
            },
            Entry::Pending { .. } | Entry::Bad => entry,
        },
        Record::EndRun { .. } => match entry {
            Entry::Pending { new, .. } => Entry::Settled(new),
            Entry::Settled(_) | Entry::Bad => entry,
        },
        Record::Clear { .. } => Entry::Settled(Key::never()),
    }
}

/// Whether the record is one of the block.
pub fn names(made: &Record, block: BlockNo) -> bool
    ensures { result ≡ names_block block.0 made.now }
{
    let first = made.first().0;
    first <= block.0 && block.0 - first < made.many()
}

/// Whether a sector with this key matches the other one.
pub fn matches(sector: Key, key: Key) -> bool
    ensures relation { IsTrue result ↔ Matches sector key }
    ensures value { result ≡ matches sector key }
{
    key.get() == 0 || sector.get() == key.get()
}

/// Whether a sector with this key fits the entry.
pub fn fits(entry: Entry, sector: Key) -> bool
    ensures relation { IsTrue result ↔ Fits entry sector }
    ensures value { result ≡ fits entry sector }
{
    match entry {
        Entry::Settled(key) => matches(sector, key),
        Entry::Pending { old, new } => matches(sector, old) || matches(sector, new),
        Entry::Bad => true,
    }
}

/// Whether all sectors of a row match a key.
fn all_match(keys: &[Key], from: usize, many: u32, key: Key) -> bool
    requires { from + many ≤ length keys.now }
    ensures { IsTrue result ↔ AllMatch (λ s. slice_index_or keys.now (from + s) 0) many key }
{
    for s in 0..many {
        if !matches(keys[from + s as usize], key) {
            return false;
        }
    }
    true
}

/// Whether all sectors of a row fit an entry.
fn all_fit(keys: &[Key], from: usize, many: u32, entry: &Entry) -> bool
    requires { from + many ≤ length keys.now }
    ensures { IsTrue result ↔ AllFit (λ s. slice_index_or keys.now (from + s) 0) many entry.now }
{
    for s in 0..many {
        if !fits(*entry, keys[from + s as usize]) {
            return false;
        }
    }
    true
}

/// The entry that the sectors of a row confirm: the `many` ones at `from`.
pub fn settle(entry: Entry, keys: &[Key], from: usize, many: u32) -> Entry
    requires { from + many ≤ length keys.now }
    ensures { Settles (λ s. slice_index_or keys.now (from + s) 0) many entry result }
{
    match entry {
        Entry::Bad => Entry::Bad,
        Entry::Settled(key) => {
            if all_match(keys, from, many, key) {
                return entry;
            }
            Entry::Bad
        }
        Entry::Pending { old, new } => {
            if all_match(keys, from, many, new) {
                return Entry::Settled(new);
            }
            if all_match(keys, from, many, old) {
                return Entry::Settled(old);
            }
            if all_fit(keys, from, many, &entry) {
                return entry;
            }
            Entry::Bad
        }
    }
}
