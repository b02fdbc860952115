// The records of a journal.
ghost use Rattle.std.specs.Prelude.{◌≡◌, MatchOption};
ghost use Rattle.key_state.specs.declared.entry.Entry.{Entry as AnEntry};
ghost use Rattle.key_state.specs.Entries.{IsEntry, IsLegalAt, Takes, first_of, many_of};

use crate::Entry;
use vd_base::{BlockNo, Key, next_key};

/// One change of one block's entry, or of each entry of a run of blocks: those from `first` on, `many` of them.
#[derive(Clone, Copy, Debug, PartialEq, Eq, Drop)]
pub enum Record {
    /// A write of the next key begins.
    Begin { block: BlockNo, old: Key, new: Key },
    /// The write of this key is done.
    End { block: BlockNo, key: Key },
    /// The block is corrupt.
    Bad { block: BlockNo },
    /// A write of each block's next key begins.
    BeginRun { first: BlockNo, many: u32 },
    /// The write of each block's new key is done.
    EndRun { first: BlockNo, many: u32 },
    /// The blocks are as if they were never written.
    Clear { first: BlockNo, many: u32 },
}

impl Record {
    /// The first of the record's blocks.
    pub fn first(&self) -> BlockNo
        ensures { result.0 ≡ first_of self.now }
    {
        match self {
            Record::Begin { block, .. } | Record::End { block, .. } | Record::Bad { block } => {
                *block
            }
            Record::BeginRun { first, .. }
            | Record::EndRun { first, .. }
            | Record::Clear { first, .. } => *first,
        }
    }

    /// How many blocks the record has, from the first on.
    pub fn many(&self) -> u32
        ensures { result ≡ many_of self.now }
    {
        match self {
            Record::Begin { .. } | Record::End { .. } | Record::Bad { .. } => 1,
            Record::BeginRun { many, .. }
            | Record::EndRun { many, .. }
            | Record::Clear { many, .. } => *many,
        }
    }
}

/// The entry after a record that is legal at this one, and None exactly where it isn't legal. The record's blocks aren't
/// looked at.
pub fn apply(entry: Entry, made: &Record) -> Option<Entry>
    requires { IsEntry entry }
    ensures { MatchOption result (IsLegalAt entry made.now → ⊥) (Takes made.now entry) }
{
    match made {
        Record::Begin { old, new, .. } => match entry {
            Entry::Settled(key) if key.get() == old.get() && new.get() == next_key(*old).get() => {
                Some(Entry::Pending {
                    old: *old,
                    new: *new,
                })
            }
            _ => None,
        },
        Record::End { key, .. } => match entry {
            Entry::Pending { new, .. } if key.get() == new.get() => Some(Entry::Settled(*key)),
            _ => None,
        },
        Record::Bad { .. } => match entry {
            Entry::Bad => None,
            _ => Some(Entry::Bad),
        },
        Record::BeginRun { .. } => match entry {
            Entry::Settled(key) => Some(Entry::Pending {
                old: key,
                new: next_key(key),
            }),
            Entry::Pending { .. } => Some(entry),
            Entry::Bad => None,
        },
        Record::EndRun { .. } => match entry {
            Entry::Pending { new, .. } => Some(Entry::Settled(new)),
            _ => None,
        },
        Record::Clear { .. } => match entry {
            Entry::Bad => None,
            _ => Some(Entry::Settled(Key::never())),
        },
    }
}
