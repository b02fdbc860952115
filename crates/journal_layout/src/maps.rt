// The bytes of map sectors.
ghost use Rattle.std.specs.Prelude.{◌≡◌, ◌<◌, ◌*◌, MatchOption};
ghost use Rattle.key_state.specs.declared.entry.Entry.{Entry as AnEntry};
ghost use Rattle.key_state.specs.Entries.{IsEntry};
ghost use Rattle.journal_layout.specs.Bytes.{Puts};
ghost use Rattle.journal_layout.specs.Map.{IsEntryOf, entry_bytes};

use crate::bytes::put_bytes;
use key_state::Entry;
use vd_base::{Key, Sector, next_key};

/// The entry at a place of a map sector, and None exactly where none is spelled.
pub fn entry_of(sector: &Sector, index: usize) -> Option<Entry>
    requires { index < 256 }
    ensures { MatchOption result ((entry : AnEntry) → IsEntryOf sector.now index entry → ⊥) (IsEntryOf sector.now index) }
{
    let first = sector[2 * index];
    let second = sector[2 * index + 1];
    if first == 0 && second == 255 {
        return Some(Entry::Bad);
    }
    let key = Key::of(first)?;
    if second == 0 {
        return Some(Entry::Settled(key));
    }
    let new = Key::of(second)?;
    if new.get() == next_key(key).get() {
        Some(Entry::Pending { old: key, new })
    } else {
        None
    }
}

/// The two bytes of an entry.
fn bytes_of(entry: Entry) -> [u8; 2]
    ensures { result ≡ entry_bytes entry }
{
    match entry {
        Entry::Settled(key) => [key.get(), 0],
        Entry::Pending { old, new } => [old.get(), new.get()],
        Entry::Bad => [0, 255],
    }
}

/// Puts an entry at a place of a map sector, and leaves the other bytes.
pub fn put_entry(sector: &mut Sector, index: usize, entry: Entry)
    requires place { index < 256 }
    requires valid { IsEntry entry }
    ensures bytes { Puts (2 * index) (entry_bytes entry) sector.old sector.new }
    ensures read_back { IsEntryOf sector.new index entry }
{
    put_bytes(sector, 2 * index, &bytes_of(entry));
}
