// What is known of a block.
ghost use Rattle.std.specs.Prelude.{◌≡◌, ◌↔◌, IsTrue};
ghost use Rattle.key_state.specs.Entries.{Permits};

use vd_base::Key;

/// What is known of the key that a block's sectors carry.
#[derive(Clone, Copy, Debug, PartialEq, Eq, Drop)]
pub enum Entry {
    /// They carry this key. Key 0: the block was never written.
    Settled(Key),
    /// A write was begun and not ended: each sector carries one of these. The new key is the one next to the old.
    Pending { old: Key, new: Key },
    /// The block is corrupt and isn't used again.
    Bad,
}

/// Whether bytes with this key fit the entry.
pub fn permits(entry: Entry, key: Key) -> bool
    ensures { IsTrue result ↔ Permits entry key }
{
    match entry {
        Entry::Settled(settled) => key.get() == settled.get(),
        Entry::Pending { old, new } => key.get() == old.get() || key.get() == new.get(),
        Entry::Bad => false,
    }
}
