// An entry as a number, and its place in a word: a word has four lanes of 16 bits.
ghost use Rattle.std.specs.Prelude.{◌≡◌, ◌≤◌, ◌<◌, ◌^◌, ◌%◌};
ghost use Rattle.claim_table.specs.Codes.{code_of, IsCoded, HasKeys};
ghost use Rattle.claim_table.specs.Lanes.{lane, word_of, shifted};

use key_state::Entry;
use vd_base::{Key, next_key};

pub(crate) const BAD: u64 = 256;

/// The bit of a lane that says that the block is held.
pub(crate) const BUSY: u64 = 0x8000;

/// 0 to 126 for a settled entry, 128 more for a pending one by its old key, or 256.
pub(crate) fn encode(entry: Entry) -> u64
    ensures code { result ≡ code_of entry }
    ensures keys { HasKeys entry }
{
    match entry {
        Entry::Settled(key) => key.get() as u64,
        Entry::Pending { old, new: _ } => 128 + old.get() as u64,
        Entry::Bad => BAD,
    }
}

fn key_of(number: u64) -> Key
    requires { number ≤ 126 }
    ensures { result ≡ number }
{
    match Key::of(number as u8) {
        Some(key) => key,
        None => unreachable!(),
    }
}

pub(crate) fn decode(code: u64) -> Entry
    requires { (entry : _) × IsCoded entry × (code ≡ code_of entry) }
    ensures { (entry : _) → IsCoded entry → code ≡ code_of entry → result ≡ entry }
{
    if code >= BAD {
        return Entry::Bad;
    }
    if code < 128 {
        return Entry::Settled(key_of(code));
    }
    let old = key_of(code - 128);
    Entry::Pending {
        old,
        new: next_key(old),
    }
}

/// The word of a block.
pub(crate) fn word_index(block: u32) -> usize
    ensures { result ≡ word_of block }
{
    block as usize / 4 + 1
}

/// A number in the lane of a block.
pub(crate) fn in_lane(block: u32, code: u64) -> u64
    requires { code < 2 ^ 16 }
    ensures { result ≡ shifted block code }
{
    code << (16 * (block % 4))
}

/// What stands in the lane of a block.
pub(crate) fn of_lane(block: u32, word: u64) -> u64
    ensures { result ≡ lane word (block % 4) }
{
    word >> (16 * (block % 4)) & 0xffff
}
