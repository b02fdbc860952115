// The bytes of a run of blocks, which follow one another: stamped, and judged.
ghost use Rattle.std.specs.Prelude.{◌≡◌, ◌≢◌, ◌+◌, ◌*◌, ◌^◌, ◌<◌, ◌≤◌, ℕ, length, slice_get};
ghost use Rattle.key_state.specs.Entries.{IsEntry};
ghost use Rattle.sector_stamp.specs.Block.{IsStamped};
ghost use Rattle.block_verdict.specs.Verdicts.{newest_of};
ghost use Rattle.claim_table.specs.Sums.{Each};
ghost use Rattle.vd_arm.specs.Transfers.{part_of};
ghost use Rattle.block_ops.specs.Runs.{IsLive, IsBegun};
ghost use Rattle.block_ops.specs.Transfers.{AreStamps, AreSound, AreVerdicts};

use block_verdict::{Verdict, verdict};
use key_state::Entry;
use sector_stamp::stamp_block;
use vd_base::{BlockNo, Key, StoreId};

/// The key with which a block whose write was begun is written.
fn new_key(entry: Entry) -> Key
    requires { IsBegun entry }
    ensures value { result ≡ newest_of entry }
    ensures written { result ≢ 0 }
{
    match entry {
        Entry::Pending { new, .. } => new,
        // its write was begun
        _ => unreachable!(),
    }
}

/// Stamps the block at one place of a run.
fn stamp_part(store: &StoreId, block: BlockNo, key: Key, at: usize, buf: &mut [u8])
    requires block { block.0 < store.now.geometry.blocks }
    requires written { key ≢ 0 }
    requires size { at * store.now.geometry.block_size + store.now.geometry.block_size ≤ length buf.old }
    ensures here { IsStamped store.now block.0 key (part_of buf.new store.now.geometry.block_size at) }
    ensures below { (i : ℕ) → i < at → part_of buf.new store.now.geometry.block_size i ≡ part_of buf.old store.now.geometry.block_size i }
    ensures size { length buf.new ≡ length buf.old }
{
    let size = store.geometry.block_size() as usize;
    stamp_block(store, block, key, &mut buf[at * size..at * size + size]);
}

/// Stamps each block with its own pending key.
pub(crate) fn stamp_run(store: &StoreId, first: BlockNo, entries: &[Entry], buf: &mut [u8])
    requires range { first.0 + length entries.now ≤ store.now.geometry.blocks }
    requires numbered { first.0 + length entries.now ≤ 2 ^ 32 }
    requires begun { Each IsBegun entries.now }
    requires size { length buf.old ≡ length entries.now * store.now.geometry.block_size }
    ensures stamps { AreStamps store.now first.0 entries.now (length entries.now) buf.new }
    ensures size { length buf.new ≡ length buf.old }
{
    for i in 0..entries.len() {
        let block = BlockNo(first.0 + i as u32);
        stamp_part(store, block, new_key(entries[i]), i, buf);
    }
}

/// Sets the verdict of each block, and leaves the other verdicts.
pub(crate) fn judge_run(
    store: &StoreId,
    first: BlockNo,
    entries: &[Entry],
    bytes: &[u8],
    verdicts: &mut [Verdict; 64],
)
    requires few { length entries.now ≤ 64 }
    requires range { first.0 + length entries.now ≤ store.now.geometry.blocks }
    requires live { Each IsLive entries.now }
    requires valid { Each IsEntry entries.now }
    requires size { length bytes.now ≡ length entries.now * store.now.geometry.block_size }
    ensures verdicts { AreVerdicts store.now first.0 entries.now bytes.now verdicts.new }
    ensures sound { AreSound store.now first.0 entries.now bytes.now verdicts.new }
    ensures others { (i : ℕ) → length entries.now ≤ i → slice_get verdicts.new i ≡ slice_get verdicts.old i }
{
    let size = store.geometry.block_size() as usize;
    for i in 0..entries.len() {
        let block = BlockNo(first.0 + i as u32);
        verdicts[i] = verdict(store, block, entries[i], &bytes[i * size..i * size + size]);
    }
}
