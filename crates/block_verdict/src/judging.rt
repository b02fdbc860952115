// A block's bytes beside its entry.
ghost use Rattle.std.specs.Prelude.{◌≡◌, ◌≢◌, ◌↔◌, ℕ, ◌+◌, ◌*◌, ◌/◌, ◌%◌, ◌<◌, ◌≤◌, [], length, MatchOption, IfOk, IfErr, slice_index_or};
ghost use Rattle.vd_base.specs.Geometry.{IsGeometry, sectors_of, address_of};
ghost use Rattle.key_state.specs.Entries.{IsEntry};
ghost use Rattle.sector_stamp.specs.Image.{Matches, IsFirstDifference};
ghost use Rattle.sector_stamp.specs.Block.{sector_of};
ghost use Rattle.block_verdict.specs.Fits.{BytesFit};
ghost use Rattle.block_verdict.specs.Held.{IsHeld};
ghost use Rattle.block_verdict.specs.Verdicts.{IsVerdict, IsFirstCorrupt, IsCorrupt, settled_by, HasOneVerdict, SoundWhereFit, FitAfterSettling, FitsWherePermitted, StampedFits};

use crate::Verdict;
use crate::held::{Held, both};
use key_state::Entry;
use sector_stamp::{Part, first_difference};
use vd_base::{BlockNo, Key, Sector, StoreId, StoreName};

/// The first difference of a sector from the image of a key that isn't 0; a sector has none from key 0.
#[inline(always)]
fn difference(name: &StoreName, address: u64, key: Key, sector: &Sector) -> Option<Part>
    ensures { MatchOption result (Matches name.now address key sector.now) (λ part. (key ≢ 0) × IsFirstDifference part name.now address key sector.now) }
{
    if key.get() == 0 {
        return None;
    }
    first_difference(name, address, key, sector)
}

/// Which of two keys a sector matches, or its first difference from the image of the new one where it matches neither.
#[inline(always)]
fn holds(name: &StoreName, address: u64, old: Key, new: Key, sector: &Sector) -> Result<Held, Part>
    ensures held { IfOk result (λ held. IsHeld name.now address old new sector.now held) }
    ensures neither { IfErr result (λ part. (Matches name.now address old sector.now → ⊥) × (Matches name.now address new sector.now → ⊥) × IsFirstDifference part name.now address new sector.now) }
{
    let is_old = difference(name, address, old, sector).is_none();
    match difference(name, address, new, sector) {
        None => Ok(Held {
            old: is_old,
            new: true,
        }),
        Some(part) => {
            if is_old {
                Ok(Held {
                    old: true,
                    new: false,
                })
            } else {
                Err(part)
            }
        }
    }
}

/// The sectors of a block's bytes.
#[inline(always)]
fn sectors_in(bytes: &[u8]) -> &[Sector]
    ensures count { length result.now ≡ length bytes.now / 512 }
    ensures each { (i : ℕ) → i < length bytes.now / 512 → slice_index_or result.now i [] ≡ sector_of bytes.now i }
{
    bytes.as_chunks::<512>().0
}

/// What a block that is settled at a key is.
#[inline(always)]
fn settled(store: &StoreId, block: BlockNo, key: Key, bytes: &[u8]) -> Verdict
    requires block { block.0 < store.now.geometry.blocks }
    requires size { length bytes.now ≡ store.now.geometry.block_size }
    ensures { IsVerdict store.now block.0 (Entry.Settled key) bytes.now result }
{
    let sectors = sectors_in(bytes);
    for i in 0..store.geometry.sectors() {
        let address = store.geometry.address(block, i);
        if let Some(part) = difference(&store.name, address, key, &sectors[i as usize]) {
            return Verdict::Corrupt { sector: i, part };
        }
    }
    Verdict::Clean
}

/// What a block is whose write is pending.
fn pending(store: &StoreId, block: BlockNo, old: Key, new: Key, bytes: &[u8]) -> Verdict
    requires block { block.0 < store.now.geometry.blocks }
    requires size { length bytes.now ≡ store.now.geometry.block_size }
    ensures { IsVerdict store.now block.0 (Entry.Pending old new) bytes.now result }
{
    let sectors = sectors_in(bytes);
    let mut held = Held {
        old: true,
        new: true,
    };
    for i in 0..store.geometry.sectors() {
        let address = store.geometry.address(block, i);
        let here = match holds(&store.name, address, old, new, &sectors[i as usize]) {
            Ok(here) => here,
            Err(part) => return Verdict::Corrupt { sector: i, part },
        };
        held = both(held, here);
    }
    if held.new {
        Verdict::New
    } else if held.old {
        Verdict::Old
    } else {
        Verdict::Mixed
    }
}

#[inline(always)]
fn judged(store: &StoreId, block: BlockNo, entry: Entry, bytes: &[u8]) -> Verdict
    requires block { block.0 < store.now.geometry.blocks }
    requires live { entry ≢ Entry.Bad }
    requires size { length bytes.now ≡ store.now.geometry.block_size }
    ensures { IsVerdict store.now block.0 entry bytes.now result }
{
    match entry {
        Entry::Settled(key) => settled(store, block, key, bytes),
        Entry::Pending { old, new } => pending(store, block, old, new, bytes),
        Entry::Bad => unreachable!(),
    }
}

/// What a block's bytes, which are those of the whole block, are beside its entry.
pub fn verdict(store: &StoreId, block: BlockNo, entry: Entry, bytes: &[u8]) -> Verdict
    requires block { block.0 < store.now.geometry.blocks }
    requires valid { IsEntry entry }
    requires live { entry ≢ Entry.Bad }
    requires size { length bytes.now ≡ store.now.geometry.block_size }
    ensures exact { IsVerdict store.now block.0 entry bytes.now result }
    ensures sound { (IsCorrupt result → ⊥) ↔ BytesFit store.now block.0 entry bytes.now }
    ensures settled { BytesFit store.now block.0 (settled_by entry result) bytes.now }
{
    judged(store, block, entry, bytes)
}

/// The entry after a read: a corrupt block is bad from then on, and a pending one whose sectors all have one of its
/// keys is settled at that key.
pub fn settle(entry: Entry, verdict: Verdict) -> Entry
    requires valid { IsEntry entry }
    ensures value { result ≡ settled_by entry verdict }
    ensures valid { IsEntry result }
{
    match verdict {
        Verdict::Corrupt { .. } => Entry::Bad,
        Verdict::Clean | Verdict::Mixed => entry,
        Verdict::Old => match entry {
            Entry::Pending { old, .. } => Entry::Settled(old),
            _ => entry,
        },
        Verdict::New => match entry {
            Entry::Pending { new, .. } => Entry::Settled(new),
            _ => entry,
        },
    }
}

/// Laws of verdicts: bytes have one; it isn't corrupt exactly where they fit the entry; they fit the entry that it
/// leaves; a sector fits where it matches a key that the entry permits; a stamped block fits. It does nothing.
pub fn verdict_laws()
    ensures one { HasOneVerdict }
    ensures sound { SoundWhereFit }
    ensures settled { FitAfterSettling }
    ensures permitted { FitsWherePermitted }
    ensures stamped { StampedFits }
{}
