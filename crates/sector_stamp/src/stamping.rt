// Sectors and blocks that are stamped.
ghost use Rattle.std.specs.Prelude.{◌≡◌, ◌≢◌, ◌*◌, ◌+◌, ◌<◌, ◌≤◌, ◌++◌, ℕ, length, slice_index};
ghost use Rattle.vd_base.specs.Geometry.{sectors_of, address_of};
ghost use Rattle.lfsr_pattern.specs.Pattern.{IsPattern, seed_of};
ghost use Rattle.sector_stamp.specs.Image.{IsImage, HasOneImage, ImagesTellApart, HasOneFirstDifference};
ghost use Rattle.sector_stamp.specs.Block.{sector_of, AreStamped, IsStamped};

use crate::heading::head;
use lfsr_pattern::{fill, fill_lanes, seed};
use vd_base::{BlockNo, Key, Sector, StoreId, StoreName};

fn join(head: &[u8; 32], pattern: &[u8; 480], out: &mut Sector)
    ensures { out.new ≡ head.now ++ pattern.now }
{
    out[..32].copy_from_slice(head);
    out[32..].copy_from_slice(pattern);
}

/// Makes the image of a sector out of its pattern, for the padded name of its store.
fn stamp_made(name: &[u8; 8], address: u64, key: u8, pattern: &[u8; 480], out: &mut Sector)
    requires { IsPattern (seed_of address key) pattern.now }
    ensures { IsImage name.now address key out.new }
{
    join(&head(name, address, key), pattern, out);
}

/// Makes the image of a sector. The address is the byte of the store at which the sector begins.
pub fn stamp(name: &StoreName, address: u64, key: Key, out: &mut Sector)
    requires written { key ≢ 0 }
    ensures { IsImage name.now address key out.new }
{
    let mut pattern = [0; 480];
    fill(seed(address, key.get()), &mut pattern);
    stamp_made(&name.padded(), address, key.get(), &pattern, out);
}

/// Puts one sector into a block.
fn put_sector(out: &mut [u8], i: u32, sector: &Sector)
    requires { 512 * i + 512 ≤ length out.old }
    ensures here { sector_of out.new i ≡ sector.now }
    ensures below { (j : ℕ) → j < i → sector_of out.new j ≡ sector_of out.old j }
    ensures size { length out.new ≡ length out.old }
{
    let at = 512 * i as usize;
    out[at..at + 512].copy_from_slice(sector);
}

/// The seeds of eight sectors of a block.
fn seeds_of(store: &StoreId, block: BlockNo, key: Key, first: u32) -> [u32; 8]
    requires block { block.0 < store.now.geometry.blocks }
    requires eight { first + 8 ≤ sectors_of store.now.geometry }
    requires few { first < 2048 }
    ensures { (lane : ℕ) → lane < 8 → slice_index result lane ≡ seed_of (address_of store.now.geometry block.0 (first + lane)) key }
{
    let mut seeds = [0; 8];
    for lane in 0..8u32 {
        seeds[lane as usize] = seed(store.geometry.address(block, first + lane), key.get());
    }
    seeds
}

/// Makes the next eight sectors of a block their images.
fn stamp_eight(store: &StoreId, block: BlockNo, key: Key, first: u32, out: &mut [u8])
    requires block { block.0 < store.now.geometry.blocks }
    requires eight { first + 8 ≤ sectors_of store.now.geometry }
    requires few { first < 2048 }
    requires size { length out.old ≡ store.now.geometry.block_size }
    requires before { AreStamped store.now block.0 key out.old first }
    ensures images { AreStamped store.now block.0 key out.new (first + 8) }
    ensures size { length out.new ≡ store.now.geometry.block_size }
{
    let mut patterns = [[0; 480]; 8];
    fill_lanes(&seeds_of(store, block, key, first), &mut patterns);
    let mut sector = [0; 512];
    for lane in 0..8u32 {
        let i = first + lane;
        stamp_made(
            &store.name.padded(),
            store.geometry.address(block, i),
            key.get(),
            &patterns[lane as usize],
            &mut sector,
        );
        put_sector(out, i, &sector);
    }
}

/// Makes the sectors of a block from one on their images.
fn stamp_rest(store: &StoreId, block: BlockNo, key: Key, first: u32, out: &mut [u8])
    requires block { block.0 < store.now.geometry.blocks }
    requires written { key ≢ 0 }
    requires first { first ≤ sectors_of store.now.geometry }
    requires size { length out.old ≡ store.now.geometry.block_size }
    requires before { AreStamped store.now block.0 key out.old first }
    ensures images { IsStamped store.now block.0 key out.new }
    ensures size { length out.new ≡ store.now.geometry.block_size }
{
    let mut sector = [0; 512];
    for i in first..store.geometry.sectors() {
        stamp(
            &store.name,
            store.geometry.address(block, i),
            key,
            &mut sector,
        );
        put_sector(out, i, &sector);
    }
}

/// Makes each sector of a block its image; `out` is the block's bytes.
pub fn stamp_block(store: &StoreId, block: BlockNo, key: Key, out: &mut [u8])
    requires block { block.0 < store.now.geometry.blocks }
    requires written { key ≢ 0 }
    requires size { length out.old ≡ store.now.geometry.block_size }
    ensures images { IsStamped store.now block.0 key out.new }
    ensures size { length out.new ≡ store.now.geometry.block_size }
{
    let eights = store.geometry.sectors() / 8;
    for n in 0..eights {
        stamp_eight(store, block, key, 8 * n, out);
    }
    stamp_rest(store, block, key, 8 * eights, out);
}

/// The laws that an image is one list of bytes, that no other name, address or key has it, and that a sector has one
/// first difference from an image. It does nothing.
pub fn image_laws()
    ensures one { HasOneImage }
    ensures apart { ImagesTellApart }
    ensures difference { HasOneFirstDifference }
{}
