// What a yard in memory keeps of a store's data, cut into blocks.
ghost use Rattle.std.specs.Prelude.{◌≡◌, ◌++◌, ◌≤◌, IfOk, IsSome, List, MatchOption, None, OnOk, Some, drop, length, map, replicate, take, ℕ};
ghost use Rattle.vd_arm.specs.MemArm.{mem_pass_seen};
ghost use Rattle.vd_yard.specs.Contents.{AreBlocks, TellFile, file_block, told_bytes};
ghost use Rattle.vd_yard.specs.Held.{bytes_in};
ghost use Rattle.vd_yard.specs.Kept.{bytes_at, kept_at};
ghost use Rattle.vd_yard.specs.PathMap.{map_of};

use crate::path_map::PathMap;
use std::alloc::{AllocError, Global};
use vd_arm::MemPass;
use vd_base::{BlockNo, Geometry};
use vd_outside::{NoMemory, Text};

/// What is kept at a path: nothing yet, the bytes that were put there, or the passes that came back.
#[derive(Drop)]
pub enum Held {
    Nothing,
    Flat(Vec<u8>),
    Passes(Vec<MemPass>),
}

impl Held {
    ghost use Rattle.vd_yard.specs.Held.{held_bytes, held_file};

    /// The passes of a store whose file holds this.
    pub fn passes(&self, alloc: Global, geometry: &Geometry) -> Result<Vec<MemPass>, AllocError>
        ensures blocks { IfOk result (λ passes. AreBlocks geometry.now (map mem_pass_seen passes.items)) }
        ensures tell { IfOk result (λ passes. TellFile geometry.now (held_file self.now) (map mem_pass_seen passes.items)) }
    {
        match self {
            Held::Nothing => cut(alloc, &[], geometry),
            Held::Flat(bytes) => cut(alloc, bytes, geometry),
            Held::Passes(passes) => {
                let bytes = joined(alloc, passes)?;
                cut(alloc, &bytes, geometry)
            }
        }
    }

    /// A copy of the bytes, where there are any.
    pub fn bytes(&self, alloc: Global) -> Result<Option<Vec<u8>>, AllocError>
        ensures { IfOk result (λ bytes. MatchOption bytes (held_bytes self.now ≡ None) (λ v. held_bytes self.now ≡ Some v.items)) }
    {
        match self {
            Held::Nothing => Ok(None),
            Held::Flat(bytes) => Ok(Some(Vec::from_slice(alloc, bytes)?)),
            Held::Passes(passes) => Ok(Some(joined(alloc, passes)?)),
        }
    }
}

/// The bytes of passes, one behind the other.
fn joined(alloc: Global, passes: &[MemPass]) -> Result<Vec<u8>, AllocError>
    ensures { IfOk result (λ bytes. bytes.items ≡ told_bytes (map mem_pass_seen passes.now)) }
{
    let mut bytes = Vec::new(alloc);
    for pass in passes {
        bytes.extend_from_slice(pass.bytes())?;
    }
    Ok(bytes)
}

/// Puts bytes at the front of others.
fn put_front(out: &mut [u8], front: &[u8])
    requires { length front.now ≤ length out.old }
    ensures { out.new ≡ front.now ++ drop (length front.now) out.old }
{
    out[..front.len()].copy_from_slice(front);
}

/// The first bytes of a file's rest, with zeros behind its end.
#[tactic(auto, using(crate::proofs::Fills::long_rest, crate::proofs::Fills::short_rest))]
fn filled(alloc: Global, rest: &[u8], size: usize) -> Result<Vec<u8>, AllocError>
    ensures { IfOk result (λ bytes. bytes.items ≡ take size (rest.now ++ replicate size 0)) }
{
    let front = if rest.len() < size {
        rest
    } else {
        &rest[..size]
    };
    let mut bytes = vec![in alloc; 0u8; size]?;
    put_front(&mut bytes, front);
    Ok(bytes)
}

/// The bytes from a place on; none behind the end.
fn rest_from(bytes: &[u8], start: usize) -> &[u8]
    ensures { result.now ≡ drop start bytes.now }
{
    if start < bytes.len() {
        &bytes[start..]
    } else {
        &[]
    }
}

fn block_of(alloc: Global, bytes: &[u8], size: u32, block: u32) -> Result<Vec<u8>, AllocError>
    ensures { IfOk result (λ held. held.items ≡ file_block size block bytes.now) }
{
    filled(
        alloc,
        rest_from(bytes, block as usize * size as usize),
        size as usize,
    )
}

fn cut(alloc: Global, bytes: &[u8], geometry: &Geometry) -> Result<Vec<MemPass>, AllocError>
    ensures blocks { IfOk result (λ passes. AreBlocks geometry.now (map mem_pass_seen passes.items)) }
    ensures tell { IfOk result (λ passes. TellFile geometry.now bytes.now (map mem_pass_seen passes.items)) }
{
    let size = geometry.block_size();
    let mut passes = Vec::new(alloc);
    for block in 0..geometry.blocks() {
        let held = block_of(alloc, bytes, size, block)?;
        passes.push(MemPass::new(BlockNo(block), held))?;
    }
    Ok(passes)
}

/// Makes an entry for a store's data where there is none.
#[tactic(auto, using(crate::proofs::HeldBytes::bytes_made, crate::specs::There::kept_here, crate::specs::There::kept_stays))]
pub fn make_entry(alloc: Global, contents: &mut PathMap<Held>, path: &Text) -> Result<(), NoMemory>
    ensures there { OnOk result (IsSome (kept_at (map_of contents.new) path.now)) }
    ensures bytes { bytes_in (map_of contents.new) ≡ bytes_in (map_of contents.old) }
    ensures stays { (q : List ℕ) → IsSome (kept_at (map_of contents.old) q) → IsSome (kept_at (map_of contents.new) q) }
{
    if contents.get(path.as_bytes()).is_some() {
        return Ok(());
    }
    let path = Text::from_str(alloc, path.as_str())?;
    contents.put(path, Held::Nothing)
}

/// The passes of a store, by what is kept at its path.
pub fn passes_at(
    alloc: Global,
    contents: &PathMap<Held>,
    path: &Text,
    geometry: &Geometry,
) -> Result<Vec<MemPass>, AllocError>
    ensures blocks { IfOk result (λ passes. AreBlocks geometry.now (map mem_pass_seen passes.items)) }
    ensures tell { IfOk result (λ passes. TellFile geometry.now (bytes_at (bytes_in (map_of contents.now)) path.now) (map mem_pass_seen passes.items)) }
{
    match contents.get(path.as_bytes()) {
        Some(held) => held.passes(alloc, geometry),
        None => Held::Nothing.passes(alloc, geometry),
    }
}
