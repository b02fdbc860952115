// Blocks, and how many of which size a store has.
ghost use Rattle.std.specs.Prelude.{◌≡◌, ◌↔◌, ◌≤◌, ◌<◌, ◌*◌, ◌%◌, IsTrue, SomeIff};
ghost use Rattle.vd_base.specs.Geometry.{IsGeometry, sectors_of, address_of};

use crate::StoreName;
use std::marker::Model;

/// The number of a block in its store, from 0.
#[derive(Clone, Copy, Debug, PartialEq, Eq, Drop)]
pub struct BlockNo(pub u32);

/// How many blocks of how many bytes a store has: 1 to 16,777,216 blocks, each a multiple of 512 bytes up to 1 MiB.
/// Contracts see both numbers.
#[derive(Clone, Copy, Debug, PartialEq, Eq, Drop)]
pub struct Geometry {
    blocks: u32,
    block_size: u32,
}

impl Model for Geometry {
    ghost use Rattle.vd_base.specs.Geometry.{Shape, IsGeometry};

    ghost Value = { Shape };

    ghost view = { λ g. record { blocks = g.blocks; block_size = g.block_size } };

    ghost invariant = { λ g. IsGeometry g.blocks g.block_size };

    ghost inverse = { λ s. record { blocks = s.blocks; block_size = s.block_size } };
}

impl Geometry {
    /// None exactly where a limit is broken.
    pub fn new(blocks: u32, block_size: u32) -> Option<Geometry>
        ensures { SomeIff result (IsGeometry blocks block_size) (record { blocks = blocks; block_size = block_size }) }
    {
        if blocks == 0 || blocks > 16_777_216 {
            return None;
        }
        if block_size == 0 || block_size > 1_048_576 || block_size % 512 != 0 {
            return None;
        }
        Some(Geometry { blocks, block_size })
    }

    /// The number of blocks.
    pub fn blocks(&self) -> u32
        ensures value { result ≡ self.now.blocks }
        ensures limits { IsGeometry self.now.blocks self.now.block_size }
    {
        self.blocks
    }

    /// The bytes of one block.
    pub fn block_size(&self) -> u32
        ensures value { result ≡ self.now.block_size }
        ensures limits { IsGeometry self.now.blocks self.now.block_size }
    {
        self.block_size
    }

    /// The sectors of one block.
    pub fn sectors(&self) -> u32
        ensures value { result ≡ sectors_of self.now }
        ensures whole { result * 512 ≡ self.now.block_size }
        ensures range { (1 ≤ result) × (result ≤ 2048) }
    {
        self.block_size / 512
    }

    /// The byte of the store at which a sector of a block begins.
    #[tactic(auto, using(crate::proofs::Addresses::sector_aligned))]
    pub fn address(&self, block: BlockNo, sector: u32) -> u64
        requires block { block.0 < self.now.blocks }
        requires sector { sector < sectors_of self.now }
        ensures value { result ≡ address_of self.now block.0 sector }
        ensures aligned { result % 512 ≡ 0 }
    {
        block.0 as u64 * self.block_size as u64 + sector as u64 * 512
    }
}

/// What tells one store from another: its name and its geometry.
#[derive(Clone, Copy, Debug, PartialEq, Eq, Drop)]
pub struct StoreId {
    pub name: StoreName,
    pub geometry: Geometry,
}

impl StoreId {
    /// Whether both are of one store.
    pub fn is_same(&self, other: &StoreId) -> bool
        ensures { IsTrue result ↔ (self.now ≡ other.now) }
    {
        self.name.is_same(&other.name)
            && self.geometry.blocks() == other.geometry.blocks()
            && self.geometry.block_size() == other.geometry.block_size()
    }
}
