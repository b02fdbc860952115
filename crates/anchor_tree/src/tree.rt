// A tree: its numbers, its names, and where its blocks lie.
ghost use Rattle.std.specs.Prelude.{◌≡◌, ◌+◌, ◌*◌, ◌<◌, ◌≤◌, IfOk, OnOk};
ghost use Rattle.anchor_tree.specs.Blocks.{IsBlock, blocks_before, blocks_in, blocks_of};
ghost use Rattle.anchor_tree.specs.Limits.{IsTree, held, is_empty, refusal, refusal_in};
ghost use Rattle.anchor_tree.specs.Names.{dir_name, file_name, holder_of};
ghost use Rattle.anchor_tree.specs.Shape.{directories_of, files_of, first_of, hundred_of, size_of};

use crate::blocks::{blocks_before, place_of as place_of_block};
use crate::counts::{Counts, holders};
use crate::names::{leaf, place_of, push_path};
use crate::sizes::{has_zero, hundred, percents};
use crate::{Distribution, TreeFault};
use std::alloc::Global;
use std::marker::Model;
use vd_base::BlockNo;
use vd_outside::{NoMemory, Text};

/// Directories and files below an anchor, at most 65,536 and 1,048,576. Contracts see its numbers and the sizes of its first hundred
/// files.
#[derive(Drop)]
pub struct Tree {
    anchor: Text,
    depth: u32,
    width: u32,
    /// In each directory that has files.
    files: u32,
    distribution: Distribution,
    /// The sizes of the first hundred files, which those behind them repeat.
    hundred: Vec<u64>,
    directories: u32,
    /// The directories of the last level.
    bottom: u32,
}

impl Model for Tree {
    ghost use Rattle.anchor_tree.specs.Shape.{Shape};
    ghost use Rattle.anchor_tree.specs.Limits.{Keeps};

    ghost Value = { Shape };

    ghost view = { λ t. record { anchor = t.anchor; depth = t.depth; width = t.width; files = t.files; distribution = t.distribution; hundred = t.hundred.items } };

    ghost invariant = { λ t. Keeps (record { anchor = t.anchor; depth = t.depth; width = t.width; files = t.files; distribution = t.distribution; hundred = t.hundred.items }) t.directories t.bottom };
}

/// Whether a tree of these numbers has no level, directory, file or size, or a size of no byte.
fn is_empty(depth: u32, width: u32, files: u32, sizes: &[(u64, u32)]) -> bool
    ensures { result ≡ is_empty depth width files sizes.now }
{
    depth == 0 || width == 0 || files == 0 || sizes.is_empty() || has_zero(sizes)
}

impl Tree {
    /// A tree below the anchor: `depth` levels, `width` directories in the anchor and in each directory but those of the last level,
    /// and `files` files in each directory that has files. Of a hundred files in a row each of the sizes, in bytes, has as many as
    /// its percentage says, the first one first.
    pub fn new(
        alloc: Global,
        anchor: Text,
        depth: u32,
        width: u32,
        files: u32,
        sizes: Vec<(u64, u32)>,
        distribution: Distribution,
    ) -> Result<Tree, TreeFault>
        ensures made { IfOk result (λ tree. tree ≡ record { anchor = anchor; depth = depth; width = width; files = files; distribution = distribution; hundred = hundred_of sizes.items }) }
        ensures limits { IfOk result (λ tree. IsTree tree) }
        // Each cause in its order, and before want of memory.
        ensures refused { refusal_in result ≡ refusal depth width files sizes.items distribution }
    {
        if is_empty(depth, width, files, sizes.as_slice()) {
            return Err(TreeFault::Empty);
        }
        let sum = percents(sizes.as_slice());
        if sum != 100 {
            return Err(TreeFault::Percent { sum });
        }
        let counts = Counts::of(depth, width);
        let directories = counts.directories;
        let all = holders(distribution, counts.bottom, directories).saturating_mul(u64::from(
            files,
        ));
        if directories > 65_536 || all > 1_048_576 {
            return Err(TreeFault::TooLarge {
                directories,
                files: all,
            });
        }
        let hundred = hundred(alloc, sizes.as_slice())?;
        Ok(Tree {
            anchor,
            depth,
            width,
            files,
            distribution,
            hundred,
            directories: directories as u32,
            bottom: counts.bottom as u32,
        })
    }

    /// The number of directories, without the anchor.
    pub fn directories(&self) -> u32
        ensures value { result ≡ directories_of self.now }
        ensures limits { IsTree self.now }
    {
        self.directories
    }

    /// The number of files.
    pub fn files(&self) -> u32
        ensures value { result ≡ files_of self.now }
        ensures limits { IsTree self.now }
    {
        self.holders() * self.files
    }

    /// The number of directories that have files.
    fn holders(&self) -> u32
        ensures value { result * self.now.files ≡ files_of self.now }
        ensures first { first_of self.now.distribution self.now.depth self.now.width + result ≡ directories_of self.now }
    {
        let bottom = u64::from(self.bottom);
        holders(self.distribution, bottom, u64::from(self.directories)) as u32
    }

    /// The bytes of a file.
    pub fn file_size(&self, file: u32) -> u64
        requires file { file < files_of self.now }
        ensures value { result ≡ size_of self.now.hundred file }
        ensures some { 0 < result }
    {
        self.hundred[(file % 100) as usize]
    }

    /// The whole blocks of all files, held at the greatest u64.
    pub fn blocks(&self, block_size: u32) -> u64
        requires size { 0 < block_size }
        ensures value { result ≡ held (blocks_of self.now block_size) }
    {
        let blocks = blocks_before(self.hundred.as_slice(), u64::from(block_size), self.files());
        blocks.min(u128::from(u64::MAX)) as u64
    }

    /// The path of a directory.
    pub fn dir_name(&self, alloc: Global, directory: u32) -> Result<Text, NoMemory>
        requires directory { directory < directories_of self.now }
        ensures value { IfOk result (λ name. name ≡ dir_name self.now directory) }
    {
        let place = place_of(self.depth, self.width, directory);
        let mut name = Text::from_str(alloc, self.anchor.as_str())?;
        push_path(alloc, &mut name, self.width, place)?;
        Ok(name)
    }

    /// The directory of a file.
    fn holder_of(&self, file: u32) -> u32
        requires file { file < files_of self.now }
        ensures value { result ≡ holder_of self.now file }
        ensures inside { result < directories_of self.now }
    {
        self.directories - self.holders() + file / self.files
    }

    /// The path of a file.
    pub fn file_name(&self, alloc: Global, file: u32) -> Result<Text, NoMemory>
        requires file { file < files_of self.now }
        ensures value { IfOk result (λ name. name ≡ file_name self.now file) }
    {
        let mut name = self.dir_name(alloc, self.holder_of(file))?;
        let leaf = leaf(alloc, file % self.files)?;
        name.push(leaf.as_str())?;
        Ok(name)
    }

    /// The file in which a block lies, and the block's place in it, from 0.
    pub fn file_of_block(&self, block_size: u32, block: BlockNo) -> (u32, u64)
        requires size { 0 < block_size }
        requires few { blocks_of self.now block_size ≤ 16777216 }
        requires block { block.0 < blocks_of self.now block_size }
        ensures place { IsBlock self.now block_size result.0 result.1 block.0 }
    {
        place_of_block(self.hundred.as_slice(), u64::from(block_size), block.0)
    }

    /// The block at a place in a file.
    pub fn block_of(&self, block_size: u32, file: u32, place: u64) -> BlockNo
        requires size { 0 < block_size }
        requires few { blocks_of self.now block_size ≤ 16777216 }
        requires file { file < files_of self.now }
        requires place { place < blocks_in self.now.hundred block_size file }
        ensures value { IsBlock self.now block_size file place result.0 }
        ensures inside { result.0 < blocks_of self.now block_size }
    {
        let before = blocks_before(self.hundred.as_slice(), u64::from(block_size), file);
        BlockNo((before + u128::from(place)) as u32)
    }
}
