// Names of directories and files.
ghost use Rattle.std.specs.Prelude.{◌≡◌, ◌++◌, ◌<◌, ◌≤◌, ◌^◌, IfOk, OnOk, string_bytes};
ghost use Rattle.anchor_tree.specs.Names.{folder, index_of, leaf, level_of, path_to};
ghost use Rattle.anchor_tree.specs.Shape.{directories_to};

use std::alloc::{AllocError, Global};
use vd_outside::{NoMemory, Text};

/// Where a directory stands.
#[derive(Clone, Copy, Drop)]
pub(crate) struct Place {
    /// Its level, from 1.
    pub level: u32,
    /// Its number in the level, from 0.
    pub index: u32,
}

/// Where a directory stands, of `depth` levels with `width` directories in the anchor and in each directory.
pub(crate) fn place_of(depth: u32, width: u32, directory: u32) -> Place
    requires width { 0 < width }
    requires few { directories_to width depth ≤ 65536 }
    requires directory { directory < directories_to width depth }
    ensures level { result.level ≡ level_of depth width directory }
    ensures index { result.index ≡ index_of depth width directory }
    ensures few { width ^ result.level ≤ 65536 }
    ensures inside { result.index < width ^ result.level }
{
    let mut before: u64 = 0;
    let mut many: u64 = 1;
    for level in 0..depth {
        many *= u64::from(width);
        if u64::from(directory) < before + many {
            let index = (u64::from(directory) - before) as u32;
            return Place {
                level: level + 1,
                index,
            };
        }
        before += many;
    }
    unreachable!()
}

/// The folder of a digit at a level.
fn folder(alloc: Global, level: u32, digit: u32) -> Result<String, AllocError>
    requires { digit < 65536 }
    ensures { IfOk result (λ text. string_bytes text ≡ folder level digit) }
{
    let number = digit + 1;
    format!(in alloc; "/vdb{level}_{number}.dir")
}

/// Adds the folders that lead to the directory of an index.
pub(crate) fn push_path(
    alloc: Global,
    name: &mut Text,
    width: u32,
    place: Place,
) -> Result<(), NoMemory>
    requires width { 0 < width }
    requires narrow { width ≤ 65536 }
    requires few { width ^ place.level ≤ 65536 }
    ensures { OnOk result (name.new ≡ name.old ++ path_to width place.level place.index) }
{
    for level in 0..place.level {
        let digit = place.index / width.pow(place.level - (level + 1)) % width;
        let text = folder(alloc, level + 1, digit)?;
        name.push(text.as_str())?;
    }
    Ok(())
}

/// The end of the name of a file that is so many in its directory.
pub(crate) fn leaf(alloc: Global, n: u32) -> Result<String, AllocError>
    requires { n < 1048576 }
    ensures { IfOk result (λ text. string_bytes text ≡ leaf n) }
{
    let number = n + 1;
    format!(in alloc; "/vdb_f{number:04}.file")
}
