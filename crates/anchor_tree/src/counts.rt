// How many directories there are.
ghost use Rattle.std.specs.Prelude.{◌≡◌, ◌<◌, ◌^◌};
ghost use Rattle.anchor_tree.specs.Limits.{held};
ghost use Rattle.anchor_tree.specs.Shape.{directories_to, with_files};

use crate::Distribution;

/// Numbers of directories, held at the greatest u64.
#[derive(Clone, Copy, Drop)]
pub(crate) struct Counts {
    /// Of all levels.
    pub directories: u64,
    /// Of the last level.
    pub bottom: u64,
}

impl Counts {
    /// The directories of `depth` levels, where the anchor and each directory but those of the last level have `width` in them.
    pub(crate) fn of(depth: u32, width: u32) -> Counts
        requires width { 0 < width }
        ensures directories { result.directories ≡ held (directories_to width depth) }
        ensures bottom { result.bottom ≡ held (width ^ depth) }
    {
        if width == 1 {
            return Counts {
                directories: u64::from(depth),
                bottom: 1,
            };
        }
        let mut directories: u64 = 0;
        let mut bottom: u64 = 1;
        // Behind 64 levels both have reached the greatest u64.
        for _level in 0..depth.min(64) {
            bottom = bottom.saturating_mul(u64::from(width));
            directories = directories.saturating_add(bottom);
        }
        Counts {
            directories,
            bottom,
        }
    }
}

/// How many directories have files, of `bottom` in the last level and `all` in all.
pub(crate) fn holders(distribution: Distribution, bottom: u64, all: u64) -> u64
    ensures { result ≡ with_files distribution bottom all }
{
    match distribution {
        Distribution::Bottom => bottom,
        Distribution::All => all,
    }
}
