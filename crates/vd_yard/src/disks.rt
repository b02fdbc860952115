// The disks that a yard in memory keeps.
ghost use Rattle.std.specs.Prelude.{◌≡◌, ◌≤◌, IfOk, IsSome, List, MatchOption, None, OnOk, Some, ℕ};
ghost use Rattle.vd_disk.specs.MemDisk.{mem_disk_seen};
ghost use Rattle.vd_yard.specs.Hands.{HandsOut};
ghost use Rattle.vd_yard.specs.Kept.{kept_at};
ghost use Rattle.vd_yard.specs.MemYard.{disks_in};
ghost use Rattle.vd_yard.specs.PathMap.{map_of};

use crate::path_map::PathMap;
use std::alloc::Global;
use vd_disk::{Disk, MemDisk};
use vd_outside::{NoMemory, Text};

/// The disk that is kept at a path. An entry without one is that of a disk that was made and hasn't come back yet.
pub fn kept_disk<'m>(disks: &'m PathMap<Option<MemDisk>>, path: &[u8]) -> Option<&'m MemDisk>
    ensures { MatchOption result (kept_at (disks_in (map_of disks.now)) path.now ≡ None) (λ disk. kept_at (map_of disks.now) path.now ≡ Some (Some disk.now)) }
{
    match disks.get(path) {
        Some(Some(disk)) => Some(disk),
        Some(None) => None,
        None => None,
    }
}

/// A copy of the disk that is kept at a path, made longer where it is short; or a new one of zeros.
pub fn long_disk(
    alloc: Global,
    disks: &PathMap<Option<MemDisk>>,
    path: &[u8],
    sectors: u64,
) -> Result<MemDisk, NoMemory>
    ensures size { IfOk result (λ disk. sectors ≤ (mem_disk_seen disk).sectors) }
    ensures hands { IfOk result (λ disk. HandsOut (kept_at (disks_in (map_of disks.now)) path.now) (mem_disk_seen disk)) }
{
    let Some(kept) = kept_disk(disks, path) else {
        return MemDisk::new(alloc, sectors, Vec::new(alloc));
    };
    let mut disk = kept.copy(alloc)?;
    if sectors <= disk.sectors() {
        return Ok(disk);
    }
    disk.lengthen(alloc, sectors)?;
    Ok(disk)
}

/// Makes an entry for a disk where there is none.
#[tactic(auto, using(crate::proofs::Seen::disks_made, crate::specs::There::kept_here, crate::specs::There::kept_stays))]
pub fn make_disk_entry(
    alloc: Global,
    disks: &mut PathMap<Option<MemDisk>>,
    path: &Text,
) -> Result<(), NoMemory>
    ensures there { OnOk result (IsSome (kept_at (map_of disks.new) path.now)) }
    ensures disks { disks_in (map_of disks.new) ≡ disks_in (map_of disks.old) }
    ensures stays { (q : List ℕ) → IsSome (kept_at (map_of disks.old) q) → IsSome (kept_at (map_of disks.new) q) }
{
    if disks.get(path.as_bytes()).is_some() {
        return Ok(());
    }
    let path = Text::from_str(alloc, path.as_str())?;
    disks.put(path, None)
}
