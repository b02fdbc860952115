// A disk of sectors: what a read gives, and what a stop may leave.
ghost use Rattle.std.specs.Prelude.{◌≡◌, ◌<◌, IsTrue, List, [], Some, None, OnOk, slice_get};
ghost use Rattle.vd_outside.specs.Causes.{HasCause};
ghost use Rattle.vd_disk.specs.Disk.{DiskSeen, WhenTold, Writes, Syncs, IsTale, Leaves};

use vd_base::Sector;
use vd_outside::Failed;

/// A row of sectors, each written whole. After a stop each sector, independently, holds what it held at the last sync that
/// answered Ok, or anything written to it since.
pub trait Disk: Drop {
    /// All that contracts see of it: plain data, the same after a move.
    ghost seen: { Self → DiskSeen };

    /// How many sectors there are.
    fn sectors(&self) -> u64
        ensures { result ≡ (seen self.now).sectors };

    /// The sector at a place. A failed read leaves `out` unsaid.
    fn read(&mut self, at: u64, out: &mut Sector) -> Result<(), Failed>
        requires { at < (seen self.old).sectors }
        ensures gives { OnOk result (WhenTold (seen self.old).told (λ sectors. slice_get sectors at ≡ Some out.new)) }
        ensures same { seen self.new ≡ record (seen self.old) { faults = (seen self.new).faults } }
        ensures cause { HasCause (seen self.old).faults (seen self.new).faults result }
        ensures sure { IsTrue (seen self.old).sure → (seen self.new).faults ≡ (seen self.old).faults };

    /// Puts these bytes at a place. A failed write leaves the sector as it was or as `bytes`, and a stop may leave either.
    fn write(&mut self, at: u64, bytes: &Sector) -> Result<(), Failed>
        requires { at < (seen self.old).sectors }
        ensures writes { Writes at bytes.now (seen self.old) (seen self.new) result }
        ensures leaves { Leaves (seen self.old) (seen self.new) }
        ensures cause { HasCause (seen self.old).faults (seen self.new).faults result };

    /// Makes all that was written stay: at Ok each image is what a read gives, and a failed sync leaves the images as they were.
    fn sync(&mut self) -> Result<(), Failed>
        ensures syncs { Syncs (seen self.old) (seen self.new) result }
        ensures leaves { Leaves (seen self.old) (seen self.new) }
        ensures cause { HasCause (seen self.old).faults (seen self.new).faults result };

    /// Where the sectors are told there are so many, and the moments fit them.
    ghost is_tale: { (disk : Self) → WhenTold (seen disk).told (IsTale (seen disk).sectors (seen disk).moments) };

    /// A disk that tells nothing has no moments.
    ghost untold: { (disk : Self) → (seen disk).told ≡ None → (seen disk).moments ≡ [] };
}
