// Where a command gets its files.
ghost use Rattle.std.specs.Prelude.{OnOk, None, ◌≡◌, ◌≤◌, IfOk, IsErrOf, IsTrue, map, Some};
ghost use Rattle.vd_disk.specs.Disk.{DiskSeen};
ghost use Rattle.vd_yard.specs.Out.{AtSource, AtDisk, AtPasses, AtArm, out_at};
ghost use Rattle.vd_yard.specs.Counts.{add_source, add_arm};
ghost use Rattle.vd_yard.specs.Kept.{kept_at, keep_at, bytes_at};
ghost use Rattle.vd_yard.specs.Contents.{AreBlocks, TellFile, told_bytes};
ghost use Rattle.vd_yard.specs.Hands.{HandsOut};
ghost use Rattle.vd_yard.specs.Yard.{YardSeen, Opens, GivesBack, is_there, HasFiles};

use crate::YardFault;
use plan_types::StorePlan;
use vd_arm::Arm;
use vd_disk::Disk;
use vd_outside::{Source, Text};

/// Where a command gets its sources, disks, passes and arms. What it hands out is out until it is given back; a call that gives back
/// takes no memory and can't be refused.
pub trait Yard {
    type Source: Source;

    type Disk: Disk;

    type Arm: Arm;

    /// All that contracts see of it.
    ghost seen: { Self → YardSeen };

    /// Opens the file at this path for reading from its first byte.
    fn source(&mut self, path: &Text) -> Result<Self::Source, YardFault>
        ensures opens { Opens AtSource path.now (seen self.old) (seen self.new) result }
        ensures willing { IsTrue (seen self.old).willing → IsTrue (is_there (seen self.old).files AtSource path.now) → IsErrOf result YardFault.Failed → ⊥ }
        ensures fresh { IfOk result (λ s. Self.Source.faults s ≡ 0) }
        ensures told { IfOk result (λ s. Self.Source.left s ≡ (seen self.old).tells.bytes path.now) }
        ensures sure { IfOk result (λ s. Self.Source.sure s ≡ (seen self.old).tells.sure AtSource path.now) };

    /// Opens the disk that is there. A last part of less than 512 bytes isn't counted.
    fn disk(&mut self, path: &Text) -> Result<Self::Disk, YardFault>
        ensures opens { Opens AtDisk path.now (seen self.old) (seen self.new) result }
        ensures willing { IsTrue (seen self.old).willing → IsTrue (is_there (seen self.old).files AtDisk path.now) → IsErrOf result YardFault.Failed → ⊥ }
        ensures absent { IsTrue (seen self.old).tells.keeps_disks → kept_at (seen self.old).disks path.now ≡ None → OnOk result ⊥ }
        ensures told { (kept : DiskSeen) → kept_at (seen self.old).disks path.now ≡ Some kept → IfOk result (λ d. Self.Disk.seen d ≡ kept) };

    /// Opens the disk at a path, or makes it where it isn't there, and sees to it that it has at least so many sectors. What stood there
    /// stays, and a lengthening is one moment more.
    fn new_disk(&mut self, path: &Text, sectors: u64) -> Result<Self::Disk, YardFault>
        ensures opens { Opens AtDisk path.now (seen self.old) (seen self.new) result }
        ensures willing { IsTrue (seen self.old).willing → IsErrOf result YardFault.Failed → ⊥ }
        ensures size { IfOk result (λ d. sectors ≤ (Self.Disk.seen d).sectors) }
        ensures hands { IsTrue (seen self.old).tells.keeps_disks →
            IfOk result (λ d. HandsOut (kept_at (seen self.old).disks path.now) (Self.Disk.seen d)) };

    /// The passes of a store, one for each block. Its file is made where it isn't there, and lengthened by zeros where it is short.
    fn passes(&mut self, store: &StorePlan) -> Result<Vec<<Self::Arm as Arm>::Pass>, YardFault>
        ensures opens { Opens AtPasses store.now.path (seen self.old) (seen self.new) result }
        ensures willing { IsTrue (seen self.old).willing → HasFiles (seen self.old).files store.now → IsErrOf result YardFault.Failed → ⊥ }
        ensures blocks { IfOk result (λ v. AreBlocks store.now.id.geometry (map Self.Arm.Pass.seen v.items)) }
        ensures told { IsTrue (seen self.old).tells.keeps_contents →
            IfOk result (λ v. TellFile store.now.id.geometry (bytes_at (seen self.old).contents store.now.path) (map Self.Arm.Pass.seen v.items)) };

    /// One worker's way to a store.
    fn arm(&mut self, store: &StorePlan) -> Result<Self::Arm, YardFault>
        ensures opens { Opens AtArm store.now.path (seen self.old) (seen self.new) result }
        ensures willing { IsTrue (seen self.old).willing → IsErrOf result YardFault.Failed → ⊥ }
        ensures fresh { IfOk result (λ a. (Self.Arm.seen a).faults ≡ 0) }
        ensures none_read { IfOk result (λ a. (Self.Arm.seen a).good_reads ≡ 0) }
        ensures none_written { IfOk result (λ a. (Self.Arm.seen a).good_writes ≡ 0) }
        ensures sure { IfOk result (λ a. (Self.Arm.seen a).sure ≡ (seen self.old).tells.sure AtArm store.now.path) };

    /// Takes a source back, and adds its faults to its path's.
    fn keep_source(&mut self, path: &Text, source: Self::Source)
        requires { 1 ≤ out_at (seen self.old).out AtSource path.now }
        ensures back { GivesBack AtSource path.now (seen self.old) (seen self.new) }
        ensures counts { (seen self.new).counts ≡ add_source (seen self.old).counts path.now (Self.Source.faults source) }
        ensures disks { (seen self.new).disks ≡ (seen self.old).disks }
        ensures contents { (seen self.new).contents ≡ (seen self.old).contents };

    /// Takes a disk back, which is then the kept one.
    fn keep_disk(&mut self, path: &Text, disk: Self::Disk)
        requires { 1 ≤ out_at (seen self.old).out AtDisk path.now }
        ensures back { GivesBack AtDisk path.now (seen self.old) (seen self.new) }
        ensures counts { (seen self.new).counts ≡ (seen self.old).counts }
        ensures disks { (seen self.new).disks ≡ keep_at (seen self.old).tells.keeps_disks (seen self.old).disks path.now (Self.Disk.seen disk) }
        ensures contents { (seen self.new).contents ≡ (seen self.old).contents };

    /// Takes a store's passes back, whose bytes are then the kept ones.
    fn keep_passes(&mut self, store: &StorePlan, passes: Vec<<Self::Arm as Arm>::Pass>)
        requires { 1 ≤ out_at (seen self.old).out AtPasses store.now.path }
        ensures back { GivesBack AtPasses store.now.path (seen self.old) (seen self.new) }
        ensures counts { (seen self.new).counts ≡ (seen self.old).counts }
        ensures disks { (seen self.new).disks ≡ (seen self.old).disks }
        ensures contents { (seen self.new).contents ≡
            keep_at (seen self.old).tells.keeps_contents (seen self.old).contents store.now.path (told_bytes (map Self.Arm.Pass.seen passes.items)) };

    /// Takes an arm back, and adds its counts to its path's.
    fn keep_arm(&mut self, store: &StorePlan, arm: Self::Arm)
        requires { 1 ≤ out_at (seen self.old).out AtArm store.now.path }
        ensures back { GivesBack AtArm store.now.path (seen self.old) (seen self.new) }
        ensures counts { (seen self.new).counts ≡ add_arm (seen self.old).counts store.now.path (Self.Arm.seen arm).faults
            (Self.Arm.seen arm).good_reads (Self.Arm.seen arm).good_writes }
        ensures disks { (seen self.new).disks ≡ (seen self.old).disks }
        ensures contents { (seen self.new).contents ≡ (seen self.old).contents };
}
