// A yard in memory. It tells all.
ghost use Rattle.std.specs.Prelude.{◌≡◌, ◌++◌, [], ◌∷◌, ◌≤◌, IfOk, MatchOption, None, OnErr, OnOk, Some, false, map, vec_len};
ghost use Rattle.std.proofs.Props.{props};
ghost use Rattle.vd_arm.specs.MemArm.{mem_pass_seen};
ghost use Rattle.vd_yard.specs.Contents.{told_bytes};
ghost use Rattle.vd_yard.specs.Kept.{keep_at, kept_at};
ghost use Rattle.vd_yard.specs.Ledger.{ledger_out};
ghost use Rattle.vd_yard.specs.Out.{AtDisk, AtPasses, out_at};
ghost use Rattle.vd_yard.specs.PathMap.{map_of};
ghost use Rattle.vd_yard.specs.There.{AreThere};
ghost use Rattle.vd_yard.specs.Yard.{GivesBack};

use crate::arm_plan::{ArmPlan, count_arm, next_arm};
use crate::data::{Held, make_entry, passes_at};
use crate::disks::{kept_disk, long_disk, make_disk_entry};
use crate::ledger::{Ledger, Thing};
use crate::path_map::PathMap;
use crate::refusals::Refusals;
use crate::source_file::SourceFile;
use crate::{Yard, YardFault};
use plan_types::StorePlan;
use std::alloc::Global;
use vd_arm::{MemArm, MemPass};
use vd_disk::MemDisk;
use vd_outside::{MemSource, NoMemory, Source, Text};

/// Files, disks and data in memory, each by its path. What a command gives back is what the next one finds. A call of it fails only where
/// a refusal was set, or where a source or a disk isn't there.
#[derive(Drop)]
pub struct MemYard {
    alloc: Global,
    faults: u64,
    ledger: Ledger,
    files: PathMap<SourceFile>,
    disks: PathMap<Option<MemDisk>>,
    contents: PathMap<Held>,
    arm_plans: PathMap<ArmPlan>,
    arms_opened: PathMap<u32>,
    refusals: Refusals,
    ghost disks_there: { AreThere AtDisk (ledger_out ledger) (map_of disks) } by { Prim.hlevel props },
    ghost contents_there: { AreThere AtPasses (ledger_out ledger) (map_of contents) } by { Prim.hlevel props },
}

impl MemYard {
    ghost use Rattle.vd_disk.specs.MemDisk.{mem_disk_seen};
    ghost use Rattle.vd_yard.specs.MemYard.{arm_calls, arms_in, failing_reads, mem_yard_seen, refusals_of};
    ghost use Rattle.vd_yard.specs.Puts.{IsEmpty, Keeps, PutsData, PutsDisk, PutsFile};

    /// Nothing is there, nothing is out, and no call is refused.
    pub fn new(alloc: Global) -> MemYard
        ensures { IsEmpty (mem_yard_seen result) }
    {
        MemYard {
            alloc,
            faults: 0,
            ledger: Ledger::new(alloc),
            files: PathMap::new(alloc),
            disks: PathMap::new(alloc),
            contents: PathMap::new(alloc),
            arm_plans: PathMap::new(alloc),
            arms_opened: PathMap::new(alloc),
            refusals: Refusals::new(alloc),
        }
    }

    /// Puts a file at a path, in the place of one that is there. The reads with these numbers, from 0, of each source of it fail.
    pub fn put_file(
        &mut self,
        path: Text,
        bytes: Vec<u8>,
        failing: Vec<u64>,
    ) -> Result<(), NoMemory>
        ensures puts { OnOk result (PutsFile path bytes.items failing.items (mem_yard_seen self.old) (mem_yard_seen self.new)) }
        ensures reads { OnOk result (failing_reads self.new path ≡ failing.items) }
        ensures err { OnErr result (mem_yard_seen self.new ≡ mem_yard_seen self.old) }
    {
        self.files.put(path, SourceFile::new(bytes, failing))
    }

    /// Puts a disk at a path, in the place of one that is there.
    pub fn put_disk(&mut self, path: Text, disk: MemDisk) -> Result<(), NoMemory>
        ensures puts { OnOk result (PutsDisk path (mem_disk_seen disk) (mem_yard_seen self.old) (mem_yard_seen self.new)) }
        ensures err { OnErr result (mem_yard_seen self.new ≡ mem_yard_seen self.old) }
    {
        self.disks.put(path, Some(disk))
    }

    /// Makes one call on a path fail: the one before which so many go on, of the openings at this path from now on.
    pub fn refuse(&mut self, path: Text, place: u64) -> Result<(), NoMemory>
        ensures ok { OnOk result (mem_yard_seen self.new ≡ record (mem_yard_seen self.old) { willing = false }) }
        ensures refusal { OnOk result (refusals_of self.new ≡ refusals_of self.old ++ (path, Some place) ∷ []) }
        ensures err { OnErr result (mem_yard_seen self.new ≡ mem_yard_seen self.old) }
    {
        self.refusals.add(path, place)
    }

    /// How often a call of the yard failed.
    pub fn faults(&self) -> u64
        ensures { result ≡ (mem_yard_seen self.now).faults }
    {
        self.faults
    }

    /// The disk that is kept at a path.
    pub fn disk_at(&self, path: &Text) -> Option<&MemDisk>
        ensures { MatchOption result (kept_at (mem_yard_seen self.now).disks path.now ≡ None) (λ disk. kept_at (mem_yard_seen self.now).disks path.now ≡ Some (mem_disk_seen disk.now)) }
    {
        kept_disk(&self.disks, path.as_bytes())
    }

    /// A copy of the bytes that are kept at a path.
    pub fn bytes_at(&self, path: &Text) -> Result<Option<Vec<u8>>, NoMemory>
        ensures { IfOk result (λ bytes. MatchOption bytes (kept_at (mem_yard_seen self.now).contents path.now ≡ None)
            (λ held. kept_at (mem_yard_seen self.now).contents path.now ≡ Some held.items)) }
    {
        match self.contents.get(path.as_bytes()) {
            Some(held) => Ok(held.bytes(self.alloc)?),
            None => Ok(None),
        }
    }

    /// Puts a data file at a path, in the place of one that is there. A listed call is that of an arm of this path, numbered from 0 as
    /// they are opened from now on, the call's number from 0, and how many first sectors a failed write changes. Where memory runs out,
    /// the bytes at the path are as they were, and nothing is said of the calls that fail there.
    pub fn put_data(
        &mut self,
        path: Text,
        bytes: Vec<u8>,
        failing: Vec<(u32, u64, u32)>,
    ) -> Result<(), NoMemory>
        ensures puts { OnOk result (PutsData path bytes.items failing.items (mem_yard_seen self.old) (mem_yard_seen self.new)) }
        ensures calls { OnOk result (arm_calls self.new path ≡ failing.items) }
        ensures numbers { OnOk result (kept_at (arms_in self.new) path ≡ Some 0) }
        ensures err { OnErr result (Keeps (mem_yard_seen self.old) (mem_yard_seen self.new)) }
    {
        let plan_path = Text::from_str(self.alloc, path.as_str())?;
        let count_path = Text::from_str(self.alloc, path.as_str())?;
        self.arms_opened.put(count_path, 0)?;
        self.arm_plans.put(plan_path, ArmPlan::new(failing))?;
        self.contents.put(path, Held::Flat(bytes))
    }
}

impl Yard for MemYard {
    ghost use Rattle.std.specs.List.{list_any};
    ghost use Rattle.std.specs.Prelude.{◌+◌, ◌-◌, ◌^◌, IsErrOf, IsTrue, min, unwrap_or, ℕ};
    ghost use Rattle.vd_arm.specs.MemArm.{calls_of, mem_arm_seen};
    ghost use Rattle.vd_outside.specs.Memory.{reads_of};
    ghost use Rattle.vd_yard.specs.ArmPlan.{calls_of_number};
    ghost use Rattle.vd_disk.specs.Disk.{DiskSeen};
    ghost use Rattle.vd_disk.specs.MemDisk.{mem_disk_seen};
    ghost use Rattle.vd_yard.specs.MemYard.{arm_calls, arms_in, failing_reads, mem_yard_seen, refusals_of};
    ghost use Rattle.vd_yard.specs.Out.{AtArm, AtSource};
    ghost use Rattle.vd_yard.specs.Refusals.{after_call, hits};
    ghost use Rattle.vd_yard.specs.Yard.{HasFiles, Opens, is_there};
    ghost use Rattle.vd_yard.specs.Contents.{AreBlocks, TellFile};
    ghost use Rattle.vd_yard.specs.Hands.{HandsOut};
    ghost use Rattle.vd_yard.specs.Kept.{bytes_at};

    type Source = MemSource;

    type Disk = MemDisk;

    type Arm = MemArm;

    ghost seen = { mem_yard_seen };

    fn source(&mut self, path: &Text) -> Result<MemSource, YardFault>
        ensures opens { Opens AtSource path.now (mem_yard_seen self.old) (mem_yard_seen self.new) result }
        ensures willing { IsTrue (mem_yard_seen self.old).willing → IsTrue (is_there (mem_yard_seen self.old).files AtSource path.now) →
            IsErrOf result YardFault.Failed → ⊥ }
        ensures fresh { IfOk result (λ source. ⟦<MemSource as Source>⟧.faults source ≡ 0) }
        ensures told { IfOk result (λ source. ⟦<MemSource as Source>⟧.left source ≡ (mem_yard_seen self.old).tells.bytes path.now) }
        ensures sure { IfOk result (λ source. ⟦<MemSource as Source>⟧.sure source ≡ (mem_yard_seen self.old).tells.sure AtSource path.now) }
        ensures reads { IfOk result (λ source. reads_of source ≡ record { failing = failing_reads self.old path.now; made = 0 }) }
        ensures refused { IsTrue (list_any (hits path.now) (refusals_of self.old)) → IsErrOf result YardFault.Failed }
        ensures counted { refusals_of self.new ≡ map (after_call path.now) (refusals_of self.old) }
    {
        if self.refusals.is_next_refused(path) {
            self.faults = self.faults.saturating_add(1);
            return Err(YardFault::Failed);
        }
        let Some(file) = self.files.get(path.as_bytes()) else {
            self.faults = self.faults.saturating_add(1);
            return Err(YardFault::Failed);
        };
        let Ok(source) = file.open(self.alloc) else {
            return Err(YardFault::NoMemory);
        };
        match self.ledger.open(self.alloc, Thing::Source, path) {
            Ok(()) => Ok(source),
            Err(_) => Err(YardFault::NoMemory),
        }
    }

    fn disk(&mut self, path: &Text) -> Result<MemDisk, YardFault>
        ensures opens { Opens AtDisk path.now (mem_yard_seen self.old) (mem_yard_seen self.new) result }
        ensures willing { IsTrue (mem_yard_seen self.old).willing → IsTrue (is_there (mem_yard_seen self.old).files AtDisk path.now) →
            IsErrOf result YardFault.Failed → ⊥ }
        ensures absent { IsTrue (mem_yard_seen self.old).tells.keeps_disks → kept_at (mem_yard_seen self.old).disks path.now ≡ None → OnOk result ⊥ }
        ensures told { (kept : DiskSeen) → kept_at (mem_yard_seen self.old).disks path.now ≡ Some kept → IfOk result (λ disk. mem_disk_seen disk ≡ kept) }
        ensures refused { IsTrue (list_any (hits path.now) (refusals_of self.old)) → IsErrOf result YardFault.Failed }
        ensures counted { refusals_of self.new ≡ map (after_call path.now) (refusals_of self.old) }
    {
        if self.refusals.is_next_refused(path) {
            self.faults = self.faults.saturating_add(1);
            return Err(YardFault::Failed);
        }
        let Some(disk) = kept_disk(&self.disks, path.as_bytes()) else {
            self.faults = self.faults.saturating_add(1);
            return Err(YardFault::Failed);
        };
        let Ok(disk) = disk.copy(self.alloc) else {
            return Err(YardFault::NoMemory);
        };
        match self.ledger.open(self.alloc, Thing::Disk, path) {
            Ok(()) => Ok(disk),
            Err(_) => Err(YardFault::NoMemory),
        }
    }

    fn new_disk(&mut self, path: &Text, sectors: u64) -> Result<MemDisk, YardFault>
        ensures opens { Opens AtDisk path.now (mem_yard_seen self.old) (mem_yard_seen self.new) result }
        ensures willing { IsTrue (mem_yard_seen self.old).willing → IsErrOf result YardFault.Failed → ⊥ }
        ensures size { IfOk result (λ disk. sectors ≤ (mem_disk_seen disk).sectors) }
        ensures hands { IsTrue (mem_yard_seen self.old).tells.keeps_disks →
            IfOk result (λ disk. HandsOut (kept_at (mem_yard_seen self.old).disks path.now) (mem_disk_seen disk)) }
        ensures refused { IsTrue (list_any (hits path.now) (refusals_of self.old)) → IsErrOf result YardFault.Failed }
        ensures counted { refusals_of self.new ≡ map (after_call path.now) (refusals_of self.old) }
    {
        if self.refusals.is_next_refused(path) {
            self.faults = self.faults.saturating_add(1);
            return Err(YardFault::Failed);
        }
        let Ok(disk) = long_disk(self.alloc, &self.disks, path.as_bytes(), sectors) else {
            return Err(YardFault::NoMemory);
        };
        let Ok(()) = make_disk_entry(self.alloc, &mut self.disks, path) else {
            return Err(YardFault::NoMemory);
        };
        match self.ledger.open(self.alloc, Thing::Disk, path) {
            Ok(()) => Ok(disk),
            Err(_) => Err(YardFault::NoMemory),
        }
    }

    fn passes(&mut self, store: &StorePlan) -> Result<Vec<MemPass>, YardFault>
        ensures opens { Opens AtPasses store.now.path (mem_yard_seen self.old) (mem_yard_seen self.new) result }
        ensures willing { IsTrue (mem_yard_seen self.old).willing → HasFiles (mem_yard_seen self.old).files store.now → IsErrOf result YardFault.Failed → ⊥ }
        ensures blocks { IfOk result (λ passes. AreBlocks store.now.id.geometry (map mem_pass_seen passes.items)) }
        ensures told { IsTrue (mem_yard_seen self.old).tells.keeps_contents →
            IfOk result (λ passes. TellFile store.now.id.geometry (bytes_at (mem_yard_seen self.old).contents store.now.path) (map mem_pass_seen passes.items)) }
        ensures refused { IsTrue (list_any (hits store.now.path) (refusals_of self.old)) → IsErrOf result YardFault.Failed }
        ensures counted { refusals_of self.new ≡ map (after_call store.now.path) (refusals_of self.old) }
    {
        if self.refusals.is_next_refused(&store.path) {
            self.faults = self.faults.saturating_add(1);
            return Err(YardFault::Failed);
        }
        let Ok(()) = make_entry(self.alloc, &mut self.contents, &store.path) else {
            return Err(YardFault::NoMemory);
        };
        let Ok(passes) = passes_at(self.alloc, &self.contents, &store.path, &store.id.geometry)
        else {
            return Err(YardFault::NoMemory);
        };
        match self.ledger.open(self.alloc, Thing::Passes, &store.path) {
            Ok(()) => Ok(passes),
            Err(_) => Err(YardFault::NoMemory),
        }
    }

    fn arm(&mut self, store: &StorePlan) -> Result<MemArm, YardFault>
        ensures opens { Opens AtArm store.now.path (mem_yard_seen self.old) (mem_yard_seen self.new) result }
        ensures willing { IsTrue (mem_yard_seen self.old).willing → IsErrOf result YardFault.Failed → ⊥ }
        ensures fresh { IfOk result (λ arm. (mem_arm_seen arm).faults ≡ 0) }
        ensures none_read { IfOk result (λ arm. (mem_arm_seen arm).good_reads ≡ 0) }
        ensures none_written { IfOk result (λ arm. (mem_arm_seen arm).good_writes ≡ 0) }
        ensures sure { IfOk result (λ arm. (mem_arm_seen arm).sure ≡ (mem_yard_seen self.old).tells.sure AtArm store.now.path) }
        ensures calls { IfOk result (λ arm. calls_of arm ≡
            record { failing = calls_of_number (unwrap_or (kept_at (arms_in self.old) store.now.path) 0) (arm_calls self.old store.now.path); made = 0 }) }
        ensures numbered { (count : ℕ) → kept_at (arms_in self.old) store.now.path ≡ Some count →
            OnOk result (kept_at (arms_in self.new) store.now.path ≡ Some (min (count + 1) (2 ^ 32 - 1))) }
        ensures refused { IsTrue (list_any (hits store.now.path) (refusals_of self.old)) → IsErrOf result YardFault.Failed }
        ensures counted { refusals_of self.new ≡ map (after_call store.now.path) (refusals_of self.old) }
    {
        if self.refusals.is_next_refused(&store.path) {
            self.faults = self.faults.saturating_add(1);
            return Err(YardFault::Failed);
        }
        let Ok(arm) = next_arm(self.alloc, &self.arm_plans, &self.arms_opened, &store.path) else {
            return Err(YardFault::NoMemory);
        };
        match self.ledger.open(self.alloc, Thing::Arm, &store.path) {
            Ok(()) => {
                count_arm(&mut self.arms_opened, &store.path);
                Ok(arm)
            }
            Err(_) => Err(YardFault::NoMemory),
        }
    }

    fn keep_source(&mut self, path: &Text, source: MemSource) {
        self.ledger.close_source(path, source.faults());
    }

    fn keep_disk(&mut self, path: &Text, disk: MemDisk) {
        self.disks.replace(path.as_bytes(), Some(disk));
        self.ledger.close_disk(path);
    }

    fn keep_passes(&mut self, store: &StorePlan, passes: Vec<MemPass>)
        requires { 1 ≤ out_at (mem_yard_seen self.old).out AtPasses store.now.path }
        ensures back { GivesBack AtPasses store.now.path (mem_yard_seen self.old) (mem_yard_seen self.new) }
        ensures counts { (mem_yard_seen self.new).counts ≡ (mem_yard_seen self.old).counts }
        ensures disks { (mem_yard_seen self.new).disks ≡ (mem_yard_seen self.old).disks }
        ensures contents { (mem_yard_seen self.new).contents ≡
            keep_at (mem_yard_seen self.old).tells.keeps_contents (mem_yard_seen self.old).contents store.now.path (told_bytes (map mem_pass_seen passes.items)) }
    {
        self.contents
            .replace(store.path.as_bytes(), Held::Passes(passes));
        self.ledger.close_passes(&store.path);
    }

    fn keep_arm(&mut self, store: &StorePlan, arm: MemArm) {
        self.ledger.close_arm(
            &store.path,
            arm.faults(),
            arm.good_reads(),
            arm.good_writes(),
        );
    }
}

#[cfg(test)]
mod tests {
    use super::*;
    use std::process::Abort;
    use vd_arm::Arm;
    use vd_base::{BlockNo, Geometry, StoreId, StoreName};
    use vd_disk::Disk;
    use vd_outside::Source;

    fn text<R: Abort + AllocGlobal>(rt: &R, of: &str) -> Text {
        Text::from_str(rt.alloc(), of).expect(rt, "memory")
    }

    fn bytes<R: Abort + AllocGlobal>(rt: &R, of: &[u8]) -> Vec<u8> {
        Vec::from_slice(rt.alloc(), of).expect(rt, "memory")
    }

    /// Two blocks of 512 bytes at the path "data".
    fn store<R: Abort + AllocGlobal>(rt: &R) -> StorePlan {
        let name = StoreName::read(b"sd1").expect(rt, "a good name");
        let geometry = Geometry::new(2, 512).expect(rt, "a good geometry");
        StorePlan {
            id: StoreId { name, geometry },
            path: text(rt, "data"),
            journal: text(rt, "data.jnl"),
            threads: 1,
            openflags: text(rt, ""),
        }
    }

    /// Opens a source, reads once and gives it back.
    #[tactic(auto, using(crate::specs::Out::one_more_here))]
    fn read_once(yard: &mut MemYard, path: &Text, out: &mut [u8]) -> Option<usize> {
        match yard.source(path) {
            Ok(mut source) => {
                let count = source.read(out);
                yard.keep_source(path, source);
                count.ok()
            }
            Err(_) => None,
        }
    }

    /// Opens a disk, writes sector 0 and gives it back.
    #[tactic(auto, using(crate::specs::Out::one_more_here))]
    fn write_once(yard: &mut MemYard, path: &Text, byte: u8) -> bool {
        match yard.disk(path) {
            Ok(mut disk) => {
                let is_written = disk.sectors() > 0 && disk.write(0, &[byte; 512]).is_ok();
                yard.keep_disk(path, disk);
                is_written
            }
            Err(_) => false,
        }
    }

    /// Opens or makes a disk of so many sectors, writes the last one and gives it back, and says how many there are.
    #[tactic(auto, using(crate::specs::Out::one_more_here))]
    fn write_last(yard: &mut MemYard, path: &Text, sectors: u64) -> Option<u64> {
        match yard.new_disk(path, sectors) {
            Ok(mut disk) => {
                let there = disk.sectors();
                let is_written = there > 0 && disk.write(there - 1, &[8; 512]).is_ok();
                yard.keep_disk(path, disk);
                if is_written { Some(there) } else { None }
            }
            Err(_) => None,
        }
    }

    /// Opens the passes of a store and gives them back, and says the last byte of block 0 and the first two of block 1.
    #[tactic(auto, using(crate::specs::Out::one_more_here))]
    fn look_at_passes(
        yard: &mut MemYard,
        store: &StorePlan,
    ) -> Option<(Option<u8>, Option<u8>, Option<u8>)> {
        match yard.passes(store) {
            Ok(passes) => {
                let end = passes
                    .get(0)
                    .and_then(|pass| pass.bytes().get(511).copied());
                let first = passes.get(1).and_then(|pass| pass.bytes().get(0).copied());
                let second = passes.get(1).and_then(|pass| pass.bytes().get(1).copied());
                yard.keep_passes(store, passes);
                Some((end, first, second))
            }
            Err(_) => None,
        }
    }

    /// Opens an arm, reads a block of four bytes with it and gives it back.
    #[tactic(auto, using(crate::specs::Out::one_more_here))]
    fn read_by_arm(yard: &mut MemYard, store: &StorePlan, held: Vec<u8>) -> bool
        requires { vec_len held ≡ 4 }
    {
        let pass = MemPass::new(BlockNo(0), held);
        let mut out = [0; 4];
        match yard.arm(store) {
            Ok(mut arm) => {
                let is_read = arm.read(&pass, &mut out).is_ok();
                yard.keep_arm(store, arm);
                is_read
            }
            Err(_) => false,
        }
    }

    #[test]
    fn sources_are_read_and_refused(rt: HostRuntime) {
        let alloc = rt.alloc();
        let mut yard = MemYard::new(alloc);
        let path = text(&rt, "parm");
        yard.put_file(text(&rt, "parm"), bytes(&rt, b"abc"), Vec::new(alloc))
            .expect(&rt, "memory");
        yard.refuse(text(&rt, "parm"), 1).expect(&rt, "memory");
        let mut out = [0; 8];
        assert_eq!(rt; read_once(&mut yard, &path, &mut out), Some(3));
        assert_eq!(rt; &out[..3], b"abc".as_slice());
        assert_eq!(rt; read_once(&mut yard, &path, &mut out), None);
        assert_eq!(rt; read_once(&mut yard, &path, &mut out), Some(3));
        assert_eq!(rt; read_once(&mut yard, &text(&rt, "missing"), &mut out), None);
        assert_eq!(rt; yard.faults(), 2);
    }

    #[test]
    fn what_was_kept_is_found(rt: HostRuntime) {
        let alloc = rt.alloc();
        let mut yard = MemYard::new(alloc);
        let path = text(&rt, "a.jnl");
        assert!(rt; !write_once(&mut yard, &path, 1));
        let disk = MemDisk::new(alloc, 1, Vec::new(alloc)).expect(&rt, "memory");
        yard.put_disk(text(&rt, "a.jnl"), disk)
            .expect(&rt, "memory");
        assert!(rt; write_once(&mut yard, &path, 7));
        let kept = yard
            .disk_at(&path)
            .and_then(|disk| disk.contents().get(0).map(|sector| sector[511]));
        assert_eq!(rt; kept, Some(7));
    }

    #[test]
    fn a_disk_is_made_and_made_longer(rt: HostRuntime) {
        let alloc = rt.alloc();
        let mut yard = MemYard::new(alloc);
        let path = text(&rt, "a.jnl");
        for (sectors, there) in [(2, 2), (1, 2), (4, 4)] {
            assert_eq!(rt;
                write_last(&mut yard, &path, sectors),
                Some(there),
                "{sectors}"
            );
        }
        assert!(rt; write_once(&mut yard, &path, 7));
        let kept = yard.disk_at(&path).expect(&rt, "a disk that came back");
        let bytes: Vec<u8> = kept
            .contents()
            .iter()
            .map(|sector| sector[0])
            .collect(alloc)
            .expect(&rt, "memory");
        assert_eq!(rt; bytes.as_slice(), [7, 8, 0, 8].as_slice());
        // A stop may leave the zeros that the last write found.
        let image = kept.image(alloc, 0).expect(&rt, "memory");
        let first_byte = |at: usize| image.get(at).map(|sector| sector[0]);
        assert_eq!(rt; (first_byte(1), first_byte(3)), (Some(0), Some(0)));
        yard.refuse(text(&rt, "a.jnl"), 0).expect(&rt, "memory");
        assert_eq!(rt; write_last(&mut yard, &path, 1), None);
        assert_eq!(rt; yard.faults(), 1);
    }

    #[test]
    fn data_is_cut_into_blocks(rt: HostRuntime) {
        let alloc = rt.alloc();
        let mut yard = MemYard::new(alloc);
        let store = store(&rt);
        assert_eq!(rt;
            look_at_passes(&mut yard, &store),
            Some((Some(0), Some(0), Some(0)))
        );
        let mut held = vec![in alloc; 5u8; 513].expect(&rt, "memory");
        held.push(6).expect(&rt, "memory");
        let failing = Vec::from_slice(alloc, &[(1, 0, 0)]).expect(&rt, "memory");
        yard.put_data(text(&rt, "data"), held, failing)
            .expect(&rt, "memory");
        assert_eq!(rt;
            look_at_passes(&mut yard, &store),
            Some((Some(5), Some(5), Some(6)))
        );
        let kept = yard.bytes_at(&store.path).expect(&rt, "memory");
        assert_eq!(rt; kept.map(|all| all.len()), Some(1024));
        assert_eq!(rt;
            look_at_passes(&mut yard, &store),
            Some((Some(5), Some(5), Some(6)))
        );
        // The second arm of the path fails in its first call.
        for (number, good) in [(0, true), (1, false), (2, true)] {
            let is_read = read_by_arm(
                &mut yard,
                &store,
                vec![in alloc; 0u8; 4].expect(&rt, "memory"),
            );
            assert_eq!(rt; is_read, good, "arm {number}");
        }
    }
}
