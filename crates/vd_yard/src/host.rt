// The yard of the real files. It tells nothing of contents, and keeps only what is out and the counts.
ghost use Rattle.std.specs.Prelude.{◌≡◌, ◌≤◌, IfOk, IfSome, map};
ghost use Rattle.vd_yard.specs.Contents.{AreBlocks, told_bytes};
ghost use Rattle.vd_yard.specs.Kept.{keep_at};
ghost use Rattle.vd_yard.specs.Out.{AtPasses, out_at};
ghost use Rattle.vd_yard.specs.Yard.{GivesBack};

use crate::ledger::{Ledger, Thing};
use crate::{Yard, YardFault};
use plan_types::StorePlan;
use std::alloc::{AllocError, Global};
use std::fs::File;
use std::io::{Seek, SeekFrom};
use vd_arm::{FileArm, FilePass, Pass};
use vd_base::{BlockNo, Geometry};
use vd_disk::{Disk, FileDisk};
use vd_outside::{FileSource, Text};

/// Real files and devices. What is opened for writing is opened for reading alone where writing is refused, so that a command that only
/// reads does its work there.
#[derive(Drop)]
pub struct HostYard<'a> {
    rt: &'a HostRuntime,
    alloc: Global,
    faults: u64,
    ledger: Ledger,
}

/// Opens a file that is there.
fn opened(rt: &HostRuntime, path: &str) -> Option<File> {
    match File::options().read(true).write(true).open(rt, path) {
        Ok(file) => Some(file),
        Err(_) => File::open(rt, path).ok(),
    }
}

/// Opens a file, and makes it where it isn't there.
fn made(rt: &HostRuntime, path: &str) -> Option<File> {
    let file = File::options()
        .read(true)
        .write(true)
        .create(true)
        .truncate(false)
        .open(rt, path);
    match file {
        Ok(file) => Some(file),
        Err(_) => File::open(rt, path).ok(),
    }
}

/// The bytes of a file or device; a folder has none.
fn length_of(file: &mut File) -> Option<u64> {
    match file.metadata() {
        Ok(data) if !data.is_dir() => file.seek(SeekFrom::End(0)).ok(),
        _ => None,
    }
}

/// Lengthens a file to so many bytes where it is shorter, and says whether it is as long.
fn is_lengthened(file: &mut File, bytes: u64) -> bool {
    match length_of(file) {
        Some(length) => bytes <= length || file.set_len(bytes).is_ok(),
        None => false,
    }
}

/// A disk of the whole sectors of a file that is there.
fn disk_at(rt: &HostRuntime, path: &str) -> Option<FileDisk> {
    let mut file = opened(rt, path)?;
    let length = length_of(&mut file)?;
    Some(FileDisk::new(file, length / 512))
}

/// A disk of at least so many sectors, of a file that is made where it isn't there and lengthened by zeros where it is short.
fn new_disk_at(rt: &HostRuntime, path: &str, sectors: u64) -> Option<FileDisk>
    ensures { IfSome result (λ disk. sectors ≤ (⟦<FileDisk as Disk>⟧.seen disk).sectors) }
{
    let bytes = sectors.checked_mul(512)?;
    let mut file = made(rt, path)?;
    if !is_lengthened(&mut file, bytes) {
        return None;
    }
    let there = length_of(&mut file)? / 512;
    if there < sectors {
        return None;
    }
    Some(FileDisk::new(file, there))
}

/// Whether the file of a store could be made as long as the store, or is.
fn is_ready(rt: &HostRuntime, path: &str, geometry: &Geometry) -> bool {
    let bytes = geometry.blocks() as u64 * geometry.block_size() as u64;
    match made(rt, path) {
        Some(mut file) => is_lengthened(&mut file, bytes),
        None => false,
    }
}

fn passes_of(alloc: Global, geometry: &Geometry) -> Result<Vec<FilePass>, AllocError>
    ensures { IfOk result (λ passes. AreBlocks geometry.now (map ⟦<FilePass as Pass>⟧.seen passes.items)) }
{
    let size = geometry.block_size();
    let mut passes = Vec::new(alloc);
    for block in 0..geometry.blocks() {
        passes.push(FilePass::new(BlockNo(block), size))?;
    }
    Ok(passes)
}

impl<'a> HostYard<'a> {
    ghost use Rattle.vd_yard.specs.HostYard.{host_yard_seen};
    ghost use Rattle.vd_yard.specs.Counts.{no_counts};
    ghost use Rattle.vd_yard.specs.Out.{nothing_out};

    /// Nothing is out, and no fault is counted.
    pub fn new(rt: &'a HostRuntime) -> HostYard<'a>
        ensures faults { (host_yard_seen result).faults ≡ 0 }
        ensures out { (host_yard_seen result).out ≡ nothing_out }
        ensures counts { (host_yard_seen result).counts ≡ no_counts }
    {
        let alloc = rt.alloc();
        HostYard {
            rt,
            alloc,
            faults: 0,
            ledger: Ledger::new(alloc),
        }
    }
}

impl<'a> Yard for HostYard<'a> {
    ghost use Rattle.vd_yard.specs.HostYard.{host_yard_seen};

    type Source = FileSource;

    type Disk = FileDisk;

    type Arm = FileArm;

    ghost seen = { host_yard_seen };

    fn source(&mut self, path: &Text) -> Result<FileSource, YardFault> {
        let Ok(file) = File::open(self.rt, path.as_str()) else {
            self.faults = self.faults.saturating_add(1);
            return Err(YardFault::Failed);
        };
        match self.ledger.open(self.alloc, Thing::Source, path) {
            Ok(()) => Ok(FileSource::new(file)),
            Err(_) => Err(YardFault::NoMemory),
        }
    }

    fn disk(&mut self, path: &Text) -> Result<FileDisk, YardFault> {
        let Some(disk) = disk_at(self.rt, path.as_str()) else {
            self.faults = self.faults.saturating_add(1);
            return Err(YardFault::Failed);
        };
        match self.ledger.open(self.alloc, Thing::Disk, path) {
            Ok(()) => Ok(disk),
            Err(_) => Err(YardFault::NoMemory),
        }
    }

    fn new_disk(&mut self, path: &Text, sectors: u64) -> Result<FileDisk, YardFault> {
        let Some(disk) = new_disk_at(self.rt, path.as_str(), sectors) else {
            self.faults = self.faults.saturating_add(1);
            return Err(YardFault::Failed);
        };
        match self.ledger.open(self.alloc, Thing::Disk, path) {
            Ok(()) => Ok(disk),
            Err(_) => Err(YardFault::NoMemory),
        }
    }

    fn passes(&mut self, store: &StorePlan) -> Result<Vec<FilePass>, YardFault> {
        if !is_ready(self.rt, store.path.as_str(), &store.id.geometry) {
            self.faults = self.faults.saturating_add(1);
            return Err(YardFault::Failed);
        }
        let Ok(passes) = passes_of(self.alloc, &store.id.geometry) else {
            return Err(YardFault::NoMemory);
        };
        match self.ledger.open(self.alloc, Thing::Passes, &store.path) {
            Ok(()) => Ok(passes),
            Err(_) => Err(YardFault::NoMemory),
        }
    }

    fn arm(&mut self, store: &StorePlan) -> Result<FileArm, YardFault> {
        let Some(file) = opened(self.rt, store.path.as_str()) else {
            self.faults = self.faults.saturating_add(1);
            return Err(YardFault::Failed);
        };
        match self.ledger.open(self.alloc, Thing::Arm, &store.path) {
            Ok(()) => Ok(FileArm::new(file)),
            Err(_) => Err(YardFault::NoMemory),
        }
    }

    fn keep_source(&mut self, path: &Text, source: FileSource) {
        self.ledger.close_source(path, source.faults());
    }

    fn keep_disk(&mut self, path: &Text, disk: FileDisk) {
        let _ = disk;
        self.ledger.close_disk(path);
    }

    fn keep_passes(&mut self, store: &StorePlan, passes: Vec<FilePass>)
        requires { 1 ≤ out_at (host_yard_seen self.old).out AtPasses store.now.path }
        ensures back { GivesBack AtPasses store.now.path (host_yard_seen self.old) (host_yard_seen self.new) }
        ensures counts { (host_yard_seen self.new).counts ≡ (host_yard_seen self.old).counts }
        ensures disks { (host_yard_seen self.new).disks ≡ (host_yard_seen self.old).disks }
        ensures contents { (host_yard_seen self.new).contents ≡
            keep_at (host_yard_seen self.old).tells.keeps_contents (host_yard_seen self.old).contents store.now.path (told_bytes (map ⟦<FilePass as Pass>⟧.seen passes.items)) }
    {
        let _ = passes;
        self.ledger.close_passes(&store.path);
    }

    fn keep_arm(&mut self, store: &StorePlan, arm: FileArm) {
        self.ledger.close_arm(
            &store.path,
            arm.faults(),
            arm.good_reads(),
            arm.good_writes(),
        );
    }
}

#[cfg(test)]
mod tests {
    use super::*;
    use std::process::Abort;
    use std::{env, fs};
    use vd_arm::Arm;
    use vd_base::{StoreId, StoreName};
    use vd_outside::Source;

    fn text<R: Abort + AllocGlobal>(rt: &R, of: &str) -> Text {
        Text::from_str(rt.alloc(), of).expect(rt, "memory")
    }

    #[tactic(auto, using(crate::specs::Out::one_more_here))]
    fn read_once(yard: &mut HostYard<'_>, path: &Text, out: &mut [u8]) -> Option<usize> {
        match yard.source(path) {
            Ok(mut source) => {
                let count = source.read(out);
                yard.keep_source(path, source);
                count.ok()
            }
            Err(_) => None,
        }
    }

    #[tactic(auto, using(crate::specs::Out::one_more_here))]
    fn sectors_at(yard: &mut HostYard<'_>, path: &Text) -> Option<u64> {
        match yard.disk(path) {
            Ok(disk) => {
                let sectors = disk.sectors();
                yard.keep_disk(path, disk);
                Some(sectors)
            }
            Err(_) => None,
        }
    }

    #[tactic(auto, using(crate::specs::Out::one_more_here))]
    fn new_sectors_at(yard: &mut HostYard<'_>, path: &Text, sectors: u64) -> Option<u64> {
        match yard.new_disk(path, sectors) {
            Ok(disk) => {
                let sectors = disk.sectors();
                yard.keep_disk(path, disk);
                Some(sectors)
            }
            Err(_) => None,
        }
    }

    #[tactic(auto, using(crate::specs::Out::one_more_here))]
    fn count_passes(yard: &mut HostYard<'_>, store: &StorePlan) -> Option<usize> {
        match yard.passes(store) {
            Ok(passes) => {
                let count = passes.len();
                yard.keep_passes(store, passes);
                Some(count)
            }
            Err(_) => None,
        }
    }

    #[tactic(auto, using(crate::specs::Out::one_more_here))]
    fn read_by_arm(yard: &mut HostYard<'_>, store: &StorePlan, block: u32) -> Option<u8> {
        let pass = FilePass::new(BlockNo(block), 512);
        let mut out = [1; 512];
        match yard.arm(store) {
            Ok(mut arm) => {
                let is_read = arm.read(&pass, &mut out).is_ok();
                yard.keep_arm(store, arm);
                if is_read { Some(out[511]) } else { None }
            }
            Err(_) => None,
        }
    }

    #[test]
    fn real_files_are_opened_and_given_back(rt: HostRuntime) {
        let name = StoreName::read(b"sd1").expect(&rt, "a good name");
        let geometry = Geometry::new(3, 512).expect(&rt, "a good geometry");
        let temporary = env::temp_dir(&rt).expect(&rt, "a folder for temporary files");
        let path = temporary
            .join(rt.alloc(), "vd_yard_host_test")
            .expect(&rt, "memory");
        let store = StorePlan {
            id: StoreId { name, geometry },
            path: text(&rt, path.as_str()),
            journal: text(&rt, ""),
            threads: 1,
            openflags: text(&rt, ""),
        };
        let mut yard = HostYard::new(&rt);
        let mut out = [1; 8];
        assert_eq!(rt; sectors_at(&mut yard, &store.path), None);
        // The file is made, then long enough, and never shortened.
        assert_eq!(rt; count_passes(&mut yard, &store), Some(3));
        assert_eq!(rt; sectors_at(&mut yard, &store.path), Some(3));
        fs::write(&rt, store.path.as_str(), [9u8; 2100]).expect(&rt, "the file that was just made");
        assert_eq!(rt; count_passes(&mut yard, &store), Some(3));
        assert_eq!(rt; sectors_at(&mut yard, &store.path), Some(4));
        assert_eq!(rt; read_once(&mut yard, &store.path, &mut out), Some(8));
        assert_eq!(rt; out[7], 9);
        assert_eq!(rt; read_by_arm(&mut yard, &store, 2), Some(9));
        assert_eq!(rt; read_by_arm(&mut yard, &store, 4), None);
        fs::remove_file(&rt, store.path.as_str()).expect(&rt, "the file that was just made");
        assert_eq!(rt; read_once(&mut yard, &store.path, &mut out), None);
        // A disk is made, then long enough, and never shortened.
        for (sectors, there) in [(2, Some(2)), (5, Some(5)), (1, Some(5)), (u64::MAX, None)] {
            assert_eq!(rt; new_sectors_at(&mut yard, &store.path, sectors), there);
        }
        fs::remove_file(&rt, store.path.as_str()).expect(&rt, "the disk that was just made");
        assert_eq!(rt; sectors_at(&mut yard, &text(&rt, temporary.as_str())), None);
    }
}
