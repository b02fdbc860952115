// Passes and an arm over a real file or device. They tell nothing.
ghost use Rattle.std.specs.Prelude.{◌≡◌, None, false};

use crate::{Arm, Pass};
use std::fs::File;
use std::os::unix::fs::FileExt;
use vd_base::BlockNo;
use vd_outside::Failed;

/// The right to one block of a file: where it is and how many bytes it has.
#[derive(Drop)]
pub struct FilePass {
    block: BlockNo,
    size: u32,
}

impl FilePass {
    /// The pass of a block of so many bytes.
    pub fn new(block: BlockNo, size: u32) -> FilePass
        ensures { ⟦<FilePass as Pass>⟧.seen result ≡ record { block = block.0; size = size; told = None } }
    {
        FilePass { block, size }
    }
}

impl Pass for FilePass {
    ghost use Rattle.vd_arm.specs.FileArm.{file_pass_seen, file_pass_tells};

    ghost seen = { file_pass_seen };

    ghost as_many = { file_pass_tells };

    fn block(&self) -> BlockNo {
        self.block
    }
}

/// A way to an open file: block i is the bytes from i times the block size on.
#[derive(Drop)]
pub struct FileArm {
    file: File,
    faults: u64,
    good_reads: u64,
    good_writes: u64,
}

impl FileArm {
    /// A read behind the file's end is a fault.
    pub fn new(file: File) -> FileArm
        ensures { ⟦<FileArm as Arm>⟧.seen result ≡ record { faults = 0; good_reads = 0; good_writes = 0; sure = false } }
    {
        FileArm {
            file,
            faults: 0,
            good_reads: 0,
            good_writes: 0,
        }
    }

    /// How often a call failed.
    pub fn faults(&self) -> u64
        ensures { result ≡ (⟦<FileArm as Arm>⟧.seen self.now).faults }
    {
        self.faults
    }

    /// How many blocks were read well, modulo 2^64.
    pub fn good_reads(&self) -> u64
        ensures { result ≡ (⟦<FileArm as Arm>⟧.seen self.now).good_reads }
    {
        self.good_reads
    }

    /// How many blocks were written well, modulo 2^64.
    pub fn good_writes(&self) -> u64
        ensures { result ≡ (⟦<FileArm as Arm>⟧.seen self.now).good_writes }
    {
        self.good_writes
    }
}

impl Arm for FileArm {
    type Pass = FilePass;

    ghost seen = { λ arm. record { faults = arm.faults; good_reads = arm.good_reads; good_writes = arm.good_writes; sure = false } };

    fn read(&mut self, pass: &FilePass, out: &mut [u8]) -> Result<(), Failed> {
        let place = pass.block.0 as u64 * pass.size as u64;
        match self.file.read_exact_at(out, place) {
            Ok(()) => {
                self.good_reads = self.good_reads.wrapping_add(1);
                Ok(())
            }
            Err(_) => {
                self.faults = self.faults.saturating_add(1);
                Err(Failed)
            }
        }
    }

    fn read_run(&mut self, passes: &mut [FilePass], out: &mut [u8]) -> Result<(), Failed> {
        let place = passes[0].block.0 as u64 * passes[0].size as u64;
        if self.file.read_exact_at(out, place).is_err() {
            self.faults = self.faults.saturating_add(1);
            return Err(Failed);
        }
        self.good_reads = self.good_reads.wrapping_add(passes.len() as u64);
        Ok(())
    }

    fn write_run(&mut self, passes: &mut [FilePass], bytes: &[u8]) -> Result<(), Failed> {
        let place = passes[0].block.0 as u64 * passes[0].size as u64;
        if !is_written(&self.file, bytes, place) {
            self.faults = self.faults.saturating_add(1);
            return Err(Failed);
        }
        self.good_writes = self.good_writes.wrapping_add(passes.len() as u64);
        Ok(())
    }
}

/// Writes at a place of a file, and then asks that what was written is on the device.
fn is_written(file: &File, bytes: &[u8], place: u64) -> bool {
    file.write_all_at(bytes, place).is_ok() && file.sync_data().is_ok()
}

#[cfg(test)]
mod tests {
    use super::*;
    use std::{env, fs};

    #[test]
    fn blocks_are_read_at_their_places(rt: HostRuntime) {
        let path = env::temp_dir(&rt)
            .expect(&rt, "a folder for temporary files")
            .join(rt.alloc(), "vd_arm_file_test")
            .expect(&rt, "memory");
        let path = path.as_str();
        fs::write(&rt, path, b"aaaabbbbcc").expect(&rt, "a folder for temporary files");
        let file = File::open(&rt, path).expect(&rt, "the file that was just made");
        let mut arm = FileArm::new(file);
        let mut out = [0; 4];
        assert!(rt; arm.read(&FilePass::new(BlockNo(1), 4), &mut out).is_ok());
        assert_eq!(rt; &out, b"bbbb");
        assert!(rt; arm.read(&FilePass::new(BlockNo(0), 4), &mut out).is_ok());
        assert_eq!(rt; &out, b"aaaa");
        // The file ends inside block 2.
        assert!(rt; arm.read(&FilePass::new(BlockNo(2), 4), &mut out).is_err());
        assert_eq!(rt;
            (arm.faults(), arm.good_reads(), arm.good_writes()),
            (1, 2, 0)
        );
        fs::remove_file(&rt, path).expect(&rt, "the file that was just made");
    }

    #[test]
    fn runs_are_written_at_their_places(rt: HostRuntime) {
        let path = env::temp_dir(&rt)
            .expect(&rt, "a folder for temporary files")
            .join(rt.alloc(), "vd_arm_file_run_test")
            .expect(&rt, "memory");
        let path = path.as_str();
        fs::write(&rt, path, b"aaaabbbbccccdddd").expect(&rt, "a folder for temporary files");
        let file = File::options()
            .read(true)
            .write(true)
            .open(&rt, path)
            .expect(&rt, "the file that was just made");
        let mut arm = FileArm::new(file);
        let mut passes = [FilePass::new(BlockNo(1), 4), FilePass::new(BlockNo(2), 4)];
        let mut out = [0; 8];
        assert!(rt; arm.write_run(&mut passes, b"BBBBCCCC").is_ok());
        assert!(rt; arm.read_run(&mut passes, &mut out).is_ok());
        assert_eq!(rt; &out, b"BBBBCCCC");
        let whole = fs::read(&rt, path).expect(&rt, "the file that was just made");
        assert_eq!(rt; whole.as_slice(), b"aaaaBBBBCCCCdddd".as_slice());
        assert_eq!(rt; (arm.good_reads(), arm.good_writes()), (2, 2));
        fs::remove_file(&rt, path).expect(&rt, "the file that was just made");
    }
}
