// A disk that is a real file or device. It tells nothing.
ghost use Rattle.std.specs.Prelude.{◌≡◌, None, false, []};

use crate::Disk;
use std::fs::File;
use std::os::unix::fs::FileExt;
use vd_base::Sector;
use vd_outside::Failed;

/// The first sectors of an open file: sector i is its bytes from 512 * i on.
#[derive(Drop)]
pub struct FileDisk {
    file: File,
    sectors: u64,
    faults: u64,
}

impl FileDisk {
    /// A disk of so many sectors. A file that is shorter makes faults where it ends.
    pub fn new(file: File, sectors: u64) -> FileDisk
        ensures { ⟦<FileDisk as Disk>⟧.seen result ≡ record { sectors = sectors; told = None; faults = 0; sure = false; moments = [] } }
    {
        FileDisk {
            file,
            sectors,
            faults: 0,
        }
    }

    fn read_at(&self, at: u64, out: &mut Sector) -> bool {
        match at.checked_mul(512) {
            Some(place) => self.file.read_exact_at(out, place).is_ok(),
            None => false,
        }
    }

    fn write_at(&self, at: u64, bytes: &Sector) -> bool {
        match at.checked_mul(512) {
            Some(place) => self.file.write_all_at(bytes, place).is_ok(),
            None => false,
        }
    }
}

impl Disk for FileDisk {
    ghost use Rattle.vd_disk.specs.Tale.{none_told, none_left};

    ghost seen = { λ disk. record { sectors = disk.sectors; told = None; faults = disk.faults; sure = false; moments = [] } };

    ghost is_tale = { λ disk sectors is. absurd (none_told sectors is) };

    ghost untold = { λ disk is. none_left };

    fn sectors(&self) -> u64 {
        self.sectors
    }

    fn read(&mut self, at: u64, out: &mut Sector) -> Result<(), Failed> {
        if self.read_at(at, out) {
            return Ok(());
        }
        self.faults = self.faults.saturating_add(1);
        Err(Failed)
    }

    fn write(&mut self, at: u64, bytes: &Sector) -> Result<(), Failed> {
        if self.write_at(at, bytes) {
            return Ok(());
        }
        self.faults = self.faults.saturating_add(1);
        Err(Failed)
    }

    fn sync(&mut self) -> Result<(), Failed> {
        if self.file.sync_data().is_ok() {
            return Ok(());
        }
        self.faults = self.faults.saturating_add(1);
        Err(Failed)
    }
}

#[cfg(test)]
mod tests {
    use super::*;
    use std::{env, fs};

    #[test]
    fn a_real_file_is_written_and_read(rt: HostRuntime) {
        let path = env::temp_dir(&rt)
            .expect(&rt, "a folder for temporary files")
            .join(rt.alloc(), "vd_disk_file_test")
            .expect(&rt, "memory");
        let path = path.as_str();
        fs::write(&rt, path, [7u8; 1024]).expect(&rt, "a folder for temporary files");
        let file = File::options()
            .read(true)
            .write(true)
            .open(&rt, path)
            .expect(&rt, "the file that was just made");
        let mut disk = FileDisk::new(file, 3);
        assert_eq!(rt; disk.sectors(), 3);
        disk.write(1, &[9; 512])
            .expect(&rt, "a write inside the file");
        disk.sync().expect(&rt, "a sync");
        let mut out = [0; 512];
        disk.read(1, &mut out).expect(&rt, "a read inside the file");
        assert_eq!(rt; (out[0], out[511]), (9, 9));
        disk.read(0, &mut out).expect(&rt, "a read inside the file");
        assert_eq!(rt; (out[0], out[511]), (7, 7));
        assert!(rt; disk.read(2, &mut out).is_err());
        disk.write(2, &[5; 512])
            .expect(&rt, "a write behind the file's end makes it longer");
        disk.read(2, &mut out).expect(&rt, "a read inside the file");
        assert_eq!(rt; out[0], 5);
        fs::remove_file(&rt, path).expect(&rt, "the file that was just made");
    }
}
