// The real file and the standard output. They tell nothing of contents.
ghost use Rattle.std.specs.Prelude.{◌≡◌, None, false};

use crate::{Failed, Sink, Source};
use std::fs::File;
use std::io::{Read, Write};

/// An open file, read from where it stands.
#[derive(Drop)]
pub struct FileSource {
    file: File,
    faults: u64,
}

impl FileSource {
    /// No fault is counted yet.
    pub fn new(file: File) -> FileSource
        ensures left { ⟦<FileSource as Source>⟧.left result ≡ None }
        ensures faults { ⟦<FileSource as Source>⟧.faults result ≡ 0 }
        ensures sure { ⟦<FileSource as Source>⟧.sure result ≡ false }
    {
        FileSource { file, faults: 0 }
    }

    /// How often a read has failed.
    pub fn faults(&self) -> u64
        ensures { result ≡ ⟦<FileSource as Source>⟧.faults self.now }
    {
        self.faults
    }
}

impl Source for FileSource {
    ghost left = { λ _. None };

    ghost faults = { λ source. source.faults };

    ghost sure = { λ _. false };

    fn read(&mut self, out: &mut [u8]) -> Result<usize, Failed> {
        match self.file.read(out) {
            Ok(count) => Ok(count),
            Err(_) => {
                self.faults = self.faults.saturating_add(1);
                Err(Failed)
            }
        }
    }
}

/// A writer of std, such as the standard output. What a write has taken is handed on before it answers.
#[derive(Drop)]
pub struct StdSink<W: Write + Drop> {
    inner: W,
    faults: u64,
}

impl<W: Write + Drop> StdSink<W> {
    /// No fault is counted yet.
    pub fn new(inner: W) -> StdSink<W>
        ensures taken { ⟦<StdSink<W> as Sink>⟧.taken result ≡ None }
        ensures faults { ⟦<StdSink<W> as Sink>⟧.faults result ≡ 0 }
    {
        StdSink { inner, faults: 0 }
    }

    /// Writes all; a write that takes nothing is a failure, and one that was interrupted is tried again.
    fn is_written(&mut self, bytes: &[u8]) -> bool
        ensures { self.new.faults ≡ self.old.faults }
    {
        self.inner.write_all(bytes).is_ok() && self.inner.flush().is_ok()
    }
}

impl<W: Write + Drop> Sink for StdSink<W> {
    ghost taken = { λ _. None };

    ghost faults = { λ sink. sink.faults };

    fn write(&mut self, bytes: &[u8]) -> Result<(), Failed> {
        if self.is_written(bytes) {
            return Ok(());
        }
        self.faults = self.faults.saturating_add(1);
        Err(Failed)
    }
}

#[cfg(test)]
mod tests {
    use super::*;
    use std::{env, fs};

    /// Takes two bytes a write, and none once it holds its limit.
    #[derive(Drop)]
    struct Narrow {
        taken: usize,
        limit: usize,
    }

    impl Write for Narrow {
        fn write(&mut self, bytes: &[u8]) -> std::io::Result<usize> {
            let count = bytes
                .len()
                .min(2)
                .min(self.limit.saturating_sub(self.taken));
            self.taken = self.taken.saturating_add(count);
            Ok(count)
        }

        fn flush(&mut self) -> std::io::Result<()> {
            Ok(())
        }
    }

    #[test]
    fn a_sink_writes_on_until_nothing_is_taken(rt: HostRuntime) {
        let mut sink = StdSink::new(Narrow { taken: 0, limit: 7 });
        assert!(rt; sink.write(b"hello").is_ok());
        assert_eq!(rt; (sink.inner.taken, sink.faults), (5, 0));
        assert!(rt; sink.write(b"world").is_err());
        assert_eq!(rt; (sink.inner.taken, sink.faults), (7, 1));
    }

    #[test]
    fn a_file_is_read_to_its_end(rt: HostRuntime) {
        let path = env::temp_dir(&rt)
            .expect(&rt, "a folder for temporary files")
            .join(rt.alloc(), "vd_outside_source_test")
            .expect(&rt, "memory");
        let path = path.as_str();
        fs::write(&rt, path, b"abc").expect(&rt, "a folder for temporary files");
        let file = File::open(&rt, path).expect(&rt, "the file that was just made");
        let mut source = FileSource::new(file);
        let mut out = [0; 8];
        assert_eq!(rt; source.read(&mut out).ok(), Some(3));
        assert_eq!(rt; &out[..3], b"abc".as_slice());
        assert_eq!(rt; source.read(&mut out).ok(), Some(0));
        assert_eq!(rt; source.faults(), 0);
        fs::remove_file(&rt, path).expect(&rt, "the file that was just made");
        // A folder can be opened, and no read of it goes well.
        let temporary = env::temp_dir(&rt).expect(&rt, "a folder for temporary files");
        let folder = File::open(&rt, temporary.as_str()).expect(&rt, "a folder that is there");
        let mut source = FileSource::new(folder);
        assert!(rt; source.read(&mut out).is_err());
        assert_eq!(rt; source.faults(), 1);
    }
}
