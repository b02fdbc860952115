// A file that a yard in memory hands out as a source.
ghost use Rattle.std.specs.Prelude.{◌≡◌, IfOk, Some};
ghost use Rattle.vd_outside.specs.Memory.{reads_of};
ghost use Rattle.vd_outside.specs.Streams.{is_empty};

use std::alloc::{AllocError, Global};
use vd_outside::{MemSource, Source};

/// A file that is read from its first byte: its bytes, and the numbers of the reads that fail.
#[derive(Drop)]
pub struct SourceFile {
    bytes: Vec<u8>,
    failing: Vec<u64>,
}

impl SourceFile {
    ghost use Rattle.vd_yard.specs.SourceFile.{file_bytes, file_failing, file_sure};

    /// A file of these bytes, whose reads with these numbers, from 0, fail.
    pub fn new(bytes: Vec<u8>, failing: Vec<u64>) -> SourceFile
        ensures bytes { file_bytes (Some result) ≡ Some bytes.items }
        ensures sure { file_sure (Some result) ≡ is_empty failing.items }
        ensures failing { file_failing (Some result) ≡ failing.items }
    {
        SourceFile { bytes, failing }
    }

    /// A source of the file's bytes.
    pub fn open(&self, alloc: Global) -> Result<MemSource, AllocError>
        ensures left { IfOk result (λ source. ⟦<MemSource as Source>⟧.left source ≡ file_bytes (Some self.now)) }
        ensures faults { IfOk result (λ source. ⟦<MemSource as Source>⟧.faults source ≡ 0) }
        ensures sure { IfOk result (λ source. ⟦<MemSource as Source>⟧.sure source ≡ file_sure (Some self.now)) }
        ensures reads { IfOk result (λ source. reads_of source ≡ record { failing = file_failing (Some self.now); made = 0 }) }
    {
        let bytes = self.bytes.to_vec(alloc)?;
        let failing = self.failing.to_vec(alloc)?;
        Ok(MemSource::new(bytes, failing))
    }
}
