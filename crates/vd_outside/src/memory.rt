// A source and a sink in memory, with lists of calls that fail.
ghost use Rattle.std.specs.Prelude.{◌≡◌, ◌≤◌, Some, [], drop, vec_len};
ghost use Rattle.vd_outside.specs.Streams.{is_empty};

use crate::{Failed, Sink, Source};
use std::alloc::Global;

/// A source of bytes in memory, whose listed reads fail.
#[derive(Drop)]
pub struct MemSource {
    bytes: Vec<u8>,
    failing: Vec<u64>,
    at: usize,
    calls: u64,
    faults: u64,
    ghost in_range: { at ≤ vec_len bytes },
}

impl MemSource {
    ghost use Rattle.vd_outside.specs.Memory.{reads_of};

    /// A source of these bytes, whose reads with these numbers, from 0, fail.
    pub fn new(bytes: Vec<u8>, failing: Vec<u64>) -> MemSource
        ensures left { ⟦<MemSource as Source>⟧.left result ≡ Some bytes.items }
        ensures faults { ⟦<MemSource as Source>⟧.faults result ≡ 0 }
        ensures sure { ⟦<MemSource as Source>⟧.sure result ≡ is_empty failing.items }
        ensures calls { reads_of result ≡ record { failing = failing.items; made = 0 } }
    {
        MemSource {
            bytes,
            failing,
            at: 0,
            calls: 0,
            faults: 0,
        }
    }

    /// How often a read has failed.
    pub fn faults(&self) -> u64
        ensures { result ≡ ⟦<MemSource as Source>⟧.faults self.now }
    {
        self.faults
    }
}

impl Source for MemSource {
    ghost use Rattle.std.specs.Io.KnownBytes.{ReadConsumes};
    ghost use Rattle.std.specs.Io.{ReadsAtMost};
    ghost use Rattle.std.specs.Prelude.{◌↔◌, IsErr, IsTrue, OnErr};
    ghost use Rattle.vd_outside.specs.Causes.{HasCause, StaysSure};
    ghost use Rattle.vd_outside.specs.Memory.{fails_now, one_more, reads_of};

    ghost left = { λ source. Some (drop source.at source.bytes.items) };

    ghost faults = { λ source. source.faults };

    ghost sure = { λ source. is_empty source.failing.items };

    fn read(&mut self, out: &mut [u8]) -> Result<usize, Failed>
        ensures bound { ReadsAtMost result out.new }
        ensures bytes { ReadConsumes (⟦<MemSource as Source>⟧.left self.old) (⟦<MemSource as Source>⟧.left self.new) result out.new }
        ensures cause { HasCause (⟦<MemSource as Source>⟧.faults self.old) (⟦<MemSource as Source>⟧.faults self.new) result }
        ensures sure { StaysSure (⟦<MemSource as Source>⟧.sure self.old) (⟦<MemSource as Source>⟧.sure self.new)
            (⟦<MemSource as Source>⟧.faults self.old) (⟦<MemSource as Source>⟧.faults self.new) }
        ensures fails { IsErr result ↔ IsTrue (fails_now (reads_of self.old)) }
        ensures counted { reads_of self.new ≡ one_more (reads_of self.old) }
        ensures kept { OnErr result (⟦<MemSource as Source>⟧.left self.new ≡ ⟦<MemSource as Source>⟧.left self.old) }
    {
        let call = self.calls;
        self.calls = self.calls.saturating_add(1);
        if self.failing.contains(&call) {
            self.faults = self.faults.saturating_add(1);
            return Err(Failed);
        }
        let count = out.len().min(self.bytes.len() - self.at);
        out[..count].copy_from_slice(&self.bytes[self.at..self.at + count]);
        self.at += count;
        Ok(count)
    }
}

/// A sink into memory, whose listed writes fail, as does one that finds no memory.
#[derive(Drop)]
pub struct MemSink {
    bytes: Vec<u8>,
    failing: Vec<u64>,
    calls: u64,
    faults: u64,
}

impl MemSink {
    ghost use Rattle.vd_outside.specs.Memory.{writes_of};

    /// An empty sink, whose writes with these numbers, from 0, fail.
    pub fn new(alloc: Global, failing: Vec<u64>) -> MemSink
        ensures taken { ⟦<MemSink as Sink>⟧.taken result ≡ Some [] }
        ensures faults { ⟦<MemSink as Sink>⟧.faults result ≡ 0 }
        ensures calls { writes_of result ≡ record { failing = failing.items; made = 0 } }
    {
        MemSink {
            bytes: Vec::new(alloc),
            failing,
            calls: 0,
            faults: 0,
        }
    }

    /// The bytes taken.
    pub fn bytes(&self) -> &[u8]
        ensures { ⟦<MemSink as Sink>⟧.taken self.now ≡ Some result.now }
    {
        self.bytes.as_slice()
    }

    /// How often a write has failed.
    pub fn faults(&self) -> u64
        ensures { result ≡ ⟦<MemSink as Sink>⟧.faults self.now }
    {
        self.faults
    }
}

impl Sink for MemSink {
    ghost use Rattle.std.specs.Prelude.{IsErr, IsTrue, OnErr};
    ghost use Rattle.vd_outside.specs.Causes.{HasCause};
    ghost use Rattle.vd_outside.specs.Memory.{fails_now, one_more, writes_of};
    ghost use Rattle.vd_outside.specs.Streams.{Takes};

    ghost taken = { λ sink. Some sink.bytes.items };

    ghost faults = { λ sink. sink.faults };

    fn write(&mut self, bytes: &[u8]) -> Result<(), Failed>
        ensures bytes { Takes (⟦<MemSink as Sink>⟧.taken self.old) (⟦<MemSink as Sink>⟧.taken self.new) result bytes.now }
        ensures cause { HasCause (⟦<MemSink as Sink>⟧.faults self.old) (⟦<MemSink as Sink>⟧.faults self.new) result }
        ensures fails { IsTrue (fails_now (writes_of self.old)) → IsErr result }
        ensures counted { writes_of self.new ≡ one_more (writes_of self.old) }
        ensures kept { OnErr result (⟦<MemSink as Sink>⟧.taken self.new ≡ ⟦<MemSink as Sink>⟧.taken self.old) }
    {
        let call = self.calls;
        self.calls = self.calls.saturating_add(1);
        if self.failing.contains(&call) || self.bytes.extend_from_slice(bytes).is_err() {
            self.faults = self.faults.saturating_add(1);
            return Err(Failed);
        }
        Ok(())
    }
}

#[cfg(test)]
mod tests {
    use super::*;

    #[test]
    fn listed_reads_fail(rt: HostRuntime) {
        let alloc = rt.alloc();
        let bytes = Vec::from_slice(alloc, b"hello").expect(&rt, "memory");
        let failing = Vec::from_slice(alloc, &[1]).expect(&rt, "memory");
        let mut source = MemSource::new(bytes, failing);
        let mut out = [0; 3];
        assert_eq!(rt; source.read(&mut out).ok(), Some(3));
        assert_eq!(rt; &out, b"hel");
        assert_eq!(rt; source.read(&mut out).ok(), None);
        assert_eq!(rt; source.read(&mut out).ok(), Some(2));
        assert_eq!(rt; &out[..2], b"lo".as_slice());
        assert_eq!(rt; source.read(&mut out).ok(), Some(0));
        assert_eq!(rt; source.faults(), 1);
    }

    #[test]
    fn listed_writes_fail(rt: HostRuntime) {
        let alloc = rt.alloc();
        let failing = Vec::from_slice(alloc, &[1]).expect(&rt, "memory");
        let mut sink = MemSink::new(alloc, failing);
        assert!(rt; sink.write(b"ab").is_ok());
        assert!(rt; sink.write(b"cd").is_err());
        assert!(rt; sink.write(b"ef").is_ok());
        assert_eq!(rt; sink.bytes(), b"abef".as_slice());
        assert_eq!(rt; sink.faults(), 1);
    }
}
