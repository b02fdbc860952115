//! The outside: where bytes come from and go to, with a count of faults, and what time it is.
//!
//! `Source` and `Sink` say what the layers above may rely on: the bytes, where they are told, and that a call fails only where the
//! count of faults rose. `MemSource` and `MemSink` meet them in memory and tell all; `FileSource` and `StdSink` are the real ones and
//! tell nothing. `Clock` is what a worker reads and rests by; `MemClock` goes by fixed steps, `SystemClock` is the real one. `Text` is a text that contracts see as its bytes. It stands on std alone.
#![tactic(auto)]

pub mod clock;
pub mod memory;
pub mod real;
pub mod text;

ghost use Rattle.std.specs.Io.KnownBytes.{ReadConsumes};
ghost use Rattle.std.specs.Io.{ReadsAtMost};
ghost use Rattle.std.specs.Prelude.{Bool, List, Option, ℕ};
ghost use Rattle.vd_outside.specs.Causes.{HasCause, StaysSure};
ghost use Rattle.vd_outside.specs.Streams.{Takes};

pub use clock::{Clock, MemClock, OpenGate, SystemClock, Turnstile, Twin};
pub use memory::{MemSink, MemSource};
pub use real::{FileSource, StdSink};
pub use text::{NoMemory, Text};

/// The one answer of an outside call that failed.
#[derive(Clone, Copy, Debug, PartialEq, Eq, Drop)]
pub struct Failed;

/// Where bytes come from.
pub trait Source: Drop {
    /// The bytes left, where they are told.
    ghost left: { Self → Option (List ℕ) };

    /// How often a read has failed, held at the greatest u64.
    ghost faults: { Self → ℕ };

    /// Whether it tells that no read fails.
    ghost sure: { Self → Bool };

    /// Moves the next bytes into the front of `out`, and says how many. No byte for a nonempty `out` is the end.
    fn read(&mut self, out: &mut [u8]) -> Result<usize, Failed>
        ensures bound { ReadsAtMost result out.new }
        ensures bytes { ReadConsumes (left self.old) (left self.new) result out.new }
        ensures cause { HasCause (faults self.old) (faults self.new) result }
        ensures sure { StaysSure (sure self.old) (sure self.new) (faults self.old) (faults self.new) };
}

/// Where bytes go.
pub trait Sink: Drop {
    /// The bytes taken, where they are told.
    ghost taken: { Self → Option (List ℕ) };

    /// How often a write has failed, held at the greatest u64.
    ghost faults: { Self → ℕ };

    /// Adds the bytes. After a failure a front of them was added.
    fn write(&mut self, bytes: &[u8]) -> Result<(), Failed>
        ensures bytes { Takes (taken self.old) (taken self.new) result bytes.now }
        ensures cause { HasCause (faults self.old) (faults self.new) result };
}
