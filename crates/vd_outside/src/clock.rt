// Clocks: one in memory, and the system's; and the gate before and behind each call of a device.
ghost use Rattle.std.specs.Prelude.{◌≡◌, ◌==◌, false};
ghost use Rattle.vd_outside.specs.Clocks.{ClockSeen, Looked, rested};

use std::thread;
use std::time::{Duration, Instant};

/// A clock, whose unit is the microsecond.
pub trait Clock: Sized + Drop + Send {
    /// All that contracts see of it: the last answer, how often it was asked, the latest time that a rest was to last until (0 before
    /// the first), and whether it tells that it stands still.
    ghost seen: { Self → ClockSeen };

    /// The time.
    fn now(&mut self) -> u64
        ensures looked { Looked (seen self.old) (seen self.new) result };

    /// Rests until that time, as far as a clock of this kind can. Nothing is said of how long it takes.
    fn rest(&mut self, until: u64)
        ensures rested { seen self.new ≡ rested until (seen self.old) };
}

/// A clock of which another worker can have its own.
pub trait Twin: Clock {
    /// A clock that has answered and rested as this one has, and stands still where this one does.
    fn twin(&self) -> Self
        ensures twin { Self.seen result ≡ Self.seen self.now };
}

/// What is called before and after each call of a device, with the worker's number, the number of its turn, and whether the call writes.
/// It may wait, as a test does that has two workers meet.
pub trait Turnstile: Sync {
    /// The worker is about to call its device.
    fn before(&self, worker: u32, turn: u64, write: bool);

    /// The device has answered.
    fn after(&self, worker: u32, turn: u64, write: bool);
}

/// A turnstile at which nobody waits.
#[derive(Drop)]
pub struct OpenGate;

impl Turnstile for OpenGate {
    fn before(&self, worker: u32, turn: u64, write: bool) {
        let _ = (worker, turn, write);
    }

    fn after(&self, worker: u32, turn: u64, write: bool) {
        let _ = (worker, turn, write);
    }
}

/// A clock in memory, which goes on by the same step at each look.
#[derive(Drop)]
pub struct MemClock {
    time: u64,
    step: u64,
    last: u64,
    looks: u64,
    until: u64,
    ghost stands: { step ≡ 0 → time ≡ last },
}

impl MemClock {
    ghost use Rattle.vd_outside.specs.Memory.{ticks_of};

    /// A clock that begins at `start` and goes on by `step` after each look, up to the greatest u64. With step 0 it stands still.
    pub fn new(start: u64, step: u64) -> MemClock
        ensures seen { ⟦<MemClock as Clock>⟧.seen result ≡ record { last = start; looks = 0; until = 0; still = step == 0 } }
        ensures ticks { ticks_of result ≡ record { time = start; step = step } }
    {
        MemClock {
            time: start,
            step,
            last: start,
            looks: 0,
            until: 0,
        }
    }
}

impl Clock for MemClock {
    ghost use Rattle.vd_outside.specs.Memory.{next_tick, ticks_of};

    ghost seen = { λ clock. record { last = clock.last; looks = clock.looks; until = clock.until; still = clock.step == 0 } };

    fn now(&mut self) -> u64
        ensures looked { Looked (⟦<MemClock as Clock>⟧.seen self.old) (⟦<MemClock as Clock>⟧.seen self.new) result }
        ensures time { result ≡ (ticks_of self.old).time }
        ensures next { ticks_of self.new ≡ next_tick (ticks_of self.old) }
    {
        self.last = self.time;
        self.time = self.time.saturating_add(self.step);
        self.looks = self.looks.saturating_add(1);
        self.last
    }

    fn rest(&mut self, until: u64)
        ensures rested { ⟦<MemClock as Clock>⟧.seen self.new ≡ rested until (⟦<MemClock as Clock>⟧.seen self.old) }
        ensures ticks { ticks_of self.new ≡ ticks_of self.old }
    {
        self.until = self.until.max(until);
    }
}

impl Twin for MemClock {
    ghost use Rattle.vd_outside.specs.Memory.{ticks_of};

    fn twin(&self) -> MemClock
        ensures twin { ⟦<MemClock as Clock>⟧.seen result ≡ ⟦<MemClock as Clock>⟧.seen self.now }
        ensures ticks { ticks_of result ≡ ticks_of self.now }
    {
        MemClock {
            time: self.time,
            step: self.step,
            last: self.last,
            looks: self.looks,
            until: self.until,
        }
    }
}

/// The system's clock, counted from where it was made. Where the system doesn't tell the time, it stands still.
#[derive(Drop)]
pub struct SystemClock<'a> {
    rt: &'a HostRuntime,
    start: Option<Instant>,
    last: u64,
    looks: u64,
    until: u64,
}

impl<'a> SystemClock<'a> {
    /// A clock whose time is 0 now.
    pub fn new(rt: &'a HostRuntime) -> SystemClock<'a>
        ensures { ⟦<SystemClock<'a> as Clock>⟧.seen result ≡ record { last = 0; looks = 0; until = 0; still = false } }
    {
        SystemClock {
            rt,
            start: Instant::now(rt).ok(),
            last: 0,
            looks: 0,
            until: 0,
        }
    }

    /// The microseconds since the clock was made, where the system tells them.
    fn elapsed(&self) -> Option<u64> {
        let Some(start) = &self.start else {
            return None;
        };
        let Ok(elapsed) = start.elapsed(self.rt) else {
            return None;
        };
        u64::try_from(elapsed.as_micros()).ok()
    }
}

impl<'a> Clock for SystemClock<'a> {
    ghost seen = { λ clock. record { last = clock.last; looks = clock.looks; until = clock.until; still = false } };

    fn now(&mut self) -> u64 {
        if let Some(time) = self.elapsed() {
            self.last = time;
        }
        self.looks = self.looks.saturating_add(1);
        self.last
    }

    fn rest(&mut self, until: u64) {
        self.until = until.max(self.until);
        if let Some(time) = self.elapsed() {
            if time < until {
                let _ = thread::sleep(self.rt, Duration::from_micros(until - time));
            }
        }
    }
}

impl<'a> Twin for SystemClock<'a> {
    fn twin(&self) -> SystemClock<'a> {
        SystemClock {
            rt: self.rt,
            start: self.start,
            last: self.last,
            looks: self.looks,
            until: self.until,
        }
    }
}

#[cfg(test)]
mod tests {
    use super::*;

    #[test]
    fn a_clock_in_memory_goes_by_its_step(rt: HostRuntime) {
        let mut clock = MemClock::new(7, 5);
        clock.rest(100);
        assert_eq!(rt; (clock.now(), clock.now()), (7, 12));
        let mut twin = clock.twin();
        assert_eq!(rt; (twin.now(), clock.now()), (17, 17));
        let mut still = MemClock::new(3, 0);
        assert_eq!(rt; (still.now(), still.now()), (3, 3));
        let gate = OpenGate;
        gate.before(0, 0, true);
        gate.after(0, 0, true);
    }

    #[test]
    fn the_system_clock_rests_until_its_time(rt: HostRuntime) {
        let mut clock = SystemClock::new(&rt);
        let start = clock.now();
        let until = start.saturating_add(2_000);
        clock.rest(until);
        let mut twin = clock.twin();
        assert!(rt; twin.now() >= until);
        // A time that is past is not waited for.
        clock.rest(0);
    }
}
