// When a turn's transfers began.
ghost use Rattle.std.specs.Prelude.{◌≡◌, ◌-◌, IsSome, IsTrue};
ghost use Rattle.slave_worker.specs.Looks.{StartedAt, started};
ghost use Rattle.slave_worker.specs.Standings.{Ticked};

use vd_outside::Clock;

/// The clock before a turn's first transfer, once it was looked at.
#[derive(Clone, Copy, Debug, Drop)]
pub(crate) struct Watch {
    pub(crate) before: Option<u64>,
}

impl Watch {
    /// Looks at the clock where the first transfer is to come.
    pub(crate) fn start<C: Clock>(&mut self, clock: &mut C)
        ensures started { started self.new ≡ 1 }
        ensures kept { started self.old ≡ 1 → self.new ≡ self.old }
        ensures clock { Ticked (1 - started self.old) (C.seen clock.old).until (C.seen clock.old) (C.seen clock.new) }
        ensures at { IsTrue (C.seen clock.old).still → StartedAt (C.seen clock.old).last self.old → StartedAt (C.seen clock.old).last self.new }
    {
        if self.before.is_none() {
            self.before = Some(clock.now());
        }
    }
}
