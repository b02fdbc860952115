// What holds after every list of events.
ghost use Rattle.std.specs.Prelude.{◌≡◌, ◌+◌, ℕ};
ghost use Rattle.key_state.specs.Entries.{IsHistory};
ghost use Rattle.interleave_core.specs.declared.summary.Summary.{Summary};
ghost use Rattle.interleave_core.specs.Schedule.{Simulates};
ghost use Rattle.interleave_core.specs.Once.{OneRun, OneSchedule, OneStep};
ghost use Rattle.interleave_core.specs.Sound.{Always, HoldsApart, RecoversAll, SectorsFit, Sound, StopsFitting, ValidEntries};

use key_state::entries_stay;

/// What holds of every world after every list of events, stops and recoveries among them: it is sound. So no block is in two
/// operations, the history is legal, and each entry is valid after each front of the records; the sectors fit what the journal knows, after a stop at any allowed length too; and a
/// recovery makes no entry bad that wasn't. No schedule counts a wrong sector, and each counts every step once.
pub fn stays_sound()
    ensures sound { Always Sound }
    ensures apart { Always HoldsApart }
    ensures legal { Always (λ w. IsHistory w.base w.records) }
    ensures entries { Always ValidEntries }
    ensures fitting { Always SectorsFit }
    ensures stopped { Always StopsFitting }
    ensures recovered { Always RecoversAll }
    ensures wrong { (n : ℕ) (counts : Summary) → Simulates n counts → counts.wrong ≡ 0 }
    ensures steps { (n : ℕ) (counts : Summary) → Simulates n counts → counts.taken + counts.idle ≡ n }
{
    entries_stay();
}

/// What may happen has one outcome: an event leaves one world, a list of events leaves one world, and a number has one schedule
/// with one set of counts.
pub fn has_one_outcome()
    ensures step { OneStep }
    ensures run { OneRun }
    ensures schedule { OneSchedule }
{}
