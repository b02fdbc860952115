// What the records of a log are handed to.
ghost use Rattle.std.specs.Prelude.{◌≡◌, List, [], ◌∷◌, Option, None, OnErr, OnOk};
ghost use Rattle.journal_recover.specs.Sinks.{Placed, grown};

use key_state::Record;
use vd_outside::NoMemory;

/// What the records of a log are handed to, one by one, in their order.
pub trait RecordSink {
    /// What it keeps, where it keeps records: each with its sector and its place there.
    ghost kept: { Self → Option (List Placed) };

    /// One more record, which stands at a place of a sector.
    fn keep(&mut self, sector: u64, place: u32, made: &Record) -> Result<(), NoMemory>
        ensures keeps { OnOk result (kept self.new ≡ grown (kept self.old) ((sector, place, made.now) ∷ [])) }
        ensures leaves { OnErr result (kept self.new ≡ kept self.old) };
}

/// Keeps no record.
#[derive(Drop)]
pub struct NoSink;

impl RecordSink for NoSink {
    ghost kept = { λ _. None };

    fn keep(&mut self, _: u64, _: u32, _: &Record) -> Result<(), NoMemory> {
        Ok(())
    }
}
