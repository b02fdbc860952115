// A sink that keeps each record.
ghost use Rattle.std.specs.Prelude.{◌≡◌, [], Some};

use journal_recover::RecordSink;
use key_state::Record;
use std::alloc::Global;
use vd_outside::NoMemory;

/// The records that were handed on.
#[derive(Drop)]
pub struct KeptRecords {
    pub records: Vec<(u64, u32, Record)>,
}

impl KeptRecords {
    pub fn new(alloc: Global) -> KeptRecords
        ensures { result.records.items ≡ [] }
    {
        KeptRecords {
            records: Vec::new(alloc),
        }
    }
}

impl RecordSink for KeptRecords {
    ghost kept = { λ sink. Some sink.records.items };

    fn keep(&mut self, sector: u64, place: u32, made: &Record) -> Result<(), NoMemory> {
        match self.records.push((sector, place, *made)) {
            Ok(()) => Ok(()),
            Err(_) => Err(NoMemory),
        }
    }
}
