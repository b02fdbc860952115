// Counts over records.
ghost use Rattle.std.specs.Prelude.{◌≡◌, ◌≤◌, ◌<◌, ◌^◌, ℕ, Some, slice_get, length};
ghost use Rattle.key_state.specs.Entries.{ends, ends_of};
ghost use Rattle.key_state.specs.declared.record.Record.{Record as ARecord};
ghost use Rattle.journal_list.specs.Audits.{IsOutsideAt, AreInside, made_of};

use key_state::Record;

/// A record of a listing.
pub fn made_at(records: &[(u64, u32, Record)], i: usize) -> Record
    requires { i < length records.now }
    ensures { slice_get (made_of records.now) i ≡ Some result }
{
    records[i].2
}

/// How many records there are before the first that names a block past so many.
pub fn first_outside(records: &[(u64, u32, Record)], blocks: usize) -> usize
    requires { blocks ≤ 16777216 }
    ensures most { result ≤ length records.now }
    ensures inside { AreInside blocks (made_of records.now) result }
    ensures outside { result < length records.now → IsOutsideAt blocks (made_of records.now) result }
{
    for i in 0..records.len() {
        let made = made_at(records, i);
        if made.many() > 0 && (blocks as u64) < made.first().0 as u64 + made.many() as u64 {
            return i;
        }
    }
    records.len()
}

/// How many writes a record ends.
fn ends_in(made: &Record) -> u64
    ensures value { result ≡ ends_of made.now }
    ensures few { result < 2 ^ 32 }
{
    match made {
        Record::End { .. } => 1,
        Record::EndRun { many, .. } => *many as u64,
        Record::Begin { .. } => 0,
        Record::Bad { .. } => 0,
        Record::BeginRun { .. } => 0,
        Record::Clear { .. } => 0,
    }
}

/// How many writes the records end.
pub fn count_ends(records: &[(u64, u32, Record)]) -> u64
    requires { length records.now ≤ 1966080 }
    ensures { result ≡ ends (made_of records.now) }
{
    let mut count = 0;
    for i in 0..records.len() {
        let made = made_at(records, i);
        count += ends_in(&made);
    }
    count
}
