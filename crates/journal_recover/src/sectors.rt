// The records of one log sector.
ghost use Rattle.std.specs.Prelude.{◌≡◌, ◌↔◌, ◌≤◌, ◌+◌, ◌^◌, [], ◌∷◌, IsTrue, IsErrOf, OnOk, length};
ghost use Rattle.key_state.specs.Entries.{AreEntries, IsLegalOn, states};
ghost use Rattle.journal_layout.specs.Gate.{IsVersion};
ghost use Rattle.journal_layout.specs.Log.{IsBelow};
ghost use Rattle.journal_layout.specs.Recovery.{blocks_of, log_start};
ghost use Rattle.journal_recover.specs.Logs.{ReadsRecords, ReadsSector};

use crate::{RecordSink, RecoverFault};
use journal_layout::{Damage, Head, Live, log_head, record_of, tail_is_zero};
use key_state::{Entry, Record, apply};
use vd_base::Sector;

/// Makes a record on the entries of its blocks, and answers whether it is legal there.
fn make_record(made: &Record, entries: &mut [Entry]) -> bool
    requires few { length entries.old ≤ 16777216 }
    requires below { IsBelow (length entries.old) made.now }
    requires valid { AreEntries entries.old }
    ensures legal { IsTrue result ↔ IsLegalOn entries.old made.now }
    ensures steps { IsTrue result → entries.new ≡ states entries.old (made.now ∷ []) }
{
    let first = made.first().0;
    for block in first..first + made.many() {
        match apply(entries[block as usize], made) {
            Some(after) => entries[block as usize] = after,
            None => return false,
        }
    }
    true
}

/// Makes the first records of a log sector, which stands at `at`, on the entries, and hands them on. An `Err` names the first one
/// that is wrong.
fn make_records<S: RecordSink>(
    sector: &Sector,
    at: u64,
    live: &Live,
    place: u32,
    count: u8,
    entries: &mut [Entry],
    sink: &mut S,
) -> Result<(), RecoverFault>
    requires at { at ≡ log_start live.now + place }
    requires count { count ≤ 30 }
    requires one_each { length entries.old ≡ blocks_of live.now }
    requires valid { AreEntries entries.old }
    ensures reads { ReadsRecords live.now place sector.now count entries.old entries.new (S.kept sink.old) (S.kept sink.new) result }
    ensures valid { OnOk result (AreEntries entries.new) }
{
    for j in 0..count {
        let wrong = RecoverFault::Damaged {
            sector: at,
            what: Damage::Record,
            at: j as u32,
        };
        let Some(made) = record_of(sector, j as usize, live.version, live.id.geometry.blocks())
        else {
            return Err(wrong);
        };
        if !make_record(&made, entries) {
            return Err(wrong);
        }
        if sink.keep(at, j as u32, &made).is_err() {
            return Err(RecoverFault::NoMemory);
        }
    }
    Ok(())
}

/// Makes the records of the log sector at a place, which stands at `at`, hands them on, and answers how many it has: none where
/// the log ended before it.
pub fn read_sector<S: RecordSink>(
    sector: &Sector,
    at: u64,
    live: &Live,
    place: u32,
    entries: &mut [Entry],
    sink: &mut S,
) -> Result<u8, RecoverFault>
    requires version { IsVersion live.now.version }
    requires at { at ≡ log_start live.now + place }
    requires one_each { length entries.old ≡ blocks_of live.now }
    requires valid { AreEntries entries.old }
    ensures reads { ReadsSector live.now place sector.now entries.old entries.new (S.kept sink.old) (S.kept sink.new) result }
    ensures valid { OnOk result (AreEntries entries.new) }
    ensures not_failed { IsErrOf result RecoverFault.Failed → ⊥ }
{
    match log_head(sector, live.version, live.epoch, place) {
        Head::Foreign => Ok(0),
        Head::BadHeader => Err(RecoverFault::Damaged {
            sector: at,
            what: Damage::Header,
            at: 0,
        }),
        Head::Count(count) => {
            if let Err(why) = make_records(sector, at, live, place, count, entries, sink) {
                return Err(why);
            }
            if tail_is_zero(sector, count) {
                Ok(count)
            } else {
                Err(RecoverFault::Damaged {
                    sector: at,
                    what: Damage::Tail,
                    at: count as u32,
                })
            }
        }
    }
}
