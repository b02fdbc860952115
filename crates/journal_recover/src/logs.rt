// The records of a log.
ghost use Rattle.std.specs.Prelude.{◌≡◌, ◌≤◌, ◌*◌, IsTrue, IfOk, OnOk, length};
ghost use Rattle.vd_disk.specs.Disk.{WhenTold};
ghost use Rattle.key_state.specs.Entries.{AreEntries};
ghost use Rattle.journal_layout.specs.Recovery.{blocks_of, gate_of_live, journal_end, log_of};
ghost use Rattle.journal_recover.specs.Causes.{FailsOnly};
ghost use Rattle.journal_recover.specs.Gates.{IsValid};
ghost use Rattle.journal_recover.specs.Logs.{FindsLog};
ghost use Rattle.journal_recover.specs.Sinks.{HandsMany};

use crate::places::log_sector;
use crate::sectors::read_sector;
use crate::{RecordSink, RecoverFault};
use journal_layout::Live;
use key_state::Entry;
use vd_disk::Disk;

/// Makes the stored records of an area's log on the entries of its map, hands each on, and answers how many there are.
pub fn area_log<D: Disk, S: RecordSink>(
    disk: &mut D,
    live: &Live,
    entries: &mut [Entry],
    sink: &mut S,
) -> Result<u64, RecoverFault>
    requires limits { IsValid (gate_of_live live.now) }
    requires room { journal_end live.now ≤ (D.seen disk.old).sectors }
    requires one_each { length entries.old ≡ blocks_of live.now }
    requires valid { AreEntries entries.old }
    ensures reads { WhenTold (D.seen disk.old).told (λ sectors. FindsLog live.now entries.old (log_of sectors live.now) entries.new (S.kept sink.old) (S.kept sink.new) result) }
    ensures valid { OnOk result (AreEntries entries.new) }
    ensures handed { IfOk result (λ records. HandsMany records (S.kept sink.old) (S.kept sink.new)) }
    ensures few { IfOk result (λ records. records ≤ 30 * live.now.log_sectors) }
    ensures same { D.seen disk.new ≡ record (D.seen disk.old) { faults = (D.seen disk.new).faults } }
    ensures cause { FailsOnly (D.seen disk.old).faults (D.seen disk.new).faults result RecoverFault.Failed }
    ensures sure { IsTrue (D.seen disk.old).sure → (D.seen disk.new).faults ≡ (D.seen disk.old).faults }
{
    let mut sector = [0; 512];
    let mut records = 0;
    for place in 0..live.log_sectors {
        let at = log_sector(live, place);
        disk.read(at, &mut sector)?;
        match read_sector(&sector, at, live, place, entries, sink) {
            Ok(30) => records += 30,
            Ok(count) => return Ok(records + count as u64),
            Err(why) => return Err(why),
        }
    }
    Ok(records)
}
