// The listing of a journal.
ghost use Rattle.std.specs.Prelude.{◌≡◌, ◌≤◌, ◌*◌, [], IsTrue, IfOk, length};
ghost use Rattle.vd_disk.specs.Disk.{WhenTold};
ghost use Rattle.key_state.specs.Entries.{AreEntries};
ghost use Rattle.journal_layout.specs.Recovery.{blocks_of, gate_of_live, journal_end, log_of};
ghost use Rattle.journal_recover.specs.Causes.{FailsOnly};
ghost use Rattle.journal_recover.specs.Gates.{IsValid};
ghost use Rattle.journal_list.specs.Lists.{FindsParts, FindsRecords, HasListCause, IsUsable, ArePartsUsable, Lists};

use crate::before::handover;
use crate::kept::KeptRecords;
use crate::listing::{ListFault, Listing};
use crate::unused::unused_sectors;
use journal_layout::Live;
use journal_recover::{RecoverFault, area_log, area_map, wanted_gate};
use key_state::Entry;
use std::alloc::Global;
use vd_base::StoreId;
use vd_disk::Disk;

/// A listing without its records.
#[derive(Drop)]
struct Parts {
    live: Live,
    base: Vec<Entry>,
    unused: Vec<u64>,
    handover: Option<u32>,
}

/// Keeps the stored records of the live log, and answers how many there are.
fn read_records<D: Disk>(
    alloc: Global,
    disk: &mut D,
    live: &Live,
    base: &[Entry],
    kept: &mut KeptRecords,
) -> Result<u64, RecoverFault>
    requires limits { IsValid (gate_of_live live.now) }
    requires room { journal_end live.now ≤ (D.seen disk.old).sectors }
    requires one_each { length base.now ≡ blocks_of live.now }
    requires valid { AreEntries base.now }
    requires none { kept.old.records.items ≡ [] }
    ensures reads { WhenTold (D.seen disk.old).told (λ sectors. FindsRecords live.now base.now (log_of sectors live.now) kept.new.records.items result) }
    ensures few { IfOk result (λ records. records ≤ 30 * live.now.log_sectors) }
    ensures many { IfOk result (λ records. length kept.new.records.items ≡ records) }
    ensures same { D.seen disk.new ≡ record (D.seen disk.old) { faults = (D.seen disk.new).faults } }
    ensures cause { FailsOnly (D.seen disk.old).faults (D.seen disk.new).faults result RecoverFault.Failed }
    ensures sure { IsTrue (D.seen disk.old).sure → (D.seen disk.new).faults ≡ (D.seen disk.old).faults }
{
    let mut entries = Vec::from_slice(alloc, base)?;
    area_log(disk, live, &mut entries, kept)
}

/// Lists a journal, and keeps its records.
fn list_parts<D: Disk>(
    alloc: Global,
    disk: &mut D,
    wanted: &StoreId,
    kept: &mut KeptRecords,
) -> Result<Parts, RecoverFault>
    requires none { kept.old.records.items ≡ [] }
    ensures lists { WhenTold (D.seen disk.old).told (λ sectors. FindsParts sectors wanted.now kept.new.records.items result) }
    ensures usable { IfOk result (ArePartsUsable wanted.now (D.seen disk.new).sectors kept.new.records.items) }
    ensures same { D.seen disk.new ≡ record (D.seen disk.old) { faults = (D.seen disk.new).faults } }
    ensures cause { FailsOnly (D.seen disk.old).faults (D.seen disk.new).faults result RecoverFault.Failed }
    ensures sure { IsTrue (D.seen disk.old).sure → (D.seen disk.new).faults ≡ (D.seen disk.old).faults }
{
    let live = wanted_gate(disk, wanted)?;
    let base = area_map(alloc, disk, &live)?;
    let records = read_records(alloc, disk, &live, &base, kept)?;
    let unused = unused_sectors(alloc, disk, &live, records)?;
    let handover = handover(alloc, disk, &live, &base)?;
    Ok(Parts {
        live,
        base,
        unused,
        handover,
    })
}

/// What stands in the journal of a store: its live area, the entries of the live map, and the stored records, each with its sector and
/// its place; further the log sectors past their end that are headed for their place in the live epoch, and how far the area of the
/// epoch before differs, where it is whole. It takes memory for the records and for two entries a block. The disk isn't written; each
/// sector of the gates, of the live area and of the area before is read at most twice.
pub fn list<D: Disk>(alloc: Global, disk: &mut D, wanted: &StoreId) -> Result<Listing, ListFault>
    ensures lists { WhenTold (D.seen disk.old).told (λ sectors. Lists sectors wanted.now result) }

    // over every disk
    ensures usable { IfOk result (IsUsable wanted.now (D.seen disk.new).sectors) }
    ensures same { D.seen disk.new ≡ record (D.seen disk.old) { faults = (D.seen disk.new).faults } }
    ensures cause { HasListCause (D.seen disk.old).faults (D.seen disk.new).faults result }
    ensures sure { IsTrue (D.seen disk.old).sure → (D.seen disk.new).faults ≡ (D.seen disk.old).faults }
{
    let mut kept = KeptRecords::new(alloc);
    match list_parts(alloc, disk, wanted, &mut kept) {
        Ok(parts) => Ok(Listing {
            live: parts.live,
            base: parts.base,
            records: kept.records,
            unused: parts.unused,
            handover: parts.handover,
        }),
        Err(why) => Err(ListFault {
            records: kept.records,
            why,
        }),
    }
}
