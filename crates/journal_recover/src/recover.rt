// What a journal's disk gives.
ghost use Rattle.std.specs.Prelude.{◌≡◌, ◌≤◌, IsTrue, IfOk, OnOk, IsErrOf, length};
ghost use Rattle.vd_outside.specs.Causes.{Rose};
ghost use Rattle.vd_disk.specs.Disk.{WhenTold};
ghost use Rattle.key_state.specs.Entries.{AreEntries};
ghost use Rattle.journal_layout.specs.Recovery.{blocks_of, gate_of_live, journal_end};
ghost use Rattle.journal_recover.specs.Causes.{FailsOnly};
ghost use Rattle.journal_recover.specs.Gates.{IsValid};
ghost use Rattle.journal_recover.specs.Maps.{ReadsMap};
ghost use Rattle.journal_recover.specs.Answers.{Answers, FindsArea, IsUsable};

use crate::fault::RecoverFault;
use crate::found::Recovered;
use crate::gates::wanted_gate;
use crate::logs::area_log;
use crate::maps::read_map;
use crate::parts::MapFault;
use crate::places::{end, map_begin};
use crate::sink::NoSink;
use journal_layout::{Damage, Live};
use key_state::Entry;
use std::alloc::Global;
use vd_base::StoreId;
use vd_disk::Disk;

/// The entries of an area's map.
pub fn area_map<D: Disk>(
    alloc: Global,
    disk: &mut D,
    live: &Live,
) -> Result<Vec<Entry>, RecoverFault>
    requires { IsValid (gate_of_live live.now) }
    ensures reads { WhenTold (D.seen disk.old).told (λ sectors. ReadsMap sectors live.now result) }
    ensures room { OnOk result (journal_end live.now ≤ (D.seen disk.new).sectors) }
    ensures one_each { IfOk result (λ entries. length entries.items ≡ blocks_of live.now) }
    ensures valid { IfOk result (λ entries. AreEntries entries.items) }
    ensures same { D.seen disk.new ≡ record (D.seen disk.old) { faults = (D.seen disk.new).faults } }
    ensures cause { FailsOnly (D.seen disk.old).faults (D.seen disk.new).faults result RecoverFault.Failed }
    ensures sure { IsTrue (D.seen disk.old).sure → (D.seen disk.new).faults ≡ (D.seen disk.old).faults }
{
    let sectors = disk.sectors();
    if sectors < end(live) {
        return Err(RecoverFault::Damaged {
            sector: sectors,
            what: Damage::Missing,
            at: 0,
        });
    }
    let at = map_begin(live);
    match read_map(alloc, disk, at, live.id.geometry.blocks()) {
        Ok(entries) => Ok(entries),
        Err(MapFault::Place(k)) => Err(RecoverFault::Damaged {
            sector: at + (k / 256) as u64,
            what: Damage::Map,
            at: k % 256,
        }),
        Err(MapFault::Failed) => Err(RecoverFault::Failed),
        Err(MapFault::NoMemory) => Err(RecoverFault::NoMemory),
    }
}

/// What an area gives: how many records its log has, and the entries after them. Its map and its log are read once, in order.
pub fn recover_area<D: Disk>(
    alloc: Global,
    disk: &mut D,
    live: &Live,
) -> Result<Recovered, RecoverFault>
    requires { IsValid (gate_of_live live.now) }
    ensures gives { WhenTold (D.seen disk.old).told (λ sectors. FindsArea sectors live.now result) }
    ensures usable { IfOk result (IsUsable live.now.id (D.seen disk.new).sectors) }
    ensures same { D.seen disk.new ≡ record (D.seen disk.old) { faults = (D.seen disk.new).faults } }
    ensures cause { FailsOnly (D.seen disk.old).faults (D.seen disk.new).faults result RecoverFault.Failed }
    ensures sure { IsTrue (D.seen disk.old).sure → (D.seen disk.new).faults ≡ (D.seen disk.old).faults }
{
    let mut entries = area_map(alloc, disk, live)?;
    let mut sink = NoSink;
    let records = area_log(disk, live, &mut entries, &mut sink)?;
    Ok(Recovered {
        live: *live,
        records,
        entries,
    })
}

/// What the disk's sectors give for a store: its live area, how many records its log has, and the entries after them. The disk
/// isn't written; each sector of the live map and log is read once, in order, behind the two gates.
pub fn recovered<D: Disk>(
    alloc: Global,
    disk: &mut D,
    wanted: &StoreId,
) -> Result<Recovered, RecoverFault>
    ensures gives { WhenTold (D.seen disk.old).told (λ sectors. Answers sectors wanted.now result) }

    // over every disk
    ensures usable { IfOk result (IsUsable wanted.now (D.seen disk.new).sectors) }
    ensures same { D.seen disk.new ≡ record (D.seen disk.old) { faults = (D.seen disk.new).faults } }
    ensures later { (D.seen disk.old).faults ≤ (D.seen disk.new).faults }
    ensures failed { IsErrOf result RecoverFault.Failed → Rose (D.seen disk.old).faults (D.seen disk.new).faults }
    ensures kept { (IsErrOf result RecoverFault.Failed → ⊥) → (D.seen disk.new).faults ≡ (D.seen disk.old).faults }
    ensures sure { IsTrue (D.seen disk.old).sure → (D.seen disk.new).faults ≡ (D.seen disk.old).faults }
{
    let live = wanted_gate(disk, wanted)?;
    recover_area(alloc, disk, &live)
}
