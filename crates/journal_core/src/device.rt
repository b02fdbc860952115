// Rows of device calls.
ghost use Rattle.std.specs.Prelude.{◌≡◌, ◌≤◌, ◌<◌, ◌+◌, IfOk, OnOk, length, replicate};
ghost use Rattle.vd_outside.specs.Causes.{HasCause};
ghost use Rattle.vd_disk.specs.Disk.{Sectors, WhenTold, sector_at};
ghost use Rattle.key_state.specs.Entries.{AreEntries};
ghost use Rattle.key_state.specs.declared.entry.Entry.TheVariants.{Settled};
ghost use Rattle.journal_layout.specs.Gate.{IsWithinLimits};
ghost use Rattle.journal_layout.specs.Recovery.{blocks_of, gate_of_live, journal_end};
ghost use Rattle.journal_core.specs.Calls.{GoesOn};
ghost use Rattle.journal_core.specs.Changes.{Changed};
ghost use Rattle.journal_core.specs.Keeps.{IsGateAt, next_of};
ghost use Rattle.journal_core.specs.Opening.{Opens};
ghost use Rattle.journal_core.specs.Parts.{IsNotLater};
ghost use Rattle.journal_core.specs.Writes.{Begins, Clears, ClearsLog, HasEpoch, HasMap, HasNoLater, InMap, IsNew, IsNotLive, IsSynced, IsZeroIn, ReadsGate, ReadsZero, Reopens};

use crate::places::{area_of, end_of_journal, log_sector, map_sector, places_of};
use crate::sector::{blank, gate_sector, is_later, map_of};
use journal_layout::{Live, gate_of};
use key_state::Entry;
use vd_disk::Disk;
use vd_outside::Failed;

/// Writes the map of these entries into the area of an epoch.
pub fn write_map<D: Disk>(disk: &mut D, live: &Live, entries: &[Entry]) -> Result<(), Failed>
    requires limits { IsWithinLimits (gate_of_live live.now) }
    requires room { journal_end live.now ≤ (D.seen disk.old).sectors }
    requires one_each { length entries.now ≡ blocks_of live.now }
    requires valid { AreEntries entries.now }
    ensures changed { Changed (InMap live.now) (D.seen disk.old) (D.seen disk.new) }
    ensures has_map { OnOk result (WhenTold (D.seen disk.new).told (HasMap live.now entries.now)) }
    ensures cause { HasCause (D.seen disk.old).faults (D.seen disk.new).faults result }
{
    for i in 0..places_of(live).map_sectors() {
        disk.write(map_sector(live, i), &map_of(entries, i))?;
    }
    Ok(())
}

/// Writes the gate of an epoch and makes it stay.
pub fn write_gate<D: Disk>(disk: &mut D, live: &Live) -> Result<(), Failed>
    requires limits { IsWithinLimits (gate_of_live live.now) }
    requires room { journal_end live.now ≤ (D.seen disk.old).sectors }
    ensures changed { Changed (IsGateAt live.now) (D.seen disk.old) (D.seen disk.new) }
    ensures synced { OnOk result (IsSynced (D.seen disk.new) (ReadsGate live.now)) }
    ensures cause { HasCause (D.seen disk.old).faults (D.seen disk.new).faults result }
{
    disk.write(area_of(live) as u64, &gate_sector(live))?;
    disk.sync()
}

/// Begins an epoch: its map stays before its gate is written.
pub fn begin_epoch<D: Disk>(disk: &mut D, live: &Live, entries: &[Entry]) -> Result<(), Failed>
    requires limits { IsWithinLimits (gate_of_live live.now) }
    requires room { journal_end live.now ≤ (D.seen disk.old).sectors }
    requires one_each { length entries.now ≡ blocks_of live.now }
    requires valid { AreEntries entries.now }
    ensures begins { Begins live.now entries.now (D.seen disk.old) (D.seen disk.new) result }
    ensures cause { HasCause (D.seen disk.old).faults (D.seen disk.new).faults result }
{
    write_map(disk, live, entries)?;
    disk.sync()?;
    write_gate(disk, live)
}

/// Makes each sector from one to before another zeros, and makes that stay.
pub fn zero_between<D: Disk>(disk: &mut D, from: u64, to: u64) -> Result<(), Failed>
    requires order { from ≤ to }
    requires room { to ≤ (D.seen disk.old).sectors }
    ensures changed { Changed (IsZeroIn from to) (D.seen disk.old) (D.seen disk.new) }
    ensures synced { OnOk result (IsSynced (D.seen disk.new) (ReadsZero from to)) }
    ensures cause { HasCause (D.seen disk.old).faults (D.seen disk.new).faults result }
{
    let zeros = blank();
    for at in from..to {
        disk.write(at, &zeros)?;
    }
    disk.sync()
}

/// The epoch of the gate of an area, where it has one.
fn epoch_at<D: Disk>(disk: &mut D, area: u8) -> Result<Option<u64>, Failed>
    requires area { area < 2 }
    requires there { area < (D.seen disk.old).sectors }
    ensures found { IfOk result (λ epoch. WhenTold (D.seen disk.old).told (HasEpoch area epoch)) }
    ensures same { D.seen disk.new ≡ record (D.seen disk.old) { faults = (D.seen disk.new).faults } }
    ensures cause { HasCause (D.seen disk.old).faults (D.seen disk.new).faults result }
{
    let mut sector = blank();
    disk.read(area as u64, &mut sector)?;
    match gate_of(&sector, area) {
        Some(gate) => Ok(Some(gate.epoch)),
        None => Ok(None),
    }
}

/// By the epochs of the two gates, an area whose gate isn't live: the first where neither is.
fn not_live(even: Option<u64>, odd: Option<u64>) -> u64
    ensures area { result < 2 }
    ensures not_live { (sectors : Sectors) → HasEpoch 0 even sectors → HasEpoch 1 odd sectors → IsNotLive result sectors }
{
    match (even, odd) {
        (Some(first), Some(second)) => { if first > second { 1 } else { 0 } }
        (Some(_), None) => 1,
        (None, _) => 0,
    }
}

/// The area whose gate is to go first: one whose gate isn't live, and the first where neither is.
fn first_to_go<D: Disk>(disk: &mut D) -> Result<u64, Failed>
    requires there { 2 ≤ (D.seen disk.old).sectors }
    ensures area { IfOk result (λ area. area < 2) }
    ensures not_live { IfOk result (λ area. WhenTold (D.seen disk.old).told (IsNotLive area)) }
    ensures same { D.seen disk.new ≡ record (D.seen disk.old) { faults = (D.seen disk.new).faults } }
    ensures cause { HasCause (D.seen disk.old).faults (D.seen disk.new).faults result }
{
    let even = epoch_at(disk, 0)?;
    let odd = epoch_at(disk, 1)?;
    Ok(not_live(even, odd))
}

/// Takes away what was there, first a gate that isn't live, and makes an empty journal of this epoch.
pub fn make_new<D: Disk>(disk: &mut D, live: &Live) -> Result<(), Failed>
    requires limits { IsWithinLimits (gate_of_live live.now) }
    requires first { live.now.epoch ≡ 0 }
    requires room { journal_end live.now ≤ (D.seen disk.old).sectors }
    ensures goes_on { GoesOn (journal_end live.now) (D.seen disk.old) (D.seen disk.new) }
    ensures opens { Opens live.now (replicate (blocks_of live.now) (Settled 0)) (D.seen disk.old).told (D.seen disk.old).moments (D.seen disk.new).moments }
    ensures made { OnOk result (IsSynced (D.seen disk.new) (IsNew live.now)) }
    ensures cause { HasCause (D.seen disk.old).faults (D.seen disk.new).faults result }
{
    let first = first_to_go(disk)?;
    zero_between(disk, first, first + 1)?;
    zero_between(disk, 1 - first, 2 - first)?;
    zero_between(disk, 2, end_of_journal(live))?;
    write_gate(disk, live)
}

/// Makes a sector zeros where it is a log sector of a later epoch than this one.
fn clear_one<D: Disk>(disk: &mut D, at: u64, epoch: u64) -> Result<(), Failed>
    requires there { at < (D.seen disk.old).sectors }
    ensures changed { Changed (Clears at (at + 1) epoch (D.seen disk.old).told) (D.seen disk.old) (D.seen disk.new) }
    ensures cleared { OnOk result (WhenTold (D.seen disk.new).told (λ t. IsNotLater epoch (sector_at t at))) }
    ensures cause { HasCause (D.seen disk.old).faults (D.seen disk.new).faults result }
{
    let mut sector = blank();
    disk.read(at, &mut sector)?;
    if !is_later(&sector, epoch) {
        return Ok(());
    }
    disk.write(at, &blank())
}

/// Makes each log sector of the epoch's area zeros that is of a later epoch than a given one.
fn clear_later<D: Disk>(disk: &mut D, live: &Live, epoch: u64) -> Result<(), Failed>
    requires limits { IsWithinLimits (gate_of_live live.now) }
    requires room { journal_end live.now ≤ (D.seen disk.old).sectors }
    ensures changed { Changed (ClearsLog live.now epoch (D.seen disk.old).told) (D.seen disk.old) (D.seen disk.new) }
    ensures cleared { OnOk result (WhenTold (D.seen disk.new).told (HasNoLater live.now epoch live.now.log_sectors)) }
    ensures cause { HasCause (D.seen disk.old).faults (D.seen disk.new).faults result }
{
    for place in 0..live.log_sectors {
        clear_one(disk, log_sector(live, place), epoch)?;
    }
    Ok(())
}

/// Takes away log sectors of epochs later than the live one, and begins the next epoch.
pub fn reopen<D: Disk>(
    disk: &mut D,
    live: &Live,
    next: &Live,
    entries: &[Entry],
) -> Result<(), Failed>
    requires limits { IsWithinLimits (gate_of_live live.now) }
    requires next { IsWithinLimits (gate_of_live next.now) }
    requires after { next.now ≡ next_of live.now }
    requires room { journal_end live.now ≤ (D.seen disk.old).sectors }
    requires one_each { length entries.now ≡ blocks_of live.now }
    requires valid { AreEntries entries.now }
    ensures reopens { Reopens live.now entries.now (D.seen disk.old) (D.seen disk.new) result }
    ensures cause { HasCause (D.seen disk.old).faults (D.seen disk.new).faults result }
{
    clear_later(disk, live, live.epoch)?;
    clear_later(disk, next, live.epoch)?;
    begin_epoch(disk, next, entries)
}
