// The entries of a map.
ghost use Rattle.std.specs.Prelude.{◌≡◌, ◌<◌, ◌≤◌, ◌+◌, ◌*◌, ◌/◌, ◌^◌, ℕ, IsTrue, Err, IfOk, OnOk, MatchOption, length, take, min};
ghost use Rattle.vd_disk.specs.Disk.{WhenTold};
ghost use Rattle.key_state.specs.Entries.{AreEntries};
ghost use Rattle.key_state.specs.declared.entry.Entry.{Entry as AnEntry};
ghost use Rattle.journal_layout.specs.Recovery.{IsSlot, IsMapSlot, Fills, IsFirstBad, map_places};
ghost use Rattle.journal_recover.specs.Causes.{FailsOnly};

use crate::parts::MapFault;
use journal_layout::entry_of;
use key_state::Entry;
use std::alloc::Global;
use vd_base::Sector;
use vd_disk::Disk;

/// The entry at a place of a map.
fn slot_of(sector: &Sector, k: u32, blocks: u32) -> Option<Entry>
    ensures { MatchOption result ((entry : AnEntry) → IsSlot sector.now blocks k entry → ⊥) (IsSlot sector.now blocks k) }
{
    let entry = entry_of(sector, k as usize % 256)?;
    if k < blocks {
        return Some(entry);
    }
    match entry {
        Entry::Settled(key) if key.get() == 0 => Some(entry),
        _ => None,
    }
}

/// Adds the entries of one sector of a map, from place `first` on.
fn push_entries(
    sector: &Sector,
    first: u32,
    blocks: u32,
    entries: &mut Vec<Entry>,
) -> Result<(), MapFault>
    requires range { first ≤ 16777216 }
    requires so_far { length entries.old.items ≡ min first blocks }
    ensures ok { OnOk result (Fills (IsSlot sector.now blocks) blocks first (first + 256) entries.new.items × (take (length entries.old.items) entries.new.items ≡ entries.old.items)) }
    ensures bad { (k : ℕ) → result ≡ Err (MapFault.Place k) → IsFirstBad (IsSlot sector.now blocks) first (first + 256) k }
    ensures not_failed { result ≡ Err MapFault.Failed → ⊥ }
{
    for j in 0..256u32 {
        match slot_of(sector, first + j, blocks) {
            Some(entry) => {
                if first + j < blocks {
                    entries.push(entry)?;
                }
            }
            None => return Err(MapFault::Place(first + j)),
        }
    }
    Ok(())
}

/// The entries of the map that begins at a sector.
pub fn read_map<D: Disk>(
    alloc: Global,
    disk: &mut D,
    at: u64,
    blocks: u32,
) -> Result<Vec<Entry>, MapFault>
    requires blocks { blocks ≤ 16777216 }
    requires low { at < 2 ^ 63 }
    requires there { at + (blocks + 255) / 256 ≤ (D.seen disk.old).sectors }
    ensures entries { IfOk result (λ entries. WhenTold (D.seen disk.old).told (λ sectors. Fills (IsMapSlot sectors at blocks) blocks 0 (map_places blocks) entries.items)) }
    ensures bad { (k : ℕ) → result ≡ Err (MapFault.Place k) → WhenTold (D.seen disk.old).told (λ sectors. IsFirstBad (IsMapSlot sectors at blocks) 0 (map_places blocks) k) }
    ensures one_each { IfOk result (λ entries. length entries.items ≡ blocks) }
    ensures valid { IfOk result (λ entries. AreEntries entries.items) }
    ensures same { D.seen disk.new ≡ record (D.seen disk.old) { faults = (D.seen disk.new).faults } }
    ensures cause { FailsOnly (D.seen disk.old).faults (D.seen disk.new).faults result MapFault.Failed }
    ensures sure { IsTrue (D.seen disk.old).sure → (D.seen disk.new).faults ≡ (D.seen disk.old).faults }
{
    let mut entries = Vec::new(alloc);
    let mut sector = [0; 512];
    for i in 0..(blocks + 255) / 256 {
        disk.read(at + i as u64, &mut sector)?;
        push_entries(&sector, 256 * i, blocks, &mut entries)?;
    }
    Ok(entries)
}
