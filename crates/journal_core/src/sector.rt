// The sectors that a book makes.
ghost use Rattle.std.specs.Prelude.{◌≡◌, ◌<◌, ◌≤◌, ◌+◌, ◌*◌, ◌/◌, ◌++◌, [], ◌∷◌, ℕ, List, nat_lt, length, replicate, slice_range};
ghost use Rattle.std.specs.Int.{w64, from_be_bytes};
ghost use Rattle.key_state.specs.Entries.{AreEntries};
ghost use Rattle.key_state.specs.declared.record.Record.{Record as ARecord};
ghost use Rattle.journal_layout.specs.Gate.{IsGate, IsWithinLimits};
ghost use Rattle.journal_layout.specs.Log.{IsBelow, IsSpelled};
ghost use Rattle.journal_layout.specs.Recovery.{area_of, blocks_of, gate_of_live, IsSlot};
ghost use Rattle.journal_core.specs.Parts.{InHand, slot_at};

use crate::places::gate_of_epoch;
use journal_layout::{Live, put_entry, put_gate, put_log_head, put_record};
use key_state::{Entry, Record};
use vd_base::{Key, Sector};

/// A sector of zeros.
pub fn blank() -> Sector
    ensures { result ≡ replicate 512 0 }
{
    [0; 512]
}

/// Adds the record at the next place of a log sector of version 2, which has so many.
pub fn add_record(sector: &mut Sector, live: &Live, place: u32, count: u8, made: &Record)
    requires version { live.now.version ≡ 2 }
    requires room { count < 30 }
    requires spelled { IsSpelled 2 made.now }
    ensures { (past : List ARecord) → length past ≡ 30 * place + count → IsBelow (blocks_of live.now) made.now → InHand live.now past place count sector.old
        → InHand live.now (past ++ made.now ∷ []) place (count + 1) sector.new }
{
    put_log_head(sector, live.version, live.epoch, place, count + 1);
    put_record(sector, count as usize, made);
}

/// Sector `i` of the map of these entries.
pub fn map_of(entries: &[Entry], i: u32) -> Sector
    requires low { i < 65536 }
    requires valid { AreEntries entries.now }
    ensures { (k : ℕ) → k / 256 ≡ i → IsSlot result (length entries.now) k (slot_at entries.now k) }
{
    let mut sector = blank();
    for j in 0..256u32 {
        let place = 256 * i as usize + j as usize;
        put_entry(&mut sector, j as usize, entry_or_none(entries, place));
    }
    sector
}

/// The entry at a place of a map: past the last block that of a block never written.
fn entry_or_none(entries: &[Entry], place: usize) -> Entry
    ensures { result ≡ slot_at entries.now place }
{
    if place < entries.len() {
        entries[place]
    } else {
        Entry::Settled(Key::never())
    }
}

/// The gate of an epoch.
pub fn gate_sector(live: &Live) -> Sector
    requires { IsWithinLimits (gate_of_live live.now) }
    ensures { IsGate (area_of live.now) result (gate_of_live live.now) }
{
    let mut sector = blank();
    put_gate(&gate_of_epoch(live), &mut sector);
    sector
}

/// Whether bytes 8 to 15 are a number above this epoch.
pub fn is_later(sector: &Sector, epoch: u64) -> bool
    ensures { result ≡ nat_lt epoch (from_be_bytes w64 (slice_range sector.now 8 16)) }
{
    let mut bytes = [0; 8];
    bytes.copy_from_slice(&sector[8..16]);
    u64::from_be_bytes(bytes) > epoch
}
