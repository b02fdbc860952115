// Where the parts of an epoch stand.
ghost use Rattle.std.specs.Prelude.{◌≡◌, ◌<◌, ◌≤◌, ◌+◌, ◌%◌};
ghost use Rattle.journal_layout.specs.Gate.{IsWithinLimits};
ghost use Rattle.journal_layout.specs.Places.{map_sectors, log_at};
ghost use Rattle.journal_layout.specs.Recovery.{blocks_of, gate_of_live, map_start, log_start, journal_end};

use journal_layout::{Gate, Live, Places};

/// The places of a journal.
pub fn places_of(live: &Live) -> Places
    requires { IsWithinLimits (gate_of_live live.now) }
    ensures { result ≡ record { blocks = blocks_of live.now; log_sectors = live.now.log_sectors } }
{
    Places::new(live.id.geometry.blocks(), live.log_sectors)
}

/// The area of an epoch.
pub fn area_of(live: &Live) -> u8
    ensures value { result ≡ live.now.epoch % 2 }
    ensures range { result < 2 }
{
    (live.epoch % 2) as u8
}

/// The sector at a place of the log.
pub fn log_sector(live: &Live, place: u32) -> u64
    requires limits { IsWithinLimits (gate_of_live live.now) }
    requires place { place < live.now.log_sectors }
    ensures value { result ≡ log_start live.now + place }
    ensures inside { result < journal_end live.now }
{
    places_of(live).log_at(area_of(live), place)
}

/// The sector at a place of the map.
pub fn map_sector(live: &Live, i: u32) -> u64
    requires limits { IsWithinLimits (gate_of_live live.now) }
    requires place { i < map_sectors (blocks_of live.now) }
    ensures value { result ≡ map_start live.now + i }
    ensures inside { result < journal_end live.now }
{
    places_of(live).map_at(area_of(live), i)
}

/// How many sectors the journal has.
pub fn end_of_journal(live: &Live) -> u64
    requires { IsWithinLimits (gate_of_live live.now) }
    ensures value { result ≡ journal_end live.now }
    ensures low { result ≤ 262146 }
{
    places_of(live).end()
}

/// The gate of an epoch.
pub fn gate_of_epoch(live: &Live) -> Gate
    ensures { result ≡ gate_of_live live.now }
{
    Gate {
        version: live.version,
        epoch: live.epoch,
        id: live.id,
        log_sectors: live.log_sectors,
    }
}
