// Where the live area stands.
ghost use Rattle.std.specs.Prelude.{◌≡◌, ◌<◌, ◌≤◌, ◌+◌};
ghost use Rattle.journal_layout.specs.Places.{map_sectors};
ghost use Rattle.journal_layout.specs.Recovery.{blocks_of, gate_of_live, map_start, log_start, journal_end};
ghost use Rattle.journal_recover.specs.Gates.{IsValid};

use journal_layout::{Live, Places};

fn places_of(live: &Live) -> Places
    requires { IsValid (gate_of_live live.now) }
    ensures { result ≡ record { blocks = blocks_of live.now; log_sectors = live.now.log_sectors } }
{
    Places::new(live.id.geometry.blocks(), live.log_sectors)
}

/// The first sector of the live map.
pub fn map_begin(live: &Live) -> u64
    requires { IsValid (gate_of_live live.now) }
    ensures value { result ≡ map_start live.now }
    ensures inside { result + map_sectors (blocks_of live.now) ≤ journal_end live.now }
    ensures low { journal_end live.now ≤ 262146 }
{
    places_of(live).map_at((live.epoch % 2) as u8, 0)
}

/// The sector at a place of the live log.
pub fn log_sector(live: &Live, place: u32) -> u64
    requires limits { IsValid (gate_of_live live.now) }
    requires place { place < live.now.log_sectors }
    ensures value { result ≡ log_start live.now + place }
    ensures inside { result < journal_end live.now }
{
    places_of(live).log_at((live.epoch % 2) as u8, place)
}

/// How many sectors the journal has.
pub fn end(live: &Live) -> u64
    requires { IsValid (gate_of_live live.now) }
    ensures value { result ≡ journal_end live.now }
{
    places_of(live).end()
}
