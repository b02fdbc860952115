// Where the parts of a journal stand.
ghost use Rattle.std.specs.Prelude.{◌≡◌, ◌+◌, ◌<◌, ◌≤◌};
ghost use Rattle.journal_layout.specs.Places.{IsExtent, map_sectors, area_at, log_at, end_of};

use std::marker::Model;

/// The places of a journal's maps and logs. Contracts see how many blocks its store has, and its log sectors.
#[derive(Clone, Copy, Debug, PartialEq, Eq, Drop)]
pub struct Places {
    blocks: u32,
    log_sectors: u32,
}

impl Model for Places {
    ghost use Rattle.journal_layout.specs.Places.{Extent, IsExtent};

    ghost Value = { Extent };

    ghost view = { λ p. record { blocks = p.blocks; log_sectors = p.log_sectors } };

    ghost invariant = { λ p. IsExtent p.blocks p.log_sectors };

    ghost inverse = { λ e. record { blocks = e.blocks; log_sectors = e.log_sectors } };
}

impl Places {
    /// The places of a journal of so many blocks, with so many sectors in each log.
    pub fn new(blocks: u32, log_sectors: u32) -> Places
        requires { IsExtent blocks log_sectors }
        ensures { result ≡ record { blocks = blocks; log_sectors = log_sectors } }
    {
        Places {
            blocks,
            log_sectors,
        }
    }

    /// How many sectors a map has.
    pub fn map_sectors(&self) -> u32
        ensures value { result ≡ map_sectors self.now.blocks }
        ensures range { (0 < result) × (result ≤ 65536) }
    {
        (self.blocks + 255) / 256
    }

    /// The first sector of an area.
    fn area(&self, area: u8) -> u64
        requires { area ≤ 2 }
        ensures value { result ≡ area_at self.now.blocks self.now.log_sectors area }
        ensures low { result ≤ 262146 }
    {
        2 + area as u64 * (self.map_sectors() as u64 + self.log_sectors as u64)
    }

    /// Sector `i` of the map of an area.
    pub fn map_at(&self, area: u8, i: u32) -> u64
        requires area { area < 2 }
        requires place { i < map_sectors self.now.blocks }
        ensures value { result ≡ area_at self.now.blocks self.now.log_sectors area + i }
        ensures inside { result < end_of self.now.blocks self.now.log_sectors }
    {
        self.area(area) + i as u64
    }

    /// Sector `i` of the log of an area.
    pub fn log_at(&self, area: u8, i: u32) -> u64
        requires area { area < 2 }
        requires place { i < self.now.log_sectors }
        ensures value { result ≡ log_at self.now.blocks self.now.log_sectors area + i }
        ensures inside { result < end_of self.now.blocks self.now.log_sectors }
    {
        self.area(area) + self.map_sectors() as u64 + i as u64
    }

    /// How many sectors the journal has.
    pub fn end(&self) -> u64
        ensures value { result ≡ end_of self.now.blocks self.now.log_sectors }
        ensures low { result ≤ 262146 }
    {
        self.area(2)
    }
}
