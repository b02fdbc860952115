// The heads and the ends of log sectors.
ghost use Rattle.std.specs.Prelude.{◌≡◌, ◌↔◌, ℕ, ◌≤◌, IsTrue, slice_range};
ghost use Rattle.journal_layout.specs.Gate.{IsVersion};
ghost use Rattle.journal_layout.specs.Log.{log_magic, HasHead, HasCount, HeadSays, IsZeroPast};

use crate::Head;
use crate::bytes::{eight_at, four_at, is_zero_between, put_bytes, two_at};
use vd_base::Sector;

/// How a log sector of this version begins.
fn magic_of(version: u8) -> [u8; 8]
    requires { IsVersion version }
    ensures { result ≡ log_magic version }
{
    let mut magic = *b"VDJLOGS0";
    magic[7] = b'0' + version;
    magic
}

fn has_magic(sector: &Sector, version: u8) -> bool
    requires { IsVersion version }
    ensures { IsTrue result ↔ (slice_range sector.now 0 8 ≡ log_magic version) }
{
    &sector[..8] == magic_of(version).as_slice()
}

fn has_head(sector: &Sector, version: u8, epoch: u64, place: u32) -> bool
    requires { IsVersion version }
    ensures { IsTrue result ↔ HasHead version epoch place sector.now }
{
    has_magic(sector, version) && eight_at(sector, 8) == epoch && four_at(sector, 16) == place
}

/// What the head of a log sector says, at this version, epoch and place.
pub fn log_head(sector: &Sector, version: u8, epoch: u64, place: u32) -> Head
    requires { IsVersion version }
    ensures { HeadSays version epoch place sector.now result }
{
    if !has_head(sector, version, epoch, place) {
        return Head::Foreign;
    }
    let count = two_at(sector, 20);
    if 1 <= count && count <= 30 && is_zero_between(sector, 22, 32) {
        Head::Count(count as u8)
    } else {
        Head::BadHeader
    }
}

/// Makes the head of a log sector, and leaves the places of its records.
pub fn put_log_head(sector: &mut Sector, version: u8, epoch: u64, place: u32, count: u8)
    requires version { IsVersion version }
    requires some { 1 ≤ count }
    requires most { count ≤ 30 }
    ensures head { HasCount version epoch place sector.new count }
    ensures rest { (i : ℕ) (j : ℕ) → 32 ≤ i → slice_range sector.new i j ≡ slice_range sector.old i j }
{
    put_bytes(sector, 0, &magic_of(version));
    put_bytes(sector, 8, &epoch.to_be_bytes());
    put_bytes(sector, 16, &place.to_be_bytes());
    put_bytes(sector, 20, &(count as u16).to_be_bytes());
    put_bytes(sector, 22, &[0; 10]);
}

/// Whether the places past so many records are zeros.
pub fn tail_is_zero(sector: &Sector, count: u8) -> bool
    requires { count ≤ 30 }
    ensures { IsTrue result ↔ IsZeroPast sector.now count }
{
    is_zero_between(sector, 32 + 16 * count as usize, 512)
}
