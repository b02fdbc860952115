// Numbers and bytes in a sector.
ghost use Rattle.std.specs.Prelude.{◌≡◌, ◌↔◌, ℕ, ◌≤◌, ◌+◌, ◌-◌, IsTrue, length, slice_range, replicate};
ghost use Rattle.std.specs.Int.{w16, w32, w64, to_be_bytes};

use vd_base::Sector;

/// The number of two bytes.
pub fn two_at(sector: &Sector, at: usize) -> u16
    requires { at + 2 ≤ 512 }
    ensures { slice_range sector.now at (at + 2) ≡ to_be_bytes w16 result }
{
    u16::from_be_bytes([sector[at], sector[at + 1]])
}

/// The number of four bytes.
pub fn four_at(sector: &Sector, at: usize) -> u32
    requires { at + 4 ≤ 512 }
    ensures { slice_range sector.now at (at + 4) ≡ to_be_bytes w32 result }
{
    u32::from_be_bytes([sector[at], sector[at + 1], sector[at + 2], sector[at + 3]])
}

/// The number of eight bytes.
pub fn eight_at(sector: &Sector, at: usize) -> u64
    requires { at + 8 ≤ 512 }
    ensures { slice_range sector.now at (at + 8) ≡ to_be_bytes w64 result }
{
    u64::from_be_bytes([
        sector[at],
        sector[at + 1],
        sector[at + 2],
        sector[at + 3],
        sector[at + 4],
        sector[at + 5],
        sector[at + 6],
        sector[at + 7],
    ])
}

/// The four bytes.
pub fn four_bytes(sector: &Sector, at: usize) -> [u8; 4]
    requires { at + 4 ≤ 512 }
    ensures { slice_range sector.now at (at + 4) ≡ result }
{
    let mut bytes = [0; 4];
    bytes.copy_from_slice(&sector[at..at + 4]);
    bytes
}

/// The eight bytes.
pub fn eight_bytes(sector: &Sector, at: usize) -> [u8; 8]
    requires { at + 8 ≤ 512 }
    ensures { slice_range sector.now at (at + 8) ≡ result }
{
    let mut bytes = [0; 8];
    bytes.copy_from_slice(&sector[at..at + 8]);
    bytes
}

fn is_zero(bytes: &[u8]) -> bool
    ensures { IsTrue result ↔ (bytes.now ≡ replicate (length bytes.now) 0) }
{
    bytes.iter().all(|byte| *byte == 0)
}

/// Whether the bytes from a place up to another are zeros.
pub fn is_zero_between(sector: &Sector, at: usize, end: usize) -> bool
    requires range { at ≤ end }
    requires inside { end ≤ 512 }
    ensures { IsTrue result ↔ (slice_range sector.now at end ≡ replicate (end - at) 0) }
{
    is_zero(&sector[at..end])
}

/// Puts bytes in place of those that are there.
pub fn put_bytes(out: &mut Sector, at: usize, bytes: &[u8])
    requires { at + length bytes.now ≤ 512 }
    ensures here { slice_range out.new at (at + length bytes.now) ≡ bytes.now }
    ensures below { (i : ℕ) (j : ℕ) → j ≤ at → slice_range out.new i j ≡ slice_range out.old i j }
    ensures above { (i : ℕ) (j : ℕ) → at + length bytes.now ≤ i → slice_range out.new i j ≡ slice_range out.old i j }
{
    out[at..at + bytes.len()].copy_from_slice(bytes);
}
