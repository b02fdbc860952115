// Images of sectors, one bit at a time.
ghost use Rattle.std.specs.Prelude.{◌<◌};

use vd_base::Sector;

/// The bits of a seed's pattern: 32 of the seed, and each later one of those 32, 31, 30 and 10 before it.
fn bits(seed: u32) -> [bool; 3840] {
    let mut bits = [false; 3840];
    for i in 0..3840usize {
        bits[i] = if i < 32 {
            (seed >> (i as u32)) & 1 == 1
        } else {
            bits[i - 32] ^ bits[i - 31] ^ bits[i - 30] ^ bits[i - 10]
        };
    }
    bits
}

fn check_of(address: u64, key: u8) -> u8 {
    let mut check = key;
    for byte in address.to_be_bytes() {
        check ^= byte;
    }
    check
}

/// What sector `place` of a block of the store sd1 holds after a write with this key.
pub fn image(block: u32, place: u32, key: u8) -> Sector
    requires block { block < 16 }
    requires place { place < 8 }
{
    let address = block as u64 * 4096 + place as u64 * 512;
    let bits = bits((block * 8 + place) * 127 + key as u32 + 1);
    let mut sector = [0; 512];
    for i in 0..3840usize {
        if bits[i] {
            sector[32 + i / 8] |= 1u8 << (i % 8);
        }
    }
    sector[0..8].copy_from_slice(&address.to_be_bytes());
    sector[16] = key;
    sector[17] = check_of(address, key);
    sector[20..23].copy_from_slice(b"sd1");
    sector
}
