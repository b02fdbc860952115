// The 32 bytes of an image before its pattern.
ghost use Rattle.std.specs.Prelude.{◌≡◌, ◌+◌, ◌≤◌, ◌++◌, length, take};
ghost use Rattle.sector_stamp.specs.Image.{IsHead, check_of};

/// The exclusive or of the eight bytes of an address and of a key.
#[inline(always)]
pub(crate) fn check(address: u64, key: u8) -> u8
    ensures { result ≡ check_of address key }
{
    let mut all = key;
    for byte in address.to_be_bytes() {
        all ^= byte;
    }
    all
}

/// Writes the next part of a head, behind the parts before it.
#[inline(always)]
fn put(out: &mut [u8; 32], at: usize, part: &[u8])
    requires { at + length part.now ≤ 32 }
    ensures { take (at + length part.now) out.new ≡ take at out.old ++ part.now }
{
    out[at..at + part.len()].copy_from_slice(part);
}

/// The bytes before the pattern, for the padded name of the sector's store.
#[inline(always)]
pub(crate) fn head(name: &[u8; 8], address: u64, key: u8) -> [u8; 32]
    ensures { IsHead name.now address key result }
{
    let mut head = [0; 32];
    put(&mut head, 0, &address.to_be_bytes());
    put(&mut head, 8, &[0; 8]);
    put(&mut head, 16, &[key, check(address, key), 0, 0]);
    put(&mut head, 20, name);
    put(&mut head, 28, &[0; 4]);
    head
}
