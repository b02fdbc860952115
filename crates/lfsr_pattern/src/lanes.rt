// Eight patterns at once: a byte of each in one step of a vector that has their last 32 bits.
ghost use Rattle.std.specs.Prelude.{◌≡◌, ℕ, ◌%◌, ◌^◌, ◌<◌, [], length, slice_index, slice_index_or, slice_set};
ghost use Rattle.lfsr_pattern.specs.Pattern.{IsPattern};
ghost use Rattle.lfsr_pattern.specs.Recurrences.{next_state};

use std::simd::prelude::*;

/// Each lane's last 32 bits after eight more.
#[inline(always)]
fn stepped_lanes(states: u32x8) -> u32x8
    requires long { length states ≡ 8 }
    requires fits { (lane : ℕ) → lane < 8 → slice_index states lane < 2 ^ 32 }
    ensures long { length result ≡ 8 }
    ensures each { (lane : ℕ) → lane < 8 → slice_index result lane ≡ next_state (slice_index states lane) }
{
    let next = states ^ (states >> 1) ^ (states >> 2) ^ (states >> 22);
    (states >> 8) | (next << 24)
}

/// Writes the lowest byte of each state.
#[inline(always)]
fn put_bytes(states: &[u32; 8], j: usize, out: &mut [[u8; 480]; 8])
    requires { j < 480 }
    ensures { (lane : ℕ) → lane < 8 → slice_index_or out.new lane [] ≡ slice_set (slice_index_or out.old lane []) j (slice_index states.now lane % 256) }
{
    for lane in 0..8usize {
        out[lane][j] = (states[lane] % 256) as u8;
    }
}

#[inline(always)]
fn length_of(pattern: &[u8; 480]) -> usize
    ensures { length pattern.now ≡ 480 }
{
    pattern.len()
}

/// What the type says of the patterns' lengths.
#[inline(always)]
fn sized(out: &[[u8; 480]; 8])
    ensures { (lane : ℕ) → lane < 8 → length (slice_index_or out.now lane []) ≡ 480 }
{
    for lane in 0..8usize {
        let _length = length_of(&out[lane]);
    }
}

/// Makes the patterns of eight seeds.
pub fn fill_lanes(seeds: &[u32; 8], out: &mut [[u8; 480]; 8])
    ensures { (lane : ℕ) → lane < 8 → IsPattern (slice_index seeds.now lane) (slice_index_or out.new lane []) }
{
    sized(out);
    let mut states = u32x8::from_array(*seeds);
    for j in 0..480usize {
        put_bytes(&states.to_array(), j, out);
        states = stepped_lanes(states);
    }
}
