// Seeds, and the patterns that are made from them a byte at a time.
ghost use Rattle.std.specs.Prelude.{◌≡◌, ℕ, ◌+◌, ◌*◌, ◌/◌, ◌^◌, ◌<◌, ◌≤◌};
ghost use Rattle.lfsr_pattern.specs.Pattern.{seed_of, IsPattern, HasOnePattern};
ghost use Rattle.lfsr_pattern.specs.Recurrences.{next_byte, next_state, StepsByRecurrence};

/// The seed of a sector, from the byte at which it begins in its store and its key: 1 to 2^32 - 1.
pub fn seed(address: u64, key: u8) -> u32
    ensures value { result ≡ seed_of address key }
    ensures range { (1 ≤ result) × (result ≤ 4294967295) }
{
    ((address / 512 * 127 + key as u64) % 4294967295 + 1) as u32
}

/// The eight bits that follow 32 bits of a pattern, whose lowest is the oldest.
#[inline(always)]
fn following(state: u32) -> u32
    ensures { result ≡ next_byte state }
{
    (state ^ (state >> 1) ^ (state >> 2) ^ (state >> 22)) % 256
}

/// The last 32 bits of a pattern after eight more.
#[inline(always)]
fn stepped(state: u32) -> u32
    ensures { result ≡ next_state state }
{
    (state >> 8) | (following(state) << 24)
}

/// Makes the pattern of a seed.
pub fn fill(seed: u32, out: &mut [u8; 480])
    ensures { IsPattern seed out.new }
{
    let mut state = seed;
    for j in 0..480usize {
        out[j] = (state % 256) as u8;
        state = stepped(state);
    }
}

/// The law that a seed has one pattern. It does nothing.
pub fn one_pattern()
    ensures { HasOnePattern }
{}

/// The law that a step of a byte, by which patterns are made, is eight bits of the recurrence. It does nothing.
pub fn byte_step()
    ensures { StepsByRecurrence }
{}
