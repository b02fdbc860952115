// Bytes that are compared with a pattern where they stand.
ghost use Rattle.std.specs.Prelude.{◌≡◌, ℕ, ◌+◌, ◌*◌, ◌<◌, ◌≤◌, ◌↔◌, length, slice_index, IsTrue};
ghost use Rattle.std.specs.Int.{bit_at};
ghost use Rattle.lfsr_pattern.specs.Pattern.{bit, IsFront, IsPattern};
ghost use Rattle.lfsr_pattern.specs.Recurrences.{IsFarByte, AreFar, IsToldByBytes, IsSound};
ghost use lib.Lanes.{chunk};

use std::simd::prelude::*;

/// The bits of a word's later half that aren't made of those before them.
#[inline(always)]
fn fault(word: u64) -> u64
    ensures { result ≡ 0 ↔ IsSound word }
{
    (word ^ (word >> 1) ^ (word >> 2) ^ (word >> 22) ^ (word >> 32)) % 0x1_0000_0000
}

/// Eight bytes from a place on.
#[inline(always)]
fn eight(bytes: &[u8], at: usize) -> u8x8
    requires { at + 8 ≤ length bytes.now }
    ensures { result ≡ chunk at 8 bytes.now }
{
    u8x8::from_slice(&bytes[at..])
}

/// Eight bytes as a word, the lowest first.
#[inline(always)]
fn word(bytes: &[u8], at: usize) -> u64
    requires { at + 8 ≤ length bytes.now }
    ensures { (m : ℕ) → m < 64 → bit_at result m ≡ bit bytes.now (8 * at + m) }
{
    u64::from_le_bytes(eight(bytes, at).to_array())
}

/// The first four bytes as a word, the lowest first.
#[inline(always)]
fn first(bytes: &[u8]) -> u32
    requires { 4 ≤ length bytes.now }
    ensures { (m : ℕ) → m < 32 → bit_at result m ≡ bit bytes.now m }
{
    u32::from_le_bytes(u8x4::from_slice(bytes).to_array())
}

/// Whether the first 32 bytes are those of the pattern of a seed.
#[inline(always)]
fn begins(seed: u32, bytes: &[u8; 480]) -> bool
    ensures { IsTrue result ↔ IsFront seed bytes.now 224 }
{
    let mut bad = 0u64;
    for j in 0..7usize {
        bad |= fault(word(bytes, 4 * j));
    }
    if bad != 0 {
        return false;
    }
    first(bytes) == seed
}

/// 32 bytes from a place on.
#[inline(always)]
fn part(bytes: &[u8], at: usize) -> u8x32
    requires { at + 32 ≤ length bytes.now }
    ensures { result ≡ chunk at 32 bytes.now }
{
    u8x32::from_slice(&bytes[at..])
}

/// The bits of 32 bytes that aren't made of whole bytes far before them; `at` is the place of the first of these.
#[inline(always)]
fn far_fault(bytes: &[u8], at: usize) -> u8x32
    requires { at + 64 ≤ length bytes.now }
    ensures long { length result ≡ 32 }
    ensures each { (m : ℕ) → m < 32 → (slice_index result m ≡ 0 ↔ IsFarByte bytes.now (at + m)) }
{
    part(bytes, at)
        ^ part(bytes, at + 1)
        ^ part(bytes, at + 2)
        ^ part(bytes, at + 22)
        ^ part(bytes, at + 32)
}

/// Whether each byte from 32 on is made of bytes far before it, 32 at a time.
// No exit within the loop: it would keep the loop from going by lanes.
#[inline(always)]
fn goes_on(bytes: &[u8; 480]) -> bool
    ensures { IsTrue result ↔ AreFar bytes.now 3584 }
{
    let mut bad = u8x32::splat(0);
    for j in 0..14usize {
        bad = bad | far_fault(bytes, 32 * j);
    }
    bad.reduce_or() == 0
}

/// Whether these bytes are the pattern of a seed.
// No pattern is made: the bytes are compared with those before them, as read. The recurrence squared three times has eight
// times its lags, so it ties whole bytes.
#[inline(always)]
pub fn is_pattern(seed: u32, bytes: &[u8; 480]) -> bool
    ensures { IsTrue result ↔ IsPattern seed bytes.now }
{
    if !begins(seed, bytes) {
        return false;
    }
    goes_on(bytes)
}

/// The law by which a pattern is told without making it. It does nothing.
pub fn told_by_bytes()
    ensures { IsToldByBytes }
{}
