// A sector as read, beside an image.
ghost use Rattle.std.specs.Prelude.{◌≡◌, ◌≢◌, ◌≤◌, ◌↔◌, IsTrue, IsNone, MatchOption, length, slice_range, take};
ghost use Rattle.sector_stamp.specs.Image.{HasName, HasAddress, HasKey, IsImage, IsFirstDifference};

use crate::Part;
use crate::heading::{check, head};
use lfsr_pattern::{is_pattern, seed};
use std::simd::prelude::*;
use vd_base::{Key, Sector, StoreName};

/// The first part, in the order name, address, key, pattern, whose bytes aren't those of the image.
/// The address is the byte of the store at which the sector begins.
#[inline(always)]
pub fn first_difference(name: &StoreName, address: u64, key: Key, sector: &Sector) -> Option<Part>
    requires written { key ≢ 0 }
    ensures none { IsNone result ↔ IsImage name.now address key sector.now }
    ensures part { MatchOption result (IsImage name.now address key sector.now) (λ part. IsFirstDifference part name.now address key sector.now) }
{
    let padded = name.padded();
    if is_image(&padded, address, key.get(), sector) {
        return None;
    }
    Some(differing(&padded, address, key.get(), sector))
}

/// Whether a sector is an image, for the padded name of its store. It is compared 32 bytes at a time.
#[inline(always)]
fn is_image(name: &[u8; 8], address: u64, key: u8, sector: &Sector) -> bool
    ensures { IsTrue result ↔ IsImage name.now address key sector.now }
{
    if !begins_with(sector, &head(name, address, key)) {
        return false;
    }
    is_pattern(seed(address, key), pattern_of(sector))
}

/// The first 32 bytes.
#[inline(always)]
fn front(bytes: &[u8]) -> u8x32
    requires { 32 ≤ length bytes.now }
    ensures { result ≡ take 32 bytes.now }
{
    u8x32::from_slice(bytes)
}

/// Whether these are a sector's first 32 bytes.
#[inline(always)]
fn begins_with(sector: &Sector, head: &[u8; 32]) -> bool
    ensures { IsTrue result ↔ (take 32 sector.now ≡ head.now) }
{
    let differences = front(sector) ^ front(head);
    differences.reduce_or() == 0
}

/// The bytes of the pattern.
#[inline(always)]
fn pattern_of(sector: &Sector) -> &[u8; 480]
    ensures { result.now ≡ slice_range sector.now 32 512 }
{
    match sector.last_chunk::<480>() {
        Some(pattern) => pattern,
        None => unreachable!(),
    }
}

/// The first part of a sector, which isn't this image, that differs from it.
#[cold]
fn differing(name: &[u8; 8], address: u64, key: u8, sector: &Sector) -> Part
    requires { IsImage name.now address key sector.now → ⊥ }
    ensures { IsFirstDifference result name.now address key sector.now }
{
    if !has_name(name, sector) {
        return Part::Name;
    }
    if !has_address(address, sector) {
        return Part::Address;
    }
    if !has_key(address, key, sector) {
        return Part::Key;
    }
    Part::Pattern
}

fn has_name(name: &[u8; 8], sector: &Sector) -> bool
    ensures { IsTrue result ↔ HasName name.now sector.now }
{
    sector[20..28] == name[..]
}

fn has_address(address: u64, sector: &Sector) -> bool
    ensures { IsTrue result ↔ HasAddress address sector.now }
{
    sector[..8] == address.to_be_bytes()[..]
}

fn has_key(address: u64, key: u8, sector: &Sector) -> bool
    ensures { IsTrue result ↔ HasKey address key sector.now }
{
    sector[16..18] == [key, check(address, key)]
}
