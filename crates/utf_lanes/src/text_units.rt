//! Text in UTF-8 as UTF-16, in blocks of sixteen bytes, and of 64 if they are ASCII.
ghost use Rattle.std.specs.Prelude.{◌≡◌, ℕ, ◌+◌, ◌-◌, ◌*◌, ◌<◌, ◌≤◌, ◌&&◌, ◌++◌, ◌∷◌, List, nat_le, length, take, slice_index, count_ones};
ghost use Rattle.utf_lanes.specs.Lanes.{AreBits, AreLanes, ArePairs, lane_of_two, lane_of_three, lane_of_four};
ghost use Rattle.utf_lanes.specs.Utf8ToUtf16.{AreLoaded, utf16_bytes, concat_range, IsRow, block_bytes, ends_unit, given, halves, halves_at, low_half, high_half, unit_low, unit_high, pair_at, places_at, leading_low, leading_high, trailing_high};
ghost use Rattle.utf_lanes.specs.TextBlocks.{EndsCharacter};

use crate::byte_order::ByteOrder;
use crate::few_bytes::before_lanes;
use crate::shuffles::COMPRESS_PAIRS;
use std::simd::prelude::*;

// The bytes of the units of half a block: the first `len`.
#[derive(Drop)]
pub(crate) struct UnitBytes {
    // The bytes of the units, followed by any.
    pub(crate) bytes: [u8; 16],
    // The number of bytes.
    pub(crate) len: usize,
}

// The units of the sixteen bytes from the offset on, except those of the first `skipped`.
#[inline(always)]
pub(crate) fn block_units<E: ByteOrder>(
    bytes: &[u8],
    place: usize,
    skipped: usize,
) -> (UnitBytes, UnitBytes)
    requires start { 3 ≤ place }
    requires within { place + 16 ≤ length bytes.now }
    requires few { skipped < 16 }
    ensures first { result.0.len ≤ 16 }
    ensures second { result.1.len ≤ 16 }
    ensures units { given result.0 ++ given result.1 ≡ block_bytes E.HIGH_FIRST bytes.now place skipped }
{
    let here = u8x16::from_slice(&bytes[place..]);
    let first = u8x16::from_slice(&bytes[place - 1..]);
    let second = u8x16::from_slice(&bytes[place - 2..]);
    let third = u8x16::from_slice(&bytes[place - 3..]);
    lane_units::<E>(third, second, first, here, skipped)
}

// The units of sixteen bytes that NULs precede. They are not loaded again, which would stall on store
// forwarding.
#[inline(always)]
pub(crate) fn front_units<E: ByteOrder>(here: u8x16, skipped: usize) -> (UnitBytes, UnitBytes)
    requires few { skipped < 16 }
    ensures first { result.0.len ≤ 16 }
    ensures second { result.1.len ≤ 16 }
    ensures units { given result.0 ++ given result.1 ≡ block_bytes E.HIGH_FIRST (0 ∷ 0 ∷ 0 ∷ here) 3 skipped }
{
    let (first, second, third) = before_lanes(here);
    lane_units::<E>(third, second, first, here, skipped)
}

// The units of the bytes in the last of four vectors, by the bytes before them in the others.
#[inline(always)]
fn lane_units<E: ByteOrder>(
    third: u8x16,
    second: u8x16,
    first: u8x16,
    here: u8x16,
    skipped: usize,
) -> (UnitBytes, UnitBytes)
    requires few { skipped < 16 }
    ensures first { result.0.len ≤ 16 }
    ensures second { result.1.len ≤ 16 }
    ensures units { (xs : List ℕ) (place : ℕ) → AreLoaded third second first here xs place →
        given result.0 ++ given result.1 ≡ block_bytes E.HIGH_FIRST xs place skipped }
{
    let (low, high) = lane_halves(third, second, first, here);
    let mask = mask_of_unit_ends(first, here, skipped);
    let (front, back) = paired::<E>(low, high);
    (
        compressed_pairs(front, mask & 255),
        compressed_pairs(back, mask >> 8),
    )
}

// The two bytes of each unit, side by side: of the first eight units, and of the others.
#[inline(always)]
fn paired<E: ByteOrder>(low: u8x16, high: u8x16) -> (u8x16, u8x16)
    ensures front { ArePairs result.0 (halves_at E.HIGH_FIRST low high) }
    ensures back { ArePairs result.1 (λ k. halves_at E.HIGH_FIRST low high (8 + k)) }
{
    if E::HIGH_FIRST {
        high.interleave(low)
    } else {
        low.interleave(high)
    }
}

// The lanes from `skipped` on that give a unit, each as a bit.
#[inline(always)]
fn mask_of_unit_ends(before: u8x16, here: u8x16, skipped: usize) -> usize
    requires few { skipped < 16 }
    ensures most { result < 65536 }
    ensures bits { AreBits 16 result
        (λ k. ends_unit (slice_index before k) (slice_index here k) && nat_le skipped k) }
{
    let later = before.saturating_sub(u8x16::splat(0x20)).simd_max(here);
    let mask = later.simd_lt(u8x16::splat(0xc0)).to_bitmask() as usize;
    mask & (usize::MAX << skipped)
}

// The low and high halves of the units.
#[inline(always)]
fn lane_halves(third: u8x16, second: u8x16, first: u8x16, here: u8x16) -> (u8x16, u8x16)
    ensures low { AreLanes 16 result.0 (lane_of_three unit_low second first here) }
    ensures high { AreLanes 16 result.1 (lane_of_four unit_high third second first here) }
{
    if second
        .simd_max(third)
        .simd_ge(u8x16::splat(0xf0))
        .to_bitmask()
        == 0
    {
        short_halves(second, first, here)
    } else {
        long_halves(third, second, first, here)
    }
}

// The halves of units that end codes of at most three bytes.
#[inline(always)]
fn short_halves(second: u8x16, first: u8x16, here: u8x16) -> (u8x16, u8x16)
    ensures low { AreLanes 16 result.0 (lane_of_two low_half first here) }
    ensures high { AreLanes 16 result.1 (lane_of_three high_half second first here) }
{
    let none = u8x16::splat(0);
    let continued = here.simd_lt(u8x16::splat(0x80)).select(none, first);
    let low = (here & u8x16::splat(0x7f)) + (continued << u8x16::splat(6));
    let upper = second.saturating_sub(u8x16::splat(0xe0)) << u8x16::splat(4);
    let high = ((continued >> u8x16::splat(2)) & u8x16::splat(15)) + upper;
    (low, high)
}

// The halves of units, some of which may be surrogates.
#[inline(never)]
fn long_halves(third: u8x16, second: u8x16, first: u8x16, here: u8x16) -> (u8x16, u8x16)
    ensures low { AreLanes 16 result.0 (lane_of_three unit_low second first here) }
    ensures high { AreLanes 16 result.1 (lane_of_four unit_high third second first here) }
{
    let (low, high) = short_halves(second, first, here);
    let (leading_low, leading_high) = leading_halves(second, first, here);
    let trailing_high = trailing_halves(first);
    let is_short = second.simd_lt(u8x16::splat(0xf0));
    let shorter = third
        .simd_lt(u8x16::splat(0xf0))
        .select(high, trailing_high);
    (
        is_short.select(low, leading_low),
        is_short.select(shorter, leading_high),
    )
}

// The halves of leading surrogates.
#[inline(always)]
fn leading_halves(second: u8x16, first: u8x16, here: u8x16) -> (u8x16, u8x16)
    ensures low { AreLanes 16 result.0 (lane_of_two leading_low first here) }
    ensures high { AreLanes 16 result.1 (lane_of_three leading_high second first here) }
{
    let bits = (first & u8x16::splat(0x3f)) << u8x16::splat(2);
    let more = (here & u8x16::splat(0x3f)) >> u8x16::splat(4);
    let low = bits + more + u8x16::splat(0xc0);
    let carried = low.simd_lt(u8x16::splat(0xc0));
    let high = (second & u8x16::splat(7)) + carried.select(u8x16::splat(0xd8), u8x16::splat(0xd7));
    (low, high)
}

// The high halves of trailing surrogates.
#[inline(always)]
fn trailing_halves(first: u8x16) -> u8x16
    ensures { AreLanes 16 result (λ k. trailing_high (slice_index first k)) }
{
    ((first >> u8x16::splat(2)) & u8x16::splat(3)) + u8x16::splat(0xdc)
}

// The pairs of bytes whose bits the mask has, in order.
#[inline(always)]
fn compressed_pairs(pairs: u8x16, mask: usize) -> UnitBytes
    requires { mask < 256 }
    ensures len { result.len ≤ 16 }
    ensures bytes { take result.len result.bytes ≡ concat_range (pair_at mask pairs) 0 8 }
{
    let places = compress_places(mask);
    let bytes = pairs.swizzle_dyn(u8x16::from_array(places)).to_array();
    UnitBytes {
        bytes,
        len: 2 * (mask.count_ones() as usize),
    }
}

// The offsets of these pairs: two for each bit that the mask has, followed by any.
#[inline(always)]
fn compress_places(mask: usize) -> [u8; 16]
    requires { mask < 256 }
    ensures { IsRow result mask (2 * count_ones mask) 8 (places_at mask) }
{
    COMPRESS_PAIRS[mask]
}

/// The units of 64 bytes of ASCII: each byte and a NUL.
#[inline(always)]
pub fn ascii_units<E: ByteOrder>(text: &[u8], place: usize) -> ([u8; 64], [u8; 64])
    requires start { 3 ≤ place }
    requires within { place + 64 ≤ length text.now }
    requires closed { EndsCharacter text.now place }
    requires ascii { (k : ℕ) → k < 64 → slice_index text.now (place + k) < 0x80 }
    ensures first { result.0 ≡ utf16_bytes E.HIGH_FIRST text.now place 32 }
    ensures second { result.1 ≡ utf16_bytes E.HIGH_FIRST text.now (place + 32) 32 }
{
    let (first, second) = interleave_zeros_wide::<E>(u8x64::from_slice(&text[place..]));
    (first.to_array(), second.to_array())
}

/// Each byte with a NUL, which is the high byte of its unit: of the first 32 bytes, and of the others.
#[inline(always)]
pub fn interleave_zeros_wide<E: ByteOrder>(bytes: u8x64) -> (u8x64, u8x64)
    ensures first { result.0 ≡ concat_range (λ k. halves E.HIGH_FIRST (slice_index bytes k) 0) 0 32 }
    ensures second { result.1 ≡ concat_range (λ k. halves E.HIGH_FIRST (slice_index bytes k) 0) 32 32 }
{
    interleave_wide::<E>(bytes, u8x64::splat(0))
}

// The halves of units, side by side: of the first 32 units, and of the others.
#[inline(always)]
pub(crate) fn interleave_wide<E: ByteOrder>(lows: u8x64, highs: u8x64) -> (u8x64, u8x64)
    ensures first { result.0 ≡ concat_range (halves_at E.HIGH_FIRST lows highs) 0 32 }
    ensures second { result.1 ≡ concat_range (halves_at E.HIGH_FIRST lows highs) 32 32 }
{
    if E::HIGH_FIRST {
        highs.interleave(lows)
    } else {
        lows.interleave(highs)
    }
}
