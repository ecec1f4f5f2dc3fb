//! Texts of only ASCII, validated as a whole, and the units of sixteen bytes of them.
ghost use Rattle.std.specs.Prelude.{◌≡◌, ℕ, ◌+◌, ◌*◌, ◌<◌, ◌≤◌, IsTrue, length, slice_index};
ghost use Rattle.utf_lanes.specs.AsciiTexts.{AreAscii};
ghost use Rattle.utf_lanes.specs.Utf8ToUtf16.{concat_range, halves};

use crate::byte_order::ByteOrder;
use crate::few_bytes::{eights, fours};
use std::simd::prelude::*;

/// Returns true if all bytes are ASCII.
#[inline(always)]
pub fn is_ascii(bytes: &[u8]) -> bool
    ensures ascii { IsTrue result → AreAscii bytes.now 0 (length bytes.now) }
    ensures all { AreAscii bytes.now 0 (length bytes.now) → IsTrue result }
{
    if bytes.len() <= 16 {
        return is_ascii_few(bytes);
    }
    let wide = ascii_end::<1>(bytes, 0);
    is_ascii_from(bytes, wide)
}

// Returns true if a few bytes are ASCII; one vector has the first and the last of them.
#[inline(always)]
fn is_ascii_few(bytes: &[u8]) -> bool
    requires { length bytes.now ≤ 16 }
    ensures ascii { IsTrue result → AreAscii bytes.now 0 (length bytes.now) }
    ensures all { AreAscii bytes.now 0 (length bytes.now) → IsTrue result }
{
    if bytes.len() < 4 {
        return is_ascii_each(bytes);
    }
    if bytes.len() < 8 {
        return are_low(fours(bytes));
    }
    are_low(eights(bytes))
}

// Returns true if all lanes are ASCII.
#[inline(always)]
fn are_low(lanes: u8x16) -> bool
    ensures low { IsTrue result → (k : ℕ) → k < 16 → slice_index lanes k < 0x80 }
    ensures all { ((k : ℕ) → k < 16 → slice_index lanes k < 0x80) → IsTrue result }
{
    lanes.simd_ge(u8x16::splat(0x80)).to_bitmask() == 0
}

// Returns true if a few bytes are ASCII, testing them one by one.
#[inline(always)]
pub(crate) fn is_ascii_each(bytes: &[u8]) -> bool
    ensures ascii { IsTrue result → AreAscii bytes.now 0 (length bytes.now) }
    ensures all { AreAscii bytes.now 0 (length bytes.now) → IsTrue result }
{
    let mut place = 0;
    while place < bytes.len() {
        if 0x80 <= bytes[place] {
            return false;
        }
        place += 1;
    }
    true
}

// Returns true if the bytes from the start on are ASCII, validated in blocks of sixteen, of which the last
// ends with the bytes.
#[inline(always)]
fn is_ascii_from(bytes: &[u8], start: usize) -> bool
    requires long { 16 ≤ length bytes.now }
    requires within { start ≤ length bytes.now }
    requires ascii { AreAscii bytes.now 0 start }
    ensures ascii { IsTrue result → AreAscii bytes.now 0 (length bytes.now) }
    ensures all { AreAscii bytes.now 0 (length bytes.now) → IsTrue result }
{
    let mut place = start;
    while 16 <= bytes.len() - place {
        if !is_ascii_16(bytes, place) {
            return false;
        }
        place += 16;
    }
    is_ascii_16(bytes, bytes.len() - 16)
}

// Returns true if the sixteen bytes from the offset on are ASCII.
#[inline(always)]
fn is_ascii_16(bytes: &[u8], place: usize) -> bool
    requires { place + 16 ≤ length bytes.now }
    ensures ascii { IsTrue result → AreAscii bytes.now place (place + 16) }
    ensures all { AreAscii bytes.now place (place + 16) → IsTrue result }
{
    u8x16::from_slice(&bytes[place..])
        .simd_ge(u8x16::splat(0x80))
        .to_bitmask()
        == 0
}

/// Returns true if the 64 bytes from the offset on are ASCII.
#[inline(always)]
pub fn is_ascii_block(bytes: &[u8], place: usize) -> bool
    requires { place + 64 ≤ length bytes.now }
    ensures ascii { IsTrue result → (k : ℕ) → k < 64 → slice_index bytes.now (place + k) < 0x80 }
    ensures all { ((k : ℕ) → k < 64 → slice_index bytes.now (place + k) < 0x80) → IsTrue result }
{
    let either = u8x32::from_slice(&bytes[place..]) | u8x32::from_slice(&bytes[place + 32..]);
    either.simd_ge(u8x32::splat(0x80)).to_bitmask() == 0
}

/// The end of the 64-byte blocks of ASCII that begin at the offset, validated two in one step as far as
/// possible.
#[inline(always)]
pub fn ascii_wide_end(bytes: &[u8], start: usize) -> usize
    requires { start ≤ length bytes.now }
    ensures least { start ≤ result }
    ensures within { result ≤ length bytes.now }
    ensures ascii { AreAscii bytes.now start result }
{
    let place = ascii_end::<2>(bytes, start);
    if 64 <= bytes.len() - place && is_ascii_block(bytes, place) {
        return place + 64;
    }
    place
}

// The end of the 64-byte blocks of ASCII that begin at the offset, validated only `BLOCKS` in one step, one
// or two.
#[inline(always)]
pub(crate) fn ascii_end<const BLOCKS: usize>(bytes: &[u8], start: usize) -> usize
    requires some { 1 ≤ BLOCKS }
    requires few { BLOCKS ≤ 2 }
    requires start { start ≤ length bytes.now }
    ensures least { start ≤ result }
    ensures within { result ≤ length bytes.now }
    ensures ascii { AreAscii bytes.now start result }
{
    let mut place = start;
    while 64 * BLOCKS <= bytes.len() - place {
        if !are_ascii_blocks::<BLOCKS>(bytes, place) {
            return place;
        }
        place += 64 * BLOCKS;
    }
    place
}

// Returns true if `BLOCKS` blocks from the offset on are ASCII: the first and the last are all of them.
#[inline(always)]
fn are_ascii_blocks<const BLOCKS: usize>(bytes: &[u8], place: usize) -> bool
    requires some { 1 ≤ BLOCKS }
    requires few { BLOCKS ≤ 2 }
    requires within { place + 64 * BLOCKS ≤ length bytes.now }
    ensures { IsTrue result → AreAscii bytes.now place (place + 64 * BLOCKS) }
{
    is_ascii_block(bytes, place) & is_ascii_block(bytes, place + 64 * (BLOCKS - 1))
}

/// Each byte with a NUL: the first eight bytes, and the others.
#[inline(always)]
pub fn interleave_zeros<E: ByteOrder>(bytes: u8x16) -> (u8x16, u8x16)
    ensures first { result.0 ≡ concat_range (λ k. halves E.HIGH_FIRST (slice_index bytes k) 0) 0 8 }
    ensures second { result.1 ≡ concat_range (λ k. halves E.HIGH_FIRST (slice_index bytes k) 0) 8 8 }
{
    let nuls = u8x16::splat(0);
    if E::HIGH_FIRST {
        nuls.interleave(bytes)
    } else {
        bytes.interleave(nuls)
    }
}
