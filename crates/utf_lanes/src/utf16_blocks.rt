//! Sixteen or thirty-two units of UTF-16 as bytes of UTF-8, written into a buffer from an offset on.
ghost use Rattle.std.specs.Prelude.{◌≡◌, ℕ, ◌+◌, ◌-◌, ◌*◌, ◌<◌, ◌≤◌, true, length, slice_index};
ghost use Rattle.utf_lanes.specs.UnitCodes.{lane_unit, AreCharacters, AreText, WritesUnits};
ghost use Rattle.utf_lanes.specs.UnitMending.{AreTextUnits};
ghost use Rattle.utf_base.specs.Units.{is_leading_surrogate};

use crate::slots::{Sixteen, SlotWriter, ThirtyTwo};
use crate::unit_bytes::{
    are_ascii, are_characters, are_short, first_bytes, last_bytes, mask_of_top_bits, middle_bytes,
    text_first_bytes, text_last_bytes, text_middle_bytes,
};
use std::simd::prelude::*;

/// Writes the UTF-8 of sixteen units, or of fifteen, or none. Returns the number of units, and the offset
/// after the bytes.
#[inline(always)]
pub fn write_sixteen(low: u8x16, high: u8x16, room: &mut [u8], at: usize) -> (usize, usize)
    requires { at + 64 ≤ length room.old }
    ensures { WritesUnits 16 low high room.old room.new at result.0 result.1 }
{
    if are_ascii(low, high) {
        return (16, write_ascii_units(low, high, room, at));
    }
    write_others(low, high, room, at)
}

/// Writes the UTF-8 of sixteen units that are not all ASCII, or of fifteen, or none.
#[inline(always)]
pub fn write_others(low: u8x16, high: u8x16, room: &mut [u8], at: usize) -> (usize, usize)
    requires { at + 64 ≤ length room.old }
    ensures { WritesUnits 16 low high room.old room.new at result.0 result.1 }
{
    if are_short(high) {
        return (16, write_short_units::<16, Sixteen>(low, high, room, at));
    }
    if are_characters(high) {
        return (16, write_long_units::<16, Sixteen>(low, high, room, at));
    }
    write_text::<16, Sixteen>(low, high, room, at)
}

/// Writes the UTF-8 of thirty-two units that are characters. Returns the offset after the bytes.
#[inline(always)]
pub fn write_characters(low: u8x32, high: u8x32, room: &mut [u8], at: usize) -> usize
    requires room { at + 112 ≤ length room.old }
    requires characters { AreCharacters 32 high }
    ensures { WritesUnits 32 low high room.old room.new at 32 result }
{
    if !are_short(high) {
        return write_long_units::<32, ThirtyTwo>(low, high, room, at);
    }
    if are_ascii(low, high) {
        return write_ascii_units(low, high, room, at);
    }
    write_short_units::<32, ThirtyTwo>(low, high, room, at)
}

/// Writes the UTF-8 of thirty-two units, or of thirty-one, or none. Returns the number of units, and the
/// offset after the bytes.
#[inline(always)]
pub fn write_thirty_two(low: u8x32, high: u8x32, room: &mut [u8], at: usize) -> (usize, usize)
    requires { at + 112 ≤ length room.old }
    ensures { WritesUnits 32 low high room.old room.new at result.0 result.1 }
{
    if !are_characters(high) {
        return write_text::<32, ThirtyTwo>(low, high, room, at);
    }
    (32, write_characters(low, high, room, at))
}

/// Writes the UTF-8 of the first of thirty-two units, which are text: all, or all but a leading surrogate at the end.
/// Returns the offset after the bytes.
#[inline(always)]
pub fn write_text_units(low: u8x32, high: u8x32, count: usize, room: &mut [u8], at: usize) -> usize
    requires room { at + 112 ≤ length room.old }
    requires text { AreTextUnits low high count }
    ensures { WritesUnits 32 low high room.old room.new at count result }
{
    if count == 32 && are_ascii(low, high) {
        return write_ascii_units(low, high, room, at);
    }
    write_other_units(low, high, count, room, at)
}

// Writes the UTF-8 of units that are not all ASCII. Outlined, so that its code is there once for all encodings.
#[inline(never)]
fn write_other_units(low: u8x32, high: u8x32, count: usize, room: &mut [u8], at: usize) -> usize
    requires room { at + 112 ≤ length room.old }
    requires text { AreTextUnits low high count }
    ensures { WritesUnits 32 low high room.old room.new at count result }
{
    if count == 32 && are_characters(high) {
        return write_characters(low, high, room, at);
    }
    write_paired::<32, ThirtyTwo>(low, high, count, room, at)
}

/// Writes the bytes of N units of ASCII. Returns the offset after them.
#[inline(always)]
pub fn write_ascii_units<const N: usize>(
    low: Simd<u8, N>,
    high: Simd<u8, N>,
    room: &mut [u8],
    at: usize,
) -> usize
    requires most { N ≤ 32 }
    requires ascii { (k : ℕ) → k < N → lane_unit low high k < 0x80 }
    requires room { at + (3 * N + 16) ≤ length room.old }
    ensures { WritesUnits N low.entry high.entry room.old room.new at N result }
{
    low.copy_to_slice(&mut room[at..]);
    at + N
}

// Writes the UTF-8 of N units of which none has three bytes. Returns the offset after the bytes.
#[inline(always)]
fn write_short_units<const N: usize, W: SlotWriter<N>>(
    low: Simd<u8, N>,
    high: Simd<u8, N>,
    room: &mut [u8],
    at: usize,
) -> usize
    requires short { (k : ℕ) → k < N → slice_index high k < 8 }
    requires room { at + (3 * N + 16) ≤ length room.old }
    ensures { WritesUnits N low.entry high.entry room.old room.new at N result }
{
    W::write_short(middle_bytes(low, high), last_bytes(low, high), room, at)
}

// Writes the UTF-8 of N units that are any characters. Returns the offset after the bytes.
#[inline(always)]
fn write_long_units<const N: usize, W: SlotWriter<N>>(
    low: Simd<u8, N>,
    high: Simd<u8, N>,
    room: &mut [u8],
    at: usize,
) -> usize
    requires characters { AreCharacters N high }
    requires room { at + (3 * N + 16) ≤ length room.old }
    ensures { WritesUnits N low.entry high.entry room.old room.new at N result }
{
    let middle = middle_bytes(low, high);
    let last = last_bytes(low, high);
    W::write_slots(first_bytes(high), middle, last, room, at)
}

// Writes the UTF-8 of N units, some of which may be surrogates. Returns the number of units, which is all, or
// one less, or none, and the offset after the bytes.
#[inline(always)]
fn write_text<const N: usize, W: SlotWriter<N>>(
    low: Simd<u8, N>,
    high: Simd<u8, N>,
    room: &mut [u8],
    at: usize,
) -> (usize, usize)
    requires least { 2 ≤ N }
    requires most { N ≤ 32 }
    requires room { at + (3 * N + 16) ≤ length room.old }
    ensures { WritesUnits N low.entry high.entry room.old room.new at result.0 result.1 }
{
    let count = paired_units(low, high);
    if count == 0 {
        return (0, at);
    }
    (count, write_paired::<N, W>(low, high, count, room, at))
}

// Writes the UTF-8 of the first of N units, which are text: all, or all but a leading surrogate at the end. Returns
// the offset after the bytes.
#[inline(always)]
fn write_paired<const N: usize, W: SlotWriter<N>>(
    low: Simd<u8, N>,
    high: Simd<u8, N>,
    count: usize,
    room: &mut [u8],
    at: usize,
) -> usize
    requires least { 2 ≤ N }
    requires most { N ≤ 32 }
    requires room { at + (3 * N + 16) ≤ length room.old }
    requires few { N ≤ count + 1 }
    requires within { count ≤ N }
    requires text { AreText (lane_unit low high) count }
    requires last { count + 1 ≡ N → is_leading_surrogate (lane_unit low high count) ≡ true }
    ensures { WritesUnits N low.entry high.entry room.old room.new at count result }
{
    let middle = text_middle_bytes(W::one_later(low), low, high);
    let last = text_last_bytes(low, high);
    let end = W::write_slots(text_first_bytes(high), middle, last, room, at);
    if count == N { end } else { end - 2 }
}

// The number of units that are text: all, or all but a leading surrogate at the end, or otherwise none.
#[inline(always)]
fn paired_units<const N: usize>(low: Simd<u8, N>, high: Simd<u8, N>) -> usize
    requires least { 2 ≤ N }
    requires within { N ≤ 32 }
    ensures few { 0 < result → N ≤ result + 1 }
    ensures most { result ≤ N }
    ensures text { AreText (lane_unit low.entry high.entry) result }
    ensures last { result + 1 ≡ N → is_leading_surrogate (lane_unit low.entry high.entry result) ≡ true }
{
    let leading = mask_of_top_bits(high, 0x36);
    let trailing = mask_of_top_bits(high, 0x37);
    if trailing != leading * 2 % (1 << N) {
        return 0;
    }
    if leading < 1 << (N - 1) { N } else { N - 1 }
}
