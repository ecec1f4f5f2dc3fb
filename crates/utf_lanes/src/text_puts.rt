//! Text in UTF-8 as units of UTF-16, written into a buffer from an offset on.
ghost use Rattle.std.specs.Prelude.{◌≡◌, ◌+◌, ◌-◌, ◌*◌, ◌<◌, ◌≤◌, length, take};
ghost use Rattle.utf_lanes.specs.UnitCodes.{Writes};
ghost use Rattle.utf_lanes.specs.Utf8ToUtf16.{given, utf16_bytes};

use crate::byte_order::ByteOrder;
use crate::few_bytes::padded_text;
use crate::text_units::{UnitBytes, block_units, front_units};
use std::simd::prelude::*;

/// Writes the units of the first sixteen offsets. Returns the offset after them.
#[inline(always)]
pub fn write_first<E: ByteOrder>(text: &[u8], room: &mut [u8], at: usize) -> usize
    requires long { 16 ≤ length text.now }
    requires room { at + 32 ≤ length room.old }
    ensures written { Writes room.old room.new at result (utf16_bytes E.HIGH_FIRST text.now 0 16) }
    ensures most { result ≤ at + 32 }
{
    let (left, right) = front_units::<E>(u8x16::from_slice(text), 0);
    let middle = write_half(&left, room, at);
    write_half(&right, room, middle)
}

/// Writes the units of four to sixteen bytes, which are all of some text, to the front of the buffer. Returns
/// the offset after them.
#[inline(always)]
pub fn write_few<E: ByteOrder>(text: &[u8], room: &mut [u8]) -> usize
    requires some { 4 ≤ length text.now }
    requires few { length text.now ≤ 16 }
    requires room { 32 ≤ length room.old }
    ensures len { length room.new ≡ length room.old }
    ensures units { take result room.new ≡ utf16_bytes E.HIGH_FIRST text.now 0 (length text.now) }
    ensures most { result ≤ 32 }
{
    let nuls = 16 - text.len();
    let (left, right) = front_units::<E>(padded_text(text), nuls);
    let middle = write_half(&left, room, 0);
    write_half(&right, room, middle)
}

/// Writes the units of 64 offsets. Returns the offset after them.
#[inline(always)]
pub fn write_64<E: ByteOrder>(text: &[u8], place: usize, room: &mut [u8], at: usize) -> usize
    requires start { 3 ≤ place }
    requires within { place + 64 ≤ length text.now }
    requires room { at + 128 ≤ length room.old }
    ensures written { Writes room.old room.new at result (utf16_bytes E.HIGH_FIRST text.now place 64) }
    ensures most { result ≤ at + 128 }
{
    let first = write_block::<E>(text, place, 0, room, at);
    let second = write_block::<E>(text, place + 16, 0, room, first);
    let third = write_block::<E>(text, place + 32, 0, room, second);
    write_block::<E>(text, place + 48, 0, room, third)
}

/// Writes the units of the offsets from one on to the end, in blocks of sixteen, of which the last ends with the
/// text. Returns the offset after them.
#[inline(always)]
pub fn write_rest<E: ByteOrder>(text: &[u8], start: usize, room: &mut [u8], at: usize) -> usize
    requires start { 16 ≤ start }
    requires within { start ≤ length text.now }
    requires long { 19 ≤ length text.now }
    requires room { at + 2 * (length text.now - start) + 32 ≤ length room.old }
    ensures written { Writes room.old room.new at result
        (utf16_bytes E.HIGH_FIRST text.now start (length text.now - start)) }
    ensures within { result ≤ length room.new }
{
    let mut place = start;
    let mut end = at;
    while 16 <= text.len() - place {
        end = write_block::<E>(text, place, 0, room, end);
        place += 16;
    }
    if place < text.len() {
        let last = text.len() - 16;
        end = write_block::<E>(text, last, place - last, room, end);
    }
    end
}

// Writes the units of sixteen offsets, except those of the first `skipped`. Returns the offset after them.
#[inline(always)]
fn write_block<E: ByteOrder>(
    text: &[u8],
    place: usize,
    skipped: usize,
    room: &mut [u8],
    at: usize,
) -> usize
    requires start { 3 ≤ place }
    requires within { place + 16 ≤ length text.now }
    requires few { skipped < 16 }
    requires room { at + 32 ≤ length room.old }
    ensures written { Writes room.old room.new at result
        (utf16_bytes E.HIGH_FIRST text.now (place + skipped) (16 - skipped)) }
    ensures most { result ≤ at + 32 }
{
    let (first, second) = block_units::<E>(text, place, skipped);
    let middle = write_half(&first, room, at);
    write_half(&second, room, middle)
}

// Writes a full vector with the units of half a block; the next write overwrites the rest of it. Returns the
// offset after the units.
#[inline(always)]
fn write_half(units: &UnitBytes, room: &mut [u8], at: usize) -> usize
    requires few { units.now.len ≤ 16 }
    requires room { at + 16 ≤ length room.old }
    ensures written { Writes room.old room.new at result (given units.now) }
    ensures end { result ≡ at + units.now.len }
{
    u8x16::from_array(units.bytes).copy_to_slice(&mut room[at..]);
    at + units.len
}
