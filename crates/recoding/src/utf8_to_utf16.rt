//! Text in UTF-8 converted to UTF-16, written into a buffer from an offset on. Stores full vectors; the next store
//! overwrites the tail.
ghost use Rattle.std.specs.Prelude.{◌≡◌, ℕ, ◌+◌, ◌-◌, ◌*◌, ◌<◌, ◌≤◌, IsTrue, length, slice_index};
ghost use Rattle.utf_lanes.specs.UnitCodes.{Writes};
ghost use Rattle.utf_lanes.specs.Utf8ToUtf16.{utf16_bytes};
ghost use Rattle.utf_lanes.specs.TextBlocks.{EndsCharacter};

use crate::fills::lay_wide;
use std::simd::prelude::*;
use utf_lanes::ascii_texts::is_ascii_block;
use utf_lanes::byte_order::ByteOrder;
use utf_lanes::text_blocks::ends_character;
use utf_lanes::text_puts::{write_64, write_first, write_rest};
use utf_lanes::text_units::ascii_units;

// Writes the units of the offsets of some text. Returns the offset after them.
#[inline(never)]
pub(crate) fn widen_text<E: ByteOrder>(text: &[u8], room: &mut [u8], at: usize) -> usize
    requires long { 19 ≤ length text.now }
    requires room { at + (2 * length text.now + 32) ≤ length room.old }
    ensures written { Writes room.old room.new at result
        (utf16_bytes E.HIGH_FIRST text.now 0 (length text.now)) }
    ensures within { result ≤ length room.old }
{
    let first = write_first::<E>(text, room, at);
    let (place, end) = write_wide::<E>(text, room, first);
    write_rest::<E>(text, place, room, end)
}

// Writes the units of the offsets from 16 on, in blocks of 64, until fewer are left. Returns the end of the last
// block, and the offset after its units.
#[inline(always)]
fn write_wide<E: ByteOrder>(text: &[u8], room: &mut [u8], at: usize) -> (usize, usize)
    requires long { 16 ≤ length text.now }
    requires room { at + 2 * (length text.now - 16) ≤ length room.old }
    ensures least { 16 ≤ result.0 }
    ensures within { result.0 ≤ length text.now }
    ensures written { Writes room.old room.new at result.1
        (utf16_bytes E.HIGH_FIRST text.now 16 (result.0 - 16)) }
    ensures most { result.1 + 2 * (length text.now - result.0) ≤ at + 2 * (length text.now - 16) }
{
    let mut place = 16;
    let mut end = at;
    while 64 <= text.len() - place {
        end = write_some::<E>(text, place, room, end);
        place += 64;
    }
    (place, end)
}

// Writes the units of 64 offsets. Returns the offset after them.
#[inline(always)]
fn write_some<E: ByteOrder>(text: &[u8], place: usize, room: &mut [u8], at: usize) -> usize
    requires start { 3 ≤ place }
    requires within { place + 64 ≤ length text.now }
    requires room { at + 128 ≤ length room.old }
    ensures written { Writes room.old room.new at result (utf16_bytes E.HIGH_FIRST text.now place 64) }
    ensures most { result ≤ at + 128 }
{
    if is_plain(text, place) {
        return write_ascii::<E>(text, place, room, at);
    }
    write_64::<E>(text, place, room, at)
}

// Writes the units of 64 offsets that are ASCII, after bytes that ask for no more.
#[inline(always)]
fn write_ascii<E: ByteOrder>(text: &[u8], place: usize, room: &mut [u8], at: usize) -> usize
    requires start { 3 ≤ place }
    requires within { place + 64 ≤ length text.now }
    requires closed { EndsCharacter text.now place }
    requires ascii { (k : ℕ) → k < 64 → slice_index text.now (place + k) < 0x80 }
    requires room { at + 128 ≤ length room.old }
    ensures written { Writes room.old room.new at result (utf16_bytes E.HIGH_FIRST text.now place 64) }
    ensures most { result ≤ at + 128 }
{
    let (front, back) = ascii_units::<E>(text, place);
    let middle = lay_wide(u8x64::from_array(front), room, at);
    lay_wide(u8x64::from_array(back), room, middle)
}

// Returns true if 64 offsets are ASCII, after bytes that ask for no more.
#[inline(always)]
fn is_plain(text: &[u8], place: usize) -> bool
    requires start { 3 ≤ place }
    requires within { place + 64 ≤ length text.now }
    ensures closed { IsTrue result → EndsCharacter text.now place }
    ensures ascii { IsTrue result → (k : ℕ) → k < 64 → slice_index text.now (place + k) < 0x80 }
{
    text[place] < 0x80 && is_ascii_block(text, place) && ends_character(text, place)
}
