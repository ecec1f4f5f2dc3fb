//! Blocks of units of UTF-16 converted to UTF-8, written into a buffer from an offset on: of thirty-two units while
//! there are as many, and then of sixteen. Stores a full vector; the next store overwrites the tail.
ghost use Rattle.std.specs.Prelude.{◌≡◌, ℕ, ◌+◌, ◌<◌, ◌≤◌, length};
ghost use Rattle.recoding.specs.NextScalars.{utf16_form};
ghost use Rattle.recoding.specs.Replacing.{FillsPlace, at_place};
ghost use Rattle.recoding.specs.Strict.{PutsText};
ghost use Rattle.utf_lanes.specs.BytePairs.{unit_number};
ghost use Rattle.utf_lanes.specs.UnitCodes.{lane_unit, AreCharacters};

use crate::form::Form;
use std::simd::prelude::*;
use utf_lanes::byte_order::ByteOrder;
use utf_lanes::unit_bytes::{are_ascii, are_characters, sixteen_halves, thirty_two_halves};
use utf_lanes::utf16_blocks::{
    write_ascii_units, write_characters, write_sixteen, write_thirty_two,
};

// The length of a block in bytes, and the capacity that storing its output as full vectors needs.
pub(crate) const BLOCK: usize = 32;

pub(crate) const ROOM: usize = 64;

// The length in bytes of a wide block, of thirty-two units.
const WIDE_BLOCK: usize = 64;

const WIDE_ROOM: usize = 112;

// The least length in bytes of an input for blocks of thirty-two: shorter inputs take the inlined 16-unit
// loop.
const LONG: usize = 1024;

// The number of bytes that are converted as mixed blocks from the first block with surrogates on, before blocks
// without surrogates are tried again.
const MIXED: usize = 256;

// Converts the blocks at the front of the bytes, as far as they have no fault and there is capacity. Returns their
// length in bytes, and the offset after the output.
#[inline(always)]
pub(crate) fn write_blocks<E: ByteOrder>(
    bytes: &[u8],
    room: &mut [u8],
    start: usize,
) -> (usize, usize)
    requires { start ≤ length room.old }
    ensures { PutsText FillsPlace (utf16_form E.HIGH_FIRST) Form.Utf8 bytes.now
        (at_place room.old start) (at_place room.new result.1) result.0 }
{
    if bytes.len() < LONG {
        return write_short_blocks::<E>(bytes, room, start);
    }
    write_all_blocks::<E>(bytes, room, start)
}

// Converts the blocks at the front of a long input.
#[inline(never)]
fn write_all_blocks<E: ByteOrder>(bytes: &[u8], room: &mut [u8], start: usize) -> (usize, usize)
    requires { start ≤ length room.old }
    ensures { PutsText FillsPlace (utf16_form E.HIGH_FIRST) Form.Utf8 bytes.now
        (at_place room.old start) (at_place room.new result.1) result.0 }
{
    let (wide, middle) = write_wide_blocks::<E>(bytes, room, start);
    let (len, end) = write_short_blocks::<E>(&bytes[wide..], room, middle);
    (wide + len, end)
}

// Converts only wide blocks.
#[inline(always)]
fn write_wide_blocks<E: ByteOrder>(bytes: &[u8], room: &mut [u8], start: usize) -> (usize, usize)
    requires { start ≤ length room.old }
    ensures { PutsText FillsPlace (utf16_form E.HIGH_FIRST) Form.Utf8 bytes.now
        (at_place room.old start) (at_place room.new result.1) result.0 }
{
    let mut place = 0;
    let mut end = start;
    while WIDE_BLOCK <= bytes.len() - place && WIDE_ROOM <= room.len() - end {
        let (len, next) = write_some_blocks::<E>(&bytes[place..], room, end);
        place += len;
        end = next;
        if len == 0 {
            return (place, end);
        }
    }
    (place, end)
}

// Converts wide blocks: those that are ASCII, then characters without surrogates, and then some with surrogates.
#[inline(always)]
fn write_some_blocks<E: ByteOrder>(bytes: &[u8], room: &mut [u8], start: usize) -> (usize, usize)
    requires { start ≤ length room.old }
    ensures { PutsText FillsPlace (utf16_form E.HIGH_FIRST) Form.Utf8 bytes.now
        (at_place room.old start) (at_place room.new result.1) result.0 }
{
    let (ascii, first) = write_ascii_blocks::<E>(bytes, room, start);
    let (characters, second) = write_character_blocks::<E>(&bytes[ascii..], room, first);
    let place = ascii + characters;
    let (mixed, end) = write_mixed_blocks::<E>(&bytes[place..], room, second);
    (place + mixed, end)
}

// Converts wide blocks that are ASCII.
#[inline(always)]
fn write_ascii_blocks<E: ByteOrder>(bytes: &[u8], room: &mut [u8], start: usize) -> (usize, usize)
    requires { start ≤ length room.old }
    ensures { PutsText FillsPlace (utf16_form E.HIGH_FIRST) Form.Utf8 bytes.now
        (at_place room.old start) (at_place room.new result.1) result.0 }
{
    let mut place = 0;
    let mut end = start;
    while WIDE_BLOCK <= bytes.len() - place && WIDE_ROOM <= room.len() - end {
        let (low, high) = thirty_two_halves::<E>(&bytes[place..]);
        if !are_ascii(low, high) {
            break;
        }
        end = write_ascii_units(low, high, room, end);
        place += WIDE_BLOCK;
    }
    (place, end)
}

// Converts wide blocks without surrogates. Each is loaded and validated before the previous one is written, so that the
// CPU overlaps both.
#[inline(always)]
fn write_character_blocks<E: ByteOrder>(
    bytes: &[u8],
    room: &mut [u8],
    start: usize,
) -> (usize, usize)
    requires { start ≤ length room.old }
    ensures { PutsText FillsPlace (utf16_form E.HIGH_FIRST) Form.Utf8 bytes.now
        (at_place room.old start) (at_place room.new result.1) result.0 }
{
    if bytes.len() < WIDE_BLOCK || room.len() - start < WIDE_ROOM {
        return (0, start);
    }
    let (mut low, mut high) = thirty_two_halves::<E>(bytes);
    if !are_characters(high) {
        return (0, start);
    }
    let mut read = 0;
    let mut end = start;
    while 2 * WIDE_BLOCK <= bytes.len() - read && 2 * WIDE_ROOM <= room.len() - end {
        let (next_low, next_high) = thirty_two_halves::<E>(&bytes[read + WIDE_BLOCK..]);
        if !are_characters(next_high) {
            break;
        }
        end = write_characters(low, high, room, end);
        read += WIDE_BLOCK;
        low = next_low;
        high = next_high;
    }
    (read + WIDE_BLOCK, write_characters(low, high, room, end))
}

// Converts wide blocks of any units, as far as some have surrogates.
#[inline(never)]
fn write_mixed_blocks<E: ByteOrder>(bytes: &[u8], room: &mut [u8], start: usize) -> (usize, usize)
    requires { start ≤ length room.old }
    ensures { PutsText FillsPlace (utf16_form E.HIGH_FIRST) Form.Utf8 bytes.now
        (at_place room.old start) (at_place room.new result.1) result.0 }
{
    let mut place = 0;
    let mut end = start;
    while WIDE_BLOCK <= bytes.len() - place && WIDE_ROOM <= room.len() - end {
        let (low, high) = thirty_two_halves::<E>(&bytes[place..]);
        if MIXED <= place && are_characters(high) {
            break;
        }
        let (count, next) = write_thirty_two(low, high, room, end);
        place += 2 * count;
        end = next;
        if count == 0 {
            break;
        }
    }
    (place, end)
}

// Converts blocks of sixteen units.
#[inline(always)]
fn write_short_blocks<E: ByteOrder>(bytes: &[u8], room: &mut [u8], start: usize) -> (usize, usize)
    requires { start ≤ length room.old }
    ensures { PutsText FillsPlace (utf16_form E.HIGH_FIRST) Form.Utf8 bytes.now
        (at_place room.old start) (at_place room.new result.1) result.0 }
{
    let mut place = 0;
    let mut end = start;
    while BLOCK <= bytes.len() - place && ROOM <= room.len() - end {
        let (low, high) = sixteen_halves::<E>(&bytes[place..]);
        let (count, next) = write_sixteen(low, high, room, end);
        place += 2 * count;
        end = next;
        if count == 0 {
            return (place, end);
        }
    }
    (place, end)
}
