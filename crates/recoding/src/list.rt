//! The end of a list that has capacity.
ghost use Rattle.std.specs.Prelude.{◌≡◌, ◌+◌, ◌-◌, ◌*◌, ◌≤◌, length, vec_len, vec_capacity};
ghost use Rattle.recoding.specs.NextScalars.{utf16_form};
ghost use Rattle.recoding.specs.Outputs.{Extends, Lengthens};
ghost use Rattle.recoding.specs.Recodes.{PutsUnits};
ghost use Rattle.recoding.specs.Strict.{PutsText};
ghost use Rattle.utf_lanes.specs.UnitCodes.{code_at, lane_unit};
ghost use Rattle.utf_lanes.specs.UnitMending.{AreTextUnits};
ghost use Rattle.utf_lanes.specs.Utf8ToUtf16.{concat_range, utf16_bytes};

use crate::block_output::BlockOutput;
use crate::form::Form;
use crate::output::Output;
use crate::utf8_to_utf16::widen_text;
use crate::utf16_to_utf8::{BLOCK, ROOM};
use std::alloc::Allocator;
use std::simd::prelude::*;
use utf_lanes::byte_order::ByteOrder;
use utf_lanes::unit_bytes::{are_ascii, sixteen_halves};
use utf_lanes::utf16_blocks::{write_others, write_text_units};

// The number of zeros that are appended in one call: so few that the C library stores them with SIMD.
const AT_ONCE: usize = 1984;

impl<A: Allocator> Output for Vec<u8, A> {
    ghost use Rattle.std.specs.Prelude.{◌-◌, vec_len, vec_capacity};
    ghost use Rattle.recoding.specs.Outputs.{Extends, Extends-none, Extends-more, Extends-room};

    ghost room = { λ v. vec_capacity v - vec_len v };

    ghost appends = { Extends };

    ghost appends_none = { Extends-none };

    ghost appends_more = { Extends-more };

    ghost appends_room = { Extends-room };

    #[inline(always)]
    fn room(&self) -> usize {
        self.capacity() - self.len()
    }

    #[inline(always)]
    fn put(&mut self, bytes: &[u8]) {
        let _ = self.extend_from_slice(bytes);
    }

    #[inline(always)]
    fn put_byte(&mut self, byte: u8) {
        self.push_reserved(byte);
    }

    #[inline(never)]
    fn put_wide(&mut self, block: u8x64) {
        let _ = self.extend_from_slice(&block.to_array());
    }
}

impl<A: Allocator> BlockOutput for Vec<u8, A> {
    #[inline(always)]
    fn put_units<E: ByteOrder>(&mut self, text: &[u8]) {
        append_units::<A, E>(text, self);
    }

    #[inline(always)]
    fn put_blocks<E: ByteOrder>(&mut self, bytes: &[u8]) -> usize {
        append_blocks::<A, E>(bytes, self)
    }

    #[inline(always)]
    fn put_text_units(&mut self, low: u8x32, high: u8x32, count: usize) {
        append_text_units(low, high, count, self);
    }
}

// Appends the units of the offsets of some text. They are written in place over zeros, and the zeros after them are
// truncated.
#[inline(never)]
fn append_units<A: Allocator, E: ByteOrder>(text: &[u8], out: &mut Vec<u8, A>)
    requires long { 19 ≤ length text.now }
    requires room { 2 * length text.now + 32 ≤ vec_capacity out.old - vec_len out.old }
    ensures { Extends out.old (utf16_bytes E.HIGH_FIRST text.now 0 (length text.now)) out.new }
{
    let start = out.len();
    append_zeros(2 * text.len() + 32, out);
    let last = widen_text::<E>(text, out.as_mut_slice(), start);
    out.truncate(last);
}

// Appends `count` zeros.
#[inline(always)]
fn append_zeros<A: Allocator>(count: usize, out: &mut Vec<u8, A>)
    requires { count ≤ vec_capacity out.old - vec_len out.old }
    ensures { Lengthens out.old out.new count }
{
    let mut left = count;
    while AT_ONCE < left {
        append_few_zeros(AT_ONCE, out);
        left -= AT_ONCE;
    }
    append_few_zeros(left, out);
}

// Appends at most `AT_ONCE` zeros, in one call.
#[inline(always)]
fn append_few_zeros<A: Allocator>(count: usize, out: &mut Vec<u8, A>)
    requires { count ≤ vec_capacity out.old - vec_len out.old }
    ensures { Lengthens out.old out.new count }
{
    let _ = out.resize(out.len() + count, 0);
}

// Transcodes the blocks of sixteen units at the front of the bytes to UTF-8, as far as they have no fault and the
// worst-case output fits. A block that ends with a leading surrogate is one unit shorter. Returns the length of the
// blocks in bytes.
#[inline(always)]
fn append_blocks<A: Allocator, E: ByteOrder>(bytes: &[u8], out: &mut Vec<u8, A>) -> usize
    ensures { PutsText Extends (utf16_form E.HIGH_FIRST) Form.Utf8 bytes.now out.old out.new result }
{
    let mut place = 0;
    while BLOCK <= bytes.len() - place && ROOM <= out.room() {
        let (low, high) = sixteen_halves::<E>(&bytes[place..]);
        let units = append_block(low, high, out);
        if units == 0 {
            return place;
        }
        place += 2 * units;
    }
    place
}

// Appends the UTF-8 of sixteen units, or of fifteen, or none. Returns the number of units.
#[inline(always)]
fn append_block<A: Allocator>(low: u8x16, high: u8x16, out: &mut Vec<u8, A>) -> usize
    requires { 64 ≤ vec_capacity out.old - vec_len out.old }
    ensures { PutsUnits Extends low high out.old out.new result }
{
    if are_ascii(low, high) {
        out.put(&low.to_array());
        return 16;
    }
    append_others(low, high, out)
}

// Appends the UTF-8 of sixteen units that are not all ASCII, or of fifteen, or none. They are written in
// place, and the bytes after them are truncated.
#[inline(always)]
fn append_others<A: Allocator>(low: u8x16, high: u8x16, out: &mut Vec<u8, A>) -> usize
    requires { 64 ≤ vec_capacity out.old - vec_len out.old }
    ensures { PutsUnits Extends low high out.old out.new result }
{
    let start = out.len();
    out.put(&[0; 64]);
    let (units, end) = write_others(low, high, out.as_mut_slice(), start);
    out.truncate(end);
    units
}

// Appends the UTF-8 of the first of 32 units, which are text. They are written in place, and the bytes after them are
// truncated.
#[inline(never)]
fn append_text_units<A: Allocator>(low: u8x32, high: u8x32, count: usize, out: &mut Vec<u8, A>)
    requires text { AreTextUnits low high count }
    requires room { 112 ≤ vec_capacity out.old - vec_len out.old }
    ensures { Extends out.old (concat_range (code_at (lane_unit low high)) 0 count) out.new }
{
    let start = out.len();
    out.put(&[0; 112]);
    let after = write_text_units(low, high, count, out.as_mut_slice(), start);
    out.truncate(after);
}
