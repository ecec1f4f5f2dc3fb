//! Texts of only ASCII, written as units.
ghost use Rattle.std.specs.Prelude.{◌≡◌, ◌+◌, ◌*◌, ◌≤◌, ◌++◌, length, take, drop};
ghost use Rattle.utf_lanes.specs.AsciiTexts.{AreAscii};
ghost use Rattle.utf_lanes.specs.Utf8ToUtf16.{halves};
ghost use Rattle.recoding.specs.UnitRuns.{widened};

use crate::codes::put_pair;
use crate::output::Output;
use std::simd::prelude::*;
use utf_lanes::ascii_texts::{interleave_zeros, is_ascii_block};
use utf_lanes::byte_order::ByteOrder;
use utf_lanes::text_units::interleave_zeros_wide;

// Appends the bytes, each with a NUL, which is the high byte of its unit.
#[inline(always)]
#[tactic(auto, using(crate::proofs::AsciiToUtf16::few_widened))]
pub(crate) fn put_ascii_as_utf16<O: Output, E: ByteOrder>(bytes: &[u8], out: &mut O)
    requires { 2 * length bytes.now ≤ O.room out.old }
    ensures { O.appends out.old (widened E.HIGH_FIRST bytes.now) out.new }
{
    let place = put_lanes::<O, E>(bytes, out);
    let last = &bytes[place..];
    put_each::<O, E>(last, out);
}

// Appends the units of the first bytes, in blocks of 64, while such a block and the one after it are ASCII. Returns
// the offset after them. Each block is validated just before it is written, and the rest begins with a block of
// ASCII.
#[inline(always)]
#[tactic(auto, using(crate::proofs::AsciiToUtf16::few_widened))]
pub(crate) fn put_ascii_front<O: Output, E: ByteOrder>(bytes: &[u8], out: &mut O) -> usize
    requires { 2 * length bytes.now ≤ O.room out.old }
    ensures within { result ≤ length bytes.now }
    ensures ascii { AreAscii bytes.now 0 result }
    ensures appends { O.appends out.old (widened E.HIGH_FIRST (take result bytes.now)) out.new }
{
    if bytes.len() < 128 || !is_ascii_block(bytes, 0) {
        return 0;
    }
    let mut place = 0;
    while 128 <= bytes.len() - place && is_ascii_block(bytes, place + 64) {
        put_ascii_64::<O, E>(bytes, place, out);
        place += 64;
    }
    place
}

// Widens one 64-byte ASCII block.
#[inline(always)]
pub(crate) fn put_ascii_64<O: Output, E: ByteOrder>(bytes: &[u8], place: usize, out: &mut O)
    requires within { place + 64 ≤ length bytes.now }
    requires room { 128 ≤ O.room out.old }
    ensures { O.appends out.old (widened E.HIGH_FIRST (take 64 (drop place bytes.now))) out.new }
{
    let (first, second) = interleave_zeros_wide::<E>(u8x64::from_slice(&bytes[place..]));
    out.put_wide(first);
    out.put_wide(second);
}

// Appends the units of ASCII bytes in blocks of sixteen. Returns the end of the last block.
#[inline(always)]
#[tactic(auto, using(crate::proofs::AsciiToUtf16::few_widened))]
fn put_lanes<O: Output, E: ByteOrder>(bytes: &[u8], out: &mut O) -> usize
    requires { 2 * length bytes.now ≤ O.room out.old }
    ensures within { result ≤ length bytes.now }
    ensures appends { O.appends out.old (widened E.HIGH_FIRST (take result bytes.now)) out.new }
{
    let mut place = 0;
    while 16 <= bytes.len() - place {
        put_16::<O, E>(bytes, place, out);
        place += 16;
    }
    place
}

// Widens one 16-byte ASCII block.
#[inline(always)]
fn put_16<O: Output, E: ByteOrder>(bytes: &[u8], place: usize, out: &mut O)
    requires within { place + 16 ≤ length bytes.now }
    requires room { 32 ≤ O.room out.old }
    ensures { O.appends out.old (widened E.HIGH_FIRST (take 16 (drop place bytes.now))) out.new }
{
    let (first, second) = interleave_zeros::<E>(u8x16::from_slice(&bytes[place..]));
    out.put(&beside(first, second));
}

// Both vectors as one array, which is appended in one write: so the compiler updates the length once.
#[inline(always)]
fn beside(first: u8x16, second: u8x16) -> [u8; 32]
    ensures { result ≡ first ++ second }
{
    let mut both = [0; 32];
    both[..16].copy_from_slice(&first.to_array());
    both[16..].copy_from_slice(&second.to_array());
    both
}

// Appends the units of a few ASCII bytes, one by one.
#[inline(always)]
#[tactic(auto, using(crate::proofs::AsciiToUtf16::few_widened))]
fn put_each<O: Output, E: ByteOrder>(bytes: &[u8], out: &mut O)
    requires { 2 * length bytes.now ≤ O.room out.old }
    ensures { O.appends out.old (widened E.HIGH_FIRST bytes.now) out.new }
{
    let mut place = 0;
    while place < bytes.len() {
        put_one::<O, E>(bytes[place], out);
        place += 1;
    }
}

#[inline(always)]
fn put_one<O: Output, E: ByteOrder>(byte: u8, out: &mut O)
    requires { 2 ≤ O.room out.old }
    ensures { O.appends out.old (halves E.HIGH_FIRST byte 0) out.new }
{
    if E::HIGH_FIRST {
        put_pair(0, byte, out);
    } else {
        put_pair(byte, 0, out);
    }
}
