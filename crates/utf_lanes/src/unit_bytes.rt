//! Units of UTF-16 as bytes of UTF-8, one vector in each step.
ghost use Rattle.std.specs.Prelude.{◌≡◌, ℕ, ◌+◌, ◌*◌, ◌<◌, ◌≤◌, IsTrue, length, slice_index, nat_eq, false, ◌/◌, ◌^◌};
ghost use Rattle.utf_lanes.specs.Lanes.{AreBits, AreLanes, crossed_lane};
ghost use Rattle.utf_lanes.specs.UnitCodes.{AreCharacters, lane_unit, lane_after, first_byte, middle_byte, last_byte, first_in_text, middle_in_text, last_in_text, lead_byte, second_byte, third_byte};
ghost use Rattle.utf_lanes.specs.BytePairs.{unit_number};

use crate::byte_order::ByteOrder;
use crate::slots::joined;
use std::simd::prelude::*;

/// Returns true if all units are ASCII.
#[inline(always)]
pub fn are_ascii<const N: usize>(low: Simd<u8, N>, high: Simd<u8, N>) -> bool
    requires { N ≤ 64 }
    ensures { IsTrue result → (k : ℕ) → k < N → lane_unit low.entry high.entry k < 0x80 }
{
    (high | (low >> Simd::splat(7)))
        .simd_ne(Simd::splat(0))
        .to_bitmask()
        == 0
}

// Returns true if no unit has three bytes.
#[inline(always)]
pub(crate) fn are_short<const N: usize>(high: Simd<u8, N>) -> bool
    requires { N ≤ 64 }
    ensures { IsTrue result → (k : ℕ) → k < N → slice_index high.entry k < 8 }
{
    let upper = high >> Simd::splat(3);
    upper.simd_ne(Simd::splat(0)).to_bitmask() == 0
}

/// Returns true if no unit is a surrogate.
#[inline(always)]
pub fn are_characters<const N: usize>(high: Simd<u8, N>) -> bool
    requires { N ≤ 64 }
    ensures { IsTrue result → AreCharacters N high.entry }
{
    let eighths = high >> Simd::splat(3);
    eighths.simd_eq(Simd::splat(0x1b)).to_bitmask() == 0
}

// The units that have these six bits at the top, each as a bit.
#[inline(always)]
pub(crate) fn mask_of_top_bits<const N: usize>(high: Simd<u8, N>, top: u8) -> usize
    requires { N ≤ 64 }
    ensures most { result < 2 ^ N }
    ensures bits { AreBits N result (λ k. nat_eq (slice_index high.entry k / 4) top) }
{
    (high >> Simd::splat(2))
        .simd_eq(Simd::splat(top))
        .to_bitmask() as usize
}

// The bytes of units that are characters: the first, if there are three.
#[inline(always)]
pub(crate) fn first_bytes<const N: usize>(high: Simd<u8, N>) -> Simd<u8, N>
    ensures { AreLanes N result (λ k. first_byte (slice_index high.entry k * 256)) }
{
    let long = (high >> Simd::splat(4)) + Simd::splat(0xe0);
    high.simd_lt(Simd::splat(8)).select(Simd::splat(0), long)
}

// The last byte but one of units that are characters, if there are two or three.
#[inline(always)]
pub(crate) fn middle_bytes<const N: usize>(low: Simd<u8, N>, high: Simd<u8, N>) -> Simd<u8, N>
    ensures { AreLanes N result (λ k. middle_byte (lane_unit low.entry high.entry k)) }
{
    let bits = ((high & Simd::splat(15)) << Simd::splat(2)) + (low >> Simd::splat(6));
    let lead = bits
        .simd_lt(Simd::splat(2))
        .select(Simd::splat(0), bits + Simd::splat(0xc0));
    high.simd_lt(Simd::splat(8))
        .select(lead, bits + Simd::splat(0x80))
}

// The last byte of units that are characters.
#[inline(always)]
pub(crate) fn last_bytes<const N: usize>(low: Simd<u8, N>, high: Simd<u8, N>) -> Simd<u8, N>
    ensures { AreLanes N result (λ k. last_byte (lane_unit low.entry high.entry k)) }
{
    let rest = (low & Simd::splat(0x3f)) + Simd::splat(0x80);
    middle_bytes(low, high)
        .simd_lt(Simd::splat(1))
        .select(low, rest)
}

// The first bytes of units in text, by the low halves of the units before them.
#[inline(always)]
pub(crate) fn text_first_bytes<const N: usize>(high: Simd<u8, N>) -> Simd<u8, N>
    ensures { AreLanes N result (λ k. first_in_text (slice_index high.entry k * 256)) }
{
    (high >> Simd::splat(3))
        .simd_eq(Simd::splat(0x1b))
        .select(Simd::splat(0), first_bytes(high))
}

#[inline(always)]
pub(crate) fn text_middle_bytes<const N: usize>(
    before: Simd<u8, N>,
    low: Simd<u8, N>,
    high: Simd<u8, N>,
) -> Simd<u8, N>
    ensures { AreLanes N result (lane_after middle_in_text before.entry low.entry high.entry) }
{
    let plain = (high >> Simd::splat(3))
        .simd_eq(Simd::splat(0x1b))
        .select(third_bytes(before, low, high), middle_bytes(low, high));
    (high >> Simd::splat(2))
        .simd_eq(Simd::splat(0x36))
        .select(lead_bytes(low, high), plain)
}

#[inline(always)]
pub(crate) fn text_last_bytes<const N: usize>(low: Simd<u8, N>, high: Simd<u8, N>) -> Simd<u8, N>
    ensures { AreLanes N result (λ k. last_in_text (lane_unit low.entry high.entry k)) }
{
    (high >> Simd::splat(2))
        .simd_eq(Simd::splat(0x36))
        .select(second_bytes(low), last_bytes(low, high))
}

// The first of four bytes, which a leading surrogate gives.
#[inline(always)]
fn lead_bytes<const N: usize>(low: Simd<u8, N>, high: Simd<u8, N>) -> Simd<u8, N>
    ensures { AreLanes N result (λ k. lead_byte (lane_unit low.entry high.entry k)) }
{
    let carry = low
        .simd_lt(Simd::splat(0xc0))
        .select(Simd::splat(0xf0), Simd::splat(0xf1));
    (high & Simd::splat(3)) + carry
}

// The second of four bytes, which a leading surrogate gives too.
#[inline(always)]
fn second_bytes<const N: usize>(low: Simd<u8, N>) -> Simd<u8, N>
    ensures { AreLanes N result (λ k. second_byte (slice_index low.entry k)) }
{
    let six = ((low >> Simd::splat(2)) + Simd::splat(16)) & Simd::splat(0x3f);
    six + Simd::splat(0x80)
}

// The third of four bytes, which a trailing surrogate gives.
#[inline(always)]
fn third_bytes<const N: usize>(
    before: Simd<u8, N>,
    low: Simd<u8, N>,
    high: Simd<u8, N>,
) -> Simd<u8, N>
    ensures { AreLanes N result (lane_after third_byte before.entry low.entry high.entry) }
{
    let two = (before & Simd::splat(3)) << Simd::splat(4);
    let four = ((high & Simd::splat(3)) << Simd::splat(2)) + (low >> Simd::splat(6));
    two + four + Simd::splat(0x80)
}

/// The low and high halves of the first sixteen units.
#[inline(always)]
pub fn sixteen_halves<E: ByteOrder>(bytes: &[u8]) -> (u8x16, u8x16)
    requires { 32 ≤ length bytes.now }
    ensures low_len { length result.0 ≡ 16 }
    ensures high_len { length result.1 ≡ 16 }
    ensures units { (k : ℕ) → k < 16 → lane_unit result.0 result.1 k ≡ unit_number E.HIGH_FIRST bytes.now k }
{
    let front = u8x16::from_slice(bytes);
    let back = u8x16::from_slice(&bytes[16..]);
    let (even, odd) = front.deinterleave(back);
    if E::HIGH_FIRST {
        (odd, even)
    } else {
        (even, odd)
    }
}

/// The low and high halves of the first thirty-two units.
#[inline(always)]
pub fn thirty_two_halves<E: ByteOrder>(bytes: &[u8]) -> (u8x32, u8x32)
    requires { 64 ≤ length bytes.now }
    ensures low_len { length result.0 ≡ 32 }
    ensures high_len { length result.1 ≡ 32 }
    ensures units { (k : ℕ) → k < 32 → lane_unit result.0 result.1 k ≡ unit_number E.HIGH_FIRST bytes.now k }
{
    let (evens, odds) = even_and_odd(bytes);
    if E::HIGH_FIRST {
        (odds, evens)
    } else {
        (evens, odds)
    }
}

// The even bytes of 64, and the odd ones.
#[inline(always)]
fn even_and_odd(bytes: &[u8]) -> (u8x32, u8x32)
    requires { 64 ≤ length bytes.now }
    ensures even { AreLanes 32 result.0 (λ k. slice_index bytes.now (2 * k)) }
    ensures odd { AreLanes 32 result.1 (λ k. slice_index bytes.now (2 * k + 1)) }
{
    let front = joined(u8x16::from_slice(bytes), u8x16::from_slice(&bytes[32..]));
    let back = joined(
        u8x16::from_slice(&bytes[16..]),
        u8x16::from_slice(&bytes[48..]),
    );
    (even_bytes(front, back), odd_bytes(front, back))
}

// The even bytes of the first halves of both vectors, followed by those of the last.
#[inline(always)]
fn even_bytes(front: u8x32, back: u8x32) -> u8x32
    ensures { AreLanes 32 result (λ k. crossed_lane front back (2 * k)) }
{
    front.shuffle(
        back,
        [
            0, 2, 4, 6, 8, 10, 12, 14, 32, 34, 36, 38, 40, 42, 44, 46, 16, 18, 20, 22, 24, 26, 28,
            30, 48, 50, 52, 54, 56, 58, 60, 62,
        ],
    )
}

// The odd bytes of the first halves of both vectors, followed by those of the last.
#[inline(always)]
fn odd_bytes(front: u8x32, back: u8x32) -> u8x32
    ensures { AreLanes 32 result (λ k. crossed_lane front back (2 * k + 1)) }
{
    front.shuffle(
        back,
        [
            1, 3, 5, 7, 9, 11, 13, 15, 33, 35, 37, 39, 41, 43, 45, 47, 17, 19, 21, 23, 25, 27, 29,
            31, 49, 51, 53, 55, 57, 59, 61, 63,
        ],
    )
}
