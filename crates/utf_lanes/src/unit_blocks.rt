//! The length of the well-formed UTF-16 at the front of bytes, validated eight units in one step.
//!
//! A unit is validated by the one before it: it ends a pair if and only if that begins one. Six bits of its high
//! byte determine either.
ghost use Rattle.std.specs.Prelude.{◌≡◌, ℕ, ◌+◌, ◌-◌, ◌*◌, ◌<◌, ◌≤◌, ◌∷◌, Bool, IsTrue, List, false, length, take, slice_index};
ghost use Rattle.utf_base.specs.Units.{is_trailing_surrogate};
ghost use Rattle.utf_lanes.specs.Lanes.{AreLanes, ones_where};
ghost use Rattle.utf_lanes.specs.UnitBlocks.{AllPaired, AreCodes, AreFirstPaired, AreJudged, BlockIsJudged, JudgesPairs, PairsTo};
ghost use Rattle.utf_lanes.specs.BytePairs.{high_byte, low_byte, units_of};

use crate::byte_order::ByteOrder;
use crate::byte_pairs::unit;
use std::simd::prelude::*;
use utf_base::traits::U16UtfExt;

// A mask of the bits that identify a surrogate.
const HIGH_IS_FIRST: [u8; 16] = [
    0xfc, 0, 0xfc, 0, 0xfc, 0, 0xfc, 0, 0xfc, 0, 0xfc, 0, 0xfc, 0, 0xfc, 0,
];

const HIGH_IS_SECOND: [u8; 16] = [
    0, 0xfc, 0, 0xfc, 0, 0xfc, 0, 0xfc, 0, 0xfc, 0, 0xfc, 0, 0xfc, 0, 0xfc,
];

/// The number of well-formed units at the front of the bytes: all of them, except for a leading surrogate at the end,
/// if there are more than a few.
#[inline]
pub fn units_len<E: ByteOrder>(bytes: &[u8]) -> usize
    ensures within { 2 * result ≤ length bytes.now }
    ensures codes { AreCodes (units_of E.HIGH_FIRST (take (2 * result) bytes.now)) }
    ensures all { 16 ≤ length bytes.now → (n : ℕ) → 2 * n ≤ length bytes.now →
        AreCodes (units_of E.HIGH_FIRST (take (2 * n) bytes.now)) → n ≤ result }
{
    if bytes.len() < 16 {
        return 0;
    }
    let end = paired_end::<E>(bytes);
    if end == 0 {
        return 0;
    }
    let last = unit::<E>(bytes[2 * end - 2], bytes[2 * end - 1]);
    if last.is_utf16_leading_surrogate() {
        end - 1
    } else {
        end
    }
}

// The offset of the first unit that does not pair with the one before it, or the length. Treats the unit before the
// first as 0.
#[inline(always)]
fn paired_end<E: ByteOrder>(bytes: &[u8]) -> usize
    requires { 16 ≤ length bytes.now }
    ensures within { 2 * result ≤ length bytes.now }
    ensures first { 0 < result →
        is_trailing_surrogate (slice_index (units_of E.HIGH_FIRST bytes.now) 0) ≡ false }
    ensures paired { AllPaired (units_of E.HIGH_FIRST bytes.now) 1 result }
    ensures all { (n : ℕ) → 2 * n ≤ length bytes.now → AreFirstPaired (units_of E.HIGH_FIRST bytes.now) n → n ≤ result }
{
    let count = paired_lanes::<E>(&padded_units(bytes), 1);
    if count < 8 {
        return count;
    }
    paired_lane_by_lane::<E>(bytes, paired_wide::<E>(bytes, 8))
}

// The first eight units after a NUL.
#[inline(always)]
fn padded_units(bytes: &[u8]) -> [u8; 18]
    requires { 16 ≤ length bytes.now }
    ensures { result ≡ 0 ∷ 0 ∷ take 16 bytes.now }
{
    let mut front = [0; 18];
    front[2..].copy_from_slice(&bytes[..16]);
    front
}

// The offset up to which units pair, in blocks of 32, up to the first in which some unit does not.
#[inline(always)]
fn paired_wide<E: ByteOrder>(bytes: &[u8], start: usize) -> usize
    requires start { 1 ≤ start }
    requires within { 2 * start ≤ length bytes.now }
    ensures { PairsTo E.HIGH_FIRST bytes.now start result }
{
    let mut place = start;
    while 64 <= bytes.len() - 2 * place {
        if !is_paired_block::<E>(bytes, place) {
            return place;
        }
        place += 32;
    }
    place
}

// The offset up to which units pair, in blocks of eight, of which the last ends with the last unit.
#[inline(always)]
fn paired_lane_by_lane<E: ByteOrder>(bytes: &[u8], start: usize) -> usize
    requires start { 8 ≤ start }
    requires within { 2 * start ≤ length bytes.now }
    ensures within { 2 * result ≤ length bytes.now }
    ensures paired { AllPaired (units_of E.HIGH_FIRST bytes.now) start result }
    ensures all { (n : ℕ) → 2 * n ≤ length bytes.now → AllPaired (units_of E.HIGH_FIRST bytes.now) 1 n → n ≤ result }
{
    let units = bytes.len() / 2;
    let mut place = start;
    while place < units {
        let block = place.min(units - 8);
        let count = paired_lanes::<E>(bytes, block);
        if count < 8 {
            return block + count;
        }
        place = block + 8;
    }
    place
}

// Returns true if each of the 32 units from the offset on pairs with the one before it.
#[inline(always)]
fn is_paired_block<E: ByteOrder>(bytes: &[u8], place: usize) -> bool
    requires start { 1 ≤ place }
    requires within { 2 * place + 64 ≤ length bytes.now }
    ensures { IsTrue result → AllPaired (units_of E.HIGH_FIRST bytes.now) place (place + 32) }
{
    all_pair(
        unpaired::<E>(bytes, place),
        unpaired::<E>(bytes, place + 8),
        unpaired::<E>(bytes, place + 16),
        unpaired::<E>(bytes, place + 24),
    )
}

// Returns true if the 32 units pair that these four vectors, of eight each, have validated.
#[inline(always)]
pub(crate) fn all_pair(first: u8x16, second: u8x16, third: u8x16, fourth: u8x16) -> bool
    ensures paired { (high_first : Bool) (us : List ℕ) (i : ℕ) → BlockIsJudged high_first us i first second third fourth →
        IsTrue result → AllPaired us i (i + 32) }
    ensures all { (high_first : Bool) (us : List ℕ) (i : ℕ) → BlockIsJudged high_first us i first second third fourth →
        AllPaired us i (i + 32) → IsTrue result }
{
    ((first | second) | (third | fourth))
        .simd_ne(u8x16::splat(0))
        .to_bitmask()
        == 0
}

// The number of the eight units from the offset on that pair with the one before them, up to the first that
// does not.
#[inline(always)]
fn paired_lanes<E: ByteOrder>(bytes: &[u8], place: usize) -> usize
    requires start { 1 ≤ place }
    requires within { 2 * place + 16 ≤ length bytes.now }
    ensures most { result ≤ 8 }
    ensures paired { AllPaired (units_of E.HIGH_FIRST bytes.now) place (place + result) }
    ensures all { (n : ℕ) → n ≤ 8 → AllPaired (units_of E.HIGH_FIRST bytes.now) place (place + n) → n ≤ result }
{
    let wrong = unpaired::<E>(bytes, place)
        .simd_ne(u8x16::splat(0))
        .to_bitmask();
    if wrong == 0 {
        8
    } else {
        wrong.trailing_zeros() as usize / 2
    }
}

// The eight units from the offset on, each after the one before it: in the lane of its high byte, 0 if they
// pair.
#[inline(always)]
fn unpaired<E: ByteOrder>(bytes: &[u8], place: usize) -> u8x16
    requires start { 1 ≤ place }
    requires within { 2 * place + 16 ≤ length bytes.now }
    ensures { AreJudged E.HIGH_FIRST (units_of E.HIGH_FIRST bytes.now) place result }
{
    let here = u8x16::from_slice(&bytes[2 * place..]);
    let before = u8x16::from_slice(&bytes[2 * place - 2..]);
    unpaired_lanes::<E>(before, here)
}

// The eight units of one vector, each after the unit in another: in the lane of its high byte, 0 if they
// pair.
#[inline(always)]
pub(crate) fn unpaired_lanes<E: ByteOrder>(before: u8x16, here: u8x16) -> u8x16
    ensures { JudgesPairs E.HIGH_FIRST before here result }
{
    let bits = upper_bits::<E>();
    where_equal(here & bits, 0xdc) ^ where_equal(before & bits, 0xd8)
}

// A mask of six bits of each high byte, and of none of the low bytes.
#[inline(always)]
fn upper_bits<E: ByteOrder>() -> u8x16
    ensures len { length result ≡ 16 }
    ensures lanes { (k : ℕ) → k < 8 → high_byte E.HIGH_FIRST result k ≡ 0xFC }
    ensures others { (k : ℕ) → k < 8 → low_byte E.HIGH_FIRST result k ≡ 0 }
{
    if E::HIGH_FIRST {
        u8x16::from_array(HIGH_IS_FIRST)
    } else {
        u8x16::from_array(HIGH_IS_SECOND)
    }
}

// 255 in each lane that equals this byte, and 0 in the others.
#[inline(always)]
fn where_equal(lanes: u8x16, byte: u8) -> u8x16
    ensures { AreLanes 16 result (ones_where 255 lanes byte) }
{
    lanes
        .simd_eq(u8x16::splat(byte))
        .select(u8x16::splat(255), u8x16::splat(0))
}
