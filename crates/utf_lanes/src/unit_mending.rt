//! Damaged UTF-16 as text, 32 units in one step: U+FFFD replaces each lone surrogate.
ghost use Rattle.std.specs.Prelude.{◌≡◌, ℕ, ◌+◌, ◌/◌, ◌<◌, ◌≤◌, if◌then◌else◌, length, nat_eq, slice_index, false, true};
ghost use Rattle.utf_lanes.specs.Lanes.{AreLanes, ones_where};
ghost use Rattle.utf_lanes.specs.UnitMending.{MendsUnits, is_unpaired};
ghost use Rattle.utf_lanes.specs.Utf8ToUtf16.{concat_range, halves_at};

use crate::byte_order::ByteOrder;
use crate::slots::{SlotWriter, ThirtyTwo};
use crate::unit_bytes::mask_of_top_bits;
use std::simd::prelude::*;

/// 32 units, some of which are mended, by the halves of each.
#[derive(Clone, Copy, Drop)]
pub struct MendedUnits {
    /// The low halves.
    pub low: u8x32,
    /// The high halves.
    pub high: u8x32,
    /// The number of units that are text: all, or all but a leading surrogate at the end, since what follows decides
    /// that.
    pub len: usize,
    /// The number of lone surrogates among them, which U+FFFD replaces.
    pub replaced: usize,
}

// All bits, except for the last lane.
const ALL_BUT_LAST: [u8; 32] = [
    255, 255, 255, 255, 255, 255, 255, 255, 255, 255, 255, 255, 255, 255, 255, 255, 255, 255, 255,
    255, 255, 255, 255, 255, 255, 255, 255, 255, 255, 255, 255, 0,
];

/// Mends 32 units, at whose front a piece begins.
#[inline(always)]
pub fn mended_units(low: u8x32, high: u8x32) -> MendedUnits
    ensures { MendsUnits low high result }
{
    let is_lone = lone_lanes(high).simd_ne(u8x32::splat(0));
    MendedUnits {
        low: is_lone.select(u8x32::splat(0xfd), low),
        high: is_lone.select(u8x32::splat(0xff), high),
        len: text_lanes(high),
        replaced: is_lone.to_bitmask().count_ones() as usize,
    }
}

// 255 for each unit that is a lone surrogate, by the high halves, and 0 for the others. A leading surrogate at the end
// is none.
#[inline(always)]
fn lone_lanes(high: u8x32) -> u8x32
    ensures { AreLanes 32 result (λ k. if is_unpaired 32 (λ i. nat_eq (slice_index high i / 4) 0x36)
        (λ i. nat_eq (slice_index high i / 4) 0x37) k then 255 else 0) }
{
    let fourths = high >> u8x32::splat(2);
    let leading = all_but_last(where_equal(fourths, 0x36));
    let trailing = where_equal(fourths, 0x37);
    let unpaired = ThirtyTwo::one_later(leading) ^ trailing;
    (one_earlier(unpaired) & leading) | (unpaired & trailing)
}

// The lanes, but 0 in place of the last.
#[inline(always)]
fn all_but_last(lanes: u8x32) -> u8x32
    ensures wide { length result ≡ 32 }
    ensures others { (k : ℕ) → k < 31 → slice_index result k ≡ slice_index lanes k }
    ensures last { slice_index result 31 ≡ 0 }
{
    lanes & u8x32::from_array(ALL_BUT_LAST)
}

// Each lane one offset earlier, and the first in place of the last.
#[inline(always)]
fn one_earlier(lanes: u8x32) -> u8x32
    ensures wide { length result ≡ 32 }
    ensures others { (k : ℕ) → k < 31 → slice_index result k ≡ slice_index lanes (k + 1) }
{
    lanes.rotate_elements_right::<31>()
}

// 255 in each lane that equals this byte, and 0 in the others.
#[inline(always)]
fn where_equal(lanes: u8x32, byte: u8) -> u8x32
    ensures { AreLanes 32 result (ones_where 255 lanes byte) }
{
    lanes
        .simd_eq(u8x32::splat(byte))
        .select(u8x32::splat(255), u8x32::splat(0))
}

// The number of units before a leading surrogate at the end, by the high halves.
#[inline(always)]
fn text_lanes(high: u8x32) -> usize
    ensures least { 31 ≤ result }
    ensures most { result ≤ 32 }
    ensures last { result + 1 ≡ 32 → nat_eq (slice_index high 31 / 4) 0x36 ≡ true }
    ensures all { result ≡ 32 → nat_eq (slice_index high 31 / 4) 0x36 ≡ false }
{
    if mask_of_top_bits(high, 0x36) < 1 << 31 {
        32
    } else {
        31
    }
}

/// The bytes of 32 units by their halves: of the first sixteen, and of the others.
#[inline(always)]
pub fn interleaved<E: ByteOrder>(low: u8x32, high: u8x32) -> (u8x32, u8x32)
    ensures first { result.0 ≡ concat_range (halves_at E.HIGH_FIRST low high) 0 16 }
    ensures second { result.1 ≡ concat_range (halves_at E.HIGH_FIRST low high) 16 16 }
{
    if E::HIGH_FIRST {
        high.interleave(low)
    } else {
        low.interleave(high)
    }
}
