//! Windows of 64 bytes of which each is ASCII, or is invalid by itself: as units, without a text between.
ghost use Rattle.std.specs.Prelude.{◌≡◌, ◌+◌, ◌<◌, ◌≤◌, ℕ, drop, length, slice_index, count_by, count_ones, nat_le, take, IfSome, IsTrue};
ghost use Rattle.std.specs.Int.{bit_at};
ghost use Rattle.utf_lanes.specs.FaultMasks.{AreSetWhere};
ghost use Rattle.utf_lanes.specs.PlainWindows.{ArePlain, plain_unit};
ghost use Rattle.utf_lanes.specs.Utf8ToUtf16.{concat_range};

use crate::byte_order::ByteOrder;
use crate::text_units::interleave_wide;
use std::simd::prelude::*;

/// Returns the number of bytes among 64 that are not ASCII, if ASCII follows each of them: then each is invalid by
/// itself, if a piece begins at the offset.
#[inline(always)]
pub fn lone_count(bytes: &[u8], place: usize) -> Option<usize>
    requires { place + 64 < length bytes.now }
    ensures { IfSome result (ArePlain (drop place bytes.now)) }
{
    let others = others_at(bytes, place);
    if !are_apart(others) {
        return None;
    }
    Some(others.count_ones() as usize)
}

// Returns the bytes among 64 that are not ASCII.
#[inline(always)]
fn others_at(bytes: &[u8], place: usize) -> u64
    requires { place + 64 < length bytes.now }
    ensures set { AreSetWhere 64 result (λ k. 0x80 ≤ slice_index (drop place bytes.now) k) }
    ensures count { count_ones result ≡ count_by (nat_le 0x80) (take 64 (drop place bytes.now)) }
{
    u8x64::from_slice(&bytes[place..])
        .simd_ge(u8x64::splat(0x80))
        .to_bitmask()
}

// Returns true if a bit that is not set follows each bit that is set.
#[inline(always)]
fn are_apart(mask: u64) -> bool
    ensures { IsTrue result → (k : ℕ) → k < 64 → bit_at mask k ≡ 1 → (k < 63) × (bit_at mask (k + 1) ≡ 0) }
{
    mask & (mask >> 1 | 1 << 63) == 0
}

/// The units of 64 bytes of which each is ASCII, or is replaced by U+FFFD: of the first 32 bytes, and of the others.
#[inline(always)]
pub fn plain_units<E: ByteOrder>(bytes: &[u8], place: usize) -> (u8x64, u8x64)
    requires { place + 64 ≤ length bytes.now }
    ensures first { result.0 ≡
        concat_range (λ k. plain_unit E.HIGH_FIRST (slice_index (drop place bytes.now) k)) 0 32 }
    ensures second { result.1 ≡
        concat_range (λ k. plain_unit E.HIGH_FIRST (slice_index (drop place bytes.now) k)) 32 32 }
{
    let here = u8x64::from_slice(&bytes[place..]);
    let is_other = here.simd_ge(u8x64::splat(0x80));
    let low = is_other.select(u8x64::splat(0xfd), here);
    let high = is_other.select(u8x64::splat(0xff), u8x64::splat(0));
    interleave_wide::<E>(low, high)
}
