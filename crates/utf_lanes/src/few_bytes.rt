//! Fewer bytes than a vector has lanes, loaded as one vector.
ghost use Rattle.std.specs.Prelude.{◌≡◌, ℕ, ◌+◌, ◌-◌, ◌<◌, ◌≤◌, ◌∷◌, ◌++◌, length, replicate, slice_index};
ghost use Rattle.utf_lanes.specs.Lanes.{end_byte};

use crate::shuffles::PADDED_ROWS;
use std::simd::prelude::*;

// The bytes, padded with NULs at the front to sixteen.
#[inline(always)]
pub(crate) fn padded_text(bytes: &[u8]) -> u8x16
    requires some { 4 ≤ length bytes.now }
    requires few { length bytes.now ≤ 16 }
    ensures { result ≡ replicate (16 - length bytes.now) 0 ++ bytes.now }
{
    let places = u8x16::from_array(PADDED_ROWS[bytes.len() - 4]);
    if bytes.len() < 8 {
        return fours(bytes).swizzle_dyn(places);
    }
    eights(bytes).swizzle_dyn(places)
}

// The first eight bytes and the last eight.
#[inline(always)]
pub(crate) fn eights(bytes: &[u8]) -> u8x16
    requires { 8 ≤ length bytes.now }
    ensures len { length result ≡ 16 }
    ensures lanes { (k : ℕ) → k < 16 → slice_index result k ≡ end_byte 8 bytes.now k }
{
    let first = u8x8::from_slice(bytes);
    let last = u8x8::from_slice(&bytes[bytes.len() - 8..]);
    first.shuffle(last, [0, 1, 2, 3, 4, 5, 6, 7, 8, 9, 10, 11, 12, 13, 14, 15])
}

// The first four bytes and the last four, twice.
#[inline(always)]
pub(crate) fn fours(bytes: &[u8]) -> u8x16
    requires { 4 ≤ length bytes.now }
    ensures len { length result ≡ 16 }
    ensures lanes { (k : ℕ) → k < 8 → slice_index result k ≡ end_byte 4 bytes.now k }
    ensures twice { (k : ℕ) → k < 8 → slice_index result (8 + k) ≡ slice_index result k }
{
    let first = u8x4::from_slice(bytes);
    let last = u8x4::from_slice(&bytes[bytes.len() - 4..]);
    first.shuffle(last, [0, 1, 2, 3, 4, 5, 6, 7, 0, 1, 2, 3, 4, 5, 6, 7])
}

// The elements one, two and three offsets before each lane, with NULs before the first.
#[inline(always)]
pub(crate) fn before_lanes(here: u8x16) -> (u8x16, u8x16, u8x16)
    ensures first_len { length result.0 ≡ 16 }
    ensures second_len { length result.1 ≡ 16 }
    ensures third_len { length result.2 ≡ 16 }
    ensures first { (k : ℕ) → k < 16 → slice_index result.0 k ≡ slice_index (0 ∷ 0 ∷ 0 ∷ here) (k + 2) }
    ensures second { (k : ℕ) → k < 16 → slice_index result.1 k ≡ slice_index (0 ∷ 0 ∷ 0 ∷ here) (k + 1) }
    ensures third { (k : ℕ) → k < 16 → slice_index result.2 k ≡ slice_index (0 ∷ 0 ∷ 0 ∷ here) k }
{
    let nuls = u8x16::splat(0);
    (
        nuls.shuffle(
            here,
            [
                15, 16, 17, 18, 19, 20, 21, 22, 23, 24, 25, 26, 27, 28, 29, 30,
            ],
        ),
        nuls.shuffle(
            here,
            [
                14, 15, 16, 17, 18, 19, 20, 21, 22, 23, 24, 25, 26, 27, 28, 29,
            ],
        ),
        nuls.shuffle(
            here,
            [
                13, 14, 15, 16, 17, 18, 19, 20, 21, 22, 23, 24, 25, 26, 27, 28,
            ],
        ),
    )
}
