//! Units as pairs of bytes: composed, decomposed, and swapped in blocks.
ghost use Rattle.std.specs.Prelude.{◌≡◌, ◌+◌, ◌≤◌, length, take, drop};
ghost use Rattle.utf_lanes.specs.BytePairs.{unit_of, bytes_of, swapped};

use crate::byte_order::ByteOrder;
use std::simd::prelude::*;

/// The unit of two bytes.
#[inline(always)]
pub fn unit<E: ByteOrder>(first: u8, second: u8) -> u16
    ensures { result ≡ unit_of E.HIGH_FIRST first second }
{
    if E::HIGH_FIRST {
        first as u16 * 256 + second as u16
    } else {
        second as u16 * 256 + first as u16
    }
}

/// The two bytes of a unit.
#[inline(always)]
pub fn two_bytes<E: ByteOrder>(unit: u16) -> [u8; 2]
    ensures { result ≡ bytes_of E.HIGH_FIRST unit }
{
    let [high, low] = [(unit / 256) as u8, (unit % 256) as u8];
    if E::HIGH_FIRST {
        [high, low]
    } else {
        [low, high]
    }
}

/// The 64 bytes from the offset on, with those of each pair swapped.
#[inline(always)]
pub fn swapped_64(bytes: &[u8], place: usize) -> [u8; 64]
    requires { place + 64 ≤ length bytes.now }
    ensures { result ≡ swapped (take 64 (drop place bytes.now)) }
{
    u8x64::from_slice(&bytes[place..])
        .swizzle([
            1, 0, 3, 2, 5, 4, 7, 6, 9, 8, 11, 10, 13, 12, 15, 14, 17, 16, 19, 18, 21, 20, 23, 22,
            25, 24, 27, 26, 29, 28, 31, 30, 33, 32, 35, 34, 37, 36, 39, 38, 41, 40, 43, 42, 45, 44,
            47, 46, 49, 48, 51, 50, 53, 52, 55, 54, 57, 56, 59, 58, 61, 60, 63, 62,
        ])
        .to_array()
}

/// The sixteen bytes from the offset on, with those of each pair swapped.
#[inline(always)]
pub fn swapped_16(bytes: &[u8], place: usize) -> [u8; 16]
    requires { place + 16 ≤ length bytes.now }
    ensures { result ≡ swapped (take 16 (drop place bytes.now)) }
{
    u8x16::from_slice(&bytes[place..])
        .swizzle([1, 0, 3, 2, 5, 4, 7, 6, 9, 8, 11, 10, 13, 12, 15, 14])
        .to_array()
}
