//! The bytes of sixteen or thirty-two slots, written into a buffer from an offset on, by rows: vectors of
//! which the first bytes count.
ghost use Rattle.std.specs.Prelude.{◌≡◌, ℕ, ◌+◌, ◌-◌, ◌*◌, ◌<◌, ◌≤◌, length, slice_index, false, true, ◌++◌, take, drop};
ghost use Rattle.utf_lanes.specs.UnitCodes.{Writes, short_slots_of, slots_of, lanes_of, row_given, row_most, row_of, row_places, row_slots, rows_given};
ghost use Rattle.utf_lanes.specs.Utf8ToUtf16.{IsRow};
ghost use Rattle.utf_lanes.specs.Lanes.{ArePairs, pair_of_lanes};

use crate::shuffles::{COMPRESS_ENDS, COMPRESS_LANES};
use std::simd::prelude::*;

// The operations that depend on the vector width: they write the bytes of N slots from the offset on, and
// return the offset after them.
pub(crate) trait SlotWriter<const N: usize> {
    // Each lane one offset later, and the last in place of the first.
    fn one_later(lanes: Simd<u8, N>) -> Simd<u8, N>
        ensures wide { length result ≡ N }
        ensures others { (k : ℕ) → k + 1 < N → slice_index result (k + 1) ≡ slice_index lanes.entry k }
        ensures first { slice_index result 0 ≡ slice_index lanes.entry (N - 1) };

    // Writes the bytes of slots in which none has three.
    fn write_short(middle: Simd<u8, N>, last: Simd<u8, N>, room: &mut [u8], at: usize) -> usize
        requires { at + (3 * N + 16) ≤ length room.old }
        ensures written { Writes room.old room.new at result (short_slots_of N middle.entry last.entry) }
        ensures most { result ≤ at + 3 * N };

    fn write_slots(
        first: Simd<u8, N>,
        middle: Simd<u8, N>,
        last: Simd<u8, N>,
        room: &mut [u8],
        at: usize,
    ) -> usize
        requires { at + (3 * N + 16) ≤ length room.old }
        ensures written { Writes room.old room.new at result
            (slots_of N first.entry middle.entry last.entry) }
        ensures most { result ≤ at + 3 * N };
}

// Vectors of sixteen lanes.
pub(crate) struct Sixteen;

impl SlotWriter<16> for Sixteen {
    #[inline(always)]
    fn one_later(lanes: u8x16) -> u8x16
        ensures wide { length result ≡ 16 }
        ensures others { (k : ℕ) → k + 1 < 16 → slice_index result (k + 1) ≡ slice_index lanes k }
        ensures first { slice_index result 0 ≡ slice_index lanes (16 - 1) }
    {
        lanes.rotate_elements_right::<1>()
    }

    #[inline(always)]
    fn write_short(middle: u8x16, last: u8x16, room: &mut [u8], at: usize) -> usize
        requires { at + (3 * 16 + 16) ≤ length room.old }
        ensures written { Writes room.old room.new at result (short_slots_of 16 middle last) }
        ensures most { result ≤ at + 3 * 16 }
    {
        write_rows(rows_of(true, middle, last), room, at)
    }

    #[inline(always)]
    fn write_slots(first: u8x16, middle: u8x16, last: u8x16, room: &mut [u8], at: usize) -> usize
        requires { at + (3 * 16 + 16) ≤ length room.old }
        ensures written { Writes room.old room.new at result (slots_of 16 first middle last) }
        ensures most { result ≤ at + 3 * 16 }
    {
        let (fronts, more_fronts) = first.interleave(middle);
        let (lasts, more_lasts) = last.interleave(last);
        let half = write_rows(rows_of(false, fronts, lasts), room, at);
        write_rows(rows_of(false, more_fronts, more_lasts), room, half)
    }
}

// Vectors of thirty-two lanes.
pub(crate) struct ThirtyTwo;

impl SlotWriter<32> for ThirtyTwo {
    #[inline(always)]
    fn one_later(wide: u8x32) -> u8x32
        ensures wide { length result ≡ 32 }
        ensures others { (k : ℕ) → k + 1 < 32 → slice_index result (k + 1) ≡ slice_index wide k }
        ensures first { slice_index result 0 ≡ slice_index wide (32 - 1) }
    {
        wide.rotate_elements_right::<1>()
    }

    #[inline(always)]
    fn write_short(middle: u8x32, last: u8x32, room: &mut [u8], at: usize) -> usize
        requires { at + (3 * 32 + 16) ≤ length room.old }
        ensures written { Writes room.old room.new at result (short_slots_of 32 middle last) }
        ensures most { result ≤ at + 3 * 32 }
    {
        let (front, back) = wide_rows_of(true, middle, last);
        let half = write_rows(front, room, at);
        write_rows(back, room, half)
    }

    #[inline(always)]
    fn write_slots(first: u8x32, middle: u8x32, last: u8x32, room: &mut [u8], at: usize) -> usize
        requires { at + (3 * 32 + 16) ≤ length room.old }
        ensures written { Writes room.old room.new at result (slots_of 32 first middle last) }
        ensures most { result ≤ at + 3 * 32 }
    {
        let (one, three) = wide_rows_of(false, low_pairs(first, middle), low_pairs(last, last));
        let (two, four) = wide_rows_of(false, high_pairs(first, middle), high_pairs(last, last));
        let quarter = write_rows(one, room, at);
        let half = write_rows(two, room, quarter);
        let most = write_rows(three, room, half);
        write_rows(four, room, most)
    }
}

// A vector whose first `len` bytes count.
#[derive(Drop)]
struct Row {
    bytes: u8x16,
    len: usize,
}

// Two rows, one after the other.
#[derive(Drop)]
struct Rows {
    low: Row,
    high: Row,
}

// Writes the bytes of two rows from the offset on. Returns the offset after them.
#[inline(always)]
fn write_rows(rows: Rows, room: &mut [u8], at: usize) -> usize
    requires low { rows.low.len ≤ 16 }
    requires high { rows.high.len ≤ 16 }
    requires room { at + 32 ≤ length room.old }
    ensures written { Writes room.old room.new at result (rows_given rows) }
    ensures end { result ≡ at + rows.low.len + rows.high.len }
{
    let middle = write_row(rows.low, room, at);
    write_row(rows.high, room, middle)
}

// Writes the bytes of one row from the offset on. Returns the offset after them.
#[inline(always)]
fn write_row(row: Row, room: &mut [u8], at: usize) -> usize
    requires few { row.len ≤ 16 }
    requires wide { length row.bytes ≡ 16 }
    requires room { at + 16 ≤ length room.old }
    ensures written { Writes room.old room.new at result (row_given row) }
    ensures end { result ≡ at + row.len }
{
    row.bytes.copy_to_slice(&mut room[at..]);
    at + row.len
}

// The bytes of sixteen slots in which none has three, or of eight of which one vector has the first two bytes of each
// and the other the last.
#[inline(always)]
fn rows_of(short: bool, fronts: u8x16, lasts: u8x16) -> Rows
    ensures bytes { rows_given result ≡ lanes_of short fronts lasts }
    ensures low { result.low.len ≤ row_most short }
    ensures high { result.high.len ≤ row_most short }
{
    let mask = fronts.simd_ge(u8x16::splat(0x80)).to_bitmask() as usize;
    let (pairs, more_pairs) = fronts.interleave(lasts);
    Rows {
        low: compressed_row(short, pairs, mask & 255),
        high: compressed_row(short, more_pairs, mask >> 8),
    }
}

// The row of the slots of one vector, of which the mask says which bytes are kept.
#[inline(always)]
fn compressed_row(short: bool, lanes: u8x16, mask: usize) -> Row
    requires { mask < 256 }
    ensures bytes { row_given result ≡ row_of short mask lanes }
    ensures most { result.len ≤ row_most short }
{
    let (places, len) = compress_row(short, mask);
    Row {
        bytes: lanes.swizzle_dyn(u8x16::from_array(places)),
        len,
    }
}

// The offsets of the kept bytes, followed by any, and their number.
#[inline(always)]
fn compress_row(short: bool, mask: usize) -> ([u8; 16], usize)
    requires { mask < 256 }
    ensures row { IsRow result.0 mask result.1 (row_slots short) (row_places short mask) }
    ensures most { result.1 ≤ row_most short }
    ensures few { result.1 ≤ 16 }
{
    let count = mask.count_ones() as usize;
    if short {
        (COMPRESS_ENDS[mask], 8 + count)
    } else {
        (COMPRESS_LANES[mask], 4 + count)
    }
}

// The rows of either half of the slots whose bytes are in these two vectors.
#[inline(always)]
fn wide_rows_of(short: bool, fronts: u8x32, lasts: u8x32) -> (Rows, Rows)
    ensures front { rows_given result.0 ≡ lanes_of short (take 16 fronts) (take 16 lasts) }
    ensures back { rows_given result.1 ≡ lanes_of short (drop 16 fronts) (drop 16 lasts) }
    ensures front_low { result.0.low.len ≤ row_most short }
    ensures front_high { result.0.high.len ≤ row_most short }
    ensures back_low { result.1.low.len ≤ row_most short }
    ensures back_high { result.1.high.len ≤ row_most short }
{
    let mask = fronts.simd_ge(u8x32::splat(0x80)).to_bitmask() as usize;
    let (one, three) = compressed_rows(
        short,
        low_pairs(fronts, lasts),
        mask & 255,
        (mask >> 16) & 255,
    );
    let (two, four) = compressed_rows(
        short,
        high_pairs(fronts, lasts),
        (mask >> 8) & 255,
        (mask >> 24) & 255,
    );
    (
        Rows {
            low: one,
            high: two,
        },
        Rows {
            low: three,
            high: four,
        },
    )
}

// The row of either half, of which a mask says which bytes are kept.
#[inline(always)]
fn compressed_rows(short: bool, lanes: u8x32, mask: usize, more_mask: usize) -> (Row, Row)
    requires mask { mask < 256 }
    requires more_mask { more_mask < 256 }
    ensures bytes { row_given result.0 ≡ row_of short mask (take 16 lanes) }
    ensures more { row_given result.1 ≡ row_of short more_mask (drop 16 lanes) }
    ensures most { result.0.len ≤ row_most short }
    ensures most_more { result.1.len ≤ row_most short }
{
    let (places, len) = compress_row(short, mask);
    let (more_places, more_len) = compress_row(short, more_mask);
    let both = joined(u8x16::from_array(places), u8x16::from_array(more_places));
    let (bytes, more_bytes) = halves(lanes.swizzle_dyn_within::<16>(both));
    (
        Row { bytes, len },
        Row {
            bytes: more_bytes,
            len: more_len,
        },
    )
}

// Two vectors as one.
#[inline(always)]
pub(crate) fn joined(first: u8x16, second: u8x16) -> u8x32
    ensures { result ≡ first ++ second }
{
    first.shuffle(
        second,
        [
            0, 1, 2, 3, 4, 5, 6, 7, 8, 9, 10, 11, 12, 13, 14, 15, 16, 17, 18, 19, 20, 21, 22, 23,
            24, 25, 26, 27, 28, 29, 30, 31,
        ],
    )
}

// One vector as two.
#[inline(always)]
fn halves(lanes: u8x32) -> (u8x16, u8x16)
    ensures first { result.0 ≡ take 16 lanes }
    ensures second { result.1 ≡ drop 16 lanes }
{
    (lanes.extract::<0, 16>(), lanes.extract::<16, 16>())
}

// The first eight lanes of either half, in pairs of both vectors.
#[inline(always)]
fn low_pairs(first: u8x32, second: u8x32) -> u8x32
    ensures front { ArePairs (take 16 result) (pair_of_lanes (take 16 first) (take 16 second)) }
    ensures back { ArePairs (drop 16 result) (pair_of_lanes (drop 16 first) (drop 16 second)) }
{
    first.shuffle(
        second,
        [
            0, 32, 1, 33, 2, 34, 3, 35, 4, 36, 5, 37, 6, 38, 7, 39, 16, 48, 17, 49, 18, 50, 19, 51,
            20, 52, 21, 53, 22, 54, 23, 55,
        ],
    )
}

// The last eight lanes of either half, in pairs of both vectors.
#[inline(always)]
fn high_pairs(first: u8x32, second: u8x32) -> u8x32
    ensures front { ArePairs (take 16 result) (λ k. pair_of_lanes (take 16 first) (take 16 second) (8 + k)) }
    ensures back { ArePairs (drop 16 result) (λ k. pair_of_lanes (drop 16 first) (drop 16 second) (8 + k)) }
{
    first.shuffle(
        second,
        [
            8, 40, 9, 41, 10, 42, 11, 43, 12, 44, 13, 45, 14, 46, 15, 47, 24, 56, 25, 57, 26, 58,
            27, 59, 28, 60, 29, 61, 30, 62, 31, 63,
        ],
    )
}
