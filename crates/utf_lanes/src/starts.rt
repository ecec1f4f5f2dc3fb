//! Bytes that begin a code, counted in parts and in blocks: of text, the number of characters, and the offset of one
//! of them.
ghost use Rattle.std.specs.Prelude.{◌≡◌, ◌+◌, ◌^◌, ◌<◌, ◌≤◌, MatchOption, length, slice_range, take};
ghost use Rattle.utf_lanes.specs.Starts.{IsStartOf, start_count};

use std::simd::prelude::*;
use utf_base::elements::is_continuation;

// The number of bytes that are counted in one loop: no more than a `u8` can count, and as many as three
// blocks have.
const PART: usize = 192;

/// The number of bytes that are no continuation byte: of text, the number of characters.
#[inline]
pub fn starts_in(bytes: &[u8]) -> usize
    ensures { result ≡ start_count bytes.now }
{
    let front = parts_counted(bytes);
    let rest = &bytes[front.place..];
    let counted = counted_up_to(rest, usize::MAX);
    front.starts + (counted.starts + short_starts(&rest[counted.place..]))
}

/// The offset of the byte with this number, counted from 0, among those that are no continuation byte. `None` if
/// there are no more.
#[inline]
pub fn nth_start(bytes: &[u8], number: usize) -> Option<usize>
    ensures { MatchOption result (start_count bytes.now ≤ number) (IsStartOf bytes.now number) }
{
    let counted = counted_up_to(bytes, number);
    let mut place = counted.place;
    let mut before = counted.starts;
    while place < bytes.len() {
        if !is_continuation(bytes[place]) {
            if before == number {
                return Some(place);
            }
            before += 1;
        }
        place += 1;
    }
    None
}

// An offset, and the number of bytes before it that begin a code.
#[derive(Clone, Copy, Drop)]
struct Counted {
    place: usize,
    starts: usize,
}

// Counts whole parts from the front on.
#[inline(always)]
fn parts_counted(bytes: &[u8]) -> Counted
    ensures within { result.place ≤ length bytes.now }
    ensures starts { result.starts ≡ start_count (take result.place bytes.now) }
{
    let mut counted = Counted {
        place: 0,
        starts: 0,
    };
    while PART <= bytes.len() - counted.place {
        counted.starts += part_starts(&bytes[counted.place..counted.place + PART]) as usize;
        counted.place += PART;
    }
    counted
}

// The number of bytes of a part that begin a code. The counter is a `u8`: so the compiler compares and adds as many
// in one instruction as a vector has lanes, and sums the lanes once for each part, if a mask is one for each vector.
#[inline(always)]
fn part_starts(bytes: &[u8]) -> u8
    requires { length bytes.now ≡ 192 }
    ensures { result ≡ start_count bytes.now }
{
    let mut starts = 0;
    for place in 0..PART {
        if !is_continuation(bytes[place]) {
            starts += 1;
        }
    }
    starts
}

// Counts blocks of 64 from the front on, while at most `most` of their bytes begin a code.
#[inline(always)]
fn counted_up_to(bytes: &[u8], most: usize) -> Counted
    ensures within { result.place ≤ length bytes.now }
    ensures starts { result.starts ≡ start_count (take result.place bytes.now) }
    ensures most { result.starts ≤ most }
{
    let mut counted = Counted {
        place: 0,
        starts: 0,
    };
    while 64 <= bytes.len() - counted.place {
        let more = block_starts(bytes, counted.place);
        if most - counted.starts < more {
            return counted;
        }
        counted.starts += more;
        counted.place += 64;
    }
    counted
}

// The number of the 64 bytes from the offset on that begin a code.
#[inline(always)]
fn block_starts(bytes: &[u8], place: usize) -> usize
    requires { place + 64 ≤ length bytes.now }
    ensures { result ≡ start_count (slice_range bytes.now place (place + 64)) }
{
    lane_starts::<32>(bytes, place) + lane_starts::<32>(bytes, place + 32)
}

// The number of the N bytes from the offset on that begin a code. A continuation byte plus 0x80 is below
// 0x40.
#[inline(always)]
fn lane_starts<const N: usize>(bytes: &[u8], place: usize) -> usize
    requires few { N ≤ 64 }
    requires within { place + N ≤ length bytes.now }
    ensures { result ≡ start_count (slice_range bytes.now place (place + N)) }
{
    let lanes = Simd::<u8, N>::from_slice(&bytes[place..]) + Simd::splat(0x80);
    lanes.simd_ge(Simd::splat(0x40)).to_bitmask().count_ones() as usize
}

// The number of bytes that begin a code, in a few blocks of sixteen and the rest.
#[inline(always)]
fn short_starts(bytes: &[u8]) -> usize
    ensures { result ≡ start_count bytes.now }
{
    let mut place = 0;
    let mut starts = 0;
    while 16 <= bytes.len() - place {
        starts += lane_starts::<16>(bytes, place);
        place += 16;
    }
    starts + few_starts(&bytes[place..])
}

// The number of bytes that begin a code, counted one by one.
#[inline(always)]
fn few_starts(bytes: &[u8]) -> usize
    ensures { result ≡ start_count bytes.now }
{
    bytes.iter().filter(|byte| !is_continuation(**byte)).count()
}
