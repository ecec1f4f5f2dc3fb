//! Sequences that were encoded twice. Few windows of a text have one, and two bytes of a window show that it has none.
ghost use Rattle.std.specs.Prelude.{◌≡◌, ℕ, ◌+◌, ◌<◌, ◌≤◌, IsTrue, drop, false, length, nat_lt, slice_index};
ghost use Rattle.surveys.specs.SurveyCounts.{number, window_sum, wrapped};
ghost use Rattle.surveys.specs.SurveyTwice.{may_be_twice};
ghost use Rattle.surveys.specs.SurveyWindows.{twice_len};

use crate::sums::{number, sum, whole};
use crate::windows::{WINDOW, twice_len};
use std::simd::prelude::*;

// The number of windows of which a coarse test is made in one step.
const WIDE: usize = 256;

// The number of windows that are tested in one step.
const BLOCK: usize = 64;

/// Sequences that were encoded twice, and their characters, modulo 2^64.
#[derive(Clone, Copy, Drop)]
pub(crate) struct TwiceCounts {
    pub(crate) sequences: u64,
    pub(crate) chars: u64,
}

/// The counts of all windows in the bytes.
pub(crate) fn twice_counts(bytes: &[u8]) -> TwiceCounts
    ensures sequences { result.sequences ≡ wrapped (window_sum (λ w. number (nat_lt 0 (twice_len w))) bytes.now) }
    ensures chars { result.chars ≡ wrapped (window_sum twice_len bytes.now) }
{
    let mut sequences = 0;
    let mut chars = 0;
    let mut place = 0;
    while WINDOW <= bytes.len() - place {
        if place % WIDE == 0 && has_none_surely(bytes, place) {
            place += WIDE;
        } else if place % BLOCK == 0 && has_none(bytes, place) {
            place += BLOCK;
        } else if place % BLOCK == 0 && ends_with_none(bytes, place) {
            place = bytes.len() - (WINDOW - 1);
        } else {
            let len = twice_len(&bytes[place..place + WINDOW]);
            sequences = sum(sequences, number(0 < len));
            chars = sum(chars, len as u64);
            place += 1;
        }
    }
    TwiceCounts {
        sequences: whole(sequences),
        chars: whole(chars),
    }
}

// Outlined: inlined, it takes registers of the loop in which windows are seen one by one.
//
// Returns true if in none of the 256 windows from the offset on C3 and a lead byte show that there may be a sequence.
#[inline(never)]
fn has_none_surely(bytes: &[u8], place: usize) -> bool
    requires { place ≤ length bytes.now }
    ensures within { IsTrue result → place + 272 ≤ length bytes.now }
    ensures none { IsTrue result → (k : ℕ) → k < 256 → may_be_twice (drop (place + k) bytes.now) ≡ false }
{
    if bytes.len() - place < WIDE + WINDOW - 1 {
        return false;
    }
    most_after_lead(&bytes[place + 3..place + WIDE + 5]) < 0xc2
}

// The greatest of the bytes at 256 offsets that have C3 two bytes before, or 0.
#[inline(always)]
fn most_after_lead(bytes: &[u8]) -> u8
    requires { length bytes.now ≡ 258 }
    ensures { (k : ℕ) → k < 256 → slice_index bytes.now k ≡ 0xC3 → slice_index bytes.now (k + 2) ≤ result }
{
    let mut most = 0;
    for k in 0..WIDE {
        most = most.max(after_lead(bytes[k], bytes[k + 2]));
    }
    most
}

// The second byte if the first is C3, otherwise 0.
#[inline(always)]
fn after_lead(first: u8, second: u8) -> u8
    ensures { first ≡ 0xC3 → result ≡ second }
{
    if first == 0xc3 { second } else { 0 }
}

// Returns true if none of the 64 windows from the offset on has a sequence, as far as two bytes of each show.
#[inline(always)]
fn has_none(bytes: &[u8], place: usize) -> bool
    requires { place ≤ length bytes.now }
    ensures within { IsTrue result → place + 80 ≤ length bytes.now }
    ensures none { IsTrue result → (k : ℕ) → k < 64 → may_be_twice (drop (place + k) bytes.now) ≡ false }
{
    if bytes.len() - place < BLOCK + WINDOW - 1 {
        return false;
    }
    candidates(bytes, place) == 0 && candidates(bytes, place + 32) == 0
}

// Returns true if fewer than 64 windows are left, and none of the last 64 has a sequence, as far as two bytes of each show.
#[inline(never)]
fn ends_with_none(bytes: &[u8], place: usize) -> bool
    requires { place + 17 ≤ length bytes.now }
    ensures { IsTrue result → (k : ℕ) → place + k + 17 ≤ length bytes.now → may_be_twice (drop (place + k) bytes.now) ≡ false }
{
    if BLOCK + WINDOW - 1 <= bytes.len() - place {
        return false;
    }
    if bytes.len() < BLOCK + WINDOW - 1 {
        return false;
    }
    has_none(bytes, bytes.len() - (BLOCK + WINDOW - 1))
}

// The bits of the windows, of 32 from the offset on, in which a sequence may begin.
#[inline(always)]
fn candidates(bytes: &[u8], place: usize) -> u64
    requires { place + 37 ≤ length bytes.now }
    ensures { result ≡ 0 → (k : ℕ) → k < 32 → may_be_twice (drop (place + k) bytes.now) ≡ false }
{
    let first = u8x32::from_slice(&bytes[place + 3..]);
    let next = u8x32::from_slice(&bytes[place + 5..]);
    let shown = next.simd_eq(u8x32::splat(0xc2)).to_bitmask()
        | next.simd_ge(u8x32::splat(0xc5)).to_bitmask();
    first.simd_eq(u8x32::splat(0xc3)).to_bitmask() & shown
}
