//! The length of the well-formed front of units, validated eight in one step: each ends a pair if and only if
//! the one before it begins one.
ghost use Rattle.std.specs.Prelude.{ℕ, ◌+◌, ◌<◌, ◌≤◌, IsTrue, false, length, take};
ghost use Rattle.utf_lanes.specs.UnitBlocks.{AllPaired, AreCodes, AreJudged};

use crate::byte_order::LittleEndian;
use crate::unit_blocks::{all_pair, unpaired_lanes};
use std::simd::ToBytes;
use std::simd::prelude::*;
use utf_base::elements::is_trailing_surrogate;
use utf_base::traits::U16UtfExt;

/// The number of well-formed units at the front: nearly all of them, if there are more than a few.
#[inline]
pub fn paired_len(units: &[u16]) -> usize
    ensures within { result ≤ length units.now }
    ensures codes { AreCodes (take result units.now) }
    ensures near { (n : ℕ) → n ≤ length units.now → AreCodes (take n units.now) → n ≤ result + 32 }
{
    if units.is_empty() || is_trailing_surrogate(units[0]) {
        return 0;
    }
    let end = paired_end(units);
    if units[end - 1].is_utf16_leading_surrogate() {
        end - 1
    } else {
        end
    }
}

// The offset up to which the units after the first each pair with the one before them, in blocks of 32.
#[inline(always)]
fn paired_end(units: &[u16]) -> usize
    requires { 0 < length units.now }
    ensures least { 1 ≤ result }
    ensures within { result ≤ length units.now }
    ensures paired { AllPaired units.now 1 result }
    ensures near { (n : ℕ) → n ≤ length units.now → AllPaired units.now 1 n → n < result + 32 }
{
    let mut place = 1;
    while 32 <= units.len() - place {
        if !is_paired_block(units, place) {
            return place;
        }
        place += 32;
    }
    place
}

// Returns true if each of the 32 units from the offset on pairs with the one before it.
#[inline(always)]
fn is_paired_block(units: &[u16], place: usize) -> bool
    requires start { 1 ≤ place }
    requires within { place + 32 ≤ length units.now }
    ensures paired { IsTrue result → AllPaired units.now place (place + 32) }
    ensures all { AllPaired units.now place (place + 32) → IsTrue result }
{
    all_pair(
        unpaired(units, place),
        unpaired(units, place + 8),
        unpaired(units, place + 16),
        unpaired(units, place + 24),
    )
}

// The eight units from the offset on, each after the one before it: in the lane of its high byte, 0 if they
// pair.
#[inline(always)]
fn unpaired(units: &[u16], place: usize) -> u8x16
    requires start { 1 ≤ place }
    requires within { place + 8 ≤ length units.now }
    ensures { AreJudged false units.now place result }
{
    let here = u16x8::from_slice(&units[place..]).to_le_bytes();
    let before = u16x8::from_slice(&units[place - 1..]).to_le_bytes();
    unpaired_lanes::<LittleEndian>(before, here)
}
