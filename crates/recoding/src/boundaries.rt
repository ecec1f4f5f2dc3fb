//! Character boundaries near an offset.
ghost use Rattle.std.specs.Prelude.{ℕ, ◌+◌, ◌≤◌, ◌<◌, length, min, IsTrue, IsFalse};
ghost use Rattle.utf_base.specs.Code.{utf8, utf16};
ghost use Rattle.utf_base.specs.Piece.{Stands};
ghost use Rattle.utf_lanes.specs.BytePairs.{units_of};
ghost use Rattle.recoding.specs.Boundaries.{BeginsNoPair, IsBoundary, IsFirstFrom, IsLastOutside, IsLastTo};
ghost use Rattle.recoding.specs.Boundaries.{IsLastUnitsEnd, IsUnitBoundary, LiesOver};
ghost use Rattle.recoding.specs.RecodedBytes.{IsRecodedApart};

use crate::form::Form;
use encode_unicode::CharExt;
use utf_lanes::byte_order::{BigEndian, ByteOrder, LittleEndian};
use utf_lanes::byte_pairs::unit;

/// The last offset, up to `at`, that is not inside a character, and in UTF-16 not inside a unit. It
/// is at most three bytes before `at`. If `at` is the length or more, it is the length.
///
/// It may be inside a maximal subpart: to convert the bytes before it and after it separately, with one
/// U+FFFD for each maximal subpart, take `shard_end`. The call reads six bytes around `at`.
#[tactic(auto, using(crate::proofs::RecodedLists::recoded_apart))]
pub fn boundary_before(from: Form, bytes: &[u8], at: usize) -> usize
    ensures end { IsLastTo (IsBoundary from bytes.now) (length bytes.now) at result }
    ensures near { min at (length bytes.now) ≤ result + 3 }
    ensures joined { IsRecodedApart from bytes.now result }
{
    if bytes.len() <= at {
        return bytes.len();
    }
    match from {
        Form::Utf8 => utf8_boundary(bytes, at),
        Form::Utf16Le => units_boundary::<LittleEndian>(bytes, at),
        Form::Utf16Be => units_boundary::<BigEndian>(bytes, at),
    }
}

fn utf8_boundary(bytes: &[u8], at: usize) -> usize
    requires { at < length bytes.now }
    ensures end { IsLastOutside utf8 bytes.now at result }
    ensures near { at ≤ result + 3 }
{
    for place in at.saturating_sub(3)..at {
        if lies_over(bytes, place, at) {
            return place;
        }
    }
    at
}

// Returns true if a code that begins at `place` covers `at`.
fn lies_over(bytes: &[u8], place: usize, at: usize) -> bool
    requires { place ≤ length bytes.now }
    ensures yes { IsTrue result → LiesOver utf8 bytes.now place at }
    ensures no { IsFalse result → (s : ℕ) → Stands utf8 bytes.now place s → place + length (utf8 s) ≤ at }
{
    match char::from_utf8_slice_start(&bytes[place..]) {
        Ok((_, len)) => at < place + len,
        Err(_) => false,
    }
}

// The last offset, up to `at`, that is inside no unit and no pair.
pub(crate) fn units_boundary<E: ByteOrder>(bytes: &[u8], at: usize) -> usize
    requires { at < length bytes.now }
    ensures end { IsLastUnitsEnd E.HIGH_FIRST bytes.now at result }
    ensures near { at ≤ result + 3 }
{
    let place = at - at % 2;
    if 2 <= place && begins_pair::<E>(&bytes[place - 2..]) {
        place - 2
    } else {
        place
    }
}

// Returns true if the code of two units begins the bytes.
fn begins_pair<E: ByteOrder>(bytes: &[u8]) -> bool
    ensures yes { IsTrue result → LiesOver utf16 (units_of E.HIGH_FIRST bytes.now) 0 1 }
    ensures no { IsFalse result → BeginsNoPair (units_of E.HIGH_FIRST bytes.now) }
{
    if bytes.len() < 4 {
        return false;
    }
    let first = unit::<E>(bytes[0], bytes[1]);
    let second = unit::<E>(bytes[2], bytes[3]);
    match char::from_utf16_slice_start(&[first, second]) {
        Ok((_, len)) => 1 < len,
        Err(_) => false,
    }
}

/// The first offset, from `at` on, that is not inside a character, and in UTF-16 not inside a unit.
/// It is at most three bytes after `at`. If `at` is the length or more, it is the length.
/// `boundary_before` gives the last such offset up to `at`.
pub fn boundary_after(from: Form, bytes: &[u8], at: usize) -> usize
    ensures end { IsFirstFrom (IsBoundary from bytes.now) (length bytes.now) at result }
    ensures near { result ≤ at + 3 }
{
    let mut place = at.min(bytes.len());
    while boundary_before(from, bytes, place) < place {
        place += 1;
    }
    place
}

/// The last offset in units, up to `at`, that is not inside a surrogate pair. It is at most one
/// unit before `at`. If `at` is the length or more, it is the length.
pub fn unit_boundary_before(units: &[u16], at: usize) -> usize
    ensures end { IsLastTo (IsUnitBoundary units.now) (length units.now) at result }
    ensures near { min at (length units.now) ≤ result + 1 }
{
    if units.len() <= at {
        return units.len();
    }
    if 0 < at && is_pair(&units[at - 1..]) {
        return at - 1;
    }
    at
}

// Returns true if the code of two units begins these.
fn is_pair(units: &[u16]) -> bool
    ensures yes { IsTrue result → LiesOver utf16 units.now 0 1 }
    ensures no { IsFalse result → BeginsNoPair units.now }
{
    match char::from_utf16_slice_start(units) {
        Ok((_, len)) => 1 < len,
        Err(_) => false,
    }
}

/// The first offset in units, from `at` on, that is not inside a surrogate pair. It is at most one
/// unit after `at`. If `at` is the length or more, it is the length.
pub fn unit_boundary_after(units: &[u16], at: usize) -> usize
    ensures end { IsFirstFrom (IsUnitBoundary units.now) (length units.now) at result }
    ensures near { result ≤ at + 1 }
{
    let mut place = at.min(units.len());
    while unit_boundary_before(units, place) < place {
        place += 1;
    }
    place
}
