//! Offsets where bytes may be cut into shards that are transcoded separately.
ghost use Rattle.std.specs.Prelude.{◌≡◌, ◌+◌, ◌-◌, ◌/◌, ◌%◌, ◌<◌, ◌≤◌, get_or, length, min, IsTrue, IsFalse, true, false};
ghost use Rattle.utf_base.specs.Units.{is_leading_surrogate};
ghost use Rattle.utf_lanes.specs.BytePairs.{units_of};
ghost use Rattle.recoding.specs.Boundaries.{IsBoundary, IsLastTo};
ghost use Rattle.recoding.specs.RecodedBytes.{IsRecodedApart};
ghost use Rattle.recoding.specs.Shards.{BeginsPart, IsLastOutsidePart, IsLastUnitsShardEnd, IsLossyApart, IsShardEnd};

use crate::boundaries::units_boundary;
use crate::form::Form;
use crate::subparts::subpart_len;
use encode_unicode::{CharExt, U16UtfExt};
use utf_lanes::byte_order::{BigEndian, ByteOrder, LittleEndian};
use utf_lanes::byte_pairs::unit;

/// The last offset, up to `at`, that is not inside a character or a maximal subpart, and in UTF-16
/// not inside a unit. It is at most three bytes before `at`. If `at` is the length or more, it is
/// the length.
///
/// You may convert the bytes before it and the bytes after it separately, also on several machines, and join
/// the outputs. You get the output for the whole, in each of the four ways: to the first invalid byte, with one U+FFFD
/// for each invalid byte, with what a table has for it, and with one for each maximal subpart. This is the law
/// `shards_join`.
/// The call reads seven bytes around `at`, and tests in UTF-16 whether the input ends there.
#[tactic(auto, using(crate::proofs::LossyShards::end_is_boundary, crate::proofs::LossyShards::recoded_apart_there, crate::proofs::LossyShards::lossy_apart))]
pub fn shard_end(from: Form, bytes: &[u8], at: usize) -> usize
    ensures end { IsLastTo (IsShardEnd from bytes.now) (length bytes.now) at result }
    ensures near { min at (length bytes.now) ≤ result + 3 }
    ensures boundary { IsBoundary from bytes.now result }
    ensures joined { IsRecodedApart from bytes.now result }
    ensures lossy { IsLossyApart from bytes.now result }
{
    if bytes.len() <= at {
        return bytes.len();
    }
    match from {
        Form::Utf8 => utf8_end(bytes, at),
        Form::Utf16Le => units_end::<LittleEndian>(bytes, at),
        Form::Utf16Be => units_end::<BigEndian>(bytes, at),
    }
}

fn utf8_end(bytes: &[u8], at: usize) -> usize
    requires { at < length bytes.now }
    ensures end { IsLastOutsidePart bytes.now at result }
    ensures near { at ≤ result + 3 }
{
    for place in at.saturating_sub(3)..at {
        if at < place + part_len(&bytes[place..]) {
            return place;
        }
    }
    at
}

// The length in bytes of the part that begins these: a character, or a maximal subpart.
fn part_len(bytes: &[u8]) -> usize
    requires { 0 < length bytes.now }
    ensures part { BeginsPart bytes.now result }
    ensures within { result ≤ length bytes.now }
{
    match char::from_utf8_slice_start(bytes) {
        Ok((_, len)) => len,
        Err(_) => subpart_len(bytes),
    }
}

fn units_end<E: ByteOrder>(bytes: &[u8], at: usize) -> usize
    requires { at < length bytes.now }
    ensures end { IsLastUnitsShardEnd E.HIGH_FIRST bytes.now at result }
    ensures near { at ≤ result + 3 }
{
    let end = units_boundary::<E>(bytes, at);
    if end + 1 == bytes.len() && ends_in_leading_surrogate::<E>(bytes, end) {
        end - 2
    } else {
        end
    }
}

// Returns true if the unit before the offset is a leading surrogate.
fn ends_in_leading_surrogate<E: ByteOrder>(bytes: &[u8], end: usize) -> bool
    requires within { end ≤ length bytes.now }
    requires even { end % 2 ≡ 0 }
    ensures some { IsTrue result → 2 ≤ end }
    ensures yes { IsTrue result → is_leading_surrogate (get_or (units_of E.HIGH_FIRST bytes.now) (end / 2 - 1) 0) ≡ true }
    ensures no { IsFalse result → 2 ≤ end → is_leading_surrogate (get_or (units_of E.HIGH_FIRST bytes.now) (end / 2 - 1) 0) ≡ false }
{
    2 <= end && unit::<E>(bytes[end - 2], bytes[end - 1]).is_utf16_leading_surrogate()
}
