//! Character boundaries next to any byte, also one inside a character: for a viewer that is asked for a byte, and for
//! a log whose lines are cut to a length.
//!
//! They are `floor_char_boundary` and `ceil_char_boundary` of a `str`, for bytes that may be damaged. Each invalid
//! byte has a boundary before it and one after it. A call reads six bytes around the offset, and does not allocate.
ghost use Rattle.std.specs.Prelude.{◌≡◌, ◌+◌, ◌-◌, ◌<◌, ◌≤◌, MatchOption, length, min, take};
ghost use Rattle.text_runs.specs.PieceBoundaries.{IsBetween, IsCodeOver, IsEndFrom, IsFirstBetween, IsLastBetween};

use encode_unicode::{Utf8Char, laws};
use utf_base::elements::is_continuation;

/// The last boundary at or before this offset: `floor(b"a\xe2\x82\xac", 3)` is 1. A boundary is an
/// offset between two pieces, or either end of the bytes.
///
/// Condition: the offset is at most the length.
pub fn floor(bytes: &[u8], place: usize) -> usize
    requires { place ≤ length bytes.now }
    ensures { IsLastBetween bytes.now place result }
{
    laws::codes_never_overlap();
    match code_over(bytes, place) {
        Some((start, _)) => start,
        None => place,
    }
}

/// The first boundary at or after this offset: `ceil(b"a\xe2\x82\xac", 3)` is 4. A boundary is an
/// offset between two pieces, or either end of the bytes.
///
/// Condition: the offset is at most the length.
pub fn ceil(bytes: &[u8], place: usize) -> usize
    requires { place ≤ length bytes.now }
    ensures { IsFirstBetween bytes.now place result }
{
    match code_over(bytes, place) {
        Some((_, end)) => end,
        None => place,
    }
}

/// The offset where the piece begins that has the byte before this offset. A piece is a character or one
/// invalid byte.
///
/// Condition: the offset is above 0 and at most the length.
pub fn previous(bytes: &[u8], place: usize) -> usize
    requires some { 0 < place }
    requires within { place ≤ length bytes.now }
    ensures { IsLastBetween bytes.now (place - 1) result }
{
    floor(bytes, place - 1)
}

/// The offset where the piece ends that has the byte at this offset. A piece is a character or one invalid
/// byte.
///
/// Condition: the offset is below the length.
pub fn following(bytes: &[u8], place: usize) -> usize
    requires { place < length bytes.now }
    ensures { IsFirstBetween bytes.now (place + 1) result }
{
    ceil(bytes, place + 1)
}

/// The longest front of the bytes that ends at a boundary and has at most `most` bytes: all of the bytes, if they are
/// no more than `most`.
pub fn truncated(bytes: &[u8], most: usize) -> &[u8]
    ensures front { result.now ≡ take (length result.now) bytes.now }
    ensures last { IsLastBetween bytes.now (min most (length bytes.now)) (length result.now) }
    ensures short { length result.now ≤ most }
{
    &bytes[..floor(bytes, most.min(bytes.len()))]
}

// The range of the character that covers an offset.
fn code_over(bytes: &[u8], place: usize) -> Option<(usize, usize)>
    requires { place ≤ length bytes.now }
    ensures { MatchOption result (IsBetween bytes.now place) (λ x. IsCodeOver bytes.now x.0 x.1 place) }
{
    if place == bytes.len() {
        return None;
    }
    if !is_continuation(bytes[place]) {
        return None;
    }
    for start in place.saturating_sub(3)..place {
        let end = end_of_code(bytes, start);
        if place < end {
            return Some((start, end));
        }
    }
    None
}

// The end of the character that begins at an offset, or that offset if none does.
fn end_of_code(bytes: &[u8], start: usize) -> usize
    requires { start ≤ length bytes.now }
    ensures { IsEndFrom bytes.now start result }
{
    match Utf8Char::from_slice_start(&bytes[start..]) {
        Ok((_, len)) => start + len,
        Err(_) => start,
    }
}
