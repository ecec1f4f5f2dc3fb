//! The length of the well-formed front of bytes and units.
ghost use Rattle.std.specs.Prelude.{◌≡◌, ◌≤◌, length, take};
ghost use Rattle.std.specs.Str.{IsUtf8};
ghost use Rattle.utf_base.specs.Code.{utf8, utf16};
ghost use Rattle.encode_unicode.specs.Pieces.{pieces, unit_pieces};
ghost use Rattle.text_runs.specs.WellFormed.{IsFirstFault, valid_len};

use encode_unicode::CharExt;
use utf_lanes::paired_units::paired_len;
use utf_lanes::text_blocks::text_len;

/// The offset of the first invalid byte, or the length if all bytes are valid UTF-8.
///
/// Cost: O(n).
pub fn valid_up_to(bytes: &[u8]) -> usize
    ensures first { IsFirstFault utf8 bytes.now result }
    ensures within { result ≤ length bytes.now }
    ensures value { result ≡ valid_len (pieces bytes.now) }
    ensures text { IsUtf8 (take result bytes.now) }
    ensures whole { IsUtf8 bytes.now → result ≡ length bytes.now }
{
    let mut place = text_len(bytes);
    while place < bytes.len() {
        match char::from_utf8_slice_start(&bytes[place..]) {
            Ok((_, len)) => place += len,
            Err(_) => return place,
        }
    }
    place
}

/// The offset of the first lone surrogate, or the length if all units are valid UTF-16.
///
/// Cost: O(n).
pub fn units_valid_up_to(units: &[u16]) -> usize
    ensures first { IsFirstFault utf16 units.now result }
    ensures within { result ≤ length units.now }
    ensures value { result ≡ valid_len (unit_pieces units.now) }
{
    let mut place = paired_len(units);
    while place < units.len() {
        match char::from_utf16_slice_start(&units[place..]) {
            Ok((_, len)) => place += len,
            Err(_) => return place,
        }
    }
    place
}
