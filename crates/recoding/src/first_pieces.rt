//! The piece that begins some bytes, with the kind of a fault.
ghost use Rattle.std.specs.Prelude.{◌≡◌, ◌<◌, length, min, MatchResult};
ghost use Rattle.recoding.specs.NextScalars.{fault_len, utf16_form};
ghost use Rattle.recoding.specs.Strict.{BeginsChar, EndsInFault, IsFirstPiece, lacking};

use crate::faults::FaultKind;
use crate::form::Form;
use encode_unicode::error::{Utf8ErrorKind, Utf16PairError};
use encode_unicode::{CharExt, U16UtfExt};
use utf_lanes::byte_order::ByteOrder;
use utf_lanes::byte_pairs::unit;

// The piece that begins some bytes.
#[derive(Clone, Copy, Drop)]
pub(crate) enum FirstPiece {
    // A character, and its length in bytes.
    Char(char, usize),
    // A fault, and its length in bytes.
    Fault(FaultKind, usize),
    // What follows the bytes decides, or there is none.
    Undecided,
}

// The piece that begins the bytes, whatever follows them.
#[inline(always)]
pub(crate) fn first_of_utf8(bytes: &[u8]) -> FirstPiece
    ensures { IsFirstPiece Form.Utf8 bytes.now result }
{
    match char::from_utf8_slice_start(bytes) {
        Ok((c, len)) => FirstPiece::Char(c, len),
        Err(error) => match error.kind() {
            Utf8ErrorKind::TooFewBytes => FirstPiece::Undecided,
            kind => FirstPiece::Fault(FaultKind::Utf8(kind), 1),
        },
    }
}

// The piece that begins bytes of UTF-16, whatever follows them.
#[inline(always)]
pub(crate) fn first_of_utf16<E: ByteOrder>(bytes: &[u8]) -> FirstPiece
    ensures { IsFirstPiece (utf16_form E.HIGH_FIRST) bytes.now result }
{
    if bytes.len() < 2 {
        return FirstPiece::Undecided;
    }
    let first = unit::<E>(bytes[0], bytes[1]);
    if !first.is_utf16_leading_surrogate() {
        return match char::from_utf16_tuple((first, None)) {
            Ok(c) => FirstPiece::Char(c, 2),
            Err(_) => unit_fault(Utf16PairError::UnexpectedTrailingSurrogate),
        };
    }
    if bytes.len() < 4 {
        return FirstPiece::Undecided;
    }
    let second = unit::<E>(bytes[2], bytes[3]);
    match char::from_utf16_tuple((first, Some(second))) {
        Ok(c) => FirstPiece::Char(c, 4),
        Err(_) => unit_fault(Utf16PairError::UnmatchedLeadingSurrogate),
    }
}

// A fault of one unit.
#[inline(always)]
fn unit_fault(kind: Utf16PairError) -> FirstPiece
    ensures { result ≡ FirstPiece.Fault (FaultKind.Utf16 kind) 2 }
{
    FirstPiece::Fault(FaultKind::Utf16(kind), 2)
}
