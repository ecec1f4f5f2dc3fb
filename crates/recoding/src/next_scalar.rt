//! The scalar at the front of some bytes.
ghost use Rattle.std.specs.Prelude.{◌≡◌, ◌+◌, ◌<◌, ◌≤◌, ◌++◌, length, min, take, IfSome, IfNone, IsTrue, IsFalse, Some, ◌%◌};
ghost use Rattle.utf_base.specs.Code.{utf8};
ghost use Rattle.utf_base.specs.Kinds.{fault_kind};
ghost use Rattle.utf_base.specs.Shown.{IsDecided};
ghost use Rattle.utf_base.specs.declared.errors.Utf8ErrorKind.TheVariants.{TooFewBytes};
ghost use Rattle.utf_lanes.specs.AsciiTexts.{AreAscii};
ghost use Rattle.recoding.specs.Recoded.{Lacks, IsProperFront, most_held};
ghost use Rattle.utf_lanes.specs.BytePairs.{units_of};
ghost use Rattle.recoding.specs.Lossy.{BeginsNoCode};
ghost use Rattle.recoding.specs.NextScalars.{utf16_form};
ghost use Rattle.recoding.specs.Replacing.{IsNext};
ghost use Rattle.recoding.specs.Strict.{AwaitsKind, BeginsChar, Transcodes};

use crate::first_pieces::{FirstPiece, first_of_utf8, first_of_utf16};
use crate::form::Form;
use crate::subparts::{may_be_second, subpart_len};
use crate::way::Way;
use encode_unicode::{CharExt, U16UtfExt};
use utf_base::elements::is_continuation;
use utf_lanes::byte_order::ByteOrder;
use utf_lanes::byte_pairs::unit;
use utf_lanes::text_front::front_of_text;

// The piece that begins some bytes.
#[derive(Clone, Copy, Drop)]
pub(crate) enum ShownPiece {
    // A character, and its length in bytes.
    Char(char, usize),
    // A fault, or several that are replaced together, and their length in bytes.
    Fault(usize),
}

// What some bytes begin with: the character to be written, if there is one, the number of bytes that become it, and the
// number of faults that they are.
#[derive(Clone, Copy, Drop)]
pub(crate) struct NextScalar {
    pub(crate) c: Option<char>,
    pub(crate) len: usize,
    pub(crate) faults: usize,
}

// The piece that begins bytes of UTF-8; `None` if more input is needed.
#[inline(always)]
pub(crate) fn next_of_utf8(way: Way<'_>, bytes: &[u8]) -> Option<ShownPiece>
    ensures some { IfSome result (λ x. IsNext way.entry Form.Utf8 bytes.now x) }
    ensures few { IfNone result (length bytes.now ≤ 3) }
    ensures lacks { IfNone result (Lacks Form.Utf8 bytes.now) }
{
    if 4 <= bytes.len() {
        return match front_of_text(bytes) {
            Some((c, len)) => Some(ShownPiece::Char(c, len)),
            None => Some(fault_of_utf8(way, bytes)),
        };
    }
    match first_of_utf8(bytes) {
        FirstPiece::Char(c, len) => Some(ShownPiece::Char(c, len)),
        FirstPiece::Fault(_, _) => Some(fault_of_utf8(way, bytes)),
        FirstPiece::Undecided => {
            if is_front_of_code(bytes) {
                return None;
            }
            Some(fault_of_utf8(way, bytes))
        }
    }
}

// The fault that begins bytes, if no code does whatever follows them: one byte, or a maximal subpart.
#[inline(always)]
fn fault_of_utf8(way: Way<'_>, bytes: &[u8]) -> ShownPiece
    requires { BeginsNoCode bytes.now }
    ensures { IsNext way.entry Form.Utf8 bytes.now result }
{
    match way {
        Way::Faults => ShownPiece::Fault(1),
        Way::Table(_) => ShownPiece::Fault(1),
        Way::Subparts => ShownPiece::Fault(subpart_len(bytes)),
    }
}

// Returns true if too few bytes are the front of a code. Otherwise the first is a fault, whatever follows.
#[cold]
#[inline(never)]
pub(crate) fn is_front_of_code(bytes: &[u8]) -> bool
    requires { fault_kind bytes.now ≡ Some TooFewBytes }
    ensures yes { IsTrue result → IsProperFront utf8 bytes.now }
    ensures no { IsFalse result → IsDecided utf8 bytes.now }
{
    if bytes.len() < 2 {
        return true;
    }
    may_be_second(bytes[0], bytes[1]) && (bytes.len() < 3 || is_continuation(bytes[2]))
}

// The piece that begins bytes of UTF-16, whose faults are units in each way of replacing; `None` if more input is
// needed.
#[inline(always)]
pub(crate) fn next_of_utf16<E: ByteOrder>(bytes: &[u8]) -> Option<ShownPiece>
    ensures some { (way : Way) → IfSome result (λ x. IsNext way (utf16_form E.HIGH_FIRST) bytes.now x) }
    ensures few { IfNone result (length bytes.now ≤ 3) }
    ensures lacks { IfNone result (Lacks (utf16_form E.HIGH_FIRST) bytes.now) }
{
    match first_of_utf16::<E>(bytes) {
        FirstPiece::Char(c, len) => Some(ShownPiece::Char(c, len)),
        FirstPiece::Fault(_, len) => Some(ShownPiece::Fault(len)),
        FirstPiece::Undecided => None,
    }
}

// The character that begins the bytes, and its length; `None` at a fault, and near the end.
#[inline(always)]
pub(crate) fn next_valid_of_utf16<E: ByteOrder>(bytes: &[u8]) -> Option<(char, usize)>
    ensures { IfSome result (λ x. BeginsChar (utf16_form E.HIGH_FIRST) bytes.now x.0 x.1) }
{
    if bytes.len() < 2 {
        return None;
    }
    let first = unit::<E>(bytes[0], bytes[1]);
    if !first.is_utf16_leading_surrogate() {
        return match char::from_utf16_tuple((first, None)) {
            Ok(c) => Some((c, 2)),
            Err(_) => None,
        };
    }
    if bytes.len() < 4 {
        return None;
    }
    let second = unit::<E>(bytes[2], bytes[3]);
    match char::from_utf16_tuple((first, Some(second))) {
        Ok(c) => Some((c, 4)),
        Err(_) => None,
    }
}

// The eight ASCII characters of sixteen bytes of UTF-16. `None` if a unit is not ASCII.
#[inline(always)]
pub(crate) fn ascii_of_units<E: ByteOrder>(bytes: &[u8]) -> Option<[u8; 8]>
    requires { length bytes.now ≡ 16 }
    ensures { IfSome result (λ ascii. Transcodes (utf16_form E.HIGH_FIRST) Form.Utf8 bytes.now ascii) }
{
    let units = eight_units::<E>(bytes);
    if eight_are_ascii(units) {
        Some(eight_bytes(units))
    } else {
        None
    }
}

#[inline(always)]
#[tactic(auto, using(crate::proofs::Blocks::eight_units))]
fn eight_units<E: ByteOrder>(bytes: &[u8]) -> [u16; 8]
    requires { length bytes.now ≡ 16 }
    ensures { result ≡ units_of E.HIGH_FIRST bytes.now }
{
    [
        unit::<E>(bytes[0], bytes[1]),
        unit::<E>(bytes[2], bytes[3]),
        unit::<E>(bytes[4], bytes[5]),
        unit::<E>(bytes[6], bytes[7]),
        unit::<E>(bytes[8], bytes[9]),
        unit::<E>(bytes[10], bytes[11]),
        unit::<E>(bytes[12], bytes[13]),
        unit::<E>(bytes[14], bytes[15]),
    ]
}

#[inline(always)]
#[tactic(auto, using(crate::proofs::Blocks::all_eight))]
fn eight_are_ascii(units: [u16; 8]) -> bool
    ensures { IsTrue result → AreAscii units 0 8 }
{
    units[0] < 0x80
        && units[1] < 0x80
        && units[2] < 0x80
        && units[3] < 0x80
        && units[4] < 0x80
        && units[5] < 0x80
        && units[6] < 0x80
        && units[7] < 0x80
}

// Narrows eight units of ASCII to bytes.
#[inline(always)]
#[tactic(auto, using(crate::proofs::Blocks::eight_bytes))]
fn eight_bytes(units: [u16; 8]) -> [u8; 8]
    requires { AreAscii units 0 8 }
    ensures { result ≡ units }
{
    let [a, b, c, d, e, f, g, h] = units;
    [
        low(a),
        low(b),
        low(c),
        low(d),
        low(e),
        low(f),
        low(g),
        low(h),
    ]
}

#[inline(always)]
fn low(unit: u16) -> u8
    ensures { result ≡ unit % 256 }
{
    (unit % 256) as u8
}

// The first four bytes, or all if they are fewer.
#[inline(always)]
pub(crate) fn first_four(bytes: &[u8]) -> &[u8]
    ensures { result.now ≡ take 4 bytes.now }
{
    &bytes[..bytes.len().min(4)]
}
