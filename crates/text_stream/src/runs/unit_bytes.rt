//! Bytes of UTF-16: the length of the well-formed front, the number of pieces, and the offset of one of them.
ghost use Rattle.std.specs.Prelude.{ℕ, ◌≡◌, ◌≤◌, IfSome, IfNone, length, option_map, slice_get};
ghost use Rattle.encode_unicode.specs.Window.{Placed};
ghost use Rattle.recoding.specs.NextScalars.{utf16_form};
ghost use Rattle.recoding.specs.declared.faults.FaultKind.{FaultKind as AFaultKind};
ghost use Rattle.text_stream.specs.FormPieces.{form_pieces};
ghost use Rattle.text_runs.specs.WellFormed.{IsFirstUnitFault, BeginsUnits, NoUnitsBegin};

use encode_unicode::CharExt;
use utf_lanes::byte_order::ByteOrder;
use utf_lanes::byte_pairs::unit;
use utf_lanes::unit_blocks::units_len;
use utf_lanes::unit_starts::{nth_unit_byte_start, unit_byte_starts_in};

/// The offset in bytes of the first lone surrogate in bytes of UTF-16, or the length if there is none. A
/// single byte at the end is invalid too. `E` is `LittleEndian` or `BigEndian`.
///
/// Cost: O(n).
pub fn unit_bytes_valid_up_to<E: ByteOrder>(bytes: &[u8]) -> usize
    ensures first { IsFirstUnitFault E.HIGH_FIRST bytes.now result }
    ensures within { result ≤ length bytes.now }
{
    let mut place = 2 * units_len::<E>(bytes);
    while let Some(len) = first_len::<E>(&bytes[place..]) {
        place += len;
    }
    place
}

// The length in bytes of the character that begins the bytes; `None` if none does.
#[inline(always)]
fn first_len<E: ByteOrder>(bytes: &[u8]) -> Option<usize>
    ensures some { IfSome result (λ n. BeginsUnits E.HIGH_FIRST bytes.now n) }
    ensures none { IfNone result (NoUnitsBegin E.HIGH_FIRST bytes.now) }
{
    if bytes.len() < 2 {
        return None;
    }
    let first = unit::<E>(bytes[0], bytes[1]);
    if bytes.len() < 4 {
        return match char::from_utf16_slice_start(&[first]) {
            Ok(_) => Some(2),
            Err(_) => None,
        };
    }
    let second = unit::<E>(bytes[2], bytes[3]);
    match char::from_utf16_slice_start(&[first, second]) {
        Ok((_, len)) => Some(2 * len),
        Err(_) => None,
    }
}

// The number of pieces in bytes of UTF-16: those of their units, and an odd last byte.
pub(crate) fn unit_bytes_char_count<E: ByteOrder>(bytes: &[u8]) -> usize
    ensures { result ≡ length (form_pieces (utf16_form E.HIGH_FIRST) bytes.now) }
{
    unit_byte_starts_in::<E>(bytes) + bytes.len() % 2
}

// The offset in bytes of the piece with this number. `None` if there are no more pieces.
pub(crate) fn unit_bytes_offset_of<E: ByteOrder>(bytes: &[u8], number: usize) -> Option<usize>
    ensures { result ≡ option_map (λ (x : Placed AFaultKind). x.0)
        (slice_get (form_pieces (utf16_form E.HIGH_FIRST) bytes.now) number) }
{
    if let Some(place) = nth_unit_byte_start::<E>(bytes, number) {
        return Some(2 * place);
    }
    if bytes.len() % 2 == 0 {
        return None;
    }
    if number == unit_byte_starts_in::<E>(bytes) {
        return Some(bytes.len() - 1);
    }
    None
}
