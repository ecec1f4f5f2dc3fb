//! Runs over bytes in any encoding: the length of the well-formed front, the number of pieces, and pieces by their
//! numbers.
ghost use Rattle.std.specs.Prelude.{◌≡◌, ◌≤◌, length, slice_get, option_map};
ghost use Rattle.encode_unicode.specs.Window.{Placed};
ghost use Rattle.recoding.specs.declared.faults.FaultKind.{FaultKind as AFaultKind};
ghost use Rattle.text_stream.specs.FormPieces.{form_pieces};
ghost use Rattle.text_runs.specs.Tables.{IsSplitAt};
ghost use Rattle.text_runs.specs.WellFormed.{IsFirstFaultIn};

use crate::runs::unit_bytes::{
    unit_bytes_char_count, unit_bytes_offset_of, unit_bytes_valid_up_to,
};
use recoding::boundaries::boundary_after;
use recoding::form::Form;
use text_runs::runs::{counts, numbers, well_formed};
use utf_lanes::byte_order::{BigEndian, LittleEndian};

/// The offset of the first invalid byte, or the length if all bytes are valid in this encoding. In UTF-16 it is the
/// offset of a lone surrogate, or of a single byte at the end.
///
/// Cost: O(n).
pub fn valid_up_to(form: Form, bytes: &[u8]) -> usize
    ensures first { IsFirstFaultIn form bytes.now result }
    ensures within { result ≤ length bytes.now }
{
    match form {
        Form::Utf8 => well_formed::valid_up_to(bytes),
        Form::Utf16Le => unit_bytes_valid_up_to::<LittleEndian>(bytes),
        Form::Utf16Be => unit_bytes_valid_up_to::<BigEndian>(bytes),
    }
}

/// The number of pieces in the bytes in this encoding: a character is one, and so is each invalid byte. In UTF-16
/// each lone surrogate is one, and so is a single byte at the end. A `Decoder` gives these pieces.
///
/// Cost: O(n).
pub fn char_count(form: Form, bytes: &[u8]) -> usize
    ensures { result ≡ length (form_pieces form bytes.now) }
{
    match form {
        Form::Utf8 => counts::char_count(bytes),
        Form::Utf16Le => unit_bytes_char_count::<LittleEndian>(bytes),
        Form::Utf16Be => unit_bytes_char_count::<BigEndian>(bytes),
    }
}

/// The offset in bytes of the piece with this number, counted from 0. `None` if the bytes have no more pieces.
///
/// Cost: O(n) in the offset, or in the length if the result is `None` or the last byte.
pub fn offset_of(form: Form, bytes: &[u8], number: usize) -> Option<usize>
    ensures { result ≡ option_map (λ (x : Placed AFaultKind). x.0) (slice_get (form_pieces form bytes.now) number) }
{
    match form {
        Form::Utf8 => numbers::offset_of(bytes, number),
        Form::Utf16Le => unit_bytes_offset_of::<LittleEndian>(bytes, number),
        Form::Utf16Be => unit_bytes_offset_of::<BigEndian>(bytes, number),
    }
}

/// The number of pieces that begin before this offset in bytes, or of all if it is the length or more. If a piece
/// begins at the offset, this is its number, counted from 0.
///
/// Cost: O(n) in the offset.
pub fn number_of(form: Form, bytes: &[u8], offset: usize) -> usize
    ensures { IsSplitAt (form_pieces form bytes.now) offset result }
{
    let end = boundary_after(form, bytes, offset);
    char_count(form, &bytes[..end])
}
