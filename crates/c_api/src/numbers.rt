//! Pieces by their numbers.
ghost use Rattle.std.specs.Prelude.{◌≡◌, ◌-◌, ◌<◌, ◌≤◌, ◌^◌, length, slice_get, option_map};
ghost use Rattle.encode_unicode.specs.Pieces.{pieces, unit_pieces};
ghost use Rattle.cuts.specs.FormPieces.{form_pieces};
ghost use Rattle.cuts.specs.Tables.{IsSplitAt};
ghost use Rattle.c_api.specs.Api.{IfForm, IsForm, IsOffsetOf};

use crate::recodings::form_of;

/// The offset of the piece of the bytes with this number, counted from 0, or the length if there are no more
/// pieces.
#[unsafe(no_mangle)]
pub extern "C" fn nody_utf8_offset_of(bytes: &[u8], number: usize) -> usize
    ensures { IsOffsetOf (pieces bytes.now) (length bytes.now) number result }
{
    cuts::offset_of(bytes, number).unwrap_or(bytes.len())
}

/// The offset in units of the piece of the units with this number, counted from 0, or the length if there are
/// no more pieces.
#[unsafe(no_mangle)]
pub extern "C" fn nody_utf16_offset_of(units: &[u16], number: usize) -> usize
    ensures { IsOffsetOf (unit_pieces units.now) (length units.now) number result }
{
    cuts::unit_offset_of(units, number).unwrap_or(units.len())
}

/// The number of pieces of the bytes that begin before this offset.
#[unsafe(no_mangle)]
pub extern "C" fn nody_utf8_number_of(bytes: &[u8], offset: usize) -> usize
    ensures { IsSplitAt (pieces bytes.now) offset result }
{
    cuts::number_of(bytes, offset)
}

/// The number of pieces of the units that begin before this offset in units.
#[unsafe(no_mangle)]
pub extern "C" fn nody_utf16_number_of(units: &[u16], offset: usize) -> usize
    ensures { IsSplitAt (unit_pieces units.now) offset result }
{
    cuts::unit_number_of(units, offset)
}

/// The offset of the piece with this number in the bytes of an encoding, or the length if there are no more pieces;
/// `SIZE_MAX` if `form` is not valid.
#[unsafe(no_mangle)]
pub extern "C" fn nody_offset_of(form: u8, bytes: &[u8], number: usize) -> usize
    ensures offset { IfForm form (λ f. IsOffsetOf (form_pieces f bytes.now) (length bytes.now) number result) }
    ensures none { ¬ IsForm form → result ≡ 2 ^ 64 - 1 }
{
    if 3 <= form {
        return usize::MAX;
    }
    cuts::forms::offset_of(form_of(form), bytes, number).unwrap_or(bytes.len())
}

/// The number of pieces that begin before this offset in the bytes of an encoding; `SIZE_MAX` if `form` is
/// not valid.
#[unsafe(no_mangle)]
pub extern "C" fn nody_number_of(form: u8, bytes: &[u8], offset: usize) -> usize
    ensures number { IfForm form (λ f. IsSplitAt (form_pieces f bytes.now) offset result) }
    ensures none { ¬ IsForm form → result ≡ 2 ^ 64 - 1 }
{
    if 3 <= form {
        return usize::MAX;
    }
    cuts::forms::number_of(form_of(form), bytes, offset)
}
