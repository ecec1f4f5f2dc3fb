//! The number of pieces in bytes and units.
ghost use Rattle.std.specs.Prelude.{◌≡◌, ◌-◌, ◌<◌, ◌^◌, length};
ghost use Rattle.encode_unicode.specs.Pieces.{pieces, unit_pieces};
ghost use Rattle.cuts.specs.FormPieces.{form_pieces};
ghost use Rattle.c_api.specs.Api.{IfForm, IsForm};

use crate::recodings::form_of;

/// The number of pieces in the bytes: a character is one, and so is each invalid byte.
#[unsafe(no_mangle)]
pub extern "C" fn nody_utf8_char_count(bytes: &[u8]) -> usize
    ensures { result ≡ length (pieces bytes.now) }
{
    cuts::char_count(bytes)
}

/// The number of pieces in the units: a character is one, and so is each lone surrogate.
#[unsafe(no_mangle)]
pub extern "C" fn nody_utf16_char_count(units: &[u16]) -> usize
    ensures { result ≡ length (unit_pieces units.now) }
{
    cuts::unit_char_count(units)
}

/// The number of pieces in the bytes of an encoding, including an odd last byte of UTF-16; `SIZE_MAX` if
/// `form` is not valid.
#[unsafe(no_mangle)]
pub extern "C" fn nody_char_count(form: u8, bytes: &[u8]) -> usize
    ensures count { IfForm form (λ f. result ≡ length (form_pieces f bytes.now)) }
    ensures none { ¬ IsForm form → result ≡ 2 ^ 64 - 1 }
{
    if 3 <= form {
        return usize::MAX;
    }
    cuts::forms::char_count(form_of(form), bytes)
}
