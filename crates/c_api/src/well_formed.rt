//! The length of the well-formed front of bytes and units.
ghost use Rattle.std.specs.Prelude.{◌≡◌, ◌-◌, ◌<◌, ◌^◌};
ghost use Rattle.utf_base.specs.Code.{utf8, utf16};
ghost use Rattle.cuts.specs.WellFormed.{IsFirstFault, IsFirstFaultIn};
ghost use Rattle.c_api.specs.Api.{IfForm, IsForm};

use crate::recodings::form_of;

/// The offset of the first invalid byte, or the length if none is invalid.
#[unsafe(no_mangle)]
pub extern "C" fn nody_utf8_valid_up_to(bytes: &[u8]) -> usize
    ensures { IsFirstFault utf8 bytes.now result }
{
    cuts::valid_up_to(bytes)
}

/// The offset of the first lone surrogate in the units, or the length if there is none.
#[unsafe(no_mangle)]
pub extern "C" fn nody_utf16_valid_up_to(units: &[u16]) -> usize
    ensures { IsFirstFault utf16 units.now result }
{
    cuts::units_valid_up_to(units)
}

/// The offset of the first invalid byte in the bytes of an encoding, or the length if all are valid; `SIZE_MAX` if
/// `form` is not valid.
#[unsafe(no_mangle)]
pub extern "C" fn nody_utf16_bytes_valid_up_to(form: u8, bytes: &[u8]) -> usize
    ensures first { IfForm form (λ f. IsFirstFaultIn f bytes.now result) }
    ensures none { ¬ IsForm form → result ≡ 2 ^ 64 - 1 }
{
    if 3 <= form {
        return usize::MAX;
    }
    cuts::forms::valid_up_to(form_of(form), bytes)
}
