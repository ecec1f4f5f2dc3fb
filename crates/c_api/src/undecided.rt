//! The bytes at the end of a block that later ones decide.
ghost use Rattle.std.specs.Prelude.{◌≡◌, ◌-◌, ◌^◌};
ghost use Rattle.cuts.specs.UndecidedEnds.{IsLenOfHeld, IsUndecidedEnd};
ghost use Rattle.c_api.specs.Api.{IfForm, IsForm};

use crate::recodings::form_of;

/// The number of undecided bytes at the end of these, 0 to 3, or `SIZE_MAX` if `form` is not valid.
#[unsafe(no_mangle)]
pub extern "C" fn nody_undecided_len(form: u8, bytes: &[u8]) -> usize
    ensures end { IfForm form (λ f. IsUndecidedEnd f bytes.now result) }
    ensures held { IfForm form (λ f. IsLenOfHeld f bytes.now result) }
    ensures none { ¬ IsForm form → result ≡ 2 ^ 64 - 1 }
{
    if 3 <= form {
        return usize::MAX;
    }
    cuts::undecided_len(form_of(form), bytes)
}
