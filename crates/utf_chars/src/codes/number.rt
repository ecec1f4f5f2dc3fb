//! The code point of a scalar.
ghost use Rattle.std.specs.Prelude.{◌↔◌, IsTrue};
ghost use Rattle.utf_base.specs.Front.{as_scalar, DecodesNumber};
ghost use Rattle.utf_base.specs.Scalar.{IsScalar};

use utf_base::errors::CodepointError;

/// The character of that number.
///
/// Above 0x10ffff it is `TooHigh`, and from 0xd800 to 0xdfff `Utf16Reserved`.
#[inline(always)]
pub(crate) fn decode(c: u32) -> Result<char, CodepointError>
    ensures { DecodesNumber as_scalar c result }
{
    if is_scalar(c) {
        Ok(unsafe { char::from_u32_unchecked(c) })
    } else if c > 0x10_ffff {
        Err(CodepointError::TooHigh)
    } else {
        Err(CodepointError::Utf16Reserved)
    }
}

// Returns true if the number is a scalar. The exclusive or maps the surrogates below all other scalars, so
// that one comparison is enough.
#[inline(always)]
#[tactic(auto, using(crate::proofs::ScalarTest::scalar_test))]
fn is_scalar(c: u32) -> bool
    ensures { IsTrue result ↔ IsScalar c }
{
    (c ^ 0xd800).wrapping_sub(0x800) < 0x10_f800
}
