//! What a single byte or unit says of the code that it begins.
ghost use Rattle.std.specs.Prelude.{◌≡◌, ◌≤◌, ℕ, ◌-◌, IfOk};
ghost use Rattle.std.specs.Int.{w8, leading_ones};
ghost use Rattle.utf_base.specs.Front.{AsksForMore};
ghost use Rattle.utf_base.specs.Units.{is_leading_surrogate, NeedsExtraUnit};

use crate::errors::{Utf8Error, Utf8ErrorKind, Utf16FirstUnitError};
use crate::table::{State, class_of, step};

/// Methods of a byte that may begin a character in UTF-8.
pub trait U8UtfExt: Sized {
    // The byte as a number.
    ghost byte: { Self → ℕ };

    /// The number of bytes that follow this one in the character that it begins: 0 to 3.
    ///
    /// A continuation byte is an `UnexpectedContinuationByte`. A byte that never occurs in UTF-8,
    /// 0xc0, 0xc1 or 0xf5 to 0xff, is a `NonUtf8Byte` (RFC 3629, section 3).
    fn extra_utf8_bytes(self) -> Result<usize, Utf8Error>
        ensures asks { AsksForMore (byte self) result }
        ensures most { IfOk result (λ n. n ≤ 3) }
        ensures unchecked { IfOk result (λ n. n ≡ leading_ones w8 (byte self) - 1) };

    /// The number of bytes that follow this one, computed only from its highest bits, without a check.
    ///
    /// For a byte below 128 it is 0, otherwise the number of leading one bits less one. A byte that begins no
    /// character has a result too: 0 for a continuation byte, and up to 7 for others.
    fn extra_utf8_bytes_unchecked(self) -> usize
        ensures value { result ≡ leading_ones w8 (byte self) - 1 }
        ensures most { result ≤ 7 };
}

impl U8UtfExt for u8 {
    ghost byte = { λ b. b };

    #[inline(always)]
    #[tactic(auto, unfolding(crate::specs::Kinds::asked))]
    fn extra_utf8_bytes(self) -> Result<usize, Utf8Error> {
        match step(State::Start, class_of(self)) {
            State::Done => Ok(0),
            State::OneMore => Ok(1),
            State::TwoMore | State::AfterE0 | State::AfterEd => Ok(2),
            State::ThreeMore | State::AfterF0 | State::AfterF4 => Ok(3),
            State::Unexpected => Err(Utf8Error::new(Utf8ErrorKind::UnexpectedContinuationByte)),
            _ => Err(Utf8Error::new(Utf8ErrorKind::NonUtf8Byte)),
        }
    }

    #[inline(always)]
    fn extra_utf8_bytes_unchecked(self) -> usize {
        (self.leading_ones() as usize).saturating_sub(1)
    }
}

/// Methods of a unit that may begin a character in UTF-16 (RFC 2781, section 2).
pub trait U16UtfExt: Sized {
    // The unit as a number.
    ghost unit: { Self → ℕ };

    /// Returns true if the unit is the first of a pair, and so needs one more.
    ///
    /// A trailing surrogate, 0xdc00 to 0xdfff, begins nothing and is an error.
    fn utf16_needs_extra_unit(self) -> Result<bool, Utf16FirstUnitError>
        ensures { NeedsExtraUnit (unit self) result };

    /// Returns true if the unit is a leading surrogate, 0xd800 to 0xdbff, which begins a pair.
    fn is_utf16_leading_surrogate(self) -> bool
        ensures { result ≡ is_leading_surrogate (unit self) };
}

impl U16UtfExt for u16 {
    ghost unit = { λ u. u };

    #[inline(always)]
    fn utf16_needs_extra_unit(self) -> Result<bool, Utf16FirstUnitError> {
        match self {
            0xdc00..=0xdfff => Err(Utf16FirstUnitError),
            _ => Ok(self.is_utf16_leading_surrogate()),
        }
    }

    #[inline(always)]
    fn is_utf16_leading_surrogate(self) -> bool {
        self & 0xfc00 == 0xd800
    }
}
