//! Methods of `char`.
ghost use Rattle.std.specs.Prelude.{◌≡◌, ℕ, true, false, length, take, slice_index, unwrap_or, IfNone, IfOk, IfErr, Some, ◌≤◌};
ghost use Rattle.utf_base.specs.Code.{utf8, utf16};
ghost use Rattle.utf_base.specs.Decoded.{decoded, decoded_bytes, decoded_units, decoded_two, decoded_tuple};
ghost use Rattle.utf_base.specs.Decoded.{decoded_number, GivesChar, GivesFirst, DecodesWhole};
ghost use Rattle.utf_base.specs.Front.{as_scalar, DecodesFront, DecodesBytes, DecodesNumber, IsFrontLen};
ghost use Rattle.utf_base.specs.Front.{DecodesUnits, DecodesTwoUnits, DecodesTuple};
ghost use Rattle.utf_base.specs.Kinds.{value, fault_kind};
ghost use Rattle.utf_chars.specs.Chars.{array_value};
ghost use Rattle.utf_base.specs.Units.{is_padded_units, is_surrogate, tuple_value, units_of_pair};
ghost use Rattle.utf_chars.specs.Padded.{padded, IsPadded};

use crate::codes::{number, utf8, utf16};
use crate::utf8_char::Utf8Char;
use crate::utf8_iterators::Utf8Iterator;
use crate::utf16_char::Utf16Char;
use crate::utf16_iterators::Utf16Iterator;
use utf_base::errors::{
    CodepointError, Utf8Error, Utf16ArrayError, Utf16SliceError, Utf16TupleError,
};

/// Methods of `char`: to UTF-8 and UTF-16, and back, with the reason if bytes or units are invalid.
///
/// A call whose name ends in `_unchecked` makes no check. If it has a condition, its caller must
/// meet it.
pub trait CharExt: Sized {
    // The scalar of the character.
    ghost scalar: { Self → ℕ };

    /// Converts the character to a `Utf8Char`.
    fn to_utf8(self) -> Utf8Char
        ensures { result ≡ scalar self };

    /// Converts the character to a `Utf16Char`.
    fn to_utf16(self) -> Utf16Char
        ensures { result ≡ scalar self };

    /// The bytes of the character in UTF-8, one after another.
    fn iter_utf8_bytes(self) -> Utf8Iterator
        ensures code { result ≡ utf8 (scalar self) }
        ensures few { length result ≤ 4 };

    /// The units of the character in UTF-16, one after another.
    fn iter_utf16_units(self) -> Utf16Iterator
        ensures code { result ≡ utf16 (scalar self) }
        ensures few { length result ≤ 2 };

    /// The UTF-8 of the character: (bytes, then zeros; length), the length 1 to 4 (RFC 3629, section 3).
    fn to_utf8_array(self) -> ([u8; 4], usize)
        ensures code { result.0 ≡ padded 4 (utf8 (scalar self)) }
        ensures len { result.1 ≡ length (utf8 (scalar self)) }
        ensures front { take result.1 result.0 ≡ utf8 (scalar self) }
        ensures bounds { IsFrontLen 4 result.0 result.1 }
        ensures own { IsPadded utf8 4 value result.0 }
        ensures decodes { decoded result.0 ≡ Ok (scalar self, result.1) }
        ensures decodes_bytes { decoded_bytes result.0 ≡ Ok (scalar self) }
        ensures decodes_front { decoded (take result.1 result.0) ≡ Ok (scalar self, result.1) };

    /// The UTF-16 of the character: one unit and 0, or a surrogate pair (RFC 2781, section 2.1).
    fn to_utf16_array(self) -> [u16; 2]
        ensures code { result ≡ padded 2 (utf16 (scalar self)) }
        ensures own { is_padded_units (slice_index result 0) (slice_index result 1) ≡ true }
        ensures decodes { decoded_two result ≡ Ok (scalar self) }
        ensures decodes_units { decoded_units result ≡ Ok (scalar self, length (utf16 (scalar self))) };

    /// The UTF-16 of the character: (first unit, second unit if there is one).
    fn to_utf16_tuple(self) -> (u16, Option<u16>)
        ensures code { units_of_pair result.0 result.1 ≡ utf16 (scalar self) }
        ensures own { is_padded_units result.0 (unwrap_or result.1 0) ≡ true }
        ensures decodes { decoded_tuple result.0 result.1 ≡ Ok (scalar self) };

    /// The character that begins the bytes: (character, length in bytes), the length 1 to 4. What
    /// follows it does not matter.
    ///
    /// If no character begins the bytes, the error is the first of these that applies: (1)
    /// `UnexpectedContinuationByte` or `NonUtf8Byte`: no character begins with the first byte; (2)
    /// `TooFewBytes`: there are fewer bytes than the first one needs, or none; (3)
    /// `InterruptedSequence`: one of the bytes that the first one needs is not a continuation byte;
    /// (4) `OverlongEncoding`, `Utf16ReservedCodepoint` or `TooHighCodepoint`, by the number that
    /// the bytes encode (RFC 3629, sections 3 and 4).
    fn from_utf8_slice_start(src: &[u8]) -> Result<(Self, usize), Utf8Error>
        ensures decodes { DecodesFront scalar src.now result }
        ensures known { GivesFirst scalar (decoded src.now) result }
        ensures kind { IfErr result (λ k. fault_kind src.now ≡ Some k) }
        ensures len { IfOk result (λ x. IsFrontLen 4 src.now x.1) }
        ensures exact { IfOk result (λ x. decoded (take x.1 src.now) ≡ Ok (scalar x.0, x.1)) };

    /// The character that begins the four bytes. The bytes after it are ignored.
    ///
    /// The error is that of `from_utf8_slice_start`, and never `TooFewBytes`.
    fn from_utf8_array(utf8: [u8; 4]) -> Result<Self, Utf8Error>
        ensures decodes { DecodesBytes scalar utf8 result }
        ensures known { GivesChar scalar (decoded_bytes utf8) result };

    /// The character that the bytes are, without a check.
    ///
    /// Condition: the bytes are the UTF-8 of one character.
    fn from_utf8_exact_slice_unchecked(src: &[u8]) -> Self
        requires { DecodesWhole src.now }
        ensures code { utf8 (scalar result) ≡ src.now }
        ensures known { decoded src.now ≡ Ok (scalar result, length src.now) };

    /// The character that begins the units: (character, length in units), the length 1 or 2.
    ///
    /// If no character begins the units, the error is the first of these that applies:
    /// `EmptySlice`, `FirstIsTrailingSurrogate`, `MissingSecond`, `SecondIsNotTrailingSurrogate`
    /// (RFC 2781, section 2.2).
    fn from_utf16_slice_start(src: &[u16]) -> Result<(Self, usize), Utf16SliceError>
        ensures decodes { DecodesUnits scalar src.now result }
        ensures known { GivesFirst scalar (decoded_units src.now) result }
        ensures len { IfOk result (λ x. IsFrontLen 2 src.now x.1) }
        ensures exact { IfOk result (λ x. decoded_units (take x.1 src.now) ≡ Ok (scalar x.0, x.1)) };

    /// The character that begins the two units. A second unit that the first does not need is
    /// ignored.
    fn from_utf16_array(utf16: [u16; 2]) -> Result<Self, Utf16ArrayError>
        ensures decodes { DecodesTwoUnits scalar utf16 result }
        ensures known { GivesChar scalar (decoded_two utf16) result };

    /// The character that the one or two units are. A second unit that the first does not need is
    /// an error.
    fn from_utf16_tuple(utf16: (u16, Option<u16>)) -> Result<Self, Utf16TupleError>
        ensures decodes { DecodesTuple scalar utf16 result }
        ensures known { GivesChar scalar (decoded_tuple utf16.0 utf16.1) result }
        ensures units { IfOk result (λ _. is_padded_units utf16.0 (unwrap_or utf16.1 0) ≡ true) };

    /// The character of two units, without a check.
    ///
    /// If the first unit is no surrogate, it is the character, and the second is ignored. Otherwise the two
    /// are taken for a surrogate pair, whatever they are. The character is then 0x10000 plus a number of
    /// twenty bits: the lower ten of the first unit, followed by the lower ten of the second.
    fn from_utf16_array_unchecked(utf16: [u16; 2]) -> Self
        ensures value { scalar result ≡ array_value utf16 }
        ensures known { IfOk (decoded_two utf16) (λ s. scalar result ≡ s) };

    /// The character of one unit, or of two, without a check. Two units are taken for a surrogate
    /// pair whatever they are.
    ///
    /// Condition: a single unit is no surrogate.
    fn from_utf16_tuple_unchecked(utf16: (u16, Option<u16>)) -> Self
        requires { IfNone utf16.1 (is_surrogate utf16.0 ≡ false) }
        ensures value { scalar result ≡ tuple_value utf16.0 utf16.1 }
        ensures known { IfOk (decoded_tuple utf16.0 utf16.1) (λ s. scalar result ≡ s) };

    /// The character with that code point.
    ///
    /// Above 0x10ffff the error is `TooHigh`, and from 0xd800 to 0xdfff `Utf16Reserved`.
    fn from_u32_detailed(c: u32) -> Result<Self, CodepointError>
        ensures decodes { DecodesNumber scalar c result }
        ensures known { GivesChar scalar (decoded_number c) result };
}

impl CharExt for char {
    ghost scalar = { as_scalar };

    #[inline(always)]
    fn to_utf8(self) -> Utf8Char {
        Utf8Char::new(self)
    }

    #[inline(always)]
    fn to_utf16(self) -> Utf16Char {
        Utf16Char::new(self)
    }

    #[inline(always)]
    #[tactic(auto, using(utf_base::proofs::Utf8Code::length_utf8))]
    fn iter_utf8_bytes(self) -> Utf8Iterator {
        Utf8Iterator::from(self)
    }

    #[inline(always)]
    #[tactic(auto, using(utf_base::proofs::Utf16Code::length_utf16))]
    fn iter_utf16_units(self) -> Utf16Iterator {
        Utf16Iterator::from(self)
    }

    #[inline(always)]
    #[tactic(auto, using(utf_base::proofs::StdText::scalar_from_std, crate::proofs::OwnCodes::own_array))]
    fn to_utf8_array(self) -> ([u8; 4], usize) {
        utf8::encode(self)
    }

    #[inline(always)]
    fn to_utf16_array(self) -> [u16; 2] {
        utf16::encode(self)
    }

    #[inline(always)]
    #[tactic(auto, using(utf_base::proofs::DecodedLemmas::padded_tuple, utf_base::proofs::DecodedLemmas::decoded_tuple_code, utf_base::proofs::StdText::scalar_from_std))]
    fn to_utf16_tuple(self) -> (u16, Option<u16>) {
        utf16::encode_tuple(self)
    }

    #[inline(always)]
    #[tactic(auto, using(utf_base::proofs::DecodedLemmas::answer_of_bytes, utf_base::proofs::DecodedLemmas::gives_first, utf_base::proofs::DecodedLemmas::len_of_bytes, crate::proofs::OwnCodes::front_alone_of))]
    fn from_utf8_slice_start(src: &[u8]) -> Result<(char, usize), Utf8Error> {
        utf8::decode_start(src)
    }

    #[inline(always)]
    #[tactic(auto, using(utf_base::proofs::DecodedLemmas::answer_of_array, utf_base::proofs::DecodedLemmas::gives_char))]
    fn from_utf8_array(utf8: [u8; 4]) -> Result<char, Utf8Error> {
        utf8::decode_array(utf8)
    }

    #[inline(always)]
    #[tactic(auto, using(utf_base::proofs::DecodedLemmas::one_code_of_whole, utf_base::proofs::DecodedLemmas::decoded_one_code, utf_base::proofs::StdText::scalar_from_std))]
    fn from_utf8_exact_slice_unchecked(src: &[u8]) -> char {
        utf8::decode_exact_unchecked(src)
    }

    #[inline(always)]
    #[tactic(auto, using(utf_base::proofs::DecodedLemmas::answer_of_units, utf_base::proofs::DecodedLemmas::gives_first, utf_base::proofs::DecodedLemmas::len_of_units, crate::proofs::OwnCodes::unit_front_alone_of))]
    fn from_utf16_slice_start(src: &[u16]) -> Result<(char, usize), Utf16SliceError> {
        utf16::decode_start(src)
    }

    #[inline(always)]
    #[tactic(auto, using(utf_base::proofs::DecodedLemmas::answer_of_two, utf_base::proofs::DecodedLemmas::gives_char))]
    fn from_utf16_array(utf16: [u16; 2]) -> Result<char, Utf16ArrayError> {
        utf16::decode_array(utf16)
    }

    #[inline(always)]
    #[tactic(auto, using(utf_base::proofs::DecodedLemmas::answer_of_tuple, utf_base::proofs::DecodedLemmas::gives_char, utf_base::proofs::DecodedLemmas::units_of_tuple))]
    fn from_utf16_tuple(utf16: (u16, Option<u16>)) -> Result<char, Utf16TupleError> {
        utf16::decode_tuple(utf16)
    }

    #[inline(always)]
    #[tactic(auto, using(utf_base::proofs::DecodedLemmas::unchecked_two))]
    fn from_utf16_array_unchecked(utf16: [u16; 2]) -> char {
        utf16::decode_array_unchecked(utf16)
    }

    #[inline(always)]
    #[tactic(auto, using(utf_base::proofs::DecodedLemmas::unchecked_tuple))]
    fn from_utf16_tuple_unchecked(utf16: (u16, Option<u16>)) -> char {
        utf16::decode_tuple_unchecked(utf16)
    }

    #[inline(always)]
    #[tactic(auto, using(utf_base::proofs::DecodedLemmas::answer_of_number, utf_base::proofs::DecodedLemmas::gives_char))]
    fn from_u32_detailed(c: u32) -> Result<char, CodepointError> {
        number::decode(c)
    }
}
