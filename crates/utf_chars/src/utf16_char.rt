//! A character kept as its code in UTF-16.
ghost use Rattle.std.specs.Prelude.{◌≡◌, ◌==◌, ◌<◌, ◌≤◌, ◌↔◌, ◌++◌, [], ◌∷◌, Some, IsTrue, IsOk, IfOk, Ok, nat_eq, nat_lt, length, take, drop, ◌-◌};
ghost use Rattle.std.specs.Prelude.{true, false, unwrap_or, slice_index};
ghost use Rattle.std.specs.Char.{encode_utf8};
ghost use Rattle.std.specs.Cmp.{partial_order_from_own_ties};
ghost use Rattle.std.specs.Cmp.Rules.{comparing, hashing};
ghost use Rattle.std.specs.Fmt.{debug_char};
ghost use Rattle.std.specs.Hash as fed;
ghost use Rattle.std.specs.Ordering.{nat_cmp, as_partial_cmp};
ghost use Rattle.std.specs.Result.{OkIff};
ghost use Rattle.std.specs.Str.{IsCharBoundary};
ghost use Rattle.std.proofs.Common.{rules};
ghost use Rattle.utf_base.specs.Scalar.{IsScalar};
ghost use Rattle.utf_base.specs.Code.{utf8, utf16};
ghost use Rattle.utf_base.specs.Back.{decoded_units_end, DecodesUnitsEnd};
ghost use Rattle.utf_base.specs.Decoded.{decoded_units, decoded_two, decoded_tuple};
ghost use Rattle.utf_base.specs.Front.{as_scalar, BeginsWith, DecodesUnits, DecodesTwoUnits, DecodesTuple, IsFrontLen};
ghost use Rattle.utf_base.specs.Units.{is_padded_units, is_surrogate, units_of_pair};
ghost use Rattle.utf_chars.specs.Chars.{ascii_lowercase, ascii_uppercase, BeginsText};
ghost use Rattle.utf_chars.specs.Chars.{first_of_text, Parses};
ghost use Rattle.utf_chars.specs.Padded.{padded, HasRoomForCode};

use crate::codes::utf16;
use crate::utf8_char::Utf8Char;
use std::cmp::Ordering;
use std::fmt;
use std::hash::{Hash, Hasher};
use std::marker::Model;
use std::str::FromStr;
use utf_base::errors::{
    EmptyStrError, FromStrError, NonBmpError, Utf16ArrayError, Utf16SliceError, Utf16TupleError,
};

/// A character, kept as its UTF-16. Contracts see it as its code point.
///
/// Characters are ordered, compared and hashed by the code point, as a `char` is: U+E000 comes
/// before U+10000, although its unit is greater.
#[derive(Clone, Copy, Drop)]
pub struct Utf16Char {
    units: [u16; 2],
}

impl Model for Utf16Char {
    ghost use Rattle.std.specs.Prelude.{ℕ};
    ghost use Rattle.std.proofs.Common.{sym};
    ghost use Rattle.utf_base.specs.Code.{utf16};
    ghost use Rattle.utf_base.specs.Units.{unit_value};
    ghost use Rattle.utf_chars.specs.Padded.{padded, IsPadded};

    ghost Value = { ℕ };

    ghost view = { λ c. unit_value c.units };

    ghost invariant = { λ c. IsPadded utf16 2 unit_value c.units };

    ghost inverse = { λ s. record { units = padded 2 (utf16 s) } };

    ghost inverse_ok = { λ c h i. record { units = sym h.equal i } };
}

/// Making a character.
impl Utf16Char {
    /// Converts a `char`.
    #[inline(always)]
    #[tactic(auto, using(utf_base::proofs::StdText::scalar_from_std, crate::proofs::PaddedUnits::unit_value_padded, crate::proofs::PaddedUnits::IsPadded_units))]
    pub fn new(c: char) -> Utf16Char
        ensures { result ≡ c }
    {
        let units = utf16::padded_code(c as u32);
        Utf16Char { units }
    }

    /// The first character of the text: (character, length in bytes of the text), the length 1 to
    /// 4.
    #[inline(always)]
    pub fn from_str_start(src: &str) -> Result<(Utf16Char, usize), EmptyStrError>
        ensures begins { BeginsText src.now result }
        ensures known { result ≡ first_of_text src.now }
        ensures len { IfOk result (λ x. IsFrontLen 4 src.now x.1) }
        ensures boundary { IfOk result (λ x. IsCharBoundary src.now x.1) }
    {
        let (first, len) = Utf8Char::from_str_start(src)?;
        Ok((Utf16Char::from(first), len))
    }

    /// The character that begins the units: (character, length in units), the length 1 or 2.
    ///
    /// The units after it do not matter. The error is that of `CharExt::from_utf16_slice_start`.
    #[inline(always)]
    #[tactic(auto, using(utf_base::proofs::DecodedLemmas::answer_of_units, utf_base::proofs::DecodedLemmas::front_len_utf16, crate::proofs::OwnCodes::unit_front_alone))]
    pub fn from_slice_start(src: &[u16]) -> Result<(Utf16Char, usize), Utf16SliceError>
        ensures decodes { DecodesUnits as_scalar src.now result }
        ensures known { result ≡ decoded_units src.now }
        ensures len { IfOk result (λ x. IsFrontLen 2 src.now x.1) }
        ensures exact { IfOk result (λ x. decoded_units (take x.1 src.now) ≡ Ok x) }
    {
        let (c, len) = utf16::decode_start(src)?;
        Ok((Utf16Char::new(c), len))
    }

    /// The character that begins the units, without a check: (character, length in units).
    ///
    /// Condition: a character begins the units.
    #[inline(always)]
    pub fn from_slice_start_unchecked(src: &[u16]) -> (Utf16Char, usize)
        requires { IsOk (decoded_units src.now) }
        ensures begins { BeginsWith utf16 src.now result.0 result.1 }
        ensures known { decoded_units src.now ≡ Ok result }
        ensures len { IsFrontLen 2 src.now result.1 }
    {
        Utf16Char::from_slice_start(src).unwrap()
    }

    /// The character that ends the units: (character, length in units), the length 1 or 2.
    ///
    /// If no character ends them, the error depends only on the last unit: a trailing surrogate is
    /// `FirstIsTrailingSurrogate`, and a leading one, which nothing follows, is `MissingSecond`. No unit at
    /// all is `EmptySlice`.
    ///
    /// Only the last two units matter.
    #[inline(always)]
    #[tactic(auto, using(utf_base::proofs::UnitEnds::answer_of_units_end, utf_base::proofs::UnitEnds::end_len_utf16, crate::proofs::OwnCodes::unit_end_alone))]
    pub fn from_slice_end(src: &[u16]) -> Result<(Utf16Char, usize), Utf16SliceError>
        ensures decodes { DecodesUnitsEnd as_scalar src.now result }
        ensures known { result ≡ decoded_units_end src.now }
        ensures len { IfOk result (λ x. IsFrontLen 2 src.now x.1) }
        ensures exact { IfOk result (λ x. decoded_units (drop (length src.now - x.1) src.now) ≡ Ok x) }
        ensures exact_end { IfOk result
            (λ x. decoded_units_end (drop (length src.now - x.1) src.now) ≡ Ok x) }
    {
        let (last, len) = utf16::decode_end(src)?;
        Ok((Utf16Char::new(last), len))
    }

    /// The character that begins the two units. A second unit that the first does not need is
    /// ignored.
    ///
    /// The error is that of `CharExt::from_utf16_array`.
    #[inline(always)]
    #[tactic(auto, using(utf_base::proofs::DecodedLemmas::answer_of_two))]
    pub fn from_array(utf16: [u16; 2]) -> Result<Utf16Char, Utf16ArrayError>
        ensures decodes { DecodesTwoUnits as_scalar utf16 result }
        ensures known { result ≡ decoded_two utf16 }
    {
        Ok(Utf16Char::new(utf16::decode_array(utf16)?))
    }

    /// The character that the two units are, without a check: the inverse of `to_array`.
    ///
    /// Condition: the units are the UTF-16 of one character, with a zero after a single unit.
    #[inline(always)]
    #[tactic(auto, using(crate::proofs::OwnCodes::own_units, crate::proofs::PaddedUnits::IsPadded_units_of, crate::proofs::PaddedUnits::two_elements))]
    pub fn from_array_unchecked(array: [u16; 2]) -> Utf16Char
        requires { is_padded_units (slice_index array 0) (slice_index array 1) ≡ true }
        ensures code { padded 2 (utf16 result) ≡ array }
        ensures known { decoded_two array ≡ Ok result }
    {
        let [first, second] = array;
        Utf16Char {
            units: [first, second],
        }
    }

    /// The character that the one or two units are. A second unit that the first does not need is
    /// an error.
    ///
    /// The error is that of `CharExt::from_utf16_tuple`.
    #[inline(always)]
    pub fn from_tuple(utf16: (u16, Option<u16>)) -> Result<Utf16Char, Utf16TupleError>
        ensures decodes { DecodesTuple as_scalar utf16 result }
        ensures known { result ≡ decoded_tuple utf16.0 utf16.1 }
        ensures units { IfOk result (λ _. is_padded_units utf16.0 (unwrap_or utf16.1 0) ≡ true) }
    {
        Ok(Utf16Char::new(utf16::decode_tuple(utf16)?))
    }

    /// The character that the one or two units are, without a check.
    ///
    /// Condition: they are one unit that is no surrogate, without a second or with a 0 after it, or a
    /// surrogate pair.
    #[inline(always)]
    #[tactic(auto, using(crate::proofs::PaddedUnits::unchecked_units))]
    pub fn from_tuple_unchecked(units: (u16, Option<u16>)) -> Utf16Char
        requires { is_padded_units units.0 (unwrap_or units.1 0) ≡ true }
        ensures code { padded 2 (utf16 result) ≡ units.0 ∷ unwrap_or units.1 0 ∷ [] }
        ensures known { IfOk (decoded_tuple units.0 units.1) (λ s. result ≡ s) }
    {
        let (first, second) = units;
        Utf16Char::from_array_unchecked([first, second.unwrap_or(0)])
    }

    /// The character that one unit is. A surrogate is an error.
    #[inline(always)]
    pub fn from_bmp(bmp: u16) -> Result<Utf16Char, NonBmpError>
        ensures { OkIff result (is_surrogate bmp ≡ false) bmp }
    {
        if bmp & 0xf800 == 0xd800 {
            Err(NonBmpError)
        } else {
            Ok(Utf16Char::from_bmp_unchecked(bmp))
        }
    }

    /// The character that one unit is, without a check.
    ///
    /// Condition: the unit is no surrogate.
    #[inline(always)]
    pub fn from_bmp_unchecked(bmp: u16) -> Utf16Char
        requires { is_surrogate bmp ≡ false }
        ensures { result ≡ bmp }
    {
        Utf16Char { units: [bmp, 0] }
    }
}

/// Properties of a character.
impl Utf16Char {
    /// Returns true if it has one unit in UTF-16: its code point is below 0x10000.
    #[inline(always)]
    #[tactic(auto, using(crate::proofs::PaddedUnits::second_is_zero, crate::proofs::PaddedUnits::of_one_unit))]
    pub fn is_bmp(self) -> bool
        ensures bmp { IsTrue result ↔ (self < 0x1_0000) }
        ensures value { result ≡ nat_lt self 0x1_0000 }
        ensures one_unit { IsTrue result → utf16 self ≡ self ∷ [] }
    {
        self.units[1] == 0
    }

    /// The length in UTF-16: 1 or 2 units.
    #[inline(always)]
    #[tactic(auto, using(crate::proofs::PaddedUnits::length_unit, crate::proofs::PaddedUnits::length_pair))]
    pub fn len(self) -> usize
        ensures len { result ≡ length (utf16 self) }
        ensures least { 1 ≤ result }
        ensures most { result ≤ 2 }
    {
        if self.is_bmp() { 1 } else { 2 }
    }

    /// Returns true if it is ASCII, below 128.
    #[inline(always)]
    #[tactic(auto, using(crate::proofs::PaddedUnits::first_is_ascii, crate::proofs::PaddedUnits::of_one_unit))]
    pub fn is_ascii(self) -> bool
        ensures ascii { IsTrue result ↔ (self < 128) }
        ensures value { result ≡ nat_lt self 128 }
        ensures one_unit { IsTrue result → utf16 self ≡ self ∷ [] }
    {
        self.units[0] < 128
    }

    // The scalar as a number, from the bits of the units.
    #[inline(always)]
    #[tactic(auto, using(crate::proofs::PaddedUnits::scalar_by_second))]
    pub(crate) fn scalar(self) -> u32
        ensures value { result ≡ self }
        ensures scalar { IsScalar result }
    {
        let [first, second] = self.units;
        if second == 0 {
            first as u32
        } else {
            utf16::value_of_pair(first, second)
        }
    }

    /// The character as a `char`.
    #[inline(always)]
    #[tactic(auto, using(utf_base::proofs::StdText::scalar_for_std, utf_base::proofs::StdText::utf8_is_std))]
    pub fn to_char(self) -> char
        ensures char { result ≡ self }
        ensures text { encode_utf8 result ≡ utf8 self }
    {
        let number = self.scalar();
        // The type keeps only scalars.
        unsafe { char::from_u32_unchecked(number) }
    }

    /// Writes its UTF-16 to the front of the slice, and returns the length. The rest of the slice is
    /// unchanged.
    ///
    /// Condition: the slice has at least `len()` elements; two are always enough.
    #[inline(always)]
    #[tactic(auto, using(crate::proofs::OwnCodes::own_unit_front))]
    pub fn to_slice(self, dst: &mut [u16]) -> usize
        requires { HasRoomForCode 2 (utf16 self) dst.old }
        ensures len { result ≡ length (utf16 self) }
        ensures bounds { IsFrontLen 2 dst.new result }
        ensures written { dst.new ≡ utf16 self ++ drop (length (utf16 self)) dst.old }
        ensures decodes { decoded_units dst.new ≡ Ok (self, result) }
    {
        // Names the field, which brings the type's invariant into scope of the proof.
        let _ = &self.units;
        let len = self.len();
        dst[..len].copy_from_slice(self.as_units());
        len
    }

    /// The UTF-16 of the character: both units, or one unit and 0.
    #[inline(always)]
    pub fn to_array(self) -> [u16; 2]
        ensures code { result ≡ padded 2 (utf16 self) }
        ensures own { is_padded_units (slice_index result 0) (slice_index result 1) ≡ true }
        ensures decodes { decoded_two result ≡ Ok self }
        ensures decodes_units { decoded_units result ≡ Ok (self, length (utf16 self)) }
    {
        let kept = self.units;
        kept
    }

    /// The UTF-16 of the character: (first unit, second unit if there is one).
    #[inline(always)]
    #[tactic(auto, using(utf_base::proofs::DecodedLemmas::padded_tuple, utf_base::proofs::DecodedLemmas::decoded_tuple_code, crate::proofs::PaddedUnits::code_by_second))]
    pub fn to_tuple(self) -> (u16, Option<u16>)
        ensures code { units_of_pair result.0 result.1 ≡ utf16 self }
        ensures own { is_padded_units result.0 (unwrap_or result.1 0) ≡ true }
        ensures decodes { decoded_tuple result.0 result.1 ≡ Ok self }
    {
        let [first, second] = self.units;
        if second == 0 {
            (first, None)
        } else {
            (first, Some(second))
        }
    }

    /// The UTF-16 of the character, borrowed from inside it.
    #[inline(always)]
    #[tactic(auto, using(crate::proofs::OwnCodes::own_unit_view, crate::proofs::PaddedUnits::take_units))]
    pub fn as_units(&self) -> &[u16]
        ensures code { result.now ≡ utf16 self.now }
        ensures bounds { IsFrontLen 2 result.now (length result.now) }
        ensures decodes { decoded_units result.now ≡ Ok (self.now, length result.now) }
    {
        &self.units[..self.len()]
    }
}

/// The cases of ASCII letters.
impl Utf16Char {
    /// The upper case of an ASCII letter, and every other character as it is.
    #[inline(always)]
    pub fn to_ascii_uppercase(self) -> Utf16Char
        ensures { result ≡ ascii_uppercase self }
    {
        Utf16Char::new(self.to_char().to_ascii_uppercase())
    }

    /// The lower case of an ASCII letter, and every other character as it is.
    #[inline(always)]
    pub fn to_ascii_lowercase(self) -> Utf16Char
        ensures { result ≡ ascii_lowercase self }
    {
        Utf16Char::new(self.to_char().to_ascii_lowercase())
    }

    /// Makes an ASCII letter upper case.
    #[inline(always)]
    pub fn make_ascii_uppercase(&mut self)
        ensures { self.new ≡ ascii_uppercase self.old }
    {
        *self = self.to_ascii_uppercase();
    }

    /// Makes an ASCII letter lower case.
    #[inline(always)]
    pub fn make_ascii_lowercase(&mut self)
        ensures { self.new ≡ ascii_lowercase self.old }
    {
        *self = self.to_ascii_lowercase();
    }

    /// Returns true if the characters are equal but for the case of ASCII letters.
    #[inline(always)]
    pub fn eq_ignore_ascii_case(&self, other: &Utf16Char) -> bool
        ensures equal { IsTrue result ↔ (ascii_lowercase self.now ≡ ascii_lowercase other.now) }
        ensures value { result ≡ nat_eq (ascii_lowercase self.now) (ascii_lowercase other.now) }
    {
        self.to_ascii_lowercase() == other.to_ascii_lowercase()
    }
}

/// Comparisons with other types.
impl Utf16Char {
    /// Returns true if it is the same character as the `char`.
    #[inline(always)]
    pub fn eq_char(self, c: char) -> bool
        ensures equal { IsTrue result ↔ (self ≡ c) }
        ensures value { result ≡ nat_eq self c }
    {
        c == self.to_char()
    }

    /// The order of the code points.
    #[inline(always)]
    pub fn cmp_char(self, c: char) -> Ordering
        ensures { result ≡ nat_cmp self c }
    {
        self.to_char().cmp(&c)
    }

    /// Returns true if it is the same character.
    #[inline(always)]
    pub fn eq_utf8(self, c: Utf8Char) -> bool
        ensures equal { IsTrue result ↔ (self ≡ c) }
        ensures value { result ≡ nat_eq self c }
    {
        self.to_char() == c.to_char()
    }

    /// The order of the code points.
    #[inline(always)]
    pub fn cmp_utf8(self, c: Utf8Char) -> Ordering
        ensures { result ≡ nat_cmp self c }
    {
        self.to_char().cmp(&c.to_char())
    }

    /// Returns true if its code point is this byte, up to 0xff.
    #[inline(always)]
    pub fn eq_u8(self, byte: u8) -> bool
        ensures equal { IsTrue result ↔ (self ≡ byte) }
        ensures value { result ≡ nat_eq self byte }
    {
        self.to_char() == char::from(byte)
    }

    /// Returns true if its code point is this unit. No character is a surrogate.
    #[inline(always)]
    pub fn eq_u16(self, unit: u16) -> bool
        ensures equal { IsTrue result ↔ (self ≡ unit) }
        ensures value { result ≡ nat_eq self unit }
    {
        self.to_char() as u32 == unit as u32
    }
}

impl PartialEq for Utf16Char {
    ghost eq = { ◌==◌ };

    ghost laws = { Prim.search (comparing, rules) };

    /// Returns true if both are the same character.
    #[inline(always)]
    fn eq(&self, other: &Utf16Char) -> bool {
        self.to_char() == other.to_char()
    }
}

impl Eq for Utf16Char {
    ghost laws = { Prim.search (comparing, rules) };
}

impl Ord for Utf16Char {
    ghost cmp = { nat_cmp };

    ghost total = { Prim.search (comparing, rules) };

    ghost matches_partial_cmp = { Prim.search (comparing, rules) };

    ghost matches_eq = { Prim.search (comparing, rules) };

    /// The order of the code points, as for `char`.
    #[inline(always)]
    fn cmp(&self, other: &Utf16Char) -> Ordering {
        self.to_char().cmp(&other.to_char())
    }
}

impl PartialOrd for Utf16Char {
    ghost partial_cmp = { as_partial_cmp nat_cmp };

    ghost laws = { partial_order_from_own_ties (Prim.search (comparing, rules)) (Prim.search (comparing, rules)) };

    /// The result of `cmp`, never `None`.
    #[inline(always)]
    fn partial_cmp(&self, other: &Utf16Char) -> Option<Ordering> {
        Some(self.cmp(other))
    }
}

impl Hash for Utf16Char {
    ghost hash_input = { fed.char };

    ghost respects_eq = { Prim.search (hashing, rules) };

    /// Feeds what the `char` feeds, so equal characters of all three types have equal hashes.
    fn hash<H: Hasher>(&self, state: &mut H) {
        self.to_char().hash(state);
    }
}

impl Default for Utf16Char {
    ghost is_default = { λ c. c ≡ 0 };

    /// U+0000.
    fn default() -> Utf16Char {
        Utf16Char::from_bmp_unchecked(0)
    }
}

impl From<char> for Utf16Char {
    ghost from_gives = { λ c r. r ≡ c };

    /// Converts a `char` to UTF-16.
    #[inline(always)]
    fn from(c: char) -> Utf16Char {
        Utf16Char::new(c)
    }
}

impl From<Utf16Char> for char {
    ghost from_gives = { λ c r. r ≡ c };

    /// Converts the character to a `char`.
    #[inline(always)]
    fn from(c: Utf16Char) -> char {
        c.to_char()
    }
}

impl From<Utf8Char> for Utf16Char {
    ghost from_gives = { λ c r. r ≡ c };

    // Converts by way of the code point. The length determines which code it is, and follows from the first
    // byte as the code point does: so the same tests give both.
    /// Converts a character from UTF-8 to UTF-16.
    #[inline(always)]
    #[tactic(auto, using(crate::proofs::PaddedLemmas::four_bytes, crate::proofs::PaddedUnits::unit_value_padded, crate::proofs::PaddedUnits::IsPadded_units))]
    fn from(c: Utf8Char) -> Utf16Char {
        let units = utf16::code_by_kind(c.scalar(), c.len() == 4);
        Utf16Char { units }
    }
}

impl FromStr for Utf16Char {
    type Err = FromStrError;

    ghost from_str_gives = { Parses };

    /// The only character of the text. None, or more than one, is an error.
    fn from_str(s: &str) -> Result<Utf16Char, FromStrError> {
        Ok(Utf16Char::from(Utf8Char::from_str(s)?))
    }
}

impl fmt::Display for Utf16Char {
    ghost output = { λ c. Some (utf8 c) };

    ghost styled_output = { λ c _. Some (utf8 c) };

    /// Writes the character. Width and fill are ignored.
    fn fmt<W: fmt::Write>(&self, f: &mut fmt::Formatter<W>) -> fmt::Result {
        f.write_str(Utf8Char::from(*self).as_str())
    }
}

/// Writes what `{:?}` writes of the `char`.
impl fmt::Debug for Utf16Char {
    ghost debug_output = { debug_char };

    /// Writes what `{:?}` writes of the `char`.
    fn fmt<W: fmt::Write>(&self, f: &mut fmt::Formatter<W>) -> fmt::Result {
        fmt::Debug::fmt(&self.to_char(), f)
    }
}
