//! A character kept as its code in UTF-8.
ghost use Rattle.std.specs.Prelude.{◌≡◌, ◌==◌, ◌<◌, ◌≤◌, ◌↔◌, ◌++◌, [], ◌∷◌, Some, IsTrue, IsOk, IfOk, IfErr, Ok, nat_eq, nat_lt, ◌&&◌, length, take, drop, replicate, ◌-◌};
ghost use Rattle.std.specs.Char.{encode_utf8};
ghost use Rattle.std.specs.Cmp.{partial_order_from_own_ties};
ghost use Rattle.std.specs.Cmp.Rules.{comparing, hashing};
ghost use Rattle.std.specs.Fmt.{debug_char};
ghost use Rattle.std.specs.Hash as fed;
ghost use Rattle.std.specs.Ordering.{nat_cmp, as_partial_cmp};
ghost use Rattle.std.specs.Result.{OkIff};
ghost use Rattle.std.specs.Str.{IsCharBoundary};
ghost use Rattle.std.proofs.Common.{rules};
ghost use Rattle.utf_base.specs.Scalar.{IsScalar};
ghost use Rattle.utf_base.specs.Back.{DecodesEnd, decoded_end, IsWholeCode};
ghost use Rattle.utf_base.specs.Code.{utf8};
ghost use Rattle.utf_base.specs.Decoded.{decoded, decoded_bytes};
ghost use Rattle.utf_base.specs.Front.{as_scalar, BeginsWith, DecodesFront, DecodesBytes, IsFrontLen};
ghost use Rattle.utf_base.specs.Kinds.{value, asked, fault_kind};
ghost use Rattle.utf_chars.specs.Chars.{ascii_lowercase, ascii_uppercase, BeginsText, IsFrontCode};
ghost use Rattle.utf_chars.specs.Chars.{first_of_text, parsed, Parses};
ghost use Rattle.utf_chars.specs.Padded.{padded, IsPadded, HasRoomForCode};

use crate::codes::{utf8, utf8_end};
use crate::utf16_char::Utf16Char;
use std::cmp::Ordering;
use std::fmt;
use std::hash::{Hash, Hasher};
use std::marker::Model;
use std::str::FromStr;
use utf_base::errors::{EmptyStrError, FromStrError, NonAsciiError, Utf8Error, Utf8ErrorKind};

/// A character, kept as its UTF-8. Contracts see it as its code point.
///
/// Characters are ordered, compared and hashed by the code point, as a `char` is.
#[derive(Clone, Copy, Drop)]
pub struct Utf8Char {
    bytes: [u8; 4],
}

impl Model for Utf8Char {
    ghost use Rattle.std.specs.Prelude.{ℕ};
    ghost use Rattle.std.proofs.Common.{sym};
    ghost use Rattle.utf_base.specs.Code.{utf8};
    ghost use Rattle.utf_base.specs.Kinds.{value};
    ghost use Rattle.utf_chars.specs.Padded.{padded, IsPadded};

    ghost Value = { ℕ };

    ghost view = { λ c. value c.bytes };

    ghost invariant = { λ c. IsPadded utf8 4 value c.bytes };

    ghost inverse = { λ s. record { bytes = padded 4 (utf8 s) } };

    ghost inverse_ok = { λ c h i. record { bytes = sym h.equal i } };
}

/// Making a character.
impl Utf8Char {
    /// Converts a `char`.
    #[inline(always)]
    #[tactic(auto, using(utf_base::proofs::StdText::scalar_from_std, crate::proofs::PaddedLemmas::value_padded, crate::proofs::PaddedLemmas::IsPadded_padded))]
    pub fn new(c: char) -> Utf8Char
        ensures { result ≡ c }
    {
        let bytes = utf8::padded_code(c as u32);
        Utf8Char { bytes }
    }

    /// The first character of the text: (character, length in bytes), the length 1 to 4.
    #[inline(always)]
    pub fn from_str_start(src: &str) -> Result<(Utf8Char, usize), EmptyStrError>
        ensures begins { BeginsText src.now result }
        ensures known { result ≡ first_of_text src.now }
        ensures len { IfOk result (λ x. IsFrontLen 4 src.now x.1) }
        ensures boundary { IfOk result (λ x. IsCharBoundary src.now x.1) }
    {
        let bytes = src.as_bytes();
        if bytes.is_empty() {
            return Err(EmptyStrError);
        }
        let len = code_len(bytes[0]);
        Ok((Utf8Char::from_front(bytes, len), len))
    }

    /// The character that begins the bytes: (character, length in bytes), the length 1 to 4.
    ///
    /// The bytes after it do not matter. The error is that of `CharExt::from_utf8_slice_start`.
    #[inline(always)]
    pub fn from_slice_start(src: &[u8]) -> Result<(Utf8Char, usize), Utf8Error>
        ensures decodes { DecodesFront as_scalar src.now result }
        ensures known { result ≡ decoded src.now }
        ensures kind { IfErr result (λ k. fault_kind src.now ≡ Some k) }
        ensures len { IfOk result (λ x. IsFrontLen 4 src.now x.1) }
        ensures exact { IfOk result (λ x. decoded (take x.1 src.now) ≡ Ok x) }
    {
        let len = front_len(src)?;
        Ok((Utf8Char::from_front(src, len), len))
    }

    // The character whose code the first `len` bytes are. They are copied and not computed from the scalar,
    // which is faster.
    #[inline(always)]
    #[tactic(auto, using(utf_base::proofs::DecodedLemmas::front_len_utf8, crate::proofs::PaddedLemmas::IsPadded_padded, crate::proofs::PaddedLemmas::value_padded, crate::proofs::PaddedLemmas::front_padded))]
    fn from_front(src: &[u8], len: usize) -> Utf8Char
        requires { IsFrontCode src.now len }
        ensures { BeginsWith utf8 src.now result len }
    {
        let bytes = front_array(src, len);
        Utf8Char { bytes }
    }

    /// The character that begins the bytes, without a check: (character, length in bytes).
    ///
    /// Condition: a character begins the bytes.
    #[inline(always)]
    pub fn from_slice_start_unchecked(src: &[u8]) -> (Utf8Char, usize)
        requires { IsOk (decoded src.now) }
        ensures begins { BeginsWith utf8 src.now result.0 result.1 }
        ensures known { decoded src.now ≡ Ok result }
        ensures len { IsFrontLen 4 src.now result.1 }
    {
        Utf8Char::from_slice_start(src).unwrap()
    }

    /// The character that ends the bytes: (character, length in bytes), the length 1 to 4.
    ///
    /// If no character ends them, the error depends only on the last byte: a continuation byte is
    /// `UnexpectedContinuationByte`, one that begins a longer character is `TooFewBytes`, and one that never
    /// occurs in UTF-8 is `NonUtf8Byte`. No byte at all is `TooFewBytes`.
    ///
    /// Only the last four bytes matter.
    #[inline(always)]
    pub fn from_slice_end(src: &[u8]) -> Result<(Utf8Char, usize), Utf8Error>
        ensures decodes { DecodesEnd as_scalar src.now result }
        ensures known { result ≡ decoded_end src.now }
        ensures len { IfOk result (λ x. IsFrontLen 4 src.now x.1) }
        ensures exact { IfOk result (λ x. decoded (drop (length src.now - x.1) src.now) ≡ Ok x) }
        ensures exact_end { IfOk result (λ x. decoded_end (drop (length src.now - x.1) src.now) ≡ Ok x) }
    {
        if src.is_empty() {
            return Err(Utf8Error::new(Utf8ErrorKind::TooFewBytes));
        }
        let len = utf8_end::continuation_bytes_at_end(src) + 1;
        if len <= src.len() {
            if let Some(c) = Utf8Char::from_whole(&src[src.len() - len..]) {
                return Ok((c, len));
            }
        }
        Err(utf8_end::fault_of_last(src[src.len() - 1]))
    }

    // The character whose code all of the bytes are.
    #[inline(always)]
    fn from_whole(src: &[u8]) -> Option<Utf8Char>
        ensures { IsWholeCode src.now result }
    {
        match Utf8Char::from_slice_start(src) {
            Ok((c, len)) if len == src.len() => Some(c),
            _ => None,
        }
    }

    /// The character that begins the four bytes. The bytes after it are ignored.
    ///
    /// The error is that of `CharExt::from_utf8_array`.
    #[inline(always)]
    #[tactic(auto, using(utf_base::proofs::DecodedLemmas::answer_of_array))]
    pub fn from_array(utf8: [u8; 4]) -> Result<Utf8Char, Utf8Error>
        ensures decodes { DecodesBytes as_scalar utf8 result }
        ensures known { result ≡ decoded_bytes utf8 }
    {
        Ok(Utf8Char::new(utf8::decode_array(utf8)?))
    }

    /// The character that the four bytes are, without a check: the inverse of `to_array`.
    ///
    /// Condition: the bytes are the UTF-8 of one character, and then zeros.
    #[inline(always)]
    #[tactic(auto, using(crate::proofs::OwnCodes::own_array))]
    pub fn from_array_unchecked(array: [u8; 4]) -> Utf8Char
        requires { IsPadded utf8 4 value array }
        ensures code { padded 4 (utf8 result) ≡ array }
        ensures known { decoded_bytes array ≡ Ok result }
    {
        Utf8Char { bytes: array }
    }

    /// The character of an ASCII byte. From 128 on it is an error.
    #[inline(always)]
    pub fn from_ascii(ascii: u8) -> Result<Utf8Char, NonAsciiError>
        ensures { OkIff result (ascii < 128) ascii }
    {
        if ascii < 128 {
            Ok(Utf8Char::from_ascii_unchecked(ascii))
        } else {
            Err(NonAsciiError)
        }
    }

    /// The character of an ASCII byte, without a check.
    ///
    /// Condition: the byte is below 128.
    #[inline(always)]
    pub fn from_ascii_unchecked(ascii: u8) -> Utf8Char
        requires { ascii < 128 }
        ensures { result ≡ ascii }
    {
        Utf8Char {
            bytes: [ascii, 0, 0, 0],
        }
    }
}

// The length in bytes of the code that begins the bytes, otherwise their error. ASCII is handled separately. For
// other codes the length is taken from the first byte again: so the compiler knows it when the character is used.
#[inline(always)]
fn front_len(src: &[u8]) -> Result<usize, Utf8Error>
    ensures ok { IfOk result (λ n. IsFrontCode src.now n) }
    ensures err { IfErr result (λ k. fault_kind src.now ≡ Some k) }
{
    if src.is_empty() {
        return Err(Utf8Error::new(Utf8ErrorKind::TooFewBytes));
    }
    if src[0] < 0x80 {
        return Ok(1);
    }
    let _ = utf8::decode_start(src)?;
    Ok(code_len(src[0]))
}

// The first `len` bytes, followed by zeros.
#[inline(always)]
fn front_array(src: &[u8], len: usize) -> [u8; 4]
    requires { IsFrontLen 4 src.now len }
    ensures { result ≡ take len src.now ++ replicate (4 - len) 0 }
{
    match len {
        1 => [src[0], 0, 0, 0],
        2 => [src[0], src[1], 0, 0],
        3 => [src[0], src[1], src[2], 0],
        _ => [src[0], src[1], src[2], src[3]],
    }
}

// The length of a code that begins with the byte, in bytes.
#[inline(always)]
#[tactic(auto, using(crate::proofs::PaddedLemmas::asked_by_range))]
fn code_len(first: u8) -> usize
    ensures asked { 0 < asked first → result ≡ asked first }
    ensures least { 1 ≤ result }
    ensures most { result ≤ 4 }
{
    match first {
        0x00..=0x7f => 1,
        0x80..=0xdf => 2,
        0xe0..=0xef => 3,
        _ => 4,
    }
}

/// Properties of a character.
impl Utf8Char {
    /// The length in UTF-8: 1 to 4 bytes.
    #[inline(always)]
    #[tactic(auto, using(crate::proofs::PaddedLemmas::asked_by_first))]
    pub fn len(self) -> usize
        ensures len { result ≡ length (utf8 self) }
        ensures least { 1 ≤ result }
        ensures most { result ≤ 4 }
    {
        code_len(self.bytes[0])
    }

    /// Returns true if it is ASCII, below 128.
    #[inline(always)]
    #[tactic(auto, using(crate::proofs::PaddedLemmas::first_is_ascii, crate::proofs::PaddedLemmas::of_one_byte))]
    pub fn is_ascii(self) -> bool
        ensures ascii { IsTrue result ↔ (self < 128) }
        ensures value { result ≡ nat_lt self 128 }
        ensures one_byte { IsTrue result → utf8 self ≡ self ∷ [] }
    {
        self.bytes[0] < 128
    }

    // The scalar as a number, from the payloads of the bytes.
    #[inline(always)]
    #[tactic(auto, using(crate::proofs::PaddedLemmas::by_first))]
    pub(crate) fn scalar(self) -> u32
        ensures value { result ≡ self }
        ensures scalar { IsScalar result }
    {
        let [first, second, third, fourth] = self.bytes;
        match first {
            0x00..=0x7f => first as u32,
            0x80..=0xdf => utf8::value_of_two(first, second),
            0xe0..=0xef => utf8::value_of_three(first, second, third),
            _ => utf8::value_of_four(first, second, third, fourth),
        }
    }

    /// The character as a `char`.
    #[inline(always)]
    #[tactic(auto, using(utf_base::proofs::StdText::scalar_for_std, utf_base::proofs::StdText::utf8_is_std))]
    pub fn to_char(self) -> char
        ensures char { result ≡ self }
        ensures text { encode_utf8 result ≡ utf8 self }
    {
        let number = self.scalar();
        // The type keeps only scalars.
        unsafe { char::from_u32_unchecked(number) }
    }

    /// The UTF-8 of the character: (bytes, then zeros; length).
    #[inline(always)]
    #[tactic(auto, using(crate::proofs::OwnCodes::own_array))]
    pub fn to_array(self) -> ([u8; 4], usize)
        ensures code { result.0 ≡ padded 4 (utf8 self) }
        ensures len { result.1 ≡ length (utf8 self) }
        ensures front { take result.1 result.0 ≡ utf8 self }
        ensures bounds { IsFrontLen 4 result.0 result.1 }
        ensures own { IsPadded utf8 4 value result.0 }
        ensures decodes { decoded result.0 ≡ Ok (self, result.1) }
        ensures decodes_bytes { decoded_bytes result.0 ≡ Ok self }
    {
        let bytes = self.bytes;
        (bytes, self.len())
    }

    /// The character as a text, borrowed from inside it.
    #[inline(always)]
    #[tactic(auto, using(utf_base::proofs::StdText::utf8_is_text, crate::proofs::TextLemmas::text_of_code))]
    pub fn as_str(&self) -> &str
        ensures text { result.now ≡ utf8 self.now }
        ensures bounds { IsFrontLen 4 result.now (length result.now) }
        ensures decodes { decoded result.now ≡ Ok (self.now, length result.now) }
        ensures first { first_of_text result.now ≡ Ok (self.now, length result.now) }
        ensures parses { parsed result.now ≡ Ok self.now }
    {
        // Names the field, which brings the type's invariant into scope of the proof.
        let _ = &self.bytes;
        // The code of a scalar is text.
        unsafe { str::from_utf8_unchecked(self.as_bytes()) }
    }

    /// The UTF-8 of the character, borrowed from inside it.
    #[inline(always)]
    #[tactic(auto, using(crate::proofs::OwnCodes::own_view, crate::proofs::PaddedLemmas::take_padded))]
    pub fn as_bytes(&self) -> &[u8]
        ensures code { result.now ≡ utf8 self.now }
        ensures bounds { IsFrontLen 4 result.now (length result.now) }
        ensures decodes { decoded result.now ≡ Ok (self.now, length result.now) }
    {
        &self.bytes[..self.len()]
    }

    /// Writes its UTF-8 to the front of the slice, and returns the length. The rest of the slice is
    /// unchanged.
    ///
    /// Condition: the slice has at least `len()` elements; four are always enough.
    #[inline(always)]
    #[tactic(auto, using(crate::proofs::OwnCodes::own_front))]
    pub fn to_slice(self, dst: &mut [u8]) -> usize
        requires { HasRoomForCode 4 (utf8 self) dst.old }
        ensures len { result ≡ length (utf8 self) }
        ensures bounds { IsFrontLen 4 dst.new result }
        ensures written { dst.new ≡ utf8 self ++ drop (length (utf8 self)) dst.old }
        ensures decodes { decoded dst.new ≡ Ok (self, result) }
    {
        // Names the field, which brings the type's invariant into scope of the proof.
        let _ = &self.bytes;
        let len = self.len();
        self.store(len, dst);
        len
    }

    // Writes the code, which has `len` bytes, to the front of the slice.
    #[inline(always)]
    fn store(self, len: usize, dst: &mut [u8])
        requires len { len ≡ length (utf8 self) }
        requires least { 1 ≤ len }
        requires most { len ≤ 4 }
        requires room { len ≤ length dst.old }
        ensures { dst.new ≡ utf8 self ++ drop (length (utf8 self)) dst.old }
    {
        match len {
            1 => self.store_by::<1>(dst),
            2 => self.store_by::<2>(dst),
            3 => self.store_by::<3>(dst),
            _ => self.store_by::<4>(dst),
        }
    }

    // Writes the code, whose length is a constant: so no call of memcpy is made.
    #[inline(always)]
    #[tactic(auto, using(crate::proofs::PaddedLemmas::take_padded))]
    fn store_by<const LEN: usize>(self, dst: &mut [u8])
        requires len { LEN ≡ length (utf8 self) }
        requires most { LEN ≤ 4 }
        requires room { LEN ≤ length dst.old }
        ensures { dst.new ≡ utf8 self ++ drop (length (utf8 self)) dst.old }
    {
        dst[..LEN].copy_from_slice(&self.bytes[..LEN]);
    }
}

/// The cases of ASCII letters.
impl Utf8Char {
    /// The upper case of an ASCII letter, and every other character as it is.
    #[inline(always)]
    pub fn to_ascii_uppercase(self) -> Utf8Char
        ensures { result ≡ ascii_uppercase self }
    {
        Utf8Char::new(self.to_char().to_ascii_uppercase())
    }

    /// The lower case of an ASCII letter, and every other character as it is.
    #[inline(always)]
    pub fn to_ascii_lowercase(self) -> Utf8Char
        ensures { result ≡ ascii_lowercase self }
    {
        Utf8Char::new(self.to_char().to_ascii_lowercase())
    }

    /// Makes an ASCII letter upper case.
    #[inline(always)]
    pub fn make_ascii_uppercase(&mut self)
        ensures { self.new ≡ ascii_uppercase self.old }
    {
        *self = self.to_ascii_uppercase();
    }

    /// Makes an ASCII letter lower case.
    #[inline(always)]
    pub fn make_ascii_lowercase(&mut self)
        ensures { self.new ≡ ascii_lowercase self.old }
    {
        *self = self.to_ascii_lowercase();
    }

    /// Returns true if the characters are equal but for the case of ASCII letters.
    #[inline(always)]
    pub fn eq_ignore_ascii_case(&self, other: &Utf8Char) -> bool
        ensures equal { IsTrue result ↔ (ascii_lowercase self.now ≡ ascii_lowercase other.now) }
        ensures value { result ≡ nat_eq (ascii_lowercase self.now) (ascii_lowercase other.now) }
    {
        self.to_ascii_lowercase() == other.to_ascii_lowercase()
    }
}

/// Comparisons with other types.
impl Utf8Char {
    /// Returns true if it is the same character as the `char`.
    #[inline(always)]
    pub fn eq_char(self, c: char) -> bool
        ensures equal { IsTrue result ↔ (self ≡ c) }
        ensures value { result ≡ nat_eq self c }
    {
        self.to_char() == c
    }

    /// The order of the code points.
    #[inline(always)]
    pub fn cmp_char(self, c: char) -> Ordering
        ensures { result ≡ nat_cmp self c }
    {
        self.to_char().cmp(&c)
    }

    /// Returns true if it is the same character.
    #[inline(always)]
    pub fn eq_utf16(self, c: Utf16Char) -> bool
        ensures equal { IsTrue result ↔ (self ≡ c) }
        ensures value { result ≡ nat_eq self c }
    {
        c.to_char() == self.to_char()
    }

    /// The order of the code points.
    #[inline(always)]
    pub fn cmp_utf16(self, c: Utf16Char) -> Ordering
        ensures { result ≡ nat_cmp self c }
    {
        self.to_char().cmp(&c.to_char())
    }

    /// Returns true if it is this ASCII byte. No byte from 128 on is a character.
    #[inline(always)]
    pub fn eq_u8(self, byte: u8) -> bool
        ensures equal { IsTrue result ↔ ((byte < 128) × (self ≡ byte)) }
        ensures value { result ≡ (nat_lt byte 128 && nat_eq self byte) }
    {
        byte < 128 && self.to_char() == char::from(byte)
    }
}

impl PartialEq for Utf8Char {
    ghost eq = { ◌==◌ };

    ghost laws = { Prim.search (comparing, rules) };

    /// Returns true if both are the same character.
    #[inline(always)]
    fn eq(&self, other: &Utf8Char) -> bool {
        self.to_char() == other.to_char()
    }
}

impl Eq for Utf8Char {
    ghost laws = { Prim.search (comparing, rules) };
}

impl Ord for Utf8Char {
    ghost cmp = { nat_cmp };

    ghost total = { Prim.search (comparing, rules) };

    ghost matches_partial_cmp = { Prim.search (comparing, rules) };

    ghost matches_eq = { Prim.search (comparing, rules) };

    /// The order of the code points, as for `char`.
    #[inline(always)]
    fn cmp(&self, other: &Utf8Char) -> Ordering {
        self.to_char().cmp(&other.to_char())
    }
}

impl PartialOrd for Utf8Char {
    ghost partial_cmp = { as_partial_cmp nat_cmp };

    ghost laws = { partial_order_from_own_ties (Prim.search (comparing, rules)) (Prim.search (comparing, rules)) };

    /// The result of `cmp`, never `None`.
    #[inline(always)]
    fn partial_cmp(&self, other: &Utf8Char) -> Option<Ordering> {
        Some(self.cmp(other))
    }
}

impl Hash for Utf8Char {
    ghost hash_input = { fed.char };

    ghost respects_eq = { Prim.search (hashing, rules) };

    /// Feeds what the `char` feeds, so equal characters of all three types have equal hashes.
    fn hash<H: Hasher>(&self, state: &mut H) {
        self.to_char().hash(state);
    }
}

impl Default for Utf8Char {
    ghost is_default = { λ c. c ≡ 0 };

    /// U+0000.
    fn default() -> Utf8Char {
        Utf8Char::from_ascii_unchecked(0)
    }
}

impl From<char> for Utf8Char {
    ghost from_gives = { λ c r. r ≡ c };

    /// Converts a `char` to UTF-8.
    #[inline(always)]
    fn from(c: char) -> Utf8Char {
        Utf8Char::new(c)
    }
}

impl From<Utf8Char> for char {
    ghost from_gives = { λ c r. r ≡ c };

    /// Converts the character to a `char`.
    #[inline(always)]
    fn from(c: Utf8Char) -> char {
        c.to_char()
    }
}

impl From<Utf16Char> for Utf8Char {
    ghost from_gives = { λ c r. r ≡ c };

    // Converts by way of the code point.
    /// Converts a character from UTF-16 to UTF-8.
    #[inline(always)]
    #[tactic(auto, using(crate::proofs::PaddedLemmas::value_padded, crate::proofs::PaddedLemmas::IsPadded_padded))]
    fn from(c: Utf16Char) -> Utf8Char {
        let bytes = utf8::padded_code(c.scalar());
        Utf8Char { bytes }
    }
}

impl FromStr for Utf8Char {
    type Err = FromStrError;

    ghost from_str_gives = { Parses };

    /// The only character of the text. None, or more than one, is an error.
    fn from_str(s: &str) -> Result<Utf8Char, FromStrError> {
        match Utf8Char::from_str_start(s) {
            Err(EmptyStrError) => Err(FromStrError::Empty),
            Ok((c, len)) if len == s.len() => Ok(c),
            Ok(_) => Err(FromStrError::MultipleCodepoints),
        }
    }
}

impl fmt::Display for Utf8Char {
    ghost output = { λ c. Some (utf8 c) };

    ghost styled_output = { λ c _. Some (utf8 c) };

    /// Writes the character. Width and fill are ignored.
    fn fmt<W: fmt::Write>(&self, f: &mut fmt::Formatter<W>) -> fmt::Result {
        f.write_str(self.as_str())
    }
}

/// Writes what `{:?}` writes of the `char`.
impl fmt::Debug for Utf8Char {
    ghost debug_output = { debug_char };

    /// Writes what `{:?}` writes of the `char`.
    fn fmt<W: fmt::Write>(&self, f: &mut fmt::Formatter<W>) -> fmt::Result {
        fmt::Debug::fmt(&self.to_char(), f)
    }
}
