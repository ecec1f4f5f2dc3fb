//! The code of a scalar in UTF-16 (RFC 2781).
ghost use Rattle.std.specs.Prelude.{◌≡◌, ◌↔◌, IsTrue, ◌+◌, ◌-◌, ◌/◌, ◌%◌, ◌≤◌, ◌<◌, ◌&&◌, nat_lt, true, false, if◌then◌else◌, IfNone};
ghost use Rattle.utf_base.specs.declared.errors.units.Utf16SliceError.TheVariants.{FirstIsTrailingSurrogate};
ghost use Rattle.utf_base.specs.Back.{DecodesUnitsEnd};
ghost use Rattle.utf_base.specs.Code.{utf16};
ghost use Rattle.utf_base.specs.Front.{as_scalar, DecodesUnits, DecodesTwoUnits, DecodesTuple};
ghost use Rattle.utf_chars.specs.Chars.{array_value};
ghost use Rattle.utf_base.specs.Units.{is_surrogate, is_leading_surrogate, is_trailing_surrogate, pair_value, tuple_value, units_of_pair};
ghost use Rattle.utf_chars.specs.Padded.{padded};

use utf_base::elements::is_trailing_surrogate;
use utf_base::errors::{Utf16ArrayError, Utf16SliceError, Utf16TupleError};
use utf_base::traits::U16UtfExt;

/// The code of a number below 0x110000: a unit and 0, or a pair of surrogates.
#[inline(always)]
pub(crate) fn padded_code(s: u32) -> [u16; 2]
    requires { s < 0x11_0000 }
    ensures { result ≡ padded 2 (utf16 s) }
{
    code_by_kind(s, s >= 0x1_0000)
}

/// The code of a number below 0x110000, if it is already known whether it is a pair.
#[inline(always)]
#[tactic(auto, unfolding(utf_base::specs::Code::utf16, crate::specs::Padded::padded))]
pub(crate) fn code_by_kind(s: u32, is_pair: bool) -> [u16; 2]
    requires number { s < 0x11_0000 }
    requires pair { IsTrue is_pair ↔ (0x1_0000 ≤ s) }
    ensures { result ≡ padded 2 (utf16 s) }
{
    if is_pair {
        [leading_surrogate(s), trailing_surrogate(s)]
    } else {
        [s as u16, 0]
    }
}

/// The code of a character: a unit and 0, or a pair of surrogates.
#[inline(always)]
#[tactic(auto, unfolding(utf_base::specs::Code::utf16, crate::specs::Padded::padded))]
pub(crate) fn encode(c: char) -> [u16; 2]
    ensures { result ≡ padded 2 (utf16 c) }
{
    let s = c as u32;
    // One number, whose lower half is the first unit: so the code stays in one register.
    let code = if s < 0x1_0000 {
        s
    } else {
        leading_surrogate(s) as u32 + ((trailing_surrogate(s) as u32) << 16)
    };
    [(code & 0xffff) as u16, (code >> 16) as u16]
}

/// The code as one unit, or two.
#[inline(always)]
#[tactic(auto, unfolding(utf_base::specs::Code::utf16))]
pub(crate) fn encode_tuple(c: char) -> (u16, Option<u16>)
    ensures { units_of_pair result.0 result.1 ≡ utf16 c }
{
    let s = c as u32;
    if s < 0x1_0000 {
        (s as u16, None)
    } else {
        (leading_surrogate(s), Some(trailing_surrogate(s)))
    }
}

/// The character whose code begins the units, and the length of the code: 1 or 2 units.
///
/// If no code begins them, the error is the first that applies of `EmptySlice`, `FirstIsTrailingSurrogate`,
/// `MissingSecond` and `SecondIsNotTrailingSurrogate`.
#[inline(always)]
#[tactic(auto, unfolding(utf_base::specs::Units::slice_fault), using(utf_base::proofs::Utf16Code::begins_with_unit, utf_base::proofs::Utf16Code::begins_with_pair))]
pub(crate) fn decode_start(src: &[u16]) -> Result<(char, usize), Utf16SliceError>
    ensures { DecodesUnits as_scalar src.now result }
{
    if src.is_empty() {
        return Err(Utf16SliceError::EmptySlice);
    }
    let first = src[0];
    // Counted from the first surrogate: so each test of it compares with one bound.
    let high = (first as u32).wrapping_sub(0xd800);
    if high >= 0x800 {
        return Ok((char_of_unit(first), 1));
    }
    if src.len() < 2 {
        return Err(unpaired(first, Utf16SliceError::MissingSecond));
    }
    if is_pair(high, src[1]) {
        return Ok((char_of_surrogates(first, src[1]), 2));
    }
    Err(unpaired(first, Utf16SliceError::SecondIsNotTrailingSurrogate))
}

/// The character whose code ends the units, and the length of the code: 1 or 2 units.
///
/// If no code ends them, the error depends only on the last unit: `EmptySlice` if there is none,
/// `FirstIsTrailingSurrogate` or `MissingSecond`.
#[inline(always)]
#[tactic(auto, using(utf_base::proofs::UnitEnds::ends_with_unit, utf_base::proofs::UnitEnds::ends_with_pair, utf_base::proofs::UnitEnds::no_units_end, utf_base::proofs::UnitEnds::no_units_end_empty))]
pub(crate) fn decode_end(src: &[u16]) -> Result<(char, usize), Utf16SliceError>
    ensures { DecodesUnitsEnd as_scalar src.now result }
{
    let count = src.len();
    if count == 0 {
        return Err(Utf16SliceError::EmptySlice);
    }
    let last = src[count - 1];
    if !is_surrogate(last) {
        return Ok((char_of_unit(last), 1));
    }
    if count >= 2 {
        let first = src[count - 2];
        if first.is_utf16_leading_surrogate() && is_trailing_surrogate(last) {
            return Ok((char_of_surrogates(first, last), 2));
        }
    }
    Err(unpaired(last, Utf16SliceError::MissingSecond))
}

/// The character whose code begins the two units. A second unit that the first does not ask for is
/// ignored.
#[inline(always)]
#[tactic(auto, unfolding(utf_base::specs::Units::array_fault), using(utf_base::proofs::Utf16Code::begins_with_unit, utf_base::proofs::Utf16Code::begins_with_pair))]
pub(crate) fn decode_array(units: [u16; 2]) -> Result<char, Utf16ArrayError>
    ensures { DecodesTwoUnits as_scalar units result }
{
    let [first, second] = units;
    if !is_surrogate(first) {
        return Ok(char_of_unit(first));
    }
    if is_pair(first as u32 - 0xd800, second) {
        return Ok(char_of_surrogates(first, second));
    }
    if is_trailing_surrogate(first) {
        Err(Utf16ArrayError::FirstIsTrailingSurrogate)
    } else {
        Err(Utf16ArrayError::SecondIsNotTrailingSurrogate)
    }
}

/// The character whose code the one or two units are. A second unit that the first does not ask for is
/// an error.
#[inline(always)]
#[tactic(auto, using(utf_base::proofs::Utf16Code::unit_is_code, utf_base::proofs::Utf16Code::pair_is_code, utf_base::proofs::UnitLemmas::no_surrogate))]
pub(crate) fn decode_tuple(units: (u16, Option<u16>)) -> Result<char, Utf16TupleError>
    ensures { DecodesTuple as_scalar units result }
{
    let (first, second) = units;
    if is_trailing_surrogate(first) {
        return Err(Utf16TupleError::FirstIsTrailingSurrogate);
    }
    let leading = first.is_utf16_leading_surrogate();
    match second {
        None if leading => Err(Utf16TupleError::MissingSecond),
        None => Ok(char_of_unit(first)),
        Some(_) if !leading => Err(Utf16TupleError::SuperfluousSecond),
        Some(second) if is_trailing_surrogate(second) => Ok(char_of_pair(first, second)),
        Some(_) => Err(Utf16TupleError::SecondIsNotTrailingSurrogate),
    }
}

/// The character of two units, whatever they are.
///
/// A first unit that is no surrogate represents itself. Otherwise the units are taken for a leading and a
/// trailing surrogate: ten bits of each, above 0x10000.
#[inline(always)]
pub(crate) fn decode_array_unchecked(units: [u16; 2]) -> char
    ensures { result ≡ array_value units }
{
    let [first, second] = units;
    if is_surrogate(first) {
        char_of_pair(first, second)
    } else {
        char_of_unit(first)
    }
}

/// The character of one unit that is no surrogate, or of two units, which are taken for a leading and a
/// trailing surrogate whatever they are.
#[inline(always)]
pub(crate) fn decode_tuple_unchecked(units: (u16, Option<u16>)) -> char
    requires { IfNone units.1 (is_surrogate units.0 ≡ false) }
    ensures { result ≡ tuple_value units.0 units.1 }
{
    match units {
        (first, None) => char_of_unit(first),
        (first, Some(second)) => char_of_pair(first, second),
    }
}

/// The number of a leading and a trailing surrogate: ten bits of each, above 0x10000.
#[inline(always)]
pub(crate) fn value_of_pair(first: u16, second: u16) -> u32
    ensures value { result ≡ pair_value first second }
    ensures bound { result < 0x11_0000 }
{
    0x1_0000 + (((first & 0x3ff) as u32) << 10 | (second & 0x3ff) as u32)
}

// The first unit of the pair of a scalar.
#[inline(always)]
fn leading_surrogate(s: u32) -> u16
    requires low { 0x1_0000 ≤ s }
    requires high { s < 0x11_0000 }
    ensures { result ≡ 0xD800 + (s - 0x1_0000) / 1024 }
{
    // 0xd800 without the 0x40 that 0x10000 has in these bits.
    0xd7c0 + (s >> 10) as u16
}

// The second unit of the pair of a scalar.
#[inline(always)]
fn trailing_surrogate(s: u32) -> u16
    requires { 0x1_0000 ≤ s }
    ensures { result ≡ 0xDC00 + (s - 0x1_0000) % 1024 }
{
    0xdc00 + (s & 0x3ff) as u16
}

// Returns true if the unit is a surrogate, leading or trailing.
#[inline(always)]
fn is_surrogate(unit: u16) -> bool
    ensures { result ≡ is_surrogate unit }
{
    unit & 0xf800 == 0xd800
}

// Returns true if a surrogate, counted from the first one, and the unit after it are a leading and a trailing
// one: counted like this both are then below 0x400, and one comparison covers both.
#[inline(always)]
fn is_pair(high: u32, second: u16) -> bool
    ensures { result ≡ (nat_lt high 0x400 && is_trailing_surrogate second) }
{
    let low = (second as u32).wrapping_sub(0xdc00);
    (high >> 10) + (low >> 10) == 0
}

// Why a surrogate is part of no code: it is a trailing one, or otherwise the error given.
#[inline(always)]
fn unpaired(first: u16, otherwise: Utf16SliceError) -> Utf16SliceError
    ensures { result ≡ (if is_trailing_surrogate first then FirstIsTrailingSurrogate else otherwise) }
{
    if is_trailing_surrogate(first) {
        Utf16SliceError::FirstIsTrailingSurrogate
    } else {
        otherwise
    }
}

// The character of a unit that is no surrogate.
#[inline(always)]
fn char_of_unit(unit: u16) -> char
    requires { is_surrogate unit ≡ false }
    ensures { result ≡ unit }
{
    // A number of 16 bits that is no surrogate is a scalar.
    unsafe { char::from_u32_unchecked(unit as u32) }
}

// The character of a leading and a trailing surrogate, whatever the units are.
#[inline(always)]
fn char_of_pair(first: u16, second: u16) -> char
    ensures { result ≡ pair_value first second }
{
    // The number of a pair is above 0xffff and below 0x110000.
    unsafe { char::from_u32_unchecked(value_of_pair(first, second)) }
}

// The character of units that are known to be a pair: two subtractions take fewer instructions than two
// masks.
#[inline(always)]
fn char_of_surrogates(first: u16, second: u16) -> char
    requires { (is_leading_surrogate first && is_trailing_surrogate second) ≡ true }
    ensures { result ≡ pair_value first second }
{
    let high = first as u32 - 0xd800;
    let low = second as u32 - 0xdc00;
    unsafe { char::from_u32_unchecked(0x1_0000 + (high << 10) + low) }
}
