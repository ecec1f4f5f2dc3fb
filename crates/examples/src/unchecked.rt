//! Conditions of the unchecked calls, established by tests: after the checked call, for a value's own bytes
//! or units, and after a look at the units.
ghost use Rattle.std.specs.Prelude.{◌≡◌};

use encode_unicode::{CharExt, U16UtfExt, Utf8Char, Utf16Char};

/// A unit that range comparisons show to be no surrogate.
pub fn from_unit_by_range(unit: u16) -> Option<Utf16Char> {
    if unit < 0xd800 || unit >= 0xe000 {
        Some(Utf16Char::from_tuple_unchecked((unit, None)))
    } else {
        None
    }
}

/// A unit that the crate's own tests show to be no surrogate.
pub fn from_unit_by_need(unit: u16) -> Option<Utf16Char> {
    match unit.utf16_needs_extra_unit() {
        Ok(false) => Some(Utf16Char::from_bmp_unchecked(unit)),
        _ => None,
    }
}

/// Two units that were seen to be a leading and a trailing surrogate.
pub fn from_pair(first: u16, second: u16) -> Option<Utf16Char> {
    if first.is_utf16_leading_surrogate() && second & 0xfc00 == 0xdc00 {
        Some(Utf16Char::from_tuple_unchecked((first, Some(second))))
    } else {
        None
    }
}

/// A `char`, after the checked call took the tuple.
pub fn char_of_tuple_twice(units: (u16, Option<u16>)) -> Option<char> {
    match char::from_utf16_tuple(units) {
        Ok(_) => Some(char::from_utf16_tuple_unchecked(units)),
        Err(_) => None,
    }
}

/// A character's own units.
pub fn own_tuple(c: Utf16Char) -> Utf16Char
    ensures { result ≡ c }
{
    Utf16Char::from_tuple_unchecked(c.to_tuple())
}

/// An array that was seen to be the one that its character has.
pub fn array_twice(array: [u8; 4]) -> Option<Utf8Char> {
    let c = Utf8Char::from_array(array).ok()?;
    let (own, _) = c.to_array();
    if own == array {
        Some(Utf8Char::from_array_unchecked(array))
    } else {
        None
    }
}

/// After the checked call took the bytes.
pub fn slice_twice(bytes: &[u8]) -> Option<(Utf8Char, usize)> {
    Utf8Char::from_slice_start(bytes).ok()?;
    Some(Utf8Char::from_slice_start_unchecked(bytes))
}

/// A character's own bytes, as they are lent.
pub fn own_bytes(c: Utf8Char) -> Utf8Char
    ensures { result ≡ c }
{
    let (same, _) = Utf8Char::from_slice_start_unchecked(c.as_bytes());
    same
}

/// After the checked call took the units.
pub fn units_twice(units: &[u16]) -> Option<(Utf16Char, usize)> {
    Utf16Char::from_slice_start(units).ok()?;
    Some(Utf16Char::from_slice_start_unchecked(units))
}

/// Bytes that were seen to be one code.
pub fn exact_twice(bytes: &[u8]) -> Option<char> {
    match char::from_utf8_slice_start(bytes) {
        Ok((_, len)) if len == bytes.len() => Some(char::from_utf8_exact_slice_unchecked(bytes)),
        _ => None,
    }
}

/// A character's own bytes as one code.
pub fn own_exact(c: Utf8Char) -> char
    ensures { result ≡ c }
{
    char::from_utf8_exact_slice_unchecked(c.as_bytes())
}

/// After the checked call took the byte.
pub fn ascii_twice(byte: u8) -> Option<Utf8Char> {
    Utf8Char::from_ascii(byte).ok()?;
    Some(Utf8Char::from_ascii_unchecked(byte))
}

/// After the checked call took the unit.
pub fn bmp_twice(unit: u16) -> Option<Utf16Char> {
    Utf16Char::from_bmp(unit).ok()?;
    Some(Utf16Char::from_bmp_unchecked(unit))
}

/// The unit of a character that has one.
pub fn own_bmp(c: Utf16Char) -> Option<Utf16Char> {
    match c.to_tuple() {
        (unit, None) => Some(Utf16Char::from_bmp_unchecked(unit)),
        _ => None,
    }
}
