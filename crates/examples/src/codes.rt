//! The encoded characters of bytes and units, element by element: that they are in the input, and what a
//! splitter gives.
ghost use Rattle.std.specs.Prelude.{◌≡◌, None, IfOk, IfSome, count_by, flat_map, length, nat_eq, nat_lt, reverse, slice_get, take};
ghost use Rattle.std.specs.List.{last_or, list_all, list_any};
ghost use Rattle.std.specs.Str.{chars};
ghost use Rattle.encode_unicode.specs.Code.{utf8, utf16};

use encode_unicode::{
    StrExt, U8SliceExt, U16SliceExt, Utf8Char, Utf8CharIterExt, Utf16Char, Utf16CharIterExt,
};
use std::alloc::{AllocError, Allocator};

/// The character that begins the bytes, and its own bytes.
pub fn first_code(bytes: &[u8]) -> Option<(Utf8Char, &[u8])>
    ensures { IfSome result (λ x. x.1.now ≡ utf8 x.0) }
{
    match bytes.utf8char_indices().next() {
        Some((front, Ok(c), len)) => Some((c, &bytes[front..front + len])),
        _ => None,
    }
}

/// The character that ends the bytes, and its own bytes.
pub fn last_code(bytes: &[u8]) -> Option<(Utf8Char, &[u8])>
    ensures { IfSome result (λ x. x.1.now ≡ utf8 x.0) }
{
    match bytes.utf8char_indices().next_back() {
        Some((place, Ok(c), _)) => Some((c, &bytes[place..])),
        _ => None,
    }
}

/// The first character, after invalid bytes if there are any, and its own bytes.
pub fn first_good_code(bytes: &[u8]) -> Option<(Utf8Char, &[u8])>
    ensures { IfSome result (λ x. x.1.now ≡ utf8 x.0) }
{
    match bytes.utf8char_indices().find(|x| x.1.is_ok()) {
        Some((place, Ok(c), len)) => Some((c, &bytes[place..place + len])),
        _ => None,
    }
}

/// The last character of the units, before invalid units if there are any, and its own units.
pub fn last_good_code(units: &[u16]) -> Option<(Utf16Char, &[u16])>
    ensures { IfSome result (λ x. x.1.now ≡ utf16 x.0) }
{
    match units.utf16char_indices().rev().find(|x| x.1.is_ok()) {
        Some((place, Ok(c), len)) => Some((c, &units[place..place + len])),
        _ => None,
    }
}

/// The length of the text in units.
pub fn unit_count(text: &str) -> usize
    ensures { result ≡ length (flat_map utf16 (chars text.now)) }
{
    text.utf16chars().to_units().count()
}

/// The number of spaces in the text, counted byte by byte.
pub fn spaces(text: &str) -> usize
    ensures { result ≡ count_by (λ b. nat_eq b 32) (flat_map utf8 (chars text.now)) }
{
    text.utf8chars().to_bytes().filter(|b| *b == 32).count()
}

/// Returns true if the text is ASCII only.
pub fn is_ascii(text: &str) -> bool
    ensures { result ≡ list_all (λ b. nat_lt b 128) (flat_map utf8 (chars text.now)) }
{
    text.utf8chars().to_bytes().all(|b| b < 128)
}

/// Returns true if a unit of the text is 0.
pub fn has_zero(text: &str) -> bool
    ensures { result ≡ list_any (λ unit. nat_eq unit 0) (flat_map utf16 (chars text.now)) }
{
    text.utf16chars().to_units().any(|unit| unit == 0)
}

/// The unit after `count` others.
pub fn nth_unit(text: &str, count: usize) -> Option<u16>
    ensures { result ≡ slice_get (flat_map utf16 (chars text.now)) count }
{
    text.utf16chars().to_units().nth(count)
}

/// The last byte of the text.
pub fn last_byte(text: &str) -> Option<u8>
    ensures { result ≡ last_or None (flat_map utf8 (chars text.now)) }
{
    text.utf8chars().to_bytes().last()
}

/// The first `count` bytes of the text, or all of them.
pub fn first_bytes<A: Allocator>(
    alloc: A,
    text: &str,
    count: usize,
) -> Result<Vec<u8, A>, AllocError>
    ensures { IfOk result (λ bytes. bytes.items ≡ take count (flat_map utf8 (chars text.now))) }
{
    text.utf8chars().to_bytes().take(count).collect(alloc)
}

/// The bytes of the characters, last character first.
pub fn turned_bytes<A: Allocator>(alloc: A, text: &str) -> Result<Vec<u8, A>, AllocError>
    ensures { IfOk result (λ bytes. bytes.items ≡ flat_map utf8 (reverse (chars text.now))) }
{
    text.utf8chars().rev().to_bytes().collect(alloc)
}
