//! The calls that have a condition, called with encoded characters that are known to be valid.
ghost use Rattle.encode_unicode.specs.Decoded.{DecodesWhole};

use crate::orders::characters;
use encode_unicode::{CharExt, Utf8Char, Utf16Char};

// Decodes one encoded character by the unchecked call of the trait.
fn of_one_code<T: CharExt>(bytes: &[u8]) -> T
    requires { DecodesWhole bytes.now }
{
    T::from_utf8_exact_slice_unchecked(bytes)
}

// Encodes the character and decodes it again, unchecked.
fn of_own_code(c: char) -> char {
    let kept = Utf8Char::new(c);
    of_one_code(kept.as_bytes())
}

// The character of its own bytes.
fn of_own_bytes(c: char) -> Utf8Char {
    let (bytes, _) = c.to_utf8_array();
    Utf8Char::from_array_unchecked(bytes)
}

// The character of its own units.
fn of_own_units(c: char) -> Utf16Char {
    let units = c.to_utf16_array();
    Utf16Char::from_array_unchecked(units)
}

// The character that begins the bytes, if one does, and the length of its code.
fn at_front_of_bytes(src: &[u8]) -> Option<(Utf8Char, usize)> {
    let _front = Utf8Char::from_slice_start(src).ok()?;
    Some(Utf8Char::from_slice_start_unchecked(src))
}

// The character that begins the units, if one does, and the length of its code.
fn at_front_of_units(src: &[u16]) -> Option<(Utf16Char, usize)> {
    let _front = Utf16Char::from_slice_start(src).ok()?;
    Some(Utf16Char::from_slice_start_unchecked(src))
}

// The character of its own units; without a second unit the tuple has `None`.
fn of_own_tuple(c: char) -> [Utf16Char; 2] {
    let [first, second] = c.to_utf16_array();
    let padded = Utf16Char::from_tuple_unchecked((first, Some(second)));
    if second > 0 {
        return [padded, padded];
    }
    [padded, Utf16Char::from_tuple_unchecked((first, None))]
}

// The characters of the units, decoded through the trait bound, if no lone surrogate begins them.
fn of_pair<T: CharExt>(units: [u16; 2], tuple: (u16, Option<u16>)) -> Option<[T; 2]> {
    let (first, second) = tuple;
    if second.is_none() && first >= 0xd800 && first <= 0xdfff {
        return None;
    }
    let _pair = Utf16Char::from_tuple(tuple).ok()?;
    Some([
        T::from_utf16_array_unchecked(units),
        T::from_utf16_tuple_unchecked(tuple),
    ])
}

// Returns true if each unchecked call gives this character for its code.
fn answer_unchecked(c: char) -> bool {
    let (in_bytes, in_units) = (c.to_utf8(), c.to_utf16());
    of_own_code(c) == c
        && of_own_bytes(c) == in_bytes
        && of_own_units(c) == in_units
        && of_own_tuple(c) == [in_units; 2]
        && of_pair(c.to_utf16_array(), c.to_utf16_tuple()) == Some([c, c])
        && at_front_of_bytes(in_bytes.as_bytes()) == Some((in_bytes, in_bytes.len()))
        && at_front_of_units(in_units.as_units()) == Some((in_units, in_units.len()))
}

#[test]
fn codes_are_decoded_unchecked(rt: HostRuntime) {
    for c in characters() {
        assert!(rt; answer_unchecked(c), "at {c:?}");
    }
}

#[test]
fn single_elements_are_taken_unchecked(rt: HostRuntime) {
    let (in_bytes, in_units) = ('A'.to_utf8(), 'A'.to_utf16());
    assert!(rt; Utf8Char::from_ascii_unchecked(0x41) == in_bytes);
    assert!(rt; Utf16Char::from_bmp_unchecked(0x41) == in_units);
    assert!(rt; of_own_tuple('A') == [in_units; 2]);
}
