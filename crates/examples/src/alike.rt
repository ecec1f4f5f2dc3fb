//! What was encoded decodes to the same, and calls with one argument return the same.
ghost use Rattle.std.specs.Prelude.{◌≡◌, IsTrue};

use encode_unicode::{CharExt, U8SliceExt, U8UtfExt, Utf8Char, Utf16Char};

/// Encodes a character to an array and decodes it.
pub fn array_and_back(c: Utf8Char) -> Utf8Char
    ensures { result ≡ c }
{
    Utf8Char::from_array(c.to_array().0).unwrap()
}

/// Encodes a character to a text and decodes it.
pub fn text_and_back(c: Utf8Char) -> Utf8Char
    ensures { result ≡ c }
{
    c.as_str().parse().unwrap()
}

/// Encodes a character to a buffer and decodes it.
pub fn buffer_and_back(c: Utf8Char) -> Utf8Char
    ensures { result ≡ c }
{
    let mut buffer = [0xff; 6];
    let _ = c.to_slice(&mut buffer);
    let (same, _) = Utf8Char::from_slice_start(&buffer).unwrap();
    same
}

/// Encodes a character to one or two units and decodes them.
pub fn tuple_and_back(c: Utf16Char) -> Utf16Char
    ensures { result ≡ c }
{
    Utf16Char::from_tuple(c.to_tuple()).unwrap()
}

/// Encodes a character to a slice of units and decodes it.
pub fn unit_view_and_back(c: Utf16Char) -> Utf16Char
    ensures { result ≡ c }
{
    let (same, _) = Utf16Char::from_slice_start(c.as_units()).unwrap();
    same
}

/// Encodes a `char` to UTF-8 and decodes it.
pub fn char_by_bytes(c: char) -> char
    ensures { result ≡ c }
{
    let (array, len) = c.to_utf8_array();
    let (same, _) = char::from_utf8_slice_start(&array[..len]).unwrap();
    same
}

/// Converts a `char` to its number and back.
pub fn char_by_number(c: char) -> char
    ensures { result ≡ c }
{
    char::from_u32_detailed(c as u32).unwrap()
}

/// Returns true if the checked and the unchecked call agree on a slice.
pub fn forms_agree(bytes: &[u8]) -> bool
    ensures { IsTrue result }
{
    match Utf8Char::from_slice_start(bytes) {
        Ok(first) => Utf8Char::from_slice_start_unchecked(bytes) == first,
        Err(_) => true,
    }
}

/// Returns true if the checked and the unchecked call agree on how many bytes follow a byte.
pub fn counts_agree(byte: u8) -> bool
    ensures { IsTrue result }
{
    match byte.extra_utf8_bytes() {
        Ok(count) => byte.extra_utf8_bytes_unchecked() == count,
        Err(_) => true,
    }
}

/// Returns true if the methods of `char` and of `Utf8Char` agree on the same bytes.
pub fn types_agree(bytes: &[u8]) -> bool
    ensures { IsTrue result }
{
    match (
        char::from_utf8_slice_start(bytes),
        Utf8Char::from_slice_start(bytes),
    ) {
        (Ok((c, len)), Ok((d, same))) => d.to_char() == c && len == same,
        (Err(e), Err(f)) => e == f,
        _ => false,
    }
}

/// Returns true if the decoder's first item agrees with decoding the front of the same bytes.
pub fn first_item_agrees(bytes: &[u8]) -> bool
    ensures { IsTrue result }
{
    match (
        bytes.utf8char_indices().next(),
        Utf8Char::from_slice_start(bytes),
    ) {
        (Some((0, Ok(c), len)), Ok((d, same))) => c == d && len == same,
        (Some((0, Err(e), 1)), Err(f)) => e == f,
        (None, Err(_)) => bytes.is_empty(),
        _ => false,
    }
}
