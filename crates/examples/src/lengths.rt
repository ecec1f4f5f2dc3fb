//! Lengths: a character has 1 to 4 bytes, or 1 or 2 units, so small buffers are enough and loops over a slice
//! end.
ghost use Rattle.std.specs.Prelude.{◌≡◌, ◌≤◌, length};

use encode_unicode::laws::forms_are_bounded;
use encode_unicode::{CharExt, Utf8Char, Utf16Char};

/// The last byte of the code of a character.
pub fn last_byte(c: Utf8Char) -> u8 {
    let mut buffer = [0; 4];
    let len = c.to_slice(&mut buffer);
    buffer[len - 1]
}

/// The last byte of a character, from the slice that it lends.
pub fn last_of_view(c: Utf8Char) -> u8 {
    let code = c.as_bytes();
    code[code.len() - 1]
}

/// The first byte of a text of one character.
pub fn first_of_text(c: Utf8Char) -> u8 {
    c.as_str().as_bytes()[0]
}

/// The byte that an ASCII character is.
pub fn ascii_byte(c: Utf8Char) -> Option<u8> {
    if c.is_ascii() {
        Some(c.as_bytes()[0])
    } else {
        None
    }
}

/// The number of characters at the front of some bytes, before the first invalid byte.
pub fn characters_in_front(bytes: &[u8]) -> usize
    ensures { result ≤ length bytes.now }
{
    let mut rest = bytes;
    let mut count = 0;
    while let Ok((_, len)) = Utf8Char::from_slice_start(rest) {
        rest = &rest[len..];
        count += 1;
    }
    count
}

/// The number of bytes of the character in UTF-8, and of units in UTF-16, which the law bounds.
pub fn sizes(c: char) -> (usize, usize)
    ensures { result.1 ≤ result.0 }
{
    forms_are_bounded();
    (c.to_utf8().len(), c.to_utf16().len())
}
