//! Strings of JSON in bytes that may be damaged. No error hides a quote or a backslash, so they are always found, and
//! damage inside a string does not extend past its closing quote.
ghost use Rattle.std.specs.Prelude.{◌≡◌, false};
ghost use Rattle.run_examples.specs.Strings.{string_end};

use encode_unicode::{U8SliceExt, laws};

/// The offset of the quote that closes a string, in the bytes after the quote that opens it.
pub fn closing_quote(bytes: &[u8]) -> Option<usize>
    ensures { result ≡ string_end false 0 bytes.now }
{
    laws::ascii_stands_alone();
    laws::pieces_never_overlap();
    let mut escaped = false;
    for (place, _, _) in bytes.utf8char_indices() {
        let byte = bytes[place];
        if escaped {
            escaped = false;
        } else if byte == b'"' {
            return Some(place);
        } else {
            escaped = byte == b'\\';
        }
    }
    None
}
