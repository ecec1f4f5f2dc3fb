//! A tokeniser of bytes that may be damaged. An ASCII delimiter is always found: no error hides it.
ghost use Rattle.std.specs.Prelude.{◌<◌, IfOk, map};
ghost use Rattle.examples.specs.Tokens.{AreTokensOf};

use encode_unicode::{U8SliceExt, laws};
use std::alloc::{AllocError, Allocator};

/// The tokens between the delimiters, the empty ones too.
pub fn tokens<'a, A: Allocator>(
    alloc: A,
    bytes: &'a [u8],
    delimiter: u8,
) -> Result<Vec<&'a [u8], A>, AllocError>
    requires { delimiter < 128 }
    ensures { IfOk result (λ tokens.
        AreTokensOf bytes.now delimiter (map (λ token. token.now) tokens.items)) }
{
    laws::ascii_stands_alone();
    laws::codes_never_overlap();
    let mut tokens = Vec::new(alloc);
    let mut start = 0;
    for (place, answer, _) in bytes.utf8char_indices() {
        if let Ok(c) = answer {
            if c.eq_u8(delimiter) {
                tokens.push(&bytes[start..place])?;
                start = place + 1;
            }
        }
    }
    tokens.push(&bytes[start..])?;
    Ok(tokens)
}

/// The words between spaces. The prover does not know that an offset carried from one iteration to the next is in
/// bounds, so `get` slices there.
pub fn words<A: Allocator>(alloc: A, bytes: &[u8]) -> Result<Vec<&[u8], A>, AllocError> {
    let mut words = Vec::new(alloc);
    let mut start = 0;
    for (place, answer, len) in bytes.utf8char_indices() {
        if answer.is_ok_and(|c| c.eq_char(' ')) {
            words.push(bytes.get(start..place).unwrap_or(&[]))?;
            start = place + len;
        }
    }
    words.push(bytes.get(start..).unwrap_or(&[]))?;
    Ok(words)
}

/// The line with this number. No error hides a line feed, so std's `split` finds the lines.
pub fn line(bytes: &[u8], number: usize) -> Option<&[u8]> {
    bytes.split(|byte| *byte == b'\n').nth(number)
}

/// The bytes before the first equals sign, and those after it.
pub fn key_and_value(bytes: &[u8]) -> Option<(&[u8], &[u8])> {
    for (place, answer, len) in bytes.utf8char_indices() {
        if answer.is_ok_and(|c| c.eq_char('=')) {
            return Some((&bytes[0..place], &bytes[place + len..]));
        }
    }
    None
}
