//! Sources of any kind: closures that capture, borrowed sources, and parts of a list that decode alike.
ghost use Rattle.std.specs.Prelude.{◌≡◌, IfSome};

use encode_unicode::{U8IterExt, Utf8Char, Utf8CharIterExt};

/// The first character of bytes that are masked. No byte after it is read.
pub fn first_unmasked(bytes: &[u8], mask: u8) -> Option<Utf8Char> {
    match bytes.iter().map(|b| b ^ mask).to_utf8chars().next() {
        Some(Ok(c)) => Some(c),
        _ => None,
    }
}

/// The number of pieces of the bytes without those equal to `left_out`.
pub fn pieces_without(bytes: &[u8], left_out: u8) -> usize {
    bytes
        .iter()
        .copied()
        .filter(|b| *b != left_out)
        .to_utf8chars()
        .count()
}

/// The first byte of the characters of some bytes, without the invalid ones.
pub fn first_byte_without_faults(bytes: &[u8]) -> Option<u8> {
    let shown = bytes.iter().copied().to_utf8chars();
    shown.filter_map(|answer| answer.ok()).to_bytes().next()
}

/// The first character of a source, which can be read on after it.
pub fn next_char<I: Iterator<Item = u8>>(source: &mut I) -> Option<Utf8Char>
    requires { I.can_next source.old }
{
    match source.to_utf8chars().next() {
        Some(Ok(c)) => Some(c),
        _ => None,
    }
}

/// The character that begins some bytes, decoded from only its own bytes.
pub fn first_by_itself(bytes: &[u8]) -> Option<(Utf8Char, Utf8Char)>
    ensures { IfSome result (λ x. x.0 ≡ x.1) }
{
    let (c, len) = Utf8Char::from_slice_start(bytes).ok()?;
    let (same, _) = Utf8Char::from_slice_start_unchecked(&bytes[..len]);
    Some((c, same))
}
