//! Chains over a decoder: contracts state the result by `pieces`, the list of the decoder's items.
ghost use Rattle.std.specs.Prelude.{◌≡◌, ◌+◌, None, cond, count_by, IfSome, ◌≤◌, is_err, is_ok, max, nat_eq, not, position, reverse, slice_get};
ghost use Rattle.std.specs.List.{filter_map, find, fold, last_or, list_all, list_any};
ghost use Rattle.std.specs.Result.{result_ok};
ghost use Rattle.std.specs.Str.{chars};
ghost use Rattle.encode_unicode.specs.Pieces.{pieces, placed_chars};

use encode_unicode::error::Utf8Error;
use encode_unicode::laws::{lengths_are_bounded, runs_are_bounded};
use encode_unicode::{StrExt, U8SliceExt, Utf8Char};

/// The number of invalid bytes.
pub fn fault_count(bytes: &[u8]) -> usize
    ensures { result ≡ count_by (λ x. is_err x.1) (pieces bytes.now) }
{
    bytes.utf8char_indices().filter(|x| x.1.is_err()).count()
}

/// The number of characters before the first invalid byte.
pub fn characters_before(bytes: &[u8]) -> Option<usize>
    ensures { result ≡ position (λ x. is_err x.1) (pieces bytes.now) }
{
    bytes.utf8char_indices().position(|x| x.1.is_err())
}

/// Returns true if one of the bytes is invalid.
pub fn has_fault(bytes: &[u8]) -> bool
    ensures { result ≡ list_any (λ x. is_err x.1) (pieces bytes.now) }
{
    bytes.utf8char_indices().any(|x| x.1.is_err())
}

/// Returns true if none of the bytes is invalid.
pub fn has_no_fault(bytes: &[u8]) -> bool
    ensures { result ≡ list_all (λ x. is_ok x.1) (pieces bytes.now) }
{
    bytes.utf8char_indices().all(|x| x.1.is_ok())
}

/// The bytes before the first invalid one, which are all if there is none.
pub fn before_fault(bytes: &[u8]) -> &[u8] {
    match bytes.utf8char_indices().find(|x| x.1.is_err()) {
        Some((place, _, _)) => &bytes[..place],
        None => bytes,
    }
}

/// The bytes of the first piece that is no ASCII character.
pub fn first_beyond_ascii(bytes: &[u8]) -> &[u8] {
    match bytes.utf8char_indices().find(|x| x.2 > 1) {
        Some((place, _, len)) => &bytes[place..place + len],
        None => &[],
    }
}

/// The number of spaces that the text begins with; `None` if it has nothing else.
pub fn leading_spaces(text: &str) -> Option<usize>
    ensures { result ≡ position (λ c. not (nat_eq c 32)) (chars text.now) }
{
    text.utf8chars().position(|c| !c.eq_char(' '))
}

/// The first tab of the text, with its offset.
pub fn first_tab(text: &str) -> Option<(usize, Utf8Char)>
    ensures { result ≡ find (λ x. nat_eq x.1 9) (placed_chars 0 (chars text.now)) }
{
    text.utf8char_indices().find(|x| x.1.eq_char('\t'))
}

/// The last character of the text that is no space.
pub fn last_no_space(text: &str) -> Option<Utf8Char>
    ensures { result ≡ find (λ c. not (nat_eq c 32)) (reverse (chars text.now)) }
{
    text.utf8chars().rev().find(|c| !c.eq_char(' '))
}

/// The first character of the text.
pub fn first_character(text: &str) -> Option<Utf8Char>
    ensures { result ≡ slice_get (chars text.now) 0 }
{
    text.utf8chars().next()
}

/// The character after `count` others.
pub fn nth_character(text: &str, count: usize) -> Option<Utf8Char>
    ensures { result ≡ slice_get (chars text.now) count }
{
    text.utf8chars().nth(count)
}

/// The length of the longest piece in bytes: at most 4.
pub fn longest_piece(bytes: &[u8]) -> Option<usize>
    ensures { IfSome result (λ len. len ≤ 4) }
{
    bytes.utf8char_indices().map(|x| x.2).max()
}

/// The text after its first space, which is all of it if there is none.
pub fn after_space(text: &str) -> &str {
    match text.utf8char_indices().find(|x| x.1.eq_char(' ')) {
        Some((place, c)) => &text[place + c.len()..],
        None => text,
    }
}

/// The text without the spaces that end it.
pub fn trimmed(text: &str) -> &str {
    match text.utf8char_indices().rev().find(|x| !x.1.eq_char(' ')) {
        Some((place, c)) => &text[..place + c.len()],
        None => "",
    }
}

/// The bytes after the last line feed, which are all if there is none.
pub fn last_line(bytes: &[u8]) -> &[u8] {
    let feed = bytes
        .utf8char_indices()
        .rev()
        .find(|x| x.1.is_ok_and(|c| c.eq_char('\n')));
    match feed {
        Some((place, _, len)) => &bytes[place + len..],
        None => bytes,
    }
}

/// The length of the text in UTF-16, in units.
pub fn units_needed(text: &str) -> usize {
    text.utf16chars().map(|c| c.len()).sum()
}

/// The sum of the lengths of the pieces in bytes. The law says that it fits.
pub fn bytes_covered(bytes: &[u8]) -> usize {
    lengths_are_bounded();
    bytes.utf8char_indices().map(|x| x.2).sum()
}

/// The number of line feeds in the text.
pub fn line_feeds(text: &str) -> usize
    ensures { result ≡ count_by (λ c. nat_eq c 10) (chars text.now) }
{
    text.utf8chars().filter(|c| c.eq_char('\n')).count()
}

/// The number of line feeds in bytes that may be damaged.
pub fn line_feeds_of_bytes(bytes: &[u8]) -> usize
    ensures { result ≡ count_by (λ c. nat_eq c 10) (filter_map (λ x. result_ok x.1) (pieces bytes.now)) }
{
    let characters = bytes.utf8char_indices().filter_map(|x| x.1.ok());
    characters.filter(|c| c.eq_char('\n')).count()
}

/// The highest scalar of the text, or 0 if it is empty.
pub fn highest(text: &str) -> u32
    ensures { result ≡ fold max 0 (chars text.now) }
{
    text.utf8chars()
        .fold(0, |most, c| most.max(c.to_char() as u32))
}

/// The number of invalid bytes, by `fold`.
pub fn faults_by_fold(bytes: &[u8]) -> usize
    ensures { result ≡ fold (λ count x. cond (is_err x.1) (count + 1) count) 0 (pieces bytes.now) }
{
    runs_are_bounded();
    bytes
        .utf8char_indices()
        .fold(0, |count, x| if x.1.is_err() { count + 1 } else { count })
}

/// The last character of the text, from its end.
pub fn last_from_back(text: &str) -> Option<Utf8Char>
    ensures { result ≡ last_or None (chars text.now) }
{
    text.utf8chars().next_back()
}

/// The last piece of the bytes.
pub fn last_piece(bytes: &[u8]) -> Option<(usize, Result<Utf8Char, Utf8Error>, usize)>
    ensures { result ≡ last_or None (pieces bytes.now) }
{
    bytes.utf8char_indices().last()
}

/// The bytes before the first invalid one, by `filter` and `next`.
pub fn before_filtered(bytes: &[u8]) -> &[u8] {
    match bytes.utf8char_indices().filter(|x| x.1.is_err()).next() {
        Some((place, _, _)) => &bytes[..place],
        None => bytes,
    }
}

/// The text before its first space, by `filter` and `next`.
pub fn first_word(text: &str) -> &str {
    match text.utf8char_indices().filter(|x| x.1.eq_char(' ')).next() {
        Some((place, _)) => &text[..place],
        None => text,
    }
}
