//! Texts: whether a text can be cut, and what a character adds to one.
ghost use Rattle.std.specs.Prelude.{◌≡◌, ◌++◌, IfOk, OnOk, flat_map, length, map, reverse, string_bytes, take};
ghost use Rattle.std.specs.Str.{chars};
ghost use Rattle.encode_unicode.specs.Chars.{ascii_uppercase};
ghost use Rattle.encode_unicode.specs.Code.{utf8, utf16};

use encode_unicode::laws::codes_are_the_text;
use encode_unicode::{StrExt, Utf8Char, Utf8CharIterExt, Utf16Char, Utf16CharIterExt};
use std::alloc::{AllocError, Allocator};

/// The text after its first character.
pub fn after_first(text: &str) -> &str {
    match Utf8Char::from_str_start(text) {
        Ok((_, len)) => &text[len..],
        Err(_) => text,
    }
}

/// The first character as a text, by way of UTF-16.
pub fn first_as_text(text: &str) -> &str {
    match Utf16Char::from_str_start(text) {
        Ok((_, len)) => &text[..len],
        Err(_) => "",
    }
}

/// Appends a character to a text.
pub fn push<A: Allocator>(text: &mut String<A>, c: Utf8Char) -> Result<(), AllocError>
    ensures { OnOk result (string_bytes text.new ≡ string_bytes text.old ++ utf8 c) }
{
    text.push(c.to_char())
}

/// Appends a `char` to a text. std encodes it: the lemma says that its UTF-8 is ours.
#[tactic(auto, using(encode_unicode::proofs::ForCallers::utf8_is_std))]
pub fn push_char<A: Allocator>(text: &mut String<A>, c: char) -> Result<(), AllocError>
    ensures { OnOk result (string_bytes text.new ≡ string_bytes text.old ++ utf8 c) }
{
    text.push(c)
}

/// The text itself, character by character. The law says that its encoded characters, joined, are the text.
pub fn copied<A: Allocator>(alloc: A, text: &str) -> Result<String<A>, AllocError>
    ensures { IfOk result (λ made. string_bytes made ≡ text.now) }
{
    codes_are_the_text();
    text.utf8chars().collect_string(alloc)
}

/// The text with its ASCII letters in upper case.
pub fn raised<A: Allocator>(alloc: A, text: &str) -> Result<String<A>, AllocError>
    ensures { IfOk result (λ made. string_bytes made ≡ flat_map utf8 (map ascii_uppercase (chars text.now))) }
{
    let letters = text.utf8chars().map(|c| c.to_ascii_uppercase());
    letters.collect_string(alloc)
}

/// The characters of the text, last first.
pub fn reversed<A: Allocator>(alloc: A, text: &str) -> Result<String<A>, AllocError>
    ensures { IfOk result (λ made. string_bytes made ≡ flat_map utf8 (reverse (chars text.now))) }
{
    text.utf8chars().rev().collect_string(alloc)
}

/// The first `count` characters of the text, or all of them.
pub fn shortened<A: Allocator>(alloc: A, text: &str, count: usize) -> Result<String<A>, AllocError>
    ensures { IfOk result (λ made. string_bytes made ≡ flat_map utf8 (take count (chars text.now))) }
{
    text.utf8chars().take(count).collect_string(alloc)
}

/// Two texts, one after the other, as units.
pub fn joined_units<A: Allocator>(
    alloc: A,
    first: &str,
    second: &str,
) -> Result<Vec<u16, A>, AllocError>
    ensures { IfOk result (λ units. units.items ≡ flat_map utf16 (chars first.now ++ chars second.now)) }
{
    let both = first.utf16chars().chain(second.utf16chars());
    both.collect_units(alloc)
}

/// Adds the characters of another text, last first.
pub fn add_reversed<A: Allocator>(text: &mut String<A>, more: &str) -> Result<(), AllocError>
    ensures { OnOk result (string_bytes text.new ≡
        string_bytes text.old ++ flat_map utf8 (reverse (chars more.now))) }
{
    more.utf8chars().rev().extend_string(text)
}

/// The text up to `count` characters, or all of it, without an allocation.
pub fn front(text: &str, count: usize) -> &str
    ensures codes { result.now ≡ flat_map utf8 (take count (chars text.now)) }
    ensures chars { chars result.now ≡ take count (chars text.now) }
{
    match text.utf8char_indices().nth(count) {
        Some((place, _)) => &text[..place],
        None => text,
    }
}

/// The offset of the character after `count` others, or the length.
pub fn offset_of(text: &str, count: usize) -> usize
    ensures { result ≡ length (flat_map utf8 (take count (chars text.now))) }
{
    match text.utf8char_indices().nth(count) {
        Some((place, _)) => place,
        None => text.len(),
    }
}
