//! The iterators over the characters of a text, as values and with what std has for iterators.
use encode_unicode::StrExt;
use encode_unicode::iterator::{Utf8CharIndices, Utf8Chars, Utf16CharIndices, Utf16Chars};
use std::test::Fail;

// The four iterators of a text, made through the trait bound.
fn iterators_of<'a, S: StrExt<'a> + Copy>(
    text: S,
) -> (
    Utf8CharIndices<'a>,
    Utf8Chars<'a>,
    Utf16CharIndices<'a>,
    Utf16Chars<'a>,
) {
    (
        text.utf8char_indices(),
        text.utf8chars(),
        text.utf16char_indices(),
        text.utf16chars(),
    )
}

// Returns true if each iterator has as many characters, at the same offsets.
fn has_characters(text: &str, count: usize) -> bool {
    let (indices, chars, unit_indices, unit_chars) = iterators_of(text);
    let plain = text.char_indices();
    indices.map(|(place, c)| (place, c.to_char())).eq(plain)
        && unit_indices
            .map(|(place, c)| (place, c.to_char()))
            .eq(text.char_indices())
        && chars.count() == count
        && unit_chars.map(|c| c.to_char()).eq(text.chars())
}

// Returns true if the characters come in reverse too.
fn comes_in_reverse(text: &str) -> bool {
    let (indices, _, _, unit_chars) = iterators_of(text);
    indices
        .rev()
        .map(|(place, c)| (place, c.to_char()))
        .eq(text.char_indices().rev())
        && unit_chars.last().map(|c| c.to_char()) == text.chars().last()
}

#[test]
fn what_std_has_for_iterators_works(rt: HostRuntime) {
    for (text, count) in [("a\u{e9}\u{1f4a3}", 3), ("abc", 3), ("", 0)] {
        assert!(rt; has_characters(text, count), "at {text}");
        assert!(rt; comes_in_reverse(text), "at {text}");
    }
}

// What is left of the text after its first character.
fn after_the_first(text: &str) -> &str {
    let mut chars = text.utf8chars();
    let _ = chars.next();
    chars.as_str()
}

// What is left of the text before its last character.
fn before_the_last(text: &str) -> &str {
    let mut indices = text.utf16char_indices();
    let _ = indices.next_back();
    indices.as_str()
}

#[test]
fn the_lent_text_outlives_the_iterator(rt: HostRuntime) {
    assert!(rt; after_the_first("\u{e9}tat") == "tat");
    assert!(rt; before_the_last("\u{e9}tat") == "\u{e9}ta");
}

#[test]
fn what_is_left_is_cloned(rt: HostRuntime) -> Result<(), Fail> {
    let (mut indices, chars, places, mut units) = iterators_of("abc");
    let _ = (indices.next(), units.next_back());
    let mut copy = indices.clone()?;
    let next = copy.next().map(|(place, c)| (place, c.to_char()));
    let same = next == Some((1, 'b'))
        && indices.as_str() == "bc"
        && chars.clone()?.as_str() == "abc"
        && places.clone()?.as_str() == "abc"
        && units.clone()?.as_str() == "ab";
    assert!(rt; same);
    Ok(())
}
