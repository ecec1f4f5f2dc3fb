//! What `{:?}` and `{:#?}` write of each iterator. The Rust crate wrote these texts, except for splitters and
//! for what is left of a merger, which it does not show or does not have.
use encode_unicode::iterator::{Utf8Iterator, Utf16Iterator};
use encode_unicode::{
    StrExt, U8IterExt, U8SliceExt, U16IterExt, U16SliceExt, Utf8CharIterExt, Utf16CharIterExt,
};
use std::alloc::{AllocError, Global};
use std::fmt::Debug;
use std::test::Fail;

// A character of each length, then one that is escaped, and one that each test takes from the end.
const TEXT: &str = "a\u{e9}\u{1f4a3}\"\n";

// Returns true if `{:?}` writes this line, and `{:#?}` these lines.
fn writes<T: Debug>(alloc: Global, value: &T, line: &str, lines: &str) -> Result<bool, AllocError> {
    let one = format!(in alloc; "{value:?}")?;
    let many = format!(in alloc; "{value:#?}")?;
    Ok(one.as_str() == line && many.as_str() == lines)
}

// The bytes and the units of U+1F4A3 without the first of each.
fn begun_codes() -> (Utf8Iterator, Utf16Iterator) {
    let (mut bytes, mut units) = (
        Utf8Iterator::from('\u{1f4a3}'),
        Utf16Iterator::from('\u{1f4a3}'),
    );
    let _ = (bytes.next(), units.next());
    (bytes, units)
}

#[test]
fn iterators_over_a_code_are_lists(rt: HostRuntime) -> Result<(), Fail> {
    let alloc = rt.alloc();
    let (mut bytes, mut units) = begun_codes();
    let line = "[159, 146, 163]";
    assert!(rt; writes(alloc, &bytes, line, line)?);
    assert!(rt; writes(alloc, &units, "[56483]", "[56483]")?);
    let _ = (bytes.nth(2), units.next());
    assert!(rt; writes(alloc, &bytes, "[]", "[]")? && writes(alloc, &units, "[]", "[]")?);
    let whole = Utf16Iterator::from('\u{1f4a3}');
    assert!(rt; writes(alloc, &whole, "[55357, 56483]", "[55357, 56483]")?);
    Ok(())
}

#[test]
fn decoders_show_their_windows(rt: HostRuntime) -> Result<(), Fail> {
    let mut decoder = b"\xc3\xa9\x80\xe2\x82\xac\x41".utf8char_indices();
    let _ = (decoder.next(), decoder.next(), decoder.next_back());
    let line = "Utf8CharDecoder { bytes[3..]: [226, 130, 172] }";
    assert!(rt; writes(rt.alloc(), &decoder, line, line)?);
    let mut decoder = [0xd83d, 0xdca3, 0xdc00, 0x20ac, 0x0041].utf16char_indices();
    let _ = (decoder.next(), decoder.next());
    let line = "Utf16CharDecoder { units[3..]: [8364, 65] }";
    assert!(rt; writes(rt.alloc(), &decoder, line, line)?);
    Ok(())
}

#[test]
fn indices_show_their_place_and_text(rt: HostRuntime) -> Result<(), Fail> {
    let mut indices = TEXT.utf8char_indices();
    let _ = (indices.next(), indices.next(), indices.next_back());
    let line = "Utf8CharIndices(3, \"\u{1f4a3}\\\"\")";
    let lines = "Utf8CharIndices(\n    3,\n    \"\u{1f4a3}\\\"\",\n)";
    assert!(rt; writes(rt.alloc(), &indices, line, lines)?);
    let mut indices = TEXT.utf16char_indices();
    let _ = (indices.next(), indices.next(), indices.next_back());
    let line = "Utf16CharIndices(3, \"\u{1f4a3}\\\"\")";
    let lines = "Utf16CharIndices(\n    3,\n    \"\u{1f4a3}\\\"\",\n)";
    assert!(rt; writes(rt.alloc(), &indices, line, lines)?);
    Ok(())
}

#[test]
fn characters_of_a_text_show_the_text(rt: HostRuntime) -> Result<(), Fail> {
    let mut chars = TEXT.utf8chars();
    let _ = (chars.next(), chars.next(), chars.next_back());
    let line = "Utf8Chars(\"\u{1f4a3}\\\"\")";
    let lines = "Utf8Chars(\n    \"\u{1f4a3}\\\"\",\n)";
    assert!(rt; writes(rt.alloc(), &chars, line, lines)?);
    let mut chars = TEXT.utf16chars();
    let _ = (chars.next(), chars.next(), chars.next_back());
    let line = "Utf16Chars(\"\u{1f4a3}\\\"\")";
    let lines = "Utf16Chars(\n    \"\u{1f4a3}\\\"\",\n)";
    assert!(rt; writes(rt.alloc(), &chars, line, lines)?);
    Ok(())
}

#[test]
fn mergers_show_what_they_hold(rt: HostRuntime) -> Result<(), Fail> {
    let (bytes, units) = begun_codes();
    let mut merger = bytes.to_utf8chars();
    let _ = merger.next();
    let line = "Utf8CharMerger { buffered: [], inner: [146, 163] }";
    let lines = "Utf8CharMerger {\n    buffered: [],\n    inner: [146, 163],\n}";
    assert!(rt; writes(rt.alloc(), &merger, line, lines)?);
    let merger = units.to_utf16chars();
    let line = "Utf16CharMerger { buffered: None, inner: [56483] }";
    let lines = "Utf16CharMerger {\n    buffered: None,\n    inner: [56483],\n}";
    assert!(rt; writes(rt.alloc(), &merger, line, lines)?);
    Ok(())
}

// Returns true if the text begins so.
fn begins<T: Debug>(alloc: Global, value: &T, front: &str) -> Result<bool, AllocError> {
    Ok(format!(in alloc; "{value:?}")?.starts_with(front))
}

// The output of std's own iterator is not compared.
#[test]
fn held_elements_are_shown_in_order(rt: HostRuntime) -> Result<(), Fail> {
    let alloc = rt.alloc();
    let mut merger = [0xf0, 0xa1, 0x92, 0x58, 0xcc]
        .iter()
        .copied()
        .to_utf8chars();
    let _ = merger.next();
    let front = "Utf8CharMerger { buffered: [161, 146, 88], inner: ";
    assert!(rt; begins(alloc, &merger, front)?);
    let mut rest = merger.into_remaining_bytes();
    let _ = rest.next();
    assert!(rt;
        begins(
            alloc,
            &rest,
            "RemainingBytes { buffered: [146, 88], inner: "
        )?
    );
    let mut merger = [0xd901, 0x0078, 0x0053].iter().copied().to_utf16chars();
    let _ = merger.next();
    assert!(rt;
        begins(
            alloc,
            &merger,
            "Utf16CharMerger { buffered: Some(120), inner: "
        )?
    );
    let mut rest = merger.into_remaining_units();
    assert!(rt;
        begins(
            alloc,
            &rest,
            "RemainingUnits { buffered: Some(120), inner: "
        )?
    );
    let _ = rest.next();
    assert!(rt; begins(alloc, &rest, "RemainingUnits { buffered: None, inner: ")?);
    Ok(())
}

#[test]
fn splitters_show_what_is_left_of_the_begun_code(rt: HostRuntime) -> Result<(), Fail> {
    let mut bytes = "\u{20ac}a".utf8chars().to_bytes();
    let _ = bytes.next();
    let line = "Utf8CharSplitter { source: Utf8Chars(\"a\"), begun: [130, 172] }";
    let lines =
        "Utf8CharSplitter {\n    source: Utf8Chars(\n        \"a\",\n    ),\n    begun: [130, 172],\n}";
    assert!(rt; writes(rt.alloc(), &bytes, line, lines)?);
    let mut units = "\u{1f4a3}b".utf16chars().to_units();
    let line = "Utf16CharSplitter { source: Utf16Chars(\"\u{1f4a3}b\"), begun: [] }";
    assert!(rt; begins(rt.alloc(), &units, line)?);
    let _ = units.next();
    let line = "Utf16CharSplitter { source: Utf16Chars(\"b\"), begun: [56483] }";
    let lines =
        "Utf16CharSplitter {\n    source: Utf16Chars(\n        \"b\",\n    ),\n    begun: [56483],\n}";
    assert!(rt; writes(rt.alloc(), &units, line, lines)?);
    Ok(())
}
