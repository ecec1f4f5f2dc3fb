//! The contents of a collection after characters were collected or appended.
use encode_unicode::{StrExt, U8IterExt, U16IterExt, Utf8CharIterExt, Utf16CharIterExt};
use std::alloc::{AllocError, Global};
use std::test::Fail;

// Returns true if the characters of the text, of either type, are collected to its bytes or units.
fn is_collected(alloc: Global, text: &str) -> Result<bool, AllocError> {
    let bytes = text.utf8chars().collect_bytes(alloc)?;
    let units = text.utf16chars().collect_units(alloc)?;
    let (of_bytes, of_units) = (
        text.utf8chars().collect_string(alloc)?,
        text.utf16chars().collect_string(alloc)?,
    );
    Ok(
        bytes.as_slice() == text.as_bytes()
            && units.iter().copied().eq(text.encode_utf16())
            && of_bytes.as_str() == text
            && of_units.as_str() == text,
    )
}

// Returns true if the encoded text is appended to what was in the collection.
fn follows(alloc: Global, text: &str) -> Result<bool, AllocError> {
    let mut bytes = vec![in alloc; 0x42u8]?;
    text.utf8chars().extend_bytes(&mut bytes)?;
    let mut units = vec![in alloc; 0x42u16]?;
    text.utf16chars().extend_units(&mut units)?;
    let mut of_bytes = String::from_str(alloc, "a")?;
    text.utf8chars().extend_string(&mut of_bytes)?;
    let mut of_units = String::from_str(alloc, "a")?;
    text.utf16chars().extend_string(&mut of_units)?;
    Ok(
        bytes.as_slice().strip_prefix([0x42].as_slice()) == Some(text.as_bytes())
            && units.first() == Some(&0x42)
            && units.iter().copied().skip(1).eq(text.encode_utf16())
            && of_bytes.as_str().strip_prefix('a') == Some(text)
            && of_units.as_str().strip_prefix('a') == Some(text),
    )
}

// Returns true if splitting and merging gives the same characters again.
fn is_merged_again(text: &str) -> bool {
    let bytes = text.utf8chars().to_bytes().to_utf8chars();
    let units = text.utf16chars().to_units().to_utf16chars();
    bytes.eq(text.utf8chars().map(Ok)) && units.eq(text.utf16chars().map(Ok))
}

// Each character on either side of a change in encoded length, and some between, twice and before `!`.
const EDGES: &str = "\0\0! ;;! AA! NN! ZZ! aa! mm! zz! \u{7f}\u{7f}! \u{80}\u{80}! \u{111}\u{111}! \
                     \u{77b}\u{77b}! \u{7ff}\u{7ff}! \u{800}\u{800}! \u{20ac}\u{20ac}! \
                     \u{d7ff}\u{d7ff}! \u{e000}\u{e000}! \u{ffff}\u{ffff}! \u{10000}\u{10000}! \
                     \u{1f4a3}\u{1f4a3}! \u{abcde}\u{abcde}! \u{10befb}\u{10befb}! \
                     \u{10ffff}\u{10ffff}!";

#[test]
fn edges_are_collected(rt: HostRuntime) -> Result<(), Fail> {
    for text in EDGES.split(' ') {
        assert!(rt;
            is_collected(rt.alloc(), text)? && follows(rt.alloc(), text)?,
            "at {text}"
        );
        assert!(rt; is_merged_again(text), "at {text}");
        let alone = text.get(..text.len() / 2).unwrap_or("");
        assert!(rt; is_collected(rt.alloc(), alone)?, "at {alone}");
    }
    Ok(())
}

#[test]
fn utf16chars_to_string(rt: HostRuntime) -> Result<(), Fail> {
    let text = "a\u{e5}\u{10ffff}\u{203d}\u{100000}\u{fee1}";
    let mut of_units = text.utf16chars().collect_string(rt.alloc())?;
    let mut of_bytes = text.utf8chars().collect_string(rt.alloc())?;
    assert!(rt; of_units.as_str() == text && of_bytes.as_str() == text);
    text.utf16chars().extend_string(&mut of_units)?;
    text.utf8chars().extend_string(&mut of_bytes)?;
    assert!(rt; of_units.as_str().strip_prefix(text) == Some(text));
    assert!(rt; of_bytes.as_str().strip_prefix(text) == Some(text));
    Ok(())
}

// Collects exactly the bytes and the units of these characters.
fn collects_exactly(alloc: Global) -> Result<bool, AllocError> {
    let bytes = "A\u{20ac}".utf8chars().collect_bytes(alloc)?;
    let units = "\u{1f4a3}".utf16chars().collect_units(alloc)?;
    let text = "\u{e9}".utf8chars().collect_string(alloc)?;
    let text_of_units = "\u{e9}".utf16chars().collect_string(alloc)?;
    Ok(
        bytes.as_slice() == [0x41, 0xe2, 0x82, 0xac].as_slice()
            && units.as_slice() == [0xd83d, 0xdca3].as_slice()
            && text.as_bytes() == [0xc3, 0xa9].as_slice()
            && text_of_units.as_bytes() == [0xc3, 0xa9].as_slice(),
    )
}

// Appends exactly the bytes and the units of these characters to a collection that is not empty.
fn extends_exactly(alloc: Global) -> Result<bool, AllocError> {
    let mut units = vec![in alloc; 0x42u16]?;
    "A".utf16chars().extend_units(&mut units)?;
    let mut bytes = vec![in alloc; 0x42u8]?;
    "A".utf8chars().extend_bytes(&mut bytes)?;
    let mut text = String::from_str(alloc, "a")?;
    "\u{e9}".utf8chars().extend_string(&mut text)?;
    let mut text_of_units = String::from_str(alloc, "a")?;
    "\u{e9}".utf16chars().extend_string(&mut text_of_units)?;
    Ok(
        units.as_slice() == [0x42, 0x41].as_slice()
            && bytes.as_slice() == [0x42, 0x41].as_slice()
            && text.as_bytes() == [0x61, 0xc3, 0xa9].as_slice()
            && text_of_units.as_bytes() == [0x61, 0xc3, 0xa9].as_slice(),
    )
}

#[test]
fn a_few_characters_in_order(rt: HostRuntime) -> Result<(), Fail> {
    assert!(rt; collects_exactly(rt.alloc())? && extends_exactly(rt.alloc())?);
    Ok(())
}
