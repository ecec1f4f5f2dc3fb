//! Each allocation of each call fails in turn, until none does: the collection then has whole encoded
//! characters only.
use encode_unicode::{StrExt, Utf8CharIterExt, Utf16CharIterExt};
use fakes::budget::Budget;
use std::alloc::{AllocError, Global};
use std::test::Fail;

// Characters of one to four bytes, and of one and two units, five times.
const TEXT: &str = "a\u{e9}\u{20ac}\u{1f4a3}a\u{e9}\u{20ac}\u{1f4a3}a\u{e9}\u{20ac}\u{1f4a3}\
                    a\u{e9}\u{20ac}\u{1f4a3}a\u{e9}\u{20ac}\u{1f4a3}";

// Returns true if `growths` allocations are enough to collect the bytes of the text; an error if one fails.
fn collects_bytes(alloc: Global, growths: u32) -> Result<bool, AllocError> {
    let budget = Budget::new(alloc, growths);
    let bytes = TEXT.utf8chars().collect_bytes(&budget)?;
    Ok(bytes.as_slice() == TEXT.as_bytes())
}

// Returns true if `growths` allocations are enough to collect the units of the text; an error if one fails.
fn collects_units(alloc: Global, growths: u32) -> Result<bool, AllocError> {
    let budget = Budget::new(alloc, growths);
    let units = TEXT.utf16chars().collect_units(&budget)?;
    Ok(units.len() == 25 && units.iter().copied().eq(TEXT.encode_utf16()))
}

// Returns true if `growths` allocations are enough to collect a `String` from `Utf8Char`; an error if one
// fails.
fn collects_text(alloc: Global, growths: u32) -> Result<bool, AllocError> {
    let budget = Budget::new(alloc, growths);
    let text = TEXT.utf8chars().collect_string(&budget)?;
    Ok(text.as_str() == TEXT)
}

// Returns true if `growths` allocations are enough to collect a `String` from `Utf16Char`; an error if one
// fails.
fn collects_text_of_units(alloc: Global, growths: u32) -> Result<bool, AllocError> {
    let budget = Budget::new(alloc, growths);
    let text = TEXT.utf16chars().collect_string(&budget)?;
    Ok(text.as_str() == TEXT)
}

#[test]
fn of_what_is_collected(rt: HostRuntime) {
    let alloc = rt.alloc();
    for growths in 0..8 {
        let answer = if growths < 4 {
            Err(AllocError)
        } else {
            Ok(true)
        };
        let alike = collects_bytes(alloc, growths) == answer
            && collects_units(alloc, growths) == answer
            && collects_text(alloc, growths) == answer
            && collects_text_of_units(alloc, growths) == answer;
        assert!(rt; alike, "at {growths}");
    }
}

// What follows the first element.
fn after_the_first<T>(held: &[T]) -> &[T] {
    match held.split_first() {
        Some((_, added)) => added,
        None => &[],
    }
}

// Returns true if whole encoded characters of the text were appended, and all of them if no allocation
// failed.
fn is_added(added: &[u8], refused: bool) -> bool {
    TEXT.as_bytes().starts_with(added)
        && str::from_utf8(added).is_ok()
        && (added.len() < TEXT.len()) == refused
}

// Returns true if `growths` allocations, the first for the initial contents, append whole characters to
// bytes, and all of them unless one fails.
fn extends_bytes(alloc: Global, growths: u32, refused: bool) -> Result<bool, AllocError> {
    let budget = Budget::new(alloc, growths);
    let mut bytes = vec![in &budget; b'?']?;
    let answer = TEXT.utf8chars().extend_bytes(&mut bytes);
    let kept = bytes.first() == Some(&b'?') && is_added(after_the_first(&bytes), refused);
    Ok(kept && answer.is_err() == refused)
}

// Returns true if `growths` allocations append whole characters to units, and all of them unless one fails.
fn extends_units(alloc: Global, growths: u32, refused: bool) -> Result<bool, AllocError> {
    let whole = TEXT.utf16chars().collect_units(alloc)?;
    let budget = Budget::new(alloc, growths);
    let mut units = vec![in &budget; 0x3fu16]?;
    let answer = TEXT.utf16chars().extend_units(&mut units);
    let added = after_the_first(&units);
    let kept = units.first() == Some(&0x3f)
        && whole.starts_with(added)
        && added.last().copied() != Some(0xd83d)
        && (added.len() < whole.len()) == refused;
    Ok(kept && answer.is_err() == refused)
}

// Returns true if `growths` allocations append whole `Utf8Char` to a `String`, and all of them unless one
// fails.
fn extends_text(alloc: Global, growths: u32, refused: bool) -> Result<bool, AllocError> {
    let budget = Budget::new(alloc, growths);
    let mut text = String::from_str(&budget, "?")?;
    let answer = TEXT.utf8chars().extend_string(&mut text);
    Ok(is_added(after_the_first(text.as_bytes()), refused) && answer.is_err() == refused)
}

// Returns true if `growths` allocations append whole `Utf16Char` to a `String`, and all of them unless one
// fails.
fn extends_text_by_units(alloc: Global, growths: u32, refused: bool) -> Result<bool, AllocError> {
    let budget = Budget::new(alloc, growths);
    let mut text = String::from_str(&budget, "?")?;
    let answer = TEXT.utf16chars().extend_string(&mut text);
    Ok(is_added(after_the_first(text.as_bytes()), refused) && answer.is_err() == refused)
}

#[test]
fn of_what_is_extended(rt: HostRuntime) -> Result<(), Fail> {
    let alloc = rt.alloc();
    for growths in 1..9 {
        let refused = growths < 5;
        let whole = extends_bytes(alloc, growths, refused)?
            && extends_units(alloc, growths, refused)?
            && extends_text(alloc, growths, refused)?
            && extends_text_by_units(alloc, growths, refused)?;
        assert!(rt; whole, "at {growths}");
    }
    Ok(())
}

// Returns true if bytes with capacity for the first of two characters keep it, and the second fails.
fn keeps_the_first_in_bytes(alloc: Global) -> Result<bool, AllocError> {
    let budget = Budget::new(alloc, 1);
    let mut bytes = Vec::with_capacity(&budget, 4)?;
    bytes.push(0x61)?;
    let answer = "\u{e9}\u{1f4a3}".utf8chars().extend_bytes(&mut bytes);
    Ok(answer.is_err() && bytes.as_slice() == [0x61, 0xc3, 0xa9].as_slice())
}

// Returns true if a text with capacity for the first of two characters of either type keeps it, and the
// second fails.
fn keeps_the_first_in_text(alloc: Global, from_units: bool) -> Result<bool, AllocError> {
    let budget = Budget::new(alloc, 1);
    let mut text = String::with_capacity(&budget, 4)?;
    text.push('a')?;
    let more = "\u{e9}\u{10ffff}";
    let answer = if from_units {
        more.utf16chars().extend_string(&mut text)
    } else {
        more.utf8chars().extend_string(&mut text)
    };
    Ok(answer.is_err() && text.as_bytes() == [0x61, 0xc3, 0xa9].as_slice())
}

#[test]
fn after_the_first_character(rt: HostRuntime) -> Result<(), Fail> {
    assert!(rt; keeps_the_first_in_bytes(rt.alloc())?);
    assert!(rt; keeps_the_first_in_text(rt.alloc(), false)?);
    assert!(rt; keeps_the_first_in_text(rt.alloc(), true)?);
    Ok(())
}

// Returns true if collecting nothing allocates nothing.
fn collects_nothing(alloc: Global) -> bool {
    let budget = Budget::new(alloc, 0);
    "".utf8chars().collect_bytes(&budget).is_ok()
        && "".utf8chars().collect_string(&budget).is_ok()
        && "".utf16chars().collect_units(&budget).is_ok()
        && "".utf16chars().collect_string(&budget).is_ok()
}

// Returns true if appending nothing allocates nothing.
fn adds_nothing(alloc: Global) -> bool {
    let budget = Budget::new(alloc, 0);
    let mut bytes = Vec::new(&budget);
    let mut units = Vec::new(&budget);
    let mut text = String::new(&budget);
    "".utf8chars().extend_bytes(&mut bytes).is_ok()
        && "".utf16chars().extend_units(&mut units).is_ok()
        && "".utf8chars().extend_string(&mut text).is_ok()
        && "".utf16chars().extend_string(&mut text).is_ok()
}

#[test]
fn of_nothing(rt: HostRuntime) {
    assert!(rt; collects_nothing(rt.alloc()) && adds_nothing(rt.alloc()));
}
