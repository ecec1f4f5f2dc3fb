//! Characters of any source, split into bytes or units.
use encode_unicode::{CharExt, StrExt, Utf8Char, Utf8CharIterExt, Utf16Char, Utf16CharIterExt};
use std::iter;
use std::test::Fail;

// The text that the tests read.
const TEXT: &str = "\u{c5}\u{e5}h\u{203d}";

// One read of a source's bytes into a buffer of nine, through the trait bound.
fn read_once<I: Iterator<Item = Utf8Char>>(source: I) -> (Option<usize>, [u8; 9])
    requires { I.can_next source }
{
    let mut places = [0x45; 9];
    let count = source.to_bytes().read(&mut places).ok();
    (count, places)
}

// The first unit of a source, taken through the trait bound.
fn first_unit<I: Iterator<Item = Utf16Char>>(source: I) -> Option<u16>
    requires { I.can_next source }
{
    source.to_units().next()
}

#[test]
fn sources_of_every_kind_are_read(rt: HostRuntime) -> Result<(), Fail> {
    let mut chars = Vec::new(rt.alloc());
    for c in TEXT.utf8chars() {
        chars.push(c)?;
    }
    let expected = (
        Some(8),
        [0xc3, 0x85, 0xc3, 0xa5, b'h', 0xe2, 0x80, 0xbd, 0x45],
    );
    let same = read_once(TEXT.utf8chars()) == expected
        && read_once(TEXT.chars().map(|c| c.to_utf8())) == expected
        && read_once(chars.iter().copied()) == expected
        && read_once(chars.into_iter()) == expected
        && first_unit("\u{1f4a3}A".utf16chars()) == Some(0xd83d);
    assert!(rt; same);
    Ok(())
}

// Returns true if this is the size hint of the bytes of `count` characters of four bytes each.
fn hints(count: usize, hint: (usize, Option<usize>)) -> bool {
    let bomb = Utf8Char::from('\u{1f4a3}');
    iter::repeat(bomb).take(count).to_bytes().size_hint() == hint
}

// Returns true if the size hint is unchanged after the first byte when there are more characters than `usize`
// counts.
fn hints_after_a_byte() -> bool {
    let bomb = Utf8Char::from('\u{1f4a3}');
    let mut bytes = iter::repeat(bomb).take(usize::MAX).to_bytes();
    bytes.next() == Some(0xf0) && bytes.size_hint() == (usize::MAX, None)
}

#[test]
fn hints_do_not_wrap(rt: HostRuntime) {
    let quarter = usize::MAX / 4;
    let units = iter::repeat(Utf16Char::from('A'))
        .take(usize::MAX)
        .to_units();
    let same = hints(usize::MAX, (usize::MAX, None))
        && hints(quarter, (quarter, Some(usize::MAX - 3)))
        && hints_after_a_byte()
        && units.size_hint() == (usize::MAX, None);
    assert!(rt; same);
}

#[test]
fn a_begun_character_is_cloned(rt: HostRuntime) -> Result<(), Fail> {
    let mut bytes = "\u{e9}a".utf8chars().to_bytes();
    let mut units = "\u{1f4a3}b".utf16chars().to_units();
    let begun = bytes.next() == Some(0xc3) && units.next() == Some(0xd83d);
    let (byte_copy, unit_copy) = (bytes.clone()?, units.clone()?);
    let same = begun
        && byte_copy.eq([0xa9, b'a'])
        && unit_copy.eq([0xdca3, 0x0062])
        && bytes.into_inner().as_str() == "a"
        && units.into_inner().as_str() == "b";
    assert!(rt; same);
    Ok(())
}
