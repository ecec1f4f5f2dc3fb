//! The bytes and the units of one character, by each call that makes their iterator.
use encode_unicode::CharExt;
use encode_unicode::iterator::{Utf8Iterator, Utf16Iterator};
use std::test::Fail;

// Returns true if the iterator gives these bytes.
fn gives_bytes(bytes: Utf8Iterator, code: &[u8]) -> bool {
    bytes.eq(code.iter().copied())
}

// Returns true if the iterator gives these units.
fn gives_units(units: Utf16Iterator, code: &[u16]) -> bool {
    units.eq(code.iter().copied())
}

// The iterators of a character, made through the trait bound.
fn iterators_of<C: CharExt + Copy>(c: C) -> (Utf8Iterator, Utf16Iterator) {
    (c.iter_utf8_bytes(), c.iter_utf16_units())
}

// Returns true if each iterator over the bytes gives these.
fn has_bytes(c: char, code: &[u8]) -> bool {
    gives_bytes(iterators_of(c).0, code)
        && gives_bytes(Utf8Iterator::from(c), code)
        && gives_bytes(Utf8Iterator::from(c.to_utf8()), code)
        && gives_bytes(c.to_utf8().into_iter(), code)
}

// Returns true if each iterator over the units gives these.
fn has_units(c: char, code: &[u16]) -> bool {
    gives_units(iterators_of(c).1, code)
        && gives_units(Utf16Iterator::from(c), code)
        && gives_units(Utf16Iterator::from(c.to_utf16()), code)
        && gives_units(c.to_utf16().into_iter(), code)
}

#[test]
fn codes_come_element_by_element(rt: HostRuntime) {
    let table: [(char, &[u8], &[u16]); 5] = [
        ('\0', &[0x00], &[0x0000]),
        ('\u{7f}', &[0x7f], &[0x007f]),
        ('\u{e9}', &[0xc3, 0xa9], &[0x00e9]),
        ('\u{ffff}', &[0xef, 0xbf, 0xbf], &[0xffff]),
        ('\u{1f4a3}', &[0xf0, 0x9f, 0x92, 0xa3], &[0xd83d, 0xdca3]),
    ];
    for (c, bytes, units) in table {
        assert!(rt; has_bytes(c, bytes) && has_units(c, units), "at {c:?}");
    }
}

#[test]
fn what_is_left_is_cloned(rt: HostRuntime) -> Result<(), Fail> {
    let mut bytes = Utf8Iterator::from('\u{e9}');
    let units = Utf16Iterator::from('\u{e9}');
    let first = bytes.next();
    let copy = bytes.clone()?;
    let same = first == Some(0xc3)
        && gives_bytes(bytes, &[0xa9])
        && gives_bytes(copy, &[0xa9])
        && gives_units(units.clone()?, &[0xe9])
        && gives_units(units, &[0xe9]);
    assert!(rt; same);
    Ok(())
}
