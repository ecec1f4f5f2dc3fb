//! Single bytes and units as characters, and compared with characters.
use crate::orders::characters;
use encode_unicode::error::{NonAsciiError, NonBmpError};
use encode_unicode::{CharExt, Utf8Char, Utf16Char};

#[test]
fn single_bytes_and_units_are_characters_or_none(rt: HostRuntime) {
    for byte in 0..=255u8 {
        let c = char::from(byte);
        let (made, is_ascii) = (Utf8Char::from_ascii(byte), byte < 128);
        let expected = if is_ascii {
            Ok(c.to_utf8())
        } else {
            Err(NonAsciiError)
        };
        assert!(rt; made == expected, "at {byte:x}");
        let equal = (c.to_utf8().eq_u8(byte), c.to_utf16().eq_u8(byte));
        assert!(rt; equal == (is_ascii, true), "at {byte:x}");
    }
    for unit in 0..=0xffffu16 {
        let expected = match char::from_u32(unit as u32) {
            Some(c) => Ok(c.to_utf16()),
            None => Err(NonBmpError),
        };
        assert!(rt; Utf16Char::from_bmp(unit) == expected, "at {unit:x}");
    }
    assert!(rt; Utf16Char::from_bmp(0xdddd) == Err(NonBmpError));
}

// Returns true if each of the units equals the character, or none does.
fn equals_units(c: char, units: &[u16], expected: bool) -> bool {
    for unit in units {
        if c.to_utf16().eq_u16(*unit) != expected {
            return false;
        }
    }
    true
}

// Returns true if the character equals the low byte and the low unit of the other as its scalar does.
fn equals_elements(c: char, other: char) -> bool {
    let (byte, unit) = ((other as u32 & 0xff) as u8, (other as u32 & 0xffff) as u16);
    c.to_utf8().eq_u8(byte) == (byte < 0x80 && c as u32 == byte as u32)
        && c.to_utf16().eq_u8(byte) == (c as u32 == byte as u32)
        && c.to_utf16().eq_u16(unit) == (c as u32 == unit as u32)
}

// Each row: a character, a byte, and whether they are equal in UTF-8 and in UTF-16.
#[test]
fn bytes_and_units_equal_their_scalars(rt: HostRuntime) {
    let table = [
        ('i', 0x69, true, true),
        ('i', 0x49, false, false),
        ('\0', 0x00, true, true),
        ('\u{7f}', 0x7f, true, true),
        ('\u{80}', 0x80, false, true),
        ('\u{80}', 0xc2, false, false),
        ('\u{e9}', 0xc3, false, false),
        ('\u{e9}', 0xe9, false, true),
        ('\u{ff}', 0xff, false, true),
        ('\u{169}', 0x69, false, false),
        ('\u{10000}', 0x00, false, false),
        ('\u{10069}', 0x69, false, false),
    ];
    for (c, byte, in_bytes, in_units) in table {
        let units = c.to_utf16();
        let equal = (
            c.to_utf8().eq_u8(byte),
            units.eq_u8(byte),
            units.eq_u16(byte as u16),
        );
        assert_eq!(rt;
            equal,
            (in_bytes, in_units, in_units),
            "at {c:?} and {byte:x}"
        );
    }
    for c in characters() {
        for other in characters() {
            let expected = c == other && c.to_utf16().len() == 1;
            assert!(rt;
                equals_units(c, other.to_utf16().as_units(), expected) && equals_elements(c, other),
                "at {c:?} and {other:?}"
            );
        }
    }
}

#[test]
fn equal_defaults(rt: HostRuntime) {
    let (bytes, units) = (Utf8Char::default(), Utf16Char::default());
    assert!(rt; bytes.to_char() == '\0' && bytes.to_array() == ([0; 4], 1));
    assert!(rt; units.to_char() == '\0' && units.to_array() == [0; 2]);
    assert!(rt; units.eq_utf8(bytes) && bytes.eq_utf16(units));
}
