//! UTF-8 at the front of bytes, decoded to a `char` and to a `Utf8Char`.
ghost use Rattle.std.specs.Prelude.{◌<◌};

use encode_unicode::error::Utf8Error;
use encode_unicode::error::Utf8ErrorKind::{
    self, InterruptedSequence, NonUtf8Byte, OverlongEncoding, TooHighCodepoint,
    UnexpectedContinuationByte, Utf16ReservedCodepoint,
};
use encode_unicode::{CharExt, Utf8Char};

fn by_kind<T>(answer: Result<T, Utf8Error>) -> Result<T, Utf8ErrorKind> {
    match answer {
        Ok(found) => Ok(found),
        Err(error) => Err(error.kind()),
    }
}

// The character that begins the bytes, asked through the bound.
fn front_of<T: CharExt>(src: &[u8]) -> Result<(T, usize), Utf8Error> {
    T::from_utf8_slice_start(src)
}

fn kept_front_of(src: &[u8]) -> Result<(char, usize), Utf8Error> {
    let (c, len) = Utf8Char::from_slice_start(src)?;
    Ok((c.to_char(), len))
}

// Returns true if each call returns this result at the front of a slice.
fn begins(src: &[u8], answer: Result<(char, usize), Utf8ErrorKind>) -> bool {
    by_kind(char::from_utf8_slice_start(src)) == answer
        && by_kind(front_of(src)) == answer
        && by_kind(kept_front_of(src)) == answer
}

fn kept_array_of(bytes: [u8; 4]) -> Result<char, Utf8Error> {
    Ok(Utf8Char::from_array(bytes)?.to_char())
}

// Returns true if each call returns this result at the front of four bytes.
fn begins_four(bytes: [u8; 4], answer: Result<char, Utf8ErrorKind>) -> bool {
    by_kind(char::from_utf8_array(bytes)) == answer && by_kind(kept_array_of(bytes)) == answer
}

// Returns true if the first two bytes give the fault, in an array with continuation bytes after them, and in
// slices of each length from the deciding one.
fn shows(first: u8, second: u8, deciding: usize, fault: Utf8ErrorKind) -> bool {
    for last in [0x80, 0x99, 0xbf] {
        if !begins_four([first, second, last, last], Err(fault)) {
            return false;
        }
        let bytes = [first, second, last, last, last, last, last, last];
        for len in deciding..=8 {
            if !begins(&bytes[..len], Err(fault)) {
                return false;
            }
        }
    }
    true
}

// Each row: the range of the first byte, the range of the second, how many bytes decide, and the fault.
#[test]
fn the_first_two_bytes_show_faults(rt: HostRuntime) {
    let table: [(u8, u8, u8, u8, usize, Utf8ErrorKind); 7] = [
        (0x80, 0xbf, 0x00, 0xff, 1, UnexpectedContinuationByte),
        (0xc0, 0xc1, 0x00, 0xff, 1, NonUtf8Byte),
        (0xe0, 0xe0, 0x80, 0x9f, 3, OverlongEncoding),
        (0xed, 0xed, 0xa0, 0xbf, 3, Utf16ReservedCodepoint),
        (0xf0, 0xf0, 0x80, 0x8f, 4, OverlongEncoding),
        (0xf4, 0xf4, 0x90, 0xbf, 4, TooHighCodepoint),
        (0xf5, 0xff, 0x00, 0xff, 1, NonUtf8Byte),
    ];
    for (first_low, first_high, second_low, second_high, deciding, fault) in table {
        for first in first_low..=first_high {
            for second in second_low..=second_high {
                assert!(rt;
                    shows(first, second, deciding, fault),
                    "at {first:x} {second:x}"
                );
            }
        }
    }
}

// Returns true if a byte that does not continue a sequence is reported at its offset, in a sequence of that
// length.
fn is_interrupted(first: u8, place: usize, len: usize) -> bool
    requires { place < 4 }
{
    for byte in [0x00, 0x3f, 0x40, 0x7f, 0xc0, 0xff] {
        let mut bytes = [first, 0x90, 0xa0, 0xb0];
        bytes[place] = byte;
        if !begins_four(bytes, Err(InterruptedSequence)) {
            return false;
        }
        for end in len..=4 {
            if !begins(&bytes[..end], Err(InterruptedSequence)) {
                return false;
            }
        }
    }
    true
}

#[test]
fn each_byte_after_the_first_has_to_continue(rt: HostRuntime) {
    for (lowest, highest, len) in [(0xc2, 0xdf, 2), (0xe0, 0xef, 3), (0xf0, 0xf4, 4)] {
        assert!(rt; len <= 4);
        for first in lowest..=highest {
            for place in 1..len {
                assert!(rt; is_interrupted(first, place, len), "at {first:x}, {place}");
            }
        }
    }
}
