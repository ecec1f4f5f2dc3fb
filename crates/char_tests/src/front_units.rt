//! UTF-16 at the front of units, decoded to a `char` and to a `Utf16Char`.
use encode_unicode::error::{Utf16ArrayError, Utf16SliceError, Utf16TupleError};
use encode_unicode::{CharExt, Utf16Char};

// The first and last units of each class: no surrogate, leading surrogate, trailing surrogate.
const ENDS: [u16; 8] = [
    0x0000, 0xd7ff, 0xd800, 0xdbff, 0xdc00, 0xdfff, 0xe000, 0xffff,
];

// Decodes an array of two units through the trait bound.
fn of_array<T: CharExt>(units: [u16; 2]) -> Result<T, Utf16ArrayError> {
    T::from_utf16_array(units)
}

fn kept_array_of(units: [u16; 2]) -> Result<char, Utf16ArrayError> {
    Ok(Utf16Char::from_array(units)?.to_char())
}

// Returns true if each call returns this result for two units.
fn are(units: [u16; 2], answer: Result<char, Utf16ArrayError>) -> bool {
    char::from_utf16_array(units) == answer
        && of_array(units) == answer
        && kept_array_of(units) == answer
}

// Decodes one or two units through the trait bound.
fn of_tuple<T: CharExt>(units: (u16, Option<u16>)) -> Result<T, Utf16TupleError> {
    T::from_utf16_tuple(units)
}

fn kept_tuple_of(units: (u16, Option<u16>)) -> Result<char, Utf16TupleError> {
    Ok(Utf16Char::from_tuple(units)?.to_char())
}

// Returns true if each call returns this result for one or two units.
fn are_exactly(units: (u16, Option<u16>), answer: Result<char, Utf16TupleError>) -> bool {
    char::from_utf16_tuple(units) == answer
        && of_tuple(units) == answer
        && kept_tuple_of(units) == answer
}

// Decodes the front of a slice through the trait bound.
fn front_of<T: CharExt>(src: &[u16]) -> Result<(T, usize), Utf16SliceError> {
    T::from_utf16_slice_start(src)
}

fn kept_front_of(src: &[u16]) -> Result<(char, usize), Utf16SliceError> {
    let (c, len) = Utf16Char::from_slice_start(src)?;
    Ok((c.to_char(), len))
}

// Returns true if each call returns this result at the front of a slice.
fn begin(src: &[u16], answer: Result<(char, usize), Utf16SliceError>) -> bool {
    char::from_utf16_slice_start(src) == answer
        && front_of(src) == answer
        && kept_front_of(src) == answer
}

// Returns true if each call returns so at the front of every slice of two to six units that begins with these
// two.
fn begin_longer(units: [u16; 2], answer: Result<(char, usize), Utf16SliceError>) -> bool {
    let [first, second] = units;
    let six = [first, second, 0x0041, 0xdc00, first, second];
    for len in 2..=6 {
        if !begin(&six[..len], answer) {
            return false;
        }
    }
    true
}

#[test]
fn two_units_are_decoded_unchecked(rt: HostRuntime) {
    for (units, c) in [([0xd802, 0], '\u{10800}'), ([0xdbad, 0xf19e], '\u{fb59e}')] {
        assert!(rt;
            char::from_utf16_array_unchecked(units) == c,
            "at {units:?}"
        );
    }
}

// Returns true if each call rejects the two units with this error.
fn are_refused(
    units: [u16; 2],
    tuple: Utf16TupleError,
    slice: Utf16SliceError,
    array: Utf16ArrayError,
) -> bool {
    let [first, second] = units;
    are_exactly((first, Some(second)), Err(tuple))
        && begin_longer(units, Err(slice))
        && are(units, Err(array))
}

#[test]
fn trailing_surrogates_begin_nothing(rt: HostRuntime) {
    let tuple = Utf16TupleError::FirstIsTrailingSurrogate;
    let slice = Utf16SliceError::FirstIsTrailingSurrogate;
    let array = Utf16ArrayError::FirstIsTrailingSurrogate;
    for first in 0xdc00..=0xdfff {
        let alone = are_exactly((first, None), Err(tuple)) && begin(&[first], Err(slice));
        assert!(rt; alone, "at {first:x}");
        for second in ENDS {
            let units = [first, second];
            assert!(rt; are_refused(units, tuple, slice, array), "at {units:?}");
        }
    }
}

#[test]
fn leading_surrogates_need_a_trailing_one(rt: HostRuntime) {
    let tuple = Utf16TupleError::SecondIsNotTrailingSurrogate;
    let slice = Utf16SliceError::SecondIsNotTrailingSurrogate;
    let array = Utf16ArrayError::SecondIsNotTrailingSurrogate;
    for first in 0xd800..=0xdbff {
        let alone = are_exactly((first, None), Err(Utf16TupleError::MissingSecond))
            && begin(&[first], Err(Utf16SliceError::MissingSecond));
        assert!(rt; alone, "at {first:x}");
        for second in [first, 0x0000, 0xd7ff, 0xd800, 0xdbff, 0xe000, 0xffff] {
            let units = [first, second];
            assert!(rt; are_refused(units, tuple, slice, array), "at {units:?}");
        }
    }
}

#[test]
fn units_that_stand_alone_need_no_second(rt: HostRuntime) {
    let superfluous = Err(Utf16TupleError::SuperfluousSecond);
    for (lowest, highest) in [(0x0000, 0xd7ff), (0xe000, 0xffff)] {
        for first in lowest..=highest {
            let c = char::from_u32(first as u32).expect(&rt, "no surrogate");
            for second in ENDS {
                let units = [first, second];
                let holds = are_exactly((first, Some(second)), superfluous)
                    && begin_longer(units, Ok((c, 1)))
                    && are(units, Ok(c));
                assert!(rt; holds, "at {units:?}");
            }
        }
    }
}
