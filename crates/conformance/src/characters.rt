//! Texts and numbers as characters.

use crate::answers::{Asked, no_call};
use encode_unicode::{CharExt, U8UtfExt, U16UtfExt, Utf8Char, Utf16Char};
use std::alloc::{AllocError, Global};
use std::str::FromStr;
use utf_base::elements::{is_continuation, is_trailing_surrogate};
use utf_base::table::class_of;

/// A text, as the characters of both types that it is or begins with.
#[derive(Drop)]
pub(crate) struct TextOfOne<'a> {
    pub(crate) text: &'a str,
}

impl<'a> Asked for TextOfOne<'a> {
    fn answer(&mut self, alloc: Global, call: &str) -> Result<String, AllocError> {
        match call {
            "from_str" => {
                let (bytes, units) = (
                    Utf8Char::from_str(self.text),
                    Utf16Char::from_str(self.text),
                );
                format!(in alloc; "{bytes:?} {units:?}")
            }
            "from_str_start" => {
                let bytes = Utf8Char::from_str_start(self.text);
                let units = Utf16Char::from_str_start(self.text);
                format!(in alloc; "{bytes:?} {units:?}")
            }
            _ => no_call(alloc, call),
        }
    }
}

/// A character, in both encodings.
#[derive(Drop)]
pub(crate) struct Character {
    pub(crate) c: char,
}

impl Asked for Character {
    fn answer(&mut self, alloc: Global, call: &str) -> Result<String, AllocError> {
        let c = self.c;
        let (bytes, units) = (c.to_utf8(), c.to_utf16());
        match call {
            "to_utf8_array" => format!(in alloc; "{:?}", c.to_utf8_array()),
            "to_utf16_array" => format!(in alloc; "{:?}", c.to_utf16_array()),
            "to_utf16_tuple" => format!(in alloc; "{:?}", c.to_utf16_tuple()),
            "as_bytes" => format!(in alloc; "{:?}", bytes.as_bytes()),
            "as_units" => format!(in alloc; "{:?}", units.as_units()),
            "as_str" => format!(in alloc; "{:?}", bytes.as_str()),
            "to_tuple" => format!(in alloc; "{:?}", units.to_tuple()),
            "to_array" => format!(in alloc; "{:?} {:?}", bytes.to_array(), units.to_array()),
            "to_slice" => in_slices(alloc, bytes, units),
            "len" => format!(in alloc; "{} {}", bytes.len(), units.len()),
            "is_ascii" => format!(in alloc; "{} {}", bytes.is_ascii(), units.is_ascii()),
            "is_bmp" => format!(in alloc; "{}", units.is_bmp()),
            "from" => converted(alloc, c),
            "debug" => format!(in alloc; "{bytes:?} {units:?}"),
            "display" => {
                let text = format!(in alloc; "{bytes}{units}{bytes:>10}{units:>10}")?;
                format!(in alloc; "{text:?}")
            }
            "uppercase" => uppercase(alloc, bytes, units),
            "lowercase" => lowercase(alloc, bytes, units),
            _ => no_call(alloc, call),
        }
    }
}

// The character after each conversion between types.
fn converted(alloc: Global, c: char) -> Result<String, AllocError> {
    let (bytes, units) = (Utf8Char::from(c), Utf16Char::from(c));
    let new = (Utf8Char::new(c), Utf16Char::new(c));
    let crossed = (Utf8Char::from(units), Utf16Char::from(bytes));
    let back = (
        char::from(bytes),
        char::from(units),
        bytes.to_char(),
        units.to_char(),
    );
    format!(in alloc; "{bytes:?} {units:?} {new:?} {crossed:?} {back:?}")
}

// Buffers that the character is written to, and the lengths that the calls return.
fn in_slices(alloc: Global, bytes: Utf8Char, units: Utf16Char) -> Result<String, AllocError> {
    let (mut byte_places, mut unit_places) = ([0x45; 6], [0x45; 4]);
    if bytes.len() > byte_places.len() || units.len() > unit_places.len() {
        return no_call(alloc, "to_slice");
    }
    let (len, unit_len) = (
        bytes.to_slice(&mut byte_places),
        units.to_slice(&mut unit_places),
    );
    format!(in alloc; "{len} {byte_places:?} {unit_len} {unit_places:?}")
}

fn uppercase(alloc: Global, bytes: Utf8Char, units: Utf16Char) -> Result<String, AllocError> {
    let (mut made, mut made_units) = (bytes, units);
    made.make_ascii_uppercase();
    made_units.make_ascii_uppercase();
    let (upper, upper_units) = (bytes.to_ascii_uppercase(), units.to_ascii_uppercase());
    format!(in alloc; "{upper:?} {made:?} {upper_units:?} {made_units:?}")
}

fn lowercase(alloc: Global, bytes: Utf8Char, units: Utf16Char) -> Result<String, AllocError> {
    let (mut made, mut made_units) = (bytes, units);
    made.make_ascii_lowercase();
    made_units.make_ascii_lowercase();
    let (lower, lower_units) = (bytes.to_ascii_lowercase(), units.to_ascii_lowercase());
    format!(in alloc; "{lower:?} {made:?} {lower_units:?} {made_units:?}")
}

/// A number, as a byte, a unit or a character.
#[derive(Drop)]
pub(crate) struct Number {
    pub(crate) number: u32,
}

impl Asked for Number {
    fn answer(&mut self, alloc: Global, call: &str) -> Result<String, AllocError> {
        match call {
            "from_u32_detailed" => {
                format!(in alloc; "{:?}", char::from_u32_detailed(self.number))
            }
            "from_bmp"
            | "utf16_needs_extra_unit"
            | "is_utf16_leading_surrogate"
            | "is_trailing_surrogate" => match u16::try_from(self.number) {
                Ok(unit) => of_unit(alloc, unit, call),
                Err(_) => no_call(alloc, call),
            },
            _ => match u8::try_from(self.number) {
                Ok(byte) => of_byte(alloc, byte, call),
                Err(_) => no_call(alloc, call),
            },
        }
    }
}

// The result of a call on a unit.
fn of_unit(alloc: Global, unit: u16, call: &str) -> Result<String, AllocError> {
    match call {
        "from_bmp" => format!(in alloc; "{:?}", Utf16Char::from_bmp(unit)),
        "utf16_needs_extra_unit" => format!(in alloc; "{:?}", unit.utf16_needs_extra_unit()),
        "is_utf16_leading_surrogate" => {
            format!(in alloc; "{}", unit.is_utf16_leading_surrogate())
        }
        "is_trailing_surrogate" => format!(in alloc; "{}", is_trailing_surrogate(unit)),
        _ => no_call(alloc, call),
    }
}

// The result of a call on a byte.
fn of_byte(alloc: Global, byte: u8, call: &str) -> Result<String, AllocError> {
    match call {
        "from_ascii" => format!(in alloc; "{:?}", Utf8Char::from_ascii(byte)),
        "extra_utf8_bytes" => format!(in alloc; "{:?}", byte.extra_utf8_bytes()),
        "extra_utf8_bytes_unchecked" => {
            format!(in alloc; "{}", byte.extra_utf8_bytes_unchecked())
        }
        "is_continuation" => format!(in alloc; "{}", is_continuation(byte)),
        "class_of" => format!(in alloc; "{}", class_of(byte)),
        _ => no_call(alloc, call),
    }
}
