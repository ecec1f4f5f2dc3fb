//! Bytes and units in the notation of rows of data: lower-case hexadecimal, with nothing between them.
//!
//! Any other notation is rejected with an error of the kind `InvalidData`.
use std::alloc::Global;
use std::io;
use std::io::ErrorKind;

/// The error of a row that cannot be read.
pub fn wrong_row() -> io::Error {
    io::Error::from(ErrorKind::InvalidData)
}

/// Parses bytes of two digits each.
pub fn bytes_of(alloc: Global, text: &str) -> io::Result<Vec<u8>> {
    let mut bytes = Vec::new(alloc);
    for digits in text.as_bytes().chunks(2) {
        match digits {
            [high, low] => bytes.push(digit(*high)? << 4 | digit(*low)?)?,
            _ => return Err(wrong_row()),
        }
    }
    Ok(bytes)
}

/// Parses units of four digits each.
pub fn units_of(alloc: Global, text: &str) -> io::Result<Vec<u16>> {
    let bytes = bytes_of(alloc, text)?;
    let mut units = Vec::new(alloc);
    for pair in bytes.as_slice().chunks(2) {
        match pair {
            [high, low] => units.push(u16::from_be_bytes([*high, *low]))?,
            _ => return Err(wrong_row()),
        }
    }
    Ok(units)
}

fn digit(byte: u8) -> io::Result<u8> {
    match byte {
        b'0'..=b'9' => Ok(byte - b'0'),
        b'a'..=b'f' => Ok(byte - b'a' + 10),
        _ => Err(wrong_row()),
    }
}
