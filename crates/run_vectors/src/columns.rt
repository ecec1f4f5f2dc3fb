//! The columns of a row.

use cuts::End;
use fakes::rows::wrong_row;
use std::alloc::{AllocError, Allocator, Global};
use std::io;

/// A column by its number, from 0. A row has `|` between columns; a missing column is empty.
pub(crate) fn column(row: &str, number: usize) -> &str {
    row.split('|').nth(number).unwrap_or("")
}

/// The number in a column, if there is one.
pub(crate) fn number(column: &str) -> Option<usize> {
    column.parse::<usize>().ok()
}

/// The words of a column, with `,` after each.
pub(crate) fn words_of<A: Allocator + Copy>(
    alloc: A,
    column: &str,
) -> Result<Vec<String<A>, A>, AllocError> {
    let mut words = Vec::new(alloc);
    for word in column.split_terminator(',') {
        words.push(String::from_str(alloc, word)?)?;
    }
    Ok(words)
}

/// The lines of a column, which has `;` for each line feed.
pub(crate) fn lines_of(alloc: Global, column: &str) -> Result<Vec<u8>, AllocError> {
    let mut lines = Vec::new(alloc);
    for byte in column.bytes() {
        lines.push(if byte == b';' { b'\n' } else { byte })?;
    }
    Ok(lines)
}

/// The word of some letters, `F` and `B`.
pub(crate) fn word_of(alloc: Global, letters: &str) -> io::Result<Vec<End>> {
    let mut word = Vec::new(alloc);
    for letter in letters.bytes() {
        word.push(match letter {
            b'F' => End::Front,
            b'B' => End::Back,
            _ => return Err(wrong_row()),
        })?;
    }
    Ok(word)
}
