//! The rows of a file of vectors.

use cuts::End;
use fakes::rows::{bytes_of, wrong_row};
use std::alloc::Global;
use std::io;

/// The contents of a row: some bytes, and the results that runs over them have to give, with `;` between
/// them.
#[derive(Drop)]
pub(crate) struct Row<'a> {
    /// The bytes as they are in the file, in hexadecimal.
    pub(crate) text: &'a str,
    pub(crate) bytes: Vec<u8>,
    /// The pieces from the front, each an offset, a length and a result.
    pub(crate) pieces: &'a str,
    /// The results of a merger.
    pub(crate) merged: &'a str,
    /// A word, and the walk that it describes: for each letter the piece at that end, or `none`.
    pub(crate) word: Vec<End>,
    pub(crate) walk: &'a str,
}

/// The rows of the file. A line that begins with `#` is a comment; any other has five columns with `|`
/// between them: the bytes, the pieces, what a merger gives, a word, and the walk that it describes.
pub(crate) fn parse(alloc: Global, file: &str) -> io::Result<Vec<Row<'_>>> {
    let mut rows = Vec::new(alloc);
    for line in file.lines() {
        if !line.starts_with('#') {
            rows.push(parse_row(alloc, line)?)?;
        }
    }
    Ok(rows)
}

fn parse_row(alloc: Global, line: &str) -> io::Result<Row<'_>> {
    let mut columns = line.split('|');
    let (Some(text), Some(pieces), Some(merged)) = (columns.next(), columns.next(), columns.next())
    else {
        return Err(wrong_row());
    };
    let (Some(letters), Some(walk)) = (columns.next(), columns.next()) else {
        return Err(wrong_row());
    };
    Ok(Row {
        text,
        bytes: bytes_of(alloc, text)?,
        pieces,
        merged,
        word: parse_word(alloc, letters)?,
        walk,
    })
}

pub(crate) fn parse_word(alloc: Global, letters: &str) -> io::Result<Vec<End>> {
    let mut word = Vec::new(alloc);
    for letter in letters.bytes() {
        word.push(match letter {
            b'F' => End::Front,
            b'B' => End::Back,
            _ => return Err(wrong_row()),
        })?;
    }
    Ok(word)
}
