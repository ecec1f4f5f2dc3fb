//! The rows of units, and the kinds of run that are compared with them.

use crate::rows::parse_word;
use cuts::{End, walk_utf16};
use encode_unicode::error::Utf16PairError;
use encode_unicode::{U16IterExt, U16SliceExt};
use fakes::rows::{units_of, wrong_row};
use std::alloc::{AllocError, Global};
use std::io;

/// The contents of a row: some units, and the results that runs over them have to give, with `;` between
/// them.
#[derive(Drop)]
pub(crate) struct UnitRow<'a> {
    /// The units as they are in the file, each in four hexadecimal digits.
    pub(crate) text: &'a str,
    pub(crate) units: Vec<u16>,
    /// The pieces from the front, each an offset, a length and a result.
    pub(crate) pieces: &'a str,
    /// A word, and the walk that it describes: for each letter the piece at that end, or `none`.
    pub(crate) word: Vec<End>,
    pub(crate) walk: &'a str,
}

/// The rows of the file. A line that begins with `#` is a comment; any other has four columns with `|`
/// between them: the units, the pieces, a word, and the walk that it describes.
pub(crate) fn parse(alloc: Global, file: &str) -> io::Result<Vec<UnitRow<'_>>> {
    let mut rows = Vec::new(alloc);
    for line in file.lines() {
        if !line.starts_with('#') {
            rows.push(parse_row(alloc, line)?)?;
        }
    }
    Ok(rows)
}

fn parse_row(alloc: Global, line: &str) -> io::Result<UnitRow<'_>> {
    let mut columns = line.split('|');
    let (Some(text), Some(pieces)) = (columns.next(), columns.next()) else {
        return Err(wrong_row());
    };
    let (Some(letters), Some(walk)) = (columns.next(), columns.next()) else {
        return Err(wrong_row());
    };
    Ok(UnitRow {
        text,
        units: units_of(alloc, text)?,
        pieces,
        word: parse_word(alloc, letters)?,
        walk,
    })
}

/// A kind of run over some units.
#[derive(Clone, Copy)]
pub(crate) enum UnitRun {
    /// Each piece in turn, by the decoder.
    Decoder,
    /// Each result in turn, by the merger. It has no column of its own, since it returns the decoder's
    /// results.
    Merger,
    /// The pieces from both ends, as the letters of the row's word ask for them.
    Walk,
}

impl UnitRun {
    pub(crate) fn name(self) -> &'static str {
        match self {
            UnitRun::Decoder => "decoder of units",
            UnitRun::Merger => "merger of units",
            UnitRun::Walk => "walk over units",
        }
    }

    /// Returns true if the run gives the pieces of the row.
    pub(crate) fn agrees(self, alloc: Global, row: &UnitRow<'_>) -> io::Result<bool> {
        match self {
            UnitRun::Decoder => Ok(decoder_agrees(alloc, row)?),
            UnitRun::Merger => Ok(merger_agrees(alloc, row)?),
            UnitRun::Walk => Ok(walk_agrees(alloc, row)?),
        }
    }
}

fn decoder_agrees(alloc: Global, row: &UnitRow<'_>) -> Result<bool, AllocError> {
    let mut run = String::new(alloc);
    for (place, answer, len) in row.units.as_slice().utf16char_indices() {
        if !run.is_empty() {
            run.push(';')?;
        }
        run.push_str(&piece_text(alloc, place, answer.map(|c| c.to_char()), len)?)?;
    }
    Ok(run.as_str() == row.pieces)
}

fn walk_agrees(alloc: Global, row: &UnitRow<'_>) -> Result<bool, AllocError> {
    let mut walk = String::new(alloc);
    for entry in walk_utf16(alloc, &row.units, &row.word)? {
        if !walk.is_empty() {
            walk.push(';')?;
        }
        match entry {
            Some((place, answer, len)) => {
                walk.push_str(&piece_text(alloc, place, answer.map(|c| c.to_char()), len)?)?;
            }
            None => walk.push_str("none")?,
        }
    }
    Ok(walk.as_str() == row.walk)
}

// Compares only results: what follows the last space of each piece.
fn merger_agrees(alloc: Global, row: &UnitRow<'_>) -> Result<bool, AllocError> {
    let mut pieces = row.pieces.split_terminator(';');
    for answer in row.units.iter().copied().to_utf16chars() {
        let answer = answer_text(alloc, answer.map(|c| c.to_char()))?;
        let piece = pieces.next().unwrap_or("");
        if piece.rsplit(' ').next() != Some(answer.as_str()) {
            return Ok(false);
        }
    }
    Ok(pieces.next().is_none())
}

// A piece as the vectors write it.
fn piece_text(
    alloc: Global,
    place: usize,
    answer: Result<char, Utf16PairError>,
    len: usize,
) -> Result<String, AllocError> {
    let answer = answer_text(alloc, answer)?;
    format!(in alloc; "{place} {len} {answer}")
}

// A result without offset and length.
fn answer_text(alloc: Global, answer: Result<char, Utf16PairError>) -> Result<String, AllocError> {
    match answer {
        Ok(c) => format!(in alloc; "{:06x}", c as u32),
        Err(error) => format!(in alloc; "{error:?}"),
    }
}
