//! Rows of the entries of a walk, with `;` after each: `OFFSET LENGTH ANSWER` or `none`. A result is a scalar in
//! six hexadecimal digits or the name of an error.

use crate::columns::{column, lines_of, number};
use cuts::{Counted, Item, write_merged, write_walk};
use encode_unicode::Utf8Char;
use encode_unicode::error::{Utf8Error, Utf8ErrorKind};
use fakes::rows::wrong_row;
use std::alloc::Global;
use std::io;

/// The entries of a column.
pub(crate) fn entries_of(alloc: Global, column: &str) -> io::Result<Vec<Option<Item>>> {
    let mut entries = Vec::new(alloc);
    for entry in column.split_terminator(';') {
        entries.push(match entry {
            "none" => None,
            _ => Some(item_of(entry).ok_or(wrong_row())?),
        })?;
    }
    Ok(entries)
}

fn item_of(entry: &str) -> Option<Item> {
    let mut parts = entry.split(' ');
    let place = number(parts.next()?)?;
    let len = number(parts.next()?)?;
    Some((place, answer_of(parts.next()?)?, len))
}

fn answer_of(text: &str) -> Option<Result<Utf8Char, Utf8Error>> {
    match kind_of(text) {
        Some(kind) => Some(Err(Utf8Error::new(kind))),
        None => {
            let scalar = u32::from_str_radix(text, 16).ok()?;
            Some(Ok(Utf8Char::new(char::from_u32(scalar)?)))
        }
    }
}

fn kind_of(name: &str) -> Option<Utf8ErrorKind> {
    match name {
        "TooFewBytes" => Some(Utf8ErrorKind::TooFewBytes),
        "NonUtf8Byte" => Some(Utf8ErrorKind::NonUtf8Byte),
        "UnexpectedContinuationByte" => Some(Utf8ErrorKind::UnexpectedContinuationByte),
        "InterruptedSequence" => Some(Utf8ErrorKind::InterruptedSequence),
        "OverlongEncoding" => Some(Utf8ErrorKind::OverlongEncoding),
        "Utf16ReservedCodepoint" => Some(Utf8ErrorKind::Utf16ReservedCodepoint),
        "TooHighCodepoint" => Some(Utf8ErrorKind::TooHighCodepoint),
        _ => None,
    }
}

/// Returns true if the entries of the first column are written back unchanged, and their results as the
/// second column has them.
pub(crate) fn agrees(alloc: Global, row: &str) -> io::Result<bool> {
    let entries = entries_of(alloc, column(row, 0))?;
    let mut out = Counted::new(Vec::new(alloc));
    let is_written = write_walk(&entries, &mut out).is_ok();
    if !is_written || out.into_inner() != lines_of(alloc, column(row, 0))? {
        return Ok(false);
    }
    let mut answers = Vec::new(alloc);
    for (_, answer, _) in entries.iter().flatten() {
        answers.push(*answer)?;
    }
    let mut out = Counted::new(Vec::new(alloc));
    let is_written = write_merged(&answers, &mut out).is_ok();
    Ok(is_written && out.into_inner() == lines_of(alloc, column(row, 1))?)
}
