//! The kinds of run that are compared with the vectors.

use crate::rows::Row;
use cuts::{Counted, walk_utf8, write_listing};
use encode_unicode::error::Utf8Error;
use encode_unicode::{CharExt, U8IterExt, U8SliceExt, Utf8Char};
use std::alloc::{AllocError, Global};
use std::io;

/// A kind of run over some bytes.
#[derive(Clone, Copy)]
pub(crate) enum Run {
    /// The first piece only, by the calls that decode the front of a slice.
    Front,
    /// Each piece in turn, by the decoder.
    Decoder,
    /// The lines of all pieces, and how many of them are errors.
    Listing,
    /// The pieces from both ends, as the letters of the row's word ask for them.
    Walk,
    /// Each result in turn, by the merger.
    Merger,
}

impl Run {
    pub(crate) fn name(self) -> &'static str {
        match self {
            Run::Front => "front",
            Run::Decoder => "decoder",
            Run::Listing => "listing",
            Run::Walk => "walk",
            Run::Merger => "merger",
        }
    }

    /// Returns true if the run gives what the row says of it.
    pub(crate) fn agrees(self, alloc: Global, row: &Row<'_>) -> io::Result<bool> {
        match self {
            Run::Front => Ok(front_agrees(alloc, row)?),
            Run::Decoder => Ok(decoder_agrees(alloc, row)?),
            Run::Listing => listing_agrees(alloc, row),
            Run::Walk => Ok(walk_agrees(alloc, row)?),
            Run::Merger => Ok(merger_agrees(alloc, row)?),
        }
    }
}

fn front_agrees(alloc: Global, row: &Row<'_>) -> Result<bool, AllocError> {
    let front = row.pieces.split(';').next().unwrap_or("");
    let front = if front.is_empty() {
        "0 1 TooFewBytes"
    } else {
        front
    };
    let by_char = match char::from_utf8_slice_start(&row.bytes) {
        Ok((c, len)) => piece_text(alloc, 0, Ok(c), len)?,
        Err(error) => piece_text(alloc, 0, Err(error), 1)?,
    };
    let by_code = match Utf8Char::from_slice_start(&row.bytes) {
        Ok((c, len)) => piece_text(alloc, 0, Ok(c.to_char()), len)?,
        Err(error) => piece_text(alloc, 0, Err(error), 1)?,
    };
    Ok(by_char.as_str() == front && by_code.as_str() == front)
}

fn decoder_agrees(alloc: Global, row: &Row<'_>) -> Result<bool, AllocError> {
    let mut run = String::new(alloc);
    for (place, answer, len) in row.bytes.as_slice().utf8char_indices() {
        if !run.is_empty() {
            run.push(';')?;
        }
        let piece = piece_text(alloc, place, answer.map(|c| c.to_char()), len)?;
        run.push_str(&piece)?;
    }
    Ok(run.as_str() == row.pieces)
}

fn listing_agrees(alloc: Global, row: &Row<'_>) -> io::Result<bool> {
    let mut out = Counted::new(Vec::new(alloc));
    let faults = write_listing(&row.bytes, &mut out)?;
    let lines = String::from_utf8(out.into_inner());
    let pieces = row.pieces.split_terminator(';');
    let errors = row
        .pieces
        .split_terminator(';')
        .filter(|piece| is_error(piece))
        .count();
    Ok(lines.is_ok_and(|lines| lines.lines().eq(pieces)) && faults == errors)
}

fn walk_agrees(alloc: Global, row: &Row<'_>) -> Result<bool, AllocError> {
    let mut walk = String::new(alloc);
    for entry in walk_utf8(alloc, &row.bytes, &row.word)? {
        if !walk.is_empty() {
            walk.push(';')?;
        }
        match entry {
            Some((place, answer, len)) => {
                walk.push_str(&piece_text(alloc, place, answer.map(|c| c.to_char()), len)?)?;
            }
            None => walk.push_str("none")?,
        }
    }
    Ok(walk.as_str() == row.walk)
}

fn merger_agrees(alloc: Global, row: &Row<'_>) -> Result<bool, AllocError> {
    let mut run = String::new(alloc);
    for answer in row.bytes.iter().copied().to_utf8chars() {
        if !run.is_empty() {
            run.push(';')?;
        }
        let answer = answer_text(alloc, answer.map(|c| c.to_char()))?;
        run.push_str(&answer)?;
    }
    Ok(run.as_str() == row.merged)
}

// Returns true if the piece names an error: only then it has a capital letter.
fn is_error(piece: &str) -> bool {
    piece.bytes().any(|byte| byte.is_ascii_uppercase())
}

// A piece as the vectors write it.
fn piece_text(
    alloc: Global,
    place: usize,
    answer: Result<char, Utf8Error>,
    len: usize,
) -> Result<String, AllocError> {
    let answer = answer_text(alloc, answer)?;
    format!(in alloc; "{place} {len} {answer}")
}

// A result without offset and length.
fn answer_text(alloc: Global, answer: Result<char, Utf8Error>) -> Result<String, AllocError> {
    match answer {
        Ok(c) => format!(in alloc; "{:06x}", c as u32),
        Err(error) => format!(in alloc; "{:?}", error.kind()),
    }
}
