//! Rows of bytes and what they are transcoded to: `FROM TO|INPUT|OUTPUT|GROWTHS`, in hexadecimal.
//!
//! The last column says how many allocations fail when the bytes are fed one by one: one for each of them, and
//! one for the end if bytes are carried over. Bytes are carried over while they are the beginning of a
//! character.
//!
//! Other rows have bytes and which of them are carried over: `FROM TO|FED|OUTPUT|HELD`; the output is the one
//! before the end.

use crate::columns::{column, number};
use cuts::{Form, Recoder, shard_end};
use fakes::budget::Budget;
use fakes::rows::{bytes_of, wrong_row};
use std::alloc::{AllocError, Allocator, Global};
use std::io;

/// The encoding of that name.
pub(crate) fn form_of(name: &str) -> io::Result<Form> {
    match name {
        "utf8" => Ok(Form::Utf8),
        "utf16le" => Ok(Form::Utf16Le),
        "utf16be" => Ok(Form::Utf16Be),
        _ => Err(wrong_row()),
    }
}

/// The two encodings of the row.
pub(crate) fn forms_of(row: &str) -> io::Result<(Form, Form)> {
    let (from, to) = column(row, 0).split_once(' ').ok_or(wrong_row())?;
    Ok((form_of(from)?, form_of(to)?))
}

// A new recoder for the encodings of the row.
fn recoder_of(row: &str) -> io::Result<Recoder> {
    let (from, to) = forms_of(row)?;
    Ok(Recoder::new(from, to))
}

// A new recoder that has taken over the bytes that another carries over.
fn taken_over(row: &str, recoder: &Recoder) -> io::Result<Recoder> {
    let (from, to) = forms_of(row)?;
    Ok(Recoder::holding(from, to, recoder.held()))
}

fn finish<A: Allocator>(recoder: Recoder, out: &mut Vec<u8, A>) -> Result<(), AllocError> {
    recoder.finish(out)?;
    Ok(())
}

// Appends the transcoded input, fed in two parts that are cut at this offset, with an empty part between
// them.
fn recode_two(row: &str, front: &[u8], back: &[u8], out: &mut Vec<u8>) -> io::Result<()> {
    let mut recoder = recoder_of(row)?;
    recoder.feed(front, out)?;
    recoder.feed(&[], out)?;
    recoder.feed(back, out)?;
    Ok(finish(recoder, out)?)
}

// Appends the transcoded input, fed in parts of `size` bytes.
fn recode_parts(row: &str, input: &[u8], size: usize, out: &mut Vec<u8>) -> io::Result<()> {
    let mut recoder = recoder_of(row)?;
    for part in input.chunks(size.max(1)) {
        recoder.feed(part, out)?;
    }
    Ok(finish(recoder, out)?)
}

// Returns true if the bytes after `BEFORE` are the output of the row.
fn is_output(alloc: Global, row: &str, out: &[u8]) -> io::Result<bool> {
    let output = bytes_of(alloc, column(row, 2))?;
    Ok(out.strip_prefix(BEFORE) == Some(output.as_slice()))
}

// The initial contents of each output.
const BEFORE: &[u8] = b"before";

fn before(alloc: Global) -> Result<Vec<u8>, AllocError> {
    let mut out = Vec::new(alloc);
    out.extend_from_slice(BEFORE)?;
    Ok(out)
}

/// Returns true if the row agrees however its input is cut: into two parts, with an empty one between them,
/// and into parts of any one size. The output is appended to what was there.
pub(crate) fn parts_agree(alloc: Global, row: &str) -> io::Result<bool> {
    let input = bytes_of(alloc, column(row, 1))?;
    for place in 0..=input.len() {
        let mut out = before(alloc)?;
        let (front, back) = input.split_at(place);
        recode_two(row, front, back, &mut out)?;
        let mut parts = before(alloc)?;
        recode_parts(row, &input, place, &mut parts)?;
        if !is_output(alloc, row, &out)? || !is_output(alloc, row, &parts)? {
            return Ok(false);
        }
    }
    Ok(true)
}

// The capacity, in bytes, that is enough for each row.
const AMPLE: usize = 512;

// Appends the transcoded input, first through a buffer of `size` bytes and then through one of `AMPLE`; another
// recoder takes over after each call.
fn recode_rooms(row: &str, input: &[u8], size: usize, out: &mut Vec<u8>) -> io::Result<()> {
    let mut room = [0; AMPLE];
    let mut recoder = recoder_of(row)?;
    let first = recoder.feed_into(input, &mut room[..size.min(AMPLE)]);
    out.extend_from_slice(&room[..first.written])?;
    let mut recoder = taken_over(row, &recoder)?;
    let then = recoder.feed_into(&input[first.read..], &mut room);
    out.extend_from_slice(&room[..then.written])?;
    finish_rooms(row, recoder, size, out)
}

// Finishes first into a buffer of `size` bytes and then into one of `AMPLE`; another recoder takes over after
// each call.
fn finish_rooms(row: &str, recoder: Recoder, size: usize, out: &mut Vec<u8>) -> io::Result<()> {
    let mut room = [0; AMPLE];
    let mut recoder = taken_over(row, &recoder)?;
    let end = recoder.finish_into(&mut room[..size.min(AMPLE)]);
    out.extend_from_slice(&room[..end.written])?;
    let mut recoder = taken_over(row, &recoder)?;
    let last = recoder.finish_into(&mut room);
    out.extend_from_slice(&room[..last.written])?;
    Ok(())
}

/// Returns true if the row agrees for a first buffer of each size, from none to the length of the output.
pub(crate) fn rooms_agree(alloc: Global, row: &str) -> io::Result<bool> {
    let input = bytes_of(alloc, column(row, 1))?;
    for size in 0..=column(row, 2).len() / 2 {
        let mut out = before(alloc)?;
        recode_rooms(row, &input, size, &mut out)?;
        if !is_output(alloc, row, &out)? {
            return Ok(false);
        }
    }
    Ok(true)
}

/// Returns true if the row agrees when its input is cut into two shards, at the boundary for each offset in it, and
/// each is transcoded separately.
pub(crate) fn shards_agree(alloc: Global, row: &str) -> io::Result<bool> {
    let input = bytes_of(alloc, column(row, 1))?;
    let (from, _) = forms_of(row)?;
    for at in 0..=input.len() {
        let mut out = before(alloc)?;
        let (front, rest) = input.split_at(shard_end(from, &input, at));
        recode_parts(row, front, front.len(), &mut out)?;
        recode_parts(row, rest, rest.len(), &mut out)?;
        if !is_output(alloc, row, &out)? {
            return Ok(false);
        }
    }
    Ok(true)
}

// Returns true if the output is that of the row, and the recoder carries over the bytes that the row says.
fn is_left(alloc: Global, row: &str, recoder: &Recoder, out: &[u8]) -> io::Result<bool> {
    let output = bytes_of(alloc, column(row, 2))?;
    let held = bytes_of(alloc, column(row, 3))?;
    Ok(out == output.as_slice() && recoder.held() == held.as_slice())
}

// Returns true if output and carried-over bytes agree when the bytes are fed in parts of `size` bytes, to a
// list.
fn is_left_of(alloc: Global, row: &str, fed: &[u8], size: usize) -> io::Result<bool> {
    let mut out = Vec::new(alloc);
    let mut recoder = recoder_of(row)?;
    for part in fed.chunks(size.max(1)) {
        recoder.feed(part, &mut out)?;
    }
    is_left(alloc, row, &recoder, &out)
}

// Returns true if output and carried-over bytes agree when the bytes are fed in parts of `size` bytes, into
// an ample buffer.
fn is_left_of_room(alloc: Global, row: &str, fed: &[u8], size: usize) -> io::Result<bool> {
    let mut out = Vec::new(alloc);
    let mut room = [0; AMPLE];
    let mut recoder = recoder_of(row)?;
    for part in fed.chunks(size.max(1)) {
        let progress = recoder.feed_into(part, &mut room);
        out.extend_from_slice(&room[..progress.written])?;
    }
    is_left(alloc, row, &recoder, &out)
}

/// Returns true if the row of carried-over bytes agrees, by `feed` and by `feed_into`, for parts of any one
/// size.
pub(crate) fn held_agree(alloc: Global, row: &str) -> io::Result<bool> {
    let fed = bytes_of(alloc, column(row, 1))?;
    for size in 1..=fed.len() {
        if !is_left_of(alloc, row, &fed, size)? || !is_left_of_room(alloc, row, &fed, size)? {
            return Ok(false);
        }
    }
    Ok(true)
}

// Feeds the byte with no allocation allowed and, if that fails, with one more. Returns whether it failed and
// left the output as it was.
fn feed_refused(
    recoder: &mut Recoder,
    byte: u8,
    budget: &Budget<Global>,
    out: &mut Vec<u8, &Budget<Global>>,
) -> Result<bool, AllocError> {
    budget.allow(0);
    if recoder.feed(&[byte], out).is_ok() {
        return Ok(false);
    }
    let is_unchanged = out.is_empty();
    budget.allow(1);
    recoder.feed(&[byte], out)?;
    Ok(is_unchanged)
}

// Finishes with no allocation allowed and, if that fails, with one more. Returns whether it failed and left
// the output as it was.
fn finish_refused(
    recoder: Recoder,
    budget: &Budget<Global>,
    out: &mut Vec<u8, &Budget<Global>>,
) -> Result<bool, AllocError> {
    budget.allow(0);
    match recoder.finish(out) {
        Ok(_) => Ok(false),
        Err(unfinished) => {
            let is_unchanged = out.is_empty();
            budget.allow(1);
            finish(unfinished.recoder, out)?;
            Ok(is_unchanged)
        }
    }
}

/// Returns true if each failed allocation of `feed` and `finish` leaves recoder and output as they were, and the
/// repeated call gives the expected output. The output is taken out after each byte, so that each call allocates.
pub(crate) fn refused_parts_agree(alloc: Global, row: &str) -> io::Result<bool> {
    let budget = Budget::new(alloc, 0);
    let mut all = before(alloc)?;
    let mut recoder = recoder_of(row)?;
    let mut refused = 0usize;
    for byte in bytes_of(alloc, column(row, 1))?.iter() {
        let mut out = Vec::new(&budget);
        if feed_refused(&mut recoder, *byte, &budget, &mut out)? {
            refused = refused.saturating_add(1);
        }
        all.extend_from_slice(out.as_slice())?;
    }
    let mut out = Vec::new(&budget);
    if finish_refused(recoder, &budget, &mut out)? {
        refused = refused.saturating_add(1);
    }
    all.extend_from_slice(out.as_slice())?;
    Ok(number(column(row, 3)) == Some(refused) && is_output(alloc, row, &all)?)
}
