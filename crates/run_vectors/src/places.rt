//! Rows of calls that return an offset or a size: `CALL|ELEMENTS|ASKED|ANSWER`.
//!
//! The elements are bytes or units in hexadecimal. `shard_end` has the arguments `FORM PLACE`, and `room_for` has
//! `FORM FORM LENGTH`, where `none` represents no size. `front_of_text` is given a scalar, and returns its encoded
//! length.

use crate::columns::{column, number};
use crate::recodings::form_of;
use cuts::{front_of_text, room_for, shard_end, units_valid_up_to, valid_up_to};
use fakes::rows::{bytes_of, units_of, wrong_row};
use std::alloc::Global;
use std::io;

/// Returns true if the call returns what the row says.
pub(crate) fn agrees(alloc: Global, row: &str) -> io::Result<bool> {
    let answer = answer_of(alloc, row)?;
    Ok(match column(row, 3) {
        "none" => answer.is_none(),
        place => answer.is_some() && answer == number(place),
    })
}

fn answer_of(alloc: Global, row: &str) -> io::Result<Option<usize>> {
    let (elements, asked) = (column(row, 1), column(row, 2));
    match column(row, 0) {
        "valid_up_to" => Ok(Some(valid_up_to(&bytes_of(alloc, elements)?))),
        "units_valid_up_to" => Ok(Some(units_valid_up_to(&units_of(alloc, elements)?))),
        "shard_end" => Ok(Some(end_of(asked, &bytes_of(alloc, elements)?)?)),
        "room_for" => size_of(asked),
        "front_of_text" => Ok(text_len(asked, &bytes_of(alloc, elements)?)),
        _ => Err(wrong_row()),
    }
}

fn end_of(asked: &str, bytes: &[u8]) -> io::Result<usize> {
    let (form, at) = asked.split_once(' ').ok_or(wrong_row())?;
    let at = number(at).ok_or(wrong_row())?;
    Ok(shard_end(form_of(form)?, bytes, at))
}

// The encoded length of the scalar if the bytes begin with it, or 0 if they begin with another.
fn text_len(asked: &str, bytes: &[u8]) -> Option<usize> {
    let (c, len) = front_of_text(bytes)?;
    Some(if number(asked) == Some(c as usize) {
        len
    } else {
        0
    })
}

fn size_of(asked: &str) -> io::Result<Option<usize>> {
    let (from, rest) = asked.split_once(' ').ok_or(wrong_row())?;
    let (to, len) = rest.split_once(' ').ok_or(wrong_row())?;
    let len = number(len).ok_or(wrong_row())?;
    Ok(room_for(form_of(from)?, form_of(to)?, len))
}
