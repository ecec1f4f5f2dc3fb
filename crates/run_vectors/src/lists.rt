//! Rows of lists that a call collects: `CALL|ELEMENTS|WORD|ANSWERS|GROWTHS`.
//!
//! The elements are bytes or units in hexadecimal, and the results have `;` after each. The last column says how
//! many allocations fail before the list is complete: its capacity begins at four entries and doubles.

use crate::columns::{column, number, word_of};
use cuts::{
    Counted, End, UnitItem, forward_utf16, merge_utf8, merge_utf16, walk_utf8, walk_utf16,
    write_merged, write_walk,
};
use encode_unicode::Utf16Char;
use encode_unicode::error::Utf16PairError;
use fakes::budget::Budget;
use fakes::rows::{bytes_of, units_of, wrong_row};
use std::alloc::{AllocError, Global};
use std::io;

// Appends a text and `;`.
fn push(all: &mut Vec<u8>, text: &str) -> Result<(), AllocError> {
    all.extend_from_slice(text.as_bytes())?;
    all.push(b';')?;
    Ok(())
}

fn push_answer(
    alloc: Global,
    all: &mut Vec<u8>,
    answer: Result<Utf16Char, Utf16PairError>,
) -> Result<(), AllocError> {
    match answer {
        Ok(c) => push(all, &format!(in alloc; "{:06x}", c.to_char() as u32)?),
        Err(error) => push(all, &format!(in alloc; "{error:?}")?),
    }
}

fn push_item(alloc: Global, all: &mut Vec<u8>, item: UnitItem) -> Result<(), AllocError> {
    let (place, answer, len) = item;
    all.extend_from_slice(format!(in alloc; "{place} {len} ")?.as_bytes())?;
    push_answer(alloc, all, answer)
}

fn walk_bytes(
    alloc: Global,
    budget: &Budget<Global>,
    bytes: &[u8],
    word: &[End],
) -> Result<Vec<u8>, AllocError> {
    let mut out = Counted::new(Vec::new(alloc));
    match write_walk(&walk_utf8(budget, bytes, word)?, &mut out) {
        Ok(_) => Ok(out.into_inner()),
        Err(_) => Err(AllocError),
    }
}

fn merge_bytes(
    alloc: Global,
    budget: &Budget<Global>,
    bytes: &[u8],
) -> Result<Vec<u8>, AllocError> {
    let mut out = Counted::new(Vec::new(alloc));
    match write_merged(&merge_utf8(budget, bytes.iter().copied())?, &mut out) {
        Ok(_) => Ok(out.into_inner()),
        Err(_) => Err(AllocError),
    }
}

fn walk_units(
    alloc: Global,
    budget: &Budget<Global>,
    units: &[u16],
    word: &[End],
) -> Result<Vec<u8>, AllocError> {
    let mut all = Vec::new(alloc);
    for entry in walk_utf16(budget, units, word)?.iter() {
        match entry {
            Some(item) => push_item(alloc, &mut all, *item)?,
            None => push(&mut all, "none")?,
        }
    }
    Ok(all)
}

fn merge_units(
    alloc: Global,
    budget: &Budget<Global>,
    units: &[u16],
) -> Result<Vec<u8>, AllocError> {
    let mut all = Vec::new(alloc);
    for answer in merge_utf16(budget, units.iter().copied())?.iter() {
        push_answer(alloc, &mut all, *answer)?;
    }
    Ok(all)
}

fn forward_units(
    alloc: Global,
    budget: &Budget<Global>,
    units: &[u16],
) -> Result<Vec<u8>, AllocError> {
    let mut all = Vec::new(alloc);
    for item in forward_utf16(budget, units)?.iter() {
        push_item(alloc, &mut all, *item)?;
    }
    Ok(all)
}

// A call that collects a list, and what it is given.
#[derive(Drop)]
enum Call {
    WalkBytes(Vec<u8>, Vec<End>),
    MergeBytes(Vec<u8>),
    WalkUnits(Vec<u16>, Vec<End>),
    MergeUnits(Vec<u16>),
    ForwardUnits(Vec<u16>),
}

impl Call {
    // The list as text, if the remaining allocations are enough.
    fn collect(&self, alloc: Global, budget: &Budget<Global>) -> Result<Vec<u8>, AllocError> {
        match self {
            Call::WalkBytes(bytes, word) => walk_bytes(alloc, budget, bytes, word),
            Call::MergeBytes(bytes) => merge_bytes(alloc, budget, bytes),
            Call::WalkUnits(units, word) => walk_units(alloc, budget, units, word),
            Call::MergeUnits(units) => merge_units(alloc, budget, units),
            Call::ForwardUnits(units) => forward_units(alloc, budget, units),
        }
    }
}

fn call_of(alloc: Global, row: &str) -> io::Result<Call> {
    let (elements, word) = (column(row, 1), word_of(alloc, column(row, 2))?);
    match column(row, 0) {
        "walk_utf8" => Ok(Call::WalkBytes(bytes_of(alloc, elements)?, word)),
        "merge_utf8" => Ok(Call::MergeBytes(bytes_of(alloc, elements)?)),
        "walk_utf16" => Ok(Call::WalkUnits(units_of(alloc, elements)?, word)),
        "merge_utf16" => Ok(Call::MergeUnits(units_of(alloc, elements)?)),
        "forward_utf16" => Ok(Call::ForwardUnits(units_of(alloc, elements)?)),
        _ => Err(wrong_row()),
    }
}

// Returns true if the list is that of the row, with a line feed or `;` after each entry.
fn is_list(list: &[u8], answers: &str) -> bool {
    list.iter()
        .map(|byte| if *byte == b'\n' { b';' } else { *byte })
        .eq(answers.bytes())
}

/// Returns true if the list is as the row says, after as many failed allocations.
pub(crate) fn agrees(alloc: Global, row: &str) -> io::Result<bool> {
    let call = call_of(alloc, row)?;
    for growths in 0..100 {
        let budget = Budget::new(alloc, growths);
        if let Ok(list) = call.collect(alloc, &budget) {
            return Ok(
                is_list(&list, column(row, 3)) && number(column(row, 4)) == Some(growths as usize),
            );
        }
    }
    Ok(false)
}
