//! Rows of replacements in a table: `BYTES|PIECES|START|END|NEW|BYTES|PIECES|GROWTHS|GROWTHS`.
//!
//! The bytes and the pieces are given before and after the replacement, in hexadecimal and with `;` after each
//! piece. The last two columns may say how many allocations fail of the new table, and of the replacement.

use crate::columns::{column, number};
use crate::entries::entries_of;
use cuts::PieceTable;
use encode_unicode::Steps;
use fakes::budget::Budget;
use fakes::rows::bytes_of;
use std::alloc::{AllocError, Allocator, Global};
use std::io;

// Returns true if the table has the bytes and pieces of the two columns from this one on.
fn is_table<A: Allocator + Copy>(
    alloc: Global,
    table: &PieceTable<A>,
    row: &str,
    first: usize,
) -> io::Result<bool> {
    let bytes = bytes_of(alloc, column(row, first))?;
    let pieces = entries_of(alloc, column(row, first.saturating_add(1)))?;
    Ok(
        table.bytes() == bytes.as_slice()
            && pieces
                .iter()
                .copied()
                .eq(table.pieces().iter().map(|item| Some(*item))),
    )
}

// Makes the replacement of the row, if its range is in the table.
fn replace<A: Allocator + Copy>(
    table: &mut PieceTable<A>,
    row: &str,
    new: &[u8],
) -> Option<Result<(), AllocError>> {
    let start = number(column(row, 2))?;
    let end = number(column(row, 3))?;
    if start > end || end > table.bytes().len() {
        return None;
    }
    Some(table.replace(start, end, new, &mut Steps::new()))
}

// How often the new table's allocation fails, if the table is then that of the row.
fn refusals_of_new(alloc: Global, row: &str) -> io::Result<Option<usize>> {
    let bytes = bytes_of(alloc, column(row, 0))?;
    for growths in 0..100 {
        let budget = Budget::new(alloc, growths);
        if let Ok(table) = PieceTable::new(&budget, &bytes) {
            return Ok(is_table(alloc, &table, row, 0)?.then_some(growths as usize));
        }
    }
    Ok(None)
}

// How often the replacement's allocation fails, if that leaves the table as it was, and the table is in the
// end that of the row.
fn refusals_of_replacing(alloc: Global, row: &str) -> io::Result<Option<usize>> {
    let bytes = bytes_of(alloc, column(row, 0))?;
    let new = bytes_of(alloc, column(row, 4))?;
    for growths in 0..100 {
        let budget = Budget::new(alloc, u32::MAX);
        let mut table = PieceTable::new(&budget, &bytes)?;
        budget.allow(growths);
        match replace(&mut table, row, &new) {
            Some(Ok(())) => return Ok(is_table(alloc, &table, row, 5)?.then_some(growths as usize)),
            Some(Err(_)) if is_table(alloc, &table, row, 0)? => {}
            _ => return Ok(None),
        }
    }
    Ok(None)
}

// Returns true if there is a count and it equals that of the column, if the column has one.
fn is_count(count: Option<usize>, column: &str) -> bool {
    count.is_some() && (column.is_empty() || count == number(column))
}

/// Returns true if the replacement is as the row says, and the table is as it was whenever allocation fails.
pub(crate) fn agrees(alloc: Global, row: &str) -> io::Result<bool> {
    Ok(
        is_count(refusals_of_new(alloc, row)?, column(row, 7))
            && is_count(refusals_of_replacing(alloc, row)?, column(row, 8)),
    )
}
