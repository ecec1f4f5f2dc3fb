//! Each write of some lines fails in turn, until none does: there is an error, and never `Ok` with a line
//! missing. The rows are those of whole runs of `pieces`.

use crate::columns::word_of;
use crate::runs::{Row, parse, writes_of};
use cuts::{Counted, merge_utf8, walk_utf8, write_listing, write_merged, write_walk};
use fakes::fuse::{Failure, Fuse};
use std::alloc::Global;
use std::io;
use std::io::ErrorKind;

// Writes the lines of the row's run.
fn write(alloc: Global, row: &Row<'_>, out: &mut Counted<Fuse<'_>>) -> io::Result<usize> {
    match row.args.strip_prefix("--ends,") {
        Some(letters) => {
            let word = word_of(alloc, letters.trim_end_matches(','))?;
            write_walk(&walk_utf8(alloc, &row.input, &word)?, out)
        }
        None if row.args.is_empty() => write_listing(&row.input, out),
        None => write_merged(&merge_utf8(alloc, row.input.iter().copied())?, out),
    }
}

// The number of lines that name an error: only these have a capital letter.
fn errors_of(lines: &[u8]) -> usize {
    let mut errors = 0usize;
    for line in lines.split(|byte| *byte == b'\n') {
        if line.iter().any(|byte| byte.is_ascii_uppercase()) {
            errors = errors.saturating_add(1);
        }
    }
    errors
}

// How often a write fails before all succeed, or `None` if they then end in another way.
fn refusals(alloc: Global, row: &Row<'_>, failure: Failure, most: usize) -> Option<usize> {
    let kind = match failure {
        Failure::Error(kind) => kind,
        Failure::Nothing => ErrorKind::WriteZero,
    };
    for passes in 0..10_000 {
        let mut writer = Fuse::failing(alloc, passes, failure);
        writer.most = most.max(1);
        let mut out = Counted::new(writer);
        let answer = write(alloc, row, &mut out).map_err(|error| error.kind());
        let writer = out.into_inner();
        if answer == Ok(errors_of(&row.output)) {
            return (writer.written.as_slice() == row.output.as_slice()).then_some(passes as usize);
        }
        let is_last = writer.given.len() == passes as usize + 1;
        if answer != Err(kind) || !is_last || !row.output.starts_with(&writer.written) {
            return None;
        }
    }
    None
}

/// Returns true if a failure of each write is reported, whatever its kind.
pub(crate) fn agrees(alloc: Global, row: &str) -> io::Result<bool> {
    let row = parse(alloc, row)?;
    if row.recodes || row.status == 2 {
        return Ok(true);
    }
    for failure in [
        Failure::Error(ErrorKind::BrokenPipe),
        Failure::Error(ErrorKind::Interrupted),
        Failure::Nothing,
    ] {
        for most in [usize::MAX, 3, 1] {
            if refusals(alloc, &row, failure, most) != Some(writes_of(&row.output, most)) {
                return Ok(false);
            }
        }
    }
    Ok(true)
}
