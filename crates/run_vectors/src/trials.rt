//! Each read, write and allocation of a run fails in turn, until none does.

use crate::runs::{Row, Trial, parse, run, writes_of};
use fakes::fuse::{Failure, Plan};
use std::alloc::{AllocError, Global};
use std::io;
use std::io::ErrorKind;

// What fails in a run.
#[derive(Clone, Copy)]
enum Refused {
    Read(ErrorKind),
    Reads,
    Write(ErrorKind),
    Writes(Failure),
    Growth,
}

impl Refused {
    // The trial in which the first `passes` calls succeed.
    fn trial(self, passes: u32, most: usize) -> Trial {
        let mut trial = Trial::pass(most);
        match self {
            Refused::Read(kind) => trial.reads = Plan::fail_once(passes, kind),
            Refused::Reads => trial.reads = Plan::fail(passes, Failure::Nothing),
            Refused::Write(kind) => trial.writes = Plan::fail_once(passes, kind),
            Refused::Writes(failure) => trial.writes = Plan::fail(passes, failure),
            Refused::Growth => trial.growths = passes,
        }
        trial
    }

    // The message for it.
    fn text(self) -> &'static str {
        match self {
            Refused::Read(_) | Refused::Reads => "cannot read",
            Refused::Write(_) | Refused::Writes(_) => "cannot write",
            Refused::Growth => "no memory",
        }
    }
}

// How often it fails before the run is whole, or `None` if the run then ends in another way. `pieces` writes
// nothing if a read or an allocation fails, and each write that fails is its last.
fn refusals(
    alloc: Global,
    row: &Row<'_>,
    refused: Refused,
    most: usize,
) -> Result<Option<usize>, AllocError> {
    for passes in 0..10_000 {
        let ended = run(alloc, row, refused.trial(passes, most))?;
        if ended.is_whole(row) {
            return Ok(Some(passes as usize));
        }
        let writes = ended.out.given.len();
        let is_last = match refused {
            Refused::Write(_) | Refused::Writes(_) => writes == passes as usize + 1,
            _ => row.recodes || writes == 0,
        };
        if !is_last || !ended.is_stopped(row, refused.text()) {
            return Ok(None);
        }
    }
    Ok(None)
}

/// Returns true if each read can fail, once or for good, and the run reports it.
pub(crate) fn reads_agree(alloc: Global, row: &str) -> io::Result<bool> {
    let row = parse(alloc, row)?;
    let count = if row.status == 2 {
        Some(0)
    } else {
        Some(row.input.len().div_ceil(2) + 1)
    };
    for refused in [
        Refused::Read(ErrorKind::Other),
        Refused::Read(ErrorKind::UnexpectedEof),
        Refused::Reads,
    ] {
        if refusals(alloc, &row, refused, 2)? != count {
            return Ok(false);
        }
    }
    Ok(true)
}

/// Returns true if a run whose read is interrupted goes on.
pub(crate) fn interrupted_agree(alloc: Global, row: &str) -> io::Result<bool> {
    let row = parse(alloc, row)?;
    for passes in 0..row.input.len().min(100) {
        let refused = Refused::Read(ErrorKind::Interrupted);
        let ended = run(alloc, &row, refused.trial(passes as u32, 1))?;
        if !ended.is_whole(&row) {
            return Ok(false);
        }
    }
    Ok(true)
}

/// Returns true if each write can fail, once and for good, of all that is gathered, of three bytes, and of
/// one.
pub(crate) fn writes_agree(alloc: Global, row: &str) -> io::Result<bool> {
    let row = parse(alloc, row)?;
    for refused in [
        Refused::Write(ErrorKind::Interrupted),
        Refused::Writes(Failure::Error(ErrorKind::BrokenPipe)),
        Refused::Writes(Failure::Error(ErrorKind::Interrupted)),
        Refused::Writes(Failure::Nothing),
    ] {
        for most in [usize::MAX, 3, 1] {
            let count = refusals(alloc, &row, refused, most)?;
            if !count.is_some_and(|count| is_write_count(&row, count, most)) {
                return Ok(false);
            }
        }
    }
    Ok(true)
}

// Returns true if the run makes `count` writes of at most `most` bytes. `recode` makes one for each part that it
// reads, if it writes anything.
fn is_write_count(row: &Row<'_>, count: usize, most: usize) -> bool {
    if row.recodes {
        (count > 0) == !row.output.is_empty()
    } else {
        count == writes_of(&row.output, most)
    }
}

/// Returns true if each allocation can fail, and the run reports it.
pub(crate) fn growths_agree(alloc: Global, row: &str) -> io::Result<bool> {
    let row = parse(alloc, row)?;
    let count = refusals(alloc, &row, Refused::Growth, 2)?;
    Ok(count.is_some() && (row.growths.is_none() || count == row.growths))
}
