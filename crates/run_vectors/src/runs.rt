//! Rows of whole runs of `pieces` and `recode`: `WORDS|INPUT|STATUS|OUTPUT|SAID|GROWTHS`.
//!
//! The words have `,` after each, and the first is the program's name. The input is in hexadecimal, and so is the
//! output of `recode`; that of `pieces` has `;` for each line feed. The message on standard error has no line
//! feed, and the last column may say how many allocations the run makes.

use crate::columns::{column, lines_of, number, words_of};
use cuts::Counted;
use cuts::programs::mains::{Streams, arguments_of, pieces, recode};
use fakes::budget::Budget;
use fakes::fuse::{Fuse, Plan};
use fakes::rows::{bytes_of, wrong_row};
use std::alloc::{AllocError, Allocator, Global};
use std::io;

/// The contents of a row.
#[derive(Drop)]
pub(crate) struct Row<'a> {
    pub(crate) recodes: bool,
    pub(crate) words: &'a str,
    pub(crate) args: &'a str,
    pub(crate) input: Vec<u8>,
    pub(crate) status: usize,
    pub(crate) output: Vec<u8>,
    pub(crate) said: &'a str,
    pub(crate) growths: Option<usize>,
}

pub(crate) fn parse(alloc: Global, row: &str) -> io::Result<Row<'_>> {
    let words = column(row, 0);
    let recodes = words.starts_with("recode,");
    let output = column(row, 3);
    Ok(Row {
        recodes,
        words,
        args: words.split_once(',').map_or("", |(_, args)| args),
        input: bytes_of(alloc, column(row, 1))?,
        status: number(column(row, 2)).ok_or(wrong_row())?,
        output: if recodes {
            bytes_of(alloc, output)?
        } else {
            lines_of(alloc, output)?
        },
        said: column(row, 4),
        growths: number(column(row, 5)),
    })
}

/// How the streams of a run fail, how many bytes they pass a call, and how many allocations succeed.
#[derive(Clone, Copy)]
pub(crate) struct Trial {
    pub(crate) reads: Plan,
    pub(crate) writes: Plan,
    pub(crate) most: usize,
    pub(crate) growths: u32,
}

impl Trial {
    /// A trial without failures, of at most `most` bytes a call.
    pub(crate) fn pass(most: usize) -> Trial {
        Trial {
            reads: Plan::pass(),
            writes: Plan::pass(),
            most,
            growths: u32::MAX,
        }
    }
}

/// The outcome of a run.
#[derive(Drop)]
pub(crate) struct Ended<'a> {
    pub(crate) status: u8,
    /// The number of reads.
    pub(crate) reads: usize,
    pub(crate) out: Fuse<'a>,
    pub(crate) stderr: Fuse<'a>,
}

/// Runs the program of the row on its input.
pub(crate) fn run<'a>(
    alloc: Global,
    row: &'a Row<'_>,
    trial: Trial,
) -> Result<Ended<'a>, AllocError> {
    let budget = Budget::new(alloc, u32::MAX);
    let words = words_of(&budget, row.words)?;
    budget.allow(trial.growths);
    let mut input = Fuse::over(alloc, &row.input);
    input.plan = trial.reads;
    input.most = trial.most.max(1);
    let mut writer = Fuse::ample(alloc);
    writer.plan = trial.writes;
    writer.most = trial.most.max(1);
    let out = Counted::new(writer);
    Ok(if row.recodes {
        convert(alloc, &budget, words, input, out)
    } else {
        list(alloc, &budget, words, input, out)
    })
}

fn list<'a, A: Allocator + Copy>(
    alloc: Global,
    budget: A,
    words: Vec<String<A>, A>,
    input: Fuse<'a>,
    out: Counted<Fuse<'a>>,
) -> Ended<'a> {
    let mut streams = Streams {
        input,
        out,
        stderr: Fuse::ample(alloc),
    };
    let status = pieces(budget, Ok(words), &mut streams);
    let Streams { input, out, stderr } = streams;
    Ended {
        status,
        reads: input.given.len(),
        out: out.into_inner(),
        stderr,
    }
}

fn convert<'a, A: Allocator + Copy>(
    alloc: Global,
    budget: A,
    words: Vec<String<A>, A>,
    input: Fuse<'a>,
    out: Counted<Fuse<'a>>,
) -> Ended<'a> {
    let mut streams = Streams {
        input: Counted::new(input),
        out,
        stderr: Fuse::ample(alloc),
    };
    let status = recode(budget, Ok(words), &mut streams);
    let Streams { input, out, stderr } = streams;
    let input = input.into_inner();
    let reads = input.given.len();
    drop(input);
    let out = out.into_inner();
    Ended {
        status,
        reads,
        out,
        stderr,
    }
}

impl Ended<'_> {
    /// Returns true if the run is the whole run of the row.
    pub(crate) fn is_whole(&self, row: &Row<'_>) -> bool {
        usize::from(self.status) == row.status
            && self.out.written.as_slice() == row.output.as_slice()
            && (self.out.flushes == 1) == (!row.recodes && row.status < 2)
            && self.says(row.said)
    }

    /// Returns true if the run ended early, with this message on standard error after the program's name.
    pub(crate) fn is_stopped(&self, row: &Row<'_>, text: &str) -> bool {
        let name = if row.recodes { "recode: " } else { "pieces: " };
        self.status == 3
            && row
                .output
                .as_slice()
                .starts_with(self.out.written.as_slice())
            && self.stderr.written.as_slice().starts_with(name.as_bytes())
            && self.says_after(name.len(), text)
    }

    // Returns true if nothing was read or written.
    fn is_idle(&self) -> bool {
        self.reads == 0 && self.out.given.is_empty()
    }

    // Returns true if the message and a line feed were written, or nothing if there is no message.
    fn says(&self, text: &str) -> bool {
        text.is_empty() && self.stderr.written.is_empty() || self.says_after(0, text)
    }

    fn says_after(&self, place: usize, text: &str) -> bool {
        match self.stderr.written.get(place..) {
            Some([said @ .., b'\n']) => said == text.as_bytes(),
            _ => false,
        }
    }
}

/// The number of writes, of at most `most` bytes, for these lines, if lines are gathered while one of 80 bytes fits
/// in 64 KiB.
pub(crate) fn writes_of(lines: &[u8], most: usize) -> usize {
    let most = most.max(1);
    let mut writes = 0usize;
    let mut gathered = 0usize;
    let mut begins = true;
    for byte in lines {
        if begins && gathered > 65536 - 80 {
            writes = writes.saturating_add(gathered.div_ceil(most));
            gathered = 0;
        }
        gathered = gathered.saturating_add(1);
        begins = *byte == b'\n';
    }
    writes.saturating_add(gathered.div_ceil(most))
}

// Returns true if the streams were called no more often than needed, if each call passes all that it is given: one
// read for the whole of a short input and one for its end, one write for each 64 KiB of lines of `pieces`, and at
// most one for each read of `recode`.
fn asks_no_more(ended: &Ended<'_>, row: &Row<'_>) -> bool {
    if row.status == 2 {
        return ended.is_idle();
    }
    let reads = if row.input.is_empty() { 1 } else { 2 };
    let writes = ended.out.given.len();
    let is_short = row.input.len() < 65536;
    (ended.reads == reads || !is_short)
        && if row.recodes {
            writes <= ended.reads
        } else {
            writes == writes_of(&row.output, usize::MAX)
        }
}

/// Returns true if the row's run is as it says, by the arguments after the program's name, and calls its streams
/// no more often than needed, and not at all if the arguments are invalid.
pub(crate) fn agrees(alloc: Global, row: &str) -> io::Result<bool> {
    let words = words_of(alloc, column(row, 0))?;
    let row = parse(alloc, row)?;
    let args = words_of(alloc, row.args)?;
    if arguments_of(alloc, Ok(words)) != Ok(args) {
        return Ok(false);
    }
    let ended = run(alloc, &row, Trial::pass(usize::MAX))?;
    Ok(ended.is_whole(&row) && asks_no_more(&ended, &row))
}
