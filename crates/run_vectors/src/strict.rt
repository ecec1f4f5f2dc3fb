//! Rows of strict transcoding: `FROM TO|INPUT|FAULT|OUTPUT`, in hexadecimal.
//!
//! The fault is the offset and the kind of the first one, or empty in text. The output is that of the text before it.

use crate::columns::column;
use crate::recodings::forms_of;
use cuts::{Counted, FaultAt, Outcome, Recoder, StrictError, recode_strict};
use fakes::fuse::Fuse;
use fakes::rows::bytes_of;
use std::alloc::{AllocError, Global};
use std::io;

// A recoder, how many bytes it has read, and its output.
#[derive(Drop)]
struct Run {
    recoder: Recoder,
    read: u64,
    out: Vec<u8>,
}

impl Run {
    // Feeds a part into buffers of one size, and returns the first fault. Without a part it finishes.
    fn pass(
        &mut self,
        part: Option<&[u8]>,
        room: &mut [u8],
    ) -> Result<Option<FaultAt>, AllocError> {
        let mut rest = part;
        for _ in 0..1000 {
            let did = match rest {
                Some(bytes) => self.recoder.feed_strict_into(bytes, room),
                None => self.recoder.finish_strict_into(room),
            };
            self.out.extend_from_slice(&room[..did.written])?;
            self.read = self.read.saturating_add(did.read as u64);
            rest = rest.and_then(|bytes| bytes.get(did.read..));
            match did.outcome {
                Outcome::AllRead => return Ok(None),
                Outcome::Full => {}
                Outcome::Faulty(fault) => {
                    return Ok(Some(FaultAt {
                        offset: self.read.saturating_sub(fault.back as u64),
                        kind: fault.kind,
                    }));
                }
            }
        }
        Ok(None)
    }
}

// Returns true if the fault and the output are those of the row.
fn is_end(alloc: Global, row: &str, fault: Option<FaultAt>, out: &[u8]) -> io::Result<bool> {
    let text = match fault {
        None => String::new(alloc),
        Some(fault) => format!(in alloc; "{} {:?}", fault.offset, fault.kind)?,
    };
    Ok(text.as_str() == column(row, 2) && out == bytes_of(alloc, column(row, 3))?.as_slice())
}

// Returns true if the row agrees when it is fed in two parts and finished, into buffers of one size.
fn two_parts_agree(alloc: Global, row: &str, cut: usize, room: &mut [u8]) -> io::Result<bool> {
    let (from, to) = forms_of(row)?;
    let input = bytes_of(alloc, column(row, 1))?;
    let (front, back) = input.split_at(cut.min(input.len()));
    let mut run = Run {
        recoder: Recoder::new(from, to),
        read: 0,
        out: Vec::new(alloc),
    };
    let mut fault = None;
    for part in [Some(front), Some(back), None] {
        if fault.is_none() {
            fault = run.pass(part, room)?;
        }
    }
    is_end(alloc, row, fault, &run.out)
}

/// Returns true if the row agrees wherever its input is cut in two, for buffers of some sizes.
pub(crate) fn agrees(alloc: Global, row: &str) -> io::Result<bool> {
    let mut room = [0; 256];
    for cut in 0..=column(row, 1).len() / 2 {
        for size in [4, 5, 7, 256] {
            if !two_parts_agree(alloc, row, cut, &mut room[..size])? {
                return Ok(false);
            }
        }
    }
    Ok(true)
}

/// Returns true if the row agrees from a reader to a writer.
pub(crate) fn stream_agrees(alloc: Global, row: &str) -> io::Result<bool> {
    let (from, to) = forms_of(row)?;
    let bytes = bytes_of(alloc, column(row, 1))?;
    let mut input = Counted::new(Fuse::over(alloc, &bytes));
    let mut out = Counted::new(Fuse::ample(alloc));
    let fault = match recode_strict(&mut input, &mut out, from, to) {
        Ok(()) => None,
        Err(StrictError::Faulty(fault)) => Some(fault),
        Err(_) => return Ok(false),
    };
    is_end(alloc, row, fault, &out.into_inner().written)
}
