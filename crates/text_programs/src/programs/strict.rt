//! Strict transcoding from a reader to a writer: up to the first invalid byte.
ghost use Rattle.std.specs.Prelude.{◌≡◌, ◌≢◌, ◌+◌, ◌-◌, ◌*◌, ◌^◌, ◌<◌, ◌≤◌, [], length, min, IfSome, IfErr, OnOk};
ghost use Rattle.text_runs.specs.Failures.{IsDrained, Known, Pipes, NoFailedRead, NoReadAfterEnd};
ghost use Rattle.text_programs.specs.StrictRelayed.{BeginsTranscoded, EndsText, HoldsText, IfFaulty, IsFollowed, PassesText, PassesTextFront, PassesTextLast, StopsFaulty, StopsText, WritesText, strict_error_text};
ghost use Rattle.text_programs.specs.Writes.{FailsIf};

use recoding::faults::{Fault, FaultKind, Outcome};
use recoding::form::Form;
use recoding::recoder::Recoder;
use std::error::Error;
use std::fmt;
use std::io::{ErrorKind, Read, Write};
use text_runs::counted::Counted;
use text_runs::streams::write_whole;

/// The offset of the first invalid bytes of an input, and why they are invalid.
#[derive(Clone, Copy, Debug, PartialEq, Eq, Drop)]
pub struct FaultAt {
    /// Their offset in the whole input, in bytes: exact in inputs below 2^64 bytes.
    pub offset: u64,
    /// Why they are invalid, as a decoder names it.
    pub kind: FaultKind,
}

/// Why `recode_strict` ended before the end of the input.
#[derive(Clone, Copy, Debug, PartialEq, Eq, Drop)]
pub enum StrictError {
    /// The reader returned an error, or no end in `u64::MAX` reads.
    Read,
    /// The writer returned an error, or took nothing.
    Write,
    /// The input is invalid.
    Faulty(FaultAt),
}

impl StrictError {
    // The message for the error.
    fn text(self) -> &'static str
        ensures { result.now ≡ strict_error_text self }
    {
        match self {
            StrictError::Read => "cannot read",
            StrictError::Write => "cannot write",
            StrictError::Faulty(_) => "invalid input",
        }
    }
}

impl fmt::Display for StrictError {
    ghost use Rattle.std.specs.Prelude.{Some};
    ghost use Rattle.text_programs.specs.StrictRelayed.{strict_error_text};

    ghost output = { λ e. Some (strict_error_text e) };

    ghost styled_output = { λ e _. Some (strict_error_text e) };

    /// Writes the reason in a few words. Width and fill are ignored.
    fn fmt<W: fmt::Write>(&self, f: &mut fmt::Formatter<W>) -> fmt::Result {
        f.write_str(self.text())
    }
}

impl Error for StrictError {}

// The size of a read, in bytes.
const PART: usize = 16384;

// The capacity for a transcoded part and the bytes carried over before it: text at most doubles.
const ROOM: usize = 2 * (PART + 3);

/// Converts all that the reader gives from one encoding into another, part by part, and stops at the first
/// invalid byte or lone surrogate. (`recode` replaces each by U+FFFD instead.)
///
/// Exactly the text before it is written. The reader may have given bytes after it. An interrupted read is
/// repeated. No read is made after the end of the input.
///
/// Cost: O(n).
pub fn recode_strict<R: Read, W: Write>(
    input: &mut Counted<R>,
    out: &mut Counted<W>,
    from: Form,
    to: Form,
) -> Result<(), StrictError>
    ensures text { OnOk result
        (Known W.contents (WritesText from to (R.remaining input.old.inner)) out.old out.new) }
    ensures faulty { IfErr result (λ e. IfFaulty e
        (Pipes R.remaining W.contents (StopsFaulty from to) input.old input.new out.old out.new)) }
    ensures front { Pipes R.remaining W.contents (BeginsTranscoded from to)
        input.old input.new out.old out.new }
    ensures held_back { result ≡ Err StrictError.Read →
        Pipes R.remaining W.contents (HoldsText from to) input.old input.new out.old out.new }
    ensures drained { OnOk result (Known R.remaining IsDrained input.old input.new) }
    ensures unbroken { result ≢ Err StrictError.Read → NoFailedRead input.old.reads input.new.reads }
    ensures in_time { NoReadAfterEnd input.old.reads input.new.reads }
    ensures cannot_read { result ≡ Err StrictError.Read →
        IfSome (R.remaining input.old.inner) (λ xs. length xs < 2 ^ 64 - 1 →
        input.old.failures < input.new.failures) }
    ensures writes { FailsIf (result ≡ Err StrictError.Write) out.old out.new }
{
    let mut reading = Reading {
        recoder: Recoder::new(from, to),
        count: 0,
    };
    let mut part = [0; PART];
    let mut room = [0; ROOM];
    for _ in 0..u64::MAX {
        match input.take(&mut part) {
            Ok(0) => return pass_end(reading, &mut room, out),
            Ok(count) => pass_part(&mut reading, &part[..count], &mut room, out)?,
            Err(error) if error.kind() == ErrorKind::Interrupted => {}
            Err(_) => return Err(StrictError::Read),
        }
    }
    Err(StrictError::Read)
}

// A recoder, and the number of bytes that were read: at most `u64::MAX`. It carries the last of them over.
#[derive(Drop)]
struct Reading {
    recoder: Recoder,
    count: u64,
    ghost before: { length recoder.held ≤ count },
}

// Transcodes a part by way of the buffer, and writes the output.
fn pass_part<W: Write>(
    reading: &mut Reading,
    part: &[u8],
    room: &mut [u8],
    out: &mut Counted<W>,
) -> Result<(), StrictError>
    requires { 2 * (length reading.old.recoder.held + length part.now) ≤ length room.old }
    ensures passes { OnOk result
        (Known W.contents (PassesText reading.old.recoder part.now) out.old out.new reading.new.recoder) }
    ensures faulty { IfErr result (λ e. IfFaulty e
        (Known W.contents (StopsText reading.old.recoder part.now IsFollowed reading.old.count) out.old out.new)) }
    ensures front { Known W.contents (PassesTextFront reading.old.recoder part.now) out.old out.new }
    ensures counted { reading.new.count ≡ min (reading.old.count + length part.now) (2 ^ 64 - 1) }
    ensures can_read { result ≢ Err StrictError.Read }
    ensures writes { FailsIf (result ≡ Err StrictError.Write) out.old out.new }
{
    let before = reading.count;
    let progress = reading.recoder.feed_strict_into(part, room);
    reading.count = before.saturating_add(part.len() as u64);
    if write_whole(&room[..progress.written], out).is_err() {
        return Err(StrictError::Write);
    }
    match progress.outcome {
        Outcome::AllRead | Outcome::Full => Ok(()),
        Outcome::Faulty(fault) => Err(fault_at(fault, before.saturating_add(progress.read as u64))),
    }
}

// Transcodes the carried-over bytes at the end by way of the buffer, and writes the output.
fn pass_end<W: Write>(
    reading: Reading,
    room: &mut [u8],
    out: &mut Counted<W>,
) -> Result<(), StrictError>
    requires { 2 * length reading.recoder.held ≤ length room.old }
    ensures passes { OnOk result (Known W.contents (PassesTextLast reading.recoder) out.old out.new) }
    ensures faulty { IfErr result (λ e. IfFaulty e
        (Known W.contents (StopsText reading.recoder [] EndsText reading.count) out.old out.new)) }
    ensures front { Known W.contents (PassesTextFront reading.recoder []) out.old out.new }
    ensures can_read { result ≢ Err StrictError.Read }
    ensures writes { FailsIf (result ≡ Err StrictError.Write) out.old out.new }
{
    let Reading { mut recoder, count } = reading;
    let progress = recoder.finish_strict_into(room);
    if write_whole(&room[..progress.written], out).is_err() {
        return Err(StrictError::Write);
    }
    match progress.outcome {
        Outcome::AllRead | Outcome::Full => Ok(()),
        Outcome::Faulty(fault) => Err(fault_at(fault, count)),
    }
}

// The error at a fault, after `read` bytes were read.
fn fault_at(fault: Fault, read: u64) -> StrictError
    requires { fault.back ≤ read }
    ensures { result ≡ StrictError.Faulty (record { offset = read - fault.back; kind = fault.kind }) }
{
    StrictError::Faulty(FaultAt {
        offset: read - fault.back as u64,
        kind: fault.kind,
    })
}
