//! Transcoding from a reader to a writer.
ghost use Rattle.std.specs.Prelude.{◌≡◌, ◌≢◌, ◌-◌, ◌^◌, ◌<◌, [], length, Some, IfSome, OnOk};
ghost use Rattle.text_runs.specs.Failures.{IsDrained, Known, Pipes, NoFailedRead, NoReadAfterEnd};
ghost use Rattle.text_programs.specs.RecodeStream.{AppendsRecoded, WritesRecoded, BeginsRecoded, HoldsBack, Passes, PassesFront, PassesLast, PassesLastFront};
ghost use Rattle.text_programs.specs.Writes.{FailsIf};

use recoding::form::Form;
use recoding::recoder::Recoder;
use std::alloc::Allocator;
use std::io::{ErrorKind, Read, Write};
use text_runs::counted::Counted;
use text_runs::streams::write_whole;
use thiserror::Error;

/// Why `recode` ended before the end of the input.
#[derive(Clone, Copy, Debug, PartialEq, Eq, Drop, Error)]
pub enum RecodeFault {
    /// The reader returned an error, or no end in `u64::MAX` reads.
    #[error("cannot read")]
    Read,
    /// The writer returned an error, or took nothing.
    #[error("cannot write")]
    Write,
    /// An allocation failed.
    #[error("no memory")]
    Memory,
}

// The size of a read, in bytes.
const PART: usize = 65536;

/// Converts all that the reader gives from one encoding into another, part by part.
///
/// An interrupted read is repeated. No read is made after the end of the input.
///
/// Cost: O(n), allocates an amount that does not grow with the input.
pub fn recode<A: Allocator, R: Read, W: Write>(
    alloc: A,
    input: &mut Counted<R>,
    out: &mut Counted<W>,
    from: Form,
    to: Form,
) -> Result<(), RecodeFault>
    ensures recoded { OnOk result
        (Known W.contents (WritesRecoded from to (R.remaining input.old.inner)) out.old out.new) }
    ensures list { OnOk result
        (Known W.contents (AppendsRecoded from to (R.remaining input.old.inner)) out.old out.new) }
    ensures front { Pipes R.remaining W.contents (BeginsRecoded from to) input.old input.new out.old out.new }
    ensures held_back { result ≡ Err RecodeFault.Read →
        Pipes R.remaining W.contents (HoldsBack from to) input.old input.new out.old out.new }
    ensures drained { OnOk result (Known R.remaining IsDrained input.old input.new) }
    ensures unbroken { result ≢ Err RecodeFault.Read → NoFailedRead input.old.reads input.new.reads }
    ensures in_time { NoReadAfterEnd input.old.reads input.new.reads }
    ensures cannot_read { result ≡ Err RecodeFault.Read →
        IfSome (R.remaining input.old.inner) (λ xs. length xs < 2 ^ 64 - 1 →
        input.old.failures < input.new.failures) }
    ensures writes { FailsIf (result ≡ Err RecodeFault.Write) out.old out.new }
    ensures nothing { R.remaining input.old.inner ≡ Some [] → result ≢ Err RecodeFault.Memory }
{
    let mut recoder = Recoder::new(from, to);
    let mut recoded = Vec::new(alloc);
    let mut part = [0; PART];
    for _ in 0..u64::MAX {
        match input.take(&mut part) {
            Ok(0) => return write_end(recoder, &mut recoded, out),
            Ok(count) => write_part(&mut recoder, &part[..count], &mut recoded, out)?,
            Err(error) if error.kind() == ErrorKind::Interrupted => {}
            Err(_) => return Err(RecodeFault::Read),
        }
    }
    Err(RecodeFault::Read)
}

// Transcodes a part, and writes the output by way of an empty list.
fn write_part<A: Allocator, W: Write>(
    recoder: &mut Recoder,
    part: &[u8],
    recoded: &mut Vec<u8, A>,
    out: &mut Counted<W>,
) -> Result<(), RecodeFault>
    requires { recoded.old.items ≡ [] }
    ensures passes { OnOk result
        (Known W.contents (Passes recoder.old part.now) out.old out.new recoder.new) }
    ensures front { result ≡ Err RecodeFault.Write →
        Known W.contents (PassesFront recoder.old part.now) out.old out.new recoder.new }
    ensures refused { result ≡ Err RecodeFault.Memory → out.new ≡ out.old }
    ensures empty { OnOk result (recoded.new.items ≡ []) }
    ensures can_read { result ≢ Err RecodeFault.Read }
    ensures writes { FailsIf (result ≡ Err RecodeFault.Write) out.old out.new }
{
    if recoder.feed(part, recoded).is_err() {
        return Err(RecodeFault::Memory);
    }
    if write_whole(recoded.as_slice(), out).is_err() {
        return Err(RecodeFault::Write);
    }
    recoded.clear();
    Ok(())
}

// Transcodes the carried-over bytes at the end, and writes the output by way of an empty list.
fn write_end<A: Allocator, W: Write>(
    recoder: Recoder,
    recoded: &mut Vec<u8, A>,
    out: &mut Counted<W>,
) -> Result<(), RecodeFault>
    requires { recoded.old.items ≡ [] }
    ensures passes { OnOk result (Known W.contents (PassesLast recoder) out.old out.new) }
    ensures front { result ≡ Err RecodeFault.Write →
        Known W.contents (PassesLastFront recoder) out.old out.new }
    ensures refused { result ≡ Err RecodeFault.Memory → out.new ≡ out.old }
    ensures can_read { result ≢ Err RecodeFault.Read }
    ensures writes { FailsIf (result ≡ Err RecodeFault.Write) out.old out.new }
    ensures nothing { length recoder.held ≡ 0 → result ≢ Err RecodeFault.Memory }
{
    if recoder.finish(recoded).is_err() {
        return Err(RecodeFault::Memory);
    }
    match write_whole(recoded.as_slice(), out) {
        Ok(()) => Ok(()),
        Err(_) => Err(RecodeFault::Write),
    }
}
