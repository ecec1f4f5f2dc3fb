//! One run of `pieces`, over any reader and writers.
ghost use Rattle.std.specs.Prelude.{◌≡◌, ◌++◌, [], ◌∷◌, map, string_bytes, Contains, IsTrue, IfOk, IfErr, IfSome, OnOk};
ghost use Rattle.utf_base.specs.Code.{utf8};
ghost use Rattle.utf_base.specs.Kinds.{merger_kind};
ghost use Rattle.text_programs.specs.Arguments.{Asked, Asks, AreWrong, asked_in};
ghost use Rattle.text_runs.specs.Collected.{IsMergedRun};
ghost use Rattle.text_programs.specs.Endings.{WritesAsked, WritesAskedFront, DoesAsked, BeginsAsked, FailsOrStays, FlushFailsOrStays, ReadsAll, ReadsUntil};
ghost use Rattle.text_programs.specs.Writes.{IsFlushed};
ghost use Rattle.text_runs.specs.Failures.{Known, NoReadAfterEnd};

use crate::programs::listing::{write_listing, write_merged, write_walk};
use crate::programs::requests::{Request, request_of};
use crate::programs::stops::Stop;
use encode_unicode::Utf8Char;
use encode_unicode::error::Utf8Error;
use std::alloc::{AllocError, Allocator, Global};
use std::io::{ErrorKind, Write};
use text_runs::counted::Counted;
use text_runs::runs::collected::merge_utf8;
use text_runs::runs::items::End;
use text_runs::runs::walks::walk_utf8;
use text_runs::streams::{Sink, Source};

// The size of a read, in bytes.
const PART: usize = 65536;

/// Runs `pieces` on the arguments after the program's name, and returns the number of error lines.
///
/// With no argument it writes the listing of all that the reader gives; with `--merge` the lines of a
/// merger's results for it; with `--ends` and a word, of letters `F` and `B`, the lines of the word's walk.
/// Then it flushes the output, once. All other arguments are invalid: then nothing is read or written.
/// Nothing is written before all is read, merged or walked, and nothing is flushed after a failure.
///
/// Cost: O(n), allocates for the whole input.
pub fn run_pieces<A: Allocator + Copy, R: Source, W: Write>(
    alloc: A,
    args: &[String<A>],
    input: &mut R,
    out: &mut Counted<W>,
) -> Result<usize, Stop>
    ensures lines { IfOk result (λ faults. (asked : Asked) → Asks (map string_bytes args.now) asked →
        Known W.contents (DoesAsked asked (R.remaining input.old)) out.old out.new faults) }
    ensures front { (asked : Asked) → Asks (map string_bytes args.now) asked →
        Known W.contents (BeginsAsked asked (R.remaining input.old)) out.old out.new }
    ensures reads { OnOk result (ReadsAll R.Source input.old input.new) }
    ensures until { IfErr result (ReadsUntil R.Source input.old input.new) }
    ensures in_time { IsTrue R.is_counted → NoReadAfterEnd (R.reads input.old) (R.reads input.new) }
    ensures flushed { OnOk result (IsFlushed out.old out.new) }
    ensures early { IfErr result (FlushFailsOrStays out.old out.new) }
    ensures wrong { AreWrong (map string_bytes args.now) → (result ≡ Err Stop.WrongArguments) ×
        (input.new ≡ input.old) × (out.new ≡ out.old) }
    ensures right { result ≡ Err Stop.WrongArguments → AreWrong (map string_bytes args.now) }
{
    let request = request_of(alloc, args)?;
    let bytes = read_whole(alloc, input)?;
    let faults = write_asked(alloc, &request, bytes.as_slice(), out)?;
    match out.flush() {
        Ok(()) => Ok(faults),
        Err(_) => Err(Stop::CannotWrite),
    }
}

// Writes the lines of the request over the bytes, and returns how many of them are errors.
fn write_asked<A: Allocator + Copy, W: Write>(
    alloc: A,
    request: &Request<A>,
    bytes: &[u8],
    out: &mut Counted<W>,
) -> Result<usize, Stop>
    ensures lines { IfOk result
        (Known W.contents (WritesAsked (asked_in request.now) bytes.now) out.old out.new) }
    ensures front { Known W.contents (WritesAskedFront (asked_in request.now) bytes.now) out.old out.new }
    ensures quiet { OnOk result (out.new.failures ≡ out.old.failures) }
    ensures early { IfErr result (FailsOrStays out.old out.new) }
    ensures other_calls { out.new.other_calls ≡ out.old.other_calls }
    ensures right { IfErr result (λ stop. Contains (Stop.CannotWrite ∷ Stop.NoMemory ∷ []) stop) }
{
    match request {
        Request::Listing => write_listing(bytes, out).map_err(|_| Stop::CannotWrite),
        Request::Merged => {
            let Ok(answers) = merge_all(alloc, bytes) else {
                return Err(Stop::NoMemory);
            };
            write_merged(answers.as_slice(), out).map_err(|_| Stop::CannotWrite)
        }
        Request::Walk(word) => {
            let Ok(answers) = walk_utf8(alloc, bytes, word.as_slice()) else {
                return Err(Stop::NoMemory);
            };
            write_walk(answers.as_slice(), out).map_err(|_| Stop::CannotWrite)
        }
    }
}

// All results of a merger for the bytes. It is not inlined, so that its loop has all registers.
#[inline(never)]
fn merge_all<A: Allocator>(
    alloc: A,
    bytes: &[u8],
) -> Result<Vec<Result<Utf8Char, Utf8Error>, A>, AllocError>
    ensures { IfOk result (λ answers. IsMergedRun utf8 merger_kind bytes.now answers.items) }
{
    let answers = merge_utf8(alloc, bytes.iter().copied())?;
    Ok(answers)
}

// Reads all remaining bytes, until a read returns the end, and not after that. An interrupted read is
// repeated.
fn read_whole<A: Allocator, R: Source>(alloc: A, input: &mut R) -> Result<Vec<u8, A>, Stop>
    ensures bytes { IfOk result (λ bytes. IfSome (R.remaining input.old) (λ xs. bytes.items ≡ xs)) }
    ensures reads { OnOk result (ReadsAll R.Source input.old input.new) }
    ensures until { IfErr result (ReadsUntil R.Source input.old input.new) }
    ensures in_time { IsTrue R.is_counted → NoReadAfterEnd (R.reads input.old) (R.reads input.new) }
    ensures right { IfErr result (λ stop. Contains (Stop.CannotRead ∷ Stop.NoMemory ∷ []) stop) }
{
    let mut bytes = Vec::new(alloc);
    let mut part = [0; PART];
    for _ in 0..u64::MAX {
        match input.read_once(&mut part) {
            Ok(0) => return Ok(bytes),
            Ok(count) => add(&part[..count], &mut bytes)?,
            Err(error) if error.kind() == ErrorKind::Interrupted => {}
            Err(_) => return Err(Stop::CannotRead),
        }
    }
    Err(Stop::CannotRead)
}

// Appends the bytes that were read.
fn add<A: Allocator>(part: &[u8], bytes: &mut Vec<u8, A>) -> Result<(), Stop>
    ensures items { OnOk result (bytes.new.items ≡ bytes.old.items ++ part.now) }
    ensures err { IfErr result (λ stop. stop ≡ Stop.NoMemory) }
    ensures right { IfErr result (λ stop. Contains (Stop.CannotRead ∷ Stop.NoMemory ∷ []) stop) }
{
    if bytes.extend_from_slice(part).is_err() {
        return Err(Stop::NoMemory);
    }
    Ok(())
}
