//! A text in chunks that is read from a reader, and that is written to a writer.
ghost use Rattle.std.specs.Prelude.{◌≡◌, ◌+◌, ◌<◌, ◌≤◌, ◌++◌, length, IfOk, IfSome, IsTrue, OnOk, OnErr};
ghost use Rattle.std.specs.Io.KnownBytes.{Appends};
ghost use Rattle.std.specs.IoError.{error_kind};
ghost use Rattle.std.specs.declared.io.ErrorKind.TheVariants.{Interrupted};
ghost use Rattle.text_runs.specs.Failures.{IsDrained, AppendsFront, NoFailedRead, NoReadAfterEnd};

use crate::buffers::text_buffer::TextBuffer;
use std::alloc::{AllocError, Allocator};
use std::io;
use std::io::ErrorKind;
use text_runs::streams::{Sink, Source, write_whole};

// The size of a read, in bytes.
const PART: usize = 65536;

impl<A: Allocator + Copy> TextBuffer<A> {
    /// A buffer of all bytes that the reader gives: it reads until the end, and not after that. An
    /// interrupted read is repeated.
    ///
    /// The error is the reader's, or `OutOfMemory` if an allocation failed.
    ///
    /// Cost: O(n), allocates.
    pub fn of_reader<R: Source>(alloc: A, input: &mut R) -> io::Result<TextBuffer<A>>
        ensures text { IfOk result (λ text. IfSome (R.remaining input.old) (λ xs. text ≡ xs)) }
        ensures drained { OnOk result (IsDrained (R.remaining input.old) (R.remaining input.new)) }
        ensures unbroken { OnOk result (IsTrue R.is_counted →
            NoFailedRead (R.reads input.old) (R.reads input.new)) }
        ensures in_time { IsTrue R.is_counted → NoReadAfterEnd (R.reads input.old) (R.reads input.new) }
    {
        let mut text = TextBuffer::of(alloc, &[])?;
        let mut part = [0; PART];
        for _ in 0..u64::MAX {
            match input.read_once(&mut part) {
                Ok(0) => return Ok(text),
                Ok(count) => append(&mut text, &part[..count])?,
                Err(error) => pass_over(error)?,
            }
        }
        Err(io::Error::from(ErrorKind::Interrupted))
    }

    /// Writes all the bytes, in as many calls of `write` as it takes.
    ///
    /// The first failure ends it, `Interrupted` too: with the writer's error, or with `WriteZero` if the
    /// writer took nothing. Then a front of the bytes was written.
    ///
    /// Cost: O(n).
    pub fn write_to<S: Sink>(&self, to: &mut S) -> io::Result<()>
        ensures ok { OnOk result (Appends (S.contents to.old) (S.contents to.new) self.now) }
        ensures front { AppendsFront (S.contents to.old) (S.contents to.new) self.now }
        ensures quiet { IsTrue S.is_counted → OnOk result (S.failures to.new ≡ S.failures to.old) }
        ensures err { IsTrue S.is_counted → OnErr result (S.failures to.old < S.failures to.new) }
        ensures other_calls { IsTrue S.is_counted → S.other_calls to.new ≡ S.other_calls to.old }
    {
        let mut offset = 0;
        while offset < self.len() {
            let part = self.chunk_at(offset);
            write_whole(part, to)?;
            offset += part.len();
        }
        Ok(())
    }
}

// Ignores an interruption, and returns any other error.
fn pass_over(error: io::Error) -> io::Result<()>
    ensures { OnOk result (error_kind error ≡ Interrupted) }
{
    if error.kind() == ErrorKind::Interrupted {
        return Ok(());
    }
    Err(error)
}

// Appends what was read to a text.
fn append<A: Allocator + Copy>(text: &mut TextBuffer<A>, part: &[u8]) -> Result<(), AllocError>
    ensures { OnOk result (text.new ≡ text.old ++ part.now) }
{
    let end = text.len();
    text.insert(end, part)?;
    Ok(())
}
