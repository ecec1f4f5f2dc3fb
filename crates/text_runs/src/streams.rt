//! What runs read from and write to: any reader or writer, and a `Counted`, whose failures contracts see.
ghost use Rattle.std.specs.Prelude.{◌≡◌, ◌+◌, ◌<◌, ◌≤◌, IsTrue, Option, ℕ, Bool, List, OnOk, OnErr};
ghost use Rattle.std.specs.Io.{ReadsAtMost, WritesAtMost};
ghost use Rattle.std.specs.Io.KnownBytes.{Appends, ReadConsumes, WriteAppends};
ghost use Rattle.text_runs.specs.Failures.{ReadCounts, OtherCalls, put_failures, put_stalls, take_failures, after_put, CountsRead, AppendsFront, TellsStall};

use crate::counted::Counted;
use std::io;
use std::io::{Read, Write};

/// What programs read from: a reader, or a `Counted` one.
pub trait Source {
    // the bytes that reads will give, if they are known
    ghost remaining: { Self → Option (List ℕ) };

    // whether the reads are counted
    ghost is_counted: { Bool };

    // the number of reads that failed
    ghost failures: { Self → ℕ };

    // the other counts of the reads
    ghost reads: { Self → ReadCounts };

    /// Calls `read` of the reader once, and returns its result.
    ///
    /// Cost: that of the call.
    fn read_once(&mut self, buf: &mut [u8]) -> io::Result<usize>
        ensures at_most { ReadsAtMost result buf.new }
        ensures consumes { ReadConsumes (remaining self.old) (remaining self.new) result buf.new }
        ensures failures { IsTrue is_counted → failures self.new ≡ failures self.old + take_failures result }
        ensures reads { IsTrue is_counted → CountsRead (reads self.old) (reads self.new) result buf.new };
}

impl<R: Read> Source for R {
    ghost use Rattle.std.specs.Prelude.{false};

    ghost remaining = { R.remaining };

    ghost is_counted = { false };

    ghost failures = { λ _. 0 };

    ghost reads = { λ _. record { failed_reads = 0; ended = false; reads_after_end = 0 } };

    #[inline(always)]
    fn read_once(&mut self, buf: &mut [u8]) -> io::Result<usize> {
        self.read(buf)
    }
}

impl<R: Read> Source for Counted<R> {
    ghost use Rattle.std.specs.Prelude.{true};

    ghost remaining = { λ c. R.remaining c.inner };

    ghost is_counted = { true };

    ghost failures = { λ c. c.failures };

    ghost reads = { λ c. c.reads };

    #[inline(always)]
    fn read_once(&mut self, buf: &mut [u8]) -> io::Result<usize> {
        self.take(buf)
    }
}

/// What programs write to: a writer, or a `Counted` one.
pub trait Sink {
    // the bytes that were written, if they are known
    ghost contents: { Self → Option (List ℕ) };

    // whether the writes are counted
    ghost is_counted: { Bool };

    // the number of writes that failed
    ghost failures: { Self → ℕ };

    // the number of writes that took nothing
    ghost stalls: { Self → ℕ };

    // the other counts of the writes
    ghost other_calls: { Self → OtherCalls };

    /// Calls `write` of the writer once, and returns its result.
    ///
    /// Cost: that of the call.
    fn write_once(&mut self, bytes: &[u8]) -> io::Result<usize>
        ensures at_most { WritesAtMost result bytes.now }
        ensures appends { WriteAppends (contents self.old) (contents self.new) result bytes.now }
        ensures failures { IsTrue is_counted →
            failures self.new ≡ failures self.old + put_failures result bytes.now }
        ensures stalls { IsTrue is_counted → stalls self.new ≡ stalls self.old + put_stalls result bytes.now }
        ensures other_calls { IsTrue is_counted →
            other_calls self.new ≡ after_put (other_calls self.old) bytes.now };
}

impl<W: Write> Sink for W {
    ghost use Rattle.std.specs.Prelude.{false};

    ghost contents = { W.contents };

    ghost is_counted = { false };

    ghost failures = { λ _. 0 };

    ghost stalls = { λ _. 0 };

    ghost other_calls = { λ _. record { empty_puts = 0; flushes = 0; failed_flushes = 0 } };

    #[inline(always)]
    fn write_once(&mut self, bytes: &[u8]) -> io::Result<usize> {
        self.write(bytes)
    }
}

impl<W: Write> Sink for Counted<W> {
    ghost use Rattle.std.specs.Prelude.{true};

    ghost contents = { λ c. W.contents c.inner };

    ghost is_counted = { true };

    ghost failures = { λ c. c.failures };

    ghost stalls = { λ c. c.stalls };

    ghost other_calls = { λ c. c.other_calls };

    #[inline(always)]
    fn write_once(&mut self, bytes: &[u8]) -> io::Result<usize> {
        self.put(bytes)
    }
}

/// Writes all the bytes, in as many calls of `write` as it takes, and in none if there are none.
///
/// The first failure ends it, `Interrupted` too: with the writer's error, or with `WriteZero` if the writer
/// took nothing.
///
/// Cost: O(n), and that of the calls.
#[inline(always)]
pub fn write_whole<S: Sink>(bytes: &[u8], to: &mut S) -> io::Result<()>
    ensures ok { OnOk result (Appends (S.contents to.old) (S.contents to.new) bytes.now) }
    ensures front { AppendsFront (S.contents to.old) (S.contents to.new) bytes.now }
    ensures quiet { IsTrue S.is_counted → OnOk result (S.failures to.new ≡ S.failures to.old) }
    ensures err { IsTrue S.is_counted → OnErr result (S.failures to.old < S.failures to.new) }
    ensures never_fewer { IsTrue S.is_counted → S.failures to.old ≤ S.failures to.new }
    ensures stalls { IsTrue S.is_counted → TellsStall result (S.stalls to.old) (S.stalls to.new) }
    ensures other_calls { IsTrue S.is_counted → S.other_calls to.new ≡ S.other_calls to.old }
{
    let mut sent = 0;
    while sent < bytes.len() {
        let count = to.write_once(&bytes[sent..])?;
        if count == 0 {
            return Err(io::Error::from(io::ErrorKind::WriteZero));
        }
        sent += count;
    }
    Ok(())
}
