//! A reader or writer whose failures are counted, only for contracts.
//!
//! A contract can then say that a function returns an error only if its reader or writer failed, since the
//! count rose. The counts take no memory. This module holds `Counted` and its five calls and nothing else,
//! and no call hands out a count, or the reader or writer inside: so a count rises only if a call of the
//! reader or writer was made and failed.
ghost use Rattle.std.specs.Prelude.{◌≡◌, ◌+◌, false};
ghost use Rattle.std.specs.Io.{ReadsAtMost, WritesAtMost};
ghost use Rattle.std.specs.Io.KnownBytes.{Keeps, ReadConsumes, WriteAppends};
ghost use Rattle.text_runs.specs.Failures.{Known, put_failures, put_stalls, take_failures, after_put, after_flush, CountsRead};

use encode_unicode::Steps;
use std::io;
use std::io::{ErrorKind, Read, Write};
use std::marker::Model;

/// A reader or a writer that counts how its calls went. Only contracts use the counts: no call
/// reads them.
#[derive(Drop)]
pub struct Counted<T> {
    inner: T,
    failures: Steps,
    stalls: Steps,
    failed_reads: Steps,
    ended: bool,
    reads_after_end: Steps,
    empty_puts: Steps,
    flushes: Steps,
    failed_flushes: Steps,
}

impl<T> Model for Counted<T> {
    ghost use Rattle.text_runs.specs.Failures.{Counting};

    ghost Value = { Counting T };

    ghost view = { λ c. record {
      inner = c.inner;
      failures = c.failures;
      stalls = c.stalls;
      reads = record { failed_reads = c.failed_reads; ended = c.ended; reads_after_end = c.reads_after_end };
      other_calls = record { empty_puts = c.empty_puts; flushes = c.flushes; failed_flushes = c.failed_flushes };
    } };
}

impl<T> Counted<T> {
    /// Counts from here on. What `inner` did before does not count.
    #[inline(always)]
    pub fn new(inner: T) -> Counted<T>
        ensures inner { result.inner ≡ inner }
        ensures failures { result.failures ≡ 0 }
        ensures stalls { result.stalls ≡ 0 }
        ensures failed_reads { result.reads.failed_reads ≡ 0 }
        ensures ended { result.reads.ended ≡ false }
        ensures reads_after_end { result.reads.reads_after_end ≡ 0 }
        ensures empty_puts { result.other_calls.empty_puts ≡ 0 }
        ensures flushes { result.other_calls.flushes ≡ 0 }
        ensures failed_flushes { result.other_calls.failed_flushes ≡ 0 }
    {
        Counted {
            inner,
            failures: Steps::new(),
            stalls: Steps::new(),
            failed_reads: Steps::new(),
            ended: false,
            reads_after_end: Steps::new(),
            empty_puts: Steps::new(),
            flushes: Steps::new(),
            failed_flushes: Steps::new(),
        }
    }

    /// The reader or writer, no longer counted.
    #[inline(always)]
    pub fn into_inner(self) -> T
        ensures { result ≡ self.inner }
    {
        let Counted {
            inner,
            failures: _,
            stalls: _,
            failed_reads: _,
            ended: _,
            reads_after_end: _,
            empty_puts: _,
            flushes: _,
            failed_flushes: _,
        } = self;
        inner
    }
}

impl<W: Write> Counted<W> {
    /// Calls `write` of the inner writer once, and returns its result.
    ///
    /// An error counts as a failure. So does `Ok(0)` for at least one byte, a stall, which is also counted
    /// separately.
    ///
    /// Cost: that of the call.
    #[inline(always)]
    pub fn put(&mut self, bytes: &[u8]) -> io::Result<usize>
        ensures at_most { WritesAtMost result bytes.now }
        ensures appends { Known W.contents WriteAppends self.old self.new result bytes.now }
        ensures failures { self.new.failures ≡ self.old.failures + put_failures result bytes.now }
        ensures stalls { self.new.stalls ≡ self.old.stalls + put_stalls result bytes.now }
        ensures other_calls { self.new.other_calls ≡ after_put self.old.other_calls bytes.now }
        ensures reads { self.new.reads ≡ self.old.reads }
    {
        if bytes.is_empty() {
            self.empty_puts.tick();
        }
        let answer = self.inner.write(bytes);
        match answer {
            Err(_) => self.failures.tick(),
            Ok(count) => {
                if count == 0 && !bytes.is_empty() {
                    self.failures.tick();
                    self.stalls.tick();
                }
            }
        }
        answer
    }

    /// Calls `flush` of the inner writer once, and returns its result. An error is counted, separately from
    /// failures.
    ///
    /// Cost: that of the call.
    #[inline(always)]
    pub fn flush(&mut self) -> io::Result<()>
        ensures keeps { Known W.contents Keeps self.old self.new }
        ensures failures { self.new.failures ≡ self.old.failures }
        ensures stalls { self.new.stalls ≡ self.old.stalls }
        ensures other_calls { self.new.other_calls ≡ after_flush self.old.other_calls result }
        ensures reads { self.new.reads ≡ self.old.reads }
    {
        self.flushes.tick();
        let answer = self.inner.flush();
        if answer.is_err() {
            self.failed_flushes.tick();
        }
        answer
    }
}

impl<R: Read> Counted<R> {
    /// Calls `read` of the inner reader once, and returns its result.
    ///
    /// An error counts as a failure. `Ok(0)` does not: it is the end, or the buffer was empty.
    ///
    /// Cost: that of the call.
    #[inline(always)]
    pub fn take(&mut self, buf: &mut [u8]) -> io::Result<usize>
        ensures at_most { ReadsAtMost result buf.new }
        ensures consumes { Known R.remaining ReadConsumes self.old self.new result buf.new }
        ensures failures { self.new.failures ≡ self.old.failures + take_failures result }
        ensures stalls { self.new.stalls ≡ self.old.stalls }
        ensures reads { CountsRead self.old.reads self.new.reads result buf.new }
        ensures other_calls { self.new.other_calls ≡ self.old.other_calls }
    {
        if self.ended {
            self.reads_after_end.tick();
        }
        let given = self.inner.read(buf);
        if given.is_err() {
            self.failures.tick();
        }
        match &given {
            Ok(count) => self.ended = self.ended || (*count == 0 && !buf.is_empty()),
            Err(error) if error.kind() != ErrorKind::Interrupted => self.failed_reads.tick(),
            Err(_) => {}
        }
        given
    }
}
