//! A stream over memory that passes some calls and then fails.
ghost use Rattle.std.specs.Prelude.{Some, ◌<◌};

use std::alloc::Global;
use std::io;
use std::io::{ErrorKind, Read, Write};

/// How a call fails.
#[derive(Clone, Copy, Drop)]
pub enum Failure {
    /// With an error of this kind.
    Error(ErrorKind),

    /// By taking nothing. For a reader that would be the end of its bytes, so it returns `WouldBlock`.
    Nothing,
}

/// Which calls fail: of those after the first `passes`, the first `failures`.
#[derive(Clone, Copy, Drop)]
pub struct Plan {
    pub passes: u32,
    pub failures: u32,
    pub failure: Failure,
}

impl Plan {
    /// Each call before the 2^32nd passes.
    pub fn pass() -> Plan {
        Plan::fail_once(u32::MAX, ErrorKind::BrokenPipe)
    }

    /// The first `passes` calls succeed, and all others fail.
    pub fn fail(passes: u32, failure: Failure) -> Plan {
        Plan {
            passes,
            failures: u32::MAX,
            failure,
        }
    }

    /// The first `passes` calls succeed, the next returns this error, and all others succeed.
    pub fn fail_once(passes: u32, kind: ErrorKind) -> Plan {
        Plan {
            passes,
            failures: 1,
            failure: Failure::Error(kind),
        }
    }

    // How the next call fails, if it does.
    fn step(&mut self) -> Option<Failure> {
        if self.passes > 0 {
            self.passes -= 1;
            None
        } else if self.failures > 0 {
            self.failures -= 1;
            Some(self.failure)
        } else {
            None
        }
    }
}

/// A reader and a writer over memory, whose calls fail by a plan.
#[derive(Drop)]
pub struct Fuse<'a> {
    /// The bytes that can still be read.
    pub unread: &'a [u8],

    /// The bytes that were written.
    pub written: Vec<u8>,
    pub plan: Plan,

    /// The greatest number of bytes that a call passes.
    pub most: usize,

    /// The number of bytes that each call was given, to write or to fill.
    pub given: Vec<usize>,

    /// The number of flushes.
    pub flushes: u32,
    pub flush_failure: Option<ErrorKind>,
    ghost some: { 0 < most },
}

impl<'a> Fuse<'a> {
    /// A reader that gives two bytes a call, and does not fail.
    pub fn over(alloc: Global, unread: &'a [u8]) -> Fuse<'a> {
        Fuse {
            unread,
            written: Vec::new(alloc),
            plan: Plan::pass(),
            most: 2,
            given: Vec::new(alloc),
            flushes: 0,
            flush_failure: None,
        }
    }

    /// A writer that takes all that it is given.
    pub fn ample(alloc: Global) -> Fuse<'a> {
        Fuse {
            unread: &[],
            written: Vec::new(alloc),
            plan: Plan::pass(),
            most: usize::MAX,
            given: Vec::new(alloc),
            flushes: 0,
            flush_failure: None,
        }
    }

    /// A writer that takes what the first calls give it, and then fails.
    pub fn failing(alloc: Global, passes: u32, failure: Failure) -> Fuse<'a> {
        let mut writer = Fuse::ample(alloc);
        writer.plan = Plan::fail(passes, failure);
        writer
    }
}

impl Read for Fuse<'_> {
    ghost remaining = { λ f. Some f.unread.now };

    fn read(&mut self, buf: &mut [u8]) -> io::Result<usize> {
        self.given.push(buf.len())?;
        match self.plan.step() {
            Some(Failure::Error(kind)) => return Err(io::Error::from(kind)),
            Some(Failure::Nothing) => return Err(io::Error::from(ErrorKind::WouldBlock)),
            None => {}
        }
        let count = buf.len().min(self.most).min(self.unread.len());
        buf[..count].copy_from_slice(&self.unread[..count]);
        self.unread = &self.unread[count..];
        Ok(count)
    }
}

impl Write for Fuse<'_> {
    ghost contents = { λ f. Some f.written.items };

    fn write(&mut self, buf: &[u8]) -> io::Result<usize> {
        self.given.push(buf.len())?;
        match self.plan.step() {
            Some(Failure::Error(kind)) => return Err(io::Error::from(kind)),
            Some(Failure::Nothing) => return Ok(0),
            None => {}
        }
        let count = buf.len().min(self.most);
        self.written.extend_from_slice(&buf[..count])?;
        Ok(count)
    }

    fn flush(&mut self) -> io::Result<()> {
        self.flushes = self.flushes.saturating_add(1);
        match self.flush_failure {
            Some(kind) => Err(io::Error::from(kind)),
            None => Ok(()),
        }
    }
}
