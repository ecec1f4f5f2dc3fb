//! The reasons why a program ends early, and their messages.
ghost use Rattle.std.specs.Prelude.{◌≡◌, ◌<◌, IsTrue, OnOk, OnErr};
ghost use Rattle.std.specs.Io.KnownBytes.{Appends};
ghost use Rattle.text_runs.specs.Failures.{AppendsFront};
ghost use Rattle.text_programs.specs.Endings.{status_of, stop_text, stop_line, Says};

use std::{fmt, io};
use text_runs::streams::{Sink, write_whole};

/// Why a program ends early.
#[derive(Clone, Copy, Debug, PartialEq, Eq, Drop)]
pub enum Stop {
    /// The arguments are invalid.
    WrongArguments,
    /// The input returned an error.
    CannotRead,
    /// The output returned an error, or took nothing.
    CannotWrite,
    /// An allocation failed.
    NoMemory,
}

impl Stop {
    /// Writes the reason as a line on standard error, and returns the exit status. Whether that line could be
    /// written is ignored.
    ///
    /// Cost: that of writing one line.
    pub fn report<E: Sink>(self, program: &str, stderr: &mut E) -> u8
        ensures status { result ≡ status_of self }
        ensures line { Says E.Sink stderr.old stderr.new (stop_line program.now self) }
    {
        let _ = self.write_line(program, stderr);
        match self {
            Stop::WrongArguments => 2,
            Stop::CannotRead | Stop::CannotWrite | Stop::NoMemory => 3,
        }
    }

    // Writes the reason as a line, with the program's name before it, up to the writer's first failure.
    fn write_line<E: Sink>(self, program: &str, stderr: &mut E) -> io::Result<()>
        ensures whole { OnOk result (Appends (E.contents stderr.old) (E.contents stderr.new)
            (stop_line program.now self)) }
        ensures front { AppendsFront (E.contents stderr.old) (E.contents stderr.new)
            (stop_line program.now self) }
        ensures err { IsTrue E.is_counted → OnErr result (E.failures stderr.old < E.failures stderr.new) }
    {
        write_whole(program.as_bytes(), stderr)?;
        write_whole(b": ", stderr)?;
        write_whole(self.text().as_bytes(), stderr)?;
        write_whole(b"\n", stderr)
    }

    // The message for the reason.
    pub(crate) fn text(self) -> &'static str
        ensures { result.now ≡ stop_text self }
    {
        match self {
            Stop::WrongArguments => "wrong arguments",
            Stop::CannotRead => "cannot read",
            Stop::CannotWrite => "cannot write",
            Stop::NoMemory => "no memory",
        }
    }
}

impl fmt::Display for Stop {
    ghost use Rattle.std.specs.Prelude.{Some};
    ghost use Rattle.text_programs.specs.Endings.{stop_text};

    ghost output = { λ s. Some (stop_text s) };

    ghost styled_output = { λ s _. Some (stop_text s) };

    /// Writes the reason in a few words, as programs print it.
    fn fmt<W: fmt::Write>(&self, f: &mut fmt::Formatter<W>) -> fmt::Result {
        f.write_str(self.text())
    }
}
