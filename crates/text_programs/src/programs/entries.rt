//! The entries of a list that is written line by line.
ghost use Rattle.std.specs.Prelude.{◌≡◌, ◌+◌, ◌^◌, ◌<◌, ◌≤◌, ◌++◌, ◌∷◌, [], ℕ, Bool, if◌then◌else◌, List, length, flat_map, IfOk};
ghost use Rattle.std.specs.Fmt.{decimal};
ghost use Rattle.text_runs.specs.ForwardRuns.{is_fault};
ghost use Rattle.text_runs.specs.Failures.{Known, AppendsFront};
ghost use Rattle.text_programs.specs.Lines.{kind_name, answer_text, item_line};
ghost use Rattle.text_programs.specs.Written.{WritesLines};
ghost use Rattle.text_programs.specs.Writes.{CountsWrites};
ghost use Rattle.text_programs.specs.declared.programs.lines.TheConstants.{LINE_ROOM, ROOM};

use crate::programs::lines::Lines;
use crate::programs::offset::Offset;
use encode_unicode::Utf8Char;
use encode_unicode::error::{Utf8Error, Utf8ErrorKind};
use std::io;
use std::io::Write;
use text_runs::counted::Counted;
use text_runs::runs::items::Item;

/// An entry, which has a line of its own.
pub(crate) trait Entry: Copy {
    ghost line: { Self → List ℕ };

    ghost wrong: { Self → Bool };

    /// Adds its line, the end of the line too.
    fn push_to(self, lines: &mut Lines)
        requires { length lines.old + LINE_ROOM ≤ ROOM }
        ensures { lines.new ≡ lines.old ++ line self };

    /// Returns true if the entry's line is an error line.
    fn is_wrong(self) -> bool
        ensures { result ≡ wrong self };
}

// A piece: its offset, its length and its result.
impl Entry for Item {
    ghost use Rattle.text_programs.specs.Lines.{item_line};
    ghost use Rattle.text_runs.specs.ForwardRuns.{is_fault};

    ghost line = { item_line };

    ghost wrong = { is_fault };

    fn push_to(self, lines: &mut Lines) {
        let (place, answer, len) = self;
        lines.push_decimal(place);
        push_piece(answer, len, lines);
    }

    #[inline(always)]
    fn is_wrong(self) -> bool {
        self.1.is_err()
    }
}

// A result of a merger.
impl Entry for Result<Utf8Char, Utf8Error> {
    ghost use Rattle.std.specs.Prelude.{is_err};
    ghost use Rattle.text_programs.specs.Lines.{answer_line};

    ghost line = { answer_line };

    ghost wrong = { is_err };

    fn push_to(self, lines: &mut Lines) {
        push_answer(self, lines);
        lines.push(b'\n');
    }

    fn is_wrong(self) -> bool {
        self.is_err()
    }
}

// A result of a walk: a piece, or `None`.
impl Entry for Option<Item> {
    ghost use Rattle.text_programs.specs.Lines.{step_line, is_fault_step};

    ghost line = { step_line };

    ghost wrong = { is_fault_step };

    fn push_to(self, lines: &mut Lines) {
        match self {
            Some(item) => item.push_to(lines),
            None => lines.push_text(b"none\n"),
        }
    }

    fn is_wrong(self) -> bool {
        match self {
            Some(item) => item.is_wrong(),
            None => false,
        }
    }
}

/// Adds the line of a piece at the counted offset, and counts on to the next. Returns 1 if that is an error
/// line, otherwise 0.
#[inline(always)]
pub(crate) fn push_counted(item: Item, offset: &mut Offset, lines: &mut Lines) -> usize
    requires place { item.0 ≡ offset.old }
    requires few { item.2 ≤ 100 }
    requires fits { item.0 + item.2 < 2 ^ 64 }
    requires room { length lines.old + LINE_ROOM ≤ ROOM }
    ensures line { lines.new ≡ lines.old ++ item_line item }
    ensures next { offset.new ≡ item.0 + item.2 }
    ensures faults { result ≡ (if is_fault item then 1 else 0) }
    ensures most { result ≤ 1 }
{
    let (_, answer, len) = item;
    offset.push_to(lines);
    push_piece(answer, len, lines);
    offset.count_on(len);
    if answer.is_err() { 1 } else { 0 }
}

// Returns the number of error lines of an entry, 0 or 1.
#[inline(always)]
fn error_lines<T: Entry>(entry: T) -> usize
    ensures count { result ≡ (if T.wrong entry then 1 else 0) }
    ensures most { result ≤ 1 }
{
    if entry.is_wrong() { 1 } else { 0 }
}

/// Writes the line of each entry, in order, and returns how many of them are error lines.
pub(crate) fn write_entries<T: Entry, W: Write>(
    entries: &[T],
    out: &mut Counted<W>,
) -> io::Result<usize>
    ensures lines { IfOk result (Known W.contents (WritesLines T.line T.wrong entries.now) out.old out.new) }
    ensures front { Known W.contents AppendsFront out.old out.new (flat_map T.line entries.now) }
    ensures writes { CountsWrites result out.old out.new }
{
    let mut lines = Lines::new();
    let mut faults = 0;
    for entry in entries {
        if !lines.has_room() {
            lines.write_to(out)?;
        }
        entry.push_to(&mut lines);
        faults += error_lines(*entry);
    }
    lines.write_to(out)?;
    Ok(faults)
}

// Adds what follows the offset of a piece: its length and its result, and the end of the line.
#[inline(always)]
fn push_piece(answer: Result<Utf8Char, Utf8Error>, len: usize, lines: &mut Lines)
    requires { length lines.old + 49 ≤ ROOM }
    ensures { lines.new ≡ lines.old ++ 32 ∷ [] ++ decimal len ++ 32 ∷ [] ++ answer_text answer ++ 10 ∷ [] }
{
    lines.push(b' ');
    lines.push_decimal(len);
    lines.push(b' ');
    push_answer(answer, lines);
    lines.push(b'\n');
}

// Adds a scalar in six hexadecimal digits, or the name of the error.
#[inline(always)]
fn push_answer(answer: Result<Utf8Char, Utf8Error>, lines: &mut Lines)
    requires { length lines.old + 26 ≤ ROOM }
    ensures answer { lines.new ≡ lines.old ++ answer_text answer }
    ensures length { length lines.new ≤ length lines.old + 26 }
{
    match answer {
        Ok(c) => lines.push_hex(c.to_char() as u32),
        Err(error) => lines.push_text(name_of(error.kind()).as_bytes()),
    }
}

// The name of a kind, as its variant is spelled.
#[inline]
fn name_of(kind: Utf8ErrorKind) -> &'static str
    ensures name { result.now ≡ kind_name kind }
    ensures short { length result.now ≤ 26 }
{
    match kind {
        Utf8ErrorKind::TooFewBytes => "TooFewBytes",
        Utf8ErrorKind::NonUtf8Byte => "NonUtf8Byte",
        Utf8ErrorKind::UnexpectedContinuationByte => "UnexpectedContinuationByte",
        Utf8ErrorKind::InterruptedSequence => "InterruptedSequence",
        Utf8ErrorKind::OverlongEncoding => "OverlongEncoding",
        Utf8ErrorKind::Utf16ReservedCodepoint => "Utf16ReservedCodepoint",
        Utf8ErrorKind::TooHighCodepoint => "TooHighCodepoint",
    }
}
