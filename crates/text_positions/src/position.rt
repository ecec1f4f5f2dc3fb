//! The line and the column at which input has arrived that comes in parts.
ghost use Rattle.std.specs.Prelude.{◌≡◌, ◌+◌, ◌-◌, ◌≤◌, [], ◌++◌, length, take, drop, get_or, min, IsTrue};
ghost use Rattle.recoding.specs.declared.form.Form.{Form as AForm};
ghost use Rattle.text_positions.specs.Positions.{IsAfter, IsEnd, Passes, PassesAgain, PassesLine, StepsBack, piece_count};
ghost use Rattle.text_stream.specs.UndecidedEnds.{IsUndecidedEnd};

use crate::line_feeds::{last_line, line_feed_count};
use recoding::form::Form;
use recoding::held::Held;
use std::marker::Model;
use text_stream::runs::forms::char_count;
use text_stream::undecided::undecided_len;
use utf_lanes::ascii_texts::is_ascii;

/// A position in input that comes in parts, which may be cut anywhere, also inside a character: the line, the column
/// in pieces and the column in bytes, each from 1 on and modulo 2^64.
///
/// A line ends after its line feed: the byte 0A of UTF-8, the unit 000A of UTF-16. A column counts the characters and
/// the invalid bytes or units since then, one each. If the input so far ends within a character, each byte of it
/// (in UTF-16 the unit, and an odd byte) counts as one, as it would if nothing followed; once the character is whole,
/// it is one. So the position depends on the input so far, and not on how that is divided into parts.
#[derive(Debug, Drop)]
pub struct Position {
    line: u64,
    column: u64,
    byte_column: u64,
    held: Held,
}

impl Model for Position {
    ghost use Rattle.text_positions.specs.Positions.{Place};

    ghost Value = { Place };

    ghost view = { λ p. record { line = p.line; column = p.column; byte_column = p.byte_column; held = p.held } };
}

impl Position {
    /// The position at the front of the input: line 1, column 1.
    pub fn new() -> Position
        ensures front { result ≡ record { line = 1; column = 1; byte_column = 1; held = [] } }
        ensures after { (form : AForm) → IsAfter form [] result }
    {
        Position {
            line: 1,
            column: 1,
            byte_column: 1,
            held: Held::new(),
        }
    }

    /// A position that carries over these bytes.
    ///
    /// Condition: there are at most three.
    #[inline(always)]
    pub fn carrying(line: u64, column: u64, byte_column: u64, held: &[u8]) -> Position
        requires { length held.now ≤ 3 }
        ensures { result ≡ record { line = line; column = column; byte_column = byte_column; held = held.now } }
    {
        Position {
            line,
            column,
            byte_column,
            held: Held::of(held),
        }
    }

    /// The line, from 1 on.
    #[inline(always)]
    pub fn line(&self) -> u64
        ensures { result ≡ self.now.line }
    {
        let Position { line, .. } = self;
        *line
    }

    /// The column in pieces, from 1 on.
    #[inline(always)]
    pub fn column(&self) -> u64
        ensures { result ≡ self.now.column }
    {
        let Position { column, .. } = self;
        *column
    }

    /// The column in bytes, from 1 on.
    #[inline(always)]
    pub fn byte_column(&self) -> u64
        ensures { result ≡ self.now.byte_column }
    {
        let Position { byte_column, .. } = self;
        *byte_column
    }

    /// The carried-over bytes, at most three: those at the end of the input so far that later bytes decide.
    #[inline(always)]
    pub fn held(&self) -> &[u8]
        ensures bytes { result.now ≡ self.now.held }
        ensures few { length result.now ≤ 3 }
    {
        self.held.as_slice()
    }

    // The number of carried-over bytes.
    #[inline(always)]
    fn held_len(&self) -> usize
        ensures len { result ≡ length self.now.held }
        ensures few { length self.now.held ≤ 3 }
    {
        self.held.len()
    }

    /// Advances over the next bytes of the input. All parts of one input are in one encoding.
    ///
    /// Cost: O(n). Line feeds are counted with SIMD, and pieces only after the last of them.
    pub fn advance(&mut self, form: Form, bytes: &[u8])
        ensures { Passes form bytes.now self.old self.new }
    {
        if self.held_len() == 0 {
            self.pass(form, bytes);
            return;
        }
        let (joined, len) = self.held.join(bytes);
        self.step_back(form);
        self.pass(form, &joined[..len]);
        if 3 < bytes.len() {
            let again = 3 - self.held_len();
            self.step_back(form);
            self.pass(form, &bytes[again..]);
        }
    }

    // Advances over bytes the first of which were carried over, and are no more.
    fn pass(&mut self, form: Form, bytes: &[u8])
        ensures after { PassesAgain form bytes.now self.old self.new }
        ensures held { IsEnd self.new.held bytes.now }
    {
        let feeds = line_feed_count(form, bytes);
        if feeds == 0 {
            self.pass_in_line(form, bytes);
            return;
        }
        self.line = self.line.wrapping_add(feeds as u64);
        self.column = 1;
        self.byte_column = 1;
        let begin = last_line(form, bytes);
        self.pass_in_line(form, &bytes[begin..]);
    }

    // Advances over bytes without a line feed.
    fn pass_in_line(&mut self, form: Form, bytes: &[u8])
        ensures { PassesLine form bytes.now self.old self.new }
    {
        self.byte_column = self.byte_column.wrapping_add(bytes.len() as u64);
        if are_single(form, bytes) {
            self.column = self.column.wrapping_add(bytes.len() as u64);
            self.held = Held::new();
            return;
        }
        self.column = self.column.wrapping_add(char_count(form, bytes) as u64);
        self.held
            .hold(&bytes[bytes.len() - undecided_len(form, bytes)..]);
    }

    // Goes back to the front of the carried-over bytes, which are to be passed again with those that follow them.
    fn step_back(&mut self, form: Form)
        ensures back { StepsBack form self.old self.new }
        ensures none { self.new.held ≡ [] }
    {
        let held = self.held();
        let pieces = char_count(form, held);
        let len = held.len();
        self.column = self.column.wrapping_sub(pieces as u64);
        self.byte_column = self.byte_column.wrapping_sub(len as u64);
        self.held.hold(&[]);
    }
}

// Returns true if each byte is a piece, whatever follows: all are ASCII, but perhaps the first. Most text between two
// faults is so, with the first of them in front of it.
#[inline(always)]
fn are_single(form: Form, bytes: &[u8]) -> bool
    ensures pieces { IsTrue result → piece_count form bytes.now ≡ length bytes.now }
    ensures end { IsTrue result → IsUndecidedEnd form bytes.now 0 }
{
    match form {
        Form::Utf8 => 2 <= bytes.len() && is_ascii(&bytes[1..]),
        Form::Utf16Le | Form::Utf16Be => false,
    }
}
