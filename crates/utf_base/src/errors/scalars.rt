//! Why a number, a byte, a unit or a text is not one character.
ghost use Rattle.std.specs.Prelude.{◌≡◌, false, Some};
ghost use Rattle.std.specs.Range.{range_inclusive_start, range_inclusive_end};
ghost use Rattle.std.specs.Range.{range_inclusive_exhausted};
ghost use Rattle.utf_base.specs.Refused.{first_refused, last_refused};
ghost use Rattle.utf_base.specs.Texts.{codepoint_error_text, from_str_error_text};
ghost use Rattle.utf_base.specs.Texts.{empty_str_error_text, non_ascii_error_text};
ghost use Rattle.utf_base.specs.Texts.{non_bmp_error_text};

use std::error::Error;
use std::fmt;
use std::ops::RangeInclusive;

/// Why a `u32` is no character: no Unicode scalar value (RFC 3629, section 3).
#[derive(Clone, Copy, Debug, PartialEq, Eq, Drop)]
pub enum CodepointError {
    /// It is a surrogate, 0xd800 to 0xdfff, which UTF-16 uses in pairs.
    Utf16Reserved,
    /// It is above 0x10ffff, the last code point.
    TooHigh,
}

impl CodepointError {
    /// The message that `Display` writes.
    pub fn description(&self) -> &'static str
        ensures { result.now ≡ codepoint_error_text self.now }
    {
        match self {
            CodepointError::Utf16Reserved => "is reserved for UTF-16 surrogate pairs",
            CodepointError::TooHigh => "is higher than the highest codepoint",
        }
    }

    /// All numbers that are rejected for this reason.
    pub fn error_range(self) -> RangeInclusive<u32>
        ensures first { range_inclusive_start result ≡ first_refused self }
        ensures last { range_inclusive_end result ≡ last_refused self }

        // No number was taken from it yet.
        ensures fresh { range_inclusive_exhausted result ≡ false }
    {
        match self {
            CodepointError::Utf16Reserved => 0xd800..=0xdfff,
            CodepointError::TooHigh => 0x11_0000..=0xffff_ffff,
        }
    }
}

impl fmt::Display for CodepointError {
    ghost output = { λ e. Some (codepoint_error_text e) };

    ghost styled_output = { λ e _. Some (codepoint_error_text e) };

    /// Writes the text of `description`. Width and fill are ignored.
    fn fmt<W: fmt::Write>(&self, f: &mut fmt::Formatter<W>) -> fmt::Result {
        f.write_str(CodepointError::description(self))
    }
}

impl Error for CodepointError {}

/// Why a text was not parsed as a single character.
#[derive(Clone, Copy, Debug, PartialEq, Eq, Drop)]
pub enum FromStrError {
    /// Another character follows the first.
    MultipleCodepoints,
    /// The text has no character.
    Empty,
}

impl FromStrError {
    /// The message that `Display` writes.
    pub fn description(&self) -> &'static str
        ensures { result.now ≡ from_str_error_text self.now }
    {
        match self {
            FromStrError::MultipleCodepoints => "contains more than one codepoint",
            FromStrError::Empty => "is empty",
        }
    }
}

impl fmt::Display for FromStrError {
    ghost output = { λ e. Some (from_str_error_text e) };

    ghost styled_output = { λ e _. Some (from_str_error_text e) };

    /// Writes the text of `description`. Width and fill are ignored.
    fn fmt<W: fmt::Write>(&self, f: &mut fmt::Formatter<W>) -> fmt::Result {
        f.write_str(FromStrError::description(self))
    }
}

impl Error for FromStrError {}

/// A text is empty, so it has no first character.
#[derive(Clone, Copy, Debug, PartialEq, Eq, Drop)]
pub struct EmptyStrError;

impl EmptyStrError {
    /// The message that `Display` writes.
    pub fn description(&self) -> &'static str
        ensures { result.now ≡ empty_str_error_text }
    {
        "is empty"
    }
}

impl fmt::Display for EmptyStrError {
    ghost output = { λ _. Some empty_str_error_text };

    ghost styled_output = { λ _ _. Some empty_str_error_text };

    /// Writes the text of `description`. Width and fill are ignored.
    fn fmt<W: fmt::Write>(&self, f: &mut fmt::Formatter<W>) -> fmt::Result {
        f.write_str(EmptyStrError::description(self))
    }
}

impl Error for EmptyStrError {}

/// A byte is not ASCII: it is above 0x7f.
#[derive(Clone, Copy, Debug, PartialEq, Eq, Drop)]
pub struct NonAsciiError;

impl NonAsciiError {
    /// The message that `Display` writes.
    pub fn description(&self) -> &'static str
        ensures { result.now ≡ non_ascii_error_text }
    {
        "not an ASCII character"
    }
}

impl fmt::Display for NonAsciiError {
    ghost output = { λ _. Some non_ascii_error_text };

    ghost styled_output = { λ _ _. Some non_ascii_error_text };

    /// Writes the text of `description`. Width and fill are ignored.
    fn fmt<W: fmt::Write>(&self, f: &mut fmt::Formatter<W>) -> fmt::Result {
        f.write_str(NonAsciiError::description(self))
    }
}

impl Error for NonAsciiError {}

/// A unit is not a character of its own: it is a surrogate, half of a pair for a character above 0xffff (RFC
/// 2781, section 2).
#[derive(Clone, Copy, Debug, PartialEq, Eq, Drop)]
pub struct NonBmpError;

impl NonBmpError {
    /// The message that `Display` writes.
    pub fn description(&self) -> &'static str
        ensures { result.now ≡ non_bmp_error_text }
    {
        "not a codepoint in the basic multilingual plane"
    }
}

impl fmt::Display for NonBmpError {
    ghost output = { λ _. Some non_bmp_error_text };

    ghost styled_output = { λ _ _. Some non_bmp_error_text };

    /// Writes the text of `description`. Width and fill are ignored.
    fn fmt<W: fmt::Write>(&self, f: &mut fmt::Formatter<W>) -> fmt::Result {
        f.write_str(NonBmpError::description(self))
    }
}

impl Error for NonBmpError {}
