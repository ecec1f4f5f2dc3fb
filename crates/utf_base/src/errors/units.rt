//! Why 16-bit units are not UTF-16 (RFC 2781, section 2.2).
ghost use Rattle.std.specs.Prelude.{◌≡◌, Some};
ghost use Rattle.utf_base.specs.Texts.{first_unit_error_text, array_error_text};
ghost use Rattle.utf_base.specs.Texts.{tuple_error_text, slice_error_text, pair_error_text};

use std::error::Error;
use std::fmt;

/// A unit cannot begin a character: it is a trailing surrogate, 0xdc00 to 0xdfff.
#[derive(Clone, Copy, Debug, PartialEq, Eq, Drop)]
pub struct Utf16FirstUnitError;

impl Utf16FirstUnitError {
    /// The message that `Display` writes.
    pub fn description(&self) -> &'static str
        ensures { result.now ≡ first_unit_error_text }
    {
        "is a trailing surrogate"
    }
}

impl fmt::Display for Utf16FirstUnitError {
    ghost output = { λ _. Some first_unit_error_text };

    ghost styled_output = { λ _ _. Some first_unit_error_text };

    /// Writes the text of `description`. Width and fill are ignored.
    fn fmt<W: fmt::Write>(&self, f: &mut fmt::Formatter<W>) -> fmt::Result {
        f.write_str(Utf16FirstUnitError::description(self))
    }
}

impl Error for Utf16FirstUnitError {}

/// Why an array of two units does not begin with a character.
#[derive(Clone, Copy, Debug, PartialEq, Eq, Drop)]
pub enum Utf16ArrayError {
    /// The first element is in 0xdc00 to 0xdfff, which only a second one may be.
    FirstIsTrailingSurrogate,
    /// The first element is a leading surrogate, 0xd800 to 0xdbff, and the second does not complete it.
    SecondIsNotTrailingSurrogate,
}

impl Utf16ArrayError {
    /// The message that `Display` writes.
    pub fn description(&self) -> &'static str
        ensures { result.now ≡ array_error_text self.now }
    {
        match self {
            Utf16ArrayError::FirstIsTrailingSurrogate =>
                "the first element is a trailing surrogate",
            Utf16ArrayError::SecondIsNotTrailingSurrogate =>
                "the second element is needed but is not a trailing surrogate",
        }
    }
}

impl fmt::Display for Utf16ArrayError {
    ghost output = { λ e. Some (array_error_text e) };

    ghost styled_output = { λ e _. Some (array_error_text e) };

    /// Writes the text of `description`. Width and fill are ignored.
    fn fmt<W: fmt::Write>(&self, f: &mut fmt::Formatter<W>) -> fmt::Result {
        f.write_str(Utf16ArrayError::description(self))
    }
}

impl Error for Utf16ArrayError {}

/// Why one unit, or two, are not exactly one character.
///
/// Of several reasons the first in this order is given.
#[derive(Clone, Copy, Debug, PartialEq, Eq, Drop)]
pub enum Utf16TupleError {
    /// The first unit is in 0xdc00 to 0xdfff, whether or not there is a second.
    FirstIsTrailingSurrogate,
    /// The first unit is a character of its own, and there is a second.
    SuperfluousSecond,
    /// The first unit is a leading surrogate, and there is no second.
    MissingSecond,
    /// The first unit is a leading surrogate, and the second does not complete it.
    SecondIsNotTrailingSurrogate,
}

impl Utf16TupleError {
    /// The message that `Display` writes.
    pub fn description(&self) -> &'static str
        ensures { result.now ≡ tuple_error_text self.now }
    {
        match self {
            Utf16TupleError::FirstIsTrailingSurrogate => "the first unit is a trailing surrogate",
            Utf16TupleError::SuperfluousSecond => "the second unit is superfluous",
            Utf16TupleError::MissingSecond => "the first unit requires a second unit",
            Utf16TupleError::SecondIsNotTrailingSurrogate =>
                "the required second unit is not a trailing surrogate",
        }
    }
}

impl fmt::Display for Utf16TupleError {
    ghost output = { λ e. Some (tuple_error_text e) };

    ghost styled_output = { λ e _. Some (tuple_error_text e) };

    /// Writes the text of `description`. Width and fill are ignored.
    fn fmt<W: fmt::Write>(&self, f: &mut fmt::Formatter<W>) -> fmt::Result {
        f.write_str(Utf16TupleError::description(self))
    }
}

impl Error for Utf16TupleError {}

/// Why a slice of units does not begin with a character, or does not end with one.
///
/// At the front the first unit is examined, with the one after it; at the end only the last unit.
#[derive(Clone, Copy, Debug, PartialEq, Eq, Drop)]
pub enum Utf16SliceError {
    /// There are no units.
    EmptySlice,
    /// The unit that is examined is a trailing surrogate, 0xdc00 to 0xdfff.
    FirstIsTrailingSurrogate,
    /// The unit that is examined is a leading surrogate, 0xd800 to 0xdbff, and no unit comes after it.
    MissingSecond,
    /// Only at the front: the first unit is a leading surrogate, and the second is no trailing one.
    SecondIsNotTrailingSurrogate,
}

impl Utf16SliceError {
    /// The message that `Display` writes.
    pub fn description(&self) -> &'static str
        ensures { result.now ≡ slice_error_text self.now }
    {
        match self {
            Utf16SliceError::EmptySlice => "the slice is empty",
            Utf16SliceError::FirstIsTrailingSurrogate => "the first unit is a trailing surrogate",
            Utf16SliceError::MissingSecond => "the first and only unit requires a second one",
            Utf16SliceError::SecondIsNotTrailingSurrogate =>
                "the required second unit is not a trailing surrogate",
        }
    }
}

impl fmt::Display for Utf16SliceError {
    ghost output = { λ e. Some (slice_error_text e) };

    ghost styled_output = { λ e _. Some (slice_error_text e) };

    /// Writes the text of `description`. Width and fill are ignored.
    fn fmt<W: fmt::Write>(&self, f: &mut fmt::Formatter<W>) -> fmt::Result {
        f.write_str(Utf16SliceError::description(self))
    }
}

impl Error for Utf16SliceError {}

/// Why a unit is not valid UTF-16: it is a lone surrogate.
#[derive(Clone, Copy, Debug, PartialEq, Eq, Drop)]
pub enum Utf16PairError {
    /// There is a trailing (low) surrogate where a character should begin.
    UnexpectedTrailingSurrogate,
    /// A leading (high) surrogate is followed by a unit that does not complete it. That unit may
    /// itself begin a character.
    UnmatchedLeadingSurrogate,
    /// The last unit is a leading (high) surrogate: the pair is truncated.
    Incomplete,
}

impl Utf16PairError {
    /// The message that `Display` writes.
    pub fn description(&self) -> &'static str
        ensures { result.now ≡ pair_error_text self.now }
    {
        match self {
            Utf16PairError::UnexpectedTrailingSurrogate =>
                "a trailing surrogate was not preceeded by a leading surrogate",
            Utf16PairError::UnmatchedLeadingSurrogate =>
                "a leading surrogate was followed by an unit that was not a trailing surrogate",
            Utf16PairError::Incomplete =>
                "a trailing surrogate was expected when the end was reached",
        }
    }
}

impl fmt::Display for Utf16PairError {
    ghost output = { λ e. Some (pair_error_text e) };

    ghost styled_output = { λ e _. Some (pair_error_text e) };

    /// Writes the text of `description`. Width and fill are ignored.
    fn fmt<W: fmt::Write>(&self, f: &mut fmt::Formatter<W>) -> fmt::Result {
        f.write_str(Utf16PairError::description(self))
    }
}

impl Error for Utf16PairError {}
