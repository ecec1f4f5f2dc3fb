//! Errors: why no character was decoded.
ghost use Rattle.std.specs.Prelude.{◌≡◌, ◌↔◌, IsTrue, Some};
ghost use Rattle.utf_base.specs.Texts.{utf8_error_text};

use std::error::Error;
use std::fmt;
use std::marker::Model;

mod scalars;
mod units;

pub use scalars::{CodepointError, EmptyStrError, FromStrError, NonAsciiError, NonBmpError};
pub use units::{
    Utf16ArrayError, Utf16FirstUnitError, Utf16PairError, Utf16SliceError, Utf16TupleError,
};

/// Why bytes are not valid UTF-8: the kind of an error.
///
/// If several kinds apply, the one that is given is the first of these: `UnexpectedContinuationByte`, `NonUtf8Byte`,
/// `TooFewBytes`, `InterruptedSequence`, and then one of the other three, by the value that the bytes encode. RFC 3629,
/// section 4, has the grammar of what is valid.
#[derive(Clone, Copy, Debug, PartialEq, Eq, Drop)]
pub enum Utf8ErrorKind {
    /// The sequence is truncated: fewer bytes remain than its first byte needs, as when `e2 82` ends the input. Or
    /// there is no byte at all. (A decoder gives `None` then.)
    TooFewBytes,
    /// The first byte never occurs in UTF-8: it is 0xc0, 0xc1, or above 0xf4.
    NonUtf8Byte,
    /// The first byte is a continuation byte, 0x80 to 0xbf: no character begins there.
    UnexpectedContinuationByte,
    /// The first byte needs more bytes, and one of them is not a continuation byte, 0x80 to 0xbf,
    /// as in `e2 82 41`.
    InterruptedSequence,
    /// The sequence is overlong: its character has a shorter encoding, as the `/` that `e0 80 af`
    /// encodes.
    OverlongEncoding,
    /// The sequence encodes a surrogate, 0xd800 to 0xdfff, which only UTF-16 uses, as `ed a0 80`
    /// does.
    Utf16ReservedCodepoint,
    /// The sequence encodes a number above 0x10ffff, the last code point, as `f4 90 80 80` does.
    TooHighCodepoint,
}

impl Utf8ErrorKind {
    /// Returns true if it is the kind of that error.
    #[inline(always)]
    pub fn is_kind_of(&self, error: &Utf8Error) -> bool
        ensures { IsTrue result ↔ (self.now ≡ error.now) }
    {
        error.is_kind(*self)
    }
}

/// Why bytes could not be decoded as UTF-8: its `Utf8ErrorKind`, which `kind` gives. Contracts see it as its kind.
#[derive(Clone, Copy, Debug, PartialEq, Eq, Drop)]
pub struct Utf8Error {
    kind: Utf8ErrorKind,
}

impl Model for Utf8Error {
    ghost use Rattle.utf_base.specs.declared.errors.Utf8ErrorKind.{Utf8ErrorKind};

    ghost Value = { Utf8ErrorKind };

    ghost view = { λ e. e.kind };

    ghost inverse = { λ k. record { kind = k } };
}

impl Utf8Error {
    /// The error of that kind.
    #[inline(always)]
    pub fn new(kind: Utf8ErrorKind) -> Utf8Error
        ensures { result ≡ kind }
    {
        Utf8Error { kind }
    }

    /// Why the bytes are invalid.
    #[inline(always)]
    pub fn kind(&self) -> Utf8ErrorKind
        ensures { result ≡ self.now }
    {
        self.kind
    }

    /// Returns true if it is an error of that kind.
    #[inline(always)]
    pub fn is_kind(&self, kind: Utf8ErrorKind) -> bool
        ensures { IsTrue result ↔ (self.now ≡ kind) }
    {
        kind == self.kind
    }

    /// The message that `Display` writes. It is meant for people, and names several kinds alike.
    pub fn description(&self) -> &'static str
        ensures { result.now ≡ utf8_error_text self.now }
    {
        match self.kind {
            Utf8ErrorKind::TooFewBytes => "too few bytes",
            Utf8ErrorKind::NonUtf8Byte
            | Utf8ErrorKind::UnexpectedContinuationByte
            | Utf8ErrorKind::InterruptedSequence => "not UTF-8",
            Utf8ErrorKind::OverlongEncoding | Utf8ErrorKind::Utf16ReservedCodepoint => {
                "malformed input"
            }
            Utf8ErrorKind::TooHighCodepoint => "invalid character",
        }
    }
}

impl fmt::Display for Utf8Error {
    ghost output = { λ e. Some (utf8_error_text e) };

    ghost styled_output = { λ e _. Some (utf8_error_text e) };

    /// Writes the text of `description`. Width and fill are ignored.
    fn fmt<W: fmt::Write>(&self, f: &mut fmt::Formatter<W>) -> fmt::Result {
        f.write_str(self.description())
    }
}

impl Error for Utf8Error {}
