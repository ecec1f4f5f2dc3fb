//! The items of whole runs, and the ends from which they are taken.

use encode_unicode::error::{Utf8Error, Utf16PairError};
use encode_unicode::{Utf8Char, Utf16Char};

/// One end of a slice: from which end a walk takes the next piece.
#[derive(Clone, Copy, Debug, PartialEq, Eq, Drop)]
pub enum End {
    /// The piece at the front.
    Front,
    /// The piece at the end.
    Back,
}

/// A piece of bytes: (offset from the front of the slice, character or error, length in bytes).
pub type Item = (usize, Result<Utf8Char, Utf8Error>, usize);

/// A piece of UTF-16 units: (offset from the front of the slice, character or error, length in
/// units).
pub type UnitItem = (usize, Result<Utf16Char, Utf16PairError>, usize);
