//! The faults at which strict transcoding stops: their kind and their offset.

use encode_unicode::error::{Utf8ErrorKind, Utf16PairError};

/// Why a byte or a unit is invalid.
#[derive(Clone, Copy, Debug, PartialEq, Eq, Drop)]
pub enum FaultKind {
    /// Why a byte of UTF-8 is invalid.
    Utf8(Utf8ErrorKind),
    /// Why a unit of UTF-16 is invalid. An odd byte at the end is `Incomplete`.
    Utf16(Utf16PairError),
}

/// The invalid bytes at which strict transcoding stopped.
///
/// They count as read, and nothing was written for them. Their offset in the whole input is the number of
/// bytes that all calls have read, this call included, minus `back`. They may lie in an earlier part.
#[derive(Clone, Copy, Debug, PartialEq, Eq, Drop)]
pub struct Fault {
    /// Why they are invalid: the kind that a decoder gives, however the input was divided.
    pub kind: FaultKind,
    /// The length in bytes: 1 in UTF-8, 2 for a lone surrogate, 1 for an odd byte at the end of UTF-16.
    pub len: usize,
    /// The distance in bytes from the first of them to the end of what was read: at most 5.
    pub back: usize,
}

/// Why a call of strict transcoding ended.
#[derive(Clone, Copy, Debug, PartialEq, Eq, Drop)]
pub enum Outcome {
    /// All of the part was read, or at the end all carried-over bytes, and no invalid byte is known yet.
    AllRead,
    /// The next character does not fit into the buffer that remains.
    Full,
    /// The call stopped at these invalid bytes.
    Faulty(Fault),
}

/// The progress of a call of strict transcoding.
#[derive(Clone, Copy, Debug, PartialEq, Eq, Drop)]
pub struct StrictProgress {
    /// The number of bytes of the part that were read.
    pub read: usize,
    /// The number of bytes of the buffer that were written, from its front. The rest of it may hold anything.
    pub written: usize,
    /// Why it went no further.
    pub outcome: Outcome,
}
