//! The encodings of text in bytes.

/// An encoding of text in bytes.
///
/// A byte order mark is the character U+FEFF, like any other. Only `form_of_bom` looks for one, and no call
/// adds or removes one (RFC 2781, section 3.2).
#[derive(Clone, Copy, Debug, PartialEq, Eq, Drop)]
pub enum Form {
    /// UTF-8 (RFC 3629, section 3).
    Utf8,
    /// UTF-16, little-endian: the low byte of each unit comes first (RFC 2781, section 2.1).
    Utf16Le,
    /// UTF-16, big-endian: the high byte of each unit comes first.
    Utf16Be,
}

// The greatest number of bytes written for one byte, whatever the encodings.
pub(crate) const WIDEST: usize = 3;
