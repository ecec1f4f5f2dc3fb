//! The codes of one scalar in UTF-8 and UTF-16, and the decoding of one code.
pub(crate) mod number;
pub(crate) mod utf16;
pub(crate) mod utf8;
pub(crate) mod utf8_end;
