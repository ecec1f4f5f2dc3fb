//! Decoding of UTF-8 and UTF-16, after the Rust crate of that name.
//!
//! The errors are in `error`, the iterators in `iterator`, and the rest at the top.
#![tactic(auto)]

mod code_bytes;
mod collecting;
mod debugging;
mod decoding_iterators;
mod held_bytes;
mod held_unit;
mod iter_ext;
pub mod laws;
mod merging;
mod remaining;
mod second_unit;
mod splitting;
mod steps;
mod str_ext;
mod tally;
mod text_window;
mod traits;
mod utf16_decoder;
mod utf16_iterators;
mod utf16_merger;
mod utf16_splitter;
mod utf8_iterators;
mod utf8_merger;
mod utf8_splitter;

pub use iter_ext::{U8IterExt, U16IterExt, Utf8CharIterExt, Utf16CharIterExt};
pub use steps::Steps;
pub use str_ext::StrExt;
pub use traits::{U8SliceExt, U16SliceExt};
pub use utf_base::traits::{U8UtfExt, U16UtfExt};
pub use utf_chars::traits::CharExt;
pub use utf_chars::utf8_char::Utf8Char;
pub use utf_chars::utf16_char::Utf16Char;

pub mod error {
    //! The errors that the calls of this crate return if they find no character.
    pub use utf_base::errors::{
        CodepointError, EmptyStrError, FromStrError, NonAsciiError, NonBmpError, Utf8Error,
        Utf8ErrorKind, Utf16ArrayError, Utf16FirstUnitError, Utf16PairError, Utf16SliceError,
        Utf16TupleError,
    };
}

pub mod iterator {
    //! The iterators that the calls of this crate make.
    pub use crate::decoding_iterators::Utf8CharDecoder;
    pub use crate::remaining::RemainingBytes;
    pub use crate::utf8_iterators::{Utf8CharIndices, Utf8Chars};
    pub use crate::utf8_merger::Utf8CharMerger;
    pub use crate::utf8_splitter::Utf8CharSplitter;
    pub use crate::utf16_decoder::Utf16CharDecoder;
    pub use crate::utf16_iterators::{Utf16CharIndices, Utf16Chars};
    pub use crate::utf16_merger::{RemainingUnits, Utf16CharMerger};
    pub use crate::utf16_splitter::Utf16CharSplitter;
    pub use utf_chars::utf8_iterators::Utf8Iterator;
    pub use utf_chars::utf16_iterators::Utf16Iterator;
}
