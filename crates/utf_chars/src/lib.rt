//! Characters in encoded form: methods of `char`, and `Utf8Char` and `Utf16Char`.
#![tactic(auto)]

mod codes;
pub mod laws;
pub mod traits;
pub mod unsent;
pub mod utf16_char;
pub mod utf16_iterators;
pub mod utf8_char;
pub mod utf8_iterators;
