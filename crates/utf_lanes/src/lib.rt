//! Bytes and units validated with SIMD, and blocks of one encoding converted to another.
//!
//! - Validation: `text_blocks` returns the length of the text at the front of bytes, `unit_blocks` and `paired_units`
//!   that of well-formed units, and `ascii_texts` whether bytes are ASCII. `look_ups` has the code that depends on the
//!   vector width there.
//! - Conversion: `text_puts` and `text_units` convert text in UTF-8 to units, `utf16_blocks` sixteen or thirty-two units
//!   to UTF-8, and `byte_pairs` units to the other byte order; text that keeps its encoding is only validated.
//! - Damaged bytes: `fault_masks` finds the invalid bytes of 64, and `mending` writes damaged bytes as text, with what
//!   `replacements` have for them. `plain_windows` converts 64 bytes of ASCII and single invalid bytes to units.
//!   `unit_mending` replaces each lone surrogate of 32 units by U+FFFD.
//! - `text_front` decodes one character at the front of bytes, and `byte_order` has the byte orders of a unit, as types.
//!
//! It is an addition of this project, and no part of the Rust crate. Nothing here allocates, and nothing knows an
//! encoding except by which byte of a unit is the high one.
#![tactic(auto)]

pub mod ascii_texts;
pub mod byte_order;
pub mod byte_pairs;
pub mod fault_masks;
mod few_bytes;
mod look_ups;
pub mod mending;
pub mod paired_units;
pub mod plain_windows;
pub mod replacements;
mod shuffles;
mod slots;
pub mod starts;
pub mod text_blocks;
pub mod text_front;
pub mod text_puts;
pub mod text_units;
pub mod unit_blocks;
pub mod unit_bytes;
pub mod unit_mending;
pub mod unit_starts;
pub mod utf16_blocks;
