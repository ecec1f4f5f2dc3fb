//! Texts that are edited: `PieceTable` keeps the pieces of bytes, and `TextBuffer` a long text in chunks.
//!
//! `cuts` re-exports this crate. It is an addition of this project, and no part of the Rust crate.
#![tactic(auto)]

pub mod buffers;
pub(crate) mod lists;
pub mod piece_table;
pub mod text_streams;
