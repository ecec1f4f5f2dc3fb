//! Transcoding from one encoding of text to another: in parts, into a buffer of a fixed size, and in shards.
//!
//! `Recoder` takes text in parts, `room_for` returns an upper bound of the output size, `shard_end` an offset where a
//! large input may be cut, and `laws` has the laws of all transcoding. `cuts` re-exports these.
//!
//! It is an addition of this project, and no part of the Rust crate.
#![tactic(auto)]

mod ascii_to_utf16;
mod block_output;
pub mod boundaries;
mod codes;
mod engine;
pub mod faults;
mod fills;
mod first_pieces;
pub mod form;
mod form_calls;
pub mod held;
mod kernels;
pub mod laws;
mod list;
pub mod lossy;
mod next_scalar;
mod output;
pub mod recoder;
mod recoder_runs;
pub mod repair;
pub mod repaired;
mod room;
pub mod rooms;
pub mod shards;
pub mod strict;
mod subparts;
mod text;
mod turned;
mod utf16_to_utf8;
mod utf8_to_utf16;
mod way;
