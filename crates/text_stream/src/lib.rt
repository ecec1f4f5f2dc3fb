//! Input in parts: `Decoder` gives the pieces of all of it, each with its offset; and calls that take bytes
//! in any encoding.
//!
//! `cuts` re-exports this crate. It is an addition of this project, and no part of the Rust crate.
#![tactic(auto)]

pub mod changes;
pub mod decoder;
pub mod first_pieces;
pub mod located;
pub mod piece_runs;
pub mod runs;
pub mod undecided;
