//! Whole runs over bytes and units, parts and lines of bytes, boundaries, and readers and writers that are counted.
//!
//! `cuts` re-exports this crate. It is an addition of this project, and no part of the Rust crate.
#![tactic(auto)]

pub mod boundaries;
pub mod byte_lines;
pub mod byte_order_mark;
pub mod counted;
pub mod runs;
pub mod splits;
pub mod streams;
