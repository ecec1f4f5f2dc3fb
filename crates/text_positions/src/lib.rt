//! Lines and columns of input that comes in parts.
//!
//! `cuts` re-exports this crate. It is an addition of this project, and no part of the Rust crate.
#![tactic(auto)]

pub mod line_feeds;
pub mod position;
