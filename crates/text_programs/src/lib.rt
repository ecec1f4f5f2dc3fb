//! The programs `pieces` and `recode`, and transcoding from a reader to a writer.
//!
//! `cuts` re-exports this crate. It is an addition of this project, and no part of the Rust crate.
#![tactic(auto)]

pub mod programs;
