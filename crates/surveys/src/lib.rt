//! A survey of bytes: counts by which one can guess what a file most likely is.
//!
//! It is an addition of this project, and no part of the Rust crate.
#![tactic(auto)]

mod classes;
mod ends;
mod few_bytes;
pub mod guess_lists;
pub mod guesses;
mod ordinary;
mod rare_counts;
pub mod states;
mod sums;
pub mod survey;
mod twice_counts;
pub mod unit_counts;
mod unpaired_counts;
pub mod utf8_counts;
mod utf8_parts;
pub mod whole;
mod windows;

pub use guess_lists::{Guesses, guesses_of};
pub use guesses::{Guess, guess_of};
pub use states::{SurveyorState, UnitState};
pub use survey::{Survey, Surveyor};
pub use unit_counts::UnitCounts;
pub use utf8_counts::Utf8Counts;
pub use whole::survey_of;
