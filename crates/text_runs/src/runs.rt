//! Whole runs over bytes and units: every piece, from the front, from both ends, or as a merger returns.

pub mod collected;
pub mod counts;
pub mod items;
pub mod numbers;
pub mod piece_counts;
pub mod steps;
pub mod walks;
pub mod well_formed;
