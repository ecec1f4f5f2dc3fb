//! The definitions of UTF-8 with their laws, the errors of decoding it, and the calls on a single byte or
//! unit.
#![tactic(auto)]

pub mod elements;
pub mod errors;
pub mod laws;
pub mod table;
pub mod traits;
