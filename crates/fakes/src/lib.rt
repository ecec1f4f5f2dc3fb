//! What tests use in place of the world: a reader and a writer over memory, which pass few bytes a call and
//! fail as planned, an allocator with a budget, and the parser of rows of data.
#![tactic(auto)]

pub mod budget;
pub mod fuse;
pub mod rows;
