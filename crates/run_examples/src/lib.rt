//! Callers of `cuts`, over whole runs, proved only from its contracts and those of `encode_unicode`.
#![tactic(auto)]

pub mod blocks;
pub mod boundaries;
pub mod bounds;
pub mod buffers;
pub mod cursor;
pub mod editor;
pub mod equals;
pub mod faults;
pub mod fields;
pub mod fronts;
pub mod growing;
pub mod listed;
pub mod lossy;
pub mod names;
pub mod parts;
pub mod repair;
pub mod rooms;
pub mod runs;
pub mod shards;
pub mod shown;
pub mod strict;
pub mod strings;
pub mod undecided;
pub mod undo;
pub mod wire;
