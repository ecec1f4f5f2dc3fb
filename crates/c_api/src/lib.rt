//! The calls of the library for C.
//!
//! Each export calls one proved function and returns its result. A slice is passed as a pointer and then a length; at
//! the length 0 the pointer may be null. `c/noddychest.h` declares all of them.
#![tactic(auto)]

mod ascii_pieces;
mod boundaries;
mod changes;
mod characters;
mod counts;
mod cursors;
mod decoder_faults;
mod decoders;
mod fault_lists;
mod kinds;
mod lossy;
mod marks;
mod numbers;
mod piece;
mod positions;
mod recodings;
mod repair;
mod shards;
mod strict;
mod survey;
mod undecided;
mod version;
mod well_formed;
mod whole;
mod whole_strict;
