//! A text that is edited, in chunks that keep the number of their pieces.
pub mod changes;
pub(crate) mod chunk;
pub(crate) mod chunks;
pub mod counts;
pub mod cursor;
pub(crate) mod dividing;
pub(crate) mod edits;
pub(crate) mod line_feeds;
pub(crate) mod lookups;
pub(crate) mod measures;
pub(crate) mod next_faults;
pub(crate) mod pieces_at;
pub(crate) mod previous_faults;
pub(crate) mod rows;
pub(crate) mod spots;
pub(crate) mod sums;
pub mod text_buffer;
