//! Whole runs over bytes and units, and over bytes in any encoding.
pub use text_runs::runs::{collected, counts, items, numbers, walks, well_formed};
pub use text_stream::runs::{fault_lists, forms, unit_bytes};
