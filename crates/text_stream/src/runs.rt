//! Runs over bytes in any encoding, and lists of faults.

pub mod fault_lists;
pub mod forms;
pub mod unit_bytes;
