//! The programs `pieces` and `recode`: their arguments, their lines, and how they end.

pub(crate) mod entries;
pub(crate) mod lines;
pub mod listing;
pub mod mains;
pub(crate) mod offset;
pub mod pieces_program;
pub mod recode_program;
pub mod recode_stream;
pub(crate) mod requests;
pub mod stops;
pub mod strict;
