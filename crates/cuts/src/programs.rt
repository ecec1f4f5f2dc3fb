//! The programs `pieces` and `recode`.
pub use text_programs::programs::{
    listing, mains, pieces_program, recode_program, recode_stream, stops, strict,
};
