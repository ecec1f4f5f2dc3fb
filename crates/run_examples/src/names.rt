//! The names that `cuts` has for its callers: one that is gone fails the check.

pub use cuts::{
    Counted, End, Form, Item, PieceTable, RecodeFault, Recoder, Unfinished, UnitItem,
    forward_utf16, merge_utf8, merge_utf16, recode, run_pieces, run_recode, walk_utf8, walk_utf16,
    write_listing, write_merged, write_walk,
};
