//! The pieces of a text that an edit changes.
use crate::buffers::counts::Counts;

/// The effect of an edit, so that a view repaints only that. Everything before `offset` is as it was. The
/// pieces after the new ones are those that followed the removed ones, each at another offset.
///
/// If one letter replaces another this is about seven bytes: whether a byte is invalid, and why, may depend
/// on the three after it.
#[derive(Clone, Copy, Debug, PartialEq, Eq, Drop)]
pub struct Change {
    /// The offset of the first piece that may have changed.
    pub offset: usize,
    /// The number of pieces before it.
    pub number: usize,
    /// The counts of the removed bytes and pieces from there on.
    pub gone: Counts,
    /// The counts of the bytes and pieces that replaced them.
    pub come: Counts,
}

// The previous and new counts of a window that was counted anew, and its offset.
#[derive(Clone, Copy, Drop)]
pub(crate) struct Recount {
    pub place: usize,
    pub gone: Counts,
    pub come: Counts,
}
