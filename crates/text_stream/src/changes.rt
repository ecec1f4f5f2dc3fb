//! The range in which pieces may have changed after an edit: what to decode again.
ghost use Rattle.std.specs.Prelude.{◌+◌, ◌≤◌, length, min};
ghost use Rattle.text_stream.specs.ChangedRanges.{IsChangedRange};

use recoding::boundaries::{boundary_after, boundary_before};
use recoding::form::Form;

/// A part of some bytes: those from `start` up to `end`, `end` not included.
#[derive(Clone, Copy, Debug, PartialEq, Eq, Drop)]
pub struct ChangedRange {
    /// The offset of the first byte.
    pub start: usize,
    /// The offset after the last byte.
    pub end: usize,
}

/// The range of a text outside of which all characters and invalid bytes stay, if the bytes from `start` up to `end`
/// are replaced by any others. What was decoded before `start` of the result stays as it is, and what was decoded
/// from its `end` on moves with its bytes. Its ends are at most six bytes away from `start` and `end`.
///
/// `bytes` is the text before the change or after it, with `start` and `end` as they are in it: the call works both
/// ways. After an edit pass the new text, with the range of the new bytes, and decode the result again.
///
/// In UTF-16, if the length changes by an odd number of bytes, everything from `start` of the result on may change.
/// Offsets above the length count as the length, and a `start` above `end` counts as `end`.
///
/// Cost: constant; some bytes around both ends are read.
pub fn changed_range(form: Form, bytes: &[u8], start: usize, end: usize) -> ChangedRange
    ensures range { IsChangedRange form bytes.now (min start (min end (length bytes.now))) (min end (length bytes.now)) result }
    ensures near_start { min start (min end (length bytes.now)) ≤ result.start + 6 }
    ensures near_end { result.end ≤ min end (length bytes.now) + 6 }
{
    let end = end.min(bytes.len());
    let start = start.min(end);
    ChangedRange {
        start: boundary_before(form, bytes, start.saturating_sub(3)),
        end: boundary_after(form, bytes, end.saturating_add(3)),
    }
}
