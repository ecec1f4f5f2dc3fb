//! An editor's text: an edit, the status line after it, and a view that steps through the bytes.
ghost use Rattle.std.specs.List.{splice};
ghost use Rattle.std.specs.Prelude.{◌≡◌, ◌+◌, ◌≤◌, ◌<◌, length, take, slice_index, Contains, IfOk, IfSome, OnErr, OnOk};
ghost use Rattle.encode_unicode.specs.Pieces.{pieces};
ghost use Rattle.cuts.specs.Counts.{counts_of};
ghost use Rattle.cuts.specs.ShardRuns.{line_feed_count};
ghost use Rattle.cuts.specs.TextLookups.{IsLineStart};

use cuts::{Change, Counts, Item, TextBuffer};
use std::alloc::{AllocError, Allocator};

/// Replaces a part of a text, and returns the new counts: for a status line with the number of lines,
/// characters and errors.
pub fn replace_and_count<A: Allocator + Copy>(
    text: &mut TextBuffer<A>,
    start: usize,
    end: usize,
    new: &[u8],
) -> Result<Counts, AllocError>
    requires ordered { start ≤ end }
    requires within { end ≤ length text.old }
    ensures counts { IfOk result (λ counts. counts ≡ counts_of (splice text.old start end new.now)) }
    ensures err { OnErr result (text.new ≡ text.old) }
{
    text.replace(start, end, new)?;
    Ok(text.counts())
}

/// Appends bytes, as a viewer of a growing log does.
pub fn append<A: Allocator + Copy>(
    text: &mut TextBuffer<A>,
    new: &[u8],
) -> Result<Change, AllocError>
    ensures ok { OnOk result (take (length text.old) text.new ≡ text.old) }
    ensures err { OnErr result (text.new ≡ text.old) }
{
    let end = text.len();
    text.insert(end, new)
}

/// The byte at an offset.
pub fn byte_at<A: Allocator + Copy>(text: &TextBuffer<A>, offset: usize) -> u8
    requires { offset < length text.now }
    ensures { result ≡ slice_index text.now offset }
{
    let bytes = text.chunk_at(offset);
    bytes[0]
}

/// The offset that a view shows for a line number: the beginning of the line, or the end if there are too few
/// lines.
pub fn go_to_line<A: Allocator + Copy>(text: &TextBuffer<A>, line: usize) -> usize
    ensures within { result ≤ length text.now }
    ensures line { line ≤ line_feed_count text.now → IsLineStart text.now line result }
{
    match text.offset_of_line(line) {
        Some(offset) => offset,
        None => text.len(),
    }
}

/// The next error from an offset on, with its kind: for a key that moves from error to error.
pub fn next_error<A: Allocator + Copy>(text: &TextBuffer<A>, offset: usize) -> Option<Item>
    ensures { IfSome result (λ x. Contains (pieces text.now) x × (offset < x.0 + x.2)) }
{
    let place = text.next_fault(offset)?;
    text.piece_at(place)
}

/// Edits a text of which a view keeps the first pieces, and drops those that may have changed: the others
/// need not be decoded again.
pub fn edit_and_keep<A: Allocator + Copy>(
    text: &mut TextBuffer<A>,
    kept: &mut Vec<Item, A>,
    start: usize,
    end: usize,
    new: &[u8],
) -> Result<(), AllocError>
    requires ordered { start ≤ end }
    requires within { end ≤ length text.old }
    requires kept { kept.old.items ≡ take (length kept.old.items) (pieces text.old) }
    ensures kept { kept.new.items ≡ take (length kept.new.items) (pieces text.new) }
{
    let change = text.replace(start, end, new)?;
    kept.truncate(change.number);
    Ok(())
}
