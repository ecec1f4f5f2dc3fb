//! A text that is edited: each edit costs about the same, however long the text is.
ghost use Rattle.std.specs.List.{concat, splice};
ghost use Rattle.std.specs.Prelude.{◌≡◌, ◌+◌, ◌-◌, ◌^◌, ◌<◌, ◌≤◌, [], length, take, drop, slice_get, slice_range, option_map, Contains, MatchOption, IfOk, OnOk, OnErr};
ghost use Rattle.encode_unicode.specs.Pieces.{pieces};
ghost use Rattle.encode_unicode.specs.Window.{Item as AnItem};
ghost use Rattle.text_buffers.specs.Changes.{IsChange};
ghost use Rattle.text_buffers.specs.Counts.{counts_of};
ghost use Rattle.text_runs.specs.ShardRuns.{line_feed_count};
ghost use Rattle.text_runs.specs.Tables.{IsSplitAt};
ghost use Rattle.text_buffers.specs.TextLookups.{HasNoFaultBefore, HasNoFaultFrom, HasPlace, IsLineStart, IsNextFault, IsPreviousFault};

use crate::buffers::changes::Change;
use crate::buffers::chunks::Chunks;
use crate::buffers::counts::Counts;
use std::alloc::{AllocError, Allocator};
use std::marker::Model;
use text_runs::runs::items::Item;

/// A text that is edited, and whose numbers of characters, invalid bytes and lines are always known.
/// Contracts see its bytes.
///
/// The bytes are kept in chunks of some kilobytes, with the counts of each row of 256. An edit of a few bytes
/// changes one or two chunks, and no other byte is read or moved.
#[derive(Drop)]
pub struct TextBuffer<A: Allocator + Copy> {
    chunks: Chunks<A>,
}

impl<A: Allocator + Copy> Model for TextBuffer<A> {
    ghost use Rattle.std.specs.Prelude.{ℕ, List};
    ghost use Rattle.std.specs.List.{concat};

    ghost Value = { List ℕ };

    ghost view = { λ t. concat t.chunks };
}

impl<A: Allocator + Copy> TextBuffer<A> {
    /// A buffer of a copy of the bytes. The error is that an allocation failed.
    ///
    /// Cost: O(n), allocates.
    pub fn of(alloc: A, bytes: &[u8]) -> Result<TextBuffer<A>, AllocError>
        ensures { IfOk result (λ text. text ≡ bytes.now) }
    {
        let chunks = Chunks::of(alloc, bytes)?;
        Ok(TextBuffer { chunks })
    }

    /// The length in bytes.
    pub fn len(&self) -> usize
        ensures { result ≡ length self.now }
    {
        self.counts().bytes
    }

    /// The numbers of bytes, pieces, invalid bytes and line feeds in the text. A piece is a character or one
    /// invalid byte.
    pub fn counts(&self) -> Counts
        ensures { result ≡ counts_of self.now }
    {
        self.chunks.counts()
    }

    /// The bytes from this offset on, as far as they lie in one chunk. If the offset is below the length,
    /// there is at least one byte. To read all, continue at the offset plus their number.
    ///
    /// Cost: a step for each half megabyte of the text, and at most 512 more.
    pub fn chunk_at(&self, offset: usize) -> &[u8]
        ensures bytes { result.now ≡ take (length result.now) (drop offset self.now) }
        ensures some { offset < length self.now → 0 < length result.now }
    {
        self.chunks.chunk_from(offset)
    }

    /// The bytes from `start` up to `end`, `end` not included, as far as they lie in one chunk. If `start` is
    /// below `end`, there is at least one byte. To read all, continue at `start` plus their number.
    ///
    /// Condition: `start` is at most `end`, and `end` at most the length.
    ///
    /// Cost: that of `chunk_at`.
    pub fn chunk_within(&self, start: usize, end: usize) -> &[u8]
        requires ordered { start ≤ end }
        requires within { end ≤ length self.now }
        ensures bytes { result.now ≡ take (length result.now) (slice_range self.now start end) }
        ensures some { start < end → 0 < length result.now }
    {
        let bytes = self.chunk_at(start);
        &bytes[..bytes.len().min(end - start)]
    }

    /// The number of pieces that begin before this offset. If a piece begins at the offset, this is its
    /// number, counted from 0.
    ///
    /// Cost: a step for each half megabyte of the text, at most 512 more, and at most 1,024 bytes are read.
    pub fn number_of(&self, offset: usize) -> usize
        ensures { IsSplitAt (pieces self.now) offset result }
    {
        self.chunks.pieces_before(offset)
    }

    /// The offset of the piece with this number, counted from 0. `None` if the text has no more pieces.
    ///
    /// Cost: a step for each half megabyte of the text, at most 512 more, and at most 2,048 bytes are read.
    pub fn offset_of(&self, number: usize) -> Option<usize>
        ensures { result ≡ option_map (λ (x : AnItem). x.0) (slice_get (pieces self.now) number) }
    {
        self.chunks.place_of(number)
    }

    /// The piece with this number, counted from 0: (offset, character or error, length). The error is
    /// what a decoder of the whole text gives there. `None` if the text has no more pieces.
    ///
    /// Cost: that of `offset_of`.
    pub fn piece(&self, number: usize) -> Option<Item>
        ensures { result ≡ slice_get (pieces self.now) number }
    {
        self.chunks.nth_piece(number)
    }

    /// The piece that has the byte at this offset: (offset of the piece, character or error, length).
    /// `None` if the offset is the length or more.
    ///
    /// Cost: a step for each half megabyte of the text, and at most 512 more.
    pub fn piece_at(&self, offset: usize) -> Option<Item>
        ensures { MatchOption result (length self.now ≤ offset)
            (λ x. Contains (pieces self.now) x × HasPlace offset x) }
    {
        self.chunks.piece_over(offset)
    }

    /// The number of line feeds before this offset: the number of its line, counted from 0.
    ///
    /// Cost: a step for each half megabyte of the text, at most 512 more, and at most 2,048 bytes are read.
    pub fn line_of(&self, offset: usize) -> usize
        ensures { result ≡ line_feed_count (take offset self.now) }
    {
        self.chunks.feeds_before(offset)
    }

    /// The offset at which the line with this number begins, counted from 0. Each line feed ends a line,
    /// and begins another just after it. `None` if the text has fewer line feeds than `line`.
    ///
    /// Cost: that of `line_of`.
    pub fn offset_of_line(&self, line: usize) -> Option<usize>
        ensures { MatchOption result (line_feed_count self.now < line) (IsLineStart self.now line) }
    {
        self.chunks.line_start(line)
    }

    /// The offset of the first invalid byte at this offset or after it. `None` if there is none.
    ///
    /// Cost: a step for each half megabyte of the text, and at most 1,024 more. Of parts of 2,048 bytes only the
    /// one with the result is read, and the one with the offset.
    pub fn next_fault(&self, offset: usize) -> Option<usize>
        ensures { MatchOption result (HasNoFaultFrom self.now offset) (IsNextFault self.now offset) }
    {
        self.chunks.fault_from(offset)
    }

    /// The offset of the last invalid byte before this offset. `None` if there is none.
    ///
    /// Cost: that of `next_fault`.
    pub fn previous_fault(&self, offset: usize) -> Option<usize>
        ensures { MatchOption result (HasNoFaultBefore self.now offset) (IsPreviousFault self.now offset) }
    {
        self.chunks.fault_before(offset)
    }

    /// A copy of the bytes. The error is that an allocation failed.
    ///
    /// Cost: O(n), allocates.
    pub fn to_vec(&self, alloc: A) -> Result<Vec<u8, A>, AllocError>
        ensures { IfOk result (λ bytes. bytes.items ≡ self.now) }
    {
        self.chunks.joined(alloc)
    }

    /// Replaces the bytes from `start` up to `end`, `end` not included, by `new`. The result says which
    /// pieces were removed and which replaced them: so a view repaints only these.
    ///
    /// The error is that an allocation failed, or that a `usize` cannot count the bytes. The text is then as
    /// it was.
    ///
    /// Condition: `start` is at most `end`, and `end` at most the length.
    ///
    /// Cost: O(n) for n bytes that are removed or inserted, and that of `number_of`. If the number of chunks
    /// changes, all after them are moved, in a step for each 2,048 bytes. Allocates.
    pub fn replace(&mut self, start: usize, end: usize, new: &[u8]) -> Result<Change, AllocError>
        requires ordered { start ≤ end }
        requires within { end ≤ length self.old }
        ensures ok { OnOk result (self.new ≡ splice self.old start end new.now) }
        ensures change { IfOk result (IsChange self.old self.new start end) }
        ensures err { OnErr result (self.new ≡ self.old) }
    {
        let mark = self.chunks.mark_at(start.saturating_sub(3));
        let edit = self.chunks.reach(mark, start, end);
        let recount = self.chunks.replace(edit, new)?;
        Ok(Change {
            offset: recount.place,
            number: self.chunks.pieces_before_from(mark, recount.place),
            gone: recount.gone,
            come: recount.come,
        })
    }

    /// Inserts the bytes at this offset. Result and errors are as for `replace`.
    ///
    /// Condition: the offset is at most the length.
    ///
    /// Cost: that of `replace`. Allocates.
    pub fn insert(&mut self, offset: usize, new: &[u8]) -> Result<Change, AllocError>
        requires { offset ≤ length self.old }
        ensures ok { OnOk result (self.new ≡ splice self.old offset offset new.now) }
        ensures change { IfOk result (IsChange self.old self.new offset offset) }
        ensures err { OnErr result (self.new ≡ self.old) }
    {
        self.replace(offset, offset, new)
    }

    /// Removes the bytes from `start` up to `end`, `end` not included. Result and errors are as for
    /// `replace`.
    ///
    /// Condition: `start` is at most `end`, and `end` at most the length.
    ///
    /// Cost: that of `replace`. Allocates.
    pub fn remove(&mut self, start: usize, end: usize) -> Result<Change, AllocError>
        requires ordered { start ≤ end }
        requires within { end ≤ length self.old }
        ensures ok { OnOk result (self.new ≡ splice self.old start end []) }
        ensures change { IfOk result (IsChange self.old self.new start end) }
        ensures err { OnErr result (self.new ≡ self.old) }
    {
        self.replace(start, end, &[])
    }
}
