//! An offset between two pieces of a text, from which pieces are read forward and backward.
ghost use Rattle.std.specs.Prelude.{◌≡◌, ◌+◌, Contains, MatchOption, length, min};
ghost use Rattle.encode_unicode.specs.Pieces.{pieces};
ghost use Rattle.text_runs.specs.PieceBoundaries.{IsBetween, IsLastBetween};

use crate::buffers::text_buffer::TextBuffer;
use std::alloc::Allocator;
use std::marker::Model;
use text_runs::runs::items::Item;

/// An offset between two pieces of a text, which moves from piece to piece, forward and backward. Contracts
/// see the text and the offset.
#[derive(Drop)]
pub struct TextCursor<'a, A: Allocator + Copy> {
    text: &'a TextBuffer<A>,
    offset: usize,
}

impl<'a, A: Allocator + Copy> Model for TextCursor<'a, A> {
    ghost use Rattle.text_runs.specs.PieceBoundaries.{IsBetween};
    ghost use Rattle.text_buffers.specs.TextLookups.{TextPlace};

    ghost Value = { TextPlace };

    ghost view = { λ c. record { text = c.text.now; offset = c.offset } };

    ghost invariant = { λ c. IsBetween c.text.now c.offset };
}

impl<'a, A: Allocator + Copy> TextCursor<'a, A> {
    /// A cursor at the last boundary between two pieces that is not after this offset, or at the end of
    /// the text if the offset is not below its length.
    ///
    /// Cost: that of `TextBuffer::piece_at`.
    pub fn at(text: &'a TextBuffer<A>, offset: usize) -> TextCursor<'a, A>
        ensures text { result.text ≡ text.now }
        ensures offset { IsLastBetween text.now (min offset (length text.now)) result.offset }
    {
        match text.piece_at(offset) {
            Some((place, _, _)) => TextCursor::between(text, place),
            None => TextCursor::between(text, text.len()),
        }
    }

    // A cursor at this offset, which lies between two pieces.
    fn between(text: &'a TextBuffer<A>, offset: usize) -> TextCursor<'a, A>
        requires { IsBetween text.now offset }
        ensures { result ≡ record { text = text.now; offset = offset } }
    {
        TextCursor { text, offset }
    }

    /// The offset of the cursor in the text.
    pub fn offset(&self) -> usize
        ensures { result ≡ self.now.offset }
    {
        let TextCursor { offset, .. } = self;
        *offset
    }

    /// Returns the piece after the cursor, and moves to its end: (offset, character or error, length). `None`
    /// at the end of the text.
    ///
    /// Cost: that of `TextBuffer::piece_at`.
    pub fn next(&mut self) -> Option<Item>
        ensures text { self.new.text ≡ self.old.text }
        ensures piece { MatchOption result (self.old.offset ≡ length self.old.text)
            (λ x. Contains (pieces self.old.text) x × (x.0 ≡ self.old.offset)) }
        ensures offset { MatchOption result (self.new.offset ≡ self.old.offset)
            (λ x. self.new.offset ≡ x.0 + x.2) }
    {
        // Brings into scope that the length fits in a `usize`.
        let _len = self.text.len();
        let item = self.text.piece_at(self.offset)?;
        self.offset = item.0 + item.2;
        Some(item)
    }

    /// Returns the piece before the cursor, and moves to its beginning: (offset, character or error, length).
    /// `None` at the beginning of the text.
    ///
    /// Cost: that of `TextBuffer::piece_at`.
    pub fn next_back(&mut self) -> Option<Item>
        ensures text { self.new.text ≡ self.old.text }
        ensures piece { MatchOption result (self.old.offset ≡ 0)
            (λ x. Contains (pieces self.old.text) x × (x.0 + x.2 ≡ self.old.offset)) }
        ensures offset { MatchOption result (self.new.offset ≡ self.old.offset)
            (λ x. self.new.offset ≡ x.0) }
    {
        let last = self.offset.checked_sub(1)?;
        let item = self.text.piece_at(last)?;
        self.offset = item.0;
        Some(item)
    }
}
