//! An editor's text with undo: edits are undone in reverse order.
ghost use Rattle.std.specs.List.{splice};
ghost use Rattle.std.specs.Prelude.{◌≡◌, ◌≤◌, [], ◌∷◌, length, slice_range, IfOk, IfSome, MatchOption, OnErr, OnOk, Ok, None};
ghost use Rattle.cuts.specs.Changes.{IsChange};
ghost use Rattle.run_examples.specs.Undo.{IsSomeChange};

use cuts::{Change, TextBuffer};
use std::alloc::{AllocError, Allocator};
use std::marker::Model;

/// A text that is edited, and its contents before each edit. Contracts see the text, and the texts that
/// `undo` restores.
#[derive(Drop)]
pub struct UndoBuffer<A: Allocator + Copy> {
    text: TextBuffer<A>,
    ways_back: Vec<WayBack<A>, A>,
}

impl<A: Allocator + Copy> Model for UndoBuffer<A> {
    ghost use Rattle.std.specs.Prelude.{reverse};
    ghost use Rattle.run_examples.specs.Undo.{CanBeMade, History, texts};

    ghost Value = { History };

    ghost view = { λ t. record { text = t.text; pasts = texts t.text (reverse t.ways_back.items) } };

    ghost invariant = { λ t. CanBeMade t.text (reverse t.ways_back.items) };
}

// The replacement that undoes an edit: the removed bytes, and the offsets of those that replaced them.
#[derive(Drop)]
struct WayBack<A: Allocator> {
    start: usize,
    end: usize,
    bytes: Vec<u8, A>,
}

impl<A: Allocator> Model for WayBack<A> {
    ghost use Rattle.run_examples.specs.Undo.{Replacement};

    ghost Value = { Replacement };

    ghost view = { λ w. record { start = w.start; end = w.end; bytes = w.bytes.items } };
}

impl<A: Allocator + Copy> UndoBuffer<A> {
    /// A text of a copy of the bytes, with no edit to undo. The error is that an allocation failed.
    pub fn of(alloc: A, bytes: &[u8]) -> Result<UndoBuffer<A>, AllocError>
        ensures text { IfOk result (λ made. made.text ≡ bytes.now) }
        ensures pasts { IfOk result (λ made. made.pasts ≡ []) }
    {
        Ok(UndoBuffer {
            text: TextBuffer::of(alloc, bytes)?,
            ways_back: Vec::new(alloc),
        })
    }

    /// The text.
    pub fn text(&self) -> &TextBuffer<A>
        ensures { result.now ≡ self.now.text }
    {
        &self.text
    }

    /// Replaces the bytes from `start` up to `end`, `end` not included, by `new`. Returns the change, as
    /// `TextBuffer::replace` does.
    ///
    /// Fails if an allocation fails, or if a `usize` cannot count the bytes. The text, and the effect of
    /// `undo`, are then as they were.
    ///
    /// Condition: `start` is at most `end`, and `end` at most the length.
    ///
    /// Cost: that of `TextBuffer::replace` and of `part`; keeps a copy of the removed bytes.
    pub fn replace(&mut self, start: usize, end: usize, new: &[u8]) -> Result<Change, AllocError>
        requires ordered { start ≤ end }
        requires within { end ≤ length self.old.text }
        ensures text { OnOk result (self.new.text ≡ splice self.old.text start end new.now) }
        ensures pasts { OnOk result (self.new.pasts ≡ self.old.text ∷ self.old.pasts) }
        ensures change { IfOk result (IsChange self.old.text self.new.text start end) }
        ensures err { OnErr result (self.new ≡ self.old) }
    {
        let now = start.checked_add(new.len()).ok_or(AllocError)?;
        let bytes = part(*self.ways_back.allocator(), &self.text, start, end)?;
        self.ways_back.reserve(1)?;
        let change = self.text.replace(start, end, new)?;
        let way = WayBack {
            start,
            end: now,
            bytes,
        };
        self.ways_back.push(way).unwrap();
        Ok(change)
    }

    /// Inserts the bytes at this offset. Result, errors and cost are as for `replace`.
    ///
    /// Condition: the offset is at most the length.
    pub fn insert(&mut self, offset: usize, new: &[u8]) -> Result<Change, AllocError>
        requires { offset ≤ length self.old.text }
        ensures text { OnOk result (self.new.text ≡ splice self.old.text offset offset new.now) }
        ensures pasts { OnOk result (self.new.pasts ≡ self.old.text ∷ self.old.pasts) }
        ensures change { IfOk result (IsChange self.old.text self.new.text offset offset) }
        ensures err { OnErr result (self.new ≡ self.old) }
    {
        self.replace(offset, offset, new)
    }

    /// Removes the bytes from `start` up to `end`, `end` not included. Result, errors and cost are as for
    /// `replace`.
    ///
    /// Condition: `start` is at most `end`, and `end` at most the length.
    pub fn remove(&mut self, start: usize, end: usize) -> Result<Change, AllocError>
        requires ordered { start ≤ end }
        requires within { end ≤ length self.old.text }
        ensures text { OnOk result (self.new.text ≡ splice self.old.text start end []) }
        ensures pasts { OnOk result (self.new.pasts ≡ self.old.text ∷ self.old.pasts) }
        ensures change { IfOk result (IsChange self.old.text self.new.text start end) }
        ensures err { OnErr result (self.new ≡ self.old) }
    {
        self.replace(start, end, &[])
    }

    /// Undoes the last edit that is not undone yet. Returns the change of the text, or `None` if there is no
    /// edit to undo.
    ///
    /// Fails if an allocation fails. Everything is then as it was, and `undo` can be called again.
    ///
    /// Cost: that of `TextBuffer::replace`.
    pub fn undo(&mut self) -> Result<Option<Change>, AllocError>
        ensures back { IfOk result (λ answer. IfSome answer (λ _.
            self.old.pasts ≡ self.new.text ∷ self.new.pasts)) }
        ensures change { IfOk result (λ answer. IfSome answer (IsSomeChange self.old.text self.new.text)) }
        ensures none { result ≡ Ok None → (self.old.pasts ≡ []) × (self.new ≡ self.old) }
        ensures nothing { self.old.pasts ≡ [] → result ≡ Ok None }
        ensures err { OnErr result (self.new ≡ self.old) }
    {
        let Some(way) = self.ways_back.last() else {
            return Ok(None);
        };
        let change = self.text.replace(way.start, way.end, way.bytes.as_slice())?;
        self.ways_back.pop();
        Ok(Some(change))
    }
}

/// A copy of the bytes of a text from `start` up to `end`, `end` not included. The error is that an
/// allocation failed.
///
/// Condition: `start` is at most `end`, and `end` at most the length.
///
/// Cost: O(n) for n bytes, and one call of `TextBuffer::chunk_at` for each chunk of these.
pub fn part<A: Allocator + Copy>(
    alloc: A,
    text: &TextBuffer<A>,
    start: usize,
    end: usize,
) -> Result<Vec<u8, A>, AllocError>
    requires ordered { start ≤ end }
    requires within { end ≤ length text.now }
    ensures { IfOk result (λ bytes. bytes.items ≡ slice_range text.now start end) }
{
    let mut bytes = Vec::with_capacity(alloc, end - start)?;
    let mut place = start;
    while place < end {
        let chunk = text.chunk_at(place);
        let count = chunk.len().min(end - place);
        bytes.extend_from_slice(&chunk[..count])?;
        place += count;
    }
    Ok(bytes)
}
