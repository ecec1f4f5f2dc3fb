//! A viewer of a file that grows: which of its pieces stay when bytes are appended.
ghost use Rattle.std.specs.Prelude.{◌≡◌, ◌+◌, ◌-◌, ◌++◌, length, drop, min, take, IfOk, OnErr, OnOk};
ghost use Rattle.encode_unicode.specs.Pieces.{pieces};
ghost use Rattle.cuts.specs.Changes.{IsChange};

use cuts::{Change, TextBuffer};
use std::alloc::{AllocError, Allocator};

/// What a viewer shows of a text: its pieces from this one on.
#[derive(Clone, Copy, Debug, PartialEq, Eq, Drop)]
pub struct View {
    /// The number of the first piece, counted from 0.
    pub first: usize,
}

impl View {
    /// A view of the last `count` pieces, or of all if there are fewer.
    pub fn of_last<A: Allocator + Copy>(text: &TextBuffer<A>, count: usize) -> View
        ensures { result.first ≡ length (pieces text.now) - count }
    {
        View {
            first: text.counts().pieces.saturating_sub(count),
        }
    }

    /// Appends bytes to the text. Of the pieces shown, those before the number of the change stay. Those to
    /// draw begin there, up to the end, as many as the change added. If the change begins before the view,
    /// then the view begins with it.
    ///
    /// Fails if an allocation fails, or if a `usize` cannot count the bytes. Everything is then as it was.
    ///
    /// Cost: that of `TextBuffer::insert`.
    pub fn append<A: Allocator + Copy>(
        &mut self,
        text: &mut TextBuffer<A>,
        new: &[u8],
    ) -> Result<Change, AllocError>
        ensures bytes { OnOk result (text.new ≡ text.old ++ new.now) }
        ensures change { IfOk result (IsChange text.old text.new (length text.old) (length text.old)) }
        ensures first { IfOk result (λ change. self.new.first ≡ min self.old.first change.number) }
        ensures stay { IfOk result (λ change.
            take (change.number - self.old.first) (drop self.new.first (pieces text.new))
            ≡ take (change.number - self.old.first) (drop self.old.first (pieces text.old))) }
        ensures come { IfOk result (λ change. length (pieces text.new) ≡ change.number + change.come.pieces) }
        ensures err { OnErr result ((self.new ≡ self.old) × (text.new ≡ text.old)) }
    {
        let end = text.len();
        let change = text.insert(end, new)?;
        self.first = self.first.min(change.number);
        Ok(change)
    }
}
