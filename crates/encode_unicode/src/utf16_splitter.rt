//! Characters as the units of their codes in UTF-16.
ghost use Rattle.std.specs.Prelude.{◌≡◌, ◌+◌, ◌*◌, codes, ℕ, List, length, IsOk, IfErr, IfOk, IfSome};
ghost use Rattle.std.specs.Iterator.{count_map, UpTo};
ghost use Rattle.std.specs.Iterator.SizeHint.{IsWithinCount};
ghost use Rattle.utf_base.specs.Code.{utf16};
ghost use Rattle.encode_unicode.specs.DebugTexts.{debug_splitter};
ghost use Rattle.encode_unicode.specs.Sources.{HasSameUnsent, unsent_count, unbegun, unsent, SplitterNext, SplitsHint};

use crate::debugging::write_fields;
use crate::second_unit::SecondUnit;
use crate::splitting::hint_of;
use std::alloc::AllocError;
use std::fmt;
use std::marker::Model;
use utf_chars::utf16_char::Utf16Char;

/// The units of the characters of any iterator, one character after another: a streaming encoder.
///
/// Contracts see what remains of the character that was begun, and the source.
#[derive(Drop)]
pub struct Utf16CharSplitter<I> {
    source: I,
    begun: SecondUnit,
}

impl<I> Model for Utf16CharSplitter<I> {
    ghost use Rattle.encode_unicode.specs.Sources.{Splitting};

    ghost Value = { Splitting I };

    ghost view = { λ s. record { begun = s.begun; source = s.source } };
}

impl<I: Iterator<Item = Utf16Char>> From<I> for Utf16CharSplitter<I> {
    ghost from_gives = { λ source splitter. splitter ≡ unbegun source };

    /// A splitter that has taken nothing of the source.
    #[inline]
    fn from(source: I) -> Utf16CharSplitter<I> {
        Utf16CharSplitter {
            source,
            begun: SecondUnit::none(),
        }
    }
}

impl<I: Iterator<Item = Utf16Char>> Iterator for Utf16CharSplitter<I> {
    type Item = u16;

    ghost can_next = { λ s. I.can_next s.source };

    ghost next_gives = { SplitterNext utf16 I.next_gives };

    ghost remaining = { unsent_count 2 I.remaining };

    /// Takes the next unit. `None` once the source has ended.
    #[inline(always)]
    fn next(&mut self) -> Option<u16> {
        match self.begun.take() {
            Some(unit) => Some(unit),
            None => {
                let (first, second) = SecondUnit::split(self.source.next()?);
                self.begun = second;
                Some(first)
            }
        }
    }

    /// Bounds of the number of units to come: those left of the character that was begun, and at least one
    /// and at most two for each character of the source.
    #[inline]
    fn size_hint(&self) -> (usize, Option<usize>)
        ensures lower { IsWithinCount result.0 (unsent_count 2 I.remaining self.now) }
        ensures upper { IfSome result.1 (UpTo (unsent_count 2 I.remaining self.now)) }
        ensures split { SplitsHint utf16 2 I.remaining self.now result }
    {
        hint_of(self.source.size_hint(), 2, self.begun.len())
    }
}

impl<I: Iterator<Item = Utf16Char>> Utf16CharSplitter<I> {
    /// The source, as far as it was read. What remains of the character that was begun is lost.
    #[inline]
    pub fn into_inner(self) -> I
        ensures { result ≡ self.source }
    {
        let Utf16CharSplitter { source, begun: _ } = self;
        source
    }

    /// A second splitter with the same units to come, if a clone of the source gives the same items. It fails
    /// if and only if the source's `clone` fails, with that error.
    ///
    /// Cost: that of the source's `clone`.
    pub fn clone(&self) -> Result<Utf16CharSplitter<I>, AllocError>
    where
        I: Clone,
        ensures source { IfOk result (λ s. I.is_clone self.now.source s.source) }
        ensures begun { IfOk result (λ s. s.begun ≡ self.now.begun) }
        ensures same { IfOk result (HasSameUnsent utf16 I.is_clone self.now) }
        ensures fails { IfErr result (λ _. ¬ (I.is_infallible self.now.source)) }
        ensures succeeds { I.is_infallible self.now.source → IsOk result }
    {
        Ok(Utf16CharSplitter {
            source: self.source.clone()?,
            begun: self.begun.copy(),
        })
    }
}

/// The source, and what is left of the begun code.
impl<I: fmt::Debug> fmt::Debug for Utf16CharSplitter<I> {
    ghost debug_output = { λ s. debug_splitter (codes "Utf16CharSplitter") (I.debug_output s.source) s.begun };

    /// The source, and what remains of the character that was begun.
    fn fmt<W: fmt::Write>(&self, f: &mut fmt::Formatter<W>) -> fmt::Result {
        write_fields(
            f,
            "Utf16CharSplitter",
            ("source", &self.source),
            ("begun", &self.begun),
        )
    }
}
