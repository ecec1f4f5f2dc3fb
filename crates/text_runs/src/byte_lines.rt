//! The lines of bytes that may be damaged, from both ends, with their offsets.
ghost use Rattle.std.specs.Prelude.{◌≡◌, ◌+◌, ◌≤◌, IfSome, IsSome, ⊤, count_by, length, map, nat_eq};
ghost use Rattle.std.specs.Iterator.{UpTo, YieldsFirst, YieldsLast, item_count};
ghost use Rattle.std.specs.Iterator.Runs.{EveryRun};
ghost use Rattle.std.specs.Iterator.SizeHint.{IsWithinCount};
ghost use Rattle.std.specs.List.{All};
ghost use Rattle.std.specs.Str.Lines.{lines};
ghost use Rattle.encode_unicode.specs.Pieces.{Gives, GivesReversed};
ghost use Rattle.text_runs.specs.Splits.{BackSpan, EachLies, LiesBetween, NextSpan, ended_line, lines_by};

use crate::splits::{Span, SplitAscii, split_ascii};
use std::alloc::AllocError;
use std::marker::Model;

/// The lines of bytes, from both ends: what `lines` makes.
#[derive(Debug, Drop)]
pub struct SplitLines<'a> {
    parts: SplitAscii<'a>,
    // whether a line feed ended the last of the parts that are left
    ended: bool,
}

impl<'a> Model for SplitLines<'a> {
    ghost use Rattle.std.specs.Prelude.{List};
    ghost use Rattle.text_runs.specs.Splits.{PlacedBytes, lines_left};

    ghost Value = { List PlacedBytes };

    ghost view = { λ l. lines_left l.ended l.parts };
}

/// The lines of the bytes, as `str::lines` of std. A line ends at `\n` or `\r\n`, which does not belong to it, or at
/// the end of the bytes. What follows the last `\n` is a line if it has a byte. A lone `\r` ends no line. The bytes
/// may be invalid. No line begins or ends inside a character.
#[tactic(auto, using(crate::proofs::LinesOfParts::are_lines, crate::proofs::SplitPlaces::lines_lie, crate::proofs::SplitPlaces::each_lies, crate::proofs::SplitPlaces::each_lies_back, crate::proofs::LinesOfParts::few_lines))]
pub fn lines(bytes: &[u8]) -> SplitLines<'_>
    ensures list { result ≡ lines_by bytes.now }
    ensures lines { map (λ x. x.bytes) result ≡ lines bytes.now }
    ensures few { length result ≤ count_by (λ x. nat_eq x 10) bytes.now + 1 }
    ensures places { All (LiesBetween bytes.now) result }
    ensures items { EachLies NextSpan bytes.now result }
    ensures items_back { EachLies BackSpan bytes.now result }
    ensures runs { EveryRun NextSpan (λ p. Gives p p.from) }
    ensures runs_back { EveryRun BackSpan (λ p. GivesReversed p p.from) }
{
    SplitLines {
        parts: split_ascii(bytes, b'\n'),
        ended: false,
    }
}

impl<'a> Iterator for SplitLines<'a> {
    type Item = Span<'a>;

    ghost next_gives = { YieldsFirst (λ left. left) };

    ghost remaining = { item_count (λ left. left) };

    /// The line at the front, or `None` once all were given.
    ///
    /// Cost: O(n) in the line.
    #[tactic(auto, using(crate::proofs::LinesOfParts::first_line))]
    fn next(&mut self) -> Option<Span<'a>> {
        let part = self.parts.next()?;
        if self.ended || !self.parts.is_done() {
            return Some(part.without_return());
        }
        if part.is_empty() {
            return None;
        }
        Some(part)
    }

    /// Bounds of the number of lines that remain: (none; as many as there may be fields between line feeds).
    fn size_hint(&self) -> (usize, Option<usize>)
        ensures lower { IsWithinCount result.0 (item_count (λ left. left) self.now) }
        ensures upper { IfSome result.1 (UpTo (item_count (λ left. left) self.now)) }
        ensures bounded { IsSome result.1 }
    {
        let (_, most) = self.parts.size_hint();
        (0, most)
    }
}

impl<'a> DoubleEndedIterator for SplitLines<'a> {
    ghost next_back_gives = { YieldsLast (λ left. left) };

    /// The line at the end, or `None` once all were given.
    ///
    /// Cost: O(n) in the line.
    #[tactic(auto, using(crate::proofs::LinesOfParts::last_line, crate::proofs::LinesOfParts::no_last_line, crate::proofs::LinesOfParts::ended_push))]
    fn next_back(&mut self) -> Option<Span<'a>> {
        let part = self.parts.next_back()?;
        if self.ended {
            return Some(part.without_return());
        }
        self.ended = true;
        if part.is_empty() {
            let line = self.parts.next_back()?;
            return Some(line.without_return());
        }
        Some(part)
    }
}

impl<'a> Clone for SplitLines<'a> {
    ghost is_clone = { λ left copy. copy ≡ left };

    ghost is_infallible = { λ _. ⊤ };

    /// A second iterator over the lines that remain. It never fails.
    fn clone(&self) -> Result<SplitLines<'a>, AllocError> {
        Ok(SplitLines {
            parts: self.parts.clone()?,
            ended: self.ended,
        })
    }
}
