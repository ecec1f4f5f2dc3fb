//! The parts of bytes between ASCII separators, from both ends, with their offsets.
//!
//! The bytes may be damaged: a byte below 0x80 is always a character of its own, so no part begins or ends inside a
//! character.
ghost use Rattle.std.specs.Prelude.{◌≡◌, ◌+◌, ◌<◌, ◌≤◌, ◌^◌, ◌∷◌, ◌++◌, IfSome, [], ⊤, count_by, false, length, map, nat_eq, sum_by, Some};
ghost use Rattle.std.specs.Iterator.{UpTo, YieldsFirst, YieldsLast, item_count};
ghost use Rattle.std.specs.Iterator.SizeHint.{IsWithinCount};
ghost use Rattle.std.specs.Iterator.Runs.{EveryRun};
ghost use Rattle.std.specs.List.{All, IsAfterLastMatch, IsFirstMatchOrLen};
ghost use Rattle.encode_unicode.specs.Pieces.{Gives, GivesReversed};
ghost use Rattle.text_runs.specs.Splits.{BackSpan, EachLies, IsSplit, LiesBetween, NextSpan, ended_line, parts_by, split_by, split_left};

use std::alloc::AllocError;
use std::marker::Model;

/// Some bytes of a slice, with their offset in it: what `split_ascii` and `lines` give.
#[derive(Debug, Drop)]
pub struct Span<'a> {
    start: usize,
    bytes: &'a [u8],
}

impl<'a> Model for Span<'a> {
    ghost use Rattle.text_runs.specs.Splits.{PlacedBytes};

    ghost Value = { PlacedBytes };

    ghost view = { λ s. record { start = s.start; bytes = s.bytes.now } };

    ghost use Rattle.std.specs.Prelude.{◌+◌, ◌<◌, ◌^◌, length};

    ghost invariant = { λ s. s.start + length s.bytes.now < 2 ^ 64 };
}

impl<'a> Span<'a> {
    /// The offset of the first byte.
    pub fn start(&self) -> usize
        ensures { result ≡ self.now.start }
    {
        self.start
    }

    /// The offset after the last byte.
    pub fn end(&self) -> usize
        ensures { result ≡ self.now.start + length self.now.bytes }
    {
        self.start + self.bytes.len()
    }

    /// The bytes, borrowed for as long as the slice lives.
    pub fn as_bytes(&self) -> &'a [u8]
        ensures { result.now ≡ self.now.bytes }
    {
        self.bytes
    }

    // The span without a carriage return at the end.
    pub(crate) fn without_return(&self) -> Span<'a>
        ensures { result ≡ ended_line self.now }
    {
        let len = self.bytes.len();
        let has_return = len > 0 && self.bytes[len - 1] == b'\r';
        Span {
            start: self.start,
            bytes: if has_return {
                &self.bytes[..len - 1]
            } else {
                self.bytes
            },
        }
    }

    /// The length in bytes.
    pub fn len(&self) -> usize
        ensures { result ≡ length self.now.bytes }
    {
        self.bytes.len()
    }

    /// Returns true if the span is empty.
    pub fn is_empty(&self) -> bool
        ensures { result ≡ nat_eq (length self.now.bytes) 0 }
    {
        self.bytes.is_empty()
    }
}

impl<'a> Clone for Span<'a> {
    ghost is_clone = { λ span copy. copy ≡ span };

    ghost is_infallible = { λ _. ⊤ };

    /// A copy of the span. It never fails.
    fn clone(&self) -> Result<Span<'a>, AllocError> {
        Ok(Span {
            start: self.start,
            bytes: self.bytes,
        })
    }
}

/// The fields of bytes between separators, from both ends: what `split_ascii` makes.
#[derive(Debug, Drop)]
pub struct SplitAscii<'a> {
    start: usize,
    rest: &'a [u8],
    separator: u8,
    done: bool,
}

impl<'a> Model for SplitAscii<'a> {
    ghost use Rattle.std.specs.Prelude.{◌+◌, ◌<◌, ◌^◌, List, length};
    ghost use Rattle.text_runs.specs.Splits.{PlacedBytes, split_left};

    ghost Value = { List PlacedBytes };

    ghost view = { λ s. split_left s.start s.rest.now s.separator s.done };

    ghost invariant = { λ s. s.start + length s.rest.now < 2 ^ 64 };
}

/// The fields of the bytes between the separators, as `slice::split` of std: n separators give n +
/// 1 fields, and empty bytes one empty field. No field begins or ends inside a character.
///
/// Condition: the separator is below 0x80.
#[tactic(auto, using(crate::proofs::SplitLemmas::split_bytes, crate::proofs::SplitLemmas::split_length, crate::proofs::SplitPlaces::parts_lie, crate::proofs::SplitPlaces::each_lies, crate::proofs::SplitPlaces::each_lies_back, crate::proofs::SplitPlaces::spans_run, crate::proofs::SplitPlaces::spans_run_back))]
pub fn split_ascii(bytes: &[u8], separator: u8) -> SplitAscii<'_>
    requires ascii { separator < 128 }
    ensures list { result ≡ split_by separator bytes.now }
    ensures parts { map (λ x. x.bytes) result ≡ parts_by separator bytes.now }
    ensures split { IsSplit separator bytes.now (parts_by separator bytes.now) }
    ensures count { length result ≡ count_by (λ x. nat_eq x separator) bytes.now + 1 }
    ensures places { All (LiesBetween bytes.now) result }
    ensures items { EachLies NextSpan bytes.now result }
    ensures items_back { EachLies BackSpan bytes.now result }
    ensures runs { EveryRun NextSpan (λ p. Gives p p.from) }
    ensures runs_back { EveryRun BackSpan (λ p. GivesReversed p p.from) }
{
    SplitAscii {
        start: 0,
        rest: bytes,
        separator,
        done: false,
    }
}

impl<'a> SplitAscii<'a> {
    // Returns true if all parts were given.
    #[tactic(auto, using(crate::proofs::SplitLemmas::done_left))]
    pub(crate) fn is_done(&self) -> bool
        ensures { result ≡ nat_eq (length self.now) 0 }
    {
        self.done
    }

    // A finished iterator.
    pub(crate) fn no_parts() -> SplitAscii<'a>
        ensures { result ≡ [] }
    {
        SplitAscii {
            start: 0,
            rest: &[],
            separator: 0,
            done: true,
        }
    }
}

impl<'a> Iterator for SplitAscii<'a> {
    type Item = Span<'a>;

    ghost next_gives = { YieldsFirst (λ left. left) };

    ghost remaining = { item_count (λ left. left) };

    /// The field at the front, or `None` once all were given.
    ///
    /// Cost: O(n) in the field.
    fn next(&mut self) -> Option<Span<'a>> {
        if self.done {
            return None;
        }
        let (part, others) = first_part(self.start, self.rest, self.separator);
        *self = others;
        Some(part)
    }

    /// Bounds of the number of fields that remain: (one until all were given; one more than there are bytes).
    #[tactic(auto, using(crate::proofs::SplitLemmas::some_left, crate::proofs::SplitLemmas::few_left, crate::proofs::SplitLemmas::bytes_left))]
    fn size_hint(&self) -> (usize, Option<usize>)
        ensures lower { IsWithinCount result.0 (item_count (λ left. left) self.now) }
        ensures upper { IfSome result.1 (UpTo (item_count (λ left. left) self.now)) }
        ensures some { 0 < length self.now → result.0 ≡ 1 }
        ensures bytes { result.1 ≡ Some (sum_by (λ x. length x.bytes + 1) self.now) }
    {
        if self.done {
            return (0, Some(0));
        }
        (1, Some(self.rest.len() + 1))
    }
}

impl<'a> DoubleEndedIterator for SplitAscii<'a> {
    ghost next_back_gives = { YieldsLast (λ left. left) };

    /// The field at the end, or `None` once all were given.
    ///
    /// Cost: O(n) in the field.
    fn next_back(&mut self) -> Option<Span<'a>> {
        if self.done {
            return None;
        }
        let (part, others) = last_part(self.start, self.rest, self.separator);
        *self = others;
        Some(part)
    }
}

impl<'a> Clone for SplitAscii<'a> {
    ghost is_clone = { λ left copy. copy ≡ left };

    ghost is_infallible = { λ _. ⊤ };

    /// A second iterator over the fields that remain. It never fails.
    fn clone(&self) -> Result<SplitAscii<'a>, AllocError> {
        Ok(SplitAscii {
            start: self.start,
            rest: self.rest,
            separator: self.separator,
            done: self.done,
        })
    }
}

// The first part of the bytes, and the others.
#[tactic(auto, using(crate::proofs::SplitLemmas::front_more, crate::proofs::SplitLemmas::front_last))]
fn first_part(start: usize, bytes: &[u8], separator: u8) -> (Span<'_>, SplitAscii<'_>)
    requires { start + length bytes.now < 2 ^ 64 }
    ensures { split_left start bytes.now separator false ≡ result.0 ∷ result.1 }
{
    let len = first_place(bytes, separator);
    let part = Span {
        start,
        bytes: &bytes[..len],
    };
    if len < bytes.len() {
        let others = SplitAscii {
            start: start + len + 1,
            rest: &bytes[len + 1..],
            separator,
            done: false,
        };
        return (part, others);
    }
    (part, SplitAscii::no_parts())
}

// The last part of the bytes, and the others.
#[tactic(auto, using(crate::proofs::SplitLemmas::back_more, crate::proofs::SplitLemmas::back_first))]
fn last_part(start: usize, bytes: &[u8], separator: u8) -> (Span<'_>, SplitAscii<'_>)
    requires { start + length bytes.now < 2 ^ 64 }
    ensures { split_left start bytes.now separator false ≡ result.1 ++ result.0 ∷ [] }
{
    let from = place_after_last(bytes, separator);
    let part = Span {
        start: start + from,
        bytes: &bytes[from..],
    };
    if from > 0 {
        let others = SplitAscii {
            start,
            rest: &bytes[..from - 1],
            separator,
            done: false,
        };
        return (part, others);
    }
    (part, SplitAscii::no_parts())
}

// The offset of the first such byte, or the length if there is none.
fn first_place(bytes: &[u8], byte: u8) -> usize
    ensures within { result ≤ length bytes.now }
    ensures first { IsFirstMatchOrLen (λ x. nat_eq x byte) bytes.now result }
{
    bytes.iter().position(|x| *x == byte).unwrap_or(bytes.len())
}

// The offset after the last such byte, or 0 if there is none.
fn place_after_last(bytes: &[u8], byte: u8) -> usize
    ensures within { result ≤ length bytes.now }
    ensures last { IsAfterLastMatch (λ x. nat_eq x byte) bytes.now result }
{
    match bytes.iter().rposition(|x| *x == byte) {
        Some(place) => place + 1,
        None => 0,
    }
}
