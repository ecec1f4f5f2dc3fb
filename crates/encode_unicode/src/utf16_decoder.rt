//! The iterator that splits a slice of units into characters and errors.
ghost use Rattle.std.specs.Prelude.{◌≡◌, ◌-◌, ◌/◌, ◌<◌, codes, drop, [], IfSome, Some, ⊤, length, List, ℕ};
ghost use Rattle.std.specs.Iterator.{at_most, UpTo};
ghost use Rattle.std.specs.Iterator.SizeHint.{IsWithinCount};
ghost use Rattle.utf_base.specs.Back.{unit_end_fault};
ghost use Rattle.utf_base.specs.Ends.{last_of};
ghost use Rattle.utf_base.specs.Front.{IsFrontLen};
ghost use Rattle.encode_unicode.specs.DebugTexts.{debug_decoder};
ghost use Rattle.encode_unicode.specs.Hints.{BoundsUnitPieces};
ghost use Rattle.encode_unicode.specs.Window.{whole_window, elements, as_piece, IsBackOf, IsFrontOf, window_len};
ghost use Rattle.encode_unicode.specs.Window.{NextGivesUnits, NextBackGivesUnits};
ghost use Rattle.encode_unicode.specs.Words.{decoded_pairs, decoded_pairs_end, slice_fault, unit_back_kind, unit_fault_kind, utf16};

use std::alloc::AllocError;
use std::fmt;
use std::marker::Model;
use utf_base::errors::{Utf16PairError, Utf16SliceError};
use utf_chars::utf16_char::Utf16Char;

/// Splits a slice of UTF-16 units into characters and lone surrogates, from both ends.
///
/// An item is (offset, result, length). For the units `0068`, `D800`, `D83D`, `DE00` the items are `(0,
/// Ok('h'), 1)`, `(1, Err(error), 1)`, where the error is `UnmatchedLeadingSurrogate`, and `(2, Ok('😀'), 2)`.
/// The offset counts from the front of the slice that the decoder was made from. The length is in units. Of
/// an error it is always 1, and decoding continues at the next unit.
///
/// Only the units that remain determine an item. A trailing surrogate where a character should begin is
/// `UnexpectedTrailingSurrogate`. A leading surrogate is `UnmatchedLeadingSurrogate` if the next unit is not
/// a trailing surrogate, and `Incomplete` if nothing follows (RFC 2781, section 2.2).
#[derive(Drop)]
pub struct Utf16CharDecoder<'a> {
    slice: &'a [u16],
    front: usize,
    back: usize,
}

impl<'a> Model for Utf16CharDecoder<'a> {
    ghost use Rattle.std.specs.Prelude.{◌≤◌, length};
    ghost use Rattle.encode_unicode.specs.Window.{Window};

    ghost Value = { Window };

    ghost view = { λ d. record { whole = d.slice.now; front = d.front; back = d.back } };

    ghost invariant = { λ d. (d.front ≤ d.back) × (d.back ≤ length d.slice.now) };
}

impl<'a> From<&'a [u16]> for Utf16CharDecoder<'a> {
    ghost from_gives = { λ slice decoder. decoder ≡ whole_window slice.now };

    /// A decoder of all units of the slice.
    #[inline(always)]
    fn from(slice: &'a [u16]) -> Utf16CharDecoder<'a> {
        Utf16CharDecoder {
            slice,
            front: 0,
            back: slice.len(),
        }
    }
}

impl<'a> Default for Utf16CharDecoder<'a> {
    ghost is_default = { λ decoder. decoder ≡ whole_window [] };

    /// A decoder of no units.
    fn default() -> Utf16CharDecoder<'a> {
        let none: &'a [u16] = &[];
        Utf16CharDecoder::from(none)
    }
}

impl<'a> Utf16CharDecoder<'a> {
    /// The units that remain, borrowed from the slice for as long as it lives.
    #[inline(always)]
    pub fn as_slice(&self) -> &'a [u16]
        ensures left { result.now ≡ elements self.now }
        ensures end { self.now.back ≡ length self.now.whole →
            result.now ≡ drop self.now.front self.now.whole }
    {
        &self.slice[self.front..self.back]
    }
}

impl<'a> Iterator for Utf16CharDecoder<'a> {
    type Item = (usize, Result<Utf16Char, Utf16PairError>, usize);

    ghost next_gives = { NextGivesUnits };

    ghost remaining = { λ w. at_most (w.back - w.front) };

    /// Takes the piece at the front: (offset, character or error, length). `None` once no unit
    /// remains.
    ///
    /// An error is one lone surrogate, with length 1. Its kind is decided by the units that remain.
    #[inline(always)]
    fn next(&mut self) -> Option<(usize, Result<Utf16Char, Utf16PairError>, usize)> {
        if self.front == self.back {
            return None;
        }
        let place = self.front;
        let (answer, len) = first_piece(&self.slice[place..self.back]);
        self.front += len;
        Some((place, answer, len))
    }

    /// Bounds of the number of items that remain: (half of the units, rounded down; all of them).
    #[inline]
    fn size_hint(&self) -> (usize, Option<usize>)
        ensures lower { IsWithinCount result.0 (at_most (self.now.back - self.now.front)) }
        ensures upper { IfSome result.1 (UpTo (at_most (self.now.back - self.now.front))) }
        ensures exact { result ≡ ((window_len self.now) / 2, Some (window_len self.now)) }
        ensures bounds { BoundsUnitPieces (elements self.now) result }
    {
        let left = self.back - self.front;
        (left / 2, Some(left))
    }
}

impl<'a> DoubleEndedIterator for Utf16CharDecoder<'a> {
    ghost next_back_gives = { NextBackGivesUnits };

    /// Takes the piece at the end: (offset, character or error, length). `None` once no unit remains.
    ///
    /// A lone trailing surrogate is `UnexpectedTrailingSurrogate`, a lone leading one `Incomplete`.
    #[inline(always)]
    fn next_back(&mut self) -> Option<(usize, Result<Utf16Char, Utf16PairError>, usize)> {
        if self.front == self.back {
            return None;
        }
        let (answer, len) = last_piece(self.as_slice());
        self.back -= len;
        Some((self.back, answer, len))
    }
}

impl<'a> Clone for Utf16CharDecoder<'a> {
    ghost is_clone = { λ window copy. copy ≡ window };

    ghost is_infallible = { λ _. ⊤ };

    /// A second decoder of the units that remain. It never fails.
    fn clone(&self) -> Result<Utf16CharDecoder<'a>, AllocError> {
        Ok(Utf16CharDecoder {
            slice: self.slice,
            front: self.front,
            back: self.back,
        })
    }
}

/// The offset of the first unit that is left, and the units that are left.
impl<'a> fmt::Debug for Utf16CharDecoder<'a> {
    ghost debug_output = { debug_decoder (codes "Utf16CharDecoder { units[") };

    /// The offset of the front, and the units that remain.
    ///
    /// Cost: O(n) in the units that remain.
    fn fmt<W: fmt::Write>(&self, f: &mut fmt::Formatter<W>) -> fmt::Result {
        let (front, left) = (self.front, self.as_slice());
        write!(f, "Utf16CharDecoder {{ units[{front}..]: {left:?} }}")
    }
}

// The piece that begins some units, and its length.
#[inline(always)]
#[tactic(auto, using(crate::proofs::UnitPieces::known_char, crate::proofs::UnitPieces::known_fault))]
fn first_piece(units: &[u16]) -> (Result<Utf16Char, Utf16PairError>, usize)
    requires { 0 < length units.now }
    ensures piece { IsFrontOf utf16 unit_fault_kind units.now result.0 result.1 }
    ensures known { (result.0, result.1) ≡ as_piece (decoded_pairs units.now) }
    ensures len { IsFrontLen 2 units.now result.1 }
{
    match Utf16Char::from_slice_start(units) {
        Ok((c, len)) => (Ok(c), len),
        Err(error) => (Err(pair_error(error)), 1),
    }
}

// The piece that ends some units, and its length.
#[inline(always)]
#[tactic(auto, using(crate::proofs::UnitPieces::known_end_char, crate::proofs::UnitPieces::known_end_fault))]
fn last_piece(units: &[u16]) -> (Result<Utf16Char, Utf16PairError>, usize)
    requires { 0 < length units.now }
    ensures piece { IsBackOf utf16 unit_back_kind units.now result.0 result.1 }
    ensures known { (result.0, result.1) ≡ as_piece (decoded_pairs_end units.now) }
    ensures len { IsFrontLen 2 units.now result.1 }
{
    match Utf16Char::from_slice_end(units) {
        Ok((c, len)) => (Ok(c), len),
        Err(fault) => (Err(pair_error(fault)), 1),
    }
}

// The fault of a slice as the fault of one of its pieces: of the first, and of the last.
#[inline(always)]
#[tactic(auto, using(utf_base::proofs::UnitEnds::back_kind_of_fault, utf_base::proofs::UnitLemmas::kind_from_fault, utf_base::proofs::UnitLemmas::pair_error))]
fn pair_error(error: Utf16SliceError) -> Utf16PairError
    ensures first { (w : List ℕ) → slice_fault w ≡ Some error → unit_fault_kind w ≡ Some result }
    ensures last { (w : List ℕ) → 0 < length w → error ≡ unit_end_fault w →
        result ≡ unit_back_kind (last_of w) }
{
    match error {
        Utf16SliceError::FirstIsTrailingSurrogate => Utf16PairError::UnexpectedTrailingSurrogate,
        Utf16SliceError::SecondIsNotTrailingSurrogate => Utf16PairError::UnmatchedLeadingSurrogate,
        Utf16SliceError::MissingSecond => Utf16PairError::Incomplete,
        Utf16SliceError::EmptySlice => Utf16PairError::Incomplete,
    }
}
