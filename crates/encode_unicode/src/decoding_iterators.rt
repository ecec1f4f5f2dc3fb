//! Iterators that split slices into characters and errors.
ghost use Rattle.std.specs.Prelude.{◌≡◌, ◌-◌, ◌/◌, codes, drop, length, IfSome, Some, [], ⊤};
ghost use Rattle.std.specs.Iterator.{at_most, UpTo};
ghost use Rattle.std.specs.Iterator.SizeHint.{IsWithinCount};
ghost use Rattle.encode_unicode.specs.DebugTexts.{debug_decoder};
ghost use Rattle.encode_unicode.specs.Hints.{BoundsPieces};
ghost use Rattle.encode_unicode.specs.Scan.{BackSteps};
ghost use Rattle.encode_unicode.specs.Window.{whole_window, elements, NextGives, NextBackGives, window_len};

use crate::steps::Steps;
use back_scan::decode_end;
use std::alloc::AllocError;
use std::fmt;
use std::marker::Model;
use utf_base::errors::Utf8Error;
use utf_chars::utf8_char::Utf8Char;

mod back_scan;

/// Splits a slice of bytes into characters and single invalid bytes, from both ends.
///
/// An item is (offset, result, length). For the bytes `h`, `C3`, `A9`, `FF` the items are `(0, Ok('h'), 1)`,
/// `(1, Ok('é'), 2)` and `(3, Err(error), 1)`, where the kind of the error is `NonUtf8Byte`. The offset
/// counts from the front of the slice that the decoder was made from. The length is in bytes. Of an error it
/// is always 1, and decoding continues at the next byte: so no error hides an ASCII character.
///
/// Only the bytes that remain determine an item. `CharExt::from_utf8_slice_start` says which `Utf8ErrorKind`
/// an error has from the front. From the end only three kinds occur: `UnexpectedContinuationByte`,
/// `TooFewBytes` and `NonUtf8Byte` (`Utf8Char::from_slice_end`).
#[derive(Drop)]
pub struct Utf8CharDecoder<'a> {
    slice: &'a [u8],
    front: usize,
    back: usize,
}

impl<'a> Model for Utf8CharDecoder<'a> {
    ghost use Rattle.std.specs.Prelude.{◌≤◌, length};
    ghost use Rattle.encode_unicode.specs.Window.{Window};

    ghost Value = { Window };

    ghost view = { λ d. record { whole = d.slice.now; front = d.front; back = d.back } };

    ghost invariant = { λ d. (d.front ≤ d.back) × (d.back ≤ length d.slice.now) };
}

impl<'a> From<&'a [u8]> for Utf8CharDecoder<'a> {
    ghost from_gives = { λ slice decoder. decoder ≡ whole_window slice.now };

    /// A decoder of all bytes of the slice.
    fn from(slice: &'a [u8]) -> Utf8CharDecoder<'a> {
        Utf8CharDecoder {
            slice,
            front: 0,
            back: slice.len(),
        }
    }
}

impl<'a> Utf8CharDecoder<'a> {
    /// The bytes that remain, borrowed from the slice for as long as it lives.
    #[inline(always)]
    pub fn as_slice(&self) -> &'a [u8]
        ensures left { result.now ≡ elements self.now }
        ensures end { self.now.back ≡ length self.now.whole →
            result.now ≡ drop self.now.front self.now.whole }
    {
        &self.slice[self.front..self.back]
    }

    /// `next_back`, which also counts in `steps` the bytes that it reads. It reads the last byte. While the
    /// byte that it reads is a continuation byte, it reads the one before, up to four bytes in all. If no
    /// byte remains it reads none.
    #[inline(always)]
    pub fn next_back_counted(
        &mut self,
        steps: &mut Steps,
    ) -> Option<(usize, Result<Utf8Char, Utf8Error>, usize)>
        ensures gives { NextBackGives self.old result self.new }
        ensures steps { BackSteps self.old steps.old steps.new }
    {
        if self.front == self.back {
            return None;
        }
        match decode_end(self.as_slice(), steps) {
            Ok((c, len)) => {
                self.back -= len;
                Some((self.back, Ok(c), len))
            }
            Err(error) => {
                self.back -= 1;
                Some((self.back, Err(error), 1))
            }
        }
    }
}

impl<'a> Iterator for Utf8CharDecoder<'a> {
    type Item = (usize, Result<Utf8Char, Utf8Error>, usize);

    ghost next_gives = { NextGives };

    ghost remaining = { λ w. at_most (w.back - w.front) };

    /// Takes the piece at the front: (offset, character or error, length). `None` once no byte
    /// remains.
    ///
    /// An error is one invalid byte, with length 1. Its kind is decided by the bytes that remain,
    /// as `CharExt::from_utf8_slice_start` says.
    #[inline(always)]
    #[tactic(auto, using(utf_base::proofs::Utf8Code::utf8_is_code))]
    fn next(&mut self) -> Option<(usize, Result<Utf8Char, Utf8Error>, usize)> {
        if self.front == self.back {
            return None;
        }
        let place = self.front;
        match Utf8Char::from_slice_start(&self.slice[place..self.back]) {
            Ok((c, len)) => {
                self.front += len;
                Some((place, Ok(c), len))
            }
            Err(error) => {
                self.front += 1;
                Some((place, Err(error), 1))
            }
        }
    }

    /// Bounds of the number of items that remain: (a quarter of the bytes, rounded down; all of them).
    #[inline]
    fn size_hint(&self) -> (usize, Option<usize>)
        ensures lower { IsWithinCount result.0 (at_most (self.now.back - self.now.front)) }
        ensures upper { IfSome result.1 (UpTo (at_most (self.now.back - self.now.front))) }
        ensures exact { result ≡ ((window_len self.now) / 4, Some (window_len self.now)) }
        ensures bounds { BoundsPieces (elements self.now) result }
    {
        let left = self.back - self.front;
        (left / 4, Some(left))
    }
}

impl<'a> DoubleEndedIterator for Utf8CharDecoder<'a> {
    ghost next_back_gives = { NextBackGives };

    /// Takes the piece at the end: (offset, character or error, length). `None` once no byte remains.
    ///
    /// The kind of an error depends only on the byte, as `Utf8Char::from_slice_end` says.
    #[inline(always)]
    fn next_back(&mut self) -> Option<(usize, Result<Utf8Char, Utf8Error>, usize)> {
        self.next_back_counted(&mut Steps::new())
    }
}

/// A decoder of no bytes.
impl<'a> Default for Utf8CharDecoder<'a> {
    ghost is_default = { λ d. d ≡ whole_window [] };

    /// A decoder of no bytes.
    fn default() -> Utf8CharDecoder<'a> {
        Utf8CharDecoder {
            slice: &[],
            front: 0,
            back: 0,
        }
    }
}

/// A decoder of the same bytes of the same slice.
impl<'a> Clone for Utf8CharDecoder<'a> {
    ghost is_clone = { λ window copy. copy ≡ window };

    ghost is_infallible = { λ _. ⊤ };

    /// A second decoder of the bytes that remain. It never fails.
    fn clone(&self) -> Result<Utf8CharDecoder<'a>, AllocError> {
        Ok(Utf8CharDecoder {
            slice: self.slice,
            front: self.front,
            back: self.back,
        })
    }
}

/// The offset of the first byte that is left, and the bytes that are left.
impl<'a> fmt::Debug for Utf8CharDecoder<'a> {
    ghost debug_output = { debug_decoder (codes "Utf8CharDecoder { bytes[") };

    /// The offset of the front, and the bytes that remain.
    ///
    /// Cost: O(n) in the bytes that remain.
    fn fmt<W: fmt::Write>(&self, f: &mut fmt::Formatter<W>) -> fmt::Result {
        let (front, left) = (self.front, self.as_slice());
        write!(f, "Utf8CharDecoder {{ bytes[{front}..]: {left:?} }}")
    }
}
