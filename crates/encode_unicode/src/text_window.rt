//! A window of a text that shrinks from both ends by whole characters.
ghost use Rattle.std.specs.Prelude.{◌≡◌, ◌-◌, ◌<◌, ◌≤◌, Some, OnSome, length};
ghost use Rattle.std.specs.Fmt.{DisplaysOnOk};
ghost use Rattle.std.specs.Int.{div_ceil};
ghost use Rattle.std.specs.Str.{IsUtf8};
ghost use Rattle.encode_unicode.specs.DebugTexts.{debug_indices};
ghost use Rattle.encode_unicode.specs.TextWindow.{IsLastCode, IsTextWindow, NextPlaced, BackPlaced, BoundsScalars};
ghost use Rattle.encode_unicode.specs.Window.{whole_window, elements, window_len};

use std::fmt;
use std::marker::Model;
use utf_base::errors::EmptyStrError;
use utf_chars::utf8_char::Utf8Char;

/// The part of a text that no call has returned yet.
#[derive(Drop)]
pub(crate) struct TextWindow<'a> {
    text: &'a str,
    front: usize,
    back: usize,
}

impl<'a> Model for TextWindow<'a> {
    ghost use Rattle.std.specs.Prelude.{◌≤◌};
    ghost use Rattle.encode_unicode.specs.Window.{Window};

    ghost Value = { Window };

    ghost view = { λ w. record { whole = w.text.now; front = w.front; back = w.back } };

    ghost use Rattle.encode_unicode.specs.TextWindow.{IsKeptWindow};

    ghost invariant = { λ w. IsKeptWindow w.text.now w.front w.back };
}

impl<'a> TextWindow<'a> {
    /// The whole text.
    #[inline(always)]
    #[tactic(auto, using(crate::proofs::TextLemmas::kept_whole))]
    pub(crate) fn new(text: &'a str) -> TextWindow<'a>
        ensures { result ≡ whole_window text.now }
    {
        TextWindow {
            text,
            front: 0,
            back: text.len(),
        }
    }

    /// A copy of the window.
    #[inline(always)]
    pub(crate) fn copy(&self) -> TextWindow<'a>
        ensures { result ≡ self.now }
    {
        TextWindow {
            text: self.text,
            front: self.front,
            back: self.back,
        }
    }

    /// The part of the text that is left, borrowed from the text for as long as it lives.
    #[inline(always)]
    pub(crate) fn as_str(&self) -> &'a str
        ensures text { result.now ≡ elements self.now }
        ensures between { IsTextWindow self.now }
    {
        &self.text[self.front..self.back]
    }

    /// Writes a name, the offset at which the window begins, in bytes, and the part of the text that is left.
    pub(crate) fn write_debug<W: fmt::Write>(
        &self,
        f: &mut fmt::Formatter<W>,
        name: &str,
    ) -> fmt::Result
        ensures { DisplaysOnOk W.write_str_gives f.old result (debug_indices name.now self.now) f.new }
    {
        f.write_str(name)?;
        fmt::Debug::fmt(&(self.front, self.as_str()), f)
    }

    /// Bounds of the number of characters that are left.
    #[inline(always)]
    #[tactic(auto, using(crate::proofs::TextLemmas::bounds_quarter))]
    pub(crate) fn bounds(&self) -> (usize, Option<usize>)
        ensures exact { result ≡ (div_ceil (window_len self.now) 4, Some (window_len self.now)) }
        ensures bounds { BoundsScalars (elements self.now) result }
    {
        let left = self.back - self.front;
        (left.div_ceil(4), Some(left))
    }

    /// Takes the first character, and its offset.
    #[inline(always)]
    pub(crate) fn next(&mut self) -> Option<(usize, Utf8Char)>
        ensures gives { NextPlaced self.old result self.new }
        ensures shorter { OnSome result (self.new.back - self.new.front < self.old.back - self.old.front) }
    {
        match Utf8Char::from_str_start(self.as_str()) {
            Err(EmptyStrError) => None,
            Ok((c, len)) => {
                let place = self.front;
                self.front += len;
                Some((place, c))
            }
        }
    }

    /// Takes the last character, and its offset.
    #[inline(always)]
    pub(crate) fn next_back(&mut self) -> Option<(usize, Utf8Char)>
        ensures gives { BackPlaced self.old result self.new }
        ensures shorter { OnSome result (self.new.back - self.new.front < self.old.back - self.old.front) }
    {
        let text = self.as_str();
        if text.is_empty() {
            return None;
        }
        let (code, len) = last_code(text.as_bytes());
        self.back -= len;
        Some((self.back, Utf8Char::from_array_unchecked(code)))
    }
}

// The code that ends a text, followed by zeros, and its length in bytes. It reads the last bytes, and no more
// of them than the code has.
#[inline(always)]
#[tactic(auto, using(crate::proofs::TextEnds::last_one, crate::proofs::TextEnds::two_there, crate::proofs::TextEnds::last_two, crate::proofs::TextEnds::three_there, crate::proofs::TextEnds::last_three, crate::proofs::TextEnds::last_four))]
fn last_code(text: &[u8]) -> ([u8; 4], usize)
    requires text { IsUtf8 text.now }
    requires some { 0 < length text.now }
    ensures { IsLastCode text.now result.0 result.1 }
{
    let last = text[text.len() - 1];
    if last < 0x80 {
        return ([last, 0, 0, 0], 1);
    }
    let second_last = text[text.len() - 2];
    if second_last >= 0xc0 {
        return ([first_of_two(second_last), last, 0, 0], 2);
    }
    let third_last = text[text.len() - 3];
    if third_last >= 0xe0 {
        return ([first_of_three(third_last), second_last, last, 0], 3);
    }
    let first = first_of_four(text[text.len() - 4]);
    ([first, third_last, second_last, last], 4)
}

// The first byte of a code of two, rebuilt from its marker bits and its payload. The value is unchanged, but
// the compiler now knows the length of the code, and does not test it when the scalar is computed.
#[inline(always)]
fn first_of_two(byte: u8) -> u8
    requires low { 0xC0 ≤ byte }
    requires high { byte < 0xE0 }
    ensures { result ≡ byte }
{
    0xc0 | byte & 0x1f
}

// The first byte of a code of three, rebuilt as in `first_of_two`, so that the compiler knows the length.
#[inline(always)]
fn first_of_three(byte: u8) -> u8
    requires low { 0xE0 ≤ byte }
    requires high { byte < 0xF0 }
    ensures { result ≡ byte }
{
    0xe0 | byte & 0x0f
}

// The first byte of a code of four, rebuilt as in `first_of_two`, so that the compiler knows the length.
#[inline(always)]
fn first_of_four(byte: u8) -> u8
    requires low { 0xF0 ≤ byte }
    requires high { byte < 0xF8 }
    ensures { result ≡ byte }
{
    0xf0 | byte & 0x07
}
