//! The characters of a text, kept as their codes in UTF-16.
ghost use Rattle.std.specs.Prelude.{◌≡◌, ◌-◌, codes, Some, IfSome, ⊤};
ghost use Rattle.std.specs.Int.{div_ceil};
ghost use Rattle.std.specs.Iterator.{at_most, UpTo};
ghost use Rattle.std.specs.Iterator.SizeHint.{IsWithinCount};
ghost use Rattle.encode_unicode.specs.DebugTexts.{debug_chars, debug_indices};
ghost use Rattle.encode_unicode.specs.TextWindow.{IsTextWindow, NextPlaced, BackPlaced, NextScalar, BackScalar, BoundsScalars};
ghost use Rattle.encode_unicode.specs.Window.{whole_window, elements, window_len};

use crate::debugging::write_variant;
use crate::text_window::TextWindow;
use std::alloc::AllocError;
use std::fmt;
use std::marker::Model;
use utf_chars::utf16_char::Utf16Char;

/// The characters of a text, kept as UTF-16, each with its offset: (offset in bytes, character).
///
/// You may take from both ends in any order. Contracts see the text that remains.
#[derive(Drop)]
pub struct Utf16CharIndices<'a> {
    window: TextWindow<'a>,
}

impl<'a> Model for Utf16CharIndices<'a> {
    ghost use Rattle.encode_unicode.specs.Window.{Window};

    ghost Value = { Window };

    ghost view = { λ i. i.window };
}

impl<'a> From<&'a str> for Utf16CharIndices<'a> {
    ghost from_gives = { λ text indices. indices ≡ whole_window text.now };

    /// All characters of the text.
    #[inline(always)]
    fn from(text: &'a str) -> Utf16CharIndices<'a> {
        Utf16CharIndices {
            window: TextWindow::new(text),
        }
    }
}

impl<'a> Utf16CharIndices<'a> {
    /// The text that remains, borrowed from the text for as long as it lives.
    #[inline(always)]
    pub fn as_str(&self) -> &'a str
        ensures text { result.now ≡ elements self.now }
        ensures between { IsTextWindow self.now }
    {
        self.window.as_str()
    }
}

impl<'a> Iterator for Utf16CharIndices<'a> {
    type Item = (usize, Utf16Char);

    ghost next_gives = { NextPlaced };

    ghost remaining = { λ w. at_most (w.back - w.front) };

    /// Takes the first character: (offset in bytes, character). `None` once no text remains.
    #[inline(always)]
    fn next(&mut self) -> Option<(usize, Utf16Char)> {
        let (place, c) = self.window.next()?;
        Some((place, Utf16Char::from(c)))
    }

    /// Bounds of the number of characters that remain: (a quarter of the bytes, rounded up; all of them).
    #[inline]
    fn size_hint(&self) -> (usize, Option<usize>)
        ensures lower { IsWithinCount result.0 (at_most (self.now.back - self.now.front)) }
        ensures upper { IfSome result.1 (UpTo (at_most (self.now.back - self.now.front))) }
        ensures exact { result ≡ (div_ceil (window_len self.now) 4, Some (window_len self.now)) }
        ensures bounds { BoundsScalars (elements self.now) result }
    {
        self.window.bounds()
    }
}

impl<'a> DoubleEndedIterator for Utf16CharIndices<'a> {
    ghost next_back_gives = { BackPlaced };

    /// Takes the last character: (offset in bytes, character). `None` once no text remains.
    #[inline(always)]
    fn next_back(&mut self) -> Option<(usize, Utf16Char)> {
        let (place, c) = self.window.next_back()?;
        Some((place, Utf16Char::from(c)))
    }
}

impl<'a> Clone for Utf16CharIndices<'a> {
    ghost is_clone = { λ window copy. copy ≡ window };

    ghost is_infallible = { λ _. ⊤ };

    /// A second iterator over the text that remains. It never fails.
    fn clone(&self) -> Result<Utf16CharIndices<'a>, AllocError> {
        Ok(Utf16CharIndices {
            window: self.window.copy(),
        })
    }
}

/// The offset of the text that is left, and that text.
impl<'a> fmt::Debug for Utf16CharIndices<'a> {
    ghost debug_output = { debug_indices (codes "Utf16CharIndices") };

    /// The offset of the text that remains, and that text.
    ///
    /// Cost: O(n) in the text that remains.
    fn fmt<W: fmt::Write>(&self, f: &mut fmt::Formatter<W>) -> fmt::Result {
        self.window.write_debug(f, "Utf16CharIndices")
    }
}

/// The characters of a text, kept as UTF-16.
///
/// You may take from both ends in any order. Contracts see the text that remains.
#[derive(Drop)]
pub struct Utf16Chars<'a> {
    indices: Utf16CharIndices<'a>,
}

impl<'a> Model for Utf16Chars<'a> {
    ghost use Rattle.encode_unicode.specs.Window.{Window};

    ghost Value = { Window };

    ghost view = { λ c. c.indices };
}

impl<'a> From<&'a str> for Utf16Chars<'a> {
    ghost from_gives = { λ text chars. chars ≡ whole_window text.now };

    /// All characters of the text.
    #[inline(always)]
    fn from(text: &'a str) -> Utf16Chars<'a> {
        Utf16Chars {
            indices: Utf16CharIndices::from(text),
        }
    }
}

impl<'a> Utf16Chars<'a> {
    /// The text that remains, borrowed from the text for as long as it lives.
    #[inline(always)]
    pub fn as_str(&self) -> &'a str
        ensures text { result.now ≡ elements self.now }
        ensures between { IsTextWindow self.now }
    {
        self.indices.as_str()
    }
}

impl<'a> Iterator for Utf16Chars<'a> {
    type Item = Utf16Char;

    ghost next_gives = { NextScalar };

    ghost remaining = { λ w. at_most (w.back - w.front) };

    /// Takes the first character. `None` once no text remains.
    #[inline(always)]
    fn next(&mut self) -> Option<Utf16Char> {
        let (_, c) = self.indices.next()?;
        Some(c)
    }

    /// Bounds of the number of characters that remain: (a quarter of the bytes, rounded up; all of them).
    #[inline]
    fn size_hint(&self) -> (usize, Option<usize>)
        ensures lower { IsWithinCount result.0 (at_most (self.now.back - self.now.front)) }
        ensures upper { IfSome result.1 (UpTo (at_most (self.now.back - self.now.front))) }
        ensures exact { result ≡ (div_ceil (window_len self.now) 4, Some (window_len self.now)) }
        ensures bounds { BoundsScalars (elements self.now) result }
    {
        self.indices.size_hint()
    }
}

impl<'a> DoubleEndedIterator for Utf16Chars<'a> {
    ghost next_back_gives = { BackScalar };

    /// Takes the last character. `None` once no text remains.
    #[inline(always)]
    fn next_back(&mut self) -> Option<Utf16Char> {
        let (_, c) = self.indices.next_back()?;
        Some(c)
    }
}

impl<'a> Clone for Utf16Chars<'a> {
    ghost is_clone = { λ window copy. copy ≡ window };

    ghost is_infallible = { λ _. ⊤ };

    /// A second iterator over the text that remains. It never fails.
    fn clone(&self) -> Result<Utf16Chars<'a>, AllocError> {
        Ok(Utf16Chars {
            indices: self.indices.clone()?,
        })
    }
}

/// The text that is left.
impl<'a> fmt::Debug for Utf16Chars<'a> {
    ghost debug_output = { debug_chars (codes "Utf16Chars") };

    /// The text that remains.
    ///
    /// Cost: O(n) in the text that remains.
    fn fmt<W: fmt::Write>(&self, f: &mut fmt::Formatter<W>) -> fmt::Result {
        write_variant(f, "Utf16Chars", &self.as_str())
    }
}
