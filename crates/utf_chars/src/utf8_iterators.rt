//! The bytes of one character.
ghost use Rattle.std.specs.Prelude.{◌≡◌, IfSome, Some, Ok, length, drop, ⊤};
ghost use Rattle.std.specs.Iterator.{YieldsFirst, item_count, UpTo};
ghost use Rattle.std.specs.Iterator.SizeHint.{IsWithinCount};
ghost use Rattle.std.specs.Io.{ReadsAtMost};
ghost use Rattle.std.specs.Io.KnownBytes.{ReadConsumes};
ghost use Rattle.utf_base.specs.Code.{utf8};
ghost use Rattle.utf_chars.specs.DebugTexts.{debug_numbers};
ghost use Rattle.utf_chars.specs.Taking.{fitting, filled, BoundsLength};

use crate::unsent::Unsent;
use crate::utf8_char::Utf8Char;
use std::alloc::AllocError;
use std::io::Read;
use std::marker::Model;
use std::{fmt, io};

/// The bytes of one character in UTF-8. Contracts see the list of those that remain.
///
/// `next` and `read` may be mixed: both take from the front.
#[derive(Drop)]
pub struct Utf8Iterator {
    unsent: Unsent<256>,
}

impl Model for Utf8Iterator {
    ghost use Rattle.std.specs.Prelude.{ℕ, List};

    ghost Value = { List ℕ };

    ghost view = { λ i. i.unsent };
}

impl From<Utf8Char> for Utf8Iterator {
    ghost from_gives = { λ c bytes. bytes ≡ utf8 c };

    /// All bytes of the character in UTF-8.
    #[inline(always)]
    fn from(c: Utf8Char) -> Utf8Iterator {
        Utf8Iterator {
            unsent: Unsent::from(c),
        }
    }
}

impl From<char> for Utf8Iterator {
    ghost from_gives = { λ c bytes. bytes ≡ utf8 c };

    /// All bytes of the character in UTF-8.
    #[inline(always)]
    fn from(c: char) -> Utf8Iterator {
        Utf8Iterator::from(Utf8Char::new(c))
    }
}

impl IntoIterator for Utf8Char {
    type Item = u8;

    type IntoIter = Utf8Iterator;

    ghost into_iter_gives = { λ c bytes. bytes ≡ utf8 c };

    /// The bytes of the character, one after another.
    #[inline(always)]
    fn into_iter(self) -> Utf8Iterator {
        Utf8Iterator::from(self)
    }
}

impl Iterator for Utf8Iterator {
    type Item = u8;

    ghost next_gives = { YieldsFirst (λ bytes. bytes) };

    ghost remaining = { item_count (λ bytes. bytes) };

    /// Takes the next byte. `None` once all are taken.
    #[inline(always)]
    fn next(&mut self) -> Option<u8> {
        self.unsent.next_byte()
    }

    /// The exact number of bytes that remain: (number, `Some` of it).
    #[inline]
    fn size_hint(&self) -> (usize, Option<usize>)
        ensures lower { IsWithinCount result.0 (item_count (λ bytes. bytes) self.now) }
        ensures upper { IfSome result.1 (UpTo (item_count (λ bytes. bytes) self.now)) }
        ensures exact { result ≡ (length self.now, Some (length self.now)) }
        ensures bounds { BoundsLength self.now result }
    {
        let left = self.len();
        (left, Some(left))
    }
}

impl ExactSizeIterator for Utf8Iterator {
    /// The number of bytes that remain: 0 to 4.
    #[inline(always)]
    fn len(&self) -> usize {
        self.unsent.len()
    }
}

impl Read for Utf8Iterator {
    ghost remaining = { λ bytes. Some bytes };

    /// Copies as many bytes as fit into the front of the buffer, and returns their number. It never fails,
    /// and the rest of the buffer is unchanged.
    #[inline]
    fn read(&mut self, buf: &mut [u8]) -> io::Result<usize>
        ensures bound { ReadsAtMost result buf.new }
        ensures bytes { ReadConsumes (Some self.old) (Some self.new) result buf.new }
        ensures count { result ≡ Ok (fitting buf.old self.old) }
        ensures written { buf.new ≡ filled buf.old self.old }
        ensures left { self.new ≡ drop (length buf.old) self.old }
    {
        Ok(self.unsent.take(buf))
    }
}

impl Clone for Utf8Iterator {
    ghost is_clone = { λ bytes copy. copy ≡ bytes };

    ghost is_infallible = { λ _. ⊤ };

    /// A copy with the same bytes to come. It never fails.
    fn clone(&self) -> Result<Utf8Iterator, AllocError> {
        Ok(Utf8Iterator {
            unsent: self.unsent.copy(),
        })
    }
}

/// The bytes that remain, as a list of numbers.
impl fmt::Debug for Utf8Iterator {
    ghost debug_output = { debug_numbers };

    /// The bytes that remain, as a list of numbers.
    fn fmt<W: fmt::Write>(&self, f: &mut fmt::Formatter<W>) -> fmt::Result {
        fmt::Debug::fmt(&self.unsent, f)
    }
}
