//! The units of one character.
ghost use Rattle.std.specs.Prelude.{◌≡◌, IfSome, Some, length, ⊤};
ghost use Rattle.std.specs.Iterator.{YieldsFirst, item_count, UpTo};
ghost use Rattle.std.specs.Iterator.SizeHint.{IsWithinCount};
ghost use Rattle.utf_base.specs.Code.{utf16};
ghost use Rattle.utf_chars.specs.DebugTexts.{debug_numbers};
ghost use Rattle.utf_chars.specs.Taking.{BoundsLength};

use crate::unsent::Unsent;
use crate::utf16_char::Utf16Char;
use std::alloc::AllocError;
use std::fmt;
use std::marker::Model;

/// The units of one character in UTF-16. Contracts see the list of those that remain.
#[derive(Drop)]
pub struct Utf16Iterator {
    unsent: Unsent<0x1_0000>,
}

impl Model for Utf16Iterator {
    ghost use Rattle.std.specs.Prelude.{ℕ, List};

    ghost Value = { List ℕ };

    ghost view = { λ i. i.unsent };
}

impl From<Utf16Char> for Utf16Iterator {
    ghost from_gives = { λ c units. units ≡ utf16 c };

    /// All units of the character in UTF-16.
    #[inline(always)]
    fn from(c: Utf16Char) -> Utf16Iterator {
        Utf16Iterator {
            unsent: Unsent::from(c),
        }
    }
}

impl From<char> for Utf16Iterator {
    ghost from_gives = { λ c units. units ≡ utf16 c };

    /// All units of the character in UTF-16.
    #[inline(always)]
    fn from(c: char) -> Utf16Iterator {
        Utf16Iterator::from(Utf16Char::new(c))
    }
}

impl IntoIterator for Utf16Char {
    type Item = u16;

    type IntoIter = Utf16Iterator;

    ghost into_iter_gives = { λ c units. units ≡ utf16 c };

    /// The units of the character, one after another.
    #[inline(always)]
    fn into_iter(self) -> Utf16Iterator {
        Utf16Iterator::from(self)
    }
}

impl Iterator for Utf16Iterator {
    type Item = u16;

    ghost next_gives = { YieldsFirst (λ units. units) };

    ghost remaining = { item_count (λ units. units) };

    /// Takes the next unit. `None` once all are taken.
    #[inline(always)]
    fn next(&mut self) -> Option<u16> {
        self.unsent.next_unit()
    }

    /// The exact number of units that remain: (number, `Some` of it).
    #[inline]
    fn size_hint(&self) -> (usize, Option<usize>)
        ensures lower { IsWithinCount result.0 (item_count (λ units. units) self.now) }
        ensures upper { IfSome result.1 (UpTo (item_count (λ units. units) self.now)) }
        ensures exact { result ≡ (length self.now, Some (length self.now)) }
        ensures bounds { BoundsLength self.now result }
    {
        let left = self.len();
        (left, Some(left))
    }
}

impl ExactSizeIterator for Utf16Iterator {
    /// The number of units that remain: 0 to 2.
    #[inline(always)]
    fn len(&self) -> usize {
        self.unsent.len()
    }
}

impl Clone for Utf16Iterator {
    ghost is_clone = { λ units copy. copy ≡ units };

    ghost is_infallible = { λ _. ⊤ };

    /// A copy with the same units to come. It never fails.
    fn clone(&self) -> Result<Utf16Iterator, AllocError> {
        Ok(Utf16Iterator {
            unsent: self.unsent.copy(),
        })
    }
}

/// The units that remain, as a list of numbers.
impl fmt::Debug for Utf16Iterator {
    ghost debug_output = { debug_numbers };

    /// The units that remain, as a list of numbers.
    fn fmt<W: fmt::Write>(&self, f: &mut fmt::Formatter<W>) -> fmt::Result {
        fmt::Debug::fmt(&self.unsent, f)
    }
}
