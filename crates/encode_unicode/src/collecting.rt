//! Characters whose codes are appended to a collection, each whole or not at all.
//!
//! A code is appended by a match on its length, with the same call in each arm: an arm has a constant number
//! of elements to copy, which takes a few moves. A single call for all lengths calls memcpy, and takes up to
//! three times as many instructions.
ghost use Rattle.std.specs.Prelude.{◌≡◌, ◌<◌, ◌≤◌, ◌++◌, [], List, ℕ, length, OnOk, OnErr, IsOk, string_bytes, string_capacity, vec_capacity};
ghost use Rattle.std.specs.Iterator.{IsFinite};
ghost use Rattle.std.specs.Iterator.Runs.{WholeRun};
ghost use Rattle.std.specs.List.{flat_map};
ghost use Rattle.utf_base.specs.Code.{utf8, utf16};
ghost use Rattle.encode_unicode.specs.Sources.{WhereEmpty};
ghost use Rattle.encode_unicode.specs.Collections.{AddsCodes, AddsFirstCodes};

use std::alloc::{AllocError, Allocator};
use utf_chars::utf8_char::Utf8Char;
use utf_chars::utf16_char::Utf16Char;

/// A collection of the codes of characters: bytes, units or a text.
pub(crate) trait HoldsCodes<C> {
    ghost use Rattle.std.specs.Prelude.{List, ℕ};

    /// The elements that it holds.
    ghost held: { Self → List ℕ };

    /// The code of a character.
    ghost code: { C → List ℕ };

    /// The capacity, in elements.
    ghost room: { Self → ℕ };

    /// Appends the character. Memory for the whole code is allocated before its first element is written, so
    /// that a failed allocation changes nothing.
    fn add(&mut self, c: C) -> Result<(), AllocError>
        ensures ok { OnOk result (held self.new ≡ held self.old ++ code c) }
        ensures err { OnErr result (held self.new ≡ held self.old) }
        ensures full { OnErr result (room self.old < length (held self.old ++ code c)) }
        ensures room { room self.old ≤ room self.new };
}

impl<A: Allocator> HoldsCodes<Utf8Char> for Vec<u8, A> {
    ghost held = { λ bytes. bytes.items };

    ghost code = { utf8 };

    ghost room = { vec_capacity };

    #[inline(always)]
    fn add(&mut self, c: Utf8Char) -> Result<(), AllocError> {
        let code = c.as_bytes();
        match code.len() {
            1 => self.extend_from_slice(code),
            2 => self.extend_from_slice(code),
            3 => self.extend_from_slice(code),
            _ => self.extend_from_slice(code),
        }
    }
}

impl<A: Allocator> HoldsCodes<Utf8Char> for String<A> {
    ghost held = { string_bytes };

    ghost code = { utf8 };

    ghost room = { string_capacity };

    #[inline(always)]
    fn add(&mut self, c: Utf8Char) -> Result<(), AllocError> {
        let code = c.as_str();
        match code.len() {
            1 => self.push_str(code),
            2 => self.push_str(code),
            3 => self.push_str(code),
            _ => self.push_str(code),
        }
    }
}

impl<A: Allocator> HoldsCodes<Utf16Char> for Vec<u16, A> {
    ghost held = { λ units. units.items };

    ghost code = { utf16 };

    ghost room = { vec_capacity };

    #[inline(always)]
    fn add(&mut self, c: Utf16Char) -> Result<(), AllocError> {
        let code = c.as_units();
        match code.len() {
            1 => self.extend_from_slice(code),
            _ => self.extend_from_slice(code),
        }
    }
}

impl<A: Allocator> HoldsCodes<Utf16Char> for String<A> {
    ghost held = { string_bytes };

    ghost code = { utf8 };

    ghost room = { string_capacity };

    #[inline(always)]
    fn add(&mut self, c: Utf16Char) -> Result<(), AllocError> {
        HoldsCodes::add(self, Utf8Char::from(c))
    }
}

/// Appends the characters of the source, one after another, up to the first failed allocation.
#[inline(always)]
pub(crate) fn extend<C, I: Iterator<Item = C>, T: HoldsCodes<C>>(
    source: I,
    out: &mut T,
) -> Result<(), AllocError>
    requires can { I.can_next source }
    requires ends { IsFinite (I.remaining source) }
    ensures ok { OnOk result (AddsCodes T.code I.next_gives source (T.held out.old) (T.held out.new)) }
    ensures err { OnErr result (AddsFirstCodes T.code I.next_gives source
        (T.room out.old) (T.held out.old) (T.held out.new)) }
    ensures runs { OnOk result (WholeRun I.next_gives source
        (λ p. T.held out.new ≡ T.held out.old ++ flat_map T.code p.items)) }
    ensures nothing { WhereEmpty I.next_gives source (IsOk result) }
{
    for c in source {
        out.add(c)?;
    }
    Ok(())
}
