//! Methods of iterators over bytes, units and characters.
ghost use Rattle.std.specs.Prelude.{◌≡◌, ◌++◌, [], List, ℕ, IfOk, IsOk, OnOk, OnErr, string_bytes, string_capacity, vec_capacity};
ghost use Rattle.std.specs.Iterator.{IsFinite};
ghost use Rattle.std.specs.Iterator.Runs.{EachRunFrom, SomeRun, WholeRun};
ghost use Rattle.std.specs.List.{flat_map};
ghost use Rattle.utf_base.specs.Code.{utf8, utf16};
ghost use Rattle.encode_unicode.specs.Collections.{AddsCodes, AddsFirstCodes};
ghost use Rattle.encode_unicode.specs.Mergers.{IsMergerRun, MergesBytes, MergesUnits, merged, merged_units, unasked};
ghost use Rattle.encode_unicode.specs.Pieces.{Gives, IsSplitterRun};
ghost use Rattle.encode_unicode.specs.Sources.{IsListed, SplitterNext, WhereEmpty, unbegun};

use crate::collecting::extend;
use crate::utf8_merger::Utf8CharMerger;
use crate::utf8_splitter::Utf8CharSplitter;
use crate::utf16_merger::Utf16CharMerger;
use crate::utf16_splitter::Utf16CharSplitter;
use std::alloc::{AllocError, Allocator};
use utf_chars::utf8_char::Utf8Char;
use utf_chars::utf16_char::Utf16Char;

/// Methods of every iterator of `u8`.
pub trait U8IterExt: Iterator<Item = u8> + Sized {
    /// The characters and the invalid bytes, decoded one after another.
    fn to_utf8chars(self) -> Utf8CharMerger<Self>
        ensures merger { result ≡ unasked self }
        ensures runs { EachRunFrom (MergesBytes Self.next_gives) result
            (λ p. SomeRun Self.next_gives self (λ q. IsMergerRun merged p q)) }
        ensures listed { (rest : Self → List ℕ) → IsListed Self.next_gives rest →
            EachRunFrom (MergesBytes Self.next_gives) result (λ p. Gives p (merged (rest self))) };
}

impl<I: Iterator<Item = u8>> U8IterExt for I {
    #[inline]
    fn to_utf8chars(self) -> Utf8CharMerger<I> {
        Utf8CharMerger::from(self)
    }
}

/// Methods of every iterator of `u16`.
pub trait U16IterExt: Iterator<Item = u16> + Sized {
    /// The characters and the lone surrogates, decoded one after another.
    fn to_utf16chars(self) -> Utf16CharMerger<Self>
        ensures merger { result ≡ unasked self }
        ensures runs { EachRunFrom (MergesUnits Self.next_gives) result
            (λ p. SomeRun Self.next_gives self (λ q. IsMergerRun merged_units p q)) }
        ensures listed { (rest : Self → List ℕ) → IsListed Self.next_gives rest →
            EachRunFrom (MergesUnits Self.next_gives) result (λ p. Gives p (merged_units (rest self))) };
}

impl<I: Iterator<Item = u16>> U16IterExt for I {
    #[inline]
    fn to_utf16chars(self) -> Utf16CharMerger<I> {
        Utf16CharMerger::from(self)
    }
}

/// Methods of every iterator of `Utf8Char`.
///
/// The calls that collect and extend allocate for one whole character at a time: if allocation fails, no
/// character is incomplete. The source's `size_hint` is not used.
pub trait Utf8CharIterExt: Iterator<Item = Utf8Char> + Sized {
    /// The bytes of the characters, one character after another.
    fn to_bytes(self) -> Utf8CharSplitter<Self>
        ensures splitter { result ≡ unbegun self }
        ensures runs { EachRunFrom (SplitterNext utf8 Self.next_gives) result
            (λ p. SomeRun Self.next_gives self (λ q. IsSplitterRun utf8 p q)) };

    /// The bytes of all characters. The error is that an allocation failed.
    ///
    /// Condition: the source ends.
    ///
    /// Cost: O(n), allocates.
    fn collect_bytes<A: Allocator>(self, alloc: A) -> Result<Vec<u8, A>, AllocError>
        requires can { Self.can_next self }
        requires ends { IsFinite (Self.remaining self) }
        ensures ok { IfOk result (λ bytes. AddsCodes utf8 Self.next_gives self [] bytes.items) }
        ensures runs { IfOk result (λ bytes. WholeRun Self.next_gives self
            (λ p. bytes.items ≡ flat_map utf8 p.items)) }
        ensures nothing { WhereEmpty Self.next_gives self (IsOk result) };

    /// The text of all characters. The error is that an allocation failed.
    ///
    /// Condition: the source ends.
    ///
    /// Cost: O(n), allocates.
    fn collect_string<A: Allocator>(self, alloc: A) -> Result<String<A>, AllocError>
        requires can { Self.can_next self }
        requires ends { IsFinite (Self.remaining self) }
        ensures ok { IfOk result (λ text. AddsCodes utf8 Self.next_gives self [] (string_bytes text)) }
        ensures runs { IfOk result (λ text. WholeRun Self.next_gives self
            (λ p. string_bytes text ≡ flat_map utf8 p.items)) }
        ensures nothing { WhereEmpty Self.next_gives self (IsOk result) };

    /// Appends the bytes of all characters. If allocation fails, the characters before it have been appended,
    /// and the source is consumed.
    ///
    /// Condition: the source ends.
    ///
    /// Cost: O(n), allocates.
    fn extend_bytes<A: Allocator>(self, bytes: &mut Vec<u8, A>) -> Result<(), AllocError>
        requires can { Self.can_next self }
        requires ends { IsFinite (Self.remaining self) }
        ensures ok { OnOk result (AddsCodes utf8 Self.next_gives self bytes.old.items bytes.new.items) }
        ensures err { OnErr result (AddsFirstCodes utf8 Self.next_gives self
            (vec_capacity bytes.old) bytes.old.items bytes.new.items) }
        ensures runs { OnOk result (WholeRun Self.next_gives self
            (λ p. bytes.new.items ≡ bytes.old.items ++ flat_map utf8 p.items)) }
        ensures nothing { WhereEmpty Self.next_gives self (IsOk result) };

    /// Appends all characters to the text. If allocation fails, those before it have been appended, and the
    /// source is consumed.
    ///
    /// Condition: the source ends.
    ///
    /// Cost: O(n), allocates.
    fn extend_string<A: Allocator>(self, text: &mut String<A>) -> Result<(), AllocError>
        requires can { Self.can_next self }
        requires ends { IsFinite (Self.remaining self) }
        ensures ok { OnOk result (AddsCodes utf8 Self.next_gives self
            (string_bytes text.old) (string_bytes text.new)) }
        ensures err { OnErr result (AddsFirstCodes utf8 Self.next_gives self
            (string_capacity text.old) (string_bytes text.old) (string_bytes text.new)) }
        ensures runs { OnOk result (WholeRun Self.next_gives self
            (λ p. string_bytes text.new ≡ string_bytes text.old ++ flat_map utf8 p.items)) }
        ensures nothing { WhereEmpty Self.next_gives self (IsOk result) };
}

impl<I: Iterator<Item = Utf8Char>> Utf8CharIterExt for I {
    #[inline]
    fn to_bytes(self) -> Utf8CharSplitter<I> {
        Utf8CharSplitter::from(self)
    }

    #[inline]
    fn collect_bytes<A: Allocator>(self, alloc: A) -> Result<Vec<u8, A>, AllocError> {
        let mut bytes = Vec::new(alloc);
        extend(self, &mut bytes)?;
        Ok(bytes)
    }

    #[inline]
    fn collect_string<A: Allocator>(self, alloc: A) -> Result<String<A>, AllocError> {
        let mut text = String::new(alloc);
        extend(self, &mut text)?;
        Ok(text)
    }

    #[inline]
    fn extend_bytes<A: Allocator>(self, bytes: &mut Vec<u8, A>) -> Result<(), AllocError> {
        extend(self, bytes)
    }

    #[inline]
    fn extend_string<A: Allocator>(self, text: &mut String<A>) -> Result<(), AllocError> {
        extend(self, text)
    }
}

/// Methods of every iterator of `Utf16Char`.
///
/// The calls that collect and extend allocate for one whole character at a time: if allocation fails, no
/// character is incomplete. The source's `size_hint` is not used.
pub trait Utf16CharIterExt: Iterator<Item = Utf16Char> + Sized {
    /// The units of the characters, one character after another.
    fn to_units(self) -> Utf16CharSplitter<Self>
        ensures splitter { result ≡ unbegun self }
        ensures runs { EachRunFrom (SplitterNext utf16 Self.next_gives) result
            (λ p. SomeRun Self.next_gives self (λ q. IsSplitterRun utf16 p q)) };

    /// The units of all characters. The error is that an allocation failed.
    ///
    /// Condition: the source ends.
    ///
    /// Cost: O(n), allocates.
    fn collect_units<A: Allocator>(self, alloc: A) -> Result<Vec<u16, A>, AllocError>
        requires can { Self.can_next self }
        requires ends { IsFinite (Self.remaining self) }
        ensures ok { IfOk result (λ units. AddsCodes utf16 Self.next_gives self [] units.items) }
        ensures runs { IfOk result (λ units. WholeRun Self.next_gives self
            (λ p. units.items ≡ flat_map utf16 p.items)) }
        ensures nothing { WhereEmpty Self.next_gives self (IsOk result) };

    /// The text of all characters. The error is that an allocation failed.
    ///
    /// Condition: the source ends.
    ///
    /// Cost: O(n), allocates.
    fn collect_string<A: Allocator>(self, alloc: A) -> Result<String<A>, AllocError>
        requires can { Self.can_next self }
        requires ends { IsFinite (Self.remaining self) }
        ensures ok { IfOk result (λ string. AddsCodes utf8 Self.next_gives self [] (string_bytes string)) }
        ensures runs { IfOk result (λ string. WholeRun Self.next_gives self
            (λ p. string_bytes string ≡ flat_map utf8 p.items)) }
        ensures nothing { WhereEmpty Self.next_gives self (IsOk result) };

    /// Appends the units of all characters. If allocation fails, the characters before it have been appended,
    /// and the source is consumed.
    ///
    /// Condition: the source ends.
    ///
    /// Cost: O(n), allocates.
    fn extend_units<A: Allocator>(self, units: &mut Vec<u16, A>) -> Result<(), AllocError>
        requires can { Self.can_next self }
        requires ends { IsFinite (Self.remaining self) }
        ensures ok { OnOk result (AddsCodes utf16 Self.next_gives self units.old.items units.new.items) }
        ensures err { OnErr result (AddsFirstCodes utf16 Self.next_gives self
            (vec_capacity units.old) units.old.items units.new.items) }
        ensures runs { OnOk result (WholeRun Self.next_gives self
            (λ p. units.new.items ≡ units.old.items ++ flat_map utf16 p.items)) }
        ensures nothing { WhereEmpty Self.next_gives self (IsOk result) };

    /// Appends all characters to the text. If allocation fails, those before it have been appended, and the
    /// source is consumed.
    ///
    /// Condition: the source ends.
    ///
    /// Cost: O(n), allocates.
    fn extend_string<A: Allocator>(self, string: &mut String<A>) -> Result<(), AllocError>
        requires can { Self.can_next self }
        requires ends { IsFinite (Self.remaining self) }
        ensures ok { OnOk result (AddsCodes utf8 Self.next_gives self
            (string_bytes string.old) (string_bytes string.new)) }
        ensures err { OnErr result (AddsFirstCodes utf8 Self.next_gives self
            (string_capacity string.old) (string_bytes string.old) (string_bytes string.new)) }
        ensures runs { OnOk result (WholeRun Self.next_gives self
            (λ p. string_bytes string.new ≡ string_bytes string.old ++ flat_map utf8 p.items)) }
        ensures nothing { WhereEmpty Self.next_gives self (IsOk result) };
}

impl<I: Iterator<Item = Utf16Char>> Utf16CharIterExt for I {
    #[inline]
    fn to_units(self) -> Utf16CharSplitter<I> {
        Utf16CharSplitter::from(self)
    }

    #[inline]
    fn collect_units<A: Allocator>(self, alloc: A) -> Result<Vec<u16, A>, AllocError> {
        let mut units = Vec::new(alloc);
        extend(self, &mut units)?;
        Ok(units)
    }

    #[inline]
    fn collect_string<A: Allocator>(self, alloc: A) -> Result<String<A>, AllocError> {
        let mut string = String::new(alloc);
        extend(self, &mut string)?;
        Ok(string)
    }

    #[inline]
    fn extend_units<A: Allocator>(self, units: &mut Vec<u16, A>) -> Result<(), AllocError> {
        extend(self, units)
    }

    #[inline]
    fn extend_string<A: Allocator>(self, string: &mut String<A>) -> Result<(), AllocError> {
        extend(self, string)
    }
}
