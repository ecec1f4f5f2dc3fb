//! Runs over sources whose list is known, and over any: contracts state the result for that list.
ghost use Rattle.std.specs.Prelude.{◌++◌, IfOk, drop, flat_map, reverse};
ghost use Rattle.std.specs.Iterator.{IsFinite};
ghost use Rattle.std.specs.Str.{chars};
ghost use Rattle.encode_unicode.specs.Code.{utf8, utf16};
ghost use Rattle.encode_unicode.specs.Kinds.{merger_kind};
ghost use Rattle.encode_unicode.specs.Units.{unit_fault_kind};
ghost use Rattle.encode_unicode.specs.Sources.{WhateverIsLeft};
ghost use Rattle.cuts.specs.Collected.{IsJoinedExactly, IsMergedRun};

use cuts::{merge_utf8, merge_utf16};
use encode_unicode::error::{Utf8Error, Utf16PairError};
use encode_unicode::{StrExt, Utf8Char, Utf16Char, Utf16CharIterExt};
use std::alloc::{AllocError, Allocator};

/// The pieces of two slices, one after the other, as of a ring buffer.
pub fn pieces_of_both<A: Allocator>(
    alloc: A,
    first: &[u8],
    second: &[u8],
) -> Result<Vec<Result<Utf8Char, Utf8Error>, A>, AllocError>
    ensures { IfOk result (λ all. IsMergedRun utf8 merger_kind (first.now ++ second.now) all.items) }
{
    merge_utf8(alloc, first.iter().copied().chain(second.iter().copied()))
}

/// The pieces of bytes that come last byte first.
pub fn pieces_turned<A: Allocator>(
    alloc: A,
    bytes: &[u8],
) -> Result<Vec<Result<Utf8Char, Utf8Error>, A>, AllocError>
    ensures { IfOk result (λ all. IsMergedRun utf8 merger_kind (reverse bytes.now) all.items) }
{
    merge_utf8(alloc, bytes.iter().rev().copied())
}

/// The pieces of what follows the first `count` bytes.
pub fn pieces_after<A: Allocator>(
    alloc: A,
    bytes: &[u8],
    count: usize,
) -> Result<Vec<Result<Utf8Char, Utf8Error>, A>, AllocError>
    ensures { IfOk result (λ all. IsMergedRun utf8 merger_kind (drop count bytes.now) all.items) }
{
    merge_utf8(alloc, bytes.iter().copied().skip(count))
}

/// The pieces of a vector, which is consumed.
pub fn pieces_taken<A: Allocator, B: Allocator>(
    alloc: A,
    bytes: Vec<u8, B>,
) -> Result<Vec<Result<Utf8Char, Utf8Error>, A>, AllocError>
    ensures { IfOk result (λ all. IsMergedRun utf8 merger_kind bytes.items all.items) }
{
    merge_utf8(alloc, bytes.into_iter())
}

/// The characters of a text in reverse order, by way of their units.
pub fn turned_by_units<A: Allocator>(
    alloc: A,
    text: &str,
) -> Result<Vec<Result<Utf16Char, Utf16PairError>, A>, AllocError>
    ensures { IfOk result (λ all.
        IsMergedRun utf16 unit_fault_kind (flat_map utf16 (reverse (chars text.now))) all.items) }
{
    merge_utf16(alloc, text.utf16chars().rev().to_units())
}

/// The pieces of a source of bytes: all are characters if and only if its bytes are UTF-8.
pub fn pieces_of_bytes<A: Allocator, I: Iterator<Item = u8>>(
    alloc: A,
    source: I,
) -> Result<Vec<Result<Utf8Char, Utf8Error>, A>, AllocError>
    requires can { I.can_next source }
    requires ends { IsFinite (I.remaining source) }
    ensures { WhateverIsLeft I.next_gives (λ rest.
        IfOk result (λ all. IsJoinedExactly utf8 (rest source) all.items)) }
{
    merge_utf8(alloc, source)
}

/// The pieces of a source of units: all are characters if and only if its units are UTF-16.
pub fn pieces_of_units<A: Allocator, I: Iterator<Item = u16>>(
    alloc: A,
    source: I,
) -> Result<Vec<Result<Utf16Char, Utf16PairError>, A>, AllocError>
    requires can { I.can_next source }
    requires ends { IsFinite (I.remaining source) }
    ensures { WhateverIsLeft I.next_gives (λ rest.
        IfOk result (λ all. IsJoinedExactly utf16 (rest source) all.items)) }
{
    merge_utf16(alloc, source)
}
