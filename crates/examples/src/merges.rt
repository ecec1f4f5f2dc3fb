//! Chains over mergers: contracts state the result by `merged`, the list of a merger's results for some
//! bytes.
ghost use Rattle.std.specs.Prelude.{◌≡◌, IfOk, List, ℕ, count_by, flat_map, is_err, is_ok, length, position, slice_get, string_bytes};
ghost use Rattle.std.specs.Iterator.{IsFinite};
ghost use Rattle.std.specs.List.{find, list_all, list_any};
ghost use Rattle.encode_unicode.specs.Code.{utf8};
ghost use Rattle.encode_unicode.specs.Mergers.{merged, merged_units};
ghost use Rattle.encode_unicode.specs.Pieces.{characters, unit_characters};
ghost use Rattle.encode_unicode.specs.Sources.{IsListed, WhateverIsLeft};

use encode_unicode::error::{Utf8Error, Utf16PairError};
use encode_unicode::laws::merged_are_the_characters;
use encode_unicode::{U8IterExt, U16IterExt, Utf8Char, Utf8CharIterExt, Utf16Char};
use std::alloc::{AllocError, Allocator};

/// The number of errors among the merger's results.
pub fn fault_count(bytes: &[u8]) -> usize
    ensures { result ≡ count_by (λ r. is_err r) (merged bytes.now) }
{
    let answers = bytes.iter().copied().to_utf8chars();
    answers.filter(|r| r.is_err()).count()
}

/// The result after `count` others.
pub fn nth_answer(bytes: &[u8], count: usize) -> Option<Result<Utf8Char, Utf8Error>>
    ensures { result ≡ slice_get (merged bytes.now) count }
{
    bytes.iter().copied().to_utf8chars().nth(count)
}

/// All results for the bytes of a vector, which is consumed.
pub fn all_answers<A: Allocator, B: Allocator>(
    alloc: A,
    bytes: Vec<u8, B>,
) -> Result<Vec<Result<Utf8Char, Utf8Error>, A>, AllocError>
    ensures { IfOk result (λ all. all.items ≡ merged bytes.items) }
{
    bytes.into_iter().to_utf8chars().collect(alloc)
}

/// Returns true if all bytes of a source are characters.
pub fn all_characters<I: Iterator<Item = u8>>(source: I) -> bool
    requires can { I.can_next source }
    requires ends { IsFinite (I.remaining source) }
    ensures { WhateverIsLeft I.next_gives (λ rest. result ≡ list_all (λ r. is_ok r) (merged (rest source))) }
{
    source.to_utf8chars().all(|r| r.is_ok())
}

/// The number of characters before the first lone surrogate.
pub fn characters_before(units: &[u16]) -> Option<usize>
    ensures { result ≡ position (λ r. is_err r) (merged_units units.now) }
{
    let mut answers = units.iter().copied().to_utf16chars();
    answers.position(|r| r.is_err())
}

/// Returns true if a source has a lone surrogate.
pub fn has_faulty_unit<I: Iterator<Item = u16>>(source: I) -> bool
    requires can { I.can_next source }
    requires ends { IsFinite (I.remaining source) }
    ensures { WhateverIsLeft I.next_gives (λ rest.
        result ≡ list_any (λ r. is_err r) (merged_units (rest source))) }
{
    source.to_utf16chars().any(|r| r.is_err())
}

/// The first result that is an error.
pub fn first_fault(units: &[u16]) -> Option<Result<Utf16Char, Utf16PairError>>
    ensures { result ≡ find (λ r. is_err r) (merged_units units.now) }
{
    units.iter().copied().to_utf16chars().find(|r| r.is_err())
}

/// The text of only the characters, without errors. They are those that a decoder gives.
pub fn characters_alone<A: Allocator>(alloc: A, bytes: &[u8]) -> Result<String<A>, AllocError>
    ensures { IfOk result (λ text. string_bytes text ≡ flat_map utf8 (characters bytes.now)) }
{
    merged_are_the_characters();
    let answers = bytes.iter().copied().to_utf8chars();
    answers.filter_map(|r| r.ok()).collect_string(alloc)
}

/// The number of characters in the units.
pub fn unit_character_count(units: &[u16]) -> usize
    ensures { result ≡ length (unit_characters units.now) }
{
    merged_are_the_characters();
    let answers = units.iter().copied().to_utf16chars();
    answers.filter_map(|r| r.ok()).count()
}
