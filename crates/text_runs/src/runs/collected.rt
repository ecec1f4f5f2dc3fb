//! Whole runs that are collected into memory.
ghost use Rattle.std.specs.Prelude.{◌≡◌, List, length, IfOk, IsOk};
ghost use Rattle.std.specs.Iterator.{IsFinite};
ghost use Rattle.utf_base.specs.Code.{utf8, utf16};
ghost use Rattle.utf_base.specs.Kinds.{merger_kind};
ghost use Rattle.utf_base.specs.Units.{unit_fault_kind};
ghost use Rattle.encode_unicode.specs.Pieces.{unit_pieces};
ghost use Rattle.encode_unicode.specs.Sources.{WhateverIsLeft, WhereEmpty};
ghost use Rattle.encode_unicode.specs.Window.{UnitItem};
ghost use Rattle.text_runs.specs.Collected.{IsUnitRun, IsMergedRun, IsJoinedExactly};
ghost use Rattle.text_runs.specs.Items.{answers_of};

use crate::runs::items::UnitItem;
use encode_unicode::error::{Utf8Error, Utf16PairError};
use encode_unicode::iterator::Utf16CharDecoder;
use encode_unicode::{U8IterExt, U16IterExt, Utf8Char, Utf16Char};
use std::alloc::{AllocError, Allocator};

/// All characters and invalid bytes of an iterator, in order.
///
/// All are characters if and only if the bytes are UTF-8. Fails if an allocation fails.
///
/// Condition: the source ends; if its `next` has a condition, it holds.
///
/// Cost: O(n), allocates.
pub fn merge_utf8<A: Allocator, I: Iterator<Item = u8>>(
    alloc: A,
    source: I,
) -> Result<Vec<Result<Utf8Char, Utf8Error>, A>, AllocError>
    requires can { I.can_next source }
    requires ends { IsFinite (I.remaining source) }
    ensures run { IfOk result (λ all. WhateverIsLeft I.next_gives (λ rest.
        IsMergedRun utf8 merger_kind (rest source) all.items)) }
    ensures joined { IfOk result (λ all. WhateverIsLeft I.next_gives (λ rest.
        IsJoinedExactly utf8 (rest source) all.items)) }
    ensures nothing { WhereEmpty I.next_gives source (IsOk result) }
{
    let mut all = Vec::new(alloc);
    for answer in source.to_utf8chars() {
        all.push(answer)?;
    }
    Ok(all)
}

/// All characters and lone surrogates of an iterator, in order: those of `forward_utf16` over the same units.
///
/// All are characters if and only if the units are UTF-16. Fails if an allocation fails.
///
/// Condition: the source ends; if its `next` has a condition, it holds.
///
/// Cost: O(n), allocates.
pub fn merge_utf16<A: Allocator, I: Iterator<Item = u16>>(
    alloc: A,
    source: I,
) -> Result<Vec<Result<Utf16Char, Utf16PairError>, A>, AllocError>
    requires can { I.can_next source }
    requires ends { IsFinite (I.remaining source) }
    ensures run { IfOk result (λ all. WhateverIsLeft I.next_gives (λ rest.
        IsMergedRun utf16 unit_fault_kind (rest source) all.items)) }
    ensures joined { IfOk result (λ all. WhateverIsLeft I.next_gives (λ rest.
        IsJoinedExactly utf16 (rest source) all.items)) }
    ensures alike { IfOk result (λ all. WhateverIsLeft I.next_gives (λ rest.
        (items : List UnitItem) → IsUnitRun (rest source) items → all.items ≡ answers_of items)) }
    ensures nothing { WhereEmpty I.next_gives source (IsOk result) }
{
    let mut all = Vec::new(alloc);
    for answer in source.to_utf16chars() {
        all.push(answer)?;
    }
    Ok(all)
}

/// All pieces of the units, in order. Fails if an allocation fails.
///
/// Cost: O(n), allocates.
pub fn forward_utf16<A: Allocator>(alloc: A, src: &[u16]) -> Result<Vec<UnitItem, A>, AllocError>
    ensures run { IfOk result (λ items. IsUnitRun src.now items.items) }
    ensures value { IfOk result (λ items. items.items ≡ unit_pieces src.now) }
    ensures nothing { length src.now ≡ 0 → IsOk result }
{
    let mut items = Vec::new(alloc);
    for item in Utf16CharDecoder::from(src) {
        items.push(item)?;
    }
    Ok(items)
}
