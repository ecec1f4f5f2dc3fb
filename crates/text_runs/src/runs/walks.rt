//! Walks: pieces of bytes or units, taken from front and end, in any order.
ghost use Rattle.std.specs.Prelude.{◌≡◌, length, map, IfOk, IsOk};
ghost use Rattle.utf_base.specs.Code.{utf8, utf16};
ghost use Rattle.utf_base.specs.Walk.{IsWalk, utf8_bytes, utf16_units};
ghost use Rattle.utf_base.specs.WalkLaws.{StaysOutside, GivesEachOnce};
ghost use Rattle.text_runs.specs.Walks.{side, CallGives};

use crate::runs::items::{End, Item, UnitItem};
use encode_unicode::iterator::{Utf8CharDecoder, Utf16CharDecoder};
use std::alloc::{AllocError, Allocator};

/// Takes one piece of the bytes for each entry of `word`, from the end that the entry names. If no byte
/// remains, the result is `None`.
///
/// No piece is given twice. From the front, the kind of an error depends on the bytes that remain at that
/// moment. From the end it depends only on the byte. If the word is empty, nothing is allocated.
///
/// Cost: O(n) in the word, allocates.
pub fn walk_utf8<A: Allocator>(
    alloc: A,
    src: &[u8],
    word: &[End],
) -> Result<Vec<Option<Item>, A>, AllocError>
    ensures walk { IfOk result (λ answers. IsWalk utf8_bytes src.now (map side word.now) answers.items) }
    ensures entries { IfOk result (λ answers. length answers.items ≡ length word.now) }
    ensures each_once { IfOk result (λ answers. GivesEachOnce utf8 src.now answers.items) }
    ensures outside { IfOk result
        (λ answers. StaysOutside utf8_bytes src.now (map side word.now) answers.items) }
    ensures empty { length word.now ≡ 0 → IsOk result }
{
    let mut answers = Vec::new(alloc);
    let mut decoder = Utf8CharDecoder::from(src);
    for end in word {
        answers.push(ask(&mut decoder, *end))?;
    }
    Ok(answers)
}

/// Takes one piece of units of UTF-16 for each entry of `word`, from the end that the entry names. If no unit
/// remains, the result is `None`.
///
/// From the front, a lone leading surrogate is `UnmatchedLeadingSurrogate` if a unit remains after it, and
/// `Incomplete` if none does. From the end it is always `Incomplete`. If the word is empty, nothing is
/// allocated.
///
/// Cost: O(n) in the word, allocates.
pub fn walk_utf16<A: Allocator>(
    alloc: A,
    src: &[u16],
    word: &[End],
) -> Result<Vec<Option<UnitItem>, A>, AllocError>
    ensures walk { IfOk result (λ answers. IsWalk utf16_units src.now (map side word.now) answers.items) }
    ensures entries { IfOk result (λ answers. length answers.items ≡ length word.now) }
    ensures each_once { IfOk result (λ answers. GivesEachOnce utf16 src.now answers.items) }
    ensures outside { IfOk result
        (λ answers. StaysOutside utf16_units src.now (map side word.now) answers.items) }
    ensures empty { length word.now ≡ 0 → IsOk result }
{
    let mut answers = Vec::new(alloc);
    let mut units = Utf16CharDecoder::from(src);
    for end in word {
        answers.push(ask(&mut units, *end))?;
    }
    Ok(answers)
}

// One call, at that end.
#[inline(always)]
fn ask<D: DoubleEndedIterator>(decoder: &mut D, end: End) -> Option<D::Item>
    requires front { D.can_next decoder.old }
    requires back { D.can_next_back decoder.old }
    ensures { CallGives D.next_gives D.next_back_gives end decoder.old result decoder.new }
{
    match end {
        End::Front => decoder.next(),
        End::Back => decoder.next_back(),
    }
}
