//! The number of characters of one Unicode block in the bytes of any source, as needed to guess the script of a text.
ghost use Rattle.std.specs.Prelude.{◌≡◌, IfOk, count_by};
ghost use Rattle.std.specs.Iterator.{IsFinite};
ghost use Rattle.encode_unicode.specs.Sources.{WhateverIsLeft};
ghost use Rattle.run_examples.specs.Blocks.{CountsBlock, is_in_block};

use cuts::merge_utf8;
use encode_unicode::Utf8Char;
use encode_unicode::error::Utf8Error;
use std::alloc::{AllocError, Allocator};

/// The number of characters from the first to the last of the block. Invalid bytes do not count.
pub fn count_block<A: Allocator, I: Iterator<Item = u8>>(
    alloc: A,
    source: I,
    first: char,
    last: char,
) -> Result<usize, AllocError>
    requires can { I.can_next source }
    requires ends { IsFinite (I.remaining source) }
    ensures { WhateverIsLeft I.next_gives (λ rest. IfOk result (CountsBlock (rest source) first last)) }
{
    let answers = merge_utf8(alloc, source)?;
    Ok(count_answers(&answers, first, last))
}

// The number of results that are characters of the block.
fn count_answers(answers: &[Result<Utf8Char, Utf8Error>], first: char, last: char) -> usize
    ensures { result ≡ count_by (is_in_block first last) answers.now }
{
    let in_block = answers.iter().filter(|answer| lies_in(answer, first, last));
    in_block.count()
}

// Returns true if the result is a character of the block.
fn lies_in(answer: &Result<Utf8Char, Utf8Error>, first: char, last: char) -> bool
    ensures { result ≡ is_in_block first last answer.now }
{
    match answer {
        Ok(c) => first <= c.to_char() && c.to_char() <= last,
        Err(_) => false,
    }
}
