//! Runs over equal bytes are equal, as `==` compares them.
ghost use Rattle.std.specs.Prelude.{◌≡◌, IfOk, IsTrue};

use cuts::{laws, merge_utf8};
use encode_unicode::U8SliceExt;
use std::alloc::{AllocError, Allocator};

/// Returns true if two vectors are equal, which is so if their elements are.
pub fn are_equal<T: Eq, A: Allocator>(first: &Vec<T, A>, second: &Vec<T, A>) -> bool
    ensures { first.now.items ≡ second.now.items → IsTrue result }
{
    first == second
}

/// Returns true if mergers over the bytes return the same, as they do over equal bytes. So results can be
/// cached by the bytes.
pub fn merge_alike<A: Allocator + Copy>(
    alloc: A,
    bytes: &[u8],
    others: &[u8],
) -> Result<bool, AllocError>
    ensures { bytes.now ≡ others.now → IfOk result (λ same. IsTrue same) }
{
    laws::runs_are_unique();
    let first = merge_utf8(alloc, bytes.iter().copied())?;
    let second = merge_utf8(alloc, others.iter().copied())?;
    Ok(are_equal(&first, &second))
}

/// Returns true if decoders of the bytes return the same, with offsets and lengths.
pub fn decode_alike<A: Allocator + Copy>(
    alloc: A,
    bytes: &[u8],
    others: &[u8],
) -> Result<bool, AllocError>
    ensures { bytes.now ≡ others.now → IfOk result (λ same. IsTrue same) }
{
    let first: Vec<_, A> = bytes.utf8char_indices().collect(alloc)?;
    let second: Vec<_, A> = others.utf8char_indices().collect(alloc)?;
    Ok(are_equal(&first, &second))
}
