//! The code that both mergers share.
ghost use Rattle.std.specs.Prelude.{◌≡◌, ◌<◌, false};
ghost use Rattle.encode_unicode.specs.Mergers.{hint_until, merge_hint};
ghost use Rattle.encode_unicode.specs.Reading.{ReadsElements, as_list, ends};

use crate::splitting::hint_of;

/// Reads one more element. If the source has none, it has ended.
#[inline(always)]
pub(crate) fn read<T, I: Iterator<Item = T>>(source: &mut I) -> Option<T>
    requires { I.can_next source.old }
    ensures { ReadsElements I.can_next I.remaining I.next_gives
        source.old false (as_list result) source.new (ends result) }
{
    source.next()
}

/// The hint of a source, which is 0 once the source has ended.
#[inline(always)]
pub(crate) fn hint_of_source(hint: (usize, Option<usize>), ended: bool) -> (usize, Option<usize>)
    ensures { result ≡ hint_until ended hint }
{
    let (low, high) = hint;
    (if ended { 0 } else { low }, high)
}

/// The hint of a merger, derived from its source's: `held` elements are buffered, and a code has at most
/// `most`. The upper bound is `None` if it does not fit.
#[inline(always)]
pub(crate) fn merged_hint(
    source: (usize, Option<usize>),
    most: usize,
    held: usize,
) -> (usize, Option<usize>)
    requires { 0 < most }
    ensures { result ≡ merge_hint most held source }
{
    let (_, high) = hint_of(source, 1, held);
    (source.0 / most, high)
}
