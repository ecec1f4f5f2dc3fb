//! The code that both splitters share.
ghost use Rattle.std.specs.Prelude.{◌≡◌, ◌+◌, ◌*◌};
ghost use Rattle.encode_unicode.specs.Sources.{fitting_usize, split_hint};

/// The hint of a splitter, derived from its source's: `held` elements are left of the begun code, and a code
/// has at most `most`. If a bound does not fit, the lower one is `usize::MAX` and the upper one is `None`.
#[inline(always)]
pub(crate) fn hint_of(
    source: (usize, Option<usize>),
    most: usize,
    held: usize,
) -> (usize, Option<usize>)
    ensures { result ≡ split_hint most held source }
{
    let (low, high) = source;
    let high = match high {
        None => None,
        Some(count) => widened(count, most, held),
    };
    (low.saturating_add(held), high)
}

// `count` times `most`, plus `held`, if that is a `usize`.
#[inline(always)]
fn widened(count: usize, most: usize, held: usize) -> Option<usize>
    ensures { result ≡ fitting_usize (count * most + held) }
{
    count.checked_mul(most)?.checked_add(held)
}
