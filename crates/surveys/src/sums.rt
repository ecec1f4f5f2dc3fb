//! Sums of counts, modulo 2^64.
ghost use Rattle.std.specs.Prelude.{◌≡◌, ◌+◌};
ghost use Rattle.surveys.specs.SurveyCounts.{number, wrapped};

/// The sum of two counts.
#[inline(always)]
#[tactic(auto, unfolding(crate::specs::SurveyCounts::wrapped))]
pub(crate) fn sum(a: u64, b: u64) -> u64
    ensures { result ≡ wrapped (a + b) }
{
    a.wrapping_add(b)
}

/// The count, which 64 bits hold.
#[inline(always)]
#[tactic(auto, unfolding(crate::specs::SurveyCounts::wrapped))]
pub(crate) fn whole(count: u64) -> u64
    ensures { result ≡ wrapped count }
{
    count
}

/// 1 if the test passed, otherwise 0.
#[inline(always)]
pub(crate) fn number(test: bool) -> u64
    ensures { result ≡ number test }
{
    if test { 1 } else { 0 }
}
