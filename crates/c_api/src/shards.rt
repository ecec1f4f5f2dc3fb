//! Offsets where bytes may be cut into shards.
ghost use Rattle.std.specs.Prelude.{◌≡◌, ◌+◌, ◌-◌, ◌≤◌, ◌^◌, length, min};
ghost use Rattle.cuts.specs.Boundaries.{IsBoundary, IsLastTo};
ghost use Rattle.cuts.specs.RecodedBytes.{IsRecodedApart};
ghost use Rattle.cuts.specs.Shards.{IsLossyApart, IsShardEnd};
ghost use Rattle.c_api.specs.Api.{IfForm, IsForm};

use crate::recodings::form_of;

/// The last offset ≤ `at` where a shard of the bytes may end, or `SIZE_MAX` if `from` is not valid. It is inside no
/// character, no maximal subpart and no unit of UTF-16.
#[unsafe(no_mangle)]
pub extern "C" fn nody_shard_end(from: u8, bytes: &[u8], at: usize) -> usize
    ensures end { IfForm from (λ f. IsLastTo (IsShardEnd f bytes.now) (length bytes.now) at result) }
    ensures near { IsForm from → min at (length bytes.now) ≤ result + 3 }
    ensures boundary { IfForm from (λ f. IsBoundary f bytes.now result) }
    ensures joined { IfForm from (λ f. IsRecodedApart f bytes.now result) }
    ensures lossy { IfForm from (λ f. IsLossyApart f bytes.now result) }
    ensures none { ¬ IsForm from → result ≡ 2 ^ 64 - 1 }
{
    if 3 <= from {
        return usize::MAX;
    }
    cuts::shard_end(form_of(from), bytes, at)
}
