//! Transcoding into a caller-supplied buffer, with one U+FFFD for each maximal subpart.
ghost use Rattle.std.specs.Prelude.{◌≡◌, ◌+◌, ◌-◌, ◌<◌, length, take};
ghost use Rattle.cuts.specs.Recoded.{Lacks};
ghost use Rattle.cuts.specs.LossyBytes.{FeedsLossy, FinishesLossy, IsFullLossy, IsLastFullLossy};
ghost use Rattle.c_api.specs.Api.{CountsEnd, CountsPart, IfRecoder, IsRecoder};

use crate::recodings::{DONE, FULL, NodyRecoder, REFUSED, is_recoder, keep, opened, with_more};

/// Feeds a part as `nody_recoder_feed` does, but writes one U+FFFD for each maximal subpart. Adds to `replaced` the
/// number of invalid bytes, lone surrogates and odd last bytes, and not that of U+FFFD: a maximal subpart of three
/// bytes adds three.
#[unsafe(no_mangle)]
pub extern "C" fn nody_recoder_feed_lossy(
    recoder: &mut NodyRecoder,
    part: &[u8],
    room: &mut [u8],
    read: &mut usize,
    written: &mut usize,
) -> u8
    ensures recoder { IsRecoder recoder.old → IsRecoder recoder.new }
    ensures feeds { IfRecoder recoder.old recoder.new
        (λ r s. FeedsLossy r part.now room.old room.new read.new written.new s) }
    ensures all { IsRecoder recoder.old → result ≡ 0 → read.new ≡ length part.now }
    ensures waits { IfRecoder recoder.old recoder.new (λ r s. result ≡ 0 → Lacks r.from s.held) }
    ensures full { IfRecoder recoder.old recoder.new
        (λ r s. result ≡ 1 → IsFullLossy s part.now read.new (length room.old - written.new)) }
    ensures short { IsRecoder recoder.old → result ≡ 1 → length room.old < written.new + 4 }
    ensures status { IsRecoder recoder.old → result < 2 }
    ensures counts { IsRecoder recoder.old → CountsPart recoder.old (take read.new part.now) recoder.new }
    ensures refused { result ≡ 2 → (recoder.new ≡ recoder.old) × (room.new ≡ room.old) }
    ensures none { result ≡ 2 → (read.new ≡ 0) × (written.new ≡ 0) }
    ensures wrong { ¬ IsRecoder recoder.old → result ≡ 2 }
{
    *read = 0;
    *written = 0;
    if !is_recoder(recoder) {
        return REFUSED;
    }
    let mut inner = opened(recoder);
    let progress = inner.feed_lossy_into(part, room);
    keep(recoder, &inner);
    recoder.replaced = with_more(recoder.replaced, progress.replaced);
    *read = progress.read;
    *written = progress.written;
    if progress.is_full { FULL } else { DONE }
}

/// Finishes a recoder that was fed by `nody_recoder_feed_lossy`: a truncated character that is carried over becomes
/// one U+FFFD, and its bytes are added to `replaced`.
#[unsafe(no_mangle)]
pub extern "C" fn nody_recoder_finish_lossy(
    recoder: &mut NodyRecoder,
    room: &mut [u8],
    written: &mut usize,
) -> u8
    ensures recoder { IsRecoder recoder.old → IsRecoder recoder.new }
    ensures finishes { IfRecoder recoder.old recoder.new
        (λ r s. FinishesLossy r room.old room.new written.new s) }
    ensures all { IsRecoder recoder.old → result ≡ 0 → recoder.new.count ≡ 0 }
    ensures full { IfRecoder recoder.old recoder.new
        (λ r s. result ≡ 1 → IsLastFullLossy s (length room.old - written.new)) }
    ensures short { IsRecoder recoder.old → result ≡ 1 → length room.old < written.new + 4 }
    ensures status { IsRecoder recoder.old → result < 2 }
    ensures counts { IsRecoder recoder.old → CountsEnd recoder.old recoder.new }
    ensures refused { result ≡ 2 → (recoder.new ≡ recoder.old) × (room.new ≡ room.old) }
    ensures none { result ≡ 2 → written.new ≡ 0 }
    ensures wrong { ¬ IsRecoder recoder.old → result ≡ 2 }
{
    *written = 0;
    if !is_recoder(recoder) {
        return REFUSED;
    }
    let mut inner = opened(recoder);
    let progress = inner.finish_lossy_into(room);
    keep(recoder, &inner);
    recoder.replaced = with_more(recoder.replaced, progress.replaced);
    *written = progress.written;
    if progress.is_full { FULL } else { DONE }
}
