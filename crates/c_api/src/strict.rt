//! Transcoding into a caller-supplied buffer, stopping at the first fault.
ghost use Rattle.std.specs.Prelude.{◌≡◌, ◌≢◌, ◌+◌, ◌*◌, ◌<◌, length};
ghost use Rattle.cuts.specs.Rooms.{ComesNearer, IsAmpleForText};
ghost use Rattle.cuts.specs.Strict.{FeedsStrictly, FinishesStrictly};
ghost use Rattle.c_api.specs.Api.{IfRecoder, IsRecoder, TellsOutcome, fault_as, no_fault, told};

use crate::kinds::fault_number_of;
use crate::recodings::{DONE, FULL, NodyRecoder, REFUSED, is_recoder, keep, opened};
use cuts::{Fault, Outcome};

/// The fault at which a strict call stopped.
#[repr(C)]
#[derive(Clone, Copy, Drop)]
pub struct NodyFault {
    /// The length of the fault in bytes, or 0 if there is none.
    pub len: usize,
    /// The number of bytes from the first one of the fault to the end of what was read.
    pub back: usize,
    /// The number of its kind, or 11 if there is none.
    pub kind: u8,
}

// The status of a strict call that stopped at a fault.
const FAULT: u8 = 3;

pub(crate) const NO_FAULT: NodyFault = NodyFault {
    len: 0,
    back: 0,
    kind: 11,
};

// The fault of a recoder, for C.
fn fault_of(fault: Fault) -> NodyFault
    ensures { result ≡ fault_as fault }
{
    NodyFault {
        len: fault.len,
        back: fault.back,
        kind: fault_number_of(fault.kind),
    }
}

// The status and the fault of an outcome, for C.
pub(crate) fn told_of(outcome: Outcome) -> (u8, NodyFault)
    ensures { result ≡ told outcome }
{
    match outcome {
        Outcome::AllRead => (DONE, NO_FAULT),
        Outcome::Full => (FULL, NO_FAULT),
        Outcome::Faulty(fault) => (FAULT, fault_of(fault)),
    }
}

/// Feeds a part up to the first fault, as far as there is capacity. Returns 0 if all of it was read; 1 if the next
/// character does not fit; 2, with nothing changed, if the struct is not a recoder; 3 at a fault, which is read and
/// for which nothing is written.
#[unsafe(no_mangle)]
pub extern "C" fn nody_recoder_feed_strict(
    recoder: &mut NodyRecoder,
    part: &[u8],
    room: &mut [u8],
    read: &mut usize,
    written: &mut usize,
    fault: &mut NodyFault,
) -> u8
    ensures recoder { IsRecoder recoder.old → IsRecoder recoder.new }
    ensures feeds { IfRecoder recoder.old recoder.new
        (λ r s. TellsOutcome (λ p. FeedsStrictly r part.now room.old room.new p s)
        read.new written.new result fault.new) }
    ensures all { IsRecoder recoder.old → result ≡ 0 → read.new ≡ length part.now }
    ensures short { IsRecoder recoder.old → result ≡ 1 → length room.old < written.new + 4 }
    ensures enough { IsRecoder recoder.old →
        IsAmpleForText (length room.old) (recoder.old.count + length part.now) → result ≢ 1 }
    ensures nearer { IfRecoder recoder.old recoder.new (ComesNearer part.now room.old read.new) }
    ensures uncounted { recoder.new.replaced ≡ recoder.old.replaced }
    ensures refused { result ≡ 2 → (recoder.new ≡ recoder.old) × (room.new ≡ room.old) }
    ensures none { result ≡ 2 → (read.new ≡ 0) × (written.new ≡ 0) × (fault.new ≡ no_fault) }
    ensures is_one { IsRecoder recoder.old → result ≢ 2 }
    ensures wrong { ¬ IsRecoder recoder.old → result ≡ 2 }
{
    *read = 0;
    *written = 0;
    *fault = NO_FAULT;
    if !is_recoder(recoder) {
        return REFUSED;
    }
    let mut inner = opened(recoder);
    let progress = inner.feed_strict_into(part, room);
    keep(recoder, &inner);
    *read = progress.read;
    *written = progress.written;
    let (status, found) = told_of(progress.outcome);
    *fault = found;
    status
}

/// Transcodes the carried-over bytes at the end of the input, up to the first fault and as far as there is capacity.
/// Returns 0 if nothing is carried over any more; 1 if the next character does not fit; 2, with nothing changed, if
/// the struct is not a recoder; 3 at a fault, which is not carried over any more.
#[unsafe(no_mangle)]
pub extern "C" fn nody_recoder_finish_strict(
    recoder: &mut NodyRecoder,
    room: &mut [u8],
    written: &mut usize,
    fault: &mut NodyFault,
) -> u8
    ensures recoder { IsRecoder recoder.old → IsRecoder recoder.new }
    ensures finishes { IfRecoder recoder.old recoder.new
        (λ r s. TellsOutcome (λ p. FinishesStrictly r room.old room.new p s)
        0 written.new result fault.new) }
    ensures all { IsRecoder recoder.old → result ≡ 0 → recoder.new.count ≡ 0 }
    ensures short { IsRecoder recoder.old → result ≡ 1 → length room.old < written.new + 4 }
    ensures enough { IsRecoder recoder.old → IsAmpleForText (length room.old) recoder.old.count → result ≢ 1 }
    ensures uncounted { recoder.new.replaced ≡ recoder.old.replaced }
    ensures refused { result ≡ 2 → (recoder.new ≡ recoder.old) × (room.new ≡ room.old) }
    ensures none { result ≡ 2 → (written.new ≡ 0) × (fault.new ≡ no_fault) }
    ensures is_one { IsRecoder recoder.old → result ≢ 2 }
    ensures wrong { ¬ IsRecoder recoder.old → result ≡ 2 }
{
    *written = 0;
    *fault = NO_FAULT;
    if !is_recoder(recoder) {
        return REFUSED;
    }
    let mut inner = opened(recoder);
    let progress = inner.finish_strict_into(room);
    keep(recoder, &inner);
    *written = progress.written;
    let (status, found) = told_of(progress.outcome);
    *fault = found;
    status
}
