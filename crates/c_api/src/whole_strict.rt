//! Transcoding of a whole input in one call, up to its first fault.
ghost use Rattle.std.specs.Prelude.{◌≡◌, ◌≢◌, ◌+◌, ◌-◌, ◌*◌, ◌<◌, ◌≤◌, length};
ghost use Rattle.c_api.specs.Api.{IfForms, IsForm, TellsOutcome, no_fault};
ghost use Rattle.cuts.specs.Rooms.{IsAmpleForText};
ghost use Rattle.c_api.specs.Whole.{RecodesStrictly, fault_unread, unrecoded};

use crate::recodings::{REFUSED, form_of};
use crate::strict::{NO_FAULT, NodyFault, told_of};
use cuts::{Fault, Form, Outcome, Recoder, StrictProgress};

/// Transcodes the bytes up to the first fault, as far as there is capacity. Returns 0 if there is no fault; 1 if the
/// buffer is too small; 2, with nothing changed, if an encoding is not valid; 3 at a fault, which is not read.
#[unsafe(no_mangle)]
pub extern "C" fn nody_recode_strict(
    from: u8,
    to: u8,
    bytes: &[u8],
    room: &mut [u8],
    read: &mut usize,
    written: &mut usize,
    fault: &mut NodyFault,
) -> u8
    ensures recodes { IfForms from to
        (λ f t. TellsOutcome (λ p. RecodesStrictly f t bytes.now room.old room.new p)
        read.new written.new result fault.new) }
    ensures all { result ≡ 0 → read.new ≡ length bytes.now }
    ensures short { result ≡ 1 → length room.old < written.new + 4 }
    ensures enough { IsAmpleForText (length room.old) (length bytes.now) → result ≢ 1 }
    ensures refused { result ≡ 2 → (read.new ≡ 0) × (written.new ≡ 0) × (room.new ≡ room.old) }
    ensures none { result ≡ 2 → fault.new ≡ no_fault }
    ensures are_forms { IsForm from → IsForm to → result ≢ 2 }
    ensures from { ¬ IsForm from → result ≡ 2 }
    ensures to { ¬ IsForm to → result ≡ 2 }
{
    *read = 0;
    *written = 0;
    *fault = NO_FAULT;
    if 3 <= from || 3 <= to {
        return REFUSED;
    }
    let progress = recode_strictly(form_of(from), form_of(to), bytes, room);
    *read = progress.read;
    *written = progress.written;
    let (status, found) = told_of(progress.outcome);
    *fault = found;
    status
}

// Transcodes all of the bytes up to the first fault, as far as there is capacity.
fn recode_strictly(from: Form, to: Form, bytes: &[u8], room: &mut [u8]) -> StrictProgress
    ensures recodes { RecodesStrictly from to bytes.now room.old room.new result }
    ensures all { result.outcome ≡ Outcome.AllRead → result.read ≡ length bytes.now }
    ensures short { result.outcome ≡ Outcome.Full → length room.old < result.written + 4 }
    ensures enough { IsAmpleForText (length room.old) (length bytes.now) → result.outcome ≢ Outcome.Full }
{
    let mut recoder = Recoder::new(from, to);
    let fed = recoder.feed_strict_into(bytes, room);
    if fed.outcome != Outcome::AllRead {
        return up_to_fault(fed, recoder.held().len());
    }
    let last = recoder.finish_strict_into(&mut room[fed.written..]);
    let both = StrictProgress {
        read: fed.read,
        written: fed.written + last.written,
        outcome: last.outcome,
    };
    up_to_fault(both, recoder.held().len())
}

// The progress of a strict call, with the fault at which it ended, or the carried-over bytes, counted as
// unread.
fn up_to_fault(progress: StrictProgress, held: usize) -> StrictProgress
    requires { unrecoded progress.outcome held ≤ progress.read }
    ensures { result ≡ record {
      read = progress.read - unrecoded progress.outcome held;
      written = progress.written;
      outcome = fault_unread progress.outcome;
    } }
{
    match progress.outcome {
        Outcome::Faulty(fault) => StrictProgress {
            read: progress.read - fault.back,
            written: progress.written,
            outcome: Outcome::Faulty(Fault {
                kind: fault.kind,
                len: fault.len,
                back: 0,
            }),
        },
        outcome => StrictProgress {
            read: progress.read - held,
            written: progress.written,
            outcome,
        },
    }
}
