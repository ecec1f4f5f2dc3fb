//! Transcoding of a whole input in one call.
ghost use Rattle.std.specs.Prelude.{◌≡◌, ◌+◌, ◌-◌, ◌<◌, ◌≤◌, ◌^◌, length, take};
ghost use Rattle.cuts.specs.Recoded.{IsRecoded};
ghost use Rattle.c_api.specs.Whole.{IsLongerThan, IsFrontOfRecoded, IsRecodedLen};
ghost use Rattle.c_api.specs.Api.{IfForms, IsForm, form_of};

use crate::recodings::{FULL, REFUSED, nody_recoder, nody_recoder_feed, nody_recoder_finish};

// The size of a part, in bytes, and the capacity for its output, when only the output size is asked for.
const PART: usize = 256;

const ROOM: usize = 1024;

/// Transcodes all of the bytes into the buffer. Returns 0 if all of it fitted; 1 if the buffer is too small; 2, with
/// nothing changed, if an encoding is not valid.
#[unsafe(no_mangle)]
pub extern "C" fn nody_recode(
    from: u8,
    to: u8,
    bytes: &[u8],
    room: &mut [u8],
    written: &mut usize,
) -> u8
    ensures fits { written.new ≤ length room.old }
    ensures all { result ≡ 0 → IsRecoded (form_of from) (form_of to) bytes.now (take written.new room.new) }
    ensures full { result ≡ 1 → IsLongerThan (form_of from) (form_of to) bytes.now (length room.old) }
    ensures front { result ≡ 1 →
        IsFrontOfRecoded (form_of from) (form_of to) bytes.now (take written.new room.new) }
    ensures short { result ≡ 1 → length room.old < written.new + 4 }
    ensures status { IsForm from → IsForm to → result < 2 }
    ensures refused { result ≡ 2 → (written.new ≡ 0) × (room.new ≡ room.old) }
    ensures from { ¬ IsForm from → result ≡ 2 }
    ensures to { ¬ IsForm to → result ≡ 2 }
{
    *written = 0;
    if 3 <= from || 3 <= to {
        return REFUSED;
    }
    let mut recoder = nody_recoder(from, to);
    let mut read = 0;
    if nody_recoder_feed(&mut recoder, bytes, room, &mut read, written) == FULL {
        return FULL;
    }
    let mut last = 0;
    let status = nody_recoder_finish(&mut recoder, &mut room[*written..], &mut last);
    *written += last;
    status
}

/// The exact output size for all of these bytes, or `SIZE_MAX` if a `size_t` cannot count it, or an encoding
/// is not valid.
#[unsafe(no_mangle)]
pub extern "C" fn nody_recoded_len(from: u8, to: u8, bytes: &[u8]) -> usize
    ensures len { IfForms from to (λ f t. IsRecodedLen f t bytes.now result) }
    ensures from { ¬ IsForm from → result ≡ 2 ^ 64 - 1 }
    ensures to { ¬ IsForm to → result ≡ 2 ^ 64 - 1 }
{
    if 3 <= from || 3 <= to {
        return usize::MAX;
    }
    let mut recoder = nody_recoder(from, to);
    let mut room = [0; ROOM];
    let (mut read, mut written) = (0, 0);
    let mut len: usize = 0;
    let mut place = 0;
    while place < bytes.len() {
        let end = bytes.len().min(place + PART);
        nody_recoder_feed(
            &mut recoder,
            &bytes[place..end],
            &mut room,
            &mut read,
            &mut written,
        );
        len = len.saturating_add(written);
        place = end;
    }
    nody_recoder_finish(&mut recoder, &mut room, &mut written);
    len.saturating_add(written)
}
