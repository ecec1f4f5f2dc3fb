//! Only the faults of input that comes in parts, each with its offset.
ghost use Rattle.std.specs.Prelude.{◌≡◌, [], ◌<◌, ◌≤◌, length};
ghost use Rattle.cuts.specs.Located.{FeedsFaults, FinishesFaults, HasNoPlaceForFault, IsKept, IsOpen, faults_alone, first_told};
ghost use Rattle.c_api.specs.Decoders.{IfDecoder, IsDecoder, decoder_of, located_for_c};

use crate::decoders::{NodyDecoder, NodyLocated, feed_decoder, finish_decoder, is_decoder};
use crate::recodings::REFUSED;
use text_stream::piece_runs::FaultsAlone;

/// Feeds a part, as far as there is capacity for its invalid bytes. Returns 0 if all of it was read; 1 if the array
/// is full before an invalid byte that is known; 2, with nothing changed, if the struct is not a decoder.
#[unsafe(no_mangle)]
#[tactic(auto, using(text_stream::proofs::KeptPieces::fault_where_kept))]
pub extern "C" fn nody_decoder_feed_faults(
    decoder: &mut NodyDecoder,
    part: &[u8],
    room: &mut [NodyLocated],
    read: &mut usize,
    written: &mut usize,
) -> u8
    ensures decoder { IsDecoder decoder.old → IsDecoder decoder.new }
    ensures feeds { IfDecoder decoder.old decoder.new
        (λ d e. FeedsFaults located_for_c d part.now room.old room.new read.new written.new e) }
    ensures all { IsDecoder decoder.old → result ≡ 0 → read.new ≡ length part.now }
    ensures waits { IfDecoder decoder.old decoder.new
        (λ d e. result ≡ 0 → 0 < length e.held → IsOpen e.form e.held) }
    ensures full { IfDecoder decoder.old decoder.new
        (λ d e. result ≡ 1 → HasNoPlaceForFault e part.now read.new written.new (length room.old)) }
    ensures status { IsDecoder decoder.old → result < 2 }
    ensures refused { result ≡ 2 → (decoder.new ≡ decoder.old) × (room.new ≡ room.old) }
    ensures none { result ≡ 2 → (read.new ≡ 0) × (written.new ≡ 0) }
    ensures wrong { ¬ IsDecoder decoder.old → result ≡ 2 }
{
    *read = 0;
    *written = 0;
    if !is_decoder(decoder) {
        return REFUSED;
    }
    feed_decoder::<FaultsAlone>(decoder, part, room, read, written)
}

/// Returns the invalid bytes among the carried-over ones at the end of the input, as far as there is capacity. The
/// status is 0 if nothing is carried over any more; 1 if the array is full before an invalid byte that is still
/// carried over; 2, with nothing changed, if the struct is not a decoder.
#[unsafe(no_mangle)]
pub extern "C" fn nody_decoder_finish_faults(
    decoder: &mut NodyDecoder,
    room: &mut [NodyLocated],
    written: &mut usize,
) -> u8
    ensures decoder { IsDecoder decoder.old → IsDecoder decoder.new }
    ensures finishes { IfDecoder decoder.old decoder.new
        (λ d e. FinishesFaults located_for_c d room.old room.new written.new e) }
    ensures all { IsDecoder decoder.old → result ≡ 0 → decoder.new.count ≡ 0 }
    ensures full { IsDecoder decoder.old → result ≡ 1 → written.new ≡ length room.old }
    ensures more { IsDecoder decoder.old → result ≡ 1 → 0 < decoder.new.count }
    ensures fault { IfDecoder decoder.old decoder.new
        (λ d e. result ≡ 1 → IsKept faults_alone (first_told e.form e.held)) }
    ensures status { IsDecoder decoder.old → result < 2 }
    ensures refused { result ≡ 2 → (decoder.new ≡ decoder.old) × (room.new ≡ room.old) }
    ensures none { result ≡ 2 → written.new ≡ 0 }
    ensures wrong { ¬ IsDecoder decoder.old → result ≡ 2 }
{
    *written = 0;
    if !is_decoder(decoder) {
        return REFUSED;
    }
    finish_decoder::<FaultsAlone>(decoder, room, written)
}
