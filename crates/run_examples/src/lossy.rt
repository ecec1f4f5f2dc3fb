//! Transcoding with one U+FFFD for each maximal subpart.
ghost use Rattle.std.specs.Prelude.{◌≡◌, [], ◌++◌, IfOk, IsFalse, IsTrue, take};
ghost use Rattle.cuts.specs.LossyBytes.{KeepsLossy, lossy_outcome};

use cuts::Recoder;
use std::alloc::{AllocError, Allocator};

/// Fills one packet from the part, and returns how many bytes of the part that took.
pub fn feed_lossy_packet<A: Allocator>(
    recoder: &mut Recoder,
    part: &[u8],
    sent: &mut Vec<u8, A>,
) -> Result<usize, AllocError>
    ensures { IfOk result (λ read.
        KeepsLossy recoder.old sent.old.items (take read part.now) sent.new.items recoder.new) }
{
    let mut packet = [0; 32];
    let progress = recoder.feed_lossy_into(part, &mut packet);
    sent.extend_from_slice(&packet[..progress.written])?;
    Ok(progress.read)
}

/// Feeds all of a part by way of a packet, and appends its contents each time it is full.
pub fn feed_lossy_by_packets<A: Allocator>(
    recoder: &mut Recoder,
    part: &[u8],
    sent: &mut Vec<u8, A>,
) -> Result<(), AllocError> {
    let mut packet = [0; 64];
    let mut rest = part;
    while !rest.is_empty() {
        let progress = recoder.feed_lossy_into(rest, &mut packet);
        sent.extend_from_slice(&packet[..progress.written])?;
        rest = &rest[progress.read..];
    }
    Ok(())
}

/// Writes what remains after the last part, and returns whether that is all.
pub fn send_lossy_end<A: Allocator>(
    recoder: &mut Recoder,
    sent: &mut Vec<u8, A>,
) -> Result<bool, AllocError>
    ensures { IfOk result (λ is_all. IsTrue is_all →
        sent.new.items ≡ lossy_outcome recoder.old sent.old.items []) }
{
    let mut packet = [0; 16];
    let progress = recoder.finish_lossy_into(&mut packet);
    sent.extend_from_slice(&packet[..progress.written])?;
    Ok(!progress.is_full)
}
