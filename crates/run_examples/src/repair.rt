//! Text that is UTF-8 but for bytes of another encoding.
ghost use Rattle.std.specs.Prelude.{◌≡◌, [], IfOk, IsFalse, IsTrue, take};
ghost use Rattle.cuts.specs.Repaired.{KeepsRepaired, repaired_outcome};

use cuts::{Recoder, Repair};
use std::alloc::{AllocError, Allocator};

/// Fills one packet from the part, with what the table has for invalid bytes, and returns how many bytes of the part
/// that took.
pub fn feed_repaired_packet<A: Allocator>(
    recoder: &mut Recoder,
    part: &[u8],
    repair: Repair<'_>,
    sent: &mut Vec<u8, A>,
) -> Result<usize, AllocError>
    ensures { IfOk result (λ read. KeepsRepaired repair.entry.chars.now recoder.old sent.old.items
        (take read part.now) sent.new.items recoder.new) }
{
    let mut packet = [0; 32];
    let progress = recoder.feed_repaired_into(part, &mut packet, repair);
    sent.extend_from_slice(&packet[..progress.written])?;
    Ok(progress.read)
}

/// Feeds all of a part by way of a packet, and appends its contents each time it is full.
pub fn feed_repaired_by_packets<A: Allocator>(
    recoder: &mut Recoder,
    part: &[u8],
    repair: Repair<'_>,
    sent: &mut Vec<u8, A>,
) -> Result<(), AllocError> {
    let mut packet = [0; 64];
    let mut rest = part;
    while !rest.is_empty() {
        let progress = recoder.feed_repaired_into(rest, &mut packet, repair);
        sent.extend_from_slice(&packet[..progress.written])?;
        rest = &rest[progress.read..];
    }
    Ok(())
}

/// Writes what remains after the last part, and returns whether that is all.
pub fn send_repaired_end<A: Allocator>(
    recoder: &mut Recoder,
    repair: Repair<'_>,
    sent: &mut Vec<u8, A>,
) -> Result<bool, AllocError>
    ensures { IfOk result (λ is_all. IsTrue is_all →
        sent.new.items ≡ repaired_outcome repair.entry.chars.now recoder.old sent.old.items []) }
{
    let mut packet = [0; 16];
    let progress = recoder.finish_repaired_into(&mut packet, repair);
    sent.extend_from_slice(&packet[..progress.written])?;
    Ok(!progress.is_full)
}
