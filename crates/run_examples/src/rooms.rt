//! Transcoding by way of a buffer of a fixed size, as for a socket that sends packets.
ghost use Rattle.std.specs.Prelude.{◌≡◌, [], IfOk, IsTrue, take};
ghost use Rattle.cuts.specs.RecodedBytes.{KeepsOutcome, outcome};

use cuts::Recoder;
use std::alloc::{AllocError, Allocator};

/// Feeds all of a part by way of a packet, and appends its contents each time it is full.
pub fn feed_by_packets<A: Allocator>(
    recoder: &mut Recoder,
    part: &[u8],
    sent: &mut Vec<u8, A>,
) -> Result<(), AllocError> {
    let mut packet = [0; 64];
    let mut rest = part;
    while !rest.is_empty() {
        let progress = recoder.feed_into(rest, &mut packet);
        sent.extend_from_slice(&packet[..progress.written])?;
        rest = &rest[progress.read..];
    }
    Ok(())
}

/// The number of calls, with capacity for one character each, that it takes to feed a part.
pub fn count_calls(recoder: &mut Recoder, part: &[u8]) -> usize {
    let mut room = [0; 4];
    let mut place = 0;
    let mut calls: usize = 0;
    while place < part.len() {
        place += recoder.feed_into(&part[place..], &mut room).read;
        calls = calls.saturating_add(1);
    }
    calls
}

/// Fills one packet from the part, and returns how many bytes of the part that took.
pub fn feed_packet<A: Allocator>(
    recoder: &mut Recoder,
    part: &[u8],
    sent: &mut Vec<u8, A>,
) -> Result<usize, AllocError>
    ensures { IfOk result (λ read.
        KeepsOutcome recoder.old sent.old.items (take read part.now) sent.new.items recoder.new) }
{
    let mut packet = [0; 32];
    let progress = recoder.feed_into(part, &mut packet);
    sent.extend_from_slice(&packet[..progress.written])?;
    Ok(progress.read)
}

/// Writes what remains after the last part, and returns whether that is all.
pub fn send_end<A: Allocator>(
    recoder: &mut Recoder,
    sent: &mut Vec<u8, A>,
) -> Result<bool, AllocError>
    ensures { IfOk result (λ is_all. IsTrue is_all → sent.new.items ≡ outcome recoder.old sent.old.items []) }
{
    let mut packet = [0; 16];
    let progress = recoder.finish_into(&mut packet);
    sent.extend_from_slice(&packet[..progress.written])?;
    Ok(!progress.is_full)
}
