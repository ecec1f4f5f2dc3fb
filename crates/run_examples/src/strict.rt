//! Strict transcoding by way of a buffer of a fixed size.
ghost use Rattle.std.specs.Prelude.{IfSome};
ghost use Rattle.cuts.specs.WellFormed.{IsFirstFault, IsFirstFaultOf};
ghost use Rattle.encode_unicode.specs.Code.{utf8};

use cuts::{FaultKind, Form, Outcome, Recoder};
use std::alloc::{AllocError, Allocator};

/// Feeds a part by way of a packet, and appends its contents each time, up to the first invalid byte. Returns
/// that byte's offset among all bytes that were read, of which `total` were read before, and its kind.
pub fn feed_strictly<A: Allocator>(
    recoder: &mut Recoder,
    part: &[u8],
    total: &mut u64,
    sent: &mut Vec<u8, A>,
) -> Result<Option<(u64, FaultKind)>, AllocError> {
    let mut packet = [0; 64];
    let mut rest = part;
    while !rest.is_empty() {
        let progress = recoder.feed_strict_into(rest, &mut packet);
        sent.extend_from_slice(&packet[..progress.written])?;
        *total = total.saturating_add(progress.read as u64);
        rest = &rest[progress.read..];
        if let Outcome::Faulty(fault) = progress.outcome {
            return Ok(Some((total.saturating_sub(fault.back as u64), fault.kind)));
        }
    }
    Ok(None)
}

/// Ends the input, and appends the transcoded carried-over bytes. Returns the offset of the first invalid
/// byte among them, in an input of `total` bytes, and its kind.
pub fn finish_strictly<A: Allocator>(
    recoder: &mut Recoder,
    total: u64,
    sent: &mut Vec<u8, A>,
) -> Result<Option<(u64, FaultKind)>, AllocError> {
    let mut packet = [0; 16];
    let progress = recoder.finish_strict_into(&mut packet);
    sent.extend_from_slice(&packet[..progress.written])?;
    match progress.outcome {
        Outcome::Faulty(fault) => Ok(Some((total.saturating_sub(fault.back as u64), fault.kind))),
        _ => Ok(None),
    }
}

/// The offset of the first invalid byte that a strict call reports, as a validator gives it; `None` if it reports
/// none.
pub fn told_fault(from: Form, bytes: &[u8], room: &mut [u8]) -> Option<usize>
    ensures { IfSome result (λ place. IsFirstFaultOf from bytes.now place) }
{
    let mut recoder = Recoder::new(from, Form::Utf8);
    let progress = recoder.feed_strict_into(bytes, room);
    match progress.outcome {
        Outcome::Faulty(fault) => Some(progress.read - fault.back),
        _ => None,
    }
}

/// The offset of the first invalid byte, or the length if there is none; `None` if the buffer is too small.
pub fn valid_len(bytes: &[u8], room: &mut [u8]) -> Option<usize>
    ensures { IfSome result (λ place. IsFirstFault utf8 bytes.now place) }
{
    let mut recoder = Recoder::new(Form::Utf8, Form::Utf8);
    let progress = recoder.feed_strict_into(bytes, room);
    match progress.outcome {
        Outcome::Faulty(fault) => Some(progress.read - fault.back),
        Outcome::Full => None,
        Outcome::AllRead => match recoder.finish_strict_into(room).outcome {
            Outcome::Faulty(fault) => Some(bytes.len() - fault.back),
            Outcome::Full => None,
            Outcome::AllRead => Some(bytes.len()),
        },
    }
}
