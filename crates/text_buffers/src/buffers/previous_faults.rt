//! The faults of a text in chunks, from an offset backward.
ghost use Rattle.std.specs.List.{concat};
ghost use Rattle.std.specs.Prelude.{◌≡◌, ◌-◌, ◌^◌, ◌<◌, ◌≤◌, IfSome, MatchOption, length};
ghost use Rattle.text_buffers.specs.Rows.{HasNoCleanRow, IsCleanRow};
ghost use Rattle.text_buffers.specs.TextLookups.{HasNoFaultBefore, IsPreviousFault};

use crate::buffers::chunk::Chunk;
use crate::buffers::chunks::Chunks;
use crate::buffers::counts::Counts;
use crate::buffers::rows::clean_row;
use crate::buffers::sums::ROW;
use encode_unicode::Utf8Char;
use std::alloc::Allocator;
use text_runs::boundaries::ceil;

impl<A: Allocator + Copy> Chunks<A> {
    // The last fault before this offset. Rows and chunks that have none are not read.
    pub fn fault_before(&self, at: usize) -> Option<usize>
        ensures { MatchOption result (HasNoFaultBefore (concat self.now) at)
            (IsPreviousFault (concat self.now) at) }
    {
        let sums = self.sums();
        let mut spot = self.find_end(self.find(at), at);
        while 0 < spot.number {
            if let Some(bytes) = clean_row_before(sums, spot.number) {
                spot.place -= bytes;
                spot.number -= ROW;
            } else {
                let chunk = self.chunk(spot.number - 1);
                spot.number -= 1;
                spot.place -= chunk.len();
                if let Some(place) = chunk_fault_before(chunk, at.saturating_sub(spot.place)) {
                    return Some(spot.place + place);
                }
            }
        }
        None
    }
}

// The length in bytes of the row that ends before this chunk, if one does and has no fault.
fn clean_row_before(sums: &[Counts], number: usize) -> Option<usize>
    ensures row { MatchOption result (256 ≤ number → HasNoCleanRow sums.now (number - 256))
        (IsCleanRow sums.now (number - 256)) }
    ensures some { IfSome result (λ bytes. 256 ≤ number) }
{
    if number < ROW {
        return None;
    }
    clean_row(sums, number - ROW)
}

// The last fault of one chunk before this offset.
fn chunk_fault_before<A: Allocator>(chunk: &Chunk<A>, at: usize) -> Option<usize>
    ensures { MatchOption result (HasNoFaultBefore chunk.now at) (IsPreviousFault chunk.now at) }
{
    if chunk.counts().faults == 0 {
        return None;
    }
    let bytes = chunk.bytes();
    last_fault(&bytes[..ceil(bytes, bytes.len().min(at))])
}

// The last fault of some bytes.
fn last_fault(bytes: &[u8]) -> Option<usize>
    ensures { MatchOption result (HasNoFaultBefore bytes.now (length bytes.now))
        (IsPreviousFault bytes.now (length bytes.now)) }
{
    let mut end = bytes.len();
    while 0 < end {
        match Utf8Char::from_slice_end(&bytes[..end]) {
            Ok((_, len)) => end -= len,
            Err(_) => return Some(end - 1),
        }
    }
    None
}
