//! The faults of a text in chunks, from an offset forward.
ghost use Rattle.std.specs.List.{concat};
ghost use Rattle.std.specs.Prelude.{◌≡◌, ◌^◌, ◌<◌, MatchOption, length};
ghost use Rattle.text_buffers.specs.TextLookups.{HasNoFaultFrom, IsNextFault};

use crate::buffers::chunk::Chunk;
use crate::buffers::chunks::Chunks;
use crate::buffers::rows::clean_row;
use crate::buffers::sums::ROW;
use std::alloc::Allocator;
use text_runs::boundaries::ceil;
use text_runs::runs::well_formed::valid_up_to;

impl<A: Allocator + Copy> Chunks<A> {
    // The first fault at this offset or after it. Rows and chunks that have none are not read.
    pub fn fault_from(&self, at: usize) -> Option<usize>
        ensures { MatchOption result (HasNoFaultFrom (concat self.now) at)
            (IsNextFault (concat self.now) at) }
    {
        let sums = self.sums();
        let mut spot = self.find(at);
        while spot.number < self.len() {
            if let Some(bytes) = clean_row(sums, spot.number) {
                spot.place += bytes;
                spot.number += ROW;
            } else {
                let chunk = self.chunk(spot.number);
                if let Some(place) = chunk_fault_from(chunk, at.saturating_sub(spot.place)) {
                    return Some(spot.place + place);
                }
                spot.place += chunk.len();
                spot.number += 1;
            }
        }
        None
    }
}

// The first fault of one chunk at this offset or after it.
fn chunk_fault_from<A: Allocator>(chunk: &Chunk<A>, at: usize) -> Option<usize>
    ensures { MatchOption result (HasNoFaultFrom chunk.now at) (IsNextFault chunk.now at) }
{
    if chunk.counts().faults == 0 {
        return None;
    }
    let bytes = chunk.bytes();
    let from = ceil(bytes, bytes.len().min(at));
    let place = from + valid_up_to(&bytes[from..]);
    if place == bytes.len() {
        return None;
    }
    Some(place)
}
