//! The chunk of a list in which an offset lies.
ghost use Rattle.std.specs.List.{concat};
ghost use Rattle.std.specs.Prelude.{◌≡◌, ◌+◌, ◌^◌, ◌<◌, ◌≤◌, length, take};
ghost use Rattle.text_buffers.specs.Chunks.{IsSpot};

use crate::buffers::chunks::Chunks;
use std::alloc::Allocator;

// A chunk by its number, and the offset where it begins. The number of chunks represents the end.
#[derive(Clone, Copy, Drop)]
pub struct Spot {
    pub number: usize,
    pub place: usize,
}

impl<A: Allocator + Copy> Chunks<A> {
    // The chunk that has the byte at this offset. If there is no such byte it is the last chunk, or the end
    // if there is no chunk.
    pub fn find(&self, at: usize) -> Spot
        ensures spot { IsSpot self.now result.number result.place }
        ensures before { result.place ≤ at }
        ensures some { 0 < length self.now → result.number < length self.now }
        ensures has { result.number + 1 < length self.now → at < length (concat (take (result.number + 1) self.now)) }
    {
        let mark = self.mark_at(at);
        Spot {
            number: mark.number,
            place: mark.before.bytes,
        }
    }

    // The first chunk from this one on that does not begin before the offset, or the end if there is none.
    pub fn find_end(&self, from: Spot, at: usize) -> Spot
        requires spot { IsSpot self.now from.number from.place }
        ensures spot { IsSpot self.now result.number result.place }
        ensures ordered { from.number ≤ result.number }
        ensures following { result.number < length self.now → at ≤ result.place }
    {
        let mut spot = from;
        while spot.number < self.len() && spot.place < at {
            spot.place += self.chunk(spot.number).len();
            spot.number += 1;
        }
        spot
    }
}
