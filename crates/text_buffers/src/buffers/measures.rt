//! The numbered elements of a text, and the chunk that has the one with a number.
ghost use Rattle.std.specs.List.{concat};
ghost use Rattle.std.specs.Prelude.{◌≡◌, ◌^◌, ◌<◌, ◌≤◌, MatchOption, length};
ghost use Rattle.text_buffers.specs.Counts.{counts_of};
ghost use Rattle.text_buffers.specs.Measures.{measure_of, HasNumber};

use crate::buffers::chunks::Chunks;
use crate::buffers::counts::Measure;
use crate::buffers::spots::Spot;
use std::alloc::Allocator;

// A chunk, and the number of elements before it.
#[derive(Clone, Copy, Drop)]
pub struct Found {
    pub spot: Spot,
    pub before: usize,
}

impl<A: Allocator + Copy> Chunks<A> {
    // The chunk that has the element with this number. `None` if there are no more of them.
    pub fn find_number(&self, measure: Measure, number: usize) -> Option<Found>
        ensures { MatchOption result (measure_of measure (counts_of (concat self.now)) ≤ number)
            (HasNumber self.now measure number) }
    {
        let mark = self.skip(measure, number);
        let mut found = Found {
            spot: Spot {
                number: mark.number,
                place: mark.before.bytes,
            },
            before: measure.count(mark.before),
        };
        while found.spot.number < self.len() {
            let chunk = self.chunk(found.spot.number);
            let count = measure.count(chunk.counts());
            if number - found.before < count {
                return Some(found);
            }
            found.before += count;
            found.spot.place += chunk.len();
            found.spot.number += 1;
        }
        None
    }
}
