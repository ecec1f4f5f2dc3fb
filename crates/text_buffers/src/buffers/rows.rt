//! Rows of 256 chunks with their counts: a search iterates over rows, and then over the chunks of one of them.
ghost use Rattle.std.specs.List.{concat};
ghost use Rattle.std.specs.Prelude.{◌+◌, ◌<◌, ◌≤◌, MatchOption, length, take};
ghost use Rattle.text_buffers.specs.Chunks.{IsSpot};
ghost use Rattle.text_buffers.specs.Measures.{measure_of, IsNear};
ghost use Rattle.text_buffers.specs.Rows.{HasNoCleanRow, IsMark, IsCleanRow};

use crate::buffers::chunks::Chunks;
use crate::buffers::counts::{Counts, Measure};
use crate::buffers::sums::ROW;
use std::alloc::Allocator;

// A chunk by its number, and the counts of the chunks before it.
#[derive(Clone, Copy, Drop)]
pub struct Mark {
    pub number: usize,
    pub before: Counts,
}

impl<A: Allocator + Copy> Chunks<A> {
    // The row that has the element with this number, or the last. It is represented by its first chunk.
    pub fn skip(&self, measure: Measure, number: usize) -> Mark
        ensures mark { IsMark self.now result }
        ensures before { measure_of measure result.before ≤ number }
        ensures some { 0 < length self.now → result.number < length self.now }
        ensures near { IsNear self.now measure number result.number }
    {
        let mut mark = Mark {
            number: 0,
            before: Counts::of(&[]),
        };
        for sum in self.sums() {
            if self.len() - mark.number <= ROW {
                return mark;
            }
            let here = number - measure.count(mark.before);
            if here < measure.count(*sum) {
                return mark;
            }
            mark.before = mark.before.plus(*sum);
            mark.number += ROW;
        }
        mark
    }

    // The chunk that has the byte at this offset. If there is no such byte it is the last chunk, or the end
    // if there is no chunk.
    pub fn mark_at(&self, at: usize) -> Mark
        ensures mark { IsMark self.now result }
        ensures spot { IsSpot self.now result.number result.before.bytes }
        ensures before { result.before.bytes ≤ at }
        ensures some { 0 < length self.now → result.number < length self.now }
        ensures has { result.number + 1 < length self.now → at < length (concat (take (result.number + 1) self.now)) }
    {
        self.mark_from(self.skip(Measure::Bytes, at), at)
    }

    // The chunk that has the byte at this offset, searched from a chunk on that does not begin after it.
    pub fn mark_from(&self, from: Mark, at: usize) -> Mark
        requires mark { IsMark self.now from }
        requires before { from.before.bytes ≤ at }
        ensures mark { IsMark self.now result }
        ensures spot { IsSpot self.now result.number result.before.bytes }
        ensures before { result.before.bytes ≤ at }
        ensures some { from.number < length self.now → result.number < length self.now }
        ensures has { result.number + 1 < length self.now → at < length (concat (take (result.number + 1) self.now)) }
    {
        let last = self.len().saturating_sub(1);
        let mut mark = from;
        while mark.number < last {
            let counts = self.chunk(mark.number).counts();
            if at - mark.before.bytes < counts.bytes {
                return mark;
            }
            mark.before = mark.before.plus(counts);
            mark.number += 1;
        }
        mark
    }
}

// The length in bytes of the row that begins with this chunk, if one does and has no fault.
pub fn clean_row(sums: &[Counts], number: usize) -> Option<usize>
    ensures { MatchOption result (HasNoCleanRow sums.now number) (IsCleanRow sums.now number) }
{
    if number % ROW != 0 || sums.len() <= number / ROW {
        return None;
    }
    let sum = sums[number / ROW];
    if sum.faults != 0 {
        return None;
    }
    Some(sum.bytes)
}
