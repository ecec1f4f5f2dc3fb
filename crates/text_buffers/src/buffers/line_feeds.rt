//! The line feeds of a text in chunks.
ghost use Rattle.std.specs.List.{concat};
ghost use Rattle.std.specs.Prelude.{◌≡◌, ◌+◌, ◌^◌, ◌<◌, ◌≤◌, MatchOption, length, take};
ghost use Rattle.text_runs.specs.ShardRuns.{line_feed_count as feed_count};
ghost use Rattle.text_buffers.specs.TextLookups.{IsLineStart};

use crate::buffers::chunks::Chunks;
use crate::buffers::counts::{Measure, line_feed_count};
use std::alloc::Allocator;

impl<A: Allocator + Copy> Chunks<A> {
    // The number of line feeds before this offset.
    pub fn feeds_before(&self, at: usize) -> usize
        ensures { result ≡ feed_count (take at (concat self.now)) }
    {
        let mark = self.mark_at(at);
        if mark.number == self.len() {
            return 0;
        }
        let bytes = self.chunk(mark.number).bytes();
        let front = &bytes[..bytes.len().min(at - mark.before.bytes)];
        mark.before.line_feeds + line_feed_count(front)
    }

    // The offset where the line with this number begins. `None` if there are too few line feeds.
    pub fn line_start(&self, line: usize) -> Option<usize>
        ensures { MatchOption result (feed_count (concat self.now) < line)
            (IsLineStart (concat self.now) line) }
    {
        if line == 0 {
            return Some(0);
        }
        let found = self.find_number(Measure::LineFeeds, line - 1)?;
        let bytes = self.chunk(found.spot.number).bytes();
        let end = feed_end(bytes, line - 1 - found.before)?;
        Some(found.spot.place + end)
    }
}

// The offset after the line feed that has `before` others before it.
fn feed_end(bytes: &[u8], before: usize) -> Option<usize>
    ensures { MatchOption result (feed_count bytes.now ≤ before) (IsLineStart bytes.now (before + 1)) }
{
    let mut left = before;
    for place in 0..bytes.len() {
        if bytes[place] == b'\n' {
            if left == 0 {
                return Some(place + 1);
            }
            left -= 1;
        }
    }
    None
}
