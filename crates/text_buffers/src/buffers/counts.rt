//! The counts of a text: bytes, pieces, faults and line feeds.
ghost use Rattle.std.specs.Prelude.{◌≡◌, ◌<◌, length};
ghost use Rattle.text_buffers.specs.Counts.{counts_of, sum_of, exchange_of, IsSmall, AreAmong};
ghost use Rattle.text_buffers.specs.Measures.{measure_of};
ghost use Rattle.text_runs.specs.ShardRuns.{line_feed_count as feed_count};

use text_runs::runs::steps::{COUNTED, next_step, piece_step};

// The number of bytes that are compared in one loop: no more than a `u8` can count.
const PART: usize = 128;

// Fewer bytes than this are decoded one by one, as mostly those around an edit: block validation would take
// longer.
const FEW: usize = 32;

/// The numbers of bytes, characters, invalid bytes and line feeds in some bytes.
#[derive(Clone, Copy, Debug, PartialEq, Eq, Drop)]
pub struct Counts {
    /// The bytes.
    pub bytes: usize,
    /// The pieces: each character is one, and so is each invalid byte.
    pub pieces: usize,
    /// The invalid bytes.
    pub faults: usize,
    /// The line feeds.
    pub line_feeds: usize,
}

impl Counts {
    /// The counts of some bytes.
    ///
    /// Cost: O(n).
    pub fn of(bytes: &[u8]) -> Counts
        ensures { result ≡ counts_of bytes.now }
    {
        if bytes.len() < FEW {
            return few_counts(bytes);
        }
        let mut place = 0;
        let mut pieces = 0;
        let mut faults = 0;
        while place < bytes.len() {
            let step = next_step(&bytes[place..], COUNTED);
            place += step.len;
            pieces += step.pieces;
            faults += step.faults;
        }
        Counts {
            bytes: bytes.len(),
            pieces,
            faults,
            line_feeds: line_feed_count(bytes),
        }
    }

    // The counts of two parts together.
    pub(crate) fn plus(self, other: Counts) -> Counts
        requires { IsSmall (sum_of self other) }
        ensures { result ≡ sum_of self other }
    {
        Counts {
            bytes: self.bytes + other.bytes,
            pieces: self.pieces + other.pieces,
            faults: self.faults + other.faults,
            line_feeds: self.line_feeds + other.line_feeds,
        }
    }

    // The counts of a whole after one part replaced another.
    pub(crate) fn exchange(self, gone: Counts, come: Counts) -> Counts
        requires part { AreAmong gone self }
        requires small { IsSmall (exchange_of self gone come) }
        ensures { result ≡ exchange_of self gone come }
    {
        Counts {
            bytes: self.bytes - gone.bytes + come.bytes,
            pieces: self.pieces - gone.pieces + come.pieces,
            faults: self.faults - gone.faults + come.faults,
            line_feeds: self.line_feeds - gone.line_feeds + come.line_feeds,
        }
    }
}

// The elements of a text that have numbers, from 0 on.
#[derive(Clone, Copy, Drop)]
pub(crate) enum Measure {
    Bytes,
    Pieces,
    LineFeeds,
}

impl Measure {
    // The number of these elements.
    pub(crate) fn count(self, counts: Counts) -> usize
        ensures { result ≡ measure_of self counts }
    {
        match self {
            Measure::Bytes => counts.bytes,
            Measure::Pieces => counts.pieces,
            Measure::LineFeeds => counts.line_feeds,
        }
    }
}

// The counts of a few bytes.
fn few_counts(bytes: &[u8]) -> Counts
    requires { length bytes.now < 32 }
    ensures { result ≡ counts_of bytes.now }
{
    let mut place = 0;
    let mut pieces = 0;
    let mut faults = 0;
    while place < bytes.len() {
        let step = piece_step(&bytes[place..]);
        place += step.len;
        pieces += step.pieces;
        faults += step.faults;
    }
    Counts {
        bytes: bytes.len(),
        pieces,
        faults,
        line_feeds: part_feeds(bytes) as usize,
    }
}

// The number of line feeds in the bytes.
pub(crate) fn line_feed_count(bytes: &[u8]) -> usize
    ensures { result ≡ feed_count bytes.now }
{
    let mut place = 0;
    let mut feeds = 0;
    while PART <= bytes.len() - place {
        feeds += part_feeds(&bytes[place..place + PART]) as usize;
        place += PART;
    }
    feeds + part_feeds(&bytes[place..]) as usize
}

// The number of line feeds in at most `PART` bytes. The counter is a `u8`, so the compiler compares and adds
// sixteen of them in one instruction.
#[inline(always)]
fn part_feeds(bytes: &[u8]) -> u8
    requires { length bytes.now < 256 }
    ensures { result ≡ feed_count bytes.now }
{
    let mut feeds = 0;
    for byte in bytes {
        if *byte == b'\n' {
            feeds += 1;
        }
    }
    feeds
}
