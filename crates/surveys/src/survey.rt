//! A survey of an input, also of one that comes in parts.
ghost use Rattle.std.specs.Prelude.{◌≤◌, length};

use crate::ends::{first_four, head_len, tail_len};
use crate::few_bytes::FewBytes;
use crate::ordinary::{OrdinaryAscii, class_end};
use crate::rare_counts::RareCounts;
use crate::sums::{sum, whole};
use crate::unit_counts::{UnitCounts, UnitParts};
use crate::utf8_counts::Utf8Counts;
use crate::utf8_parts::Utf8Parts;
use utf_lanes::byte_order::{BigEndian, LittleEndian};

// The greatest number of bytes that are counted in one way before they are counted in the next: a CPU has them in a near
// cache.
const PART: usize = 131072;

/// What was counted in an input. Counts are modulo 2^64.
#[repr(C)]
#[derive(Clone, Copy, Debug, PartialEq, Eq, Drop)]
pub struct Survey {
    /// The length of the input in bytes.
    pub len: u64,
    /// Bytes that are 00.
    pub nul: u64,
    /// Controls that do not occur in text: 01 to 06, 0E to 1A, and 1C to 1F.
    pub control: u64,
    /// Counts of the bytes as UTF-8.
    pub utf8: Utf8Counts,
    /// Counts of the bytes as units, low byte first.
    pub utf16le: UnitCounts,
    /// Counts of the bytes as units, high byte first.
    pub utf16be: UnitCounts,
    /// The first four bytes, with zeros for those that are missing.
    pub front: [u8; 4],
    /// Continuation bytes before any other byte, at most three.
    pub head: u8,
    /// Bytes at the end, at most three, that begin a character whose other bytes are missing.
    pub tail: u8,
}

/// Surveys an input that comes in parts, which may be cut anywhere. It does not allocate.
#[derive(Debug, Drop)]
pub struct Surveyor {
    pub(crate) len: u64,
    pub(crate) front: FewBytes,
    pub(crate) nul: u64,
    pub(crate) control: u64,
    pub(crate) utf8: Utf8Parts,
    pub(crate) utf16le: UnitParts,
    pub(crate) utf16be: UnitParts,
    ghost short: { length front ≤ 4 },
    ghost some: { 3 ≤ length utf8.held },
    ghost few: { length utf8.held ≤ 16 },
}

impl Surveyor {
    ghost use Rattle.std.specs.Prelude.{◌≡◌, ◌+◌, ◌%◌, ◌++◌, ℕ, List, [], take};
    ghost use Rattle.surveys.specs.SurveyCounts.{wrapped};
    ghost use Rattle.surveys.specs.SurveyOrdinary.{AreAll, is_ordinary_ascii};
    ghost use Rattle.surveys.specs.Surveys.{Surveys, foreseen, surveyed};

    /// A surveyor of an input of which nothing was fed.
    pub fn new() -> Surveyor
        ensures { (later : List ℕ) → foreseen result later ≡ surveyed later }
    {
        Surveyor {
            len: 0,
            front: FewBytes::new(),
            nul: 0,
            control: 0,
            utf8: Utf8Parts::new(),
            utf16le: UnitParts::new(),
            utf16be: UnitParts::new(),
        }
    }

    /// Takes the next part of the input.
    ///
    /// Cost: O(n).
    pub fn feed(&mut self, part: &[u8])
        ensures { Surveys self.old part.now self.new }
    {
        let mut place = 0;
        while place < part.len() {
            let end = class_end::<OrdinaryAscii>(part, place);
            if place < end {
                self.pass(&part[place..end]);
                place = end;
            } else {
                let len = PART.min(part.len() - place);
                self.see(&part[place..place + len]);
                place += len;
            }
        }
    }

    // Takes the next part, of ordinary ASCII.
    fn pass(&mut self, part: &[u8])
        requires some { 16 ≤ length part.now }
        requires even { length part.now % 2 ≡ 0 }
        requires class { AreAll is_ordinary_ascii part.now 0 (length part.now) }
        ensures { Surveys self.old part.now self.new }
    {
        self.len = self.len_with(part);
        self.front = self.front_with(part);
        self.utf8.pass(part);
        self.utf16le.pass::<LittleEndian>(part);
        self.utf16be.pass::<BigEndian>(part);
    }

    // Takes the next part, of any bytes.
    fn see(&mut self, part: &[u8])
        ensures { Surveys self.old part.now self.new }
    {
        self.len = self.len_with(part);
        self.front = self.front_with(part);
        self.utf8.feed(part);
        let mut rare = RareCounts {
            nul: self.nul,
            control: self.control,
            utf16le: self.utf16le,
            utf16be: self.utf16be,
        };
        rare.feed(part);
        self.nul = rare.nul;
        self.control = rare.control;
        self.utf16le = rare.utf16le;
        self.utf16be = rare.utf16be;
    }

    // The length of the input with the next part.
    fn len_with(&self, part: &[u8]) -> u64
        ensures { result ≡ wrapped (self.now.len + length part.now) }
    {
        sum(self.len, part.len() as u64)
    }

    // The first four bytes of the input with the next part.
    fn front_with(&self, part: &[u8]) -> FewBytes
        ensures { result ≡ take 4 (self.now.front ++ part.now) }
    {
        let front = FewBytes::joined(self.front.bytes(), &part[..part.len().min(4)]);
        FewBytes::first(front.bytes())
    }

    /// The survey of what was fed so far. More may be fed afterwards.
    ///
    /// Cost: constant.
    pub fn survey(&self) -> Survey
        ensures { result ≡ foreseen self.now [] }
    {
        let front = first_four(self.front.bytes());
        let held = self.utf8.held.bytes();
        Survey {
            len: whole(self.len),
            nul: whole(self.nul),
            control: whole(self.control),
            utf8: self.utf8.counts(),
            utf16le: self.utf16le.counts(),
            utf16be: self.utf16be.counts(),
            front,
            head: head_len(&front) as u8,
            tail: tail_len(&held[held.len() - 3..]) as u8,
        }
    }
}
