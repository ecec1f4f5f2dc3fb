//! What is counted in bytes that may be units of UTF-16.
ghost use Rattle.std.specs.Prelude.{◌≡◌, ◌+◌, ◌%◌, ◌≤◌, true, [], ◌∷◌, ◌++◌, List, ℕ, None, count_by, drop, length, take};
ghost use Rattle.surveys.specs.SurveyCounts.{number, wrapped};
ghost use Rattle.surveys.specs.SurveyOrdinary.{AreAll, AreOrdinary, is_after_ordinary, is_uncontrolled};
ghost use Rattle.surveys.specs.SurveyUnits.{AddsUnpaired, FeedsUnits, SeesUnit, SeesUnits, is_plain, is_stray, is_unpaired, no_units, units_from, unpaired_highs};
ghost use Rattle.utf_lanes.specs.BytePairs.{high_place, units_of};

use crate::ordinary::is_ordinary;
use crate::sums::{number, sum, whole};
use utf_base::elements::is_trailing_surrogate;
use utf_base::traits::U16UtfExt;
use utf_lanes::byte_order::ByteOrder;
use utf_lanes::byte_pairs::unit;

// The number of units that are counted in one loop: no more than a `u8` can count.
const BLOCK: usize = 192;

/// Counts of bytes as units of UTF-16 in one byte order, modulo 2^64.
#[repr(C)]
#[derive(Clone, Copy, Debug, PartialEq, Eq, Drop)]
pub struct UnitCounts {
    /// Units that occur in nearly every text: tab, LF, CR, U+0020 to U+007E, and the signs U+3001, U+3002 and U+FF0C.
    pub plain: u64,
    /// Units that do not occur in text: controls, U+FFFE and U+FFFF.
    pub stray: u64,
    /// Units of which the one before begins a pair and this one does not end it, or the other way round.
    pub unpaired: u64,
}

impl UnitCounts {
    /// Counts of nothing.
    pub(crate) fn new() -> UnitCounts
        ensures { result ≡ no_units }
    {
        UnitCounts {
            plain: 0,
            stray: 0,
            unpaired: 0,
        }
    }
}

/// The counts so far, the last unit, and an odd byte.
#[derive(Clone, Copy, Debug, Drop)]
pub struct UnitParts {
    pub(crate) counts: UnitCounts,
    pub(crate) before: u16,
    pub(crate) odd: Option<u8>,
}

impl UnitParts {
    /// No input so far.
    pub(crate) fn new() -> UnitParts
        ensures { result ≡ record { counts = no_units; before = 0; odd = None } }
    {
        UnitParts {
            counts: UnitCounts::new(),
            before: 0,
            odd: None,
        }
    }

    /// Takes the next part.
    pub(crate) fn feed<E: ByteOrder>(&mut self, part: &[u8])
        ensures { FeedsUnits E.HIGH_FIRST self.old part.now self.new }
    {
        if part.is_empty() {
            return;
        }
        match self.odd {
            None => self.feed_pairs::<E>(part),
            Some(first) => {
                self.odd = None;
                self.see(unit::<E>(first, part[0]));
                self.feed_pairs::<E>(&part[1..]);
            }
        }
    }

    /// Takes the next part, an even number of ordinary bytes: after the first of them, none adds to the counts.
    pub(crate) fn pass<E: ByteOrder>(&mut self, part: &[u8])
        requires some { 6 ≤ length part.now }
        requires even { length part.now % 2 ≡ 0 }
        requires ordinary { AreOrdinary part.now 0 (length part.now) }
        ensures { FeedsUnits E.HIGH_FIRST self.old part.now self.new }
    {
        self.feed::<E>(&part[..4]);
        if self.is_after_ordinary() {
            self.skip::<E>(&part[4..]);
        } else {
            self.feed::<E>(&part[4..]);
        }
    }

    /// Takes the next part, which begins with a unit, of bytes of which only unpaired units are counted: after the first
    /// unit so many.
    pub(crate) fn pass_unpaired<E: ByteOrder>(&mut self, part: &[u8], unpaired: u64)
        requires begins { self.old.odd ≡ None }
        requires some { 2 ≤ length part.now }
        requires even { length part.now % 2 ≡ 0 }
        requires class { AreAll is_uncontrolled part.now 0 (length part.now) }
        requires unpaired { unpaired ≡ unpaired_highs (drop (high_place E.HIGH_FIRST) part.now) }
        ensures { FeedsUnits E.HIGH_FIRST self.old part.now self.new }
    {
        self.see(unit::<E>(part[0], part[1]));
        self.counts.unpaired = sum(self.counts.unpaired, unpaired);
        self.before = unit::<E>(part[part.len() - 2], part[part.len() - 1]);
    }

    /// The counts if no more follows.
    pub(crate) fn counts(&self) -> UnitCounts
        ensures { result ≡ units_from self.now.counts self.now.before [] }
    {
        UnitCounts {
            plain: whole(self.counts.plain),
            stray: whole(self.counts.stray),
            unpaired: whole(self.counts.unpaired),
        }
    }

    // Skips the next part, an even number of ordinary bytes after others.
    fn skip<E: ByteOrder>(&mut self, part: &[u8])
        requires some { 2 ≤ length part.now }
        requires even { length part.now % 2 ≡ 0 }
        requires ordinary { AreOrdinary part.now 0 (length part.now) }
        requires after { is_after_ordinary self.old ≡ true }
        ensures { FeedsUnits E.HIGH_FIRST self.old part.now self.new }
    {
        match self.odd {
            None => {}
            Some(_) => self.odd = Some(part[part.len() - 1]),
        }
    }

    // Returns true if ordinary bytes may be skipped: the last unit begins no pair, and a byte after it is ordinary.
    #[tactic(auto, unfolding(crate::specs::SurveyOrdinary::is_after_ordinary))]
    fn is_after_ordinary(&self) -> bool
        ensures { result ≡ is_after_ordinary self.now }
    {
        if self.before.is_utf16_leading_surrogate() {
            return false;
        }
        match self.odd {
            None => true,
            Some(odd) => is_ordinary(odd),
        }
    }

    // Takes whole blocks of the next part, which begins with a unit. Returns their length in bytes.
    fn feed_blocks<E: ByteOrder>(&mut self, part: &[u8]) -> usize
        requires { self.old.odd ≡ None }
        ensures within { result ≤ length part.now }
        ensures odd { self.new.odd ≡ None }
        ensures feeds { FeedsUnits E.HIGH_FIRST self.old (take result part.now) self.new }
    {
        let mut place = 0;
        while 2 * BLOCK <= part.len() - place {
            self.see_block::<E>(&part[place..place + 2 * BLOCK]);
            place += 2 * BLOCK;
        }
        place
    }

    // Takes the next part, which begins with a unit.
    fn feed_pairs<E: ByteOrder>(&mut self, part: &[u8])
        requires { self.old.odd ≡ None }
        ensures { FeedsUnits E.HIGH_FIRST self.old part.now self.new }
    {
        let mut place = self.feed_blocks::<E>(part);
        while 2 <= part.len() - place {
            self.see(unit::<E>(part[place], part[place + 1]));
            place += 2;
        }
        if place < part.len() {
            self.odd = Some(part[place]);
        }
    }

    // Counts the units of the next block.
    #[inline(always)]
    fn see_block<E: ByteOrder>(&mut self, bytes: &[u8])
        requires { length bytes.now ≡ 384 }
        ensures counts { SeesUnits self.old (units_of E.HIGH_FIRST bytes.now) self.new }
        ensures odd { self.new.odd ≡ self.old.odd }
    {
        let block = block_counts::<E>(self.before, bytes);
        self.counts.plain = sum(self.counts.plain, block.plain as u64);
        self.counts.stray = sum(self.counts.stray, block.stray as u64);
        self.counts.unpaired = sum(self.counts.unpaired, block.unpaired as u64);
        self.before = block.last;
    }

    // Counts the next unit.
    #[inline(always)]
    fn see(&mut self, unit: u16)
        ensures counts { SeesUnit self.old unit self.new }
        ensures before { self.new.before ≡ unit }
        ensures odd { self.new.odd ≡ self.old.odd }
    {
        self.counts.plain = sum(self.counts.plain, number(is_plain(unit)));
        self.counts.stray = sum(self.counts.stray, number(is_stray(unit)));
        self.counts.unpaired = sum(self.counts.unpaired, number(is_unpaired(self.before, unit)));
        self.before = unit;
    }
}

// Counts of the units of a block, and the last of them.
#[derive(Clone, Copy, Drop)]
struct BlockCounts {
    plain: u8,
    stray: u8,
    unpaired: u8,
    last: u16,
}

// The counts of the units of a block, which follow a given one. The counters are `u8`, so the compiler tests many
// units in one instruction.
#[inline(always)]
fn block_counts<E: ByteOrder>(before: u16, bytes: &[u8]) -> BlockCounts
    requires { length bytes.now ≡ 384 }
    ensures plain { result.plain ≡ count_by is_plain (units_of E.HIGH_FIRST bytes.now) }
    ensures stray { result.stray ≡ count_by is_stray (units_of E.HIGH_FIRST bytes.now) }
    ensures unpaired { AddsUnpaired before (units_of E.HIGH_FIRST bytes.now) result.unpaired result.last }
{
    let mut plain = 0;
    let mut stray = 0;
    let mut unpaired = 0;
    let mut last = before;
    for k in 0..BLOCK {
        let unit = unit::<E>(bytes[2 * k], bytes[2 * k + 1]);
        plain += is_plain(unit) as u8;
        stray += is_stray(unit) as u8;
        unpaired += is_unpaired(last, unit) as u8;
        last = unit;
    }
    BlockCounts {
        plain,
        stray,
        unpaired,
        last,
    }
}

// Returns true if the unit occurs in nearly every text.
#[inline(always)]
#[tactic(auto, unfolding(crate::specs::SurveyUnits::is_plain))]
fn is_plain(unit: u16) -> bool
    ensures { result ≡ is_plain unit }
{
    0x20 <= unit && unit < 0x7f
        || unit == 9
        || unit == 10
        || unit == 13
        || unit == 0x3001
        || unit == 0x3002
        || unit == 0xff0c
}

// Returns true if the unit does not occur in text.
#[inline(always)]
#[tactic(auto, unfolding(crate::specs::SurveyUnits::is_stray))]
fn is_stray(unit: u16) -> bool
    ensures { result ≡ is_stray unit }
{
    unit < 7 || 14 <= unit && unit < 27 || 28 <= unit && unit < 32 || 0xfffe <= unit
}

// Returns true if only one of both is half of a pair: the first as its beginning, or the second as its end.
#[inline(always)]
#[tactic(auto, unfolding(crate::specs::SurveyUnits::is_unpaired))]
fn is_unpaired(before: u16, unit: u16) -> bool
    ensures { result ≡ is_unpaired before unit }
{
    if before.is_utf16_leading_surrogate() {
        !is_trailing_surrogate(unit)
    } else {
        is_trailing_surrogate(unit)
    }
}
