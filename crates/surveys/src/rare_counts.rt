//! What is counted in bytes besides UTF-8: 00, other controls, and units of UTF-16 in both byte orders. Ordinary text adds
//! nothing to these counts, so a few sums of its bytes are enough.
ghost use Rattle.std.specs.Prelude.{◌≡◌, ◌+◌, ◌%◌, ◌≤◌, IsTrue, None, drop, length, take};
ghost use Rattle.surveys.specs.SurveyOrdinary.{AreAll, AreOrdinary, is_uncontrolled};
ghost use Rattle.surveys.specs.SurveyRare.{FeedsRare};

use crate::ends::{control_count, nul_count};
use crate::ordinary::{BlockClass, Ordinary, Uncontrolled, class_end};
use crate::sums::sum;
use crate::unit_counts::UnitParts;
use crate::unpaired_counts::{BLOCK, unpaired_counts};
use utf_lanes::byte_order::{BigEndian, LittleEndian};

// The number of bytes that are counted from a block on that is not ordinary: whole blocks of units, also if the first byte
// is the second one of a unit.
const REACH: usize = 3074;

/// The counts so far.
#[derive(Clone, Copy, Debug, Drop)]
pub struct RareCounts {
    pub(crate) nul: u64,
    pub(crate) control: u64,
    pub(crate) utf16le: UnitParts,
    pub(crate) utf16be: UnitParts,
}

impl RareCounts {
    /// Takes the next part.
    pub(crate) fn feed(&mut self, part: &[u8])
        ensures { FeedsRare self.old part.now self.new }
    {
        let mut place = 0;
        while place < part.len() {
            let end = class_end::<Ordinary>(part, place);
            if place < end {
                self.pass(&part[place..end]);
                place = end;
            } else if self.is_between_units() && has_uncontrolled(part, place) {
                self.pass_unpaired(&part[place..place + BLOCK]);
                place += BLOCK;
            } else {
                let len = REACH.min(part.len() - place);
                self.see(&part[place..place + len]);
                place += len;
            }
        }
    }

    // Takes a part of ordinary bytes.
    fn pass(&mut self, part: &[u8])
        requires some { 6 ≤ length part.now }
        requires even { length part.now % 2 ≡ 0 }
        requires ordinary { AreOrdinary part.now 0 (length part.now) }
        ensures { FeedsRare self.old part.now self.new }
    {
        self.utf16le.pass::<LittleEndian>(part);
        self.utf16be.pass::<BigEndian>(part);
    }

    // Takes a part of bytes of which only unpaired units are counted.
    fn pass_unpaired(&mut self, part: &[u8])
        requires le { self.old.utf16le.odd ≡ None }
        requires be { self.old.utf16be.odd ≡ None }
        requires block { length part.now ≡ 3074 }
        requires class { AreAll is_uncontrolled part.now 0 (length part.now) }
        ensures { FeedsRare self.old part.now self.new }
    {
        let unpaired = unpaired_counts(part);
        self.utf16le
            .pass_unpaired::<LittleEndian>(part, unpaired.low_first);
        self.utf16be
            .pass_unpaired::<BigEndian>(part, unpaired.high_first);
    }

    // Returns true if the next byte begins a unit.
    fn is_between_units(&self) -> bool
        ensures le { IsTrue result → self.now.utf16le.odd ≡ None }
        ensures be { IsTrue result → self.now.utf16be.odd ≡ None }
    {
        self.utf16le.odd.is_none() && self.utf16be.odd.is_none()
    }

    // Takes a part of any bytes.
    fn see(&mut self, part: &[u8])
        ensures { FeedsRare self.old part.now self.new }
    {
        self.nul = sum(self.nul, nul_count(part) as u64);
        self.control = sum(self.control, control_count(part) as u64);
        self.utf16le.feed::<LittleEndian>(part);
        self.utf16be.feed::<BigEndian>(part);
    }
}

// Returns true if of the next block only unpaired units are counted.
fn has_uncontrolled(bytes: &[u8], place: usize) -> bool
    requires { place ≤ length bytes.now }
    ensures within { IsTrue result → place + 3074 ≤ length bytes.now }
    ensures class { IsTrue result → AreAll is_uncontrolled (take 3074 (drop place bytes.now)) 0 3074 }
{
    BLOCK <= bytes.len() - place && Uncontrolled::has_all(&bytes[place..place + BLOCK])
}
