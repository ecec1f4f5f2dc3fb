//! What is kept of a survey that goes on later, in memory whose layout is that of C.
ghost use Rattle.std.specs.Prelude.{◌≡◌, ◌≤◌, true, length, take, List, ℕ};
ghost use Rattle.surveys.specs.SurveyorStates.{IsSurveyor, foreseen_of_state, units_of_state};
ghost use Rattle.surveys.specs.Surveys.{foreseen};

use crate::few_bytes::FewBytes;
use crate::survey::Surveyor;
use crate::unit_counts::{UnitCounts, UnitParts};
use crate::utf8_counts::Utf8Counts;
use crate::utf8_parts::Utf8Parts;

/// Units of one byte order so far.
#[repr(C)]
#[derive(Clone, Copy, Debug, Drop)]
pub struct UnitState {
    /// Their counts.
    pub counts: UnitCounts,
    /// The last unit, or 0 if there is none.
    pub before: u16,
    /// The byte after the last unit, or 0 if there is none.
    pub odd: u8,
    /// The number of bytes after the last unit, at most one.
    pub odd_count: u8,
}

/// A surveyor between two parts.
#[repr(C)]
#[derive(Clone, Copy, Debug, Drop)]
pub struct SurveyorState {
    /// The length of the input so far in bytes, modulo 2^64.
    pub len: u64,
    /// Bytes that are 00.
    pub nul: u64,
    /// Controls that do not occur in text.
    pub control: u64,
    /// Counts of the windows so far.
    pub utf8: Utf8Counts,
    /// Units so far, low byte first.
    pub utf16le: UnitState,
    /// Units so far, high byte first.
    pub utf16be: UnitState,
    /// The first bytes, followed by unused ones.
    pub front: [u8; 4],
    /// The last bytes, followed by unused ones.
    pub held: [u8; 16],
    /// The number of first bytes.
    pub front_count: u8,
    /// The number of last bytes, at least three: zeros stand for those before the input.
    pub held_count: u8,
}

impl UnitState {
    // What is kept of the units.
    fn of(parts: &UnitParts) -> UnitState
        ensures { units_of_state result ≡ parts.now }
    {
        match parts.odd {
            Some(odd) => UnitState {
                counts: parts.counts,
                before: parts.before,
                odd,
                odd_count: 1,
            },
            None => UnitState {
                counts: parts.counts,
                before: parts.before,
                odd: 0,
                odd_count: 0,
            },
        }
    }

    // The units of which this is kept.
    fn parts(&self) -> UnitParts
        ensures { result ≡ units_of_state self.now }
    {
        UnitParts {
            counts: self.counts,
            before: self.before,
            odd: if self.odd_count == 0 {
                None
            } else {
                Some(self.odd)
            },
        }
    }
}

impl SurveyorState {
    /// Returns true if the state is one that a surveyor leaves.
    pub fn is_surveyor(&self) -> bool
        ensures yes { result ≡ true → IsSurveyor self.now }
        ensures no { IsSurveyor self.now → result ≡ true }
    {
        self.front_count <= 4 && 3 <= self.held_count && self.held_count <= 16
    }
}

impl Surveyor {
    /// The surveyor that left this state.
    ///
    /// Condition: the state is one that a surveyor leaves (`is_surveyor`).
    #[tactic(auto, unfolding(crate::specs::Surveys::foreseen))]
    pub fn resumed(state: &SurveyorState) -> Surveyor
        requires { IsSurveyor state.now }
        ensures { (later : List ℕ) → foreseen result later ≡ foreseen_of_state state.now later }
    {
        Surveyor {
            len: state.len,
            front: FewBytes::joined(&state.front[..state.front_count as usize], &[]),
            nul: state.nul,
            control: state.control,
            utf8: Utf8Parts {
                counts: state.utf8,
                held: FewBytes::joined(&state.held[..state.held_count as usize], &[]),
            },
            utf16le: state.utf16le.parts(),
            utf16be: state.utf16be.parts(),
        }
    }

    /// The state of this surveyor, with which another one can go on.
    #[tactic(auto, unfolding(crate::specs::Surveys::foreseen))]
    pub fn state(&self) -> SurveyorState
        ensures state { (later : List ℕ) → foreseen_of_state result later ≡ foreseen self.now later }
        ensures is_surveyor { IsSurveyor result }
    {
        let front = self.front.bytes();
        let held = self.utf8.held.bytes();
        SurveyorState {
            len: self.len,
            nul: self.nul,
            control: self.control,
            utf8: self.utf8.counts,
            utf16le: UnitState::of(&self.utf16le),
            utf16be: UnitState::of(&self.utf16be),
            front: copied(front),
            held: copied(held),
            front_count: front.len() as u8,
            held_count: held.len() as u8,
        }
    }
}

// An array that begins with the bytes, followed by zeros.
fn copied<const N: usize>(bytes: &[u8]) -> [u8; N]
    requires { length bytes.now ≤ N }
    ensures { take (length bytes.now) result ≡ bytes.now }
{
    let mut array = [0; N];
    array[..bytes.len()].copy_from_slice(bytes);
    array
}
