//! The table of byte classes and states by which bytes in UTF-8 are decoded one by one (RFC 3629, section 4).
ghost use Rattle.std.specs.Prelude.{◌≡◌, ◌<◌, true};
ghost use Rattle.utf_base.specs.Table.{class, is_running, next_state, row};

use State::*;

pub mod walks;

/// The state of a walk over a character's bytes, after some of them were read. A state that asks for more
/// bytes is running; every other is an end.
#[derive(Clone, Copy, Debug, PartialEq, Eq)]
pub enum State {
    /// No byte was read.
    Start,
    /// One continuation byte is missing, and any completes a code.
    OneMore,
    /// Two are missing, and any two complete it.
    TwoMore,
    /// Three are missing, and any three complete it.
    ThreeMore,
    /// After 0xe0: two are missing, and the value is overlong if the first of them is below 0xa0.
    AfterE0,
    /// After 0xed: two are missing, and the value is a surrogate if the first of them is from 0xa0 on.
    AfterEd,
    /// After 0xf0: three are missing, and the value is overlong if the first of them is below 0x90.
    AfterF0,
    /// After 0xf4: three are missing, and the value is too high if the first of them is from 0x90 on.
    AfterF4,
    /// Two are missing, and the value is overlong whatever they are.
    TwoMoreOverlong,
    /// One is missing, and the value is overlong whatever it is.
    OneMoreOverlong,
    /// One is missing, and the value is a surrogate whatever it is.
    OneMoreReserved,
    /// Two are missing, and the value is too high whatever they are.
    TwoMoreTooHigh,
    /// One is missing, and the value is too high whatever it is.
    OneMoreTooHigh,
    /// The bytes are a code.
    Done,
    /// The first byte is a continuation byte.
    Unexpected,
    /// The first byte is one that no code has.
    Never,
    /// The last byte is no continuation byte, and one was asked for.
    Interrupted,
    /// The bytes encode a number that needs fewer.
    Overlong,
    /// The bytes encode a surrogate.
    Reserved,
    /// The bytes encode a number above the last scalar.
    TooHigh,
}

// The class of each byte, sixteen a line.
#[rattlefmt::skip]
static CLASSES: [u8; 256] = [
    0, 0, 0, 0, 0, 0, 0, 0, 0, 0, 0, 0, 0, 0, 0, 0,
    0, 0, 0, 0, 0, 0, 0, 0, 0, 0, 0, 0, 0, 0, 0, 0,
    0, 0, 0, 0, 0, 0, 0, 0, 0, 0, 0, 0, 0, 0, 0, 0,
    0, 0, 0, 0, 0, 0, 0, 0, 0, 0, 0, 0, 0, 0, 0, 0,
    0, 0, 0, 0, 0, 0, 0, 0, 0, 0, 0, 0, 0, 0, 0, 0,
    0, 0, 0, 0, 0, 0, 0, 0, 0, 0, 0, 0, 0, 0, 0, 0,
    0, 0, 0, 0, 0, 0, 0, 0, 0, 0, 0, 0, 0, 0, 0, 0,
    0, 0, 0, 0, 0, 0, 0, 0, 0, 0, 0, 0, 0, 0, 0, 0,
    1, 1, 1, 1, 1, 1, 1, 1, 1, 1, 1, 1, 1, 1, 1, 1,
    2, 2, 2, 2, 2, 2, 2, 2, 2, 2, 2, 2, 2, 2, 2, 2,
    3, 3, 3, 3, 3, 3, 3, 3, 3, 3, 3, 3, 3, 3, 3, 3,
    3, 3, 3, 3, 3, 3, 3, 3, 3, 3, 3, 3, 3, 3, 3, 3,
    4, 4, 5, 5, 5, 5, 5, 5, 5, 5, 5, 5, 5, 5, 5, 5,
    5, 5, 5, 5, 5, 5, 5, 5, 5, 5, 5, 5, 5, 5, 5, 5,
    6, 7, 7, 7, 7, 7, 7, 7, 7, 7, 7, 7, 7, 8, 7, 7,
    9, 10, 10, 10, 11, 4, 4, 4, 4, 4, 4, 4, 4, 4, 4, 4,
];

// The state after a byte of each class, a row for each running state. The last four entries of a row have no
// class: they pad it, so that its address is a shift.
#[rattlefmt::skip]
static STEPS: [[State; 16]; 13] = [
    [Done, Unexpected, Unexpected, Unexpected, Never, OneMore, AfterE0, TwoMore, AfterEd, AfterF0, ThreeMore, AfterF4, Interrupted, Interrupted, Interrupted, Interrupted],
    [Interrupted, Done, Done, Done, Interrupted, Interrupted, Interrupted, Interrupted, Interrupted, Interrupted, Interrupted, Interrupted, Interrupted, Interrupted, Interrupted, Interrupted],
    [Interrupted, OneMore, OneMore, OneMore, Interrupted, Interrupted, Interrupted, Interrupted, Interrupted, Interrupted, Interrupted, Interrupted, Interrupted, Interrupted, Interrupted, Interrupted],
    [Interrupted, TwoMore, TwoMore, TwoMore, Interrupted, Interrupted, Interrupted, Interrupted, Interrupted, Interrupted, Interrupted, Interrupted, Interrupted, Interrupted, Interrupted, Interrupted],
    [Interrupted, OneMoreOverlong, OneMoreOverlong, OneMore, Interrupted, Interrupted, Interrupted, Interrupted, Interrupted, Interrupted, Interrupted, Interrupted, Interrupted, Interrupted, Interrupted, Interrupted],
    [Interrupted, OneMore, OneMore, OneMoreReserved, Interrupted, Interrupted, Interrupted, Interrupted, Interrupted, Interrupted, Interrupted, Interrupted, Interrupted, Interrupted, Interrupted, Interrupted],
    [Interrupted, TwoMoreOverlong, TwoMore, TwoMore, Interrupted, Interrupted, Interrupted, Interrupted, Interrupted, Interrupted, Interrupted, Interrupted, Interrupted, Interrupted, Interrupted, Interrupted],
    [Interrupted, TwoMore, TwoMoreTooHigh, TwoMoreTooHigh, Interrupted, Interrupted, Interrupted, Interrupted, Interrupted, Interrupted, Interrupted, Interrupted, Interrupted, Interrupted, Interrupted, Interrupted],
    [Interrupted, OneMoreOverlong, OneMoreOverlong, OneMoreOverlong, Interrupted, Interrupted, Interrupted, Interrupted, Interrupted, Interrupted, Interrupted, Interrupted, Interrupted, Interrupted, Interrupted, Interrupted],
    [Interrupted, Overlong, Overlong, Overlong, Interrupted, Interrupted, Interrupted, Interrupted, Interrupted, Interrupted, Interrupted, Interrupted, Interrupted, Interrupted, Interrupted, Interrupted],
    [Interrupted, Reserved, Reserved, Reserved, Interrupted, Interrupted, Interrupted, Interrupted, Interrupted, Interrupted, Interrupted, Interrupted, Interrupted, Interrupted, Interrupted, Interrupted],
    [Interrupted, OneMoreTooHigh, OneMoreTooHigh, OneMoreTooHigh, Interrupted, Interrupted, Interrupted, Interrupted, Interrupted, Interrupted, Interrupted, Interrupted, Interrupted, Interrupted, Interrupted, Interrupted],
    [Interrupted, TooHigh, TooHigh, TooHigh, Interrupted, Interrupted, Interrupted, Interrupted, Interrupted, Interrupted, Interrupted, Interrupted, Interrupted, Interrupted, Interrupted, Interrupted],
];

/// The class of a byte. From any given state, all bytes of one class lead to the same next state.
#[inline(always)]
pub fn class_of(b: u8) -> u8
    ensures class { result ≡ class b }
    ensures bound { result < 12 }
{
    CLASSES[b as usize]
}

/// The state after one more byte, whose class is given.
///
/// Condition: the state is running, and the class is one that `class_of` gives.
#[inline(always)]
pub fn step(state: State, c: u8) -> State
    requires running { is_running state ≡ true }
    requires bound { c < 12 }
    ensures { result ≡ next_state state c }
{
    STEPS[row_of(state) as usize][c as usize]
}

// The row of a running state in the table of steps.
#[inline(always)]
fn row_of(state: State) -> u8
    ensures { result ≡ row state }
{
    state as u8
}
