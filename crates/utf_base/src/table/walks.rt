//! The law of the table, and the errors of its end states, for the crates that walk it. It is an addition of this
//! project, and not part of the table.
ghost use Rattle.std.specs.Prelude.{◌≡◌, true, Some};
ghost use Rattle.utf_base.specs.declared.table.State.TheVariants.{Interrupted};
ghost use Rattle.utf_base.specs.Table.{fault_of, is_first_fault, is_later_fault, is_running as running, WalkTellsTheKind};

use crate::errors::{Utf8Error, Utf8ErrorKind};
use crate::table::State;

/// The law of the table: the state after some bytes determines their fault, in the kinds of a merger, which
/// takes one step for each byte. So the end `Done` is that of a code, and a running state is that of too few
/// bytes.
pub fn walk_tells_the_kind()
    ensures { WalkTellsTheKind }
{}

/// Returns true if the state asks for a byte: then a step may be taken from it.
#[inline(always)]
pub fn is_running(state: State) -> bool
    ensures { result ≡ running state }
{
    matches!(
        state,
        State::Start
            | State::OneMore
            | State::TwoMore
            | State::ThreeMore
            | State::AfterE0
            | State::AfterEd
            | State::AfterF0
            | State::AfterF4
            | State::TwoMoreOverlong
            | State::OneMoreOverlong
            | State::OneMoreReserved
            | State::TwoMoreTooHigh
            | State::OneMoreTooHigh
    )
}

/// The error of a first byte that begins no character.
///
/// Condition: the state is `Unexpected` or `Never`.
#[inline(always)]
pub fn error_of_first(end: State) -> Utf8Error
    requires { is_first_fault end ≡ true }
    ensures { fault_of end ≡ Some result }
{
    match end {
        State::Unexpected => Utf8Error::new(Utf8ErrorKind::UnexpectedContinuationByte),
        _ => Utf8Error::new(Utf8ErrorKind::NonUtf8Byte),
    }
}

/// The error of bytes that ended otherwise than in a character.
///
/// Condition: the state is `Interrupted`, `Overlong`, `Reserved` or `TooHigh`.
#[inline(always)]
pub fn error_after(end: State) -> Utf8Error
    requires { is_later_fault end ≡ true }
    ensures { fault_of end ≡ Some result }
{
    match end {
        State::Interrupted => Utf8Error::new(Utf8ErrorKind::InterruptedSequence),
        _ => error_of_value(end),
    }
}

// The error for the value of bytes that are all there and continue. It is rarely called, and outlined: otherwise the
// compiler would merge it with the test for the end of a code into one jump table.
#[cold]
#[inline(never)]
fn error_of_value(end: State) -> Utf8Error
    requires fault { is_later_fault end ≡ true }
    requires value { end ≡ Interrupted → ⊥ }
    ensures { fault_of end ≡ Some result }
{
    Utf8Error::new(match end {
        State::Overlong => Utf8ErrorKind::OverlongEncoding,
        State::Reserved => Utf8ErrorKind::Utf16ReservedCodepoint,
        _ => Utf8ErrorKind::TooHighCodepoint,
    })
}
