//! The line and the column of a position in input that comes in parts.
ghost use Rattle.std.specs.Prelude.{◌≡◌, [], ◌∷◌, ◌<◌};
ghost use Rattle.cuts.specs.Positions.{IsAfter, Passes};
ghost use Rattle.cuts.specs.declared.Form.{Form as AForm};
ghost use Rattle.c_api.specs.Api.{IsForm, form_of};
ghost use Rattle.c_api.specs.Positions.{IsPosition, place_of};

use crate::recodings::{DONE, REFUSED, form_of};
use cuts::Position;

/// A position, in memory of the caller.
#[repr(C)]
#[derive(Clone, Copy, Drop)]
pub struct NodyPosition {
    /// The line, from 1 on.
    pub line: u64,
    /// The column in pieces, from 1 on.
    pub column: u64,
    /// The column in bytes, from 1 on.
    pub byte_column: u64,
    /// The number of carried-over bytes.
    pub count: u8,
    /// The carried-over bytes, followed by unused ones.
    pub held: [u8; 3],
}

/// The position at the front of an input: line 1, column 1.
#[unsafe(no_mangle)]
pub extern "C" fn nody_position() -> NodyPosition
    ensures front { result ≡ record { line = 1; column = 1; byte_column = 1; count = 0; held = 0 ∷ 0 ∷ 0 ∷ [] } }
    ensures after { (form : AForm) → IsAfter form [] (place_of result) }
{
    NodyPosition {
        line: 1,
        column: 1,
        byte_column: 1,
        count: 0,
        held: [0; 3],
    }
}

/// Advances over the next bytes of the input. Returns 0; or 2, with nothing changed, if `form` is not valid or the
/// struct is not a position.
#[unsafe(no_mangle)]
pub extern "C" fn nody_position_advance(position: &mut NodyPosition, form: u8, bytes: &[u8]) -> u8
    ensures passes { IsForm form → IsPosition position.old →
        Passes (form_of form) bytes.now (place_of position.old) (place_of position.new) }
    ensures position { IsPosition position.old → IsPosition position.new }
    ensures status { IsForm form → IsPosition position.old → result ≡ 0 }
    ensures refused { result ≡ 2 → position.new ≡ position.old }
    ensures wrong_form { ¬ IsForm form → result ≡ 2 }
    ensures wrong_position { ¬ IsPosition position.old → result ≡ 2 }
{
    if 3 <= form || 3 < position.count {
        return REFUSED;
    }
    let mut inner = Position::carrying(
        position.line,
        position.column,
        position.byte_column,
        &position.held[..position.count as usize],
    );
    inner.advance(form_of(form), bytes);
    keep_position(position, &inner);
    DONE
}

// Stores the position into the struct.
#[inline(always)]
fn keep_position(position: &mut NodyPosition, inner: &Position)
    ensures kept { place_of position.new ≡ inner.now }
    ensures is_position { IsPosition position.new }
{
    let held = inner.held();
    position.line = inner.line();
    position.column = inner.column();
    position.byte_column = inner.byte_column();
    position.count = held.len() as u8;
    if !held.is_empty() {
        position.held[..held.len()].copy_from_slice(held);
    }
}
