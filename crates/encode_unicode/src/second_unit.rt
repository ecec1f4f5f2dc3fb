//! The second unit of a code whose first unit has been given.
ghost use Rattle.std.specs.Prelude.{◌≡◌, [], ◌∷◌, length};
ghost use Rattle.std.specs.Iterator.{YieldsFirst};
ghost use Rattle.utf_base.specs.Code.{utf16};
ghost use Rattle.utf_chars.specs.DebugTexts.{debug_numbers};
ghost use Rattle.encode_unicode.specs.SecondUnit.{second_unit};

use std::fmt;
use std::marker::Model;
use utf_chars::utf16_char::Utf16Char;

/// At most one unit. Contracts see the list.
///
/// The unit is 0 if there is none, since no code has a second unit of 0.
#[derive(Drop)]
pub(crate) struct SecondUnit {
    unit: u16,
}

impl Model for SecondUnit {
    ghost use Rattle.std.specs.Prelude.{ℕ, List};
    ghost use Rattle.encode_unicode.specs.SecondUnit.{second_unit};

    ghost Value = { List ℕ };

    ghost view = { λ s. second_unit s.unit };
}

impl SecondUnit {
    /// No unit.
    #[inline(always)]
    pub(crate) fn none() -> SecondUnit
        ensures { result ≡ [] }
    {
        SecondUnit { unit: 0 }
    }

    /// The first unit of a code, and the unit after it, if there is one.
    #[inline(always)]
    #[tactic(auto, using(crate::proofs::SecondUnits::code_of_two))]
    pub(crate) fn split(c: Utf16Char) -> (u16, SecondUnit)
        ensures { result.0 ∷ result.1 ≡ utf16 c }
    {
        let [first, second] = c.to_array();
        (first, SecondUnit { unit: second })
    }

    /// A copy of the unit.
    #[inline(always)]
    pub(crate) fn copy(&self) -> SecondUnit
        ensures { result ≡ self.now }
    {
        SecondUnit { unit: self.unit }
    }

    /// The number of units: 0 or 1.
    #[inline(always)]
    pub(crate) fn len(&self) -> usize
        ensures { result ≡ length self.now }
    {
        if self.unit == 0 { 0 } else { 1 }
    }

    /// Takes the unit.
    #[inline(always)]
    pub(crate) fn take(&mut self) -> Option<u16>
        ensures { YieldsFirst (λ rest. rest) self.old result self.new }
    {
        if self.unit == 0 {
            return None;
        }
        let unit = self.unit;
        self.unit = 0;
        Some(unit)
    }
}

/// The unit, as a list.
impl fmt::Debug for SecondUnit {
    ghost debug_output = { debug_numbers };

    fn fmt<W: fmt::Write>(&self, f: &mut fmt::Formatter<W>) -> fmt::Result {
        let unit = [self.unit];
        write!(f, "{:?}", &unit[..self.len()])
    }
}
