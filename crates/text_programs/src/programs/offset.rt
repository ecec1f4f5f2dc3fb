//! The offset of a piece in decimal digits, incremented from line to line.
ghost use Rattle.std.specs.Prelude.{◌≡◌, ◌+◌, ◌/◌, ◌%◌, ◌<◌, ◌≤◌, ◌^◌, ◌++◌, [], ◌∷◌, length, take};
ghost use Rattle.std.specs.Fmt.{decimal};
ghost use Rattle.text_programs.specs.declared.programs.lines.TheConstants.{DECIMAL_ROOM, ROOM};

use crate::programs::lines::{DECIMAL_ROOM, Lines, fill_decimal};
use std::marker::Model;

/// A number whose digits are kept, so that not each line needs a division. Contracts see it as the number.
///
/// It keeps the digits of its hundreds, which are computed anew only once in a hundred.
#[derive(Drop)]
pub(crate) struct Offset {
    hundreds: usize,
    rest: u8,
    digits: [u8; 2 * DECIMAL_ROOM],
    start: usize,
}

impl Model for Offset {
    ghost use Rattle.std.specs.Prelude.{◌≡◌, ◌+◌, ◌-◌, ◌*◌, ◌^◌, ◌<◌, ◌≤◌, ℕ, take, drop};
    ghost use Rattle.std.specs.Fmt.{decimal};
    ghost use Rattle.text_programs.specs.declared.programs.lines.TheConstants.{DECIMAL_ROOM};

    ghost Value = { ℕ };

    ghost view = { λ o. o.hundreds * 100 + o.rest };

    ghost invariant = { λ o. (o.rest < 100) × (o.hundreds * 100 + o.rest < 2 ^ 64) ×
        (o.start ≤ DECIMAL_ROOM) × (take (DECIMAL_ROOM - o.start) (drop o.start o.digits) ≡ decimal o.hundreds) };
}

impl Offset {
    /// The offset 0.
    #[inline(always)]
    #[tactic(auto, using(crate::proofs::Decimal::decimal_steps))]
    pub(crate) fn new() -> Offset
        ensures { result ≡ 0 }
    {
        Offset {
            hundreds: 0,
            rest: 0,
            digits: [b'0'; 2 * DECIMAL_ROOM],
            start: DECIMAL_ROOM - 1,
        }
    }

    /// Adds a length.
    #[inline(always)]
    pub(crate) fn count_on(&mut self, len: usize)
        requires few { len ≤ 100 }
        requires fits { self.old + len < 2 ^ 64 }
        ensures { self.new ≡ self.old + len }
    {
        self.rest += len as u8;
        if self.rest >= 100 {
            self.rest -= 100;
            self.hundreds += 1;
            self.start = fill_decimal(self.hundreds, &mut self.digits[..DECIMAL_ROOM]);
        }
    }

    /// Appends the decimal digits, with no leading zero.
    #[inline(always)]
    #[tactic(auto, using(crate::proofs::Decimal::decimal_steps))]
    pub(crate) fn push_to(&self, lines: &mut Lines)
        requires { length lines.old + DECIMAL_ROOM + 2 ≤ ROOM }
        ensures digits { lines.new ≡ lines.old ++ decimal self.now }
        ensures length { length lines.new ≤ length lines.old + DECIMAL_ROOM + 2 }
    {
        if self.hundreds == 0 {
            lines.push_decimal(self.rest as usize);
        } else {
            let (digits, count) = self.hundreds_digits();
            lines.push_front(digits, count);
            lines.push_text(&self.last_two());
        }
    }

    // The digits of the hundreds, followed by some bytes, and how many digits there are.
    #[inline(always)]
    fn hundreds_digits(&self) -> (&[u8], usize)
        ensures whole { length result.0.now ≡ DECIMAL_ROOM }
        ensures within { result.1 ≤ DECIMAL_ROOM }
        ensures digits { take result.1 result.0.now ≡ decimal (self.now / 100) }
    {
        let end = self.start + DECIMAL_ROOM;
        (&self.digits[self.start..end], DECIMAL_ROOM - self.start)
    }

    // The last two digits.
    #[inline(always)]
    fn last_two(&self) -> [u8; 2]
        ensures { result ≡ (48 + self.now / 10 % 10) ∷ (48 + self.now % 10) ∷ [] }
    {
        [b'0' + self.rest / 10, b'0' + self.rest % 10]
    }
}
