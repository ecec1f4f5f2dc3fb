//! The unit that a merger has read and not returned a result for.
ghost use Rattle.std.specs.Prelude.{◌≡◌, ◌<◌, [], ◌∷◌, length, true, false, IfSome, MatchOption};
ghost use Rattle.std.specs.Iterator.{YieldsFirst};
ghost use Rattle.encode_unicode.specs.DebugTexts.{debug_unit};
ghost use Rattle.encode_unicode.specs.Mergers.{IsHeldUnits};

use std::fmt;
use std::marker::Model;

/// At most one unit in one word, and whether the source has ended. Contracts see the list and the flag.
///
/// The word is 0 if none is buffered, otherwise 0x1_0000 plus the unit. None is buffered once the source has
/// ended.
#[derive(Drop)]
pub(crate) struct HeldUnit {
    word: u64,
    ended: bool,
}

impl Model for HeldUnit {
    ghost use Rattle.std.specs.Prelude.{◌≡◌, ◌<◌, true};
    ghost use Rattle.encode_unicode.specs.HeldWord.{Kept, held_unit_of};

    ghost Value = { Kept };

    ghost view = { λ h. record { held = held_unit_of h.word; ended = h.ended } };

    ghost invariant = { λ h. h.ended ≡ true → h.word < 0x1_0000 };
}

impl HeldUnit {
    /// No unit.
    #[inline(always)]
    #[tactic(auto, unfolding(crate::specs::HeldWord::held_unit_of))]
    pub(crate) fn none() -> HeldUnit
        ensures none { result.held ≡ [] }
        ensures going { result.ended ≡ false }
    {
        HeldUnit {
            word: 0,
            ended: false,
        }
    }

    /// No unit, with a source that has ended.
    #[inline(always)]
    #[tactic(auto, unfolding(crate::specs::HeldWord::held_unit_of))]
    pub(crate) fn ended() -> HeldUnit
        ensures none { result.held ≡ [] }
        ensures ended { result.ended ≡ true }
    {
        HeldUnit {
            word: 0,
            ended: true,
        }
    }

    /// One unit.
    #[inline(always)]
    #[tactic(auto, unfolding(crate::specs::HeldWord::held_unit_of))]
    pub(crate) fn one(unit: u16) -> HeldUnit
        ensures one { result.held ≡ unit ∷ [] }
        ensures going { result.ended ≡ false }
    {
        HeldUnit {
            word: 0x1_0000 + unit as u64,
            ended: false,
        }
    }

    /// Returns true if nothing is buffered, and the source has not ended.
    #[inline(always)]
    #[tactic(auto, unfolding(crate::specs::HeldWord::held_unit_of))]
    pub(crate) fn is_idle(&self) -> bool
        ensures none { result ≡ true → self.now.held ≡ [] }
        ensures going { result ≡ true → self.now.ended ≡ false }
        ensures busy { result ≡ false → self.now.held ≡ [] → self.now.ended ≡ true }
    {
        // Not a comparison with 0: for that, compilers load a 0 into a register again for each unit.
        self.word < 0x1_0000 && !self.ended
    }

    /// Returns true if the source has ended.
    #[inline(always)]
    #[tactic(auto, unfolding(crate::specs::HeldWord::held_unit_of))]
    pub(crate) fn is_ended(&self) -> bool
        ensures { result ≡ self.now.ended }
    {
        self.ended
    }

    /// The number of units: 0 or 1.
    #[inline(always)]
    #[tactic(auto, unfolding(crate::specs::HeldWord::held_unit_of))]
    pub(crate) fn len(&self) -> usize
        ensures len { result ≡ length self.now.held }
        ensures few { IsHeldUnits self.now.held }
    {
        if self.word >= 0x1_0000 { 1 } else { 0 }
    }

    /// A copy of the unit and the flag.
    #[inline(always)]
    #[tactic(auto, unfolding(crate::specs::HeldWord::held_unit_of))]
    pub(crate) fn copy(&self) -> HeldUnit
        ensures { result ≡ self.now }
    {
        HeldUnit {
            word: self.word,
            ended: self.ended,
        }
    }

    /// Takes the unit.
    #[inline(always)]
    #[tactic(auto, unfolding(crate::specs::HeldWord::held_unit_of))]
    pub(crate) fn take(&mut self) -> Option<u64>
        requires busy { self.old.held ≡ [] → self.old.ended ≡ true }
        ensures first { YieldsFirst (λ kept. kept.held) self.old result self.new }
        ensures unit { IfSome result (λ unit. unit < 0x1_0000) }
        ensures none { self.new.held ≡ [] }
        ensures same { self.new.ended ≡ self.old.ended }
        ensures ends { MatchOption result (self.new.ended ≡ true) (λ _. self.new.ended ≡ false) }
    {
        if self.word < 0x1_0000 {
            return None;
        }
        let unit = self.word % 0x1_0000;
        self.word = 0;
        Some(unit)
    }
}

/// The unit, as an `Option`.
impl fmt::Debug for HeldUnit {
    ghost debug_output = { λ kept. debug_unit kept.held };

    #[tactic(auto, unfolding(crate::specs::HeldWord::held_unit_of))]
    fn fmt<W: fmt::Write>(&self, f: &mut fmt::Formatter<W>) -> fmt::Result {
        let unit = if self.word >= 0x1_0000 {
            Some((self.word % 0x1_0000) as u16)
        } else {
            None
        };
        fmt::Debug::fmt(&unit, f)
    }
}
