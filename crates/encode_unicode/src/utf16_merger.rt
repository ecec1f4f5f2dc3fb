//! Characters and errors from the units of an iterator.
ghost use Rattle.std.specs.Prelude.{◌≡◌, ◌<◌, codes, ℕ, List, [], length, IsOk, IfErr, IfOk, IfSome, true, false};
ghost use Rattle.std.specs.Iterator.{UpTo};
ghost use Rattle.std.specs.Iterator.SizeHint.{IsWithinCount};
ghost use Rattle.utf_base.specs.Code.{utf16};
ghost use Rattle.utf_base.specs.Units.{is_surrogate, unit_fault_kind};
ghost use Rattle.encode_unicode.specs.DebugTexts.{debug_merger, debug_unit};
ghost use Rattle.encode_unicode.specs.Mergers.{unasked, unread_count, GivesAllUnread, HasSameUnread, IsHeldUnits, MergesHint, MergesUnits};
ghost use Rattle.encode_unicode.specs.Mergers.{RemainingNext, RemainsHint};
ghost use Rattle.encode_unicode.specs.Reading.{CompletesUnits, TakesFirst};

use crate::debugging::write_fields;
use crate::held_unit::HeldUnit;
use crate::merging::{hint_of_source, merged_hint, read};
use crate::splitting::hint_of;
use std::alloc::AllocError;
use std::fmt;
use std::marker::Model;
use utf_base::elements::is_trailing_surrogate;
use utf_base::errors::Utf16PairError;
use utf_chars::utf16_char::Utf16Char;

/// Splits the units of any iterator into characters and lone surrogates: a streaming decoder.
///
/// An error is of one unit, and decoding continues at the next unit. To recognise a lone leading surrogate,
/// it has to read the unit after it. It buffers that unit, and decodes it next. Before the first call, after
/// a character and after `None` it buffers nothing. Once the source has given `None`, it is not called again.
///
/// A trailing surrogate where a character should begin is `UnexpectedTrailingSurrogate`. A leading surrogate
/// is `UnmatchedLeadingSurrogate` if another unit follows that is not a trailing surrogate, and `Incomplete`
/// at the end (RFC 2781, section 2.2). Contracts see the buffered unit, the source, and whether it has ended.
#[derive(Drop)]
pub struct Utf16CharMerger<I> {
    source: I,
    held: HeldUnit,
}

impl<I> Model for Utf16CharMerger<I> {
    ghost use Rattle.encode_unicode.specs.Mergers.{IsHeldUnits, Merging};

    ghost Value = { Merging I };

    ghost view = { λ m. record { held = m.held.held; source = m.source; ended = m.held.ended } };

    ghost invariant = { λ m. IsHeldUnits m.held.held };
}

impl<I: Iterator<Item = u16>> From<I> for Utf16CharMerger<I> {
    ghost from_gives = { λ source merger. merger ≡ unasked source };

    /// A merger that has read nothing of the source.
    #[inline]
    fn from(source: I) -> Utf16CharMerger<I> {
        Utf16CharMerger {
            source,
            held: HeldUnit::none(),
        }
    }
}

impl<I: Iterator<Item = u16> + Default> Default for Utf16CharMerger<I> {
    ghost is_default = { λ merger. (merger ≡ unasked merger.source) × I.is_default merger.source };

    /// A merger over the source's own default.
    #[inline]
    fn default() -> Utf16CharMerger<I> {
        Utf16CharMerger::from(I::default())
    }
}

impl<I: Iterator<Item = u16>> Iterator for Utf16CharMerger<I> {
    type Item = Result<Utf16Char, Utf16PairError>;

    ghost can_next = { λ m. m.ended ≡ false → I.can_next m.source };

    ghost next_gives = { MergesUnits I.next_gives };

    ghost remaining = { unread_count I.remaining };

    /// Takes one character, or the error of one lone surrogate. `None` once the source has ended and nothing
    /// is buffered.
    ///
    /// It reads only the units that it needs to decide.
    #[inline(always)]
    fn next(&mut self) -> Option<Result<Utf16Char, Utf16PairError>> {
        let first = match first_unit(&mut self.held, &mut self.source) {
            None => return None,
            Some(first) => first,
        };
        let second = match second_unit(first, &mut self.held, &mut self.source) {
            Err(error) => return Some(Err(error)),
            Ok(second) => second,
        };
        Some(Ok(Utf16Char::from_array_unchecked([first as u16, second])))
    }

    /// Half of the source's lower bound, rounded down, and its upper bound plus 1 if a unit is buffered. Once
    /// the source has ended, its lower bound counts as 0.
    #[inline]
    fn size_hint(&self) -> (usize, Option<usize>)
        ensures lower { IsWithinCount result.0 (unread_count I.remaining self.now) }
        ensures upper { IfSome result.1 (UpTo (unread_count I.remaining self.now)) }
        ensures merged { MergesHint utf16 2 I.remaining self.now result }
    {
        let source = hint_of_source(self.source.size_hint(), self.held.is_ended());
        merged_hint(source, 2, self.held.len())
    }
}

impl<I: Iterator<Item = u16>> Utf16CharMerger<I> {
    /// The source, as far as it was read. After a character the merger buffers no unit. After an error it may
    /// buffer one, which is lost here: `into_remaining_units` keeps it.
    #[inline]
    pub fn into_inner(self) -> I
        ensures source { result ≡ self.source }
        ensures held { IsHeldUnits self.held }
        ensures whole { GivesAllUnread self result }
    {
        let Utf16CharMerger { source, held: _ } = self;
        source
    }

    /// All units that are not decoded yet: the buffered one, and then what the source still gives.
    #[inline]
    pub fn into_remaining_units(self) -> RemainingUnits<I>
        ensures { result ≡ self }
    {
        RemainingUnits {
            source: self.source,
            held: self.held,
        }
    }

    /// A second merger with the same units to come, if a clone of the source gives the same items. It fails if
    /// and only if the source's `clone` fails, with that error.
    ///
    /// Cost: that of the source's `clone`.
    pub fn clone(&self) -> Result<Utf16CharMerger<I>, AllocError>
    where
        I: Clone,
        ensures source { IfOk result (λ m. I.is_clone self.now.source m.source) }
        ensures held { IfOk result (λ m. m.held ≡ self.now.held) }
        ensures ended { IfOk result (λ m. m.ended ≡ self.now.ended) }
        ensures same { IfOk result (HasSameUnread I.is_clone self.now) }
        ensures fails { IfErr result (λ _. ¬ (I.is_infallible self.now.source)) }
        ensures succeeds { I.is_infallible self.now.source → IsOk result }
    {
        Ok(Utf16CharMerger {
            source: self.source.clone()?,
            held: self.held.copy(),
        })
    }
}

/// The buffered unit, and the source.
impl<I: Iterator<Item = u16> + fmt::Debug> fmt::Debug for Utf16CharMerger<I> {
    ghost debug_output = { λ m. debug_merger (codes "Utf16CharMerger") (debug_unit m.held) (I.debug_output m.source) };

    /// The buffered unit, and the source.
    fn fmt<W: fmt::Write>(&self, f: &mut fmt::Formatter<W>) -> fmt::Result {
        write_fields(
            f,
            "Utf16CharMerger",
            ("buffered", &self.held),
            ("inner", &self.source),
        )
    }
}

// Takes the first of the unread units: the buffered one, otherwise one of the source. It is a 64-bit number,
// which the compiler need not extend each time it is used.
#[inline(always)]
fn first_unit<I: Iterator<Item = u16>>(held: &mut HeldUnit, source: &mut I) -> Option<u64>
    requires can { held.old.ended ≡ false → I.can_next source.old }
    ensures first { TakesFirst IsHeldUnits I.can_next I.remaining I.next_gives
        held.old source.old result held.new source.new }
    ensures unit { IfSome result (λ unit. unit < 0x1_0000) }
    ensures none { held.new.held ≡ [] }
    ensures going { IfSome result (λ _. held.new.ended ≡ false) }
{
    if held.is_idle() {
        match read(source) {
            None => {
                *held = HeldUnit::ended();
                None
            }
            Some(unit) => Some(unit as u64),
        }
    } else {
        held.take()
    }
}

// The second unit of the code of a unit that was taken from the merger, or 0 if the code has one unit. A unit
// that is read after it is buffered if it is not part of the code.
#[inline(always)]
#[tactic(auto, using(crate::proofs::UnitMerging::leads_below, crate::proofs::UnitMerging::trails_from, crate::proofs::UnitMerging::unit_last, crate::proofs::UnitMerging::unit_pair, crate::proofs::UnitMerging::unit_stands, crate::proofs::UnitMerging::unit_trails, crate::proofs::UnitMerging::unit_unmatched))]
fn second_unit<I: Iterator<Item = u16>>(
    first: u64,
    held: &mut HeldUnit,
    source: &mut I,
) -> Result<u16, Utf16PairError>
    requires unit { first < 0x1_0000 }
    requires can { I.can_next source.old }
    requires none { held.old.held ≡ [] }
    requires going { held.old.ended ≡ false }
    ensures answers { CompletesUnits I.can_next I.remaining I.next_gives first
        source.old result held.new source.new }
    ensures held { IsHeldUnits held.new.held }
{
    if stands_alone(first) {
        return Ok(0);
    }
    if first >= 0xdc00 {
        return Err(Utf16PairError::UnexpectedTrailingSurrogate);
    }
    match read(source) {
        None => {
            *held = HeldUnit::ended();
            Err(Utf16PairError::Incomplete)
        }
        Some(second) if is_trailing_surrogate(second) => Ok(second),
        Some(second) => {
            *held = HeldUnit::one(second);
            Err(Utf16PairError::UnmatchedLeadingSurrogate)
        }
    }
}

// Returns true if the unit is a character of its own, that is, no surrogate. One comparison covers the units
// below the surrogates and those above, so that the branch predicts well. It counts from after the
// surrogates: counted from the first of them, the compiler would need a mask and one more instruction.
#[inline(always)]
fn stands_alone(unit: u64) -> bool
    requires { unit < 0x1_0000 }
    ensures alone { result ≡ true → is_surrogate unit ≡ false }
    ensures surrogate { result ≡ false → is_surrogate unit ≡ true }
{
    unit.wrapping_sub(0xe000) < 0xffff_ffff_ffff_f800
}

/// The units that a merger has not decoded: the buffered one, and then those that its source still gives.
///
/// Once the source has given `None`, it is not called again. Contracts see the buffered unit, the source, and
/// whether it has ended.
#[derive(Drop)]
pub struct RemainingUnits<I> {
    source: I,
    held: HeldUnit,
}

impl<I> Model for RemainingUnits<I> {
    ghost use Rattle.encode_unicode.specs.Mergers.{Merging};

    ghost Value = { Merging I };

    ghost view = { λ m. record { held = m.held.held; source = m.source; ended = m.held.ended } };
}

impl<I: Iterator<Item = u16>> Iterator for RemainingUnits<I> {
    type Item = u16;

    ghost can_next = { λ m. m.ended ≡ false → I.can_next m.source };

    ghost next_gives = { RemainingNext I.next_gives };

    ghost remaining = { unread_count I.remaining };

    /// Takes the next unit: first the one that the merger had read, then those of its source.
    #[inline(always)]
    fn next(&mut self) -> Option<u16> {
        match first_unit(&mut self.held, &mut self.source) {
            None => None,
            Some(unit) => Some(unit as u16),
        }
    }

    /// The source's bounds plus 1 if a unit is buffered, as far as a `usize` goes. Once the source has ended,
    /// its lower bound counts as 0.
    #[inline]
    fn size_hint(&self) -> (usize, Option<usize>)
        ensures lower { IsWithinCount result.0 (unread_count I.remaining self.now) }
        ensures upper { IfSome result.1 (UpTo (unread_count I.remaining self.now)) }
        ensures remains { RemainsHint I.remaining self.now result }
    {
        let source = hint_of_source(self.source.size_hint(), self.held.is_ended());
        hint_of(source, 1, self.held.len())
    }
}

impl<I: Iterator<Item = u16>> RemainingUnits<I> {
    /// A copy with the same units to come, if a clone of the source gives the same items. It fails if and
    /// only if the source's `clone` fails, with that error.
    ///
    /// Cost: that of the source's `clone`.
    pub fn clone(&self) -> Result<RemainingUnits<I>, AllocError>
    where
        I: Clone,
        ensures source { IfOk result (λ m. I.is_clone self.now.source m.source) }
        ensures held { IfOk result (λ m. m.held ≡ self.now.held) }
        ensures ended { IfOk result (λ m. m.ended ≡ self.now.ended) }
        ensures same { IfOk result (HasSameUnread I.is_clone self.now) }
        ensures fails { IfErr result (λ _. ¬ (I.is_infallible self.now.source)) }
        ensures succeeds { I.is_infallible self.now.source → IsOk result }
    {
        Ok(RemainingUnits {
            source: self.source.clone()?,
            held: self.held.copy(),
        })
    }
}

/// The buffered unit, and the source.
impl<I: Iterator<Item = u16> + fmt::Debug> fmt::Debug for RemainingUnits<I> {
    ghost debug_output = { λ m. debug_merger (codes "RemainingUnits") (debug_unit m.held) (I.debug_output m.source) };

    /// The buffered unit, and the source.
    fn fmt<W: fmt::Write>(&self, f: &mut fmt::Formatter<W>) -> fmt::Result {
        write_fields(
            f,
            "RemainingUnits",
            ("buffered", &self.held),
            ("inner", &self.source),
        )
    }
}
