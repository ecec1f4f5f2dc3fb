//! The remaining bytes of a merger.
ghost use Rattle.std.specs.Prelude.{◌≡◌, [], codes, List, ℕ, IfErr, IfOk, IfSome, IsOk, false};
ghost use Rattle.std.specs.Iterator.{UpTo};
ghost use Rattle.std.specs.Iterator.SizeHint.{IsWithinCount};
ghost use Rattle.utf_chars.specs.DebugTexts.{debug_numbers};
ghost use Rattle.encode_unicode.specs.DebugTexts.{debug_merger};
ghost use Rattle.encode_unicode.specs.Mergers.{unread_count, HasSameUnread, IsHeldBytes, RemainingNext, RemainsHint};
ghost use Rattle.encode_unicode.specs.Reading.{TakesFirst};
ghost use Rattle.utf_base.specs.Kinds.{is_continuation};

use crate::debugging::write_fields;
use crate::held_bytes::HeldBytes;
use crate::merging::{hint_of_source, read};
use crate::splitting::hint_of;
use std::alloc::AllocError;
use std::fmt;
use std::marker::Model;

/// The bytes that a merger has not decoded: those that it buffered, in order, and then those that its source
/// still gives.
///
/// Once the source has given `None`, it is not called again. Contracts see the buffered bytes, the source,
/// and whether it has ended.
#[derive(Drop)]
pub struct RemainingBytes<I> {
    source: I,
    held: HeldBytes,
}

impl<I> Model for RemainingBytes<I> {
    ghost use Rattle.encode_unicode.specs.Mergers.{IsHeldBytes, Merging};

    ghost Value = { Merging I };

    ghost view = { λ m. record { held = m.held.held; source = m.source; ended = m.held.ended } };

    ghost invariant = { λ m. IsHeldBytes m.held.held };
}

impl<I: Iterator<Item = u8>> Iterator for RemainingBytes<I> {
    type Item = u8;

    ghost can_next = { λ m. m.ended ≡ false → I.can_next m.source };

    ghost next_gives = { RemainingNext I.next_gives };

    ghost remaining = { unread_count I.remaining };

    /// Takes the next byte: first those that the merger had read, then those of its source.
    #[inline(always)]
    #[tactic(auto, using(crate::proofs::MergerSteps::first_nearer))]
    fn next(&mut self) -> Option<u8> {
        first_byte(&mut self.held, &mut self.source)
    }

    /// The source's bounds plus the number of buffered bytes, as far as a `usize` goes. Once the source has
    /// ended, its lower bound counts as 0.
    #[inline]
    fn size_hint(&self) -> (usize, Option<usize>)
        ensures lower { IsWithinCount result.0 (unread_count I.remaining self.now) }
        ensures upper { IfSome result.1 (UpTo (unread_count I.remaining self.now)) }
        ensures remains { RemainsHint I.remaining self.now result }
    {
        let source = hint_of_source(self.source.size_hint(), self.held.is_ended());
        hint_of(source, 1, self.held.len())
    }
}

impl<I: Iterator<Item = u8>> RemainingBytes<I> {
    /// The buffered bytes, and then what the source still gives.
    #[inline(always)]
    pub(crate) fn new(source: I, held: HeldBytes) -> RemainingBytes<I>
        requires { IsHeldBytes held.held }
        ensures { result ≡ record { held = held.held; source = source; ended = held.ended } }
    {
        RemainingBytes { source, held }
    }

    /// A copy with the same bytes to come, if a clone of the source gives the same items. It fails if and
    /// only if the source's `clone` fails, with that error.
    ///
    /// Cost: that of the source's `clone`.
    pub fn clone(&self) -> Result<RemainingBytes<I>, AllocError>
    where
        I: Clone,
        ensures source { IfOk result (λ m. I.is_clone self.now.source m.source) }
        ensures held { IfOk result (λ m. m.held ≡ self.now.held) }
        ensures ended { IfOk result (λ m. m.ended ≡ self.now.ended) }
        ensures same { IfOk result (HasSameUnread I.is_clone self.now) }
        ensures fails { IfErr result (λ _. ¬ (I.is_infallible self.now.source)) }
        ensures succeeds { I.is_infallible self.now.source → IsOk result }
    {
        Ok(RemainingBytes {
            source: self.source.clone()?,
            held: self.held.copy(),
        })
    }
}

/// The buffered bytes, and the source.
impl<I: Iterator<Item = u8> + fmt::Debug> fmt::Debug for RemainingBytes<I> {
    ghost debug_output = { λ m. debug_merger (codes "RemainingBytes") (debug_numbers m.held) (I.debug_output m.source) };

    /// The buffered bytes, and the source.
    fn fmt<W: fmt::Write>(&self, f: &mut fmt::Formatter<W>) -> fmt::Result {
        write_fields(
            f,
            "RemainingBytes",
            ("buffered", &self.held),
            ("inner", &self.source),
        )
    }
}

// Takes the first of the unread bytes: a buffered one, otherwise one of the source.
#[inline(always)]
pub(crate) fn first_byte<I: Iterator<Item = u8>>(held: &mut HeldBytes, source: &mut I) -> Option<u8>
    requires can { held.old.ended ≡ false → I.can_next source.old }
    requires held { IsHeldBytes held.old.held }
    ensures first { TakesFirst IsHeldBytes I.can_next I.remaining I.next_gives
        held.old source.old result held.new source.new }
    ensures alone { IfSome result (λ b. is_continuation b ≡ false → held.new.held ≡ []) }
{
    if !held.is_idle() {
        return held.take();
    }
    match read(source) {
        None => {
            *held = HeldBytes::none().ended();
            None
        }
        Some(byte) => Some(byte),
    }
}
