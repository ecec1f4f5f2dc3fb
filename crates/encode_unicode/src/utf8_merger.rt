//! Characters and errors from the bytes of an iterator.
ghost use Rattle.std.specs.Prelude.{◌≡◌, ◌<◌, ◌≤◌, ℕ, List, [], ◌∷◌, codes, true, IsOk, IfErr, IfOk, IfSome, false};
ghost use Rattle.std.specs.Iterator.{UpTo};
ghost use Rattle.std.specs.Iterator.SizeHint.{IsWithinCount};
ghost use Rattle.utf_base.specs.Code.{utf8};
ghost use Rattle.utf_base.specs.Kinds.{is_continuation, merger_kind};
ghost use Rattle.utf_base.specs.Table.{is_running as running, state_after};
ghost use Rattle.utf_chars.specs.DebugTexts.{debug_numbers};
ghost use Rattle.encode_unicode.specs.DebugTexts.{debug_merger};
ghost use Rattle.encode_unicode.specs.Mergers.{unasked, unread_count, GivesAllUnread, HasSameUnread, IsHeldBytes, MergesBytes, MergesHint};
ghost use Rattle.encode_unicode.specs.Reading.{Completes, CompletesAfter};

use crate::code_bytes::CodeBytes;
use crate::debugging::write_fields;
use crate::held_bytes::HeldBytes;
use crate::merging::{hint_of_source, merged_hint, read};
use crate::remaining::{RemainingBytes, first_byte};
use std::alloc::AllocError;
use std::fmt;
use std::marker::Model;
use utf_base::errors::{Utf8Error, Utf8ErrorKind};
use utf_base::table::walks::{error_after, error_of_first, is_running};
use utf_base::table::{State, class_of, step};
use utf_chars::utf8_char::Utf8Char;

/// Splits the bytes of any iterator into characters and single invalid bytes: a streaming decoder.
///
/// An error is of one byte, and decoding continues at the next byte: so no error hides an ASCII character. It
/// reads no more bytes than it needs to decide. To recognise an error it may have read up to three bytes
/// after the invalid one. It buffers these, and decodes them next. Before the first call, after a character
/// and after `None` it buffers nothing. Once the source has given `None`, it is not called again.
///
/// The errors are those of `CharExt::from_utf8_slice_start`, with one difference. If fewer bytes are left in
/// the source than the first byte needs, and one of them breaks the sequence, the error is
/// `InterruptedSequence` and not `TooFewBytes`. Contracts see the buffered bytes, the source, and whether it
/// has ended.
#[derive(Drop)]
pub struct Utf8CharMerger<I> {
    source: I,
    held: HeldBytes,
}

impl<I> Model for Utf8CharMerger<I> {
    ghost use Rattle.encode_unicode.specs.Mergers.{IsHeldBytes, Merging};

    ghost Value = { Merging I };

    ghost view = { λ m. record { held = m.held.held; source = m.source; ended = m.held.ended } };

    ghost invariant = { λ m. IsHeldBytes m.held.held };
}

impl<I: Iterator<Item = u8>> From<I> for Utf8CharMerger<I> {
    ghost from_gives = { λ source merger. merger ≡ unasked source };

    /// A merger that has read nothing of the source.
    #[inline]
    fn from(source: I) -> Utf8CharMerger<I> {
        Utf8CharMerger {
            source,
            held: HeldBytes::none(),
        }
    }
}

impl<I: Iterator<Item = u8> + Default> Default for Utf8CharMerger<I> {
    ghost is_default = { λ merger. (merger ≡ unasked merger.source) × I.is_default merger.source };

    /// A merger over the source's own default.
    #[inline]
    fn default() -> Utf8CharMerger<I> {
        Utf8CharMerger::from(I::default())
    }
}

impl<I: Iterator<Item = u8>> Iterator for Utf8CharMerger<I> {
    type Item = Result<Utf8Char, Utf8Error>;

    ghost can_next = { λ m. m.ended ≡ false → I.can_next m.source };

    ghost next_gives = { MergesBytes I.next_gives };

    ghost remaining = { unread_count I.remaining };

    /// Takes one character, or the error of one invalid byte. `None` once the source has ended and nothing is
    /// buffered.
    ///
    /// It reads only the bytes that it needs to decide.
    #[inline(always)]
    fn next(&mut self) -> Option<Result<Utf8Char, Utf8Error>> {
        let first = match first_byte(&mut self.held, &mut self.source) {
            None => return None,
            Some(first) => first,
        };
        let code = match code_of(first, &mut self.held, &mut self.source) {
            Err(error) => return Some(Err(error)),
            Ok(code) => code,
        };
        Some(Ok(Utf8Char::from_array_unchecked(code.to_array())))
    }

    /// A quarter of the source's lower bound, rounded down, and its upper bound plus the number of buffered
    /// bytes. Once the source has ended, its lower bound counts as 0.
    #[inline]
    fn size_hint(&self) -> (usize, Option<usize>)
        ensures lower { IsWithinCount result.0 (unread_count I.remaining self.now) }
        ensures upper { IfSome result.1 (UpTo (unread_count I.remaining self.now)) }
        ensures merged { MergesHint utf8 4 I.remaining self.now result }
    {
        let source = hint_of_source(self.source.size_hint(), self.held.is_ended());
        merged_hint(source, 4, self.held.len())
    }
}

impl<I: Iterator<Item = u8>> Utf8CharMerger<I> {
    /// The source, as far as it was read. After a character the merger buffers no bytes. After an error it
    /// may buffer some, which are lost here: `into_remaining_bytes` keeps them.
    #[inline]
    pub fn into_inner(self) -> I
        ensures source { result ≡ self.source }
        ensures held { IsHeldBytes self.held }
        ensures whole { GivesAllUnread self result }
    {
        let Utf8CharMerger { source, held: _ } = self;
        source
    }

    /// All bytes that are not decoded yet: the buffered ones, in order, and then what the source still gives.
    #[inline]
    pub fn into_remaining_bytes(self) -> RemainingBytes<I>
        ensures { result ≡ self }
    {
        RemainingBytes::new(self.source, self.held)
    }

    /// A second merger with the same bytes to come, if a clone of the source gives the same items. It fails if
    /// and only if the source's `clone` fails, with that error.
    ///
    /// Cost: that of the source's `clone`.
    pub fn clone(&self) -> Result<Utf8CharMerger<I>, AllocError>
    where
        I: Clone,
        ensures source { IfOk result (λ m. I.is_clone self.now.source m.source) }
        ensures held { IfOk result (λ m. m.held ≡ self.now.held) }
        ensures ended { IfOk result (λ m. m.ended ≡ self.now.ended) }
        ensures same { IfOk result (HasSameUnread I.is_clone self.now) }
        ensures fails { IfErr result (λ _. ¬ (I.is_infallible self.now.source)) }
        ensures succeeds { I.is_infallible self.now.source → IsOk result }
    {
        Ok(Utf8CharMerger {
            source: self.source.clone()?,
            held: self.held.copy(),
        })
    }
}

/// The buffered bytes, and the source.
impl<I: Iterator<Item = u8> + fmt::Debug> fmt::Debug for Utf8CharMerger<I> {
    ghost debug_output = { λ m. debug_merger (codes "Utf8CharMerger") (debug_numbers m.held) (I.debug_output m.source) };

    /// The buffered bytes, and the source.
    fn fmt<W: fmt::Write>(&self, f: &mut fmt::Formatter<W>) -> fmt::Result {
        write_fields(
            f,
            "Utf8CharMerger",
            ("buffered", &self.held),
            ("inner", &self.source),
        )
    }
}

// The code that begins with a byte which was taken from the merger. What is read after it is buffered if no code
// is found; if something is buffered already, the byte is a continuation byte, and nothing is read.
#[inline(always)]
fn code_of<I: Iterator<Item = u8>>(
    first: u8,
    held: &mut HeldBytes,
    source: &mut I,
) -> Result<CodeBytes, Utf8Error>
    requires can { held.old.ended ≡ false → I.can_next source.old }
    requires alone { is_continuation first ≡ false → held.old.held ≡ [] }
    requires held { IsHeldBytes held.old.held }
    ensures { Completes I.can_next I.remaining I.next_gives first
        held.old source.old result held.new source.new }
{
    let state = step(State::Start, class_of(first));
    if state == State::Done {
        return Ok(CodeBytes::one(first));
    }
    if !is_running(state) {
        return Err(error_of_first(state));
    }
    // The byte asks for others and is no continuation byte, so nothing is buffered after it.
    if held.is_ended() {
        return Err(Utf8Error::new(Utf8ErrorKind::TooFewBytes));
    }
    second(first, state, held, source)
}

// Reads the second byte, and the following ones, each if the state that the previous ones led to asks for it.
// Each result is returned where it is found: so the compiler keeps the paths to them apart.
#[inline(always)]
fn second<I: Iterator<Item = u8>>(
    first: u8,
    state: State,
    held: &mut HeldBytes,
    source: &mut I,
) -> Result<CodeBytes, Utf8Error>
    requires walked { state ≡ state_after (first ∷ []) 1 }
    requires asks { running state ≡ true }
    requires can { I.can_next source.old }
    requires none { held.old.held ≡ [] }
    requires going { held.old.ended ≡ false }
    ensures { CompletesAfter I.can_next I.remaining I.next_gives first []
        source.old result held.new source.new }
{
    match read(source) {
        None => {
            *held = HeldBytes::none().ended();
            Err(Utf8Error::new(Utf8ErrorKind::TooFewBytes))
        }
        Some(byte) => {
            let next = step(state, class_of(byte));
            if is_running(next) {
                let front = FirstTwo {
                    first,
                    second: byte,
                    state: next,
                };
                return third(front, held, source);
            }
            if next != State::Done {
                *held = HeldBytes::one(byte);
                return Err(error_after(next));
            }
            Ok(CodeBytes::two(first, byte))
        }
    }
}

// The first two bytes of a code, and the state that they lead to: it asks for a third one.
#[derive(Drop)]
struct FirstTwo {
    first: u8,
    second: u8,
    state: State,
    ghost walked: { state ≡ state_after (first ∷ second ∷ []) 2 },
    ghost asks: { running state ≡ true },
}

// The first three bytes of a code, and the state that they lead to: it asks for a fourth one.
#[derive(Drop)]
struct FirstThree {
    first: u8,
    second: u8,
    third: u8,
    state: State,
    ghost walked: { state ≡ state_after (first ∷ second ∷ third ∷ []) 3 },
    ghost asks: { running state ≡ true },
}

// Reads the third byte, and the one after it.
#[inline(always)]
fn third<I: Iterator<Item = u8>>(
    front: FirstTwo,
    held: &mut HeldBytes,
    source: &mut I,
) -> Result<CodeBytes, Utf8Error>
    requires can { I.can_next source.old }
    requires none { held.old.held ≡ [] }
    requires going { held.old.ended ≡ false }
    ensures { CompletesAfter I.can_next I.remaining I.next_gives front.first (front.second ∷ [])
        source.old result held.new source.new }
{
    let FirstTwo {
        first,
        second,
        state,
    } = front;
    match read(source) {
        None => {
            *held = HeldBytes::one(second).ended();
            Err(Utf8Error::new(Utf8ErrorKind::TooFewBytes))
        }
        Some(byte) => {
            let next = step(state, class_of(byte));
            if is_running(next) {
                let front = FirstThree {
                    first,
                    second,
                    third: byte,
                    state: next,
                };
                return fourth(front, held, source);
            }
            if next != State::Done {
                *held = HeldBytes::two(second, byte);
                return Err(error_after(next));
            }
            Ok(CodeBytes::three(first, second, byte))
        }
    }
}

// Reads the fourth byte.
#[inline(always)]
fn fourth<I: Iterator<Item = u8>>(
    front: FirstThree,
    held: &mut HeldBytes,
    source: &mut I,
) -> Result<CodeBytes, Utf8Error>
    requires can { I.can_next source.old }
    requires none { held.old.held ≡ [] }
    requires going { held.old.ended ≡ false }
    ensures { CompletesAfter I.can_next I.remaining I.next_gives front.first
        (front.second ∷ front.third ∷ []) source.old result held.new source.new }
{
    let FirstThree {
        first,
        second,
        third,
        state,
    } = front;
    match read(source) {
        None => {
            *held = HeldBytes::two(second, third).ended();
            Err(Utf8Error::new(Utf8ErrorKind::TooFewBytes))
        }
        Some(byte) => {
            let next = step(state, class_of(byte));
            if next != State::Done {
                *held = HeldBytes::three(second, third, byte);
                return Err(error_after(next));
            }
            Ok(CodeBytes::four(first, second, third, byte))
        }
    }
}
