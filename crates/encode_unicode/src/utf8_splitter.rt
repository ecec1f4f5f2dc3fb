//! Characters as the bytes of their codes in UTF-8.
ghost use Rattle.std.specs.Prelude.{◌≡◌, ◌≤◌, ◌+◌, ◌*◌, codes, ℕ, List, [], length, drop, IsOk, IfErr, IfOk, IfSome, Ok};
ghost use Rattle.std.specs.Iterator.{count_map, UpTo};
ghost use Rattle.std.specs.Iterator.SizeHint.{IsWithinCount};
ghost use Rattle.utf_base.specs.Code.{utf8};
ghost use Rattle.utf_chars.specs.Taking.{fitting, filled};
ghost use Rattle.encode_unicode.specs.DebugTexts.{debug_splitter};
ghost use Rattle.encode_unicode.specs.Sources.{HasSameUnsent, IsListed, unbegun, unsent, unsent_count, SplitterNext, SplitsHint};

use crate::debugging::write_fields;
use crate::splitting::hint_of;
use std::alloc::AllocError;
use std::marker::Model;
use std::{fmt, io};
use utf_chars::unsent::Unsent;
use utf_chars::utf8_char::Utf8Char;

/// The bytes of the characters of any iterator, one character after another: a streaming encoder.
///
/// `next` and `read` may be mixed: both take from the front of what remains. Contracts see what
/// remains of the character that was begun, and the source.
#[derive(Drop)]
pub struct Utf8CharSplitter<I> {
    source: I,
    begun: Unsent<256>,
}

impl<I> Model for Utf8CharSplitter<I> {
    ghost use Rattle.encode_unicode.specs.Sources.{Splitting};

    ghost Value = { Splitting I };

    ghost view = { λ s. record { begun = s.begun; source = s.source } };
}

impl<I: Iterator<Item = Utf8Char>> From<I> for Utf8CharSplitter<I> {
    ghost from_gives = { λ source splitter. splitter ≡ unbegun source };

    /// A splitter that has taken nothing of the source.
    #[inline]
    fn from(source: I) -> Utf8CharSplitter<I> {
        Utf8CharSplitter {
            source,
            begun: Unsent::default(),
        }
    }
}

impl<I: Iterator<Item = Utf8Char>> Iterator for Utf8CharSplitter<I> {
    type Item = u8;

    ghost can_next = { λ s. I.can_next s.source };

    ghost next_gives = { SplitterNext utf8 I.next_gives };

    ghost remaining = { unsent_count 4 I.remaining };

    /// Takes the next byte. `None` once the source has ended.
    #[inline(always)]
    fn next(&mut self) -> Option<u8> {
        match self.begun.next_byte() {
            Some(byte) => Some(byte),
            None => {
                self.begun = Unsent::from(self.source.next()?);
                self.begun.next_byte()
            }
        }
    }

    /// Bounds of the number of bytes to come: those left of the character that was begun, and at least one
    /// and at most four for each character of the source.
    #[inline]
    fn size_hint(&self) -> (usize, Option<usize>)
        ensures lower { IsWithinCount result.0 (unsent_count 4 I.remaining self.now) }
        ensures upper { IfSome result.1 (UpTo (unsent_count 4 I.remaining self.now)) }
        ensures split { SplitsHint utf8 4 I.remaining self.now result }
    {
        hint_of(self.source.size_hint(), 4, self.begun.len())
    }
}

impl<I: Iterator<Item = Utf8Char>> Utf8CharSplitter<I> {
    /// Writes the next bytes to the front of the buffer, as many as fit, and returns how many they are. It
    /// never fails. The rest of the buffer stays as it is.
    ///
    /// Condition: if the source's `next` has a condition, it holds.
    ///
    /// Cost: O(n) in the bytes that are written.
    pub fn read(&mut self, buf: &mut [u8]) -> io::Result<usize>
        requires { I.can_next self.old.source }
        ensures always { IsOk result }
        ensures count { (rest : I → List ℕ) → IsListed I.next_gives rest →
            result ≡ Ok (fitting buf.old (unsent utf8 rest self.old)) }
        ensures written { (rest : I → List ℕ) → IsListed I.next_gives rest →
            buf.new ≡ filled buf.old (unsent utf8 rest self.old) }
        ensures left { (rest : I → List ℕ) → IsListed I.next_gives rest →
            unsent utf8 rest self.new ≡ drop (length buf.old) (unsent utf8 rest self.old) }
        ensures full { result ≡ Ok (length buf.old) → I.can_next self.new.source }
    {
        let mut count = self.begun.take(buf);
        while count < buf.len() {
            match self.source.next() {
                None => break,
                Some(c) => {
                    let (begun, sent) = Unsent::send(c, &mut buf[count..]);
                    self.begun = begun;
                    count += sent;
                }
            }
        }
        Ok(count)
    }

    /// The source, as far as it was read. What remains of the character that was begun is lost.
    #[inline]
    pub fn into_inner(self) -> I
        ensures { result ≡ self.source }
    {
        let Utf8CharSplitter { source, begun: _ } = self;
        source
    }

    /// A second splitter with the same bytes to come, if a clone of the source gives the same items. It fails
    /// if and only if the source's `clone` fails, with that error.
    ///
    /// Cost: that of the source's `clone`.
    pub fn clone(&self) -> Result<Utf8CharSplitter<I>, AllocError>
    where
        I: Clone,
        ensures source { IfOk result (λ s. I.is_clone self.now.source s.source) }
        ensures begun { IfOk result (λ s. s.begun ≡ self.now.begun) }
        ensures same { IfOk result (HasSameUnsent utf8 I.is_clone self.now) }
        ensures fails { IfErr result (λ _. ¬ (I.is_infallible self.now.source)) }
        ensures succeeds { I.is_infallible self.now.source → IsOk result }
    {
        Ok(Utf8CharSplitter {
            source: self.source.clone()?,
            begun: self.begun.copy(),
        })
    }
}

/// The source, and what is left of the begun code.
impl<I: fmt::Debug> fmt::Debug for Utf8CharSplitter<I> {
    ghost debug_output = { λ s. debug_splitter (codes "Utf8CharSplitter") (I.debug_output s.source) s.begun };

    /// The source, and what remains of the character that was begun.
    fn fmt<W: fmt::Write>(&self, f: &mut fmt::Formatter<W>) -> fmt::Result {
        write_fields(
            f,
            "Utf8CharSplitter",
            ("source", &self.source),
            ("begun", &self.begun),
        )
    }
}
