//! The bytes that a merger has read and not returned a result for.
ghost use Rattle.std.specs.Prelude.{◌≡◌, ◌≤◌, ◌+◌, ◌-◌, ◌*◌, ◌/◌, ◌%◌, [], ◌∷◌, length, true, false};
ghost use Rattle.std.specs.Iterator.{YieldsFirst};
ghost use Rattle.utf_chars.specs.DebugTexts.{debug_numbers};
ghost use Rattle.encode_unicode.specs.HeldWord.{count_of};

use std::fmt;
use std::marker::Model;

/// At most three bytes in one word, and whether the source has ended. Contracts see the list and the flag.
///
/// The next byte is in bits 0 to 7 of the word, the following ones are above it, and their number is in bits 24 to 31.
#[derive(Drop)]
pub(crate) struct HeldBytes {
    word: u32,
    ended: bool,
}

impl Model for HeldBytes {
    ghost use Rattle.std.specs.Prelude.{◌≤◌};
    ghost use Rattle.encode_unicode.specs.HeldWord.{Kept, held_bytes_of, count_of};

    ghost Value = { Kept };

    ghost view = { λ h. record { held = held_bytes_of h.word; ended = h.ended } };

    ghost invariant = { λ h. count_of h.word ≤ 3 };
}

impl HeldBytes {
    /// No bytes.
    #[inline(always)]
    #[tactic(auto, using(crate::proofs::HeldWords::holds_none))]
    pub(crate) fn none() -> HeldBytes
        ensures held { result.held ≡ [] }
        ensures going { result.ended ≡ false }
    {
        HeldBytes {
            word: 0,
            ended: false,
        }
    }

    /// One byte.
    #[inline(always)]
    pub(crate) fn one(first: u8) -> HeldBytes
        ensures held { result.held ≡ first ∷ [] }
        ensures going { result.ended ≡ false }
    {
        HeldBytes {
            word: 0x100_0000 + first as u32,
            ended: false,
        }
    }

    /// Two bytes.
    #[inline(always)]
    pub(crate) fn two(first: u8, second: u8) -> HeldBytes
        ensures held { result.held ≡ first ∷ second ∷ [] }
        ensures going { result.ended ≡ false }
    {
        HeldBytes {
            word: 0x200_0000 + second as u32 * 256 + first as u32,
            ended: false,
        }
    }

    /// Three bytes.
    #[inline(always)]
    pub(crate) fn three(first: u8, second: u8, third: u8) -> HeldBytes
        ensures held { result.held ≡ first ∷ second ∷ third ∷ [] }
        ensures going { result.ended ≡ false }
    {
        HeldBytes {
            word: 0x300_0000 + third as u32 * 0x1_0000 + second as u32 * 256 + first as u32,
            ended: false,
        }
    }

    /// Keeps the bytes, with a source that has ended.
    #[inline(always)]
    pub(crate) fn ended(self) -> HeldBytes
        ensures held { result.held ≡ self.held }
        ensures ended { result.ended ≡ true }
    {
        HeldBytes {
            word: self.word,
            ended: true,
        }
    }

    /// Returns true if nothing is buffered, and the source has not ended.
    #[inline(always)]
    #[tactic(auto, using(crate::proofs::HeldWords::holds_none, crate::proofs::HeldWords::holds_some))]
    pub(crate) fn is_idle(&self) -> bool
        ensures none { result ≡ true → self.now.held ≡ [] }
        ensures going { result ≡ true → self.now.ended ≡ false }
        ensures busy { result ≡ false → self.now.held ≡ [] → self.now.ended ≡ true }
    {
        // Not a comparison with 0: for that, compilers load a 0 into a register again for each byte. The flag is
        // tested first, since testing it after the word takes four more instructions for each byte of ASCII.
        !self.ended && self.word < 0x100_0000
    }

    /// Returns true if the source has ended.
    #[inline(always)]
    pub(crate) fn is_ended(&self) -> bool
        ensures { result ≡ self.now.ended }
    {
        self.ended
    }

    /// The number of bytes.
    #[inline(always)]
    #[tactic(auto, using(crate::proofs::HeldWords::length_bytes))]
    pub(crate) fn len(&self) -> usize
        ensures len { result ≡ length self.now.held }
        ensures few { result ≤ 3 }
    {
        (self.word / 0x100_0000) as usize
    }

    /// A copy of the bytes and the flag.
    #[inline(always)]
    pub(crate) fn copy(&self) -> HeldBytes
        ensures { result ≡ self.now }
    {
        HeldBytes {
            word: self.word,
            ended: self.ended,
        }
    }

    /// Takes the first byte.
    #[inline(always)]
    #[tactic(auto, using(crate::proofs::HeldWords::first_of_word, crate::proofs::HeldWords::holds_none, crate::proofs::HeldWords::only_of_word))]
    pub(crate) fn take(&mut self) -> Option<u8>
        ensures first { YieldsFirst (λ kept. kept.held) self.old result self.new }
        ensures same { self.new.ended ≡ self.old.ended }
    {
        // Mostly one byte is buffered.
        if 0x100_0000 <= self.word && self.word < 0x200_0000 {
            let only = (self.word % 256) as u8;
            self.word = 0;
            return Some(only);
        }
        if self.word < 0x100_0000 {
            return None;
        }
        let first = (self.word % 256) as u8;
        self.word = without_first(self.word);
        Some(first)
    }
}

// The word without its first byte. It is rarely called, and outlined: so the compiler keeps the other paths
// together.
#[cold]
#[inline(never)]
fn without_first(word: u32) -> u32
    requires { 1 ≤ count_of word }
    ensures { result ≡ (word / 0x100_0000 - 1) * 0x100_0000 + word / 256 % 0x1_0000 }
{
    (word / 0x100_0000 - 1) * 0x100_0000 + word / 256 % 0x1_0000
}

/// The bytes, as a list.
impl fmt::Debug for HeldBytes {
    ghost debug_output = { λ kept. debug_numbers kept.held };

    #[tactic(auto, unfolding(crate::specs::HeldWord::held_bytes_of))]
    fn fmt<W: fmt::Write>(&self, f: &mut fmt::Formatter<W>) -> fmt::Result {
        let word = self.word;
        let bytes = [
            (word % 256) as u8,
            (word / 256 % 256) as u8,
            (word / 0x1_0000 % 256) as u8,
        ];
        let count = (word / 0x100_0000) as usize;
        fmt::Debug::fmt(&bytes[..count], f)
    }
}
