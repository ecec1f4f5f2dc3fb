//! What replaces invalid bytes in damaged text.
ghost use Rattle.std.specs.Prelude.{◌≡◌, length};
ghost use Rattle.utf_lanes.specs.Mending.{IsCodeShown, shown_code};

/// What replaces invalid bytes.
pub trait Mending: Copy + Drop {
    ghost use Rattle.std.specs.Prelude.{◌≡◌, ℕ, Bool, IsTrue, Option, Some};

    ghost subparts: { Bool };

    // The character that replaces an invalid byte, or a maximal subpart that begins with it, if one does.
    ghost shown: { Self → ℕ → Option ℕ };

    /// Whether each maximal subpart is replaced, and not each invalid byte.
    fn is_by_subparts() -> bool
        ensures { result ≡ subparts };

    /// Returns true if U+FFFD replaces whatever is invalid.
    fn is_replacement() -> bool
        ensures { IsTrue result → (by : Self) (byte : ℕ) → shown by byte ≡ Some 0xFFFD };

    /// The code of the character that replaces an invalid byte, in three bytes, and its length, which is 0 if none does.
    fn code(self, byte: u8) -> [u8; 4]
        ensures { IsCodeShown (shown self byte) result };

    /// The length of that code in bytes.
    #[inline(always)]
    #[tactic(auto, using(crate::proofs::MendedTexts::code_length))]
    fn code_len(self, byte: u8) -> usize
        ensures { result ≡ length (shown_code (shown self byte)) }
    {
        self.code(byte)[3] as usize
    }
}

// The code of U+FFFD, and its length.
const REPLACEMENT: [u8; 4] = [0xef, 0xbf, 0xbd, 3];

// U+FFFD replaces whatever is invalid.
const IS_REPLACEMENT: bool = true;

/// U+FFFD replaces each invalid byte.
#[derive(Clone, Copy, Drop)]
pub struct Each;

/// U+FFFD replaces each maximal subpart.
#[derive(Clone, Copy, Drop)]
pub struct Subparts;

impl Mending for Each {
    ghost use Rattle.std.specs.Prelude.{false, Some};

    ghost subparts = { false };

    ghost shown = { λ by byte. Some 0xFFFD };

    #[inline(always)]
    fn is_by_subparts() -> bool {
        false
    }

    #[inline(always)]
    fn is_replacement() -> bool {
        IS_REPLACEMENT
    }

    #[inline(always)]
    #[tactic(auto, using(crate::proofs::MendedTexts::replacement_code))]
    fn code(self, _byte: u8) -> [u8; 4] {
        REPLACEMENT
    }
}

impl Mending for Subparts {
    ghost use Rattle.std.specs.Prelude.{true, Some};

    ghost subparts = { true };

    ghost shown = { λ by byte. Some 0xFFFD };

    #[inline(always)]
    fn is_by_subparts() -> bool {
        true
    }

    #[inline(always)]
    fn is_replacement() -> bool {
        IS_REPLACEMENT
    }

    #[inline(always)]
    #[tactic(auto, using(crate::proofs::MendedTexts::replacement_code))]
    fn code(self, _byte: u8) -> [u8; 4] {
        REPLACEMENT
    }
}
