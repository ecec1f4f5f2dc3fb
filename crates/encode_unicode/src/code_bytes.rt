//! The bytes of a code.
ghost use Rattle.std.specs.Prelude.{◌≡◌, ◌<◌, ◌≤◌, [], ◌∷◌};

use std::marker::Model;

/// Four bytes; those beyond the length of the code are zero. Contracts see their list.
///
/// Each is a 32-bit number of its own: compilers pack adjacent bytes into one number, and unpack them again when the
/// character is used. The first is rebuilt with the bits that determine the length: they are there already, but so
/// the compiler knows the length, and does not test it when the character is used.
#[derive(Drop)]
pub(crate) struct CodeBytes {
    first: u32,
    second: u32,
    third: u32,
    fourth: u32,
}

impl Model for CodeBytes {
    ghost use Rattle.std.specs.Prelude.{List, ℕ, [], ◌∷◌, ◌<◌};

    ghost Value = { List ℕ };

    ghost view = { λ f. f.first ∷ f.second ∷ f.third ∷ f.fourth ∷ [] };

    ghost invariant = { λ f. (f.first < 256) × (f.second < 256) × (f.third < 256) × (f.fourth < 256) };
}

impl CodeBytes {
    /// A code of one byte.
    #[inline(always)]
    pub(crate) fn one(first: u8) -> CodeBytes
        requires { first < 0x80 }
        ensures { result ≡ first ∷ 0 ∷ 0 ∷ 0 ∷ [] }
    {
        CodeBytes {
            first: (first & 0x7f) as u32,
            second: 0,
            third: 0,
            fourth: 0,
        }
    }

    /// A code of two bytes.
    #[inline(always)]
    pub(crate) fn two(first: u8, second: u8) -> CodeBytes
        requires { (0xC0 ≤ first) × (first < 0xE0) }
        ensures { result ≡ first ∷ second ∷ 0 ∷ 0 ∷ [] }
    {
        CodeBytes {
            first: (0xc0 | first & 0x1f) as u32,
            second: second as u32,
            third: 0,
            fourth: 0,
        }
    }

    /// A code of three bytes.
    #[inline(always)]
    pub(crate) fn three(first: u8, second: u8, third: u8) -> CodeBytes
        requires { (0xE0 ≤ first) × (first < 0xF0) }
        ensures { result ≡ first ∷ second ∷ third ∷ 0 ∷ [] }
    {
        CodeBytes {
            first: (0xe0 | first & 0x0f) as u32,
            second: second as u32,
            third: third as u32,
            fourth: 0,
        }
    }

    /// A code of four bytes.
    #[inline(always)]
    pub(crate) fn four(first: u8, second: u8, third: u8, fourth: u8) -> CodeBytes
        requires { (0xF0 ≤ first) × (first < 0xF8) }
        ensures { result ≡ first ∷ second ∷ third ∷ fourth ∷ [] }
    {
        CodeBytes {
            first: (0xf0 | first & 0x07) as u32,
            second: second as u32,
            third: third as u32,
            fourth: fourth as u32,
        }
    }

    /// All four bytes.
    #[inline(always)]
    pub(crate) fn to_array(self) -> [u8; 4]
        ensures { result ≡ self }
    {
        let first = (self.first % 256) as u8;
        let second = (self.second % 256) as u8;
        let third = (self.third % 256) as u8;
        let fourth = (self.fourth % 256) as u8;
        [first, second, third, fourth]
    }
}
