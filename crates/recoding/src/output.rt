//! Outputs for transcoded bytes.
ghost use Rattle.std.specs.Prelude.{◌≡◌, ◌≤◌, length};

use std::simd::prelude::*;

// An output to which bytes are appended: it has a fixed capacity, and does not allocate.
pub(crate) trait Output {
    ghost use Rattle.std.specs.Prelude.{ℕ, ◌+◌, ◌≤◌, List, [], ◌∷◌, ◌++◌, length};

    // The remaining capacity, in bytes.
    ghost room: { Self → ℕ };

    // The second output is the first with these bytes appended.
    ghost appends: { Self → List ℕ → Self → Type 0 };

    fn room(&self) -> usize
        ensures { result ≡ room self.now };

    // Appends the bytes.
    fn put(&mut self, bytes: &[u8])
        requires { length bytes.now ≤ room self.old }
        ensures { appends self.old bytes.now self.new };

    // Appends one byte.
    fn put_byte(&mut self, byte: u8)
        requires { 1 ≤ room self.old }
        ensures { appends self.old (byte ∷ []) self.new };

    // Appends 64 bytes.
    fn put_wide(&mut self, block: u8x64)
        requires { 64 ≤ room self.old }
        ensures { appends self.old block self.new };

    ghost appends_none: { (a : Self) → appends a [] a };

    ghost appends_more: { (a b c : Self) (xs ys : List ℕ) → appends a xs b → appends b ys c → appends a (xs ++ ys) c };

    // The capacity shrinks by no more than was appended.
    ghost appends_room: { (a b : Self) (xs : List ℕ) → appends a xs b → room a ≤ room b + length xs };
}
