//! Names that are compared without regard to the case of ASCII letters, as names of hosts and of header fields are,
//! in bytes that may be damaged.
ghost use Rattle.std.specs.Prelude.{◌≡◌, ◌↔◌, IsTrue, map};
ghost use Rattle.std.specs.Char.{to_ascii_lowercase};
ghost use Rattle.examples.specs.Cases.{ArePiecesAlike};

use encode_unicode::laws;

/// Returns true if the bytes are equal but for case. Then they are so piece by piece: no error hides a letter, and no
/// byte of another character is taken for one.
pub fn are_alike(first: &[u8], second: &[u8]) -> bool
    ensures bytes { IsTrue result ↔ (map to_ascii_lowercase first.now ≡ map to_ascii_lowercase second.now) }
    ensures pieces { IsTrue result → ArePiecesAlike first.now second.now }
{
    laws::ascii_stands_alone();
    laws::codes_never_overlap();
    first.eq_ignore_ascii_case(second)
}
