//! A search for ASCII text in bytes that may be damaged, as for the end of a header. A match is text, whatever
//! surrounds it: no byte of it belongs to another character.
ghost use Rattle.std.specs.Prelude.{ℕ, ◌<◌, ◌≤◌, All, IfSome, IsSomeAnd};
ghost use Rattle.examples.specs.Needles.{AreOwnPieces, StandsAt};

use encode_unicode::laws;

/// The offset of the first match of the ASCII text.
pub fn find_ascii(bytes: &[u8], needle: &[u8]) -> Option<usize>
    requires { All (λ b. b < 128) needle.now }
    ensures found { IfSome result (λ place. StandsAt bytes.now needle.now place) }
    ensures pieces { IfSome result (λ place. AreOwnPieces bytes.now needle.now place) }
    ensures first { (place : ℕ) → StandsAt bytes.now needle.now place →
        IsSomeAnd result (λ least. least ≤ place) }
{
    laws::ascii_stands_alone();
    for place in 0..(bytes.len() + 1).saturating_sub(needle.len()) {
        if &bytes[place..place + needle.len()] == needle {
            return Some(place);
        }
    }
    None
}
