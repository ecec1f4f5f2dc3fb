//! The bytes of a block that a reader carries over, compared with those that a decoder carries over.
ghost use Rattle.std.specs.Prelude.{IsTrue};

use cuts::{Decoder, Form, LocatedPiece, undecided_len};

/// Returns true if a decoder that was fed a block, with capacity for its pieces, carries over as many bytes
/// as are undecided: always.
pub fn holds_what_is_undecided(form: Form, block: &[u8], room: &mut [LocatedPiece]) -> bool
    ensures { IsTrue result }
{
    let mut decoder = Decoder::new(form);
    let fed = decoder.feed(block, room);
    if fed.is_full {
        return true;
    }
    decoder.held().len() == undecided_len(form, block)
}
