//! The bytes at the end of a block that later ones decide, and that have to wait for them.
ghost use Rattle.std.specs.Prelude.{◌≤◌, length};
ghost use Rattle.text_stream.specs.UndecidedEnds.{IsLenOfHeld, IsUndecidedEnd};

use crate::first_pieces::front_of;
use recoding::boundaries::boundary_before;
use recoding::form::Form;

/// The number of bytes at the end of these, 0 to 3, that depend on the bytes that follow: carry them over to the
/// front of the next block. A `Decoder` that was fed just these bytes carries over as many:
/// `undecided_len(Form::Utf8, b"a\xe2\x82")` is 2.
///
/// These bytes may yet become a character, or be invalid for another reason. If no byte follows, they are invalid.
///
/// Cost: constant.
pub fn undecided_len(form: Form, bytes: &[u8]) -> usize
    ensures end { IsUndecidedEnd form bytes.now result }
    ensures held { IsLenOfHeld form bytes.now result }
    ensures few { result ≤ 3 }
    ensures within { result ≤ length bytes.now }
{
    let mut place = boundary_before(form, bytes, bytes.len().saturating_sub(3));
    while place < bytes.len() {
        let Some(front) = front_of(form, &bytes[place..]) else {
            return bytes.len() - place;
        };
        place += front.len();
    }
    0
}
