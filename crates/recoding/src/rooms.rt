//! The capacity that transcoding needs, and the progress of a call with a limited one.
ghost use Rattle.std.specs.Prelude.{◌≡◌, ◌≤◌, ◌^◌, IfSome, IfNone};
ghost use Rattle.recoding.specs.Rooms.{most_bytes, widest, IsRoomFor};

use crate::form::Form;
use crate::form_calls::count_parts;

/// An upper bound, in bytes, of the output for `len` bytes of input. Into UTF-8 it is three for each byte of
/// UTF-8, or for each unit of UTF-16. Into UTF-16 it is two. An odd byte at the end counts as a unit. `None`
/// if a `usize` cannot hold the number.
///
/// For a part that you feed to a recoder, `len` is the length of the part plus the number of bytes that the
/// recoder carries over.
pub fn room_for(from: Form, to: Form, len: usize) -> Option<usize>
    ensures most { IfSome result (λ n. n ≡ most_bytes from to len) }
    ensures enough { IfSome result (λ n. IsRoomFor from to len n) }
    ensures none { IfNone result (2 ^ 64 ≤ most_bytes from to len) }
{
    count_parts(from, len).checked_mul(bytes_each(to))
}

fn bytes_each(to: Form) -> usize
    ensures { result ≡ widest to }
{
    match to {
        Form::Utf8 => 3,
        Form::Utf16Le | Form::Utf16Be => 2,
    }
}

/// The progress of a call that writes into a buffer of a fixed size.
#[derive(Clone, Copy, Debug, PartialEq, Eq, Drop)]
pub struct Progress {
    /// The number of bytes of the part that were read.
    pub read: usize,
    /// The number of bytes of the buffer that were written, from its front. The rest of it may hold anything.
    pub written: usize,
    /// The number of invalid bytes, lone surrogates and odd last bytes that this call replaced by U+FFFD.
    pub replaced: usize,
    /// Whether the call ended because the next character does not fit into the buffer that remained.
    pub is_full: bool,
}
