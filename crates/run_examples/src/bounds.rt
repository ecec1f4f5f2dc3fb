//! How much capacity is enough, by the laws on the number of pieces and on the length of transcoded text.
ghost use Rattle.std.specs.Prelude.{◌≡◌, ◌*◌, ◌≤◌, IfOk, length, take};
ghost use Rattle.cuts.specs.Bounds.{HasRoom};
ghost use Rattle.cuts.specs.Recoded.{IsRecoded};
ghost use Rattle.encode_unicode.specs.Pieces.{pieces};

use crate::parts::append_recoded;
use cuts::{Form, Recoder, laws, room_for};
use encode_unicode::U8SliceExt;
use encode_unicode::laws::runs_are_bounded;
use std::alloc::{AllocError, Allocator};

/// The number of pieces in the bytes. A table with an entry for each byte has one for each piece.
pub fn count_pieces(bytes: &[u8]) -> usize
    ensures count { result ≡ length (pieces bytes.now) }
    ensures most { result ≤ length bytes.now }
    ensures least { length bytes.now ≤ 4 * result }
{
    runs_are_bounded();
    bytes.utf8char_indices().count()
}

/// The bytes as text, with U+FFFD for each invalid one, in memory that is allocated before the first byte is read.
/// So a program that limits its input limits its output.
pub fn lossy_text<A: Allocator>(alloc: A, bytes: &[u8]) -> Result<Vec<u8, A>, AllocError>
    ensures text { IfOk result (λ out. IsRecoded Form.Utf8 Form.Utf8 bytes.now out.items) }
    ensures most { IfOk result (λ out. length out.items ≤ 3 * length bytes.now) }
{
    laws::recoded_is_bounded();
    let mut out = Vec::with_capacity(alloc, bytes.len().saturating_mul(3))?;
    let mut recoder = Recoder::new(Form::Utf8, Form::Utf8);
    recoder.feed(bytes, &mut out)?;
    recoder.finish(&mut out)?;
    Ok(out)
}

/// The bytes in another encoding, in a vector whose capacity for all of it is allocated before the first byte
/// is read.
pub fn recoded<A: Allocator>(
    alloc: A,
    from: Form,
    to: Form,
    bytes: &[u8],
) -> Result<Vec<u8, A>, AllocError>
    ensures { IfOk result (λ out. IsRecoded from to bytes.now out.items) }
{
    let len = room_for(from, to, bytes.len()).ok_or(AllocError)?;
    let mut room = vec![in alloc; 0; len]?;
    let written = recode_whole(from, to, bytes, &mut room);
    room.truncate(written);
    Ok(room)
}

/// Transcodes the bytes into a buffer that can hold all of it, and returns how much is written.
pub fn recode_whole(from: Form, to: Form, bytes: &[u8], room: &mut [u8]) -> usize
    requires { HasRoom from to bytes.now (length room.old) }
    ensures { IsRecoded from to bytes.now (take result room.new) }
{
    laws::room_is_enough();
    let mut recoder = Recoder::new(from, to);
    let fed = recoder.feed_into(bytes, room);
    let ended = recoder.finish_into(&mut room[fed.written..]);
    fed.written + ended.written
}

/// The bytes in another encoding, which are at most three times as many.
pub fn recoded_briefly<A: Allocator>(
    alloc: A,
    from: Form,
    to: Form,
    bytes: &[u8],
) -> Result<Vec<u8, A>, AllocError>
    ensures { IfOk result (λ out. length out.items ≤ 3 * length bytes.now) }
{
    laws::recoded_is_bounded();
    let mut made = Vec::new(alloc);
    append_recoded(&mut made, from, to, bytes)?;
    Ok(made)
}
