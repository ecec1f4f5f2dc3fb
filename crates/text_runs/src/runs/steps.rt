//! Bytes that are scanned step by step: ASCII in blocks, and otherwise text with the piece after it.
ghost use Rattle.std.specs.Prelude.{◌≡◌, ◌+◌, ◌<◌, ◌≤◌, Some, length, option_map, slice_get, take};
ghost use Rattle.std.specs.Str.{IsUtf8};
ghost use Rattle.encode_unicode.specs.Pieces.{pieces};
ghost use Rattle.encode_unicode.specs.Window.{Item as AnItem};
ghost use Rattle.text_runs.specs.PieceSteps.{IsPieceStep};

use crate::runs::well_formed::valid_up_to;
use encode_unicode::CharExt;
use utf_lanes::ascii_texts::ascii_wide_end;
use utf_lanes::starts::{nth_start, starts_in};

/// The number of bytes that are validated in one step if all pieces are counted: they stay in the cache until
/// they are counted.
pub const COUNTED: usize = 16_384;

/// The number of bytes that are validated in one step if one piece is sought, so that the search stops soon
/// after it.
pub const SOUGHT: usize = 4096;

/// Bytes at the front: valid ones, followed by at most one character or invalid byte.
#[derive(Clone, Copy, Drop)]
pub struct Step {
    /// The number of bytes.
    pub len: usize,
    /// The number of characters and invalid bytes.
    pub pieces: usize,
    /// The number of invalid bytes.
    pub faults: usize,
    /// The number of valid bytes at the front.
    pub text: usize,
}

/// The next step over some bytes, of which no more than `most` are validated: valid bytes, and the character or invalid
/// byte after them.
///
/// Condition: there is a byte.
///
/// Cost: O(m), m = the length of the step.
pub fn next_step(bytes: &[u8], most: usize) -> Step
    requires { 0 < length bytes.now }
    ensures some { 0 < result.len }
    ensures step { IsPieceStep bytes.now result }
{
    let part = &bytes[..bytes.len().min(most)];
    let ascii = ascii_wide_end(part, 0);
    if 0 < ascii {
        return Step {
            len: ascii,
            pieces: ascii,
            faults: 0,
            text: ascii,
        };
    }
    let text = valid_up_to(part);
    let starts = starts_in(&part[..text]);
    if text == bytes.len() {
        return Step {
            len: text,
            pieces: starts,
            faults: 0,
            text,
        };
    }
    let piece = piece_step(&bytes[text..]);
    Step {
        len: text + piece.len,
        pieces: starts + 1,
        faults: piece.faults,
        text,
    }
}

/// The step over the character or invalid byte that begins some bytes.
///
/// Condition: there is a byte.
#[inline(always)]
pub fn piece_step(bytes: &[u8]) -> Step
    requires { 0 < length bytes.now }
    ensures some { 0 < result.len }
    ensures one { result.pieces ≡ 1 }
    ensures step { IsPieceStep bytes.now result }
{
    let (len, faults) = match char::from_utf8_slice_start(bytes) {
        Ok((_, len)) => (len, 0),
        Err(_) => (1, 1),
    };
    Step {
        len,
        pieces: 1,
        faults,
        text: 0,
    }
}

/// The offset of the character or invalid byte with this number in the bytes of a step: among the valid bytes at
/// their front, or after them.
///
/// Condition: `text` bytes at the front are valid, the number is below that of all pieces, and at most one piece
/// follows the valid bytes.
///
/// Cost: O(n).
pub fn offset_in_step(bytes: &[u8], text: usize, number: usize) -> usize
    requires within { text ≤ length bytes.now }
    requires text { IsUtf8 (take text bytes.now) }
    requires some { number < length (pieces bytes.now) }
    requires most { length (pieces bytes.now) ≤ length (pieces (take text bytes.now)) + 1 }
    ensures { Some result ≡ option_map (λ (x : AnItem). x.0) (slice_get (pieces bytes.now) number) }
{
    nth_start(&bytes[..text], number).unwrap_or(text)
}
