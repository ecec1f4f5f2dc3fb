//! Pieces by their numbers: where one begins, and how many begin before an offset.
ghost use Rattle.std.specs.Prelude.{◌≡◌, length, slice_get, option_map};
ghost use Rattle.encode_unicode.specs.Pieces.{pieces, unit_pieces};
ghost use Rattle.encode_unicode.specs.Window.{Item as AnItem, UnitItem as AUnitItem};
ghost use Rattle.text_runs.specs.Tables.{IsSplitAt};

use crate::boundaries::ceil;
use crate::runs::counts::{char_count, unit_char_count};
use crate::runs::steps::{SOUGHT, next_step, offset_in_step};
use recoding::boundaries::unit_boundary_after;
use utf_lanes::unit_starts::nth_unit_start;

/// The offset of the piece with this number, counted from 0. `None` if the bytes have no more pieces. A piece is a character or one
/// invalid byte: `offset_of(b"h\xc3\xa9\xe2\x82A", 2)` is `Some(3)`.
///
/// Cost: O(n) in the offset.
pub fn offset_of(bytes: &[u8], number: usize) -> Option<usize>
    ensures { result ≡ option_map (λ (x : AnItem). x.0) (slice_get (pieces bytes.now) number) }
{
    let mut place = 0;
    let mut left = number;
    while place < bytes.len() {
        let step = next_step(&bytes[place..], SOUGHT);
        if left < step.pieces {
            let offset = offset_in_step(&bytes[place..place + step.len], step.text, left);
            return Some(place + offset);
        }
        place += step.len;
        left -= step.pieces;
    }
    None
}

/// The number of pieces that begin before this offset, or of all if it is the length or more. If a piece begins at
/// the offset, this is its number, counted from 0: `number_of(b"h\xc3\xa9\xe2\x82A", 3)` is 2.
///
/// Cost: O(n) in the offset.
pub fn number_of(bytes: &[u8], offset: usize) -> usize
    ensures { IsSplitAt (pieces bytes.now) offset result }
{
    let end = ceil(bytes, offset.min(bytes.len()));
    char_count(&bytes[..end])
}

/// The offset in units of the piece of units with this number, counted from 0. `None` if there are no more pieces. A
/// piece is a character or one lone surrogate.
///
/// Cost: O(n) in the offset.
pub fn unit_offset_of(units: &[u16], number: usize) -> Option<usize>
    ensures { result ≡ option_map (λ (x : AUnitItem). x.0) (slice_get (unit_pieces units.now) number) }
{
    nth_unit_start(units, number)
}

/// The number of pieces of units that begin before this offset in units, or of all if it is the length or more. If a
/// piece begins at the offset, this is its number, counted from 0.
///
/// Cost: O(n) in the offset.
pub fn unit_number_of(units: &[u16], offset: usize) -> usize
    ensures { IsSplitAt (unit_pieces units.now) offset result }
{
    let end = unit_boundary_after(units, offset);
    unit_char_count(&units[..end])
}
