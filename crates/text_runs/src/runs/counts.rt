//! The number of characters and of faults in some bytes.
ghost use Rattle.std.specs.Prelude.{◌≡◌, length};
ghost use Rattle.encode_unicode.specs.Pieces.{pieces, unit_pieces};
ghost use Rattle.text_runs.specs.ForwardRuns.{faulty_item_count};

use crate::runs::steps::{COUNTED, next_step};
use crate::runs::well_formed::valid_up_to;
use encode_unicode::iterator::Utf8CharDecoder;
use utf_lanes::unit_starts::unit_starts_in;

/// The number of invalid bytes: 0 if and only if the bytes are valid UTF-8.
///
/// Cost: O(n). Text is scanned as fast as by `valid_up_to`.
pub fn fault_count(bytes: &[u8]) -> usize
    ensures { result ≡ faulty_item_count (pieces bytes.now) }
{
    let mut place = 0;
    let mut faults = 0;
    while let Some((_, answer, len)) = Utf8CharDecoder::from(&bytes[place..]).next() {
        place += len;
        match answer {
            Ok(_) => place += valid_up_to(&bytes[place..]),
            Err(_) => faults += 1,
        }
    }
    faults
}

/// The number of pieces in the bytes: a character is one, and so is each invalid byte.
///
/// Cost: O(n).
pub fn char_count(bytes: &[u8]) -> usize
    ensures { result ≡ length (pieces bytes.now) }
{
    let mut place = 0;
    let mut count = 0;
    while place < bytes.len() {
        let step = next_step(&bytes[place..], COUNTED);
        place += step.len;
        count += step.pieces;
    }
    count
}

/// The number of pieces in the units: a character is one, and so is each lone surrogate.
///
/// Cost: O(n), in blocks, also over lone surrogates.
pub fn unit_char_count(units: &[u16]) -> usize
    ensures { result ≡ length (unit_pieces units.now) }
{
    unit_starts_in(units)
}
