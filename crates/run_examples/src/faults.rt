//! The first fault, the number of faults, and whether there is none: by chains over a decoder, and by laws and a call
//! of `cuts`.
ghost use Rattle.std.specs.Prelude.{◌≡◌, ◌↔◌, IsTrue, count_by, is_err, take};
ghost use Rattle.std.specs.List.{find};
ghost use Rattle.std.specs.Str.{IsUtf8};
ghost use Rattle.cuts.specs.WellFormed.{IsFirstFault};
ghost use Rattle.encode_unicode.specs.Code.{utf8};
ghost use Rattle.encode_unicode.specs.Pieces.{pieces};

use cuts::{laws, valid_up_to};
use encode_unicode::error::Utf8Error;
use encode_unicode::{U8IterExt, U8SliceExt, Utf8Char};

/// The number of invalid bytes, which is the same from either end.
pub fn fault_count(bytes: &[u8]) -> usize
    ensures { result ≡ count_by (λ x. is_err x.1) (pieces bytes.now) }
{
    laws::pieces_back_are_the_pieces(bytes);
    bytes
        .utf8char_indices()
        .rev()
        .filter(|x| x.1.is_err())
        .count()
}

/// The first invalid byte, with its offset.
pub fn first_fault(bytes: &[u8]) -> Option<(usize, Result<Utf8Char, Utf8Error>, usize)>
    ensures { result ≡ find (λ x. is_err x.1) (pieces bytes.now) }
{
    bytes.utf8char_indices().find(|x| x.1.is_err())
}

/// The length of the text before the first invalid byte.
pub fn first_fault_place(bytes: &[u8]) -> usize
    ensures first { IsFirstFault utf8 bytes.now result }
    ensures text { IsUtf8 (take result bytes.now) }
{
    laws::pieces_are_the_run();
    laws::text_has_no_fault();
    match first_fault(bytes) {
        Some((place, _, _)) => place,
        None => bytes.len(),
    }
}

/// Returns true if the bytes are UTF-8.
pub fn is_text(bytes: &[u8]) -> bool
    ensures { IsTrue result ↔ IsUtf8 bytes.now }
{
    laws::pieces_are_the_run();
    laws::text_has_no_fault();
    fault_count(bytes) == 0
}

/// Returns true if the bytes are UTF-8, by the pieces themselves.
pub fn has_characters_alone(bytes: &[u8]) -> bool
    ensures { IsTrue result ↔ IsUtf8 bytes.now }
{
    laws::text_is_all_characters(bytes);
    bytes.utf8char_indices().all(|item| item.1.is_ok())
}

/// Returns true if the bytes are UTF-8, by a merger.
pub fn is_merged_text(bytes: &[u8]) -> bool
    ensures { IsTrue result ↔ IsUtf8 bytes.now }
{
    laws::merged_is_all_characters(bytes);
    bytes.iter().copied().to_utf8chars().all(|r| r.is_ok())
}

/// Returns true if the bytes are UTF-8, by the length of the well-formed front.
pub fn is_well_formed(bytes: &[u8]) -> bool
    ensures { IsTrue result ↔ IsUtf8 bytes.now }
{
    valid_up_to(bytes) == bytes.len()
}
