//! Chains over a decoder from the end: contracts state the result by `pieces_back`, the list of the items of
//! `rev`.
ghost use Rattle.std.specs.Prelude.{◌≡◌, None, count_by, is_err, is_ok, position};
ghost use Rattle.std.specs.List.{find, last_or, list_all};
ghost use Rattle.encode_unicode.specs.BackPieces.{pieces_back, unit_pieces_back};

use encode_unicode::error::Utf8Error;
use encode_unicode::{U8SliceExt, U16SliceExt, Utf8Char};

/// The last invalid byte, with its offset.
pub fn last_fault(bytes: &[u8]) -> Option<(usize, Result<Utf8Char, Utf8Error>, usize)>
    ensures { result ≡ find (λ x. is_err x.1) (pieces_back bytes.now) }
{
    bytes.utf8char_indices().rev().find(|x| x.1.is_err())
}

/// The number of invalid bytes at the end; those of a truncated character count too. `None` if there is
/// nothing else.
pub fn faults_at_end(bytes: &[u8]) -> Option<usize>
    ensures { result ≡ position (λ x. is_ok x.1) (pieces_back bytes.now) }
{
    bytes.utf8char_indices().rev().position(|x| x.1.is_ok())
}

/// Returns true if no byte is invalid, scanning from the end.
pub fn has_no_fault(bytes: &[u8]) -> bool
    ensures { result ≡ list_all (λ x. is_ok x.1) (pieces_back bytes.now) }
{
    bytes.utf8char_indices().rev().all(|x| x.1.is_ok())
}

/// The first piece, as the last one from the end.
pub fn first_piece(bytes: &[u8]) -> Option<(usize, Result<Utf8Char, Utf8Error>, usize)>
    ensures { result ≡ last_or None (pieces_back bytes.now) }
{
    bytes.utf8char_indices().rev().last()
}

/// The number of lone surrogates in the units, counted from the end.
pub fn unit_fault_count(units: &[u16]) -> usize
    ensures { result ≡ count_by (λ x. is_err x.1) (unit_pieces_back units.now) }
{
    units
        .utf16char_indices()
        .rev()
        .filter(|x| x.1.is_err())
        .count()
}
