//! Loops whose contracts state the result: the invariant states it for the items so far, in one line.
ghost use Rattle.std.specs.Prelude.{◌≡◌, IfOk, count_by, filter, is_err, map, max, nat_eq};
ghost use Rattle.std.specs.List.{fold, list_any};
ghost use Rattle.std.specs.Str.{chars};
ghost use Rattle.encode_unicode.specs.Pieces.{pieces, placed_chars, unit_pieces};

use encode_unicode::{StrExt, U8SliceExt, U16SliceExt};
use std::alloc::{AllocError, Allocator};

/// The number of spaces in the text.
pub fn spaces(text: &str) -> usize
    ensures { result ≡ count_by (λ c. nat_eq c 32) (chars text.now) }
{
    let mut count = 0;
    for c in text.utf8chars() {
        if c.eq_char(' ') {
            count += 1;
        }
    }
    count
}

/// The number of invalid bytes.
pub fn faults(bytes: &[u8]) -> usize
    ensures { result ≡ count_by (λ x. is_err x.1) (pieces bytes.now) }
{
    let mut count = 0;
    for (_, answer, _) in bytes.utf8char_indices() {
        if answer.is_err() {
            count += 1;
        }
    }
    count
}

/// The number of lone surrogates in the units.
pub fn faulty_units(units: &[u16]) -> usize
    ensures { result ≡ count_by (λ x. is_err x.1) (unit_pieces units.now) }
{
    let mut count = 0;
    for item in units.utf16char_indices() {
        if item.1.is_err() {
            count += 1;
        }
    }
    count
}

/// The highest scalar of the text, or 0 if it is empty.
pub fn highest(text: &str) -> u32
    ensures { result ≡ fold max 0 (chars text.now) }
{
    let mut most = 0;
    for c in text.utf16chars() {
        most = most.max(c.to_char() as u32);
    }
    most
}

/// Returns true if the text has a tab.
pub fn has_tab(text: &str) -> bool
    ensures { result ≡ list_any (λ c. nat_eq c 9) (chars text.now) }
{
    let mut found = false;
    for c in text.utf8chars() {
        found = found || c.eq_char('\t');
    }
    found
}

/// The offsets of the commas of the text.
pub fn commas<A: Allocator>(alloc: A, text: &str) -> Result<Vec<usize, A>, AllocError>
    ensures { IfOk result (λ places. places.items ≡
        map (λ x. x.0) (filter (λ x. nat_eq x.1 44) (placed_chars 0 (chars text.now)))) }
{
    let mut places = Vec::new(alloc);
    for (place, c) in text.utf8char_indices() {
        if c.eq_char(',') {
            places.push(place)?;
        }
    }
    Ok(places)
}
