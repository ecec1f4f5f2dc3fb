//! Lines and fields of bytes that may be damaged, by `cuts::lines` and `cuts::split_ascii`.
ghost use Rattle.std.specs.Prelude.{◌≡◌, IfOk, IfSome, None, count_by, length, max, nat_eq, not, slice_get};
ghost use Rattle.std.specs.List.{find, fold, last_or};
ghost use Rattle.encode_unicode.specs.Pieces.{pieces};
ghost use Rattle.cuts.specs.ForwardRuns.{faulty_item_count};
ghost use Rattle.cuts.specs.Splits.{LiesBetween, lines_by, split_by};

use cuts::{Span, fault_count, lines, split_ascii};
use std::alloc::{AllocError, Allocator};

/// The number of lines in the bytes.
pub fn line_count(bytes: &[u8]) -> usize
    ensures { result ≡ length (lines_by bytes.now) }
{
    lines(bytes).count()
}

/// The number of fields in a row of CSV without quotes.
pub fn field_count(row: &[u8]) -> usize
    ensures { result ≡ length (split_by 44 row.now) }
{
    split_ascii(row, b',').count()
}

/// The fields of a row of CSV without quotes.
pub fn fields<A: Allocator>(alloc: A, row: &[u8]) -> Result<Vec<Span<'_>, A>, AllocError>
    ensures { IfOk result (λ fields. fields.items ≡ split_by 44 row.now) }
{
    let mut fields = Vec::new(alloc);
    for field in split_ascii(row, b',') {
        fields.push(field)?;
    }
    Ok(fields)
}

/// The first field of a row.
pub fn first_field(row: &[u8]) -> Option<Span<'_>>
    ensures { result ≡ slice_get (split_by 44 row.now) 0 }
{
    split_ascii(row, b',').next()
}

/// The number of words between spaces.
pub fn word_count(line: &[u8]) -> usize
    ensures { result ≡ count_by (λ x. not (nat_eq (length x.bytes) 0)) (split_by 32 line.now) }
{
    split_ascii(line, b' ')
        .filter(|word| !word.is_empty())
        .count()
}

/// The length of the longest line in bytes, and 0 if there is none.
pub fn longest_line(bytes: &[u8]) -> usize
    ensures { result ≡ fold (λ most x. max most (length x.bytes)) 0 (lines_by bytes.now) }
{
    lines(bytes).fold(0, |most, line| most.max(line.len()))
}

/// The first line that is empty, with its offset.
pub fn first_empty_line(bytes: &[u8]) -> Option<Span<'_>>
    ensures lies { IfSome result (LiesBetween bytes.now) }
    ensures first { result ≡ find (λ x. nat_eq (length x.bytes) 0) (lines_by bytes.now) }
{
    lines(bytes).find(|line| line.is_empty())
}

/// The first line that has an invalid byte, with its offset.
pub fn first_damaged_line(bytes: &[u8]) -> Option<Span<'_>>
    ensures lies { IfSome result (LiesBetween bytes.now) }
    ensures first { result ≡
        find (λ x. not (nat_eq (faulty_item_count (pieces x.bytes)) 0)) (lines_by bytes.now) }
{
    lines(bytes).find(|line| fault_count(line.as_bytes()) != 0)
}

/// The field of a row with this number.
pub fn field(row: &[u8], number: usize) -> Option<Span<'_>>
    ensures lies { IfSome result (LiesBetween row.now) }
    ensures there { result ≡ slice_get (split_by 44 row.now) number }
{
    split_ascii(row, b',').nth(number)
}

/// The last field of a row.
pub fn last_field(row: &[u8]) -> Option<Span<'_>>
    ensures { result ≡ last_or None (split_by 44 row.now) }
{
    split_ascii(row, b',').last()
}
