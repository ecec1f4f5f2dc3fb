//! The code that ends a window, found by a scan from its end.
ghost use Rattle.std.specs.Prelude.{◌≡◌, ◌+◌, ◌-◌, ◌<◌, ◌≤◌, ◌++◌, [], ◌∷◌, drop, replicate, length};
ghost use Rattle.utf_base.specs.declared.errors.Utf8ErrorKind.TheVariants.{UnexpectedContinuationByte};
ghost use Rattle.utf_base.specs.Back.{DecodesEnd};
ghost use Rattle.utf_base.specs.Front.{as_scalar};
ghost use Rattle.encode_unicode.specs.Scan.{IsScanned, IsWholeOrUnexpected};

use crate::steps::Steps;
use utf_base::elements::is_continuation;
use utf_base::errors::{Utf8Error, Utf8ErrorKind};
use utf_base::table::{State, class_of, step};
use utf_chars::utf8_char::Utf8Char;

/// The character whose code ends the bytes, and the length of the code, otherwise the fault of the last byte.
#[inline(always)]
#[tactic(auto, using(utf_base::proofs::BackLemmas::last_four_decide, crate::proofs::ScanLemmas::last_four, crate::proofs::ScanLemmas::last_four_scanned))]
pub(crate) fn decode_end(bytes: &[u8], steps: &mut Steps) -> Result<(Utf8Char, usize), Utf8Error>
    requires { 0 < length bytes.now }
    ensures decodes { DecodesEnd as_scalar bytes.now result }
    ensures steps { IsScanned bytes.now steps.old steps.new }
{
    let n = bytes.len();
    if n < 4 {
        return decode_few(bytes, steps);
    }
    scan(
        [bytes[n - 4], bytes[n - 3], bytes[n - 2], bytes[n - 1]],
        4,
        steps,
    )
}

// Decodes the end of fewer than four bytes. This is rare, and outlined: so the path of longer inputs is short.
#[cold]
#[inline(never)]
fn decode_few(bytes: &[u8], steps: &mut Steps) -> Result<(Utf8Char, usize), Utf8Error>
    requires some { 0 < length bytes.now }
    requires few { length bytes.now < 4 }
    ensures decodes { DecodesEnd as_scalar bytes.now result }
    ensures steps { IsScanned bytes.now steps.old steps.new }
{
    scan(padded(bytes), bytes.len(), steps)
}

// Fewer than four bytes, with zeros before them.
#[inline(always)]
fn padded(bytes: &[u8]) -> [u8; 4]
    requires { length bytes.now ≤ 3 }
    ensures { result ≡ replicate (4 - length bytes.now) 0 ++ bytes.now }
{
    match bytes.len() {
        0 => [0, 0, 0, 0],
        1 => [0, 0, 0, bytes[0]],
        2 => [0, 0, bytes[0], bytes[1]],
        _ => [0, bytes[0], bytes[1], bytes[2]],
    }
}

// Scans four bytes from the end. `bytes` are the last four, with 00 for each that does not exist, and `count`
// is how many exist. It reads one byte after another, from the last one on, and ticks once for each, until one
// is no continuation byte or none is left.
#[inline(always)]
fn scan(bytes: [u8; 4], count: usize, steps: &mut Steps) -> Result<(Utf8Char, usize), Utf8Error>
    requires some { 1 ≤ count }
    requires most { count ≤ 4 }
    ensures decodes { DecodesEnd as_scalar (drop (4 - count) bytes) result }
    ensures steps { IsScanned (drop (4 - count) bytes) steps.old steps.new }
{
    steps.tick();
    if !is_continuation(bytes[3]) {
        return Utf8Char::from_slice_start(&bytes[3..]);
    }
    if count == 1 {
        return Err(unexpected());
    }
    steps.tick();
    if !is_continuation(bytes[2]) {
        return two_or_unexpected(bytes[2], bytes[3]);
    }
    if count == 2 {
        return Err(unexpected());
    }
    steps.tick();
    if !is_continuation(bytes[1]) {
        return three_or_unexpected(bytes[1], bytes[2], bytes[3]);
    }
    if count == 3 {
        return Err(unexpected());
    }
    steps.tick();
    four_or_unexpected(bytes)
}

// The character whose code the two bytes are, otherwise the error of a continuation byte. A lead byte of two leads
// to a single state.
#[inline(always)]
fn two_or_unexpected(first: u8, second: u8) -> Result<(Utf8Char, usize), Utf8Error>
    ensures { IsWholeOrUnexpected (first ∷ second ∷ []) result }
{
    if first < 0xc2 || 0xe0 <= first {
        return Err(unexpected());
    }
    if step(State::OneMore, class_of(second)) != State::Done {
        return Err(unexpected());
    }
    let c = Utf8Char::from_array_unchecked([first, second, 0, 0]);
    Ok((c, 2))
}

// The character whose code the three bytes are, otherwise the error of a continuation byte.
#[inline(always)]
#[tactic(auto, using(utf_chars::proofs::Walked::second_runs))]
fn three_or_unexpected(first: u8, second: u8, third: u8) -> Result<(Utf8Char, usize), Utf8Error>
    ensures { IsWholeOrUnexpected (first ∷ second ∷ third ∷ []) result }
{
    if first < 0xe0 || 0xf0 <= first {
        return Err(unexpected());
    }
    let two_more = step(State::Start, class_of(first));
    let one_more = step(two_more, class_of(second));
    if one_more == State::Interrupted {
        return Err(unexpected());
    }
    if step(one_more, class_of(third)) != State::Done {
        return Err(unexpected());
    }
    let c = Utf8Char::from_array_unchecked([first, second, third, 0]);
    Ok((c, 3))
}

// The character whose code the four bytes are, otherwise the error of a continuation byte.
#[inline(always)]
#[tactic(auto, using(utf_chars::proofs::Walked::second_runs))]
fn four_or_unexpected(bytes: [u8; 4]) -> Result<(Utf8Char, usize), Utf8Error>
    ensures { IsWholeOrUnexpected bytes result }
{
    if bytes[0] < 0xf0 || 0xf5 <= bytes[0] {
        return Err(unexpected());
    }
    let three_more = step(State::Start, class_of(bytes[0]));
    let two_more = step(three_more, class_of(bytes[1]));
    if two_more == State::Interrupted {
        return Err(unexpected());
    }
    let one_more = step(two_more, class_of(bytes[2]));
    if one_more == State::Interrupted {
        return Err(unexpected());
    }
    if step(one_more, class_of(bytes[3])) != State::Done {
        return Err(unexpected());
    }
    let c = Utf8Char::from_array_unchecked(bytes);
    Ok((c, 4))
}

// The error of a continuation byte that no code ends with.
#[inline(always)]
fn unexpected() -> Utf8Error
    ensures { result ≡ UnexpectedContinuationByte }
{
    Utf8Error::new(Utf8ErrorKind::UnexpectedContinuationByte)
}
