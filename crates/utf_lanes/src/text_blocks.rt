//! The length of the text at the front of bytes, validated in blocks of sixteen, and of 64 by vectors of 32.
//!
//! A byte is validated by the three before it: three look-ups decide whether it may follow the one before it,
//! and the two before that decide whether a code of three or four bytes has to continue (Keiser and Lemire,
//! "Validating UTF-8 in less than one instruction per byte", 2021).
ghost use Rattle.std.specs.Prelude.{◌≡◌, ℕ, ◌+◌, ◌<◌, ◌≤◌, ◌∷◌, length, take, slice_index, slice_range, IsTrue, IsUtf8};
ghost use Rattle.utf_lanes.specs.AsciiTexts.{AreAscii};
ghost use Rattle.utf_lanes.specs.TextBlocks.{AllMayFollow, ArePairsLeft, EndsCharacter, ZeroLanesFollow, ZerosFollow};

use crate::ascii_texts::{ascii_end, ascii_wide_end, is_ascii_block, is_ascii_each};
use crate::few_bytes::{before_lanes, padded_text};
use crate::look_ups::LookUp;
use crate::text_front::front_of_text;
use std::simd::prelude::*;
use utf_base::elements::is_continuation;

// The faults of a byte after the one before it. A bit is left if all three tables have it.
const MISSING: u8 = 0x01;

const STRAY: u8 = 0x02;

const OVERLONG_TWO: u8 = 0x04;

const OVERLONG_THREE: u8 = 0x08;

const SURROGATE: u8 = 0x10;

const TOO_HIGH: u8 = 0x20;

const OVERLONG_FOUR: u8 = 0x40;
// Two continuation bytes, which is a fault unless a code of three or four bytes continues.
const SECOND: u8 = 0x80;

// Indexed by the upper half of the byte before.
const BEFORE_HIGH: [u8; 16] = [
    STRAY,
    STRAY,
    STRAY,
    STRAY,
    STRAY,
    STRAY,
    STRAY,
    STRAY,
    SECOND,
    SECOND,
    SECOND,
    SECOND,
    MISSING | OVERLONG_TWO,
    MISSING,
    MISSING | OVERLONG_THREE | SURROGATE,
    MISSING | TOO_HIGH | OVERLONG_FOUR,
];

// The faults that the lower half of the byte before does not exclude.
const ANY: u8 = MISSING | STRAY | SECOND;

// The faults after a first byte from 0xf5 on, which is too high whatever follows it.
const BEYOND: u8 = ANY | TOO_HIGH | OVERLONG_FOUR;

// Indexed by the lower half of the byte before.
const BEFORE_LOW: [u8; 16] = [
    ANY | OVERLONG_TWO | OVERLONG_THREE | OVERLONG_FOUR,
    ANY | OVERLONG_TWO,
    ANY,
    ANY,
    ANY | TOO_HIGH,
    BEYOND,
    BEYOND,
    BEYOND,
    BEYOND,
    BEYOND,
    BEYOND,
    BEYOND,
    BEYOND,
    BEYOND | SURROGATE,
    BEYOND,
    BEYOND,
];

// The faults that any continuation byte may have.
const CONTINUATION: u8 = STRAY | SECOND | OVERLONG_TWO;

// Indexed by the upper half of the byte.
const HERE_HIGH: [u8; 16] = [
    MISSING,
    MISSING,
    MISSING,
    MISSING,
    MISSING,
    MISSING,
    MISSING,
    MISSING,
    CONTINUATION | OVERLONG_THREE | OVERLONG_FOUR,
    CONTINUATION | OVERLONG_THREE | TOO_HIGH,
    CONTINUATION | SURROGATE | TOO_HIGH,
    CONTINUATION | SURROGATE | TOO_HIGH,
    MISSING,
    MISSING,
    MISSING,
    MISSING,
];

/// The length of the text at the front in bytes: of nearly all of it, if there are more than a few bytes.
#[inline]
pub fn text_len(bytes: &[u8]) -> usize
    ensures within { result ≤ length bytes.now }
    ensures text { IsUtf8 (take result bytes.now) }
    ensures all { 4 ≤ length bytes.now → IsUtf8 bytes.now → result ≡ length bytes.now }
    ensures ascii { AreAscii bytes.now 0 (length bytes.now) → result ≡ length bytes.now }
    ensures near { 19 ≤ length bytes.now → (n : ℕ) → n ≤ length bytes.now → IsUtf8 (take n bytes.now) →
        n ≤ result + 4 }
{
    if bytes.len() < 19 {
        return few_len(bytes);
    }
    let end = valid_len(bytes);
    if end == bytes.len() && ends_character(bytes, end) {
        return end;
    }
    last_code_start(bytes, end)
}

// The length of the text at the front of a few bytes.
#[inline(always)]
fn few_len(bytes: &[u8]) -> usize
    ensures within { result ≤ length bytes.now }
    ensures text { IsUtf8 (take result bytes.now) }
    ensures all { 4 ≤ length bytes.now → IsUtf8 bytes.now → result ≡ length bytes.now }
    ensures ascii { length bytes.now < 4 → AreAscii bytes.now 0 (length bytes.now) → result ≡ length bytes.now }
{
    let start = last_start(bytes);
    if are_text(&bytes[start..]) {
        return bytes.len();
    }
    few_chars(bytes, 3)
}

// The length of the first characters, so that at most sixteen bytes are left after them if there is no fault.
#[inline(always)]
fn last_start(bytes: &[u8]) -> usize
    ensures within { result ≤ length bytes.now }
    ensures text { IsUtf8 (take result bytes.now) }
    ensures none { length bytes.now ≤ 16 → result ≡ 0 }
    ensures some { 4 ≤ length bytes.now → result + 4 ≤ length bytes.now }
    ensures few { IsUtf8 bytes.now → length bytes.now ≤ result + 16 }
{
    if bytes.len() <= 16 {
        return 0;
    }
    few_chars(bytes, bytes.len() - 16)
}

/// Returns true if the bytes are text, validated in one step; false if they are more than sixteen.
#[inline(always)]
pub fn are_text(bytes: &[u8]) -> bool
    ensures text { IsTrue result → IsUtf8 bytes.now }
    ensures all { 4 ≤ length bytes.now → length bytes.now ≤ 16 → IsUtf8 bytes.now → IsTrue result }
    ensures ascii { length bytes.now < 4 → AreAscii bytes.now 0 (length bytes.now) → IsTrue result }
{
    if bytes.len() < 4 {
        return is_ascii_each(bytes);
    }
    if 16 < bytes.len() {
        return false;
    }
    first_fault(faults_at_front(padded_text(bytes))) == 16 && ends_character(bytes, bytes.len())
}

// The length of the first characters: until they have `least` bytes, and up to the first fault.
#[inline(never)]
fn few_chars(bytes: &[u8], least: usize) -> usize
    ensures within { result ≤ length bytes.now }
    ensures text { IsUtf8 (take result bytes.now) }
    ensures most { result < least + 4 }
    ensures all { IsUtf8 bytes.now → least + 3 ≤ length bytes.now → least ≤ result }
{
    let mut place = 0;
    while place < least {
        match front_of_text(&bytes[place..]) {
            None => return place,
            Some((_, len)) => place += len,
        }
    }
    place
}

/// Returns where the valid text ends that begins at an offset, as far as blocks of 64 bytes show, less its last character.
#[inline(always)]
pub fn text_end(bytes: &[u8], start: usize) -> usize
    requires start { 3 ≤ start }
    requires within { start ≤ length bytes.now }
    requires closed { EndsCharacter bytes.now start }
    ensures least { start ≤ result }
    ensures within { result ≤ length bytes.now }
    ensures text { IsUtf8 (slice_range bytes.now start result) }
{
    let end = valid_len_in_batches(bytes, start);
    start + last_code_start(&bytes[start..], end - start)
}

// The offset of the first byte that may not follow the three before it, or the length. NULs are taken to precede the
// first.
#[inline(always)]
fn valid_len(bytes: &[u8]) -> usize
    requires { 19 ≤ length bytes.now }
    ensures within { result ≤ length bytes.now }
    ensures follow { AllMayFollow (0 ∷ 0 ∷ 0 ∷ bytes.now) 3 (result + 3) }
    ensures all { (n : ℕ) → n ≤ length bytes.now → AllMayFollow (0 ∷ 0 ∷ 0 ∷ bytes.now) 3 (n + 3) → n ≤ result }
{
    let count = first_fault(faults_at_front(u8x16::from_slice(bytes)));
    if count < 16 {
        return count;
    }
    valid_len_by_lanes(bytes, valid_len_in_blocks(bytes))
}

// The offset up to which bytes from the first sixteen on may follow the three before them, in blocks of 64. In a
// longer text the blocks begin at 32: if the text is 64-byte aligned in memory, as a mapped file is, a CPU reads
// 32-byte vectors faster from there.
#[inline(always)]
fn valid_len_in_blocks(bytes: &[u8]) -> usize
    requires { 19 ≤ length bytes.now }
    ensures least { 16 ≤ result }
    ensures within { result ≤ length bytes.now }
    ensures follow { AllMayFollow bytes.now 16 result }
{
    if bytes.len() < 256 {
        return valid_len_wide(bytes, 16);
    }
    if valid_lanes(bytes, 16) < 16 {
        return 16;
    }
    valid_len_in_batches(bytes, 32)
}

// The offset up to which bytes from `start` on may follow the three before them, in blocks of 64, up to the
// first block in which some byte may not.
#[inline(always)]
fn valid_len_wide(bytes: &[u8], start: usize) -> usize
    requires start { 3 ≤ start }
    requires within { start ≤ length bytes.now }
    ensures least { start ≤ result }
    ensures within { result ≤ length bytes.now }
    ensures follow { AllMayFollow bytes.now start result }
{
    let mut place = start;
    while 64 <= bytes.len() - place {
        if is_ascii_block(bytes, place) && ends_character(bytes, place) {
            place = ascii_end::<1>(bytes, place + 64);
        } else if follows_block(bytes, place) {
            place += 64;
        } else {
            return place;
        }
    }
    place
}

// The offset up to which bytes of a longer text may follow the three before them. Blocks are tested for ASCII only
// between batches of text: after one block, then after two more, and so on up to sixteen. So text with some ASCII
// blocks skips a test that would mispredict.
#[inline(always)]
fn valid_len_in_batches(bytes: &[u8], start: usize) -> usize
    requires start { 3 ≤ start }
    requires within { start ≤ length bytes.now }
    ensures least { start ≤ result }
    ensures within { result ≤ length bytes.now }
    ensures follow { AllMayFollow bytes.now start result }
{
    let mut end = start;
    let mut reach = 0;
    while 64 <= bytes.len() - end {
        if is_ascii_block(bytes, end) && ends_character(bytes, end) {
            end = ascii_wide_end(bytes, end + 64);
            reach = 0;
        } else {
            let last = (end + reach).min(bytes.len() - 64);
            end = batch_end(bytes, end, last);
            if end <= last {
                return end;
            }
            reach = (2 * reach + 64).min(15 * 64);
        }
    }
    end
}

// The end of the 64-byte blocks in which each byte may follow, of those from the start up to `last`. The first block
// precedes the loop: so a compiler that hoists nothing out of loops has the tables in registers there.
#[inline(always)]
fn batch_end(bytes: &[u8], start: usize, last: usize) -> usize
    requires start { 3 ≤ start }
    requires some { start ≤ last }
    requires within { last + 64 ≤ length bytes.now }
    ensures least { start ≤ result }
    ensures within { result ≤ length bytes.now }
    ensures follow { AllMayFollow bytes.now start result }
{
    if !follows_block(bytes, start) {
        return start;
    }
    let mut place = start + 64;
    while place <= last {
        if !follows_block(bytes, place) {
            return place;
        }
        place += 64;
    }
    place
}

// The offset up to which bytes may follow the three before them, in blocks of sixteen, of which the last ends
// with the bytes.
#[inline(always)]
fn valid_len_by_lanes(bytes: &[u8], start: usize) -> usize
    requires enough { 19 ≤ length bytes.now }
    requires start { 3 ≤ start }
    requires within { start ≤ length bytes.now }
    ensures within { result ≤ length bytes.now }
    ensures follow { AllMayFollow bytes.now start result }
    ensures all { (n : ℕ) → n ≤ length bytes.now → AllMayFollow bytes.now 3 n → n ≤ result }
{
    let mut place = start;
    while place < bytes.len() {
        let block = place.min(bytes.len() - 16);
        let count = valid_lanes(bytes, block);
        if count < 16 {
            return block + count;
        }
        place = block + 16;
    }
    place
}

// Returns true if each of the 64 bytes from the offset on may follow the three before it. The next offset does not
// depend on this result, so that the CPU overlaps several blocks: the loop above branches on it.
#[inline(always)]
fn follows_block(bytes: &[u8], place: usize) -> bool
    requires start { 3 ≤ place }
    requires within { place + 64 ≤ length bytes.now }
    ensures follow { IsTrue result → AllMayFollow bytes.now place (place + 64) }
    ensures all { AllMayFollow bytes.now place (place + 64) → IsTrue result }
{
    let either = faults_at::<32>(bytes, place) | faults_at::<32>(bytes, place + 32);
    either.simd_ne(u8x32::splat(0)).to_bitmask() == 0
}

/// Returns true if no sequence is still open at `place`.
#[inline(always)]
pub fn ends_character(bytes: &[u8], place: usize) -> bool
    requires start { 3 ≤ place }
    requires within { place ≤ length bytes.now }
    ensures closed { IsTrue result → EndsCharacter bytes.now place }
    ensures all { EndsCharacter bytes.now place → IsTrue result }
{
    bytes[place - 1] < 0xc0 && bytes[place - 2] < 0xe0 && bytes[place - 3] < 0xf0
}

// The number of the sixteen bytes from the offset on that may follow the three before them, up to the first that
// may not.
#[inline(always)]
fn valid_lanes(bytes: &[u8], place: usize) -> usize
    requires start { 3 ≤ place }
    requires within { place + 16 ≤ length bytes.now }
    ensures most { result ≤ 16 }
    ensures follow { AllMayFollow bytes.now place (place + result) }
    ensures all { (n : ℕ) → n ≤ 16 → AllMayFollow bytes.now place (place + n) → n ≤ result }
{
    first_fault(faults_at::<16>(bytes, place))
}

// The number of lanes that are 0, up to the first that is not.
#[inline(always)]
fn first_fault(faults: u8x16) -> usize
    ensures most { result ≤ 16 }
    ensures none { (k : ℕ) → k < result → slice_index faults k ≡ 0 }
    ensures all { (n : ℕ) → n ≤ 16 → ((k : ℕ) → k < n → slice_index faults k ≡ 0) → n ≤ result }
{
    let wrong = faults.simd_ne(u8x16::splat(0)).to_bitmask();
    if wrong == 0 {
        16
    } else {
        wrong.trailing_zeros() as usize
    }
}

// The fault of each byte from the offset on, as many as a vector has lanes, after the three before it: 0 if there
// is none.
#[inline]
fn faults_at<const N: usize>(bytes: &[u8], place: usize) -> Simd<u8, N>
where
    Simd<u8, N>: LookUp<N>,
    requires start { 3 ≤ place }
    requires within { place + N ≤ length bytes.now }
    ensures len { length result ≡ N }
    ensures lanes { ZerosFollow bytes.now place result }
{
    let here = Simd::from_slice(&bytes[place..]);
    let first = Simd::from_slice(&bytes[place - 1..]);
    let second = Simd::from_slice(&bytes[place - 2..]);
    let third = Simd::from_slice(&bytes[place - 3..]);
    faults_after(third, second, first, here)
}

// The fault of each of sixteen bytes that NULs precede.
#[inline(always)]
fn faults_at_front(here: u8x16) -> u8x16
    ensures len { length result ≡ 16 }
    ensures lanes { ZerosFollow (0 ∷ 0 ∷ 0 ∷ here) 3 result }
{
    let (one, two, three) = before_lanes(here);
    faults_after(three, two, one, here)
}

// The fault of each byte of a vector, by the vectors that have the three bytes before each.
#[inline(always)]
fn faults_after<const N: usize>(
    third: Simd<u8, N>,
    second: Simd<u8, N>,
    first: Simd<u8, N>,
    here: Simd<u8, N>,
) -> Simd<u8, N>
where
    Simd<u8, N>: LookUp<N>,
    ensures len { length result ≡ N }
    ensures lanes { ZeroLanesFollow third.entry second.entry first.entry here.entry result }
{
    let left = pairs(first, here);
    let long = second.saturating_sub(Simd::splat(0xe0 - 0x80))
        | third.saturating_sub(Simd::splat(0xf0 - 0x80));
    (long & Simd::splat(SECOND)) ^ left
}

// The bits that the tables leave of each byte after the one before it.
#[inline(always)]
pub(crate) fn pairs<const N: usize>(before: Simd<u8, N>, here: Simd<u8, N>) -> Simd<u8, N>
where
    Simd<u8, N>: LookUp<N>,
    ensures len { length result ≡ N }
    ensures lanes { ArePairsLeft before.entry here.entry result }
{
    let high = Simd::<u8, N>::look_up(&BEFORE_HIGH, before >> Simd::splat(4));
    let low = Simd::<u8, N>::look_up(&BEFORE_LOW, before & Simd::splat(15));
    high & low & Simd::<u8, N>::look_up(&HERE_HIGH, here >> Simd::splat(4))
}

// The last offset before the end at which a code begins, or 0.
#[inline(always)]
fn last_code_start(bytes: &[u8], end: usize) -> usize
    requires within { end ≤ length bytes.now }
    requires follow { AllMayFollow (0 ∷ 0 ∷ 0 ∷ bytes.now) 3 (end + 3) }
    ensures within { result ≤ length bytes.now }
    ensures text { IsUtf8 (take result bytes.now) }
    ensures near { end ≤ result + 4 }
{
    let mut place = end;
    while 0 < place {
        place -= 1;
        if !is_continuation(bytes[place]) {
            return place;
        }
    }
    0
}
