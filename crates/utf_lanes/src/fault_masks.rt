//! The invalid bytes of a window of 64, as a mask of 64 bits. Whether bytes are a character depends only on these bytes, so a window
//! needs no byte before it, and may begin right after an invalid one.
ghost use Rattle.std.specs.Prelude.{◌≡◌, ◌↔◌, List, ℕ, ◌+◌, ◌^◌, ◌<◌, ◌≤◌, drop, length, None, Some};
ghost use Rattle.std.specs.Int.{w64, bit_at, trailing_zeros};
ghost use Rattle.utf_base.specs.Code.{utf8};
ghost use Rattle.utf_base.specs.Kinds.{fault_kind};
ghost use Rattle.utf_base.specs.Piece.{IsPieceAt};
ghost use Rattle.utf_lanes.specs.FaultMasks.{AreTold, AreJudged};

use crate::look_ups::LookUp;
use crate::text_blocks::pairs;
use std::simd::prelude::*;
use utf_base::errors::Utf8ErrorKind;

/// The masks of a window, whose first byte begins a piece.
#[derive(Clone, Copy, Drop)]
pub struct Judged {
    /// The number of bytes that the masks decide, 61 to 64: a piece ends there, whatever follows.
    pub len: usize,
    /// The bytes that are not ASCII, of all 64.
    pub others: u64,
    /// The invalid bytes: those in no character.
    pub faults: u64,
    /// The invalid bytes that continue a maximal subpart, and do not begin it.
    pub inner: u64,
    /// The bytes that, as lead bytes, lack a continuation byte.
    pub broken: u64,
}

// Masks from which those of a window are computed: a bit for each of 64 bytes.
#[derive(Clone, Copy, Drop)]
struct Masks {
    // Bytes that may begin a character of two bytes or more, by the next byte.
    begins: u64,
    // Bytes before a continuation byte.
    next: u64,
    // Bytes that are not ASCII.
    others: u64,
    // Bytes from 0xe0 on.
    three: u64,
    // Bytes from 0xf0 on.
    four: u64,
}

// Combines the five masks into those of a window.
#[inline(always)]
fn judged_by(masks: Masks) -> Judged
    ensures { (xs : List ℕ) → 64 < length xs → AreTold 64 xs masks.begins masks.next masks.others masks.three masks.four
        → AreJudged xs result.len result.others result.faults result.inner result.broken }
{
    let Masks {
        begins,
        next,
        others,
        three,
        four,
    } = masks;
    let long = begins & three;
    let third = long & (next >> 1);
    let fours = third & four;
    let whole_fours = fours & (next >> 2);
    let whole_long = (third & !four) | whole_fours;
    let whole = (begins & !three) | whole_long;
    let covered = whole | whole << 1 | whole_long << 2 | whole_fours << 3;
    let open = (others & !(next << 1) & 1 << 63) | (three & 1 << 62) | (four & 1 << 61);
    let len = open.trailing_zeros() as usize;
    let faults = others & !covered & (u64::MAX >> (64 - len));
    Judged {
        len,
        others,
        faults,
        inner: faults & (long << 1 | fours << 2),
        broken: !(next & (next >> 1 | !three) & (next >> 2 | !four)),
    }
}

/// Returns the masks of the window at an offset, at which a piece begins.
#[inline(always)]
pub fn window_at(bytes: &[u8], place: usize) -> Judged
    requires { place + 64 < length bytes.now }
    ensures { AreJudged (drop place bytes.now) result.len result.others result.faults result.inner result.broken }
{
    let low = masks_at(bytes, place);
    let high = masks_at(bytes, place + 32);
    judged_by(Masks {
        begins: low.begins | high.begins << 32,
        next: low.next | high.next << 32,
        others: low.others | high.others << 32,
        three: low.three | high.three << 32,
        four: low.four | high.four << 32,
    })
}

// Returns the masks of the 32 bytes at an offset.
#[inline(always)]
fn masks_at(bytes: &[u8], place: usize) -> Masks
    requires { place + 32 < length bytes.now }
    ensures told { AreTold 32 (drop place bytes.now) result.begins result.next result.others result.three result.four }
    ensures begins { result.begins < 2 ^ 32 }
    ensures next { result.next < 2 ^ 32 }
    ensures others { result.others < 2 ^ 32 }
    ensures three { result.three < 2 ^ 32 }
    ensures four { result.four < 2 ^ 32 }
{
    let here = u8x32::from_slice(&bytes[place..]);
    let after = u8x32::from_slice(&bytes[place + 1..]);
    let wrong = pairs::<32>(here, after);
    let next = (after + u8x32::splat(0x80))
        .simd_lt(u8x32::splat(0x40))
        .to_bitmask();
    Masks {
        begins: wrong.simd_eq(u8x32::splat(0)).to_bitmask() & next,
        next,
        others: here.simd_ge(u8x32::splat(0x80)).to_bitmask(),
        three: here.simd_ge(u8x32::splat(0xe0)).to_bitmask(),
        four: here.simd_ge(u8x32::splat(0xf0)).to_bitmask(),
    }
}

/// Clears the lowest bit.
#[inline(always)]
pub fn without_lowest(marks: u64) -> u64
    requires { 0 < marks }
    ensures { (k : ℕ) → bit_at result k ≡ 1 ↔ (bit_at marks k ≡ 1) × (trailing_zeros w64 marks < k) }
{
    marks & (marks - 1)
}

// A continuation byte outside of characters.
const STRAY: Utf8ErrorKind = Utf8ErrorKind::UnexpectedContinuationByte;

// A byte that never occurs.
const NEVER: Utf8ErrorKind = Utf8ErrorKind::NonUtf8Byte;

// A lead byte that lacks a continuation byte.
const BROKEN: Utf8ErrorKind = Utf8ErrorKind::InterruptedSequence;

// A lead byte with its continuation bytes, whose value is invalid.
const OVERLONG: Utf8ErrorKind = Utf8ErrorKind::OverlongEncoding;

const SURROGATE: Utf8ErrorKind = Utf8ErrorKind::Utf16ReservedCodepoint;

const TOO_HIGH: Utf8ErrorKind = Utf8ErrorKind::TooHighCodepoint;

// The kind of each invalid byte from 0x80 on, sixteen a line: first those with all their continuation bytes, then those that lack one.
// Entries of bytes such as C2, which then begin a character, are never read in the first half.
#[rattlefmt::skip]
static KINDS: [Utf8ErrorKind; 256] = [
    STRAY, STRAY, STRAY, STRAY, STRAY, STRAY, STRAY, STRAY, STRAY, STRAY, STRAY, STRAY, STRAY, STRAY, STRAY, STRAY,
    STRAY, STRAY, STRAY, STRAY, STRAY, STRAY, STRAY, STRAY, STRAY, STRAY, STRAY, STRAY, STRAY, STRAY, STRAY, STRAY,
    STRAY, STRAY, STRAY, STRAY, STRAY, STRAY, STRAY, STRAY, STRAY, STRAY, STRAY, STRAY, STRAY, STRAY, STRAY, STRAY,
    STRAY, STRAY, STRAY, STRAY, STRAY, STRAY, STRAY, STRAY, STRAY, STRAY, STRAY, STRAY, STRAY, STRAY, STRAY, STRAY,
    NEVER, NEVER, BROKEN, BROKEN, BROKEN, BROKEN, BROKEN, BROKEN, BROKEN, BROKEN, BROKEN, BROKEN, BROKEN, BROKEN, BROKEN, BROKEN,
    BROKEN, BROKEN, BROKEN, BROKEN, BROKEN, BROKEN, BROKEN, BROKEN, BROKEN, BROKEN, BROKEN, BROKEN, BROKEN, BROKEN, BROKEN, BROKEN,
    OVERLONG, BROKEN, BROKEN, BROKEN, BROKEN, BROKEN, BROKEN, BROKEN, BROKEN, BROKEN, BROKEN, BROKEN, BROKEN, SURROGATE, BROKEN, BROKEN,
    OVERLONG, BROKEN, BROKEN, BROKEN, TOO_HIGH, NEVER, NEVER, NEVER, NEVER, NEVER, NEVER, NEVER, NEVER, NEVER, NEVER, NEVER,
    STRAY, STRAY, STRAY, STRAY, STRAY, STRAY, STRAY, STRAY, STRAY, STRAY, STRAY, STRAY, STRAY, STRAY, STRAY, STRAY,
    STRAY, STRAY, STRAY, STRAY, STRAY, STRAY, STRAY, STRAY, STRAY, STRAY, STRAY, STRAY, STRAY, STRAY, STRAY, STRAY,
    STRAY, STRAY, STRAY, STRAY, STRAY, STRAY, STRAY, STRAY, STRAY, STRAY, STRAY, STRAY, STRAY, STRAY, STRAY, STRAY,
    STRAY, STRAY, STRAY, STRAY, STRAY, STRAY, STRAY, STRAY, STRAY, STRAY, STRAY, STRAY, STRAY, STRAY, STRAY, STRAY,
    NEVER, NEVER, BROKEN, BROKEN, BROKEN, BROKEN, BROKEN, BROKEN, BROKEN, BROKEN, BROKEN, BROKEN, BROKEN, BROKEN, BROKEN, BROKEN,
    BROKEN, BROKEN, BROKEN, BROKEN, BROKEN, BROKEN, BROKEN, BROKEN, BROKEN, BROKEN, BROKEN, BROKEN, BROKEN, BROKEN, BROKEN, BROKEN,
    BROKEN, BROKEN, BROKEN, BROKEN, BROKEN, BROKEN, BROKEN, BROKEN, BROKEN, BROKEN, BROKEN, BROKEN, BROKEN, BROKEN, BROKEN, BROKEN,
    BROKEN, BROKEN, BROKEN, BROKEN, BROKEN, NEVER, NEVER, NEVER, NEVER, NEVER, NEVER, NEVER, NEVER, NEVER, NEVER, NEVER,
];

/// Returns the kind of an invalid byte of a window.
#[inline(always)]
pub fn kind_at(bytes: &[u8], place: usize, window: Judged, index: usize) -> Utf8ErrorKind
    requires judged { AreJudged (drop place bytes.now) window.len window.others window.faults window.inner window.broken }
    requires enough { place + index + 4 ≤ length bytes.now }
    requires within { index < window.len }
    requires fault { IsPieceAt utf8 (drop place bytes.now) index 1 None }
    ensures { fault_kind (drop (place + index) bytes.now) ≡ Some result }
{
    let is_broken = (window.broken >> index) & 1;
    KINDS[bytes[place + index] as usize - 0x80 + 0x80 * (is_broken as usize)]
}
