//! Damaged bytes as text, by windows of 64 bytes: a character, as U+FFFD, or nothing replaces each invalid byte, or each maximal subpart.
ghost use Rattle.std.specs.Prelude.{◌≡◌, ◌+◌, ◌-◌, ◌*◌, ◌<◌, ◌≤◌, ℕ, List, drop, length, None, slice_range};
ghost use Rattle.utf_base.specs.Code.{utf8};
ghost use Rattle.utf_base.specs.Piece.{Inside};
ghost use Rattle.utf_lanes.specs.FaultMasks.{AreJudged, AreSetWhere};
ghost use Rattle.utf_lanes.specs.UnitCodes.{Writes};
ghost use Rattle.utf_lanes.specs.Mending.{AreJoined, IsMark, IsMendedAt, Mends, MendsFront};

use crate::ascii_texts::is_ascii_block;
use crate::fault_masks::{Judged, window_at, without_lowest};
use crate::replacements::Mending;
use std::simd::prelude::*;

/// The capacity for the text, in bytes.
pub const MADE: usize = 512;

/// The number of bytes that have to be left for a window, since 64 bytes are copied from each of its offsets.
pub const LEAST: usize = 128;

// The most bytes that a window needs: three for each of its bytes, and those that a copy writes after them.
const MOST: usize = 3 * 64 + 64;

// Damaged bytes end if the last windows without a fault add up to this.
const CALM: usize = 4;

// A window that has no fault, but other characters than ASCII, adds this, and one of ASCII adds 1.
const TEXT: usize = 2;

// The sum after a window with a fault: fewer windows without one end damaged bytes than before the first.
const AFTER_FAULT: usize = 2;

/// The progress of `mend`.
#[derive(Clone, Copy, Drop)]
pub struct Mended {
    /// The number of bytes that were read.
    pub read: usize,
    /// The length of their text in bytes.
    pub len: usize,
    /// The number of invalid bytes that were replaced: each byte of a maximal subpart counts.
    pub replaced: usize,
}

/// Writes the text of damaged bytes, at whose front a piece begins, to the front of the array: up to the last few
/// bytes, as far as it fits, and as long as faults are near.
#[inline(never)]
pub fn mend<M: Mending>(by: M, bytes: &[u8], made: &mut [u8; MADE]) -> Mended
    ensures mends { MendsFront M.subparts (M.shown by) bytes.now made.new result.read result.len result.replaced }
    ensures left { result.read ≤ length bytes.now - 3 }
{
    let mut done = Mended {
        read: 0,
        len: 0,
        replaced: 0,
    };
    let mut calm = 0;
    while calm < CALM && LEAST <= bytes.len() - done.read && done.len <= MADE - MOST {
        if is_ascii_block(bytes, done.read) {
            done = put_text::<M>(by, bytes, done.read + 64, made, done);
            calm += 1;
        } else {
            let window = window_at(bytes, done.read);
            done = put_window::<M>(by, bytes, window, made, done);
            calm = if window.faults == 0 {
                calm + TEXT
            } else {
                AFTER_FAULT
            };
        }
    }
    done
}

// Writes the text of the window that begins after the bytes read so far.
#[inline(always)]
fn put_window<M: Mending>(
    by: M,
    bytes: &[u8],
    window: Judged,
    made: &mut [u8; MADE],
    done: Mended,
) -> Mended
    requires enough { done.read + LEAST ≤ length bytes.now }
    requires room { done.len + MOST ≤ MADE }
    requires judged { AreJudged (drop done.read bytes.now) window.len window.others window.faults
        window.inner window.broken }
    requires outside { Inside utf8 bytes.now done.read → ⊥ }
    requires so_far { MendsFront M.subparts (M.shown by) bytes.now made.old done.read done.len done.replaced }
    ensures mends { MendsFront M.subparts (M.shown by) bytes.now made.new result.read result.len result.replaced }
    ensures read { result.read ≡ done.read + window.len }
{
    let start = done.read;
    let mut marks = marks_of::<M>(window);
    let mut done = done;
    while marks != 0 {
        let mark = marks.trailing_zeros() as usize;
        done = put_text::<M>(by, bytes, start + mark, made, done);
        let len = marked_len::<M>(window, mark);
        done = put_shown::<M>(by, bytes, len, made, done);
        marks = without_lowest(marks);
    }
    put_text::<M>(by, bytes, start + window.len, made, done)
}

// Returns the bytes of a window with which something begins that is replaced.
#[inline(always)]
fn marks_of<M: Mending>(window: Judged) -> u64
    ensures { (xs : List ℕ) → AreJudged xs window.len window.others window.faults window.inner window.broken →
        AreSetWhere 64 result (λ k. (k < window.len) × IsMark M.subparts xs k) }
{
    if M::is_by_subparts() {
        window.faults & !window.inner
    } else {
        window.faults
    }
}

// Returns the number of bytes that are replaced together from a mark on.
#[inline(always)]
fn marked_len<M: Mending>(window: Judged, mark: usize) -> usize
    requires { mark < 64 }
    ensures { (xs : List ℕ) → AreJudged xs window.len window.others window.faults window.inner window.broken →
        mark < window.len → AreJoined M.subparts xs mark result × (mark + result ≤ window.len) }
{
    if M::is_by_subparts() {
        1 + (!(window.inner >> mark >> 1)).trailing_zeros() as usize
    } else {
        1
    }
}

// Writes the bytes up to an offset, which are text. It copies 64 bytes; the next write overwrites those that are
// too many.
#[inline(always)]
fn put_text<M: Mending>(
    by: M,
    bytes: &[u8],
    end: usize,
    made: &mut [u8; MADE],
    done: Mended,
) -> Mended
    requires enough { done.read + 64 ≤ length bytes.now }
    requires room { done.len + 64 ≤ MADE }
    requires ordered { done.read ≤ end }
    requires few { end ≤ done.read + 64 }
    requires text { Mends M.subparts (M.shown by) bytes.now done.read end (slice_range bytes.now done.read end) 0 }
    requires so_far { MendsFront M.subparts (M.shown by) bytes.now made.old done.read done.len done.replaced }
    ensures mends { MendsFront M.subparts (M.shown by) bytes.now made.new result.read result.len result.replaced }
    ensures read { result.read ≡ end }
    ensures len { result.len ≡ done.len + (end - done.read) }
    ensures replaced { result.replaced ≡ done.replaced }
{
    copy_64(bytes, done.read, made, done.len);
    Mended {
        read: end,
        len: done.len + (end - done.read),
        replaced: done.replaced,
    }
}

// Writes what replaces the next bytes: four bytes at once, of which the next write overwrites those that are too many.
#[inline(always)]
fn put_shown<M: Mending>(
    by: M,
    bytes: &[u8],
    len: usize,
    made: &mut [u8; MADE],
    done: Mended,
) -> Mended
    requires within { done.read + len ≤ length bytes.now }
    requires room { done.len + 4 ≤ MADE }
    requires some { 0 < len }
    requires invalid { IsMendedAt M.subparts bytes.now done.read len None }
    requires so_far { MendsFront M.subparts (M.shown by) bytes.now made.old done.read done.len done.replaced }
    ensures mends { MendsFront M.subparts (M.shown by) bytes.now made.new result.read result.len result.replaced }
    ensures read { result.read ≡ done.read + len }
    ensures least { done.len ≤ result.len }
    ensures most { result.len ≤ done.len + 3 }
    ensures replaced { result.replaced ≡ done.replaced + len }
{
    let byte = bytes[done.read];
    // First, so that a table is read twice: to take the length out of the code takes more time.
    let shown_len = by.code_len(byte);
    made[done.len..done.len + 4].copy_from_slice(&by.code(byte));
    Mended {
        read: done.read + len,
        len: done.len + shown_len,
        replaced: done.replaced + len,
    }
}

// Copies 64 bytes.
#[inline(always)]
fn copy_64(bytes: &[u8], place: usize, room: &mut [u8], at: usize)
    requires within { place + 64 ≤ length bytes.now }
    requires room { at + 64 ≤ length room.old }
    ensures { Writes room.old room.new at (at + 64) (slice_range bytes.now place (place + 64)) }
{
    u8x32::from_slice(&bytes[place..]).copy_to_slice(&mut room[at..]);
    u8x32::from_slice(&bytes[place + 32..]).copy_to_slice(&mut room[at + 32..]);
}
