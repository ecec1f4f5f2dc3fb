//! The faults of bytes, and of units: each with its offset, many in one call.
ghost use Rattle.std.specs.Prelude.{◌≡◌, ◌<◌, ◌≤◌, IsFalse, IsTrue, drop, length};
ghost use Rattle.utf_base.specs.Decoded.{decoded};
ghost use Rattle.recoding.specs.declared.faults.FaultKind.TheVariants as kind;
ghost use Rattle.text_stream.specs.FaultLists.{BeginsFault, FindsFaults, IsSoFar, fault_at, unit_faults};
ghost use Rattle.text_runs.specs.ShardRuns.{faults};

use crate::decoder::Fed;
use crate::located::FromPiece;
use encode_unicode::iterator::{Utf8CharDecoder, Utf16CharDecoder};
use recoding::faults::FaultKind;
use text_runs::runs::well_formed::{units_valid_up_to, valid_up_to};
use utf_lanes::ascii_texts::{ascii_wide_end, is_ascii_block};
use utf_lanes::fault_masks::{kind_at, window_at, without_lowest};
use utf_lanes::text_blocks::{ends_character, text_end};

// A window needs so many bytes: the last of its 64 may be a lead byte with three continuation bytes.
const LEAST: usize = 67;

/// Writes the invalid bytes, from the front of the array on, each with its offset; `offset` is that of the first
/// byte. Stops before the first that does not fit: `read` is its offset in `bytes`, and `is_full` is then true, and
/// only then. The rest of the array is unchanged.
///
/// To get the others, call this again with the bytes after those that were read, and with the offset of the first of
/// them. Text is scanned as fast as by `valid_up_to`.
///
/// Cost: O(n) in what is read.
pub fn faults_into<P: FromPiece>(bytes: &[u8], offset: u64, room: &mut [P]) -> Fed
    ensures finds { FindsFaults (λ x. P.made (fault_at kind.Utf8 offset x)) faults bytes.now room.old room.new result.read result.written }
    ensures full { IsTrue result.is_full → result.written ≡ length room.old }
    ensures more { IsTrue result.is_full → result.read < length bytes.now }
    ensures all { IsFalse result.is_full → result.read ≡ length bytes.now }
{
    let mut place = valid_up_to(bytes);
    let mut written = 0;
    if LEAST <= bytes.len() - place {
        let done = window_faults(bytes, offset, place, room);
        if done.is_full {
            return done;
        }
        place = done.read;
        written = done.written;
    }
    while let Some((_, answer, len)) = Utf8CharDecoder::from(&bytes[place..]).next() {
        match answer {
            Ok(_) => place += len + valid_up_to(&bytes[place + len..]),
            Err(error) => {
                if written == room.len() {
                    return fed(place, written, true);
                }
                let at = offset.wrapping_add(place as u64);
                room[written] = P::from_fault(at, FaultKind::Utf8(error.kind()), len);
                written += 1;
                place += len;
            }
        }
    }
    fed(bytes.len(), written, false)
}

// Writes the invalid bytes from `start` on as `faults_into` does, by windows of 64 bytes, up to the last few bytes.
#[inline(never)]
fn window_faults<P: FromPiece>(bytes: &[u8], offset: u64, start: usize, room: &mut [P]) -> Fed
    requires { start ≤ length bytes.now }
    ensures so_far { IsSoFar (λ x. P.made (fault_at kind.Utf8 offset x)) decoded bytes.now start room.old room.new result.read result.written }
    ensures full { IsTrue result.is_full → result.written ≡ length room.old }
    ensures more { IsTrue result.is_full → result.read < length bytes.now }
    ensures stops { IsTrue result.is_full → BeginsFault (drop result.read bytes.now) }
{
    let mut place = start;
    let mut written = 0;
    while LEAST <= bytes.len() - place {
        if is_ascii_block(bytes, place) {
            place = ascii_wide_end(bytes, place + 64);
        } else {
            let window = window_at(bytes, place);
            let mut marks = window.faults;
            while marks != 0 {
                let index = marks.trailing_zeros() as usize;
                let at = place + index;
                if written == room.len() {
                    return fed(at, written, true);
                }
                let kind = kind_at(bytes, place, window, index);
                room[written] = P::from_fault(
                    offset.wrapping_add(at as u64),
                    FaultKind::Utf8(kind),
                    1,
                );
                written += 1;
                marks = without_lowest(marks);
            }
            place += window.len;
            if window.faults == 0 && ends_character(bytes, place) {
                place = text_end(bytes, place);
            }
        }
    }
    fed(place, written, false)
}

/// Writes the lone surrogates of units, from the front of the array on, each with its offset in units.
/// Everything else is as for `faults_into`.
///
/// Cost: O(n) in what is read.
pub fn unit_faults_into<P: FromPiece>(units: &[u16], offset: u64, room: &mut [P]) -> Fed
    ensures finds { FindsFaults (λ x. P.made (fault_at kind.Utf16 offset x)) unit_faults units.now room.old room.new result.read result.written }
    ensures full { IsTrue result.is_full → result.written ≡ length room.old }
    ensures more { IsTrue result.is_full → result.read < length units.now }
    ensures all { IsFalse result.is_full → result.read ≡ length units.now }
{
    let mut place = units_valid_up_to(units);
    let mut written = 0;
    while let Some((_, answer, len)) = Utf16CharDecoder::from(&units[place..]).next() {
        match answer {
            Ok(_) => place += len + units_valid_up_to(&units[place + len..]),
            Err(error) => {
                if written == room.len() {
                    return fed(place, written, true);
                }
                let at = offset.wrapping_add(place as u64);
                room[written] = P::from_fault(at, FaultKind::Utf16(error), len);
                written += 1;
                place += len;
            }
        }
    }
    fed(units.len(), written, false)
}

// The progress of a call.
#[inline(always)]
fn fed(read: usize, written: usize, is_full: bool) -> Fed
    ensures { result ≡ record { read = read; written = written; is_full = is_full } }
{
    Fed {
        read,
        written,
        is_full,
    }
}
