//! Runs that write the pieces of bytes, or only the faults, into an array: text on a fast path, and the rest piece by
//! piece. All pieces of text are written, ASCII in blocks and the rest character by character; if only faults are
//! written, text is skipped with SIMD.
ghost use Rattle.std.specs.Prelude.{◌≡◌, ◌+◌, ◌<◌, ◌≤◌, ◌^◌, [], ◌∷◌, length, drop, map, IsTrue, IsFalse, IfSome, IfNone};
ghost use Rattle.utf_lanes.specs.AsciiTexts.{AreAscii};
ghost use Rattle.recoding.specs.FirstFaults.{IsTextAndHeld};
ghost use Rattle.recoding.specs.declared.form.Form.TheVariants.{Utf8};
ghost use Rattle.text_stream.specs.Located.{Begins, BeginsKept, IsKept, IsOpen, IsWithin, Puts, PutsKept, WritesPlaces, at_offset, told_of};

use crate::first_pieces::{Front, front_of};
use crate::located::{FromPiece, Spot};
use recoding::form::Form;
use utf_lanes::ascii_texts::is_ascii;
use utf_lanes::byte_order::{BigEndian, LittleEndian};
use utf_lanes::text_blocks::text_len;
use utf_lanes::text_front::front_of_text;
use utf_lanes::unit_blocks::units_len;

// The number of ASCII bytes that are written in one step.
const BLOCK: usize = 8;

// From this many characters on, one count bounds them.
const MANY: usize = 64;

// The number of pieces that are written before the fast path is tried again.
const STRIDE: usize = 32;

// The progress of a run, and why it ended, if it did: the array is full before a piece, or the rest depends
// on what follows.
#[derive(Clone, Copy, Drop)]
pub(crate) struct Reached {
    pub(crate) at: Spot,
    pub(crate) is_full: bool,
    pub(crate) is_waiting: bool,
}

/// Which pieces a call writes: `AllPieces`, or `FaultsAlone`.
pub trait Kept {
    ghost use Rattle.std.specs.Prelude.{List, IsTrue, IsFalse};
    ghost use Rattle.text_stream.specs.declared.located.LocatedPiece.{LocatedPiece};
    ghost use Rattle.text_stream.specs.Located.{IsKept, IsPassed, IsWithin, KeepsEach, PutsKept, told_of};

    // the pieces of a list that are written
    ghost kept: { List LocatedPiece → List LocatedPiece };

    ghost keeps_each: { KeepsEach kept };

    // Returns true if a piece is written.
    fn keeps(front: Front) -> bool
        ensures yes { IsTrue result → IsKept kept (told_of front) }
        ensures no { IsFalse result → IsPassed kept (told_of front) };

    // Writes or skips the text that begins the bytes, as far as the fast path goes.
    fn put_text<P: FromPiece>(form: Form, bytes: &[u8], room: &mut [P], from: Spot) -> Spot
        requires { IsWithin from bytes.now room.old }
        ensures { PutsKept kept P.made form bytes.now room.old room.new from result };
}

/// Every piece.
pub struct AllPieces;

/// The invalid bytes and units only.
pub struct FaultsAlone;

impl Kept for AllPieces {
    ghost use Rattle.text_stream.specs.Located.{all_keep_each, all_pieces};

    ghost kept = { all_pieces };

    ghost keeps_each = { all_keep_each };

    #[inline(always)]
    fn keeps(_front: Front) -> bool {
        true
    }

    #[inline(always)]
    fn put_text<P: FromPiece>(form: Form, bytes: &[u8], room: &mut [P], from: Spot) -> Spot {
        put_located_text(form, bytes, room, from)
    }
}

impl Kept for FaultsAlone {
    ghost use Rattle.text_stream.specs.Located.{faults_alone, faults_keep_each};

    ghost kept = { faults_alone };

    ghost keeps_each = { faults_keep_each };

    #[inline(always)]
    fn keeps(front: Front) -> bool {
        match front {
            Front::Char(..) => false,
            Front::Fault(..) => true,
        }
    }

    #[inline(always)]
    fn put_text<P: FromPiece>(form: Form, bytes: &[u8], _room: &mut [P], from: Spot) -> Spot {
        from.past(front_text_len(form, &bytes[from.read..]), from.written)
    }
}

// The length of the text that begins the bytes, as far as SIMD validation goes.
#[inline(always)]
fn front_text_len(form: Form, bytes: &[u8]) -> usize
    ensures within { result ≤ length bytes.now }
    ensures text { IsTextAndHeld form bytes.now (drop result bytes.now) }
{
    match form {
        Form::Utf8 => text_len(bytes),
        Form::Utf16Le => 2 * units_len::<LittleEndian>(bytes),
        Form::Utf16Be => 2 * units_len::<BigEndian>(bytes),
    }
}

// The value for a piece.
#[inline(always)]
fn made_of<P: FromPiece>(offset: u64, front: Front) -> P
    requires { (told_of front).1 ≤ 4 }
    ensures { result ≡ P.made (at_offset offset (told_of front)) }
{
    match front {
        Front::Char(c, len) => P::from_character(offset, c, len),
        Front::Fault(kind, len) => P::from_fault(offset, kind, len),
    }
}

// Writes a piece to that index, or skips it. Returns the number of pieces written then, or `None` if the
// array is full.
#[inline(always)]
pub(crate) fn write_piece<K: Kept, P: FromPiece>(
    offset: u64,
    front: Front,
    room: &mut [P],
    written: usize,
) -> Option<usize>
    requires few { (told_of front).1 ≤ 4 }
    requires within { written ≤ length room.old }
    ensures some { IfSome result (λ n.
        WritesPlaces (map P.made (K.kept (at_offset offset (told_of front) ∷ []))) room.old room.new written n) }
    ensures full { IfNone result (written ≡ length room.old) }
    ensures kept { IfNone result (IsKept K.kept (told_of front)) }
    ensures stays { IfNone result (room.new ≡ room.old) }
{
    if !K::keeps(front) {
        return Some(written);
    }
    if written == room.len() {
        return None;
    }
    room[written] = made_of(offset, front);
    Some(written + 1)
}

// Writes the pieces of the bytes from a spot on, as far as there is capacity and no later byte decides them.
pub(crate) fn put_run<K: Kept, P: FromPiece>(
    form: Form,
    bytes: &[u8],
    room: &mut [P],
    from: Spot,
) -> Reached
    requires { IsWithin from bytes.now room.old }
    ensures puts { PutsKept K.kept P.made form bytes.now room.old room.new from result.at }
    ensures full { IsTrue result.is_full → result.at.written ≡ length room.old }
    ensures begins { IsTrue result.is_full → BeginsKept K.kept form (drop result.at.read bytes.now) }
    ensures few { IsFalse result.is_full → length bytes.now ≤ result.at.read + 3 }
    ensures waits { IsFalse result.is_full → result.at.read < length bytes.now →
        IsOpen form (drop result.at.read bytes.now) }
{
    let mut at = from;
    loop {
        at = K::put_text(form, bytes, room, at);
        if at.read == bytes.len() {
            return run_ended(at, false, true);
        }
        let few = put_few_pieces::<K, P>(form, bytes, room, at);
        at = few.at;
        if few.is_full || few.is_waiting {
            return few;
        }
    }
}

// Writes a few pieces of the bytes from a spot on, up to the first character that is skipped: there the fast
// path continues.
#[inline(always)]
fn put_few_pieces<K: Kept, P: FromPiece>(
    form: Form,
    bytes: &[u8],
    room: &mut [P],
    from: Spot,
) -> Reached
    requires { IsWithin from bytes.now room.old }
    ensures puts { PutsKept K.kept P.made form bytes.now room.old room.new from result.at }
    ensures full { IsTrue result.is_full → result.at.written ≡ length room.old }
    ensures begins { IsTrue result.is_full → BeginsKept K.kept form (drop result.at.read bytes.now) }
    ensures few { IsTrue result.is_waiting → length bytes.now ≤ result.at.read + 3 }
    ensures waits { IsTrue result.is_waiting → result.at.read < length bytes.now →
        IsOpen form (drop result.at.read bytes.now) }
    ensures moves { IsFalse result.is_full → IsFalse result.is_waiting → from.read < result.at.read }
{
    let mut at = from;
    for count in 0..STRIDE {
        let Some(front) = front_of(form, &bytes[at.read..]) else {
            return run_ended(at, false, true);
        };
        let Some(written) = write_piece::<K, P>(at.offset, front, room, at.written) else {
            return run_ended(at, true, false);
        };
        at = at.past(front.len(), written);
        if !K::keeps(front) {
            return run_ended(at, false, false);
        }
    }
    run_ended(at, false, false)
}

#[inline(always)]
fn run_ended(at: Spot, is_full: bool, is_waiting: bool) -> Reached
    ensures { result ≡ record { at = at; is_full = is_full; is_waiting = is_waiting } }
{
    Reached {
        at,
        is_full,
        is_waiting,
    }
}

// Writes the characters of text that begin the bytes, as far as the fast path goes.
#[inline(always)]
fn put_located_text<P: FromPiece>(form: Form, bytes: &[u8], room: &mut [P], from: Spot) -> Spot
    requires { IsWithin from bytes.now room.old }
    ensures { Puts P.made form bytes.now room.old room.new from result }
{
    match form {
        Form::Utf8 => {
            let at = put_located_ascii(bytes, room, from);
            put_located_characters(bytes, room, at)
        }
        Form::Utf16Le | Form::Utf16Be => from,
    }
}

// Writes the ASCII characters that begin the bytes of UTF-8, as far as whole blocks go.
#[inline(always)]
fn put_located_ascii<P: FromPiece>(bytes: &[u8], room: &mut [P], from: Spot) -> Spot
    requires { IsWithin from bytes.now room.old }
    ensures { Puts P.made Utf8 bytes.now room.old room.new from result }
{
    let mut at = from;
    while BLOCK <= bytes.len() - at.read && BLOCK <= room.len() - at.written {
        if !is_ascii(&bytes[at.read..at.read + BLOCK]) {
            return at;
        }
        at = put_ascii_block(bytes, room, at);
    }
    at
}

// Writes the ASCII characters of one block, if all of its bytes are ASCII.
#[inline(always)]
fn put_ascii_block<P: FromPiece>(bytes: &[u8], room: &mut [P], from: Spot) -> Spot
    requires read { from.read + 8 ≤ length bytes.now }
    requires written { from.written + 8 ≤ length room.old }
    requires ascii { AreAscii bytes.now from.read (from.read + 8) }
    ensures puts { Puts P.made Utf8 bytes.now room.old room.new from result }
    ensures moves { result.read ≡ from.read + 8 }
{
    let mut at = from;
    for count in 0..BLOCK {
        room[at.written] = P::from_ascii(at.offset, bytes[at.read]);
        at = at.after(1);
    }
    at
}

// Writes the characters that begin the bytes of UTF-8, up to the first fault, or as far as four bytes are left.
// Outlined, so that its loops keep all of their values in registers.
#[inline(never)]
fn put_located_characters<P: FromPiece>(bytes: &[u8], room: &mut [P], from: Spot) -> Spot
    requires { IsWithin from bytes.now room.old }
    ensures { Puts P.made Utf8 bytes.now room.old room.new from result }
{
    let many = put_many_characters(bytes, room, from);
    let mut at = put_characters_in_room(bytes, room, many);
    while at.written < room.len() && 4 <= bytes.len() - at.read {
        let Some(next) = put_character(bytes, room, at) else {
            return at;
        };
        at = next;
    }
    at
}

// Writes many characters that begin the bytes. There is at most one character for each four bytes: so one
// count bounds both.
#[inline(always)]
fn put_many_characters<P: FromPiece>(bytes: &[u8], room: &mut [P], from: Spot) -> Spot
    requires { IsWithin from bytes.now room.old }
    ensures { Puts P.made Utf8 bytes.now room.old room.new from result }
{
    let most = (room.len() - from.written).min((bytes.len() - from.read) / 4);
    if most < MANY {
        return from;
    }
    let end = from.written + most;
    let mut at = from;
    while at.written < end {
        let Some(next) = put_character(bytes, room, at) else {
            return at;
        };
        at = next;
    }
    at
}

// Writes characters of no more bytes than the array has free elements: each character has at least one byte,
// so elements are not counted.
#[inline(always)]
fn put_characters_in_room<P: FromPiece>(bytes: &[u8], room: &mut [P], from: Spot) -> Spot
    requires { IsWithin from bytes.now room.old }
    ensures { Puts P.made Utf8 bytes.now room.old room.new from result }
{
    let most = (room.len() - from.written).min(bytes.len() - from.read);
    if most < 4 {
        return from;
    }
    let last = from.read + most - 4;
    let mut at = from;
    while at.read <= last {
        let Some(next) = put_character(bytes, room, at) else {
            return at;
        };
        at = next;
    }
    at
}

// Writes the character that begins the bytes from a spot on, decoded from four of them, and returns the next
// spot; `None` if there is none.
#[inline(always)]
fn put_character<P: FromPiece>(bytes: &[u8], room: &mut [P], at: Spot) -> Option<Spot>
    requires read { at.read + 4 ≤ length bytes.now }
    requires written { at.written < length room.old }
    ensures puts { IfSome result (λ to. Puts P.made Utf8 bytes.now room.old room.new at to) }
    ensures one { IfSome result (λ to. to.written ≡ at.written + 1) }
    ensures moves { IfSome result (λ to. at.read < to.read) }
    ensures few { IfSome result (λ to. to.read ≤ at.read + 4) }
    ensures stays { IfNone result (room.new ≡ room.old) }
{
    let Some((c, len)) = front_of_text(&bytes[at.read..at.read + 4]) else {
        return None;
    };
    room[at.written] = P::from_character(at.offset, c, len);
    Some(at.after(len))
}
