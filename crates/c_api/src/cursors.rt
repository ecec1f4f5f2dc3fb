//! Single pieces, cursors over bytes and units, and runs of pieces into an array.
ghost use Rattle.std.specs.Prelude.{◌≡◌, ◌<◌, ◌≤◌, length, take, drop, IfSome, Ok};
ghost use Rattle.utf_base.specs.Decoded.{decoded};
ghost use Rattle.utf_base.specs.Front.{IsFrontLen};
ghost use Rattle.c_api.specs.Api.{first_piece_of, last_piece_of, first_of_units, last_of_units, first_merged, no_piece, IsMergedPiece, IsPieceOf, IsPut, GivesPiece, GivesEach, after, before};

use crate::ascii_pieces::put_ascii_pieces;
use crate::kinds::{kind_number_of, pair_number_of};
use crate::piece::NodyPiece;
use cuts::front_of_text;
use encode_unicode::CharExt;
use encode_unicode::iterator::{Utf8CharDecoder, Utf8CharMerger, Utf16CharDecoder};

/// A cursor over bytes: those that are left.
#[repr(C)]
#[derive(Clone, Copy, Drop)]
pub struct NodyBytes<'a> {
    /// The bytes that are left.
    pub bytes: &'a [u8],
}

/// A cursor over units: those that are left.
#[repr(C)]
#[derive(Clone, Copy, Drop)]
pub struct NodyUnits<'a> {
    /// The units that are left.
    pub units: &'a [u16],
}

#[inline(always)]
fn none() -> NodyPiece
    ensures { result ≡ no_piece }
{
    fault_piece(0, 11)
}

// The piece for a fault of that length.
#[inline(always)]
fn fault_piece(len: usize, kind: u8) -> NodyPiece
    ensures { result ≡ record { len = len; scalar = 0; kind = kind } }
{
    NodyPiece {
        len,
        scalar: 0,
        kind,
    }
}

// The piece for a character of that length.
#[inline(always)]
fn character_piece(c: char, len: usize) -> NodyPiece
    ensures { result ≡ record { len = len; scalar = c; kind = 0 } }
{
    NodyPiece {
        len,
        scalar: c as u32,
        kind: 0,
    }
}

// A copy of the piece as a new value, which the compiler passes in registers.
#[inline(always)]
fn anew(piece: NodyPiece) -> NodyPiece
    ensures { result ≡ piece }
{
    NodyPiece {
        len: piece.len,
        scalar: piece.scalar,
        kind: piece.kind,
    }
}

// The piece that begins the bytes: text is tried first, since most input is well-formed.
#[inline(always)]
#[tactic(auto, using(utf_base::proofs::DecodedLemmas::decoded_code, utf_base::proofs::DecodedLemmas::front_len_utf8))]
fn first(bytes: &[u8]) -> NodyPiece
    ensures { IsPieceOf first_piece_of bytes.now result }
{
    match front_of_text(bytes) {
        Some((c, len)) => character_piece(c, len),
        None => anew(first_copied(bytes)),
    }
}

// The piece that begins any bytes, copied whole into the result: so the compiler sees that the whole result is
// written, and no caller clears it before.
#[cold]
#[inline(never)]
fn first_copied(bytes: &[u8]) -> NodyPiece
    ensures { IsPieceOf first_piece_of bytes.now result }
{
    first_with_care(bytes)
}

// The piece that begins any bytes, written field by field.
#[cold]
#[inline(never)]
fn first_with_care(bytes: &[u8]) -> NodyPiece
    ensures { IsPieceOf first_piece_of bytes.now result }
{
    if bytes.is_empty() {
        return none();
    }
    match char::from_utf8_slice_start(bytes) {
        Ok((c, len)) => character_piece(c, len),
        Err(error) => fault_piece(1, kind_number_of(error.kind())),
    }
}

// The piece that ends the bytes.
#[inline(always)]
fn last(bytes: &[u8]) -> NodyPiece
    ensures { IsPieceOf last_piece_of bytes.now result }
{
    match Utf8CharDecoder::from(bytes).next_back() {
        None => none(),
        Some((_, Ok(c), len)) => character_piece(c.to_char(), len),
        Some((_, Err(error), len)) => fault_piece(len, kind_number_of(error.kind())),
    }
}

// The piece that begins the units.
#[inline(always)]
fn first_unit(units: &[u16]) -> NodyPiece
    ensures { IsPieceOf first_of_units units.now result }
{
    match Utf16CharDecoder::from(units).next() {
        None => none(),
        Some((_, Ok(c), len)) => character_piece(c.to_char(), len),
        Some((_, Err(error), len)) => fault_piece(len, pair_number_of(error)),
    }
}

// The piece that ends the units.
#[inline(always)]
fn last_unit(units: &[u16]) -> NodyPiece
    ensures { IsPieceOf last_of_units units.now result }
{
    match Utf16CharDecoder::from(units).next_back() {
        None => none(),
        Some((_, Ok(c), len)) => character_piece(c.to_char(), len),
        Some((_, Err(error), len)) => fault_piece(len, pair_number_of(error)),
    }
}

/// Returns the piece that begins the bytes of the cursor, and removes it.
#[unsafe(no_mangle)]
#[tactic(auto, using(utf_base::proofs::DecodedLemmas::decoded_code, utf_base::proofs::DecodedLemmas::front_len_utf8))]
pub extern "C" fn nody_utf8_next(left: &mut NodyBytes<'_>) -> NodyPiece
    ensures { GivesPiece first_piece_of after left.old.bytes.now result left.new.bytes.now }
{
    match front_of_text(left.bytes) {
        Some((c, len)) => {
            left.bytes = &left.bytes[len..];
            character_piece(c, len)
        }
        None => anew(next_with_care(left)),
    }
}

// Returns the piece that begins any bytes of the cursor, and removes it.
#[cold]
#[inline(never)]
fn next_with_care(left: &mut NodyBytes<'_>) -> NodyPiece
    ensures { GivesPiece first_piece_of after left.old.bytes.now result left.new.bytes.now }
{
    let piece = first_with_care(left.bytes);
    left.bytes = &left.bytes[piece.len..];
    piece
}

/// Returns the piece that ends the bytes of the cursor, and removes it.
#[unsafe(no_mangle)]
pub extern "C" fn nody_utf8_next_back(left: &mut NodyBytes<'_>) -> NodyPiece
    ensures { GivesPiece last_piece_of before left.old.bytes.now result left.new.bytes.now }
{
    let piece = last(left.bytes);
    left.bytes = &left.bytes[..left.bytes.len() - piece.len];
    piece
}

/// Returns the piece that begins the units of the cursor, and removes it.
#[unsafe(no_mangle)]
pub extern "C" fn nody_utf16_next(left: &mut NodyUnits<'_>) -> NodyPiece
    ensures { GivesPiece first_of_units after left.old.units.now result left.new.units.now }
{
    let piece = first_unit(left.units);
    left.units = &left.units[piece.len..];
    piece
}

/// Returns the piece that ends the units of the cursor, and removes it.
#[unsafe(no_mangle)]
pub extern "C" fn nody_utf16_next_back(left: &mut NodyUnits<'_>) -> NodyPiece
    ensures { GivesPiece last_of_units before left.old.units.now result left.new.units.now }
{
    let piece = last_unit(left.units);
    left.units = &left.units[..left.units.len() - piece.len];
    piece
}

// The first result of a merger over the bytes.
fn streaming_piece(bytes: &[u8]) -> NodyPiece
    requires { 0 < length bytes.now }
    ensures { result ≡ first_merged bytes.now }
{
    match Utf8CharMerger::from(bytes.iter().copied()).next() {
        None => none(),
        Some(Ok(c)) => NodyPiece {
            len: c.len(),
            scalar: c.to_char() as u32,
            kind: 0,
        },
        Some(Err(error)) => fault_piece(1, kind_number_of(error.kind())),
    }
}

/// The piece of bytes that begins at an offset, as a reader of one byte at a time names it.
#[unsafe(no_mangle)]
pub extern "C" fn nody_utf8_streamed_at(bytes: &[u8], place: usize) -> NodyPiece
    ensures some { place < length bytes.now → result ≡ first_merged (drop place bytes.now) }
    ensures run { IsMergedPiece bytes.now place result }
    ensures none { length bytes.now ≤ place → result ≡ no_piece }
{
    if place < bytes.len() {
        streaming_piece(&bytes[place..])
    } else {
        none()
    }
}

/// The character that begins some bytes, or the fault that their first byte is.
#[unsafe(no_mangle)]
pub extern "C" fn nody_utf8_first(bytes: &[u8]) -> NodyPiece
    ensures some { 0 < length bytes.now → result ≡ first_piece_of bytes.now }
    ensures none { length bytes.now ≡ 0 → result ≡ no_piece }
{
    first(bytes)
}

/// The character that ends some bytes, or the fault that their last byte is.
#[unsafe(no_mangle)]
pub extern "C" fn nody_utf8_last(bytes: &[u8]) -> NodyPiece
    ensures some { 0 < length bytes.now → result ≡ last_piece_of bytes.now }
    ensures none { length bytes.now ≡ 0 → result ≡ no_piece }
{
    last(bytes)
}

/// The character that begins some units, or the fault that their first unit is.
#[unsafe(no_mangle)]
pub extern "C" fn nody_utf16_first(units: &[u16]) -> NodyPiece
    ensures some { 0 < length units.now → result ≡ first_of_units units.now }
    ensures none { length units.now ≡ 0 → result ≡ no_piece }
{
    first_unit(units)
}

/// The character that ends some units, or the fault that their last unit is.
#[unsafe(no_mangle)]
pub extern "C" fn nody_utf16_last(units: &[u16]) -> NodyPiece
    ensures some { 0 < length units.now → result ≡ last_of_units units.now }
    ensures none { length units.now ≡ 0 → result ≡ no_piece }
{
    last_unit(units)
}

// Writes the piece that begins the bytes to an index of the array, and returns its length: 0 if there is
// none.
#[inline(always)]
#[tactic(auto, using(utf_base::proofs::DecodedLemmas::decoded_code, utf_base::proofs::DecodedLemmas::front_len_utf8))]
fn put_first_piece(bytes: &[u8], room: &mut [NodyPiece], place: usize) -> usize
    requires { place < length room.old }
    ensures { IsPut bytes.now room.old place result room.new }
{
    match front_of_text(bytes) {
        Some((c, len)) => {
            room[place] = character_piece(c, len);
            len
        }
        None => put_with_care(bytes, room, place),
    }
}

// Writes the piece that begins any bytes to an index of the array, and returns its length: 0 if there is
// none.
#[cold]
#[inline(never)]
fn put_with_care(bytes: &[u8], room: &mut [NodyPiece], place: usize) -> usize
    requires { place < length room.old }
    ensures { IsPut bytes.now room.old place result room.new }
{
    let piece = first_with_care(bytes);
    if piece.len > 0 {
        room[place] = piece;
    }
    piece.len
}

// The character that begins the bytes, decoded from at least four of them: so no length is tested.
#[inline(always)]
#[tactic(auto, using(utf_base::proofs::DecodedLemmas::decoded_code, utf_base::proofs::DecodedLemmas::front_len_utf8))]
fn character_of_four(bytes: &[u8]) -> Option<(char, usize)>
    requires { 4 ≤ length bytes.now }
    ensures known { IfSome result (λ x. decoded bytes.now ≡ Ok x) }
    ensures len { IfSome result (λ x. IsFrontLen 4 bytes.now x.1) }
{
    front_of_text(&bytes[..4])
}

// Writes the characters at the front of the bytes to the front of the array, up to the first fault, and returns how
// many there are and the offset where they end. There is at most one character for each four bytes: so one count
// bounds the indices and the bytes.
#[inline(never)]
fn put_characters(bytes: &[u8], room: &mut [NodyPiece]) -> (usize, usize)
    ensures within { result.0 ≤ length room.old }
    ensures place { result.1 ≤ length bytes.now }
    ensures each { GivesEach first_piece_of bytes.now (take result.0 room.new) (drop result.1 bytes.now) }
    ensures rest { drop result.0 room.new ≡ drop result.0 room.old }
{
    let most = room.len().min(bytes.len() / 4);
    let mut place = 0;
    let mut count = 0;
    while count < most {
        match character_of_four(&bytes[place..]) {
            None => return (count, place),
            Some((c, len)) => {
                room[count] = character_piece(c, len);
                place += len;
                count += 1;
            }
        }
    }
    (count, place)
}

// Writes the characters at the front of the bytes, ASCII first and in blocks. Returns how many there are and the
// offset where they end.
#[inline(always)]
fn put_text_pieces(bytes: &[u8], room: &mut [NodyPiece]) -> (usize, usize)
    ensures within { result.0 ≤ length room.old }
    ensures place { result.1 ≤ length bytes.now }
    ensures each { GivesEach first_piece_of bytes.now (take result.0 room.new) (drop result.1 bytes.now) }
    ensures rest { drop result.0 room.new ≡ drop result.0 room.old }
{
    let ascii = put_ascii_pieces(bytes, room);
    let (count, end) = put_characters(&bytes[ascii..], &mut room[ascii..]);
    (ascii + count, ascii + end)
}

/// Writes the pieces at the front of the cursor to the array, one after another, as many as there are or as fit, and
/// returns how many. They are removed from the cursor.
#[unsafe(no_mangle)]
pub extern "C" fn nody_utf8_pieces(left: &mut NodyBytes<'_>, room: &mut [NodyPiece]) -> usize
    ensures within { result ≤ length room.old }
    ensures each { GivesEach first_piece_of left.old.bytes.now (take result room.new) left.new.bytes.now }
    ensures rest { drop result room.new ≡ drop result room.old }
    ensures over { result < length room.old → length left.new.bytes.now ≡ 0 }
{
    let (mut count, place) = put_text_pieces(left.bytes, room);
    let mut bytes = &left.bytes[place..];
    while count < room.len() {
        let len = put_first_piece(bytes, room, count);
        if len == 0 {
            left.bytes = bytes;
            return count;
        }
        bytes = &bytes[len..];
        count += 1;
    }
    left.bytes = bytes;
    count
}

/// Writes the pieces at the front of a cursor over units to the array, as many as there are or as fit, and
/// returns how many. They are removed from the cursor.
#[unsafe(no_mangle)]
pub extern "C" fn nody_utf16_pieces(left: &mut NodyUnits<'_>, room: &mut [NodyPiece]) -> usize
    ensures within { result ≤ length room.old }
    ensures each { GivesEach first_of_units left.old.units.now (take result room.new) left.new.units.now }
    ensures rest { drop result room.new ≡ drop result room.old }
    ensures over { result < length room.old → length left.new.units.now ≡ 0 }
{
    let mut count = 0;
    while count < room.len() {
        let piece = nody_utf16_next(left);
        if piece.len == 0 {
            return count;
        }
        room[count] = piece;
        count += 1;
    }
    count
}
