//! The pieces of input that comes in parts, each with its offset.
ghost use Rattle.std.specs.Prelude.{◌≡◌, true, [], ◌∷◌, ◌<◌, ◌≤◌, length};
ghost use Rattle.cuts.specs.Located.{FeedsKept, FeedsPieces, FinishesKept, FinishesPieces, HasNoPlace, HasNoPlaceFor, IsKept, IsOpen, first_told};
ghost use Rattle.c_api.specs.Api.{form_of};
ghost use Rattle.c_api.specs.Decoders.{IfDecoder, IsDecoder, ascii_told_of, character_mark_of, decoder_of, located_for_c};

use crate::kinds::fault_number_of;
use crate::recodings::{DONE, FULL, REFUSED, form_of};
use cuts::{Decoder, FaultKind, FromPiece};
use text_stream::piece_runs::{AllPieces, Kept};

/// A decoder, in memory of the caller.
#[repr(C)]
#[derive(Clone, Copy, Drop)]
pub struct NodyDecoder {
    /// The encoding of the input: 0 for UTF-8, 1 for UTF-16LE, 2 for UTF-16BE.
    pub form: u8,
    /// The number of carried-over bytes.
    pub count: u8,
    /// The carried-over bytes, followed by unused ones.
    pub held: [u8; 3],
    /// The offset of the first carried-over byte.
    pub offset: u64,
}

/// The length of a piece, and whether it is a character.
#[repr(C)]
#[derive(Clone, Copy, Drop)]
pub struct NodyMark {
    /// The length in bytes.
    pub len: u8,
    /// 0 for a character, otherwise the number of the error.
    pub kind: u8,
    /// Always 0 (C has no such field): so these four bytes are loaded and stored as one word.
    pub rest: u16,
}

/// A piece and its offset.
#[repr(C)]
#[derive(Clone, Copy, Drop)]
pub struct NodyLocated {
    /// The offset of its first byte, modulo 2^64.
    pub offset: u64,
    /// The scalar, or 0 for a fault.
    pub scalar: u32,
    /// The length, and whether it is a character.
    pub mark: NodyMark,
}

// The scalar and mark of an ASCII character.
#[repr(C)]
#[derive(Clone, Copy, Drop)]
struct NodyTold {
    scalar: u32,
    mark: NodyMark,
}

macro_rules! marks {
    ($($len:literal),* $(,)?) => { [$(NodyMark { len: $len, kind: 0, rest: 0 }),*] };
}

macro_rules! told {
    ($($byte:literal),* $(,)?) => { [$(NodyTold { scalar: $byte, mark: NodyMark { len: 1, kind: 0, rest: 0 } }),*] };
}

// The marks of characters, by their length.
static MARKS: [NodyMark; 5] = marks![0, 1, 2, 3, 4];

// The scalar and mark of each ASCII character, sixteen a line.
#[rattlefmt::skip]
static TOLD: [NodyTold; 128] = told![
    0x00, 0x01, 0x02, 0x03, 0x04, 0x05, 0x06, 0x07, 0x08, 0x09, 0x0a, 0x0b, 0x0c, 0x0d, 0x0e, 0x0f,
    0x10, 0x11, 0x12, 0x13, 0x14, 0x15, 0x16, 0x17, 0x18, 0x19, 0x1a, 0x1b, 0x1c, 0x1d, 0x1e, 0x1f,
    0x20, 0x21, 0x22, 0x23, 0x24, 0x25, 0x26, 0x27, 0x28, 0x29, 0x2a, 0x2b, 0x2c, 0x2d, 0x2e, 0x2f,
    0x30, 0x31, 0x32, 0x33, 0x34, 0x35, 0x36, 0x37, 0x38, 0x39, 0x3a, 0x3b, 0x3c, 0x3d, 0x3e, 0x3f,
    0x40, 0x41, 0x42, 0x43, 0x44, 0x45, 0x46, 0x47, 0x48, 0x49, 0x4a, 0x4b, 0x4c, 0x4d, 0x4e, 0x4f,
    0x50, 0x51, 0x52, 0x53, 0x54, 0x55, 0x56, 0x57, 0x58, 0x59, 0x5a, 0x5b, 0x5c, 0x5d, 0x5e, 0x5f,
    0x60, 0x61, 0x62, 0x63, 0x64, 0x65, 0x66, 0x67, 0x68, 0x69, 0x6a, 0x6b, 0x6c, 0x6d, 0x6e, 0x6f,
    0x70, 0x71, 0x72, 0x73, 0x74, 0x75, 0x76, 0x77, 0x78, 0x79, 0x7a, 0x7b, 0x7c, 0x7d, 0x7e, 0x7f,
];

impl FromPiece for NodyLocated {
    ghost use Rattle.c_api.specs.Decoders.{located_for_c};

    ghost made = { located_for_c };

    #[inline(always)]
    fn from_character(offset: u64, c: char, len: usize) -> NodyLocated {
        NodyLocated {
            offset,
            scalar: c as u32,
            mark: character_mark(len),
        }
    }

    #[inline(always)]
    fn from_fault(offset: u64, kind: FaultKind, len: usize) -> NodyLocated {
        NodyLocated {
            offset,
            scalar: 0,
            mark: NodyMark {
                len: len as u8,
                kind: fault_number_of(kind),
                rest: 0,
            },
        }
    }

    #[inline(always)]
    fn from_ascii(offset: u64, byte: u8) -> NodyLocated {
        let told = ascii_told(byte);
        NodyLocated {
            offset,
            scalar: told.scalar,
            mark: told.mark,
        }
    }
}

// The mark of a character of that length.
#[inline(always)]
fn character_mark(len: usize) -> NodyMark
    requires { len ≤ 4 }
    ensures { result ≡ character_mark_of len }
{
    MARKS[len]
}

// The scalar and mark of an ASCII character, from the table.
#[inline(always)]
fn ascii_told(byte: u8) -> NodyTold
    requires { byte < 0x80 }
    ensures { result ≡ ascii_told_of byte }
{
    TOLD[byte as usize]
}

/// A decoder that carries over nothing.
#[unsafe(no_mangle)]
pub extern "C" fn nody_decoder(form: u8) -> NodyDecoder
    ensures { result ≡ record { form = form; count = 0; held = 0 ∷ 0 ∷ 0 ∷ []; offset = 0 } }
{
    NodyDecoder {
        form,
        count: 0,
        held: [0; 3],
        offset: 0,
    }
}

// Returns true if the struct is a decoder.
pub(crate) fn is_decoder(decoder: &NodyDecoder) -> bool
    ensures yes { result ≡ true → IsDecoder decoder.now }
    ensures no { IsDecoder decoder.now → result ≡ true }
{
    decoder.form < 3 && decoder.count <= 3
}

// The `Decoder` that the struct represents.
#[inline(always)]
fn decoder_in(decoder: &NodyDecoder) -> Decoder
    requires { IsDecoder decoder.now }
    ensures { result ≡ decoder_of decoder.now }
{
    Decoder::holding(
        form_of(decoder.form),
        &decoder.held[..decoder.count as usize],
        decoder.offset,
    )
}

// Stores the decoder's carried-over bytes, and their offset, into the struct.
#[inline(always)]
fn keep_decoder(decoder: &mut NodyDecoder, inner: &Decoder)
    requires { inner.now.form ≡ form_of decoder.old.form }
    ensures kept { decoder_of decoder.new ≡ inner.now }
    ensures count { decoder.new.count ≡ length inner.now.held }
    ensures is_decoder { IsDecoder decoder.old → IsDecoder decoder.new }
{
    let held = inner.held();
    decoder.offset = inner.offset();
    decoder.count = held.len() as u8;
    if !held.is_empty() {
        decoder.held[..held.len()].copy_from_slice(held);
    }
}

/// Feeds a part, as far as there is capacity for its pieces. Returns 0 if all of it was read; 1 if the array is full
/// before a piece that is known; 2, with nothing changed, if the struct is not a decoder.
#[unsafe(no_mangle)]
pub extern "C" fn nody_decoder_feed(
    decoder: &mut NodyDecoder,
    part: &[u8],
    room: &mut [NodyLocated],
    read: &mut usize,
    written: &mut usize,
) -> u8
    ensures decoder { IsDecoder decoder.old → IsDecoder decoder.new }
    ensures feeds { IfDecoder decoder.old decoder.new
        (λ d e. FeedsPieces located_for_c d part.now room.old room.new read.new written.new e) }
    ensures all { IsDecoder decoder.old → result ≡ 0 → read.new ≡ length part.now }
    ensures waits { IfDecoder decoder.old decoder.new
        (λ d e. result ≡ 0 → 0 < length e.held → IsOpen e.form e.held) }
    ensures full { IfDecoder decoder.old decoder.new
        (λ d e. result ≡ 1 → HasNoPlace e part.now read.new written.new (length room.old)) }
    ensures status { IsDecoder decoder.old → result < 2 }
    ensures refused { result ≡ 2 → (decoder.new ≡ decoder.old) × (room.new ≡ room.old) }
    ensures none { result ≡ 2 → (read.new ≡ 0) × (written.new ≡ 0) }
    ensures wrong { ¬ IsDecoder decoder.old → result ≡ 2 }
{
    *read = 0;
    *written = 0;
    if !is_decoder(decoder) {
        return REFUSED;
    }
    feed_decoder::<AllPieces>(decoder, part, room, read, written)
}

// Feeds a part to the decoder in the struct, and writes the selected pieces.
#[inline(always)]
pub(crate) fn feed_decoder<K: Kept>(
    decoder: &mut NodyDecoder,
    part: &[u8],
    room: &mut [NodyLocated],
    read: &mut usize,
    written: &mut usize,
) -> u8
    requires { IsDecoder decoder.old }
    ensures decoder { IsDecoder decoder.new }
    ensures feeds { FeedsKept K.kept located_for_c (decoder_of decoder.old) part.now room.old room.new
        read.new written.new (decoder_of decoder.new) }
    ensures all { result ≡ 0 → read.new ≡ length part.now }
    ensures waits { result ≡ 0 → 0 < length (decoder_of decoder.new).held →
        IsOpen (decoder_of decoder.new).form (decoder_of decoder.new).held }
    ensures full { result ≡ 1 →
        HasNoPlaceFor K.kept (decoder_of decoder.new) part.now read.new written.new (length room.old) }
    ensures status { result < 2 }
{
    let mut inner = decoder_in(decoder);
    let fed = inner.feed_kept::<K, NodyLocated>(part, room);
    keep_decoder(decoder, &inner);
    *read = fed.read;
    *written = fed.written;
    if fed.is_full { FULL } else { DONE }
}

/// Writes the pieces of the carried-over bytes at the end of the input, as far as there is capacity. Returns 0 if
/// nothing is carried over any more; 1 if the array is full; 2, with nothing changed, if the struct is not a decoder.
#[unsafe(no_mangle)]
pub extern "C" fn nody_decoder_finish(
    decoder: &mut NodyDecoder,
    room: &mut [NodyLocated],
    written: &mut usize,
) -> u8
    ensures decoder { IsDecoder decoder.old → IsDecoder decoder.new }
    ensures finishes { IfDecoder decoder.old decoder.new
        (λ d e. FinishesPieces located_for_c d room.old room.new written.new e) }
    ensures all { IsDecoder decoder.old → result ≡ 0 → decoder.new.count ≡ 0 }
    ensures full { IsDecoder decoder.old → result ≡ 1 → written.new ≡ length room.old }
    ensures more { IsDecoder decoder.old → result ≡ 1 → 0 < decoder.new.count }
    ensures status { IsDecoder decoder.old → result < 2 }
    ensures refused { result ≡ 2 → (decoder.new ≡ decoder.old) × (room.new ≡ room.old) }
    ensures none { result ≡ 2 → written.new ≡ 0 }
    ensures wrong { ¬ IsDecoder decoder.old → result ≡ 2 }
{
    *written = 0;
    if !is_decoder(decoder) {
        return REFUSED;
    }
    finish_decoder::<AllPieces>(decoder, room, written)
}

// Finishes the decoder in the struct, and writes the selected pieces.
#[inline(always)]
pub(crate) fn finish_decoder<K: Kept>(
    decoder: &mut NodyDecoder,
    room: &mut [NodyLocated],
    written: &mut usize,
) -> u8
    requires { IsDecoder decoder.old }
    ensures decoder { IsDecoder decoder.new }
    ensures finishes { FinishesKept K.kept located_for_c (decoder_of decoder.old) room.old room.new
        written.new (decoder_of decoder.new) }
    ensures all { result ≡ 0 → decoder.new.count ≡ 0 }
    ensures full { result ≡ 1 → written.new ≡ length room.old }
    ensures more { result ≡ 1 → 0 < decoder.new.count }
    ensures kept { result ≡ 1 →
        IsKept K.kept (first_told (decoder_of decoder.new).form (decoder_of decoder.new).held) }
    ensures status { result < 2 }
{
    let mut inner = decoder_in(decoder);
    let fed = inner.finish_kept::<K, NodyLocated>(room);
    keep_decoder(decoder, &inner);
    *written = fed.written;
    if fed.is_full { FULL } else { DONE }
}
