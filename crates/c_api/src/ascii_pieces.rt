//! The pieces of ASCII characters, each from a table: one load and one store, instead of three stores to build it.
ghost use Rattle.std.specs.Prelude.{◌≡◌, ◌<◌, ◌≤◌, length, map, take, drop, IsTrue, IsFalse};
ghost use Rattle.utf_lanes.specs.AsciiTexts.{AreAscii};
ghost use Rattle.c_api.specs.Api.{ascii_piece_of, first_piece_of, GivesEach};

use crate::piece::NodyPiece;
use utf_lanes::ascii_texts::is_ascii;

// The number of pieces that are written in one step.
const BLOCK: usize = 8;

macro_rules! pieces {
    ($($byte:literal),* $(,)?) => { [$(NodyPiece { len: 1, scalar: $byte, kind: 0 }),*] };
}

// The piece of each ASCII character, sixteen a line.
#[rattlefmt::skip]
static PIECES: [NodyPiece; 128] = pieces![
    0x00, 0x01, 0x02, 0x03, 0x04, 0x05, 0x06, 0x07, 0x08, 0x09, 0x0a, 0x0b, 0x0c, 0x0d, 0x0e, 0x0f,
    0x10, 0x11, 0x12, 0x13, 0x14, 0x15, 0x16, 0x17, 0x18, 0x19, 0x1a, 0x1b, 0x1c, 0x1d, 0x1e, 0x1f,
    0x20, 0x21, 0x22, 0x23, 0x24, 0x25, 0x26, 0x27, 0x28, 0x29, 0x2a, 0x2b, 0x2c, 0x2d, 0x2e, 0x2f,
    0x30, 0x31, 0x32, 0x33, 0x34, 0x35, 0x36, 0x37, 0x38, 0x39, 0x3a, 0x3b, 0x3c, 0x3d, 0x3e, 0x3f,
    0x40, 0x41, 0x42, 0x43, 0x44, 0x45, 0x46, 0x47, 0x48, 0x49, 0x4a, 0x4b, 0x4c, 0x4d, 0x4e, 0x4f,
    0x50, 0x51, 0x52, 0x53, 0x54, 0x55, 0x56, 0x57, 0x58, 0x59, 0x5a, 0x5b, 0x5c, 0x5d, 0x5e, 0x5f,
    0x60, 0x61, 0x62, 0x63, 0x64, 0x65, 0x66, 0x67, 0x68, 0x69, 0x6a, 0x6b, 0x6c, 0x6d, 0x6e, 0x6f,
    0x70, 0x71, 0x72, 0x73, 0x74, 0x75, 0x76, 0x77, 0x78, 0x79, 0x7a, 0x7b, 0x7c, 0x7d, 0x7e, 0x7f,
];

// The piece of an ASCII character.
#[inline(always)]
pub(crate) fn ascii_piece(byte: u8) -> NodyPiece
    requires { byte < 0x80 }
    ensures { result ≡ ascii_piece_of byte }
{
    PIECES[byte as usize]
}

// Writes the pieces of the ASCII characters that begin the bytes to the front of the array, as far as whole blocks
// go, and returns how many there are.
#[inline(always)]
pub(crate) fn put_ascii_pieces(bytes: &[u8], room: &mut [NodyPiece]) -> usize
    ensures within { result ≤ length room.old }
    ensures few { result ≤ length bytes.now }
    ensures each { GivesEach first_piece_of bytes.now (take result room.new) (drop result bytes.now) }
    ensures len { length room.new ≡ length room.old }
    ensures rest { drop result room.new ≡ drop result room.old }
{
    let most = room.len().min(bytes.len());
    let mut count = 0;
    while BLOCK <= most - count {
        if !put_block(
            &bytes[count..count + BLOCK],
            &mut room[count..count + BLOCK],
        ) {
            return count;
        }
        count += BLOCK;
    }
    count
}

// Writes the pieces of a block if all bytes are ASCII, otherwise nothing; returns whether they are.
#[inline(always)]
fn put_block(bytes: &[u8], room: &mut [NodyPiece]) -> bool
    requires bytes { length bytes.now ≡ 8 }
    requires room { length room.old ≡ 8 }
    ensures ascii { IsTrue result → AreAscii bytes.now 0 8 }
    ensures put { IsTrue result → room.new ≡ map ascii_piece_of bytes.now }
    ensures len { length room.new ≡ 8 }
    ensures none { IsFalse result → room.new ≡ room.old }
{
    if !is_ascii(bytes) {
        return false;
    }
    for i in 0..BLOCK {
        room[i] = ascii_piece(bytes[i]);
    }
    true
}
