//! Bytes written into a slice from an offset on.
ghost use Rattle.std.specs.Prelude.{◌≡◌, ◌+◌, ◌<◌, ◌≤◌, [], ◌∷◌, length};
ghost use Rattle.recoding.specs.Rooms.{Fills};

use std::simd::prelude::*;

// Writes the bytes at the offset, and returns the offset after them.
#[inline(always)]
pub(crate) fn put_all(bytes: &[u8], room: &mut [u8], place: usize) -> usize
    requires { place + length bytes.now ≤ length room.old }
    ensures fills { Fills room.old room.new place result bytes.now }
    ensures end { result ≡ place + length bytes.now }
{
    let end = place + bytes.len();
    room[place..end].copy_from_slice(bytes);
    end
}

// Writes one byte.
#[inline(always)]
pub(crate) fn lay_byte(byte: u8, room: &mut [u8], place: usize) -> usize
    requires { place < length room.old }
    ensures fills { Fills room.old room.new place result (byte ∷ []) }
    ensures end { result ≡ place + 1 }
{
    room[place] = byte;
    place + 1
}

// Writes 64 bytes.
#[inline(always)]
pub(crate) fn lay_wide(block: u8x64, room: &mut [u8], place: usize) -> usize
    requires { place + 64 ≤ length room.old }
    ensures fills { Fills room.old room.new place result block }
    ensures end { result ≡ place + 64 }
{
    block.copy_to_slice(&mut room[place..]);
    place + 64
}
