//! The pieces of a text in chunks. A piece lies in one chunk, but the kind of a fault may depend on the
//! three bytes after it, and these may lie in later chunks.
ghost use Rattle.std.specs.List.{concat};
ghost use Rattle.std.specs.Prelude.{◌≡◌, ◌+◌, ◌^◌, ◌<◌, ◌≤◌, Contains, MatchOption, length, take, drop, slice_get};
ghost use Rattle.encode_unicode.specs.Pieces.{pieces};
ghost use Rattle.encode_unicode.specs.Window.{IsFrontPiece};
ghost use Rattle.text_buffers.specs.TextLookups.{HasPlace};

use crate::buffers::chunks::Chunks;
use encode_unicode::Utf8Char;
use std::alloc::Allocator;
use text_runs::boundaries::floor;
use text_runs::runs::items::Item;

// The number of bytes that decide the piece they begin with.
const DECIDE: usize = 4;

impl<A: Allocator + Copy> Chunks<A> {
    // The piece with this number. `None` if there are no more pieces.
    pub fn nth_piece(&self, number: usize) -> Option<Item>
        ensures { result ≡ slice_get (pieces (concat self.now)) number }
    {
        let place = self.place_of(number)?;
        Some(self.piece_from(place))
    }

    // The piece that has the byte at this offset. `None` if there is no byte.
    pub fn piece_over(&self, at: usize) -> Option<Item>
        ensures { MatchOption result (length (concat self.now) ≤ at)
            (λ x. Contains (pieces (concat self.now)) x × HasPlace at x) }
    {
        let spot = self.find(at);
        if spot.number == self.len() {
            return None;
        }
        let bytes = self.chunk(spot.number).bytes();
        if bytes.len() <= at - spot.place {
            return None;
        }
        let place = spot.place + floor(bytes, at - spot.place);
        Some(self.piece_from(place))
    }

    // The first piece of the bytes from this offset on.
    fn piece_from(&self, at: usize) -> Item
        requires { at < length (concat self.now) }
        ensures place { result.0 ≡ at }
        ensures piece { IsFrontPiece (drop at (concat self.now)) result.1 result.2 }
    {
        let here = self.chunk_from(at);
        if DECIDE <= here.len() {
            return first_piece(at, here);
        }
        let front = self.front_at(at);
        first_piece(at, &front.bytes[..front.len])
    }

    // The bytes from this offset on: four, or all if there are fewer.
    fn front_at(&self, at: usize) -> Front
        requires { at < length (concat self.now) }
        ensures few { result.len ≤ 4 }
        ensures bytes { take result.len result.bytes ≡ take result.len (drop at (concat self.now)) }
        ensures all { result.len < 4 → length (concat self.now) ≤ at + result.len }
    {
        // Brings into scope that a `usize` can count the bytes.
        let _count = self.len();
        let mut front = Front {
            bytes: [0; DECIDE],
            len: 0,
        };
        while front.len < DECIDE {
            let Some(byte) = self.byte_at(at + front.len) else {
                return front;
            };
            front.bytes[front.len] = byte;
            front.len += 1;
        }
        front
    }

    // The byte at this offset.
    fn byte_at(&self, at: usize) -> Option<u8>
        ensures { result ≡ slice_get (concat self.now) at }
    {
        self.chunk_from(at).first().copied()
    }
}

// The piece that begins the bytes; `place` is their offset in the text.
fn first_piece(place: usize, bytes: &[u8]) -> Item
    ensures place { result.0 ≡ place }
    ensures piece { IsFrontPiece bytes.now result.1 result.2 }
{
    match Utf8Char::from_slice_start(bytes) {
        Ok((c, len)) => (place, Ok(c), len),
        Err(error) => (place, Err(error), 1),
    }
}

// Bytes collected from several chunks: the first `len` of the array.
#[derive(Clone, Copy, Drop)]
struct Front {
    bytes: [u8; 4],
    len: usize,
}
