//! Look-ups of pieces in the chunks of a text.
ghost use Rattle.std.specs.List.{concat};
ghost use Rattle.std.specs.Prelude.{◌≡◌, ◌+◌, ◌^◌, ◌<◌, ◌≤◌, length, take, drop, slice_get, option_map};
ghost use Rattle.encode_unicode.specs.Pieces.{pieces};
ghost use Rattle.encode_unicode.specs.Window.{Item as AnItem};
ghost use Rattle.text_runs.specs.PieceBoundaries.{IsBetween};
ghost use Rattle.text_buffers.specs.Rows.{IsMark};
ghost use Rattle.text_runs.specs.Tables.{IsSplitAt};

use crate::buffers::chunk::Chunk;
use crate::buffers::chunks::Chunks;
use crate::buffers::counts::Measure;
use crate::buffers::rows::Mark;
use std::alloc::Allocator;
use text_runs::boundaries::ceil;
use text_runs::runs::numbers::offset_of;
use text_runs::runs::piece_counts::piece_count;

// The number of bytes that are counted in one step on the way to a piece.
const PART: usize = 128;

impl<A: Allocator + Copy> Chunks<A> {
    // The bytes from this offset on, as far as they lie in one chunk.
    pub fn chunk_from(&self, at: usize) -> &[u8]
        ensures bytes { result.now ≡ take (length result.now) (drop at (concat self.now)) }
        ensures some { at < length (concat self.now) → 0 < length result.now }
    {
        let spot = self.find(at);
        if spot.number == self.len() {
            return &[];
        }
        let bytes = self.chunk(spot.number).bytes();
        &bytes[bytes.len().min(at - spot.place)..]
    }

    // The number of pieces that begin before this offset.
    pub fn pieces_before(&self, at: usize) -> usize
        ensures { IsSplitAt (pieces (concat self.now)) at result }
    {
        self.pieces_before_from(self.skip(Measure::Bytes, at), at)
    }

    // The number of pieces that begin before this offset, searched from a chunk on that does not begin after
    // it.
    pub fn pieces_before_from(&self, from: Mark, at: usize) -> usize
        requires mark { IsMark self.now from }
        requires before { from.before.bytes ≤ at }
        ensures { IsSplitAt (pieces (concat self.now)) at result }
    {
        let mark = self.mark_from(from, at);
        if mark.number == self.len() {
            return mark.before.pieces;
        }
        let chunk = self.chunk(mark.number);
        let end = ceil(chunk.bytes(), chunk.len().min(at - mark.before.bytes));
        mark.before.pieces + pieces_up_to(chunk, end)
    }

    // The offset of the piece with this number. `None` if there are no more pieces.
    pub fn place_of(&self, number: usize) -> Option<usize>
        ensures { result ≡ option_map (λ (x : AnItem). x.0) (slice_get (pieces (concat self.now)) number) }
    {
        let found = self.find_number(Measure::Pieces, number)?;
        let bytes = self.chunk(found.spot.number).bytes();
        let place = offset_by_parts(bytes, number - found.before)?;
        Some(found.spot.place + place)
    }
}

// The number of pieces of a chunk before a boundary of it. It counts those on the shorter side.
fn pieces_up_to<A: Allocator>(chunk: &Chunk<A>, end: usize) -> usize
    requires { IsBetween chunk.now end }
    ensures { result ≡ length (pieces (take end chunk.now)) }
{
    let bytes = chunk.bytes();
    if end <= bytes.len() / 2 {
        return piece_count(&bytes[..end]);
    }
    chunk.counts().pieces - piece_count(&bytes[end..])
}

// The offset of the piece of the bytes with this number. Parts before it are counted, and only its own part is
// scanned piece by piece.
fn offset_by_parts(bytes: &[u8], number: usize) -> Option<usize>
    ensures { result ≡ option_map (λ (x : AnItem). x.0) (slice_get (pieces bytes.now) number) }
{
    let mut place = 0;
    let mut left = number;
    while place < bytes.len() {
        let part = front_part(&bytes[place..]);
        let count = piece_count(part);
        if left < count {
            let offset = offset_of(part, left)?;
            return Some(place + offset);
        }
        place += part.len();
        left -= count;
    }
    None
}

// The bytes up to the first boundary that is at least `PART` bytes from the front, or all.
fn front_part(bytes: &[u8]) -> &[u8]
    requires { 0 < length bytes.now }
    ensures some { 0 < length result.now }
    ensures front { result.now ≡ take (length result.now) bytes.now }
    ensures ends { IsBetween bytes.now (length result.now) }
{
    &bytes[..ceil(bytes, bytes.len().min(PART))]
}
