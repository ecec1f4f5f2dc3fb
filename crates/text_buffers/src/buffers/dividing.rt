//! Division of bytes into chunks.
ghost use Rattle.std.specs.List.{concat};
ghost use Rattle.std.specs.Prelude.{◌≡◌, ◌+◌, ◌<◌, ◌≤◌, length, All, IfOk};
ghost use Rattle.utf_base.specs.Code.{utf8};
ghost use Rattle.utf_base.specs.Piece.{Inside};
ghost use Rattle.text_buffers.specs.Chunks.{EndOutside};
ghost use Rattle.text_buffers.specs.CountedChunks.{AreChunks};
ghost use Rattle.text_buffers.specs.Counts.{counts_of};

use crate::buffers::chunk::Chunk;
use crate::buffers::counts::Counts;
use recoding::boundaries::boundary_before;
use recoding::form::Form;
use std::alloc::{AllocError, Allocator};

// The greatest length of a chunk, in bytes. An edit moves at most as many, and a piece is found by counting
// them.
pub const ROOM: usize = 2048;

// The length of a new chunk, in bytes: less than `ROOM`, so it can grow by some edits.
const FILL: usize = 1792;

// Divides the bytes into chunks.
pub fn divide<A: Allocator + Copy>(alloc: A, bytes: &[u8]) -> Result<Vec<Chunk<A>, A>, AllocError>
    ensures bytes { IfOk result (λ chunks. concat chunks.items ≡ bytes.now) }
    ensures ends { IfOk result (λ chunks. EndOutside chunks.items) }
    ensures few { IfOk result (λ chunks. All (λ x. length x ≤ 2048) chunks.items) }
{
    let mut chunks = Vec::new(alloc);
    let mut place = 0;
    while place < bytes.len() {
        let end = chunk_end(bytes, place);
        chunks.push(Chunk::of(alloc, &bytes[place..end], ROOM)?)?;
        place = end;
    }
    Ok(chunks)
}

// The end of the chunk that begins at the offset.
fn chunk_end(bytes: &[u8], place: usize) -> usize
    requires { place < length bytes.now }
    ensures some { place < result }
    ensures within { result ≤ length bytes.now }
    ensures few { result ≤ place + 2048 }
    ensures outside { Inside utf8 bytes.now result → ⊥ }
{
    if bytes.len() - place <= ROOM {
        return bytes.len();
    }
    boundary_before(Form::Utf8, bytes, place + FILL)
}

// The counts of the chunks together.
pub fn total<A: Allocator>(chunks: &[Chunk<A>]) -> Counts
    requires { AreChunks chunks.now }
    ensures { result ≡ counts_of (concat chunks.now) }
{
    let mut sum = Counts::of(&[]);
    for chunk in chunks {
        sum = sum.plus(chunk.counts());
    }
    sum
}

// One chunk that has the bytes of all of them.
pub fn one_chunk<A: Allocator>(alloc: A, chunks: &[Chunk<A>]) -> Result<Chunk<A>, AllocError>
    requires { AreChunks chunks.now }
    ensures { IfOk result (λ chunk. chunk ≡ concat chunks.now) }
{
    let bytes = joined_bytes(alloc, chunks)?;
    Ok(Chunk::of_counted(bytes, total(chunks)))
}

// The bytes of the chunks, one after another.
pub fn joined_bytes<A: Allocator>(alloc: A, chunks: &[Chunk<A>]) -> Result<Vec<u8, A>, AllocError>
    ensures { IfOk result (λ bytes. bytes.items ≡ concat chunks.now) }
{
    let mut bytes = Vec::new(alloc);
    for chunk in chunks {
        bytes.extend_from_slice(chunk.bytes())?;
    }
    Ok(bytes)
}
