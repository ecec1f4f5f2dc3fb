//! The chunks of a text, with the counts of all of them and of each row of 256.
ghost use Rattle.std.specs.List.{concat};
ghost use Rattle.std.specs.Prelude.{◌≡◌, ◌/◌, ◌<◌, IfOk, length, slice_index_or};
ghost use Rattle.text_buffers.specs.CountedChunks.{AreChunks};
ghost use Rattle.text_buffers.specs.Counts.{counts_of};
ghost use Rattle.text_buffers.specs.Rows.{AreSums};

use crate::buffers::chunk::Chunk;
use crate::buffers::counts::Counts;
use crate::buffers::dividing::{divide, joined_bytes, total};
use crate::buffers::sums::{ROW, sum_rows};
use std::alloc::{AllocError, Allocator};
use std::marker::Model;

// Chunks, and their counts. Contracts see the bytes of each. Look-ups and edits are in the other files of this
// folder.
#[derive(Drop)]
pub struct Chunks<A: Allocator + Copy> {
    pub(super) chunks: Vec<Chunk<A>, A>,
    pub(super) sums: Vec<Counts, A>,
    pub(super) counts: Counts,
}

impl<A: Allocator + Copy> Model for Chunks<A> {
    ghost use Rattle.std.specs.Prelude.{ℕ, List};
    ghost use Rattle.text_buffers.specs.CountedChunks.{AreCounted};

    ghost Value = { List (List ℕ) };

    ghost view = { λ c. c.chunks.items };

    ghost invariant = { λ c. AreCounted c.chunks.items c.sums.items c.counts };
}

impl<A: Allocator + Copy> Chunks<A> {
    // A copy of the bytes, in chunks.
    pub fn of(alloc: A, bytes: &[u8]) -> Result<Chunks<A>, AllocError>
        ensures { IfOk result (λ chunks. concat chunks ≡ bytes.now) }
    {
        let chunks = divide(alloc, bytes)?;
        let counts = total(&chunks);
        let mut sums = Vec::with_capacity(alloc, chunks.len() / ROW)?;
        sum_rows(&chunks, &mut sums)?;
        Ok(Chunks {
            chunks,
            sums,
            counts,
        })
    }

    // The number of chunks.
    #[inline(always)]
    pub fn len(&self) -> usize
        ensures many { result ≡ length self.now }
        ensures held { AreChunks self.now }
    {
        self.chunks.len()
    }

    // The chunk with this number.
    #[inline(always)]
    pub fn chunk(&self, number: usize) -> &Chunk<A>
        requires { number < length self.now }
        ensures is { result.now ≡ slice_index_or self.now number result.now }
        ensures held { AreChunks self.now }
    {
        &self.chunks[number]
    }

    // The counts of each whole row of 256 chunks.
    #[inline(always)]
    pub fn sums(&self) -> &[Counts]
        ensures sums { AreSums self.now result.now }
        ensures all { length result.now ≡ length self.now / 256 }
        ensures held { AreChunks self.now }
    {
        self.sums.as_slice()
    }

    // The counts of all chunks.
    pub fn counts(&self) -> Counts
        ensures { result ≡ counts_of (concat self.now) }
    {
        let Chunks { counts, .. } = self;
        *counts
    }

    // The bytes of all chunks, one after another.
    pub fn joined(&self, alloc: A) -> Result<Vec<u8, A>, AllocError>
        ensures { IfOk result (λ bytes. bytes.items ≡ concat self.now) }
    {
        joined_bytes(alloc, &self.chunks)
    }
}
