//! A part of a text, with its counts.
ghost use Rattle.std.specs.List.{splice};
ghost use Rattle.std.specs.Prelude.{◌≡◌, ◌+◌, ◌-◌, ◌≤◌, length, min, IfOk, OnOk, OnErr};
ghost use Rattle.text_buffers.specs.Changes.{IsRecount};
ghost use Rattle.text_buffers.specs.ChunkEdits.{IsWindow};
ghost use Rattle.text_buffers.specs.Counts.{counts_of};
ghost use Rattle.text_runs.specs.PieceBoundaries.{IsFirstBetween, IsLastBetween};

use crate::buffers::changes::Recount;
use crate::buffers::counts::Counts;
use crate::lists::splice_in;
use std::alloc::{AllocError, Allocator};
use std::marker::Model;
use text_runs::boundaries::{ceil, floor};

// Bytes, and their counts.
#[derive(Drop)]
pub struct Chunk<A: Allocator> {
    bytes: Vec<u8, A>,
    counts: Counts,
}

impl<A: Allocator> Model for Chunk<A> {
    ghost use Rattle.std.specs.Prelude.{◌≡◌, ℕ, List};
    ghost use Rattle.text_buffers.specs.Counts.{counts_of};

    ghost Value = { List ℕ };

    ghost view = { λ c. c.bytes.items };

    ghost invariant = { λ c. c.counts ≡ counts_of c.bytes.items };
}

impl<A: Allocator> Chunk<A> {
    // A chunk of a copy of the bytes, with capacity for `room` bytes.
    pub fn of(alloc: A, bytes: &[u8], room: usize) -> Result<Chunk<A>, AllocError>
        ensures { IfOk result (λ chunk. chunk ≡ bytes.now) }
    {
        let mut held = Vec::with_capacity(alloc, room)?;
        held.extend_from_slice(bytes)?;
        Ok(Chunk {
            bytes: held,
            counts: Counts::of(bytes),
        })
    }

    // A chunk of bytes whose counts are known.
    pub fn of_counted(bytes: Vec<u8, A>, counts: Counts) -> Chunk<A>
        requires { counts ≡ counts_of bytes.items }
        ensures { result ≡ bytes.items }
    {
        Chunk { bytes, counts }
    }

    // The bytes.
    pub fn bytes(&self) -> &[u8]
        ensures { result.now ≡ self.now }
    {
        self.bytes.as_slice()
    }

    // The length in bytes.
    pub fn len(&self) -> usize
        ensures { result ≡ length self.now }
    {
        self.bytes.len()
    }

    // The counts of the bytes.
    pub fn counts(&self) -> Counts
        ensures { result ≡ counts_of self.now }
    {
        let Chunk { counts, .. } = self;
        *counts
    }

    // Replaces the bytes from `start` up to `end` by `new`. It recounts only the bytes near these, and returns both
    // counts. On an error the chunk is as it was.
    pub fn replace(&mut self, start: usize, end: usize, new: &[u8]) -> Result<Recount, AllocError>
        requires ordered { start ≤ end }
        requires within { end ≤ length self.old }
        ensures ok { OnOk result (self.new ≡ splice self.old start end new.now) }
        ensures recount { IfOk result (λ r. IsRecount self.old self.new start end r.place r.gone r.come) }
        ensures err { OnErr result (self.new ≡ self.old) }
    {
        let held = self.bytes.as_slice();
        let window = window_of(held, start, end);
        let rest = held.len() - window.until;
        let gone = Counts::of(&held[window.from..window.until]);
        splice_in(&mut self.bytes, start, end, new)?;
        let now = self.bytes.as_slice();
        let until = now.len() - rest;
        let come = Counts::of(&now[window.from..until]);
        self.counts = self.counts.exchange(gone, come);
        Ok(Recount {
            place: window.from,
            gone,
            come,
        })
    }
}

// The bytes from `from` up to `until`.
#[derive(Clone, Copy, Drop)]
struct Window {
    from: usize,
    until: usize,
}

// The smallest window of the bytes that has all pieces which an edit may change.
fn window_of(bytes: &[u8], start: usize, end: usize) -> Window
    requires ordered { start ≤ end }
    requires within { end ≤ length bytes.now }
    ensures window { IsWindow bytes.now start end result.from result.until }
    ensures begins { IsLastBetween bytes.now (start - 3) result.from }
    ensures ends { IsFirstBetween bytes.now (min (length bytes.now) (end + 3)) result.until }
{
    let len = bytes.len();
    Window {
        from: floor(bytes, start.saturating_sub(3)),
        until: ceil(bytes, len.min(end.saturating_add(3))),
    }
}
