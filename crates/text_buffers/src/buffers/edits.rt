//! Edits of a text in chunks.
ghost use Rattle.std.specs.List.{concat, splice};
ghost use Rattle.std.specs.Prelude.{◌≡◌, ◌+◌, ◌-◌, ◌^◌, ◌<◌, ◌≤◌, length, take, IfOk, OnOk, OnErr};
ghost use Rattle.text_buffers.specs.Changes.{IsRecount};
ghost use Rattle.text_buffers.specs.ChunkEdits.{Surrounds};
ghost use Rattle.text_buffers.specs.Rows.{IsMark};

use crate::buffers::changes::Recount;
use crate::buffers::chunk::Chunk;
use crate::buffers::chunks::Chunks;
use crate::buffers::dividing::{ROOM, divide, one_chunk};
use crate::buffers::rows::Mark;
use crate::buffers::spots::Spot;
use crate::buffers::sums::{Exchange, ROW, renew_sums};
use std::alloc::{AllocError, Allocator};

// A part that is replaced, and the chunks that an edit of it reaches: from `first` up to `last`.
#[derive(Clone, Copy, Drop)]
pub struct Edit {
    pub first: Spot,
    pub last: Spot,
    pub start: usize,
    pub end: usize,
}

impl<A: Allocator + Copy> Chunks<A> {
    // The chunks that an edit of this part reaches, of which the first is known.
    pub fn reach(&self, mark: Mark, start: usize, end: usize) -> Edit
        requires mark { IsMark self.now mark }
        requires near { mark.before.bytes ≤ start - 3 }
        requires ordered { start ≤ end }
        requires within { end ≤ length (concat self.now) }
        ensures surrounds { Surrounds self.now result }
        ensures part { (result.start ≡ start) × (result.end ≡ end) }
        ensures first { (result.first.number ≡ mark.number) × (result.first.place ≡ mark.before.bytes) }
    {
        // Brings into scope that a `usize` can count the bytes.
        let _count = self.len();
        let first = Spot {
            number: mark.number,
            place: mark.before.bytes,
        };
        let last = self.find_end(first, end.saturating_add(3));
        Edit {
            first,
            last,
            start,
            end,
        }
    }

    // Replaces a part of the text, in one chunk if that can hold it. On an error everything is as it was.
    pub fn replace(&mut self, edit: Edit, new: &[u8]) -> Result<Recount, AllocError>
        requires { Surrounds self.old edit }
        ensures ok { OnOk result (concat self.new ≡ splice (concat self.old) edit.start edit.end new.now) }
        ensures recount { IfOk result (λ r. IsRecount (concat self.old) (concat self.new)
            edit.start edit.end r.place r.gone r.come) }
        ensures place { IfOk result (λ r. edit.first.place ≤ r.place) }
        ensures front { IfOk result (λ _. take edit.first.number self.new ≡ take edit.first.number self.old) }
        ensures err { OnErr result (self.new ≡ self.old) }
    {
        let left = self.counts.bytes - (edit.end - edit.start);
        if usize::MAX - left < new.len() {
            return Err(AllocError);
        }
        let reached = edit.last.place - edit.first.place;
        if edit.last.number - edit.first.number == 1
            && reached <= ROOM
            && new.len() <= ROOM - reached
        {
            return self.replace_within(edit, new);
        }
        self.replace_chunks(edit, new)
    }

    // Replaces a part of one chunk, which can hold it.
    fn replace_within(&mut self, edit: Edit, new: &[u8]) -> Result<Recount, AllocError>
        requires surrounds { Surrounds self.old edit }
        requires one { edit.last.number ≡ edit.first.number + 1 }
        requires room { edit.last.place - edit.first.place + length new.now ≤ 2048 }
        requires fits { length (splice (concat self.old) edit.start edit.end new.now) < 2 ^ 64 }
        ensures ok { OnOk result (concat self.new ≡ splice (concat self.old) edit.start edit.end new.now) }
        ensures recount { IfOk result (λ r. IsRecount (concat self.old) (concat self.new)
            edit.start edit.end r.place r.gone r.come) }
        ensures place { IfOk result (λ r. edit.first.place ≤ r.place) }
        ensures front { IfOk result (λ _. take edit.first.number self.new ≡ take edit.first.number self.old) }
        ensures err { OnErr result (self.new ≡ self.old) }
    {
        let chunk = &mut self.chunks[edit.first.number];
        let gone = chunk.counts();
        let recount = replace_part(chunk, edit, new)?;
        let come = chunk.counts();
        self.counts = self.counts.exchange(gone, come);
        let exchange = Exchange {
            first: edit.first.number,
            last: edit.last.number,
            count: 1,
            gone,
            come,
        };
        renew_sums(&self.chunks, &mut self.sums, exchange);
        Ok(recount)
    }

    // Puts new chunks in place of those that the edit reaches.
    fn replace_chunks(&mut self, edit: Edit, new: &[u8]) -> Result<Recount, AllocError>
        requires surrounds { Surrounds self.old edit }
        requires fits { length (splice (concat self.old) edit.start edit.end new.now) < 2 ^ 64 }
        ensures ok { OnOk result (concat self.new ≡ splice (concat self.old) edit.start edit.end new.now) }
        ensures recount { IfOk result (λ r. IsRecount (concat self.old) (concat self.new)
            edit.start edit.end r.place r.gone r.come) }
        ensures place { IfOk result (λ r. edit.first.place ≤ r.place) }
        ensures front { IfOk result (λ _. take edit.first.number self.new ≡ take edit.first.number self.old) }
        ensures err { OnErr result (self.new ≡ self.old) }
    {
        let alloc = *self.chunks.allocator();
        let reached = &self.chunks.as_slice()[edit.first.number..edit.last.number];
        let mut chunk = one_chunk(alloc, reached)?;
        let gone = chunk.counts();
        let recount = replace_part(&mut chunk, edit, new)?;
        let come = chunk.counts();
        let made = divide(alloc, chunk.bytes())?;
        let count = made.len();
        self.sums.reserve(count / ROW + 1)?;
        put_chunks(&mut self.chunks, edit.first.number, edit.last.number, made)?;
        self.counts = self.counts.exchange(gone, come);
        let exchange = Exchange {
            first: edit.first.number,
            last: edit.last.number,
            count,
            gone,
            come,
        };
        renew_sums(&self.chunks, &mut self.sums, exchange);
        Ok(recount)
    }
}

// Replaces a part of the text in one chunk, which has the bytes of those that the edit reaches.
fn replace_part<A: Allocator>(
    chunk: &mut Chunk<A>,
    edit: Edit,
    new: &[u8],
) -> Result<Recount, AllocError>
    requires ordered { edit.first.place ≤ edit.start }
    requires part { edit.start ≤ edit.end }
    requires within { edit.end ≤ edit.first.place + length chunk.old }
    ensures ok { OnOk result (chunk.new ≡
        splice chunk.old (edit.start - edit.first.place) (edit.end - edit.first.place) new.now) }
    ensures place { IfOk result (λ r. edit.first.place ≤ r.place) }
    ensures recount { IfOk result (λ r. IsRecount chunk.old chunk.new (edit.start - edit.first.place)
        (edit.end - edit.first.place) (r.place - edit.first.place) r.gone r.come) }
    ensures err { OnErr result (chunk.new ≡ chunk.old) }
{
    let from = edit.first.place;
    let recount = chunk.replace(edit.start - from, edit.end - from, new)?;
    Ok(Recount {
        place: from + recount.place,
        gone: recount.gone,
        come: recount.come,
    })
}

// Replaces the chunks from `start` up to `end` by others. It fails only before it changes anything.
fn put_chunks<A: Allocator + Copy>(
    chunks: &mut Vec<Chunk<A>, A>,
    start: usize,
    end: usize,
    made: Vec<Chunk<A>, A>,
) -> Result<(), AllocError>
    requires ordered { start ≤ end }
    requires within { end ≤ length chunks.old.items }
    ensures ok { OnOk result (chunks.new.items ≡ splice chunks.old.items start end made.items) }
    ensures err { OnErr result (chunks.new.items ≡ chunks.old.items) }
{
    chunks.splice(start..end, made)?;
    Ok(())
}
