//! A table of the pieces of some bytes, which is kept up to date if a part of the bytes is replaced.
ghost use Rattle.std.specs.List.{splice};
ghost use Rattle.std.specs.List.Sorted.{IsNonDecreasingBy};
ghost use Rattle.std.specs.Prelude.{◌≡◌, ◌+◌, ◌-◌, ◌^◌, ◌<◌, ◌≤◌, ◌++◌, [], length, map, slice_range, take, drop, All, IfOk, IsOk, OnOk, OnErr, vec_len, vec_capacity};
ghost use Rattle.utf_base.specs.Code.{utf8};
ghost use Rattle.utf_base.specs.Piece.{Inside};
ghost use Rattle.encode_unicode.specs.Pieces.{pieces as all_pieces, LiesWithin};
ghost use Rattle.encode_unicode.specs.Window.{Item as AnItem, IsFrontPiece};
ghost use Rattle.text_runs.specs.ForwardRuns.{IsForwardRun, IsForwardRunBetween};
ghost use Rattle.text_runs.specs.Tables.{StayAround, StepForEach, WereReplaced, IsSplice, IsRenewed, IsSplitAt, EndsAt, IsRestMoved, moved_item};

use crate::lists::splice_in;
use encode_unicode::{Steps, Utf8Char};
use std::alloc::{AllocError, Allocator};
use std::marker::Model;
use std::ops::Range;
use text_runs::runs::items::Item;

/// Bytes and their pieces, which are kept up to date while the bytes are edited. Contracts see
/// both.
///
/// An edit of the bytes affects few pieces: `replace` decodes only those, and moves the others.
#[derive(Drop)]
pub struct PieceTable<A: Allocator + Copy> {
    bytes: Vec<u8, A>,
    pieces: Vec<Item, A>,
}

impl<A: Allocator + Copy> Model for PieceTable<A> {
    ghost use Rattle.text_runs.specs.ForwardRuns.{IsForwardRun};
    ghost use Rattle.text_runs.specs.Tables.{Table};

    ghost Value = { Table };

    ghost view = { λ t. record { bytes = t.bytes.items; pieces = t.pieces.items } };

    ghost invariant = { λ t. IsForwardRun t.bytes.items t.pieces.items };
}

impl<A: Allocator + Copy> PieceTable<A> {
    /// A table of a copy of the bytes. The error is that an allocation failed.
    ///
    /// Cost: O(n), allocates.
    pub fn new(alloc: A, bytes: &[u8]) -> Result<PieceTable<A>, AllocError>
        ensures ok { IfOk result (λ table. table.bytes ≡ bytes.now) }
        ensures nothing { length bytes.now ≡ 0 → IsOk result }
    {
        let mut held = Vec::with_capacity(alloc, bytes.len())?;
        held.extend_from_slice(bytes)?;
        let mut pieces = Vec::new(alloc);
        decode_pieces(bytes, 0..bytes.len(), &mut pieces, &mut Steps::new())?;
        Ok(PieceTable {
            bytes: held,
            pieces,
        })
    }

    /// The bytes.
    pub fn bytes(&self) -> &[u8]
        ensures { result.now ≡ self.now.bytes }
    {
        self.bytes.as_slice()
    }

    /// All pieces of the bytes, in order: (offset, character or error, length). The errors are
    /// those that a decoder gives from the front.
    pub fn pieces(&self) -> &[Item]
        ensures held { result.now ≡ self.now.pieces }
        ensures run { IsForwardRun self.now.bytes result.now }
        ensures value { result.now ≡ all_pieces self.now.bytes }
        ensures places { All (LiesWithin 4 (length self.now.bytes)) result.now }
        ensures fits { length self.now.bytes < 2 ^ 64 }
    {
        // Brings into scope that the length fits in a `usize`.
        let _len = self.bytes.len();
        self.pieces.as_slice()
    }

    /// Replaces the bytes from `start` up to `end`, `end` not included, by `new`. It counts in
    /// `steps` the pieces that it decodes.
    ///
    /// Fails if an allocation fails, or if a `usize` cannot count the bytes. The table is then as it was. If
    /// nothing is replaced by nothing (`start` is `end`, and `new` is empty), nothing is allocated.
    ///
    /// Condition: `start` is at most `end`, and `end` at most the length.
    ///
    /// Cost: decodes at most n + 6 pieces for n new bytes, and moves all that follow; allocates.
    pub fn replace(
        &mut self,
        start: usize,
        end: usize,
        new: &[u8],
        steps: &mut Steps,
    ) -> Result<(), AllocError>
        requires ordered { start ≤ end }
        requires within { end ≤ length self.old.bytes }
        ensures ok { OnOk result (self.new.bytes ≡ splice self.old.bytes start end new.now) }
        ensures run { IsForwardRun self.new.bytes self.new.pieces }
        ensures around { OnOk result (StayAround self.old.pieces self.new.pieces start end
            (start + length new.now)) }
        ensures err { OnErr result (self.new ≡ self.old) }
        ensures least { OnOk result (StepForEach self.new.bytes (start - 3)
            (start + length new.now + 3) steps.old steps.new) }
        ensures most { steps.new ≤ steps.old + length new.now + 6 }
        ensures nothing { start ≡ end → length new.now ≡ 0 → IsOk result × (self.new ≡ self.old) }
    {
        if start == end && new.is_empty() {
            decode_near(self.bytes.as_slice(), start, self.pieces.as_slice(), steps);
            return Ok(());
        }
        // All memory is allocated before the first change.
        let most = new.len().saturating_add(6);
        let mut fresh = Vec::with_capacity(*self.bytes.allocator(), most)?;
        self.pieces.reserve(most)?;
        splice_in(&mut self.bytes, start, end, new)?;
        let edited = Edited {
            bytes: &self.bytes,
            start,
            end,
            after: start + new.len(),
        };
        redecode(edited, &mut self.pieces, &mut fresh, steps)
    }
}

// Bytes of which those from `start` to `end` were replaced by others, which end at `after`.
#[derive(Clone, Copy, Drop)]
struct Edited<'a> {
    bytes: &'a [u8],
    start: usize,
    end: usize,
    after: usize,
}

// Updates the pieces to those of the edited bytes. There is capacity for what is decoded, so it never fails.
fn redecode<A: Allocator>(
    edited: Edited<'_>,
    pieces: &mut Vec<Item, A>,
    fresh: &mut Vec<Item, A>,
    steps: &mut Steps,
) -> Result<(), AllocError>
    requires replaced { WereReplaced edited.bytes.now edited.start edited.end edited.after pieces.old.items }
    requires empty { fresh.old.items ≡ [] }
    requires fresh_room { edited.after - edited.start + 6 ≤ vec_capacity fresh.old }
    requires room { vec_len pieces.old + (edited.after - edited.start + 6) ≤ vec_capacity pieces.old }
    ensures done { IsOk result }
    ensures renewed { IsRenewed edited.entry.bytes.now edited.entry.start edited.entry.end edited.entry.after
        pieces.old.items pieces.new.items steps.old steps.new }
{
    let spot = find_splice(edited, pieces.as_slice());
    decode_pieces(edited.bytes, spot.from..edited.after + 3, fresh, steps)?;
    put_pieces(pieces, spot, fresh.as_slice(), edited)
}

// Decodes the pieces that a change at the offset would affect, each in one step, and keeps none: if nothing
// changes they are known. So it does not allocate.
fn decode_near(bytes: &[u8], place: usize, pieces: &[Item], steps: &mut Steps)
    requires replaced { WereReplaced bytes.now place place place pieces.now }
    ensures least { StepForEach bytes.now (place - 3) (place + 3) steps.old steps.new }
    ensures most { steps.new ≤ steps.old + 6 }
{
    let edited = Edited {
        bytes,
        start: place,
        end: place,
        after: place,
    };
    let spot = find_splice(edited, pieces);
    let end = bytes.len().min(place + 3);
    let mut next = spot.from;
    while next < end {
        let item = piece_at(bytes, next, steps);
        next += item.2;
    }
}

// The range of the old pieces that the new ones replace, from `keep` to `resume`, and the offset `from` at
// which decoding begins.
#[derive(Drop)]
struct Splice {
    keep: usize,
    resume: usize,
    from: usize,
}

// The range of the pieces to replace. A piece that ends near enough to a change to be affected by it is not
// kept.
fn find_splice(edited: Edited<'_>, pieces: &[Item]) -> Splice
    requires replaced { WereReplaced edited.bytes.now edited.start edited.end edited.after pieces.now }
    ensures { IsSplice edited.entry.bytes.now edited.entry.start edited.entry.end edited.entry.after
        pieces.now result.keep result.resume result.from }
{
    let keep = count_before(pieces, edited.start.saturating_sub(3));
    Splice {
        keep,
        resume: count_before(pieces, edited.end + 3),
        from: end_of(pieces, keep),
    }
}

// Replaces the pieces of the splice by `fresh`, and moves the offsets of those after them by as much as the bytes
// were moved. It fails only if capacity is missing.
fn put_pieces<A: Allocator>(
    pieces: &mut Vec<Item, A>,
    spot: Splice,
    fresh: &[Item],
    edited: Edited<'_>,
) -> Result<(), AllocError>
    requires ordered { spot.keep ≤ spot.resume }
    requires within { spot.resume ≤ vec_len pieces.old }
    requires counted { All (λ (x : AnItem). edited.end ≤ x.0) (drop spot.resume pieces.old.items) }
    requires fits { All (λ (x : AnItem). edited.after + (x.0 - edited.end) < 2 ^ 64)
        (drop spot.resume pieces.old.items) }
    ensures ok { OnOk result (pieces.new.items ≡ take spot.keep pieces.old.items ++ (fresh.now ++
        map (moved_item edited.entry.end edited.entry.after) (drop spot.resume pieces.old.items))) }
    ensures room { vec_len pieces.old + length fresh.now ≤ vec_capacity pieces.old → IsOk result }
{
    move_places(&mut pieces[spot.resume..], edited.end, edited.after);
    splice_in(pieces, spot.keep, spot.resume, fresh)
}

// The number of items that begin before the offset.
fn count_before(items: &[Item], place: usize) -> usize
    requires { IsNonDecreasingBy (λ (x : AnItem). x.0) items.now }
    ensures { IsSplitAt items.now place result }
{
    items.partition_point(|item| item.0 < place)
}

// The offset at which the first `count` items end.
fn end_of(items: &[Item], count: usize) -> usize
    requires within { count ≤ length items.now }
    requires fits { All (λ (x : AnItem). x.0 + x.2 < 2 ^ 64) items.now }
    ensures { EndsAt items.now count result }
{
    if count == 0 {
        return 0;
    }
    let (place, _, len) = items[count - 1];
    place + len
}

// Moves the offsets of the items from `from` to `to`.
fn move_places(items: &mut [Item], from: usize, to: usize)
    requires counted { All (λ (x : AnItem). from ≤ x.0) items.old }
    requires fits { All (λ (x : AnItem). to + (x.0 - from) < 2 ^ 64) items.old }
    ensures { items.new ≡ map (moved_item from to) items.old }
{
    if from == to {
        return;
    }
    for i in 0..items.len() {
        let item = items[i];
        items[i] = (to + (item.0 - from), item.1, item.2);
    }
}

// Collects the pieces of the bytes that begin in the range, if no code covers its start. Each takes one step.
fn decode_pieces<A: Allocator>(
    bytes: &[u8],
    range: Range<usize>,
    pieces: &mut Vec<Item, A>,
    steps: &mut Steps,
) -> Result<(), AllocError>
    requires within { range.start ≤ length bytes.now }
    requires outside { Inside utf8 bytes.now range.start → ⊥ }
    requires empty { pieces.old.items ≡ [] }
    ensures run { OnOk result (IsForwardRunBetween bytes.now range.start range.end pieces.new.items) }
    ensures steps { OnOk result (steps.new ≡ steps.old + length pieces.new.items) }
    ensures few { steps.new ≤ steps.old + (range.end - range.start) }
    ensures room { range.end - range.start ≤ vec_capacity pieces.old → IsOk result }
{
    let end = range.end.min(bytes.len());
    let mut next = range.start;
    while next < end {
        let item = piece_at(bytes, next, steps);
        next += item.2;
        pieces.push(item)?;
    }
    Ok(())
}

// The first piece of the bytes from `place` on. This is one step.
#[inline(always)]
fn piece_at(bytes: &[u8], place: usize, steps: &mut Steps) -> Item
    requires { place < length bytes.now }
    ensures place { result.0 ≡ place }
    ensures piece { IsFrontPiece (slice_range bytes.now place (length bytes.now)) result.1 result.2 }
    ensures step { steps.new ≡ steps.old + 1 }
{
    steps.tick();
    match Utf8Char::from_slice_start(&bytes[place..]) {
        Ok((c, len)) => (place, Ok(c), len),
        Err(error) => (place, Err(error), 1),
    }
}
