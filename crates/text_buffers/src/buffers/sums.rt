//! The sums of rows: the counts of each 256 chunks, and how an edit changes them.
ghost use Rattle.std.specs.Prelude.{◌≡◌, ◌/◌, ◌<◌, ◌≤◌, IfOk, IsOk, length, slice_index_or, slice_set, vec_capacity};
ghost use Rattle.text_buffers.specs.CountedChunks.{AreChunks};
ghost use Rattle.text_buffers.specs.declared.buffers.counts.Counts.{Counts as ItsCounts};
ghost use Rattle.text_buffers.specs.Counts.{exchange_of, AreAmong, IsSmall};
ghost use Rattle.text_buffers.specs.RowEdits.{WereExchanged};
ghost use Rattle.text_buffers.specs.Rows.{AreSums, AreSumsBut};

use crate::buffers::chunk::Chunk;
use crate::buffers::counts::Counts;
use crate::buffers::dividing::total;
use std::alloc::{AllocError, Allocator};

// The number of chunks in a row. The last chunks, if they are fewer, have no sum.
pub const ROW: usize = 256;

// Adds the sums of the rows that have none yet. If there is capacity for a sum of each row, it never fails.
pub fn sum_rows<A: Allocator>(
    chunks: &[Chunk<A>],
    sums: &mut Vec<Counts, A>,
) -> Result<(), AllocError>
    requires held { AreChunks chunks.now }
    requires sums { AreSums chunks.now sums.old.items }
    ensures sums { AreSums chunks.now sums.new.items }
    ensures all { IfOk result (λ _. length sums.new.items ≡ length chunks.now / 256) }
    ensures room { length chunks.now / 256 ≤ vec_capacity sums.old → IsOk result }
{
    for row in sums.len()..chunks.len() / ROW {
        sums.push(total(&chunks[row * ROW..(row + 1) * ROW]))?;
    }
    Ok(())
}

// The effect of an edit on the chunks: `count` new ones replaced those from `first` up to `last`. `gone` is the
// counts of the old ones, and `come` those of the new ones.
#[derive(Clone, Copy, Drop)]
pub struct Exchange {
    pub first: usize,
    pub last: usize,
    pub count: usize,
    pub gone: Counts,
    pub come: Counts,
}

// Updates the sums after an exchange of chunks. There has to be capacity for a sum of each row.
pub fn renew_sums<A: Allocator>(chunks: &[Chunk<A>], sums: &mut Vec<Counts, A>, exchange: Exchange)
    requires exchanged { WereExchanged chunks.now sums.old.items exchange }
    requires room { length chunks.now / 256 ≤ vec_capacity sums.old }
    ensures sums { AreSums chunks.now sums.new.items }
    ensures all { length sums.new.items ≡ length chunks.now / 256 }
{
    let Exchange {
        first,
        last,
        count,
        gone,
        come,
    } = exchange;
    let row = first / ROW;
    if count == last - first && last <= (row + 1) * ROW {
        exchange_sum(sums, row, gone, come);
        return;
    }
    if count == last - first {
        renew_rows(chunks, sums, row, last / ROW + 1);
        return;
    }
    sums.truncate(row);
    let _ = sum_rows(chunks, sums);
}

// Sums the rows from one up to another anew, as far as they have sums.
fn renew_rows<A: Allocator>(chunks: &[Chunk<A>], sums: &mut Vec<Counts, A>, from: usize, to: usize)
    requires held { AreChunks chunks.now }
    requires others { AreSumsBut chunks.now sums.old.items from to }
    ensures sums { AreSums chunks.now sums.new.items }
    ensures many { length sums.new.items ≡ length sums.old.items }
{
    let mut row = from;
    while row < to && row < sums.len() {
        sums[row] = total(&chunks[row * ROW..(row + 1) * ROW]);
        row += 1;
    }
}

// Updates the sum of a row, if there is one, after a part of it with the counts `gone` was replaced by one
// with `come`.
fn exchange_sum<A: Allocator>(sums: &mut Vec<Counts, A>, row: usize, gone: Counts, come: Counts)
    requires part { (d : ItsCounts) → row < length sums.old.items →
        AreAmong gone (slice_index_or sums.old.items row d) }
    requires small { (d : ItsCounts) → row < length sums.old.items →
        IsSmall (exchange_of (slice_index_or sums.old.items row d) gone come) }
    ensures { (d : ItsCounts) → sums.new.items ≡
        slice_set sums.old.items row (exchange_of (slice_index_or sums.old.items row d) gone come) }
{
    if row < sums.len() {
        sums[row] = sums[row].exchange(gone, come);
    }
}
