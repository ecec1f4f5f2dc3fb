//! Lists in which items replace others, and moves of items within a list.
ghost use Rattle.std.specs.List.{copy_within, splice};
ghost use Rattle.std.specs.Prelude.{◌≡◌, ◌+◌, ◌-◌, ◌≤◌, ◌<◌, length, IsOk, OnOk, OnErr, vec_len, vec_capacity};
ghost use Rattle.text_runs.specs.Tables.{IsRestMoved};

use std::alloc::{AllocError, Allocator};
use text_runs::runs::items::Item;

// The number of items, or bytes, of a block move: they fit into the vector registers.
const ITEMS: usize = 256;

const BYTES: usize = 64;

// Replaces the items from `start` to `end` by `new`. It fails only if capacity for it is missing, and then
// changes nothing.
pub(crate) fn splice_in<T: Moved, A: Allocator>(
    items: &mut Vec<T, A>,
    start: usize,
    end: usize,
    new: &[T],
) -> Result<(), AllocError>
    requires ordered { start ≤ end }
    requires within { end ≤ vec_len items.old }
    ensures ok { OnOk result (items.new.items ≡ splice items.old.items start end new.now) }
    ensures err { OnErr result (items.new.items ≡ items.old.items) }
    ensures room { vec_len items.old + length new.now ≤ vec_capacity items.old → IsOk result }
{
    let after = start.checked_add(new.len()).ok_or(AllocError)?;
    move_rest(items, end, after, new)?;
    items[start..after].copy_from_slice(new);
    Ok(())
}

// Moves the items after `from` so that they begin at `to`. A gap is filled with `filler`.
fn move_rest<T: Moved, A: Allocator>(
    items: &mut Vec<T, A>,
    from: usize,
    to: usize,
    filler: &[T],
) -> Result<(), AllocError>
    requires within { from ≤ vec_len items.old }
    requires filled { to ≤ from + length filler.now }
    ensures ok { OnOk result (IsRestMoved items.old.items items.new.items from to) }
    ensures err { OnErr result (items.new.items ≡ items.old.items) }
    ensures room { vec_len items.old + length filler.now ≤ vec_capacity items.old → IsOk result }
{
    let len = items.len();
    if to == from {
        return Ok(());
    }
    if to < from {
        T::move_within(items.as_mut_slice(), from, len, to);
        items.truncate(to + (len - from));
        return Ok(());
    }
    items.extend_from_slice(&filler[..to - from])?;
    T::move_within(items.as_mut_slice(), from, len, to);
    Ok(())
}

// Items of lists, moved in the way that is fastest for their width.
pub(crate) trait Moved: Copy + Drop {
    ghost use Rattle.std.specs.List.{copy_within};
    ghost use Rattle.std.specs.Prelude.{◌≡◌, ◌+◌, ◌-◌, ◌≤◌, length};

    // Moves the items from `from` to `end` so that they begin at `to`. What was there is overwritten.
    fn move_within(items: &mut [Self], from: usize, end: usize, to: usize)
        requires ordered { from ≤ end }
        requires within { end ≤ length items.old }
        requires room { to + (end - from) ≤ length items.old }
        ensures { items.new ≡ copy_within items.old from end to };
}

impl Moved for u8 {
    fn move_within(items: &mut [u8], from: usize, end: usize, to: usize) {
        move_bytes(items, from, end, to)
    }
}

impl Moved for Item {
    fn move_within(items: &mut [Item], from: usize, end: usize, to: usize) {
        move_items(items, from, end, to)
    }
}

// Moves the bytes from `from` to `end` so that they begin at `to`. The loops with constant gaps, below, would
// move few bytes in one step.
fn move_bytes(bytes: &mut [u8], from: usize, end: usize, to: usize)
    requires ordered { from ≤ end }
    requires within { end ≤ length bytes.old }
    requires room { to + (end - from) ≤ length bytes.old }
    ensures { bytes.new ≡ copy_within bytes.old from end to }
{
    if to < from {
        move_blocks_down::<u8, BYTES>(&mut bytes[to..end], from - to);
    } else {
        move_blocks_up::<u8, BYTES>(&mut bytes[from..to + (end - from)], to - from);
    }
}

// Moves wider items from `from` to `end` so that they begin at `to`.
fn move_items<T: Copy + Drop>(items: &mut [T], from: usize, end: usize, to: usize)
    requires ordered { from ≤ end }
    requires within { end ≤ length items.old }
    requires room { to + (end - from) ≤ length items.old }
    ensures { items.new ≡ copy_within items.old from end to }
{
    if to < from {
        move_down(&mut items[to..end], from - to);
    } else {
        move_up(&mut items[from..to + (end - from)], to - from);
    }
}

// Moves the items `gap` places toward the end. The last ones are lost.
fn move_up<T: Copy + Drop>(items: &mut [T], gap: usize)
    requires within { gap ≤ length items.old }
    ensures { items.new ≡ copy_within items.old 0 (length items.old - gap) gap }
{
    match gap {
        1 => move_up_by::<T, 1>(items),
        2 => move_up_by::<T, 2>(items),
        3 => move_up_by::<T, 3>(items),
        4 => move_up_by::<T, 4>(items),
        5 => move_up_by::<T, 5>(items),
        6 => move_up_by::<T, 6>(items),
        7 => move_up_by::<T, 7>(items),
        8 => move_up_by::<T, 8>(items),
        _ => move_blocks_up::<T, ITEMS>(items, gap),
    }
}

// Moves the items `gap` places toward the front. The first ones are lost.
fn move_down<T: Copy + Drop>(items: &mut [T], gap: usize)
    requires within { gap ≤ length items.old }
    ensures { items.new ≡ copy_within items.old gap (length items.old) 0 }
{
    match gap {
        1 => move_down_by::<T, 1>(items),
        2 => move_down_by::<T, 2>(items),
        3 => move_down_by::<T, 3>(items),
        4 => move_down_by::<T, 4>(items),
        5 => move_down_by::<T, 5>(items),
        6 => move_down_by::<T, 6>(items),
        7 => move_down_by::<T, 7>(items),
        8 => move_down_by::<T, 8>(items),
        _ => move_blocks_down::<T, ITEMS>(items, gap),
    }
}

// Moves the items by a constant gap, for which the compiler turns each of these loops into one call of `memmove`. For
// that a chunk is as long as the gap, so that a chunk and its new offset do not overlap, and the chunks begin with
// the first item, whose address is known.
fn move_up_by<T: Copy + Drop, const GAP: usize>(items: &mut [T])
    requires some { 0 < GAP }
    requires within { GAP ≤ length items.old }
    ensures { items.new ≡ copy_within items.old 0 (length items.old - GAP) GAP }
{
    let count = items.len() - GAP;
    let mut left = count / GAP;
    items.copy_within(left * GAP..count, left * GAP + GAP);
    while left > 0 {
        left -= 1;
        move_chunk_up::<T, GAP>(items, left * GAP);
    }
}

fn move_down_by<T: Copy + Drop, const GAP: usize>(items: &mut [T])
    requires some { 0 < GAP }
    requires within { GAP ≤ length items.old }
    ensures { items.new ≡ copy_within items.old GAP (length items.old) 0 }
{
    let len = items.len();
    let chunks = (len - GAP) / GAP;
    let mut next = 0;
    while next < chunks {
        move_chunk_down::<T, GAP>(items, next * GAP);
        next += 1;
    }
    items.copy_within(next * GAP + GAP..len, next * GAP);
}

#[inline(always)]
fn move_chunk_up<T: Copy + Drop, const GAP: usize>(items: &mut [T], from: usize)
    requires room { from + GAP + GAP ≤ length items.old }
    ensures { items.new ≡ copy_within items.old from (from + GAP) (from + GAP) }
{
    let (front, back) = items.split_at_mut(from + GAP);
    back[..GAP].copy_from_slice(&front[from..]);
}

#[inline(always)]
fn move_chunk_down<T: Copy + Drop, const GAP: usize>(items: &mut [T], to: usize)
    requires within { to + GAP + GAP ≤ length items.old }
    ensures { items.new ≡ copy_within items.old (to + GAP) (to + GAP + GAP) to }
{
    let (front, back) = items.split_at_mut(to + GAP);
    front[to..].copy_from_slice(&back[..GAP]);
}

// Moves the items toward the front by any gap, first block first. Blocks are copied by way of the stack,
// since `copy_within` moves item by item here.
fn move_blocks_down<T: Copy + Drop, const BLOCK: usize>(items: &mut [T], gap: usize)
    requires some { 0 < BLOCK }
    requires within { gap ≤ length items.old }
    ensures { items.new ≡ copy_within items.old gap (length items.old) 0 }
{
    let len = items.len();
    if len - gap < BLOCK {
        items.copy_within(gap..len, 0);
        return;
    }
    let mut block = [items[0]; BLOCK];
    let mut next = gap;
    while len - next >= BLOCK {
        move_block(items, next, next - gap, &mut block);
        next += BLOCK;
    }
    items.copy_within(next..len, next - gap);
}

// Moves the items toward the end by any gap, last block first.
fn move_blocks_up<T: Copy + Drop, const BLOCK: usize>(items: &mut [T], gap: usize)
    requires some { 0 < BLOCK }
    requires within { gap ≤ length items.old }
    ensures { items.new ≡ copy_within items.old 0 (length items.old - gap) gap }
{
    let count = items.len() - gap;
    if count < BLOCK {
        items.copy_within(0..count, gap);
        return;
    }
    let mut block = [items[0]; BLOCK];
    let mut left = count;
    while left >= BLOCK {
        left -= BLOCK;
        move_block(items, left, gap + left, &mut block);
    }
    items.copy_within(0..left, gap);
}

// Moves one block by way of `block`.
#[inline(always)]
fn move_block<T: Copy + Drop, const BLOCK: usize>(
    items: &mut [T],
    from: usize,
    to: usize,
    block: &mut [T; BLOCK],
)
    requires within { from + BLOCK ≤ length items.old }
    requires room { to + BLOCK ≤ length items.old }
    ensures { items.new ≡ copy_within items.old from (from + BLOCK) to }
{
    block.copy_from_slice(&items[from..from + BLOCK]);
    items[to..to + BLOCK].copy_from_slice(block);
}
