//! Well-formed units copied: as they are, or with the two bytes of each swapped.
ghost use Rattle.std.specs.Prelude.{◌≡◌, ◌-◌, ◌+◌, ◌%◌, ◌<◌, ◌≤◌, length, take, drop};
ghost use Rattle.recoding.specs.Recodes.{CopiesUnits, differ};
ghost use Rattle.utf_lanes.specs.BytePairs.{swapped, turned};

use crate::codes::put_pair;
use crate::output::Output;
use utf_lanes::byte_order::ByteOrder;
use utf_lanes::byte_pairs::{swapped_16, swapped_64};
use utf_lanes::unit_blocks::units_len;

// Swaps the bytes of each pair of a block of N bytes.
trait BlockSwapper<const N: usize> {
    // Appends the block that begins at the offset, with its pairs swapped.
    fn put_swapped_block<O: Output>(bytes: &[u8], place: usize, out: &mut O)
        requires within { place + N ≤ length bytes.now }
        requires room { N ≤ O.room out.old }
        ensures { O.appends out.old (swapped (take N (drop place bytes.now))) out.new };
}

// Blocks of one pair.
struct Pair;

// Blocks of one vector of sixteen lanes.
struct Sixteen;

// Blocks of one vector of 64 lanes.
struct SixtyFour;

impl BlockSwapper<2> for Pair {
    #[inline(always)]
    fn put_swapped_block<O: Output>(bytes: &[u8], place: usize, out: &mut O) {
        put_pair(bytes[place + 1], bytes[place], out);
    }
}

impl BlockSwapper<16> for Sixteen {
    #[inline(always)]
    fn put_swapped_block<O: Output>(bytes: &[u8], place: usize, out: &mut O) {
        out.put(&swapped_16(bytes, place));
    }
}

impl BlockSwapper<64> for SixtyFour {
    #[inline(always)]
    fn put_swapped_block<O: Output>(bytes: &[u8], place: usize, out: &mut O) {
        out.put(&swapped_64(bytes, place));
    }
}

// Appends the well-formed units at the front of the bytes, with the two bytes of each swapped if the output has the
// other byte order, and returns their length in bytes.
#[inline(never)]
pub(crate) fn copy_units<O: Output, E: ByteOrder, W: ByteOrder>(bytes: &[u8], out: &mut O) -> usize
    requires { length bytes.now ≤ O.room out.old }
    ensures { CopiesUnits O.appends E.HIGH_FIRST (differ E.HIGH_FIRST W.HIGH_FIRST) bytes.now out.old out.new result }
{
    let len = 2 * units_len::<E>(bytes);
    if len == 0 {
        return 0;
    }
    put_turned(E::HIGH_FIRST != W::HIGH_FIRST, &bytes[..len], out);
    len
}

// Appends the bytes, with those of each pair swapped if `swaps` is set.
#[inline(always)]
fn put_turned<O: Output>(swaps: bool, bytes: &[u8], out: &mut O)
    requires even { length bytes.now % 2 ≡ 0 }
    requires room { length bytes.now ≤ O.room out.old }
    ensures { O.appends out.old (turned swaps bytes.now) out.new }
{
    if swaps {
        put_swapped(bytes, out);
    } else {
        out.put(bytes);
    }
}

// Appends the bytes, with those of each pair swapped.
#[inline(always)]
fn put_swapped<O: Output>(bytes: &[u8], out: &mut O)
    requires even { length bytes.now % 2 ≡ 0 }
    requires room { length bytes.now ≤ O.room out.old }
    ensures { O.appends out.old (swapped bytes.now) out.new }
{
    if bytes.len() < 16 {
        put_blocks::<O, 2, Pair>(bytes, out);
        return;
    }
    let wide = put_blocks::<O, 64, SixtyFour>(bytes, out);
    let rest = &bytes[wide..];
    let place = put_blocks::<O, 16, Sixteen>(rest, out);
    put_last(bytes, rest.len() - place, out);
}

// Appends the bytes, with those of each pair swapped, in blocks of N bytes. Returns the end of the last
// block.
#[inline(always)]
fn put_blocks<O: Output, const N: usize, B: BlockSwapper<N>>(bytes: &[u8], out: &mut O) -> usize
    requires some { 0 < N }
    requires pairs { N % 2 ≡ 0 }
    requires room { length bytes.now ≤ O.room out.old }
    ensures within { result ≤ length bytes.now }
    ensures even { result % 2 ≡ 0 }
    ensures few { length bytes.now < result + N }
    ensures appends { O.appends out.old (swapped (take result bytes.now)) out.new }
{
    let mut place = 0;
    while N <= bytes.len() - place {
        B::put_swapped_block(bytes, place, out);
        place += N;
    }
    place
}

// Appends the last `count` bytes, with those of each pair swapped.
#[inline(always)]
fn put_last<O: Output>(bytes: &[u8], count: usize, out: &mut O)
    requires even { length bytes.now % 2 ≡ 0 }
    requires pairs { count % 2 ≡ 0 }
    requires few { count ≤ 16 }
    requires enough { 16 ≤ length bytes.now }
    requires room { count ≤ O.room out.old }
    ensures { O.appends out.old (swapped (drop (length bytes.now - count) bytes.now)) out.new }
{
    let block = swapped_16(bytes, bytes.len() - 16);
    out.put(&block[16 - count..]);
}
