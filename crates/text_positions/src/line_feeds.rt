//! Line feeds of bytes in any encoding: how many there are, and where the last line begins.
ghost use Rattle.std.specs.Prelude.{◌≡◌, ◌+◌, ◌*◌, ◌<◌, ◌≤◌, drop, length, slice_index};
ghost use Rattle.utf_lanes.specs.BytePairs.{units_of};
ghost use Rattle.text_positions.specs.Positions.{BeginsLastLine, IsLastLine, line_feeds};
ghost use Rattle.text_runs.specs.ShardRuns.{line_feed_count as feed_count};

use recoding::form::Form;
use std::marker::PhantomData;
use utf_lanes::byte_order::{BigEndian, ByteOrder, LittleEndian};
use utf_lanes::byte_pairs::unit;

// The number of elements that are compared in one loop: no more than a `u8` can count.
const PART: usize = 192;

/// The number of line feeds in bytes of this encoding: in UTF-16 a line feed is the unit 000A.
///
/// Cost: O(n).
pub fn line_feed_count(form: Form, bytes: &[u8]) -> usize
    ensures { result ≡ line_feeds form bytes.now }
{
    match form {
        Form::Utf8 => feeds_of(bytes),
        Form::Utf16Le => feeds_of(units_in::<LittleEndian>(bytes)),
        Form::Utf16Be => feeds_of(units_in::<BigEndian>(bytes)),
    }
}

/// The offset in bytes at which the last line begins: after the last line feed, or 0 if there is none.
///
/// Cost: O(n) in the last line.
pub fn last_line(form: Form, bytes: &[u8]) -> usize
    ensures begins { IsLastLine form bytes.now result }
    ensures within { result ≤ length bytes.now }
{
    match form {
        Form::Utf8 => last_line_of(bytes),
        Form::Utf16Le => 2 * last_line_of(units_in::<LittleEndian>(bytes)),
        Form::Utf16Be => 2 * last_line_of(units_in::<BigEndian>(bytes)),
    }
}

// The elements in which line feeds are counted: bytes, or the units that bytes make.
trait Elements: Copy {
    ghost use Rattle.std.specs.Prelude.{ℕ, List, ◌≡◌, ◌-◌, ◌<◌, ◌≤◌, length, nat_eq, slice_index, slice_range};
    ghost use Rattle.text_runs.specs.ShardRuns.{line_feed_count};

    // The elements.
    ghost list: { Self → List ℕ };

    fn count(self) -> usize
        ensures { result ≡ length (list self) };

    // Returns true if the element at the index is a line feed.
    fn is_feed(self, place: usize) -> bool
        requires { place < length (list self) }
        ensures { result ≡ nat_eq (slice_index (list self) place) 10 };

    // The number of line feeds from one index to another. The counter is a `u8`, so the compiler compares and adds as
    // many in one instruction as a vector has lanes.
    fn part_feeds(self, from: usize, end: usize) -> u8
        requires order { from ≤ end }
        requires few { end - from < 256 }
        requires within { end ≤ length (list self) }
        ensures { result ≡ line_feed_count (slice_range (list self) from end) };
}

impl Elements for &[u8] {
    ghost list = { λ bytes. bytes.now };

    #[inline(always)]
    fn count(self) -> usize {
        self.len()
    }

    #[inline(always)]
    fn is_feed(self, place: usize) -> bool {
        self[place] == b'\n'
    }

    #[inline(always)]
    fn part_feeds(self, from: usize, end: usize) -> u8 {
        let part = &self[from..end];
        let mut feeds = 0;
        for byte in part {
            if *byte == b'\n' {
                feeds += 1;
            }
        }
        feeds
    }
}

// Units in bytes, two of which make each. An odd last byte makes none.
#[derive(Clone, Copy)]
struct UnitsInBytes<'a, E> {
    order: PhantomData<E>,
    bytes: &'a [u8],
}

// The units in bytes.
#[inline(always)]
fn units_in<E: ByteOrder>(bytes: &[u8]) -> UnitsInBytes<'_, E>
    ensures { result.bytes.now ≡ bytes.now }
{
    UnitsInBytes {
        order: PhantomData,
        bytes,
    }
}

impl<E: ByteOrder> Elements for UnitsInBytes<'_, E> {
    ghost use Rattle.utf_lanes.specs.BytePairs.{units_of};

    ghost list = { λ units. units_of E.HIGH_FIRST units.bytes.now };

    #[inline(always)]
    fn count(self) -> usize {
        self.bytes.len() / 2
    }

    #[inline(always)]
    fn is_feed(self, place: usize) -> bool {
        unit_in_bytes::<E>(self.bytes, place) == 10
    }

    #[inline(always)]
    fn part_feeds(self, from: usize, end: usize) -> u8 {
        let mut feeds = 0;
        for place in from..end {
            feeds += self.is_feed(place) as u8;
        }
        feeds
    }
}

// The unit with that number of those that bytes make.
#[inline(always)]
fn unit_in_bytes<E: ByteOrder>(bytes: &[u8], place: usize) -> u16
    requires { 2 * place + 1 < length bytes.now }
    ensures { result ≡ slice_index (units_of E.HIGH_FIRST bytes.now) place }
{
    unit::<E>(bytes[2 * place], bytes[2 * place + 1])
}

// The number of line feeds.
#[inline(always)]
fn feeds_of<T: Elements>(elements: T) -> usize
    ensures { result ≡ feed_count (T.list elements) }
{
    let mut place = 0;
    let mut feeds = 0;
    while PART <= elements.count() - place {
        feeds += elements.part_feeds(place, place + PART) as usize;
        place += PART;
    }
    feeds + elements.part_feeds(place, elements.count()) as usize
}

// An index from which on no element is a line feed, found by sixteen elements at once.
#[inline(always)]
fn calm_end<T: Elements>(elements: T) -> usize
    ensures within { result ≤ length (T.list elements) }
    ensures none { feed_count (drop result (T.list elements)) ≡ 0 }
{
    let mut place = elements.count();
    while 16 <= place && elements.part_feeds(place - 16, place) == 0 {
        place -= 16;
    }
    place
}

// The index of the element after the last line feed, or 0 if there is none.
#[inline(always)]
fn last_line_of<T: Elements>(elements: T) -> usize
    ensures { BeginsLastLine (T.list elements) result }
{
    let mut place = calm_end(elements);
    while 0 < place && !elements.is_feed(place - 1) {
        place -= 1;
    }
    place
}
