//! Units that begin a piece, counted in blocks of 32: the number of pieces of units, in a slice or in bytes, and the
//! offset of one of them.
ghost use Rattle.std.specs.Prelude.{◌≡◌, ◌+◌, ◌*◌, ◌<◌, ◌≤◌, MatchOption, length, slice_index};
ghost use Rattle.utf_lanes.specs.BytePairs.{high_place, units_of};
ghost use Rattle.utf_lanes.specs.UnitStarts.{IsUnitStartOf, are_pair, ends_pair, is_start_after, is_unit_start, place_count, unit_start_count};

use crate::byte_order::ByteOrder;
use crate::byte_pairs::unit;
use std::marker::PhantomData;
use utf_base::elements::is_trailing_surrogate;
use utf_base::traits::U16UtfExt;

// The number of units that are counted in one step.
const BLOCK: usize = 32;

/// The number of units that end no pair: the number of pieces.
#[inline]
pub fn unit_starts_in(units: &[u16]) -> usize
    ensures { result ≡ unit_start_count units.now (length units.now) }
{
    starts_of(units)
}

/// The number of units in bytes that end no pair.
#[inline]
pub fn unit_byte_starts_in<E: ByteOrder>(bytes: &[u8]) -> usize
    ensures { result ≡ unit_start_count (units_of E.HIGH_FIRST bytes.now) (length (units_of E.HIGH_FIRST bytes.now)) }
{
    starts_of(UnitsInBytes::<E> {
        order: PhantomData,
        bytes,
    })
}

/// The offset of the unit with this number, counted from 0, among those that end no pair. `None` if there are no
/// more.
#[inline]
pub fn nth_unit_start(units: &[u16], number: usize) -> Option<usize>
    ensures { MatchOption result (unit_start_count units.now (length units.now) ≤ number) (IsUnitStartOf units.now number) }
{
    nth_start_of(units, number)
}

/// The offset, in units, of the unit in bytes with this number among those that end no pair. `None` if there
/// are no more.
#[inline]
pub fn nth_unit_byte_start<E: ByteOrder>(bytes: &[u8], number: usize) -> Option<usize>
    ensures { MatchOption result
        (unit_start_count (units_of E.HIGH_FIRST bytes.now) (length (units_of E.HIGH_FIRST bytes.now)) ≤ number)
        (IsUnitStartOf (units_of E.HIGH_FIRST bytes.now) number) }
{
    let units = UnitsInBytes::<E> {
        order: PhantomData,
        bytes,
    };
    nth_start_of(units, number)
}

// Units that are counted, in a slice or in bytes.
trait UnitList: Copy {
    ghost use Rattle.std.specs.Prelude.{ℕ, List, ◌≡◌, ◌+◌, ◌<◌, ◌≤◌, length, slice_index};
    ghost use Rattle.utf_lanes.specs.UnitStarts.{unit_start_count};

    // The units.
    ghost list: { Self → List ℕ };

    fn count(self) -> usize
        ensures { result ≡ length (list self) };

    // The unit at the offset.
    fn at(self, place: usize) -> u16
        requires { place < length (list self) }
        ensures { result ≡ slice_index (list self) place };

    // The number of the 32 units from the offset on that end no pair.
    fn block_starts(self, place: usize) -> usize
        requires start { 1 ≤ place }
        requires within { place + 32 ≤ length (list self) }
        ensures starts { unit_start_count (list self) (place + 32) ≡ unit_start_count (list self) place + result }
        ensures most { result ≤ 32 };
}

impl UnitList for &[u16] {
    ghost list = { λ units. units.now };

    #[inline(always)]
    fn count(self) -> usize {
        self.len()
    }

    #[inline(always)]
    fn at(self, place: usize) -> u16 {
        self[place]
    }

    #[inline(always)]
    fn block_starts(self, place: usize) -> usize {
        unit_block_starts(self, place)
    }
}

// Units in bytes, two of which make each. An odd last byte makes none.
#[derive(Clone, Copy)]
struct UnitsInBytes<'a, E> {
    order: PhantomData<E>,
    bytes: &'a [u8],
}

impl<E: ByteOrder> UnitList for UnitsInBytes<'_, E> {
    ghost list = { λ units. units_of E.HIGH_FIRST units.bytes.now };

    #[inline(always)]
    fn count(self) -> usize {
        self.bytes.len() / 2
    }

    #[inline(always)]
    fn at(self, place: usize) -> u16 {
        unit_in_bytes::<E>(self.bytes, place)
    }

    #[inline(always)]
    fn block_starts(self, place: usize) -> usize {
        byte_block_starts::<E>(self.bytes, place)
    }
}

// The unit with that number of those that bytes make.
#[inline(always)]
fn unit_in_bytes<E: ByteOrder>(bytes: &[u8], place: usize) -> u16
    requires { 2 * place + 1 < length bytes.now }
    ensures { result ≡ slice_index (units_of E.HIGH_FIRST bytes.now) place }
{
    unit::<E>(bytes[2 * place], bytes[2 * place + 1])
}

// The number of units that end no pair.
#[inline(always)]
fn starts_of<U: UnitList>(units: U) -> usize
    ensures { result ≡ unit_start_count (U.list units) (length (U.list units)) }
{
    let counted = units_counted_up_to(units, usize::MAX);
    let mut starts = counted.starts;
    for place in counted.place..units.count() {
        starts += is_start(units, place) as usize;
    }
    starts
}

// The offset of the unit with this number among those that end no pair.
#[inline(always)]
fn nth_start_of<U: UnitList>(units: U, number: usize) -> Option<usize>
    ensures { MatchOption result (unit_start_count (U.list units) (length (U.list units)) ≤ number)
        (IsUnitStartOf (U.list units) number) }
{
    let counted = units_counted_up_to(units, number);
    let mut before = counted.starts;
    for place in counted.place..units.count() {
        before += is_start(units, place) as usize;
        if number < before {
            return Some(place);
        }
    }
    None
}

// An offset, and the number of units before it that end no pair.
#[derive(Clone, Copy, Drop)]
struct CountedUnits {
    place: usize,
    starts: usize,
}

// Counts the first unit, and blocks from there on, while at most `most` of their units end no pair.
#[inline(always)]
fn units_counted_up_to<U: UnitList>(units: U, most: usize) -> CountedUnits
    ensures within { result.place ≤ length (U.list units) }
    ensures starts { result.starts ≡ unit_start_count (U.list units) result.place }
    ensures most { result.starts ≤ most }
{
    let first = units.count().min(most).min(1);
    let mut counted = CountedUnits {
        place: first,
        starts: first,
    };
    while 0 < counted.place && BLOCK <= units.count() - counted.place {
        let more = units.block_starts(counted.place);
        if most - counted.starts < more {
            return counted;
        }
        counted.starts += more;
        counted.place += BLOCK;
    }
    counted
}

// The number of the 32 units from the offset on that end no pair. Nothing here branches, so that LLVM
// vectorises it.
#[inline(always)]
fn unit_block_starts(units: &[u16], place: usize) -> usize
    requires start { 1 ≤ place }
    requires within { place + 32 ≤ length units.now }
    ensures starts { unit_start_count units.now (place + 32) ≡ unit_start_count units.now place + result }
    ensures most { result ≤ 32 }
{
    let mut starts: u16 = 0;
    for i in 0..BLOCK {
        starts += is_start_after(units[place + i - 1], units[place + i]) as u16;
    }
    starts as usize
}

// The number of the 32 units in bytes from the offset on that end no pair.
#[inline(always)]
fn byte_block_starts<E: ByteOrder>(bytes: &[u8], place: usize) -> usize
    requires start { 1 ≤ place }
    requires within { 2 * (place + 32) ≤ length bytes.now }
    ensures starts { unit_start_count (units_of E.HIGH_FIRST bytes.now) (place + 32) ≡
        unit_start_count (units_of E.HIGH_FIRST bytes.now) place + result }
    ensures most { result ≤ 32 }
{
    BLOCK - block_pairs(high_place::<E>(), bytes, 2 * place) as usize
}

// The number of pairs that end in the 64 bytes from the offset on. It iterates over all of these, and every other one
// is the high byte of a unit: so LLVM vectorises this too, which it does not if it has to pick those.
#[inline(always)]
fn block_pairs(high: usize, bytes: &[u8], place: usize) -> u8
    requires start { 2 ≤ place }
    requires within { place + 64 ≤ length bytes.now }
    ensures pairs { result ≡ place_count (ends_pair high bytes.now place) 64 }
    ensures most { result ≤ 64 }
{
    let mut pairs = 0;
    for i in 0..2 * BLOCK {
        pairs += ((i % 2 == high) & are_pair(bytes[place + i - 2], bytes[place + i])) as u8;
    }
    pairs
}

// The offset of the high byte in a unit.
#[inline(always)]
fn high_place<E: ByteOrder>() -> usize
    ensures { result ≡ high_place E.HIGH_FIRST }
{
    if E::HIGH_FIRST { 0 } else { 1 }
}

// Returns true if two units are a pair, by the high byte of each.
#[inline(always)]
fn are_pair(first: u8, second: u8) -> bool
    ensures { result ≡ are_pair first second }
{
    (first & 0xfc == 0xd8) & (second & 0xfc == 0xdc)
}

// Returns true if the unit at the offset ends no pair.
#[inline(always)]
fn is_start<U: UnitList>(units: U, place: usize) -> bool
    requires { place < length (U.list units) }
    ensures { result ≡ is_unit_start (U.list units) place }
{
    place == 0 || is_start_after(units.at(place - 1), units.at(place))
}

// Returns true if a unit after another ends no pair with it.
#[inline(always)]
fn is_start_after(before: u16, unit: u16) -> bool
    ensures { result ≡ is_start_after before unit }
{
    !(before.is_utf16_leading_surrogate() & is_trailing_surrogate(unit))
}
