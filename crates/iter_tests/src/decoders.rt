//! The decoders as values and as double-ended iterators.
ghost use Rattle.std.specs.Prelude.{◌-◌, ◌^◌};
ghost use Rattle.std.specs.Iterator.{IsFinite, UpTo};

use encode_unicode::iterator::{Utf8CharDecoder, Utf16CharDecoder};
use encode_unicode::{Steps, U8SliceExt, U16SliceExt};
use std::test::Fail;

// A text of one character of each length, and bytes that are none.
const TEXT: &[u8] = b"a\xc3\xa9\xe2\x82\xac\xf0\x9f\x92\xa3";

const DAMAGED: &[u8] = b"a\xa9\xe2\x82\xacz\xf0\x9f\x92";

// U+0061, U+20AC, U+1F4A3 and U+10FFFF.
const UNITS: &[u16] = &[0x0061, 0x20ac, 0xd83d, 0xdca3, 0xdbff, 0xdfff];

// Makes the decoder of a slice of bytes through the trait bound.
fn decoder_of<'a, S: U8SliceExt<'a>>(slice: S) -> Utf8CharDecoder<'a> {
    slice.utf8char_indices()
}

// Makes the decoder of a slice of units through the trait bound.
fn unit_decoder_of<'a, S: U16SliceExt<'a>>(slice: S) -> Utf16CharDecoder<'a> {
    slice.utf16char_indices()
}

// The number of items, counted through the trait bound.
fn count_of<T: Drop, I: Iterator<Item = T>>(items: I) -> usize
    requires can_next { I.can_next items }
    requires finite { IsFinite (I.remaining items) }
    requires up_to { UpTo (I.remaining items) (2 ^ 64 - 1) }
{
    items.count()
}

// The last item of an iterator, taken through the trait bound.
fn last_of<T, I: DoubleEndedIterator<Item = T>>(items: I) -> Option<T>
    requires { I.can_next_back items }
{
    let mut items = items;
    items.next_back()
}

// The offsets of the pieces of bytes from the end, as the digits of a number.
fn places_from_back(bytes: &[u8]) -> usize {
    decoder_of(bytes).rfold(
        0usize,
        |sum, (place, _, _)| sum.wrapping_mul(10).wrapping_add(place),
    )
}

// The offsets of the pieces of units from the end, as the digits of a number.
fn unit_places_from_back(units: &[u16]) -> usize {
    unit_decoder_of(units).rfold(
        0usize,
        |sum, (place, _, _)| sum.wrapping_mul(10).wrapping_add(place),
    )
}

// Returns true if `rev` gives the pieces of the bytes that repeated calls from the end give.
fn comes_in_reverse(bytes: &[u8]) -> bool {
    let mut decoder = Utf8CharDecoder::from(bytes);
    let mut same = true;
    for piece in decoder_of(bytes).rev() {
        same = same && decoder.next_back() == Some(piece);
    }
    same && decoder.next_back().is_none() && decoder.next().is_none()
}

// Returns true if `rev` gives the pieces of the units that repeated calls from the end give.
fn units_come_in_reverse(units: &[u16]) -> bool {
    let mut decoder = Utf16CharDecoder::from(units);
    let mut same = true;
    for piece in unit_decoder_of(units).rev() {
        same = same && decoder.next_back() == Some(piece);
    }
    same && decoder.next_back().is_none() && decoder.next().is_none()
}

#[test]
fn pieces_come_in_reverse(rt: HostRuntime) {
    assert!(rt; comes_in_reverse(TEXT) && comes_in_reverse(DAMAGED));
    assert!(rt; units_come_in_reverse(UNITS));
    assert!(rt; places_from_back(TEXT) == 6310 && unit_places_from_back(UNITS) == 4210);
    assert!(rt;
        count_of(decoder_of(TEXT).rev()) == 4 && count_of(unit_decoder_of(UNITS).rev()) == 4
    );
    assert!(rt; count_of(decoder_of(b"e\xcc\x81\xff".as_slice())) == 3);
}

#[test]
fn the_back_is_asked_through_a_bound(rt: HostRuntime) {
    let last = last_of(decoder_of(TEXT)).is_some_and(|(place, _, len)| (place, len) == (6, 4));
    let first = last_of(decoder_of(TEXT).rev()).is_some_and(|(place, _, len)| (place, len)
        == (0, 1));
    assert!(rt; last && first);
    let last = last_of(unit_decoder_of(UNITS)).is_some_and(|(place, _, len)| (place, len)
        == (4, 2));
    let first = last_of(unit_decoder_of(UNITS).rev()).is_some_and(|(place, _, len)| (place, len)
        == (0, 1));
    assert!(rt; last && first);
}

#[test]
fn counted_calls_answer_alike(rt: HostRuntime) {
    let mut steps = Steps::new();
    steps.tick();
    let mut plain = DAMAGED.utf8char_indices();
    let mut counted = DAMAGED.utf8char_indices();
    for _ in 0..=DAMAGED.len() {
        let same = counted.next_back_counted(&mut steps) == plain.next_back();
        assert!(rt; same && counted.as_slice() == plain.as_slice());
    }
    assert!(rt; plain.as_slice().is_empty());
}

// Returns true if two decoders of bytes have the same pieces.
fn decode_alike(one: Utf8CharDecoder<'_>, other: Utf8CharDecoder<'_>) -> bool {
    one.as_slice() == other.as_slice() && one.eq(other)
}

#[test]
fn clones_go_on_from_the_middle(rt: HostRuntime) -> Result<(), Fail> {
    let mut decoder = TEXT.utf8char_indices();
    let _ = (decoder.next(), decoder.next_back());
    let copy = decoder.clone()?;
    assert!(rt; copy.as_slice() == "\u{e9}\u{20ac}".as_bytes());
    assert!(rt; decode_alike(copy, decoder));
    let mut decoder = UNITS.utf16char_indices();
    let _ = (decoder.next(), decoder.next_back());
    let copy = decoder.clone()?;
    assert!(rt; copy.as_slice() == [0x20ac, 0xd83d, 0xdca3].as_slice());
    assert!(rt; copy.eq(decoder));
    Ok(())
}

#[test]
fn the_default_has_nothing(rt: HostRuntime) {
    let (mut bytes, mut units) = (Utf8CharDecoder::default(), Utf16CharDecoder::default());
    assert!(rt; bytes.as_slice().is_empty() && bytes.size_hint() == (0, Some(0)));
    assert!(rt; bytes.next().is_none() && bytes.next_back().is_none());
    assert!(rt; units.as_slice().is_empty() && units.size_hint() == (0, Some(0)));
    assert!(rt; units.next().is_none() && units.next_back().is_none());
}

// What is left of the bytes after the first piece.
fn after_the_first(bytes: &[u8]) -> &[u8] {
    let mut decoder = bytes.utf8char_indices();
    let _ = decoder.next();
    decoder.as_slice()
}

#[test]
fn what_is_left_is_lent(rt: HostRuntime) {
    let bytes = b"a\xc3\xa9\x80z".as_slice();
    let lent = after_the_first(after_the_first(after_the_first(bytes)));
    assert!(rt; lent == b"z".as_slice());
    assert!(rt; after_the_first(lent).is_empty());
}

// The scalar of the pair between lone surrogates is compared as a number.
#[test]
fn a_pair_after_surrogates_is_its_scalar(rt: HostRuntime) {
    let units = [0xdcba, 0xdeff, 0xd8be, 0xdeee, 0x03bb, 0xdab1, 0xdab1];
    let mut decoder = units.as_slice().utf16char_indices();
    let _ = (decoder.next(), decoder.next());
    let pair = decoder.next().is_some_and(|(place, answer, len)| {
        (place, len) == (2, 2) && answer.is_ok_and(|c| c.to_char() as u32 == 0x3_faee)
    });
    assert!(rt; pair);
}
