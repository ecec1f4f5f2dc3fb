//! The mergers as values: through their bounds, cloned, and with what remains.
use encode_unicode::iterator::{RemainingBytes, Utf8CharMerger, Utf16CharMerger};
use encode_unicode::{U8IterExt, U16IterExt};
use std::iter;
use std::test::Fail;

// The first scalar of a source of bytes, as a number, taken through the trait bound.
fn first_of<I: Iterator<Item = u8>>(source: I) -> Option<u32>
    requires { I.can_next source }
{
    match Utf8CharMerger::from(source).next() {
        Some(Ok(c)) => Some(c.to_char() as u32),
        _ => None,
    }
}

// The first unit after the fault that begins a source of units, taken through the trait bound.
fn first_fault_of<I: Iterator<Item = u16>>(source: I) -> Option<u16>
    requires { I.can_next source }
{
    let mut merger = Utf16CharMerger::from(source);
    match merger.next() {
        Some(Err(_)) => merger.into_remaining_units().next(),
        _ => None,
    }
}

// The first byte of an iterator, taken through the trait bound.
fn first_byte<I: Iterator<Item = u8>>(bytes: I) -> Option<u8>
    requires { I.can_next bytes }
{
    let mut bytes = bytes;
    bytes.next()
}

#[test]
fn mergers_are_asked_through_a_bound(rt: HostRuntime) {
    assert!(rt; first_of([0xc3, 0xa9, 0x41].iter().copied()) == Some(0xe9));
    assert!(rt; first_of(iter::empty()).is_none());
    assert!(rt; first_fault_of([0xd901, 0x0046, 0x0053].iter().copied()) == Some(0x0046));
    let pair = [0xd8be, 0xdeee];
    let scalar = pair.iter().copied().to_utf16chars().next().is_some_and(|answer| answer.is_ok_and(
        |c| c.to_char() as u32 == 0x3_faee,
    ));
    assert!(rt; scalar);
}

#[test]
fn the_default_has_nothing(rt: HostRuntime) {
    let mut bytes = Utf8CharMerger::<iter::Empty<u8>>::default();
    let mut units = Utf16CharMerger::<iter::Empty<u16>>::default();
    assert!(rt; bytes.next().is_none() && units.next().is_none());
    assert!(rt; first_byte(bytes.into_remaining_bytes()).is_none());
}

#[test]
fn a_clone_has_the_same_to_come(rt: HostRuntime) -> Result<(), Fail> {
    let mut bytes = [0xe2, 0x82, 0x41, 0x42].iter().copied().to_utf8chars();
    assert!(rt; bytes.next().is_some_and(|answer| answer.is_err()));
    let copy = bytes.clone()?;
    assert!(rt; copy.into_remaining_bytes().eq([0x82, 0x41, 0x42]));
    assert!(rt; bytes.eq([0x82, 0x41, 0x42].iter().copied().to_utf8chars()));
    let mut units = [0xd901, 0x0046, 0x0053].iter().copied().to_utf16chars();
    assert!(rt; units.next().is_some_and(|answer| answer.is_err()));
    let copy = units.clone()?;
    assert!(rt; copy.into_remaining_units().eq([0x0046, 0x0053]));
    assert!(rt; units.eq([0x0046, 0x0053].iter().copied().to_utf16chars()));
    Ok(())
}

#[test]
fn what_remains_is_cloned_and_shown(rt: HostRuntime) -> Result<(), Fail> {
    let bytes = [0xf4, 0xa1, 0xb2, 0x46, 0x53];
    let mut merger = bytes.iter().copied().to_utf8chars();
    let _ = merger.next();
    let mut rest = merger.into_remaining_bytes();
    let first = rest.next();
    let again = rest.clone()?;
    let text = format!(in rt.alloc(); "{again:?}")?;
    assert!(rt; text.starts_with("RemainingBytes { buffered: [178, 70], inner: "));
    let same = first == Some(0xa1)
        && again.size_hint() == (3, Some(3))
        && again.eq([0xb2, 0x46, 0x53])
        && rest.eq([0xb2, 0x46, 0x53]);
    assert!(rt; same);
    let mut merger = [0xd901, 0x0046, 0x0053].iter().copied().to_utf16chars();
    let _ = merger.next();
    let rest = merger.into_remaining_units();
    let again = rest.clone()?;
    assert!(rt; rest.eq([0x0046, 0x0053]) && again.eq([0x0046, 0x0053]));
    Ok(())
}

// The size hints of a merger of `count` bytes 0xf0: before and after its first result, and of what remains.
fn byte_hints(count: usize) -> [(usize, Option<usize>); 3] {
    let mut merger = iter::repeat(0xf0).take(count).to_utf8chars();
    let before = merger.size_hint();
    let _ = merger.next();
    let after = merger.size_hint();
    [before, after, merger.into_remaining_bytes().size_hint()]
}

// The size hints of a merger of `count` units 0xd800: before and after its first result, and of what remains.
fn unit_hints(count: usize) -> [(usize, Option<usize>); 3] {
    let mut merger = iter::repeat(0xd800).take(count).to_utf16chars();
    let before = merger.size_hint();
    let _ = merger.next();
    let after = merger.size_hint();
    [before, after, merger.into_remaining_units().size_hint()]
}

#[test]
fn hints_do_not_wrap(rt: HostRuntime) {
    let most = usize::MAX;
    let left = (most - 1, Some(most - 1));
    let bytes = [
        (most / 4, Some(most)),
        ((most - 2) / 4, Some(most - 1)),
        left,
    ];
    assert!(rt; byte_hints(most) == bytes);
    let units = [
        (most / 2, Some(most)),
        ((most - 2) / 2, Some(most - 1)),
        left,
    ];
    assert!(rt; unit_hints(most) == units);
}

#[test]
fn an_endless_source_has_no_upper_bound(rt: HostRuntime) {
    let mut bytes = iter::repeat(0xf0).to_utf8chars();
    assert!(rt; bytes.size_hint() == (usize::MAX / 4, None));
    assert!(rt; bytes.next().is_some_and(|answer| answer.is_err()));
    assert!(rt; bytes.size_hint() == (usize::MAX / 4, None));
    let rest: RemainingBytes<iter::Repeat<u8>> = bytes.into_remaining_bytes();
    assert!(rt; rest.size_hint() == (usize::MAX, None));
    assert!(rt; first_byte(rest) == Some(0xf0));
    let mut units = iter::repeat(0xd800).to_utf16chars();
    assert!(rt; units.next().is_some_and(|answer| answer.is_err()));
    assert!(rt; units.into_remaining_units().size_hint() == (usize::MAX, None));
}
