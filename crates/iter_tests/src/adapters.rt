//! Sources of every kind: adapters with closures that capture, borrowed sources, a type of the caller's own, and
//! the types of this library over one another.
ghost use Rattle.std.specs.Iterator.{at_most, IsFinite};

use encode_unicode::{StrExt, U8IterExt, U16IterExt, Utf8Char, Utf8CharIterExt, Utf16CharIterExt};
use std::iter;

// The sum of the scalars of a source of bytes, with U+FFFD for each fault.
fn sum_of<I: Iterator<Item = u8>>(source: I) -> u32
    requires can { I.can_next source }
    requires ends { IsFinite (I.remaining source) }
{
    let mut sum = 0u32;
    for answer in source.to_utf8chars() {
        sum = sum.wrapping_add(match answer {
            Ok(c) => c.to_char() as u32,
            Err(_) => 0xfffd,
        });
    }
    sum
}

#[test]
fn bytes_come_through_closures_that_capture(rt: HostRuntime) {
    let mask = 0x20u8;
    let bytes = [0x41, 0xe3, 0x89];
    assert_eq!(rt; sum_of(bytes.iter().map(|b| b ^ mask)), 0x61 + 0xe9);
    let skipped = 0x00u8;
    let padded = [0xc3, 0x00, 0xa9, 0x00];
    assert_eq!(rt;
        sum_of(padded.iter().copied().filter(|b| *b != skipped)),
        0xe9
    );
    let place = 1usize;
    let spoilt = [0x41, 0x42, 0x43];
    assert_eq!(rt;
        sum_of(
            spoilt
                .iter()
                .enumerate()
                .map(|(i, b)| if i == place { 0xff } else { *b })
        ),
        0x41 + 0xfffd + 0x43
    );
    let limit = 0x80u8;
    assert_eq!(rt;
        sum_of(
            [0x41, 0xc3, 0xa9]
                .iter()
                .copied()
                .take_while(|b| *b < limit)
        ),
        0x41
    );
}

#[test]
fn bytes_come_through_adapters(rt: HostRuntime) {
    let code = [0xe2, 0x82, 0xac];
    assert_eq!(rt;
        sum_of(code[..1].iter().chain(code[1..].iter()).copied()),
        0x20ac
    );
    assert_eq!(rt; sum_of(code.iter().copied().take(2)), 2 * 0xfffd);
    assert_eq!(rt; sum_of(code.iter().copied().skip(1)), 2 * 0xfffd);
    assert_eq!(rt; sum_of([0xac, 0x82, 0xe2].iter().rev().copied()), 0x20ac);
    assert_eq!(rt; sum_of(iter::once(0x41)), 0x41);
    assert_eq!(rt; sum_of([0x41, 0x42].into_iter()), 0x83);
}

#[test]
fn a_source_is_lent(rt: HostRuntime) {
    let bytes = [0xc3, 0xa9, 0x41, 0x42];
    let mut source = bytes.iter().copied();
    let first = (&mut source).to_utf8chars().next();
    assert!(rt; first.is_some_and(|answer| answer.is_ok_and(|c| c.eq_char('é'))));
    assert!(rt; source.next() == Some(0x41));
}

// Bytes that count down.
#[derive(Drop)]
struct Falling(u8);

impl Iterator for Falling {
    type Item = u8;

    ghost remaining = { λ falling. at_most falling.0 };

    fn next(&mut self) -> Option<u8> {
        self.0 = self.0.checked_sub(1)?;
        Some(self.0)
    }
}

#[test]
fn a_type_of_the_callers_own_is_a_source(rt: HostRuntime) {
    assert_eq!(rt; sum_of(Falling(4)), 6);
    let first = Falling(0xc4).map(|b| b ^ 0x00).to_utf8chars().next();
    assert!(rt; first.is_some_and(|answer| answer.is_err()));
}

#[test]
fn what_is_here_stands_over_itself(rt: HostRuntime) {
    let shift = 1u32;
    let raised = |c: Utf8Char| Utf8Char::from(char::from_u32(
        (c.to_char() as u32).wrapping_add(shift),
    ).unwrap_or('?'));
    assert_eq!(rt;
        sum_of("aé".utf8chars().map(raised).to_bytes()),
        0x62 + 0xea
    );
    assert_eq!(rt;
        sum_of("b€a".utf8chars().rev().to_bytes()),
        0x62 + 0x20ac + 0x61
    );
    let bytes = [0x41, 0xff, 0xc3, 0xa9];
    let kept = bytes
        .iter()
        .copied()
        .to_utf8chars()
        .filter_map(|answer| answer.ok());
    assert_eq!(rt; sum_of(kept.to_bytes()), 0x41 + 0xe9);
    let mask = 0x0001u16;
    let units = [0xd83d, 0xdca0].iter().map(|u| u ^ mask);
    let pair = units.to_utf16chars().next();
    assert!(rt; pair.is_some_and(|answer| answer.is_ok_and(|c| c.to_char() as u32 == 0x1_f0a1)));
    let units = "é𝄞".utf16chars().filter(|c| !c.is_bmp()).to_units();
    assert!(rt; units.eq([0xd834, 0xdd1e]));
}

#[test]
fn what_remains_of_a_source_with_a_closure(rt: HostRuntime) {
    let mask = 0x80u8;
    let mut merger = [0x62, 0x41].iter().map(|b| b ^ mask).to_utf8chars();
    assert!(rt; merger.next().is_some_and(|answer| answer.is_err()));
    assert!(rt; merger.into_remaining_bytes().eq([0xc1]));
    let top = 0xd83cu16;
    let mut merger = [0x0000, 0x0041].iter().map(|u| u ^ top).to_utf16chars();
    assert!(rt; merger.next().is_some_and(|answer| answer.is_err()));
    assert!(rt; merger.into_remaining_units().eq([0xd87d]));
}
