//! A million bytes, or units. From the end, a scan of the whole run for each of its bytes would not finish in
//! time.
use cuts::{
    Counted, End, Item, forward_utf16, merge_utf8, merge_utf16, run_pieces, walk_utf8, walk_utf16,
    write_listing,
};
use encode_unicode::error::{Utf8Error, Utf8ErrorKind, Utf16PairError};
use encode_unicode::iterator::Utf8CharDecoder;
use encode_unicode::{Steps, Utf8Char, Utf16Char};
use fakes::fuse::Fuse;
use std::alloc::{AllocError, Global};
use std::process::Abort;
use std::test::Fail;

const LEN: usize = 1_000_000;

// Continuation bytes, the first of which may be another byte.
fn strays(alloc: Global, first: u8) -> Result<Vec<u8>, AllocError> {
    let mut bytes = vec![in alloc; 0x80; LEN]?;
    if let Some(byte) = bytes.first_mut() {
        *byte = first;
    }
    Ok(bytes)
}

// The piece of a byte that no character has.
fn stray(place: usize) -> Option<Item> {
    let kind = Utf8ErrorKind::UnexpectedContinuationByte;
    Some((place, Err(Utf8Error::new(kind)), 1))
}

// The piece of the character U+40000, whose encoded length is `len`; `None` if that is 0.
fn character(len: usize) -> Option<Item> {
    (len > 0).then_some((0, Ok(Utf8Char::new('\u{40000}')), len))
}

fn come_by_next_back(rt: &impl Abort, bytes: &[u8], len: usize) {
    let mut decoder = Utf8CharDecoder::from(bytes);
    for place in (len..LEN).rev() {
        assert!(rt; decoder.next_back() == stray(place));
    }
    assert!(rt; decoder.next_back() == character(len));
    assert!(rt; decoder.next_back().is_none());
}

fn come_by_rev(rt: &impl Abort, bytes: &[u8], len: usize) {
    let mut items = Utf8CharDecoder::from(bytes).rev();
    for place in (len..LEN).rev() {
        assert!(rt; items.next() == stray(place));
    }
    assert!(rt; items.next() == character(len));
    assert!(rt; items.next().is_none());
}

fn come_counted(rt: &impl Abort, bytes: &[u8], len: usize) {
    let mut steps = Steps::new();
    let mut decoder = Utf8CharDecoder::from(bytes);
    for place in (len..LEN).rev() {
        assert!(rt; decoder.next_back_counted(&mut steps) == stray(place));
    }
    assert!(rt; decoder.next_back_counted(&mut steps) == character(len));
    assert!(rt; decoder.next_back_counted(&mut steps).is_none());
}

#[test]
fn pieces_come_from_the_back(rt: HostRuntime) -> Result<(), Fail> {
    for (first, len) in [(0x80, 0), (0xf1, 4)] {
        let bytes = strays(rt.alloc(), first)?;
        come_by_next_back(&rt, &bytes, len);
        come_by_rev(&rt, &bytes, len);
        come_counted(&rt, &bytes, len);
    }
    Ok(())
}

#[test]
fn a_million_bytes_are_collected(rt: HostRuntime) -> Result<(), Fail> {
    let bytes = strays(rt.alloc(), 0xf1)?;
    let word = vec![in rt.alloc(); End::Back; LEN]?;
    let walked = walk_utf8(rt.alloc(), &bytes, &word)?;
    assert!(rt;
        walked.len() == LEN && merge_utf8(rt.alloc(), bytes.iter().copied())?.len() == LEN - 3
    );
    for (place, answer) in (4..LEN).rev().zip(walked.iter()) {
        assert!(rt; *answer == stray(place));
    }
    assert!(rt; walked[LEN - 4..] == [character(4), None, None, None]);
    Ok(())
}

// A surrogate pair, followed by trailing surrogates.
fn stray_units(alloc: Global) -> Result<Vec<u16>, AllocError> {
    let mut units = vec![in alloc; 0xdca3; LEN]?;
    if let Some(unit) = units.first_mut() {
        *unit = 0xd83d;
    }
    Ok(units)
}

#[test]
fn a_million_units_are_collected(rt: HostRuntime) -> Result<(), Fail> {
    let units = stray_units(rt.alloc())?;
    let word = vec![in rt.alloc(); End::Back; LEN]?;
    let pair = Ok(Utf16Char::new('\u{1f4a3}'));
    let stray = Err(Utf16PairError::UnexpectedTrailingSurrogate);
    let forward = forward_utf16(rt.alloc(), &units)?;
    assert!(rt; forward.len() == LEN - 1 && forward.first() == Some(&(0, pair, 2)));
    let merged = merge_utf16(rt.alloc(), units.iter().copied())?;
    assert!(rt; merged.len() == LEN - 1 && merged.first() == Some(&pair));
    let walked = walk_utf16(rt.alloc(), &units, &word)?;
    assert!(rt; walked.len() == LEN && walked[LEN - 2..] == [Some((0, pair, 2)), None]);
    for (place, answer) in (2..LEN).zip(walked.iter().rev().skip(2)) {
        assert!(rt; *answer == Some((place, stray, 1)));
    }
    for (place, piece) in (2..LEN).zip(forward.iter().skip(1)) {
        assert!(rt; *piece == (place, stray, 1));
    }
    for answer in merged.iter().skip(1) {
        assert!(rt; *answer == stray);
    }
    Ok(())
}

// 1,100 times 999 letters and a fault.
fn letters_and_faults(alloc: Global) -> Result<Vec<u8>, AllocError> {
    let mut part = [b'A'; 1000];
    part[999] = 0x80;
    let mut bytes = Vec::new(alloc);
    for _ in 0..1100 {
        bytes.extend_from_slice(&part)?;
    }
    Ok(bytes)
}

// The lines that a run of `pieces` over the bytes writes, in `writes` calls of write.
fn listed(rt: &(impl Abort + AllocGlobal), bytes: &[u8], writes: usize) -> Vec<u8> {
    let mut input = Fuse::over(rt.alloc(), bytes);
    let mut out = Counted::new(Fuse::ample(rt.alloc()));
    let faults = run_pieces(rt.alloc(), &[], &mut input, &mut out);
    assert!(rt; faults.is_ok_and(|faults| faults > 0));
    let writer = out.into_inner();
    assert!(rt; writer.given.len() == writes);
    writer.written
}

#[test]
fn a_long_input_is_listed_whole(rt: HostRuntime) -> Result<(), Fail> {
    let bytes = letters_and_faults(rt.alloc())?;
    let mut out = Counted::new(Fuse::ample(rt.alloc()));
    assert!(rt; write_listing(&bytes, &mut out).is_ok_and(|faults| faults == 1100));
    let text = listed(&rt, &bytes, 269);

    // Each write has whole lines, as many as leave fewer than 80 of 65,536 bytes. 6,588,890 digits of offsets; a
    // length and four separators a line; six digits, or the name of a fault.
    assert!(rt; text.len() == 6_588_890 + 4 * 1_100_000 + 6 * 1_098_900 + 26 * 1100);
    assert!(rt; text.starts_with(b"0 1 000041\n1 1 000041\n"));
    assert!(rt; text.ends_with(b"\n1099998 1 000041\n1099999 1 UnexpectedContinuationByte\n"));
    Ok(())
}
