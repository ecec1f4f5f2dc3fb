//! The callers in `run_examples` that ask shards for their faults and pieces.
use cuts::{Form, Outcome, Recoder, shard_end};
use encode_unicode::error::{Utf8Error, Utf8ErrorKind};
use encode_unicode::{U8SliceExt, Utf8Char};
use run_examples::lossy::{feed_lossy_by_packets, send_lossy_end};
use run_examples::shards::{faults_in_shards, pieces_in_shards};
use std::alloc::{AllocError, Allocator};
use std::test::Fail;

// By hand: "a", a fault, "€", three faults, "!" and two faults.
#[test]
fn shards_have_as_many_pieces_as_the_whole(rt: HostRuntime) {
    let bytes = b"a\xff\xe2\x82\xac\xf0\x9f\x98!\xe2\x82";
    for at in 0..=12 {
        let faults = faults_in_shards(bytes, at);
        assert!(rt; faults.0.wrapping_add(faults.1) == 6, "cut at {at}");
        let pieces = pieces_in_shards(bytes, at);
        assert!(rt; pieces.0.wrapping_add(pieces.1) == 9, "cut at {at}");
    }
}

// A piece: its offset, what it is, and its length.
type Wanted = (usize, Result<char, Utf8ErrorKind>, usize);

fn is_same(answer: Result<Utf8Char, Utf8Error>, wanted: Result<char, Utf8ErrorKind>) -> bool {
    match (answer, wanted) {
        (Ok(c), Ok(wanted)) => c.to_char() == wanted,
        (Err(error), Err(kind)) => error.kind() == kind,
        _ => false,
    }
}

// The piece with this number in two shards: the first is given with the three bytes after it, and pieces that begin
// in those are left out.
fn piece_of_shards(
    bytes: &[u8],
    at: usize,
    number: usize,
) -> Option<(usize, Result<Utf8Char, Utf8Error>, usize)> {
    let end = shard_end(Form::Utf8, bytes, at);
    let before = pieces_in_shards(bytes, at).0;
    if number < before {
        let more = bytes.len().min(end.saturating_add(3));
        return bytes[..more].utf8char_indices().nth(number);
    }
    let (place, answer, len) = bytes[end..].utf8char_indices().nth(number - before)?;
    Some((place.wrapping_add(end), answer, len))
}

// Returns true if two shards have these pieces.
fn shards_have(bytes: &[u8], at: usize, wanted: &[Wanted]) -> bool {
    for number in 0..wanted.len() {
        let Some((place, answer, len)) = piece_of_shards(bytes, at, number) else {
            return false;
        };
        let (begin, what, size) = wanted[number];
        if place != begin || len != size || !is_same(answer, what) {
            return false;
        }
    }
    piece_of_shards(bytes, at, wanted.len()).is_none()
}

#[test]
fn shards_have_the_pieces_of_the_whole(rt: HostRuntime) {
    let bytes = b"a\xff\xe2\x82\xac\xf0\x9f\x98!\xe2\x82";
    let wanted = [
        (0, Ok('a'), 1),
        (1, Err(Utf8ErrorKind::NonUtf8Byte), 1),
        (2, Ok('€'), 3),
        (5, Err(Utf8ErrorKind::InterruptedSequence), 1),
        (6, Err(Utf8ErrorKind::UnexpectedContinuationByte), 1),
        (7, Err(Utf8ErrorKind::UnexpectedContinuationByte), 1),
        (8, Ok('!'), 1),
        (9, Err(Utf8ErrorKind::TooFewBytes), 1),
        (10, Err(Utf8ErrorKind::UnexpectedContinuationByte), 1),
    ];
    for at in 0..=12 {
        assert!(rt; shards_have(bytes, at, &wanted), "cut at {at}");
    }
}

// Appends the bytes as UTF-8 with one U+FFFD for each maximal subpart.
fn append_lossy<A: Allocator>(
    out: &mut Vec<u8, A>,
    form: Form,
    bytes: &[u8],
) -> Result<(), AllocError> {
    let mut recoder = Recoder::new(form, Form::Utf8);
    feed_lossy_by_packets(&mut recoder, bytes, out)?;
    send_lossy_end(&mut recoder, out)?;
    Ok(())
}

// Returns true if the bytes become that text in two shards, whatever offset the end of the first is asked
// for.
fn becomes<A: Allocator + Copy>(
    alloc: A,
    form: Form,
    bytes: &[u8],
    text: &[u8],
) -> Result<bool, AllocError> {
    for at in 0..=bytes.len() {
        let end = shard_end(form, bytes, at);
        let mut out = Vec::new(alloc);
        append_lossy(&mut out, form, &bytes[..end])?;
        append_lossy(&mut out, form, &bytes[end..])?;
        if out.as_slice() != text {
            return Ok(false);
        }
    }
    Ok(true)
}

// Expected values as Python decodes these bytes with errors="replace".
#[test]
fn shards_are_lossy_as_the_whole(rt: HostRuntime) -> Result<(), Fail> {
    let alloc = rt.alloc();
    assert!(rt; becomes(alloc, Form::Utf8, b"\xe2\x82A", b"\xef\xbf\xbdA")?);
    assert!(rt;
        becomes(
            alloc,
            Form::Utf8,
            b"\xf0\x9f\x98\xe2\x82",
            b"\xef\xbf\xbd\xef\xbf\xbd"
        )?
    );
    assert!(rt;
        becomes(
            alloc,
            Form::Utf8,
            b"\xe0\x80A",
            b"\xef\xbf\xbd\xef\xbf\xbdA"
        )?
    );
    assert!(rt;
        becomes(
            alloc,
            Form::Utf8,
            b"\xf0\x9f\x98\x80\xf0\x9f\x98",
            b"\xf0\x9f\x98\x80\xef\xbf\xbd"
        )?
    );
    assert!(rt; becomes(alloc, Form::Utf16Le, b"\x3d\xd8A", b"\xef\xbf\xbd")?);
    assert!(rt;
        becomes(
            alloc,
            Form::Utf16Le,
            b"\x3d\xd8\x00\xde\x3d\xd8A",
            b"\xf0\x9f\x98\x80\xef\xbf\xbd"
        )?
    );
    assert!(rt; becomes(alloc, Form::Utf16Be, b"\0A\xd8\x3dA", b"A\xef\xbf\xbd")?);
    Ok(())
}

// Up to the first invalid byte: what each shard writes, and how many of its bytes precede that byte.
#[test]
fn shards_stop_at_the_first_fault_of_the_whole(rt: HostRuntime) {
    let bytes = b"a\xe2\x82\xac\xc3\xa9\xe2\x82A";
    let want = b"\0a\x20\xac\0\xe9";
    for at in 0..=9 {
        let end = shard_end(Form::Utf8, bytes, at);
        let mut out = [0; 32];
        let (mut read, mut written) = to_fault(&bytes[..end], &mut out);
        if read == end {
            let more = to_fault(&bytes[end..], &mut out[written.min(32)..]);
            read = read.wrapping_add(more.0);
            written = written.wrapping_add(more.1);
        }
        assert!(rt;
            read == 6 && &out[..written.min(32)] == want.as_slice(),
            "cut at {at}"
        );
    }
}

// The length of the text before the first invalid byte, in UTF-8 and in big-endian UTF-16, in bytes.
fn to_fault(bytes: &[u8], out: &mut [u8]) -> (usize, usize) {
    let mut recoder = Recoder::new(Form::Utf8, Form::Utf16Be);
    let fed = recoder.feed_strict_into(bytes, out);
    if let Outcome::Faulty(fault) = fed.outcome {
        return (fed.read.wrapping_sub(fault.back), fed.written);
    }
    let end = fed.written.min(out.len());
    let last = recoder.finish_strict_into(&mut out[end..]);
    match last.outcome {
        Outcome::Faulty(fault) => (fed.read.wrapping_sub(fault.back), fed.written),
        _ => (fed.read, fed.written),
    }
}
