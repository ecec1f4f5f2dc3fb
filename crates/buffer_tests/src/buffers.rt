//! A text that is edited in chunks: many of them, and edits that span their ends.
ghost use Rattle.std.specs.Prelude.{◌≡◌, ◌≤◌, length};

use cuts::{Change, Counts, TextBuffer, TextCursor};
use encode_unicode::error::Utf8ErrorKind;
use fakes::fuse::{Fuse, Plan};
use std::alloc::{AllocError, Allocator};
use std::io::ErrorKind;
use std::process::Abort;
use std::test::Fail;

// Replaces some bytes by others, if the former are in the text.
fn put<A: Allocator + Copy>(
    text: &mut TextBuffer<A>,
    start: usize,
    end: usize,
    new: &[u8],
) -> Result<Change, AllocError> {
    let end = end.min(text.len());
    text.replace(start.min(end), end, new)
}

#[test]
fn one_byte_changes_among_ten_thousand(rt: HostRuntime) -> Result<(), Fail> {
    let bytes = vec![in rt.alloc(); b'a'; 10_000]?;
    let mut text = TextBuffer::of(rt.alloc(), bytes.as_slice())?;
    put(&mut text, 5_000, 5_001, b"\xff\xc3\xa9\n")?;
    let counts = Counts {
        bytes: 10_003,
        pieces: 10_002,
        faults: 1,
        line_feeds: 1,
    };
    assert!(rt; text.counts() == counts && text.len() == 10_003);
    assert!(rt; text.number_of(5_001) == 5_001 && text.number_of(5_003) == 5_002);
    assert!(rt; text.number_of(10_003) == 10_002 && text.number_of(20_000) == 10_002);
    Ok(())
}

// A character of three bytes at each of some offsets: a chunk ends there, begins there, or lies before and
// after it.
#[test]
fn characters_are_put_in_and_taken_out_at_the_ends_of_chunks(rt: HostRuntime) -> Result<(), Fail> {
    let bytes = vec![in rt.alloc(); b'a'; 9_000]?;
    for place in 3_560..3_600 {
        let mut text = TextBuffer::of(rt.alloc(), bytes.as_slice())?;
        put(&mut text, place, place, "\u{20ac}".as_bytes())?;
        assert!(rt; text.counts().pieces == 9_001 && text.counts().faults == 0);
        assert!(rt;
            text.number_of(place + 1) == place + 1 && text.number_of(place + 3) == place + 1
        );
        put(&mut text, place + 1, place + 2, b"")?;
        assert!(rt; text.counts().pieces == 9_002 && text.counts().faults == 2);
        put(&mut text, place, place + 2, b"")?;
        assert!(rt; text.counts() == Counts::of(bytes.as_slice()));
        assert!(rt; text.to_vec(rt.alloc())?.as_slice() == bytes.as_slice());
    }
    Ok(())
}

#[test]
fn a_long_text_is_put_in_and_taken_out(rt: HostRuntime) -> Result<(), Fail> {
    let long = vec![in rt.alloc(); b'\n'; 100_000]?;
    let mut text = TextBuffer::of(rt.alloc(), b"")?;
    assert!(rt; text.len() == 0 && text.chunk_at(0).is_empty() && text.number_of(7) == 0);
    text.insert(0, long.as_slice())?;
    put(&mut text, 50_000, 50_000, b"middle")?;
    assert!(rt; text.counts().line_feeds == 100_000 && text.len() == 100_006);
    assert!(rt; text.chunk_at(50_000).starts_with(b"middle"));
    let end = text.len();
    if 6 <= end {
        text.remove(6, end)?;
    }
    assert!(rt; text.chunk_at(0) == b"\n\n\n\n\n\n".as_slice());
    Ok(())
}

// The offset, the length, and the scalar or kind of a piece.
fn piece_of<A: Allocator + Copy>(
    text: &TextBuffer<A>,
    number: usize,
) -> Option<(usize, Result<u32, Utf8ErrorKind>, usize)> {
    let (place, answer, len) = text.piece(number)?;
    match answer {
        Ok(c) => Some((place, Ok(c.to_char() as u32), len)),
        Err(error) => Some((place, Err(error.kind()), len)),
    }
}

// Two bytes of a character of three, and a letter after them: a chunk ends after the first of these, after the
// second, or elsewhere. The letter decides the kind of the first fault.
#[test]
fn a_fault_is_called_the_same_at_the_end_of_a_chunk(rt: HostRuntime) -> Result<(), Fail> {
    for place in 3_570..3_600 {
        let mut text = TextBuffer::of(rt.alloc(), b"")?;
        text.insert(0, vec![in rt.alloc(); b'a'; 5_000]?.as_slice())?;
        put(&mut text, place, place + 3, b"\xe2\x82b")?;
        let bytes = text.to_vec(rt.alloc())?;
        let text = TextBuffer::of(rt.alloc(), bytes.as_slice())?;
        let cut = Utf8ErrorKind::InterruptedSequence;
        let alone = Utf8ErrorKind::UnexpectedContinuationByte;
        assert!(rt; piece_of(&text, place) == Some((place, Err(cut), 1)));
        assert!(rt; piece_of(&text, place + 1) == Some((place + 1, Err(alone), 1)));
        assert!(rt; piece_of(&text, place + 2) == Some((place + 2, Ok(0x62), 1)));
        assert!(rt; text.next_fault(0) == Some(place));
        assert!(rt; text.next_fault(place + 1) == Some(place + 1));
        assert!(rt; text.next_fault(place + 2).is_none());
    }
    Ok(())
}

// Three lines of 5,000 characters of two bytes.
#[test]
fn lines_and_pieces_are_found_by_number_and_by_offset(rt: HostRuntime) -> Result<(), Fail> {
    let mut text = TextBuffer::of(rt.alloc(), b"")?;
    for _ in 0..3 {
        for _ in 0..50 {
            let end = text.len();
            put(
                &mut text,
                end,
                end,
                "\u{e9}".repeat(rt.alloc(), 100)?.as_bytes(),
            )?;
        }
        let end = text.len();
        put(&mut text, end, end, b"\n")?;
    }
    are_found(&rt, &text);
    Ok(())
}

fn are_found<A: Allocator + Copy>(rt: &impl Abort, text: &TextBuffer<A>) {
    assert!(rt; text.offset_of(0) == Some(0) && text.offset_of(4_999) == Some(9_998));
    assert!(rt; text.offset_of(5_000) == Some(10_000) && text.offset_of(5_001) == Some(10_001));
    assert!(rt; text.offset_of(15_002) == Some(30_002) && text.offset_of(15_003).is_none());
    assert!(rt; text.piece_at(9_999).map(|x| (x.0, x.2)) == Some((9_998, 2)));
    assert!(rt; text.piece_at(30_003).is_none());
    assert!(rt; text.line_of(10_000) == 0 && text.line_of(10_001) == 1);
    assert!(rt; text.line_of(40_000) == 3);
    assert!(rt; text.offset_of_line(0) == Some(0) && text.offset_of_line(1) == Some(10_001));
    assert!(rt; text.offset_of_line(3) == Some(30_003) && text.offset_of_line(4).is_none());
    assert!(rt; text.next_fault(0).is_none());
}

// "voici: naïve et café" loses the last byte of its "ï". The six characters "naïve " go, which begin at 7, and six
// pieces come: one of them is an invalid byte.
#[test]
fn an_edit_says_what_went_and_what_came(rt: HostRuntime) -> Result<(), Fail> {
    let mut text = TextBuffer::of(rt.alloc(), "voici: na\u{ef}ve et caf\u{e9}".as_bytes())?;
    let change = put(&mut text, 10, 11, b"")?;
    let gone = Counts {
        bytes: 7,
        pieces: 6,
        faults: 0,
        line_feeds: 0,
    };
    let come = Counts {
        bytes: 6,
        pieces: 6,
        faults: 1,
        line_feeds: 0,
    };
    assert!(rt; change.offset == 7 && change.number == 7);
    assert!(rt; change.gone == gone && change.come == come);
    let nothing = Counts::of(b"");
    let mut text = TextBuffer::of(rt.alloc(), b"")?;
    let change = text.insert(0, b"\xf0\x9f\n")?;
    assert!(rt; change.offset == 0 && change.number == 0 && change.gone == nothing);
    assert!(rt;
        (
            change.come.pieces,
            change.come.faults,
            change.come.line_feeds
        ) == (3, 2, 1)
    );
    Ok(())
}

// A view that has the piece of each number, and repaints what an edit says.
fn repaint<A: Allocator + Copy>(
    alloc: A,
    screen: &mut Vec<Shown, A>,
    text: &TextBuffer<A>,
    change: Change,
) -> Result<(), AllocError> {
    let mut fresh = Vec::new(alloc);
    for piece in screen.iter().take(change.number) {
        fresh.push(*piece)?;
    }
    for number in change.number..change.number.saturating_add(change.come.pieces) {
        if let Some(piece) = shown(text, number) {
            fresh.push(piece)?;
        }
    }
    for piece in screen
        .iter()
        .skip(change.number.saturating_add(change.gone.pieces))
    {
        fresh.push(*piece)?;
    }
    *screen = fresh;
    Ok(())
}

// What a view shows of a piece: a scalar or a kind, and how many bytes it has.
type Shown = (Result<u32, Utf8ErrorKind>, usize);

fn shown<A: Allocator + Copy>(text: &TextBuffer<A>, number: usize) -> Option<Shown> {
    let (_, answer, len) = piece_of(text, number)?;
    Some((answer, len))
}

// A sequence of edits around the offset where the first chunk ends. The view then shows what a text made anew
// of all bytes has.
#[test]
fn a_view_that_repaints_what_edits_say_shows_the_text(rt: HostRuntime) -> Result<(), Fail> {
    let parts: [&[u8]; 6] = [
        b"\xe2\x82",
        b"\xac",
        b"a\n",
        b"\xf0\x9f\x98\x80",
        b"\x80\xf0\x9f",
        b"",
    ];
    let mut text = TextBuffer::of(rt.alloc(), b"")?;
    let mut screen = Vec::new(rt.alloc());
    let long = vec![in rt.alloc(); b'a'; 2_500]?;
    let change = text.insert(0, long.as_slice())?;
    repaint(rt.alloc(), &mut screen, &text, change)?;
    for turn in 0..60 {
        let place = 1_780 + turn * 7 % 24;
        let change = put(&mut text, place, place + turn % 4, parts[turn % 6])?;
        repaint(rt.alloc(), &mut screen, &text, change)?;
    }
    let bytes = text.to_vec(rt.alloc())?;
    let anew = TextBuffer::of(rt.alloc(), bytes.as_slice())?;
    assert!(rt; screen.len() == anew.counts().pieces && text.counts() == anew.counts());
    for (number, piece) in screen.iter().enumerate().skip(1_700) {
        assert!(rt; shown(&anew, number) == Some(*piece));
    }
    Ok(())
}

// Pieces at 0, 1, 3, 4 and 5: h, é, a byte that is interrupted, one that continues nothing, A.
#[test]
fn a_cursor_goes_both_ways(rt: HostRuntime) -> Result<(), Fail> {
    let text = TextBuffer::of(rt.alloc(), b"h\xc3\xa9\xe2\x82A")?;
    let mut cursor = TextCursor::at(&text, 2);
    assert!(rt; cursor.offset() == 1);
    let after = [(1, 2), (3, 1), (4, 1), (5, 1)];
    for (place, len) in after {
        assert!(rt; cursor.next().map(|x| (x.0, x.2)) == Some((place, len)));
    }
    assert!(rt; cursor.next().is_none() && cursor.offset() == 6);
    for (place, len) in [(5, 1), (4, 1), (3, 1), (1, 2), (0, 1)] {
        assert!(rt; cursor.next_back().map(|x| (x.0, x.2)) == Some((place, len)));
    }
    assert!(rt; cursor.next_back().is_none() && cursor.offset() == 0);
    assert!(rt; TextCursor::at(&text, 100).offset() == 6);
    Ok(())
}

// The bytes of a range, as far as it is in the text and in one chunk.
fn within<A: Allocator + Copy>(text: &TextBuffer<A>, start: usize, end: usize) -> &[u8] {
    let end = end.min(text.len());
    text.chunk_within(start.min(end), end)
}

// The stream passes two bytes a call, and fails once on the way.
#[test]
fn a_text_is_read_and_written_in_parts(rt: HostRuntime) -> Result<(), Fail> {
    let mut input = Fuse::over(rt.alloc(), b"abcde");
    input.plan = Plan::fail_once(1, ErrorKind::Interrupted);
    let text = TextBuffer::of_reader(rt.alloc(), &mut input);
    assert!(rt; text.is_ok_and(|text| within(&text, 1, 4) == b"bcd".as_slice()));
    let mut input = Fuse::over(rt.alloc(), b"abcde");
    input.plan = Plan::fail_once(1, ErrorKind::BrokenPipe);
    let text = TextBuffer::of_reader(rt.alloc(), &mut input);
    assert!(rt; text.is_err_and(|error| error.kind() == ErrorKind::BrokenPipe));
    let text = TextBuffer::of(rt.alloc(), b"abcde")?;
    let mut out = Fuse::ample(rt.alloc());
    out.most = 2;
    assert!(rt; text.write_to(&mut out).is_ok());
    assert!(rt; out.written.as_slice() == b"abcde".as_slice());
    Ok(())
}

// More chunks than a row has: what lies after them is found by the sum of the row.
#[test]
fn a_text_of_two_rows_is_looked_up_and_edited(rt: HostRuntime) -> Result<(), Fail> {
    let line = b"twelve bytes";
    let mut bytes = Vec::new(rt.alloc());
    for _ in 0..40_000 {
        bytes.extend_from_slice(line)?;
    }
    let mut text = TextBuffer::of(rt.alloc(), bytes.as_slice())?;
    put(&mut text, 470_000, 470_004, b"\xff\n\xc3\xa9")?;
    assert!(rt; text.number_of(470_004) == 470_003 && text.offset_of(470_003) == Some(470_004));
    assert!(rt; text.next_fault(0) == Some(470_000) && text.next_fault(470_001).is_none());
    assert!(rt; text.previous_fault(480_000) == Some(470_000));
    assert!(rt; text.previous_fault(470_000).is_none());
    assert!(rt; text.line_of(470_001) == 0 && text.line_of(470_002) == 1);
    assert!(rt; text.offset_of_line(1) == Some(470_002));
    put(&mut text, 0, 100_000, b"")?;
    assert!(rt; text.next_fault(0) == Some(370_000) && text.number_of(370_004) == 370_003);
    put(&mut text, 50_000, 50_000, bytes.as_slice())?;
    assert!(rt; text.next_fault(0) == Some(850_000) && text.len() == 860_000);
    assert!(rt; text.offset_of(850_003) == Some(850_004));
    Ok(())
}

// The number of calls of `chunk_at` that read all of a text, or 1,000 if these are too few.
fn calls_to_read<A: Allocator + Copy>(text: &TextBuffer<A>) -> usize {
    let mut offset: usize = 0;
    for calls in 0..1_000 {
        if text.len() <= offset {
            return calls;
        }
        offset = offset.saturating_add(text.chunk_at(offset).len());
    }
    1_000
}

// A call lends all that is left of a chunk. A new chunk has more than a kilobyte, but at most two, and so has one
// that an edit made; after many edits at one offset chunks are shorter.
#[test]
fn a_call_lends_a_chunk_of_one_or_two_kilobytes(rt: HostRuntime) -> Result<(), Fail> {
    let bytes = vec![in rt.alloc(); b'a'; 100_000]?;
    let mut text = TextBuffer::of(rt.alloc(), bytes.as_slice())?;
    let calls = calls_to_read(&text);
    assert!(rt; 49 <= calls && calls <= 98);
    put(&mut text, 50_000, 50_000, bytes.as_slice())?;
    let calls = calls_to_read(&text);
    assert!(rt; 98 <= calls && calls <= 196);
    let mut text = TextBuffer::of(rt.alloc(), b"")?;
    for _ in 0..10_000 {
        put(&mut text, 0, 0, b"abcdefghij")?;
    }
    let calls = calls_to_read(&text);
    assert!(rt; 49 <= calls && calls <= 500);
    Ok(())
}
