//! A text with undo: edits of damaged text are undone, one after another.
use cuts::{Change, Counts};
use run_examples::undo::{UndoBuffer, part};
use std::alloc::{AllocError, Allocator};
use std::process::Abort;
use std::test::Fail;

// Replaces some bytes by others, if the former are in the text.
fn put<A: Allocator + Copy>(
    edited: &mut UndoBuffer<A>,
    start: usize,
    end: usize,
    new: &[u8],
) -> Result<Change, AllocError> {
    let end = end.min(edited.text().len());
    edited.replace(start.min(end), end, new)
}

// Checks that the text has these bytes, and this many invalid ones.
fn stands<A: Allocator + Copy>(
    rt: &impl Abort,
    alloc: A,
    edited: &UndoBuffer<A>,
    bytes: &[u8],
    faults: usize,
) -> Result<(), AllocError> {
    assert!(rt; edited.text().to_vec(alloc)?.as_slice() == bytes);
    assert!(rt; edited.text().counts().faults == faults);
    Ok(())
}

#[test]
fn edits_of_damaged_text_are_taken_back(rt: HostRuntime) -> Result<(), Fail> {
    let mut edited = UndoBuffer::of(rt.alloc(), b"a\xff\xc3b")?;
    put(&mut edited, 1, 2, b"\xc3\xa9")?;
    stands(&rt, rt.alloc(), &edited, b"a\xc3\xa9\xc3b", 1)?;
    edited.insert(0, b"\n")?;
    stands(&rt, rt.alloc(), &edited, b"\na\xc3\xa9\xc3b", 1)?;
    put(&mut edited, 1, 3, b"")?;
    stands(&rt, rt.alloc(), &edited, b"\n\xa9\xc3b", 2)?;
    assert!(rt; edited.undo()?.is_some());
    stands(&rt, rt.alloc(), &edited, b"\na\xc3\xa9\xc3b", 1)?;
    put(&mut edited, 5, 6, b"\xa9")?;
    stands(&rt, rt.alloc(), &edited, b"\na\xc3\xa9\xc3\xa9", 0)?;
    assert!(rt; edited.undo()?.is_some());
    stands(&rt, rt.alloc(), &edited, b"\na\xc3\xa9\xc3b", 1)?;
    assert!(rt; edited.undo()?.is_some());
    stands(&rt, rt.alloc(), &edited, b"a\xc3\xa9\xc3b", 1)?;
    assert!(rt; edited.undo()?.is_some());
    stands(&rt, rt.alloc(), &edited, b"a\xff\xc3b", 2)?;
    assert!(rt; edited.undo()?.is_none());
    stands(&rt, rt.alloc(), &edited, b"a\xff\xc3b", 2)?;
    Ok(())
}

// Inserts a letter between the two bytes of a character, and removes it again.
#[test]
fn a_character_that_broke_in_two_is_whole_again(rt: HostRuntime) -> Result<(), Fail> {
    let whole = Counts {
        bytes: 2,
        pieces: 1,
        faults: 0,
        line_feeds: 0,
    };
    let broken = Counts {
        bytes: 3,
        pieces: 3,
        faults: 2,
        line_feeds: 0,
    };
    let mut edited = UndoBuffer::of(rt.alloc(), b"\xc3\xa9")?;
    let change = put(&mut edited, 1, 1, b"x")?;
    stands(&rt, rt.alloc(), &edited, b"\xc3x\xa9", 2)?;
    assert!(rt; change.offset == 0 && change.number == 0);
    assert!(rt; change.gone == whole && change.come == broken);
    let change = edited.undo()?;
    stands(&rt, rt.alloc(), &edited, b"\xc3\xa9", 0)?;
    assert!(rt; change.is_some_and(|x| x.offset == 0 && x.number == 0));
    assert!(rt; change.is_some_and(|x| x.gone == broken && x.come == whole));
    Ok(())
}

#[test]
fn nothing_is_taken_back_where_nothing_was_edited(rt: HostRuntime) -> Result<(), Fail> {
    let mut edited = UndoBuffer::of(rt.alloc(), b"abc")?;
    assert!(rt; edited.undo()?.is_none() && edited.undo()?.is_none());
    stands(&rt, rt.alloc(), &edited, b"abc", 0)?;
    Ok(())
}

// The removed bytes lie in several chunks.
#[test]
fn a_long_part_is_taken_out_and_put_back(rt: HostRuntime) -> Result<(), Fail> {
    let bytes = "\u{20ac}1234567".repeat(rt.alloc(), 2_000)?;
    let mut edited = UndoBuffer::of(rt.alloc(), bytes.as_bytes())?;
    put(&mut edited, 1, 19_999, b"")?;
    stands(&rt, rt.alloc(), &edited, b"\xe27", 1)?;
    assert!(rt; edited.undo()?.is_some());
    stands(&rt, rt.alloc(), &edited, bytes.as_bytes(), 0)?;
    let end = edited.text().len();
    if 3 <= end {
        edited.remove(3, end)?;
    }
    stands(&rt, rt.alloc(), &edited, b"\xe2\x82\xac", 0)?;
    let end = edited.text().len();
    assert!(rt;
        part(rt.alloc(), edited.text(), end.min(1), end)?.as_slice() == b"\x82\xac".as_slice()
    );
    Ok(())
}
