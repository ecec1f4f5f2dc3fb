//! A viewer of a text that grows: which pieces it draws anew.
use cuts::{Counts, TextBuffer};
use run_examples::growing::View;
use std::process::Abort;
use std::test::Fail;

fn counts(bytes: usize, pieces: usize, faults: usize, line_feeds: usize) -> Counts {
    Counts {
        bytes,
        pieces,
        faults,
        line_feeds,
    }
}

#[test]
fn half_a_character_comes_and_then_the_other_half(rt: HostRuntime) -> Result<(), Fail> {
    let mut text = TextBuffer::of(rt.alloc(), b"0123456789")?;
    let mut view = View::of_last(&text, 8);
    assert!(rt; view.first == 2);
    let change = view.append(&mut text, b"\xc3")?;
    assert!(rt; view.first == 2 && change.offset == 7 && change.number == 7);
    assert!(rt; change.gone == counts(3, 3, 0, 0) && change.come == counts(4, 4, 1, 0));
    let change = view.append(&mut text, b"\xa9\n")?;
    assert!(rt; view.first == 2 && change.offset == 8 && change.number == 8);
    assert!(rt; change.gone == counts(3, 3, 1, 0) && change.come == counts(5, 4, 0, 1));
    assert!(rt; text.to_vec(rt.alloc())?.as_slice() == "0123456789\u{e9}\n".as_bytes());
    Ok(())
}

#[test]
fn a_view_of_the_last_piece_begins_with_the_change(rt: HostRuntime) -> Result<(), Fail> {
    let mut text = TextBuffer::of(rt.alloc(), b"abcd\xe2\x82")?;
    let mut view = View::of_last(&text, 1);
    assert!(rt; view.first == 5);
    let change = view.append(&mut text, b"\xac")?;
    assert!(rt; view.first == 3 && change.number == 3);
    assert!(rt; change.gone == counts(3, 3, 2, 0) && change.come == counts(4, 2, 0, 0));
    assert!(rt; View::of_last(&text, 9).first == 0);
    Ok(())
}
