//! The callers in `run_examples` that look up offsets in damaged bytes, and that read records and blocks. Expected
//! values as Python's `bytes` and `str` give them.
use cuts::boundaries::{ceil, floor, following, previous, truncated};
use run_examples::blocks::count_block;
use run_examples::listed::{pieces_of_both, turned_by_units};
use run_examples::shown::{lossy, valid_front};
use run_examples::strings::closing_quote;
use run_examples::wire::first_text;
use run_examples::{boundaries, cursor};
use std::process::Abort;
use std::test::Fail;

// "a", "€", a truncated "€", a quote, "b" and "🂠".
fn damaged() -> &'static [u8] {
    b"a\xe2\x82\xac\xe2\x82\"b\xf0\x9f\x82\xa0"
}

#[test]
fn a_viewer_asks_for_any_byte(rt: HostRuntime) {
    // The pieces begin at 0, 1, 4, 5, 6, 7 and 8.
    let src = damaged();
    assert!(rt; src.len() == 12);
    let last = [0, 1, 1, 1, 4, 5, 6, 7, 8, 8, 8, 8, 12];
    let first = [0, 1, 4, 4, 4, 5, 6, 7, 8, 12, 12, 12, 12];
    for (place, (before, after)) in last.iter().zip(first.iter()).enumerate() {
        assert!(rt; place <= src.len());
        assert!(rt; floor(src, place) == *before && ceil(src, place) == *after);
    }
    assert!(rt; previous(src, 3) == 1 && following(src, 2) == 4);
    assert!(rt; truncated(src, 3) == b"a".as_slice() && truncated(src, 99) == src);
}

#[test]
fn boundaries_are_found_in_damage(rt: HostRuntime) {
    let bytes = damaged();
    assert!(rt; bytes.len() == 12);
    assert!(rt; boundaries::around(bytes, 2, 0) == b"\xe2\x82\xac".as_slice());
    assert!(rt; boundaries::around(bytes, 7, 2) == b"\x82\"b\xf0\x9f\x82\xa0".as_slice());
    assert!(rt; boundaries::piece_of(bytes, 9) == b"\xf0\x9f\x82\xa0".as_slice());
    let (row, rest) = boundaries::first_row(bytes, 3);
    assert!(rt; row == b"a".as_slice() && rest == &bytes[1..]);
    let (before, after) = boundaries::without_previous(bytes, 4);
    assert!(rt; before == b"a".as_slice() && after == &bytes[4..]);
}

// Steps forward from offset to offset, and backward again at each of them.
fn steps_on(rt: &impl Abort, src: &[u8], places: &[usize]) {
    let mut place = cursor::front(src);
    for next in places {
        assert!(rt; place < src.len());
        let on = cursor::step_on(src, place);
        assert!(rt; on == *next);
        assert!(rt; cursor::step_back(src, on) == place);
        assert!(rt; cursor::on_and_back(src, place) == place);
        place = on;
    }
    assert!(rt; place == cursor::back(src));
}

#[test]
fn a_viewer_steps_over_the_end_of_the_log(rt: HostRuntime) {
    let end = b"\xff\xc3\n\xf0\x9f\x82\xa0\xf0\x9f\n";
    steps_on(&rt, end, &[1, 2, 3, 7, 8, 9, 10]);
}

#[test]
fn quotes_are_found_in_damage(rt: HostRuntime) {
    assert!(rt; closing_quote(damaged()) == Some(6));
    assert!(rt; closing_quote(b"\\\"\\\\\xe2\"\"") == Some(5));
    assert!(rt; closing_quote(b"\\\xc3\"") == Some(2));
    assert!(rt; closing_quote(b"\\\"").is_none());
}

#[test]
fn damaged_bytes_are_shown(rt: HostRuntime) -> Result<(), Fail> {
    let shown = lossy(rt.alloc(), damaged())?;
    assert!(rt; shown.as_str() == "a\u{20ac}\u{fffd}\u{fffd}\"b\u{1f0a0}");
    assert!(rt; valid_front(damaged()) == "a\u{20ac}");
    let both = pieces_of_both(rt.alloc(), b"\xe2\x82", b"\xacA")?;
    assert!(rt; both.len() == 2);
    assert!(rt; turned_by_units(rt.alloc(), "a\u{1f0a0}")?.len() == 2);
    Ok(())
}

#[test]
fn records_and_blocks_are_read(rt: HostRuntime) -> Result<(), Fail> {
    let found = first_text(rt.alloc(), b"\x02\0\xe9\0\0\xd8\x07")?;
    let (text, rest) = found.expect(&rt, "a record");
    assert!(rt;
        text.as_slice() == b"\xc3\xa9\xef\xbf\xbd".as_slice() && rest == b"\x07".as_slice()
    );
    assert!(rt; first_text(rt.alloc(), b"\x02\0\xe9\0\0")?.is_none());
    let greek = b"\xce\x93\xff\xce\xb5a\xcf\x83".iter().copied();
    assert!(rt; count_block(rt.alloc(), greek, '\u{370}', '\u{3ff}')? == 3);
    Ok(())
}
