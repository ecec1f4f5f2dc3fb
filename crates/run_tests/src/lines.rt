//! Lines and fields of bytes. Expected values: the parts as Python's `bytes.split` gives them, with offsets added up
//! by hand; lines as `str::lines` of Rust gives them; counts by hand.
use cuts::{Span, SplitAscii, SplitLines, lines, split_ascii};
use run_examples::fields;
use std::test::Fail;

fn is_at(span: Option<Span<'_>>, start: usize, bytes: &[u8]) -> bool {
    span.is_some_and(|span| span.start() == start && span.as_bytes() == bytes)
}

// b"a\r\nb\n\xff".split(b"\n") == [b"a\r", b"b", b"\xff"]
#[test]
fn parts_are_those_of_python(rt: HostRuntime) {
    let mut parts = split_ascii(b"a\r\nb\n\xff", b'\n');
    assert!(rt; is_at(parts.next(), 0, b"a\r"));
    assert!(rt; is_at(parts.next(), 3, b"b"));
    assert!(rt; is_at(parts.next(), 5, b"\xff"));
    assert!(rt; parts.next().is_none() && parts.next().is_none());
    // b"".split(b",") == [b""] and b",".split(b",") == [b"", b""]
    let mut one = split_ascii(b"", b',');
    assert!(rt; is_at(one.next(), 0, b""));
    assert!(rt; one.next().is_none() && one.next_back().is_none());
    let mut two = split_ascii(b",", b',');
    assert!(rt; is_at(two.next_back(), 1, b""));
    assert!(rt; is_at(two.next_back(), 0, b""));
    assert!(rt; two.next_back().is_none());
}

// b"a,\xff,b\xe2\x82,".split(b",") == [b"a", b"\xff", b"b\xe2\x82", b""]
#[test]
fn parts_come_from_both_ends(rt: HostRuntime) -> Result<(), Fail> {
    let mut parts = split_ascii(b"a,\xff,b\xe2\x82,", b',');
    assert!(rt; parts.size_hint() == (1, Some(9)));
    assert!(rt; is_at(parts.next_back(), 8, b""));
    assert!(rt; is_at(parts.next(), 0, b"a"));
    let mut copy = parts.clone()?;
    assert!(rt; is_at(parts.next_back(), 4, b"b\xe2\x82"));
    assert!(rt; is_at(parts.next_back(), 2, b"\xff"));
    assert!(rt; parts.next_back().is_none() && parts.size_hint() == (0, Some(0)));
    assert!(rt; is_at(copy.next(), 2, b"\xff"));
    assert!(rt; is_at(copy.next(), 4, b"b\xe2\x82"));
    assert!(rt; copy.next().is_none());
    Ok(())
}

// "a\r\nb\n\nc\r".lines() is "a", "b", "", "c\r"; "\n" has one line and "" none.
#[test]
fn lines_are_those_of_str(rt: HostRuntime) -> Result<(), Fail> {
    let mut front = lines(b"a\r\nb\n\n\xe2\x82\r");
    let mut back = front.clone()?;
    assert!(rt; front.size_hint() == (0, Some(10)));
    assert!(rt; is_at(front.next(), 0, b"a") && is_at(front.next(), 3, b"b"));
    assert!(rt; is_at(front.next(), 5, b"") && is_at(front.next(), 6, b"\xe2\x82\r"));
    assert!(rt; front.next().is_none());
    assert!(rt; is_at(back.next_back(), 6, b"\xe2\x82\r") && is_at(back.next_back(), 5, b""));
    assert!(rt; is_at(back.next(), 0, b"a") && is_at(back.next(), 3, b"b"));
    assert!(rt; back.next().is_none() && back.next_back().is_none());
    let mut feed = lines(b"\n");
    assert!(rt; is_at(feed.next(), 0, b"") && feed.next().is_none());
    let mut ended = lines(b"\xff\r\n");
    assert!(rt; is_at(ended.next_back(), 0, b"\xff") && ended.next_back().is_none());
    assert!(rt; lines(b"").next().is_none() && lines(b"").next_back().is_none());
    Ok(())
}

#[test]
fn spans_tell_their_places(rt: HostRuntime) -> Result<(), Fail> {
    let fields = fields::fields(rt.alloc(), b",ab,\xc3\xa9")?;
    assert_eq!(rt; fields.len(), 3);
    let span = &fields[2];
    assert!(rt; span.start() == 4 && span.end() == 6 && span.len() == 2 && !span.is_empty());
    let copy = span.clone()?;
    assert!(rt; copy.as_bytes() == b"\xc3\xa9".as_slice());
    let shown = format!(in rt.alloc(); "{copy:?}")?;
    assert_eq!(rt; shown.as_str(), "Span { start: 4, bytes: [195, 169] }");
    let none = &fields[0];
    assert!(rt; none.start() == 0 && none.end() == 0 && none.len() == 0 && none.is_empty());
    Ok(())
}

#[test]
fn callers_count_and_find(rt: HostRuntime) -> Result<(), Fail> {
    assert!(rt; fields::line_count(b"a\r\nb\n\xff") == 3 && fields::line_count(b"a\n") == 1);
    assert!(rt; fields::field_count(b"a,\xff,b\xe2\x82,") == 4 && fields::field_count(b"") == 1);
    assert!(rt; fields::word_count(b"one two  \xc3\xa9t\xc3\xa9 ") == 3);
    assert!(rt;
        fields::longest_line(b"ab\n\xe2\x82\xac\r\n\n") == 3 && fields::longest_line(b"") == 0
    );
    assert!(rt; is_at(fields::first_field(b"\xff,b"), 0, b"\xff"));
    assert!(rt; is_at(fields::field(b"a,\xff,b", 1), 2, b"\xff"));
    assert!(rt; fields::field(b"a,b", 2).is_none());
    assert!(rt; is_at(fields::last_field(b"a,\xff,"), 4, b""));
    assert!(rt; is_at(fields::first_empty_line(b"a\n\r\nb"), 2, b""));
    assert!(rt; fields::first_empty_line(b"a\nb\n").is_none());
    assert!(rt;
        is_at(
            fields::first_damaged_line(b"a\n\xc3\xa9\nb\xc3\n"),
            5,
            b"b\xc3"
        )
    );
    assert!(rt; fields::first_damaged_line(b"a\n\xc3\xa9").is_none());
    let fields = fields::fields(rt.alloc(), b"a,\xff,b\xe2\x82,")?;
    assert_eq!(rt; fields.len(), 4);
    assert!(rt; fields[2].start() == 4 && fields[2].as_bytes() == b"b\xe2\x82".as_slice());
    Ok(())
}
