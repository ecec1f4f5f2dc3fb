//! The callers in `examples` that call a decoder again after its end, loop over one, or look for ASCII bytes. Expected
//! values as Python's `bytes` and `str` give them.
use encode_unicode::Utf8Char;
use examples::needles::find_ascii;
use examples::{asked, damage, loops};
use std::test::Fail;

// "a", "€", a truncated "€", a quote, "b" and "🂠".
fn damaged() -> &'static [u8] {
    b"a\xe2\x82\xac\xe2\x82\"b\xf0\x9f\x82\xa0"
}

#[test]
fn texts_are_asked_again(rt: HostRuntime) {
    assert!(rt; asked::command("é 🂠 b") == Some((Utf8Char::new('é'), "🂠 b")));
    assert!(rt; asked::command(" é").is_none());
    assert!(rt; asked::last_word("é 🂠 b\n") == Some("b\n"));
    assert!(rt; asked::last_word("é ").is_none());
}

#[test]
fn decoders_are_asked_again(rt: HostRuntime) {
    assert!(rt; asked::from_later_fault(b"\xffa\xe2b") == b"\xe2b".as_slice());
    assert!(rt; asked::from_later_fault(b"\xffa").is_empty());
    assert!(rt; asked::before_earlier_fault(b"a\xffb\xff") == b"a".as_slice());
    let (line, faults) = asked::first_line(b"caf\xc3\xa9\n\xff\xe2");
    assert!(rt; line == b"caf\xc3\xa9".as_slice() && faults == 2);
    let units = [0xfeff, 0x61, 0xd800, 0x62];
    assert!(rt; asked::after_faulty_unit(&units) == Some(&units[3..]));
    assert!(rt; asked::after_faulty_unit(&units[2..]).is_none());
}

#[test]
fn loops_count_and_compare(rt: HostRuntime) -> Result<(), Fail> {
    assert!(rt; loops::spaces("é 🂠 b") == 2);
    assert!(rt; loops::faults(damaged()) == 2);
    assert!(rt; loops::faulty_units(&[0x61, 0xd800, 0x62, 0xdc00]) == 2);
    assert!(rt; loops::highest("a🂠é") == 0x1f0a0);
    assert!(rt; loops::has_tab("é\tb") && !loops::has_tab("é b"));
    let commas = loops::commas(rt.alloc(), "a,é,🂠")?;
    assert!(rt; commas.as_slice() == [1, 4].as_slice());
    Ok(())
}

#[test]
fn ascii_is_found_in_damage(rt: HostRuntime) {
    assert!(rt; damage::line_feeds(b"a\n\xe2\n\xff") == 2);
    assert!(rt; damage::delimiters(b"a,b\xe2,c", b',') == 2);
    assert!(rt; damage::is_quote(damaged(), 6) && !damage::is_quote(damaged(), 5));
    assert!(rt; !damage::is_quote(damaged(), 12));
    assert!(rt; damage::after_comma(b"\xc3,\xa9") == Some(2));
    assert!(rt; damage::after_comma(damaged()).is_none());
    assert!(rt; find_ascii(damaged(), b"\"b") == Some(6));
    assert!(rt; find_ascii(damaged(), b"bb").is_none());
}
