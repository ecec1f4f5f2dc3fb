//! The callers in `examples` that handle encoded characters and faults.
use encode_unicode::{Utf8Char, Utf16Char};
use examples::tokens::{key_and_value, line, words};
use examples::{chains, codes, merges};
use std::test::Fail;

// Six pieces, two of them faults, as the README shows them.
fn damaged() -> &'static [u8] {
    b"h\xc3\xa9\xe2\x82A\xf0\x9f\x98\x80"
}

#[test]
fn codes_stand_at_their_places(rt: HostRuntime) {
    let e = Utf8Char::new('\u{e9}');
    let face = Utf8Char::new('\u{1f600}');
    let first = codes::first_code(b"\xc3\xa9A");
    assert!(rt; first == Some((e, b"\xc3\xa9".as_slice())));
    assert!(rt; codes::first_code(b"\xe2\x82A").is_none());
    let last = codes::last_code(b"\x80\xf0\x9f\x98\x80");
    assert!(rt; last == Some((face, b"\xf0\x9f\x98\x80".as_slice())));
    let good = codes::first_good_code(b"\x80\xe2\x82A\xff");
    assert!(rt; good == Some((Utf8Char::new('A'), b"A".as_slice())));
    let units = [0x61, 0xd83d, 0xde00, 0xd800];
    let pair = codes::last_good_code(&units);
    assert!(rt; pair == Some((Utf16Char::from(face), &units[1..3])));
}

#[test]
fn splitters_send_every_code(rt: HostRuntime) -> Result<(), Fail> {
    let text = "a\u{e9}\u{1f600} b";
    assert!(rt; codes::unit_count(text) == 6);
    assert!(rt; codes::spaces(text) == 1);
    assert!(rt; !codes::is_ascii(text) && codes::is_ascii("a b"));
    assert!(rt; !codes::has_zero(text) && codes::has_zero("a\0"));
    assert!(rt; codes::nth_unit(text, 3) == Some(0xde00));
    assert!(rt; codes::nth_unit(text, 6).is_none());
    assert!(rt; codes::last_byte(text) == Some(b'b'));
    let first = codes::first_bytes(rt.alloc(), text, 4)?;
    assert!(rt; first.as_slice() == b"a\xc3\xa9\xf0".as_slice());
    let turned = codes::turned_bytes(rt.alloc(), "a\u{e9}\u{1f600}")?;
    assert!(rt; turned.as_slice() == b"\xf0\x9f\x98\x80\xc3\xa9a".as_slice());
    Ok(())
}

#[test]
fn chains_find_the_faults(rt: HostRuntime) {
    assert!(rt; chains::fault_count(damaged()) == 2);
    assert!(rt; chains::faults_by_fold(damaged()) == 2);
    assert!(rt; chains::characters_before(damaged()) == Some(2));
    assert!(rt; chains::before_fault(damaged()) == b"h\xc3\xa9".as_slice());
    assert!(rt; chains::has_fault(damaged()) && !chains::has_no_fault(damaged()));
    assert!(rt; chains::bytes_covered(damaged()) == 10);
    assert!(rt; chains::line_feeds_of_bytes(b"a\n\xff\n") == 2);
}

#[test]
fn mergers_are_asked_in_chains(rt: HostRuntime) {
    assert!(rt; merges::fault_count(damaged()) == 2);
    assert!(rt; merges::nth_answer(damaged(), 2).is_some_and(|r| r.is_err()));
    assert!(rt; merges::nth_answer(damaged(), 4) == Some(Ok(Utf8Char::new('A'))));
    assert!(rt; merges::nth_answer(damaged(), 6).is_none());
    assert!(rt; merges::all_characters(b"h\xc3\xa9".iter().copied()));
    assert!(rt; !merges::all_characters(damaged().iter().copied()));
    let units = [0x61, 0xd83d, 0xde00, 0xd800];
    assert!(rt; merges::characters_before(&units) == Some(2));
    assert!(rt; merges::has_faulty_unit(units.iter().copied()));
    assert!(rt; merges::first_fault(&units).is_some());
    assert!(rt; merges::first_fault(&units[..3]).is_none());
}

#[test]
fn words_are_cut_at_spaces(rt: HostRuntime) -> Result<(), Fail> {
    let words = words(rt.alloc(), b"a \xe2\x82 \xf0\x9f")?;
    assert!(rt; words.len() == 3);
    assert!(rt; words[1] == b"\xe2\x82".as_slice());
    assert!(rt; words[2] == b"\xf0\x9f".as_slice());
    assert!(rt; line(b"a\n\xe2b\n", 1) == Some(b"\xe2b".as_slice()));
    let split = key_and_value(b"a=\xe2b");
    assert!(rt; split == Some((b"a".as_slice(), b"\xe2b".as_slice())));
    Ok(())
}
