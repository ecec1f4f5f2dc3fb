//! The callers in `examples` that cut at the offset of a piece, of a character or of a fault, and that make texts of
//! texts. Expected values as Python's `bytes`, `str` and decoders give them.
use examples::texts::{joined_units, raised, reversed, shortened};
use examples::{asked, chains, merges, texts};
use std::test::Fail;

#[test]
fn slices_begin_where_the_decoder_stands(rt: HostRuntime) {
    assert!(rt; asked::before_later_fault(b"\xffab\xe2c") == Some(b"ab".as_slice()));
    assert!(rt; asked::before_later_fault(b"\xffab").is_none());
    assert!(rt; asked::between_faults(b"a\xffbc\xe2d") == Some(b"bc".as_slice()));
    let units = [0xfeff, 0x61, 0xd800, 0x62];
    assert!(rt; asked::before_faulty_unit(&units) == Some(&units[1..2]));
    assert!(rt; asked::tag_name("«é b»") == Some("é"));
    assert!(rt; asked::word_before_stop("é 🂠b。") == Some("🂠b"));
}

#[test]
fn fronts_end_at_characters(rt: HostRuntime) {
    assert!(rt; chains::before_filtered(b"caf\xe9 au") == b"caf".as_slice());
    assert!(rt; chains::first_word("é b") == "é" && chains::first_word("éb") == "éb");
    assert!(rt; texts::front("é🂠b", 2) == "é🂠" && texts::front("é", 5) == "é");
    assert!(rt; texts::offset_of("é🂠b", 2) == 6 && texts::offset_of("é", 5) == 2);
}

// Expected values as `decode` with `errors="ignore"`.
#[test]
fn characters_are_told(rt: HostRuntime) -> Result<(), Fail> {
    let text = merges::characters_alone(rt.alloc(), b"a\xff\xc3\xa9\xe2\x82")?;
    assert_eq!(rt; text.as_str(), "aé");
    assert!(rt; merges::unit_character_count(&[0x61, 0xd800, 0xd83d, 0xde00]) == 2);
    Ok(())
}

#[test]
fn texts_are_made_of_texts(rt: HostRuntime) -> Result<(), Fail> {
    let alloc = rt.alloc();
    assert!(rt; raised(alloc, "a\u{e9}z")?.as_str() == "A\u{e9}Z");
    assert!(rt; reversed(alloc, "a\u{e9}\u{1f0a0}")?.as_str() == "\u{1f0a0}\u{e9}a");
    assert!(rt; shortened(alloc, "\u{e9}\u{1f0a0}b", 2)?.as_str() == "\u{e9}\u{1f0a0}");
    let units = joined_units(alloc, "a", "\u{1f0a0}")?;
    assert!(rt; units.as_slice() == [0x61, 0xd83c, 0xdca0].as_slice());
    Ok(())
}
