//! The callers in `examples`, over a damaged log, units with lone surrogates, and a text of several scripts.
use encode_unicode::error::{Utf8ErrorKind, Utf16PairError};
use encode_unicode::{U16IterExt, Utf8Char};
use examples::backward;
use examples::cases::are_alike;
use examples::chains::{last_line, trimmed, units_needed};
use examples::merged::split_piece;
use examples::recoders::recode;
use examples::records::{Ending, first_record, next_record};
use examples::tables::{count_characters, hash_characters};
use examples::tokens::tokens;
use std::test::Fail;

fn log() -> &'static [u8] {
    b"12:01 caf\xc3\xa9\n12:02 \xe2\x82 7\n\n\xff\xc3\n\xf0\x9f\x82\xa0\xf0\x9f\n"
}

#[test]
fn a_log_is_cut_into_lines(rt: HostRuntime) -> Result<(), Fail> {
    let lines = tokens(rt.alloc(), log(), b'\n')?;
    assert_eq!(rt; lines.len(), 6);
    assert!(rt; lines[0] == b"12:01 caf\xc3\xa9".as_slice());
    assert!(rt; lines[1] == b"12:02 \xe2\x82 7".as_slice());
    assert!(rt; lines[2].is_empty());
    assert!(rt; lines[3] == b"\xff\xc3".as_slice());
    assert!(rt; lines[4] == b"\xf0\x9f\x82\xa0\xf0\x9f".as_slice());
    assert!(rt; lines[5].is_empty());
    Ok(())
}

#[test]
fn records_end_with_a_zero_or_with_damage(rt: HostRuntime) -> Result<(), Fail> {
    let units = [
        0x61, 0xf1, 0x0000, 0xd83c, 0xdca0, 0x0000, 0x0000, 0x62, 0xd800, 0x63, 0x0000,
    ];
    let mut merger = units.iter().copied().to_utf16chars();
    for want in ["a\u{f1}", "\u{1f0a0}", ""] {
        let (text, ending) = next_record(rt.alloc(), &mut merger)?;
        assert!(rt; text.as_str() == want && ending == Ending::Zero);
    }
    let (text, ending, after) = first_record(rt.alloc(), merger.into_remaining_units())?;
    let damage = Utf16PairError::UnmatchedLeadingSurrogate;
    assert!(rt; text.as_str() == "b" && ending == Ending::Damaged(damage));
    assert!(rt; after.eq([0x63, 0]));
    Ok(())
}

#[test]
fn a_record_may_have_no_end(rt: HostRuntime) -> Result<(), Fail> {
    let damage = Utf16PairError::UnexpectedTrailingSurrogate;
    let none: &[u16] = &[];
    let table: [(&[u16], &str, Ending, &[u16]); 2] = [
        (&[0x61], "a", Ending::Missing, none),
        (&[0xdc00, 0x61], "", Ending::Damaged(damage), &[0x61]),
    ];
    for (units, want, end, left) in table {
        let (text, ending, after) = first_record(rt.alloc(), units.iter().copied())?;
        assert!(rt; text.as_str() == want && ending == end);
        assert!(rt; after.eq(left.iter().copied()));
    }
    Ok(())
}

#[test]
fn nothing_after_a_faulty_byte_is_lost(rt: HostRuntime) {
    let bytes = [0xf4, 0xa1, 0xb2, 0x46, 0x53];
    let (first, rest) = split_piece(bytes.iter().copied());
    let kind = first
        .and_then(|answer| answer.err())
        .map(|error| error.kind());
    assert!(rt; kind == Some(Utf8ErrorKind::InterruptedSequence));
    assert!(rt; rest.eq([0xa1, 0xb2, 0x46, 0x53]));
}

fn text() -> &'static str {
    "Grüße, Γειά σας, здравствуйте, 你好你, 🂠🂡🂠"
}

#[test]
fn each_character_is_counted(rt: HostRuntime) -> Result<(), Fail> {
    let ordered = count_characters(rt.alloc(), text())?;
    let hashed = hash_characters(rt.alloc(), text())?;
    assert!(rt; ordered.len() == 28 && hashed.len() == 28);
    // Expected values as Python's `Counter` counts them.
    for (c, count) in " ,в你好🂠ςσx".chars().zip([5, 4, 2, 2, 1, 2, 1, 1, 0]) {
        let key = Utf8Char::from(c);
        assert!(rt; ordered.get(&key).copied().unwrap_or(0) == count);
        assert!(rt; hashed.get(&key).copied().unwrap_or(0) == count);
    }
    Ok(())
}

#[test]
fn the_text_comes_back(rt: HostRuntime) -> Result<(), Fail> {
    for text in [text(), ""] {
        assert!(rt; recode(rt.alloc(), text)?.as_str() == text);
    }
    Ok(())
}

#[test]
fn names_are_compared_without_case(rt: HostRuntime) {
    // Expected values as Python's `bytes.lower` makes them equal or not.
    let table: [(&[u8], &[u8], bool); 7] = [
        (b"Content-Length", b"cONTENT-lENGTH", true),
        (b"Host\xff\xe2\x82", b"hOST\xff\xe2\x82", true),
        (b"caf\xc3\xa9", b"CAF\xc3\x89", false),
        (b"\xc1", b"\xe1", false),
        (b"[", b"{", false),
        (b"a", b"ab", false),
        (b"", b"", true),
    ];
    for (first, second, want) in table {
        assert!(rt; are_alike(first, second) == want);
        assert!(rt; are_alike(second, first) == want);
    }
}

#[test]
fn chains_run_from_the_back(rt: HostRuntime) {
    assert!(rt; last_line(log()).is_empty());
    let whole = log();
    let before = whole.len().saturating_sub(1);
    assert!(rt; last_line(&whole[..before]) == b"\xf0\x9f\x82\xa0\xf0\x9f".as_slice());
    assert!(rt; trimmed("  é 🂠  ") == "  é 🂠");
    assert!(rt; trimmed("   ").is_empty());
    assert!(rt; units_needed("é🂠a") == 4);
}

#[test]
fn chains_from_the_back_give_the_same_pieces(rt: HostRuntime) {
    let bytes = b"a\xff\xe2\x82\xac\xe2\x82";
    let last = backward::last_fault(bytes).map(|x| x.0);
    assert!(rt; last == Some(6));
    assert!(rt; backward::faults_at_end(bytes) == Some(2));
    assert!(rt; backward::has_no_fault(&bytes[2..5]) && !backward::has_no_fault(bytes));
    let first = backward::first_piece(bytes).map(|x| (x.0, x.1.is_ok(), x.2));
    assert!(rt; first == Some((0, true, 1)));
    assert!(rt; backward::unit_fault_count(&[0x61, 0xd800, 0xd83d, 0xde00]) == 1);
}
