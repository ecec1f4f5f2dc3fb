//! The callers in `run_examples` that find faults, cut at them, and repair them in a table of pieces.
use cuts::{Form, PieceTable};
use run_examples::{bounds, editor, faults, fronts, strict};
use std::test::Fail;

// Six pieces, two of them faults, as the README shows them.
fn damaged() -> &'static [u8] {
    b"h\xc3\xa9\xe2\x82A\xf0\x9f\x98\x80"
}

#[test]
fn text_has_characters_alone(rt: HostRuntime) {
    let text = b"h\xc3\xa9";
    assert!(rt; faults::is_text(text) && !faults::is_text(damaged()));
    assert!(rt; faults::has_characters_alone(text));
    assert!(rt; !faults::has_characters_alone(damaged()));
    assert!(rt; faults::is_merged_text("é🂠".as_bytes()) && !faults::is_merged_text(damaged()));
    assert!(rt; faults::is_well_formed(text));
    assert!(rt; !faults::is_well_formed(damaged()));
}

#[test]
fn faults_are_found(rt: HostRuntime) {
    assert!(rt; faults::first_fault_place(damaged()) == 3);
    assert!(rt; faults::fault_count(b"a\xff\xe2\x82\xac\xe2\x82") == 3);
}

#[test]
fn fronts_end_at_faults(rt: HostRuntime) {
    let (good, rest) = fronts::split_at_fault(b"caf\xe9 au");
    assert!(rt; good == b"caf".as_slice() && rest == b"\xe9 au".as_slice());
    let (good, rest) = fronts::split_at_faulty_unit(&[0x61, 0xd800]);
    assert!(rt; good == [0x61].as_slice() && rest == [0xd800].as_slice());
    assert!(rt; fronts::good_wire_len(b"a\0\x00\xd8") == 2);
}

// Expected values as Python's `UnicodeDecodeError.start`.
#[test]
fn first_faults_are_told(rt: HostRuntime) -> Result<(), Fail> {
    let mut room = [0; 32];
    assert!(rt; strict::told_fault(Form::Utf8, b"caf\xe9 au", &mut room) == Some(3));
    assert!(rt; strict::told_fault(Form::Utf8, b"caf", &mut room).is_none());
    assert!(rt; strict::told_fault(Form::Utf16Le, b"a\0\0\xdcb\0", &mut room) == Some(2));
    assert!(rt; strict::valid_len(b"ab\xe2\x82", &mut room) == Some(2));
    assert!(rt; strict::valid_len(b"caf\xc3\xa9", &mut room) == Some(5));
    let units = bounds::recoded_briefly(rt.alloc(), Form::Utf8, Form::Utf16Le, b"\xffa")?;
    assert!(rt; units.as_slice() == b"\xfd\xffa\0".as_slice());
    Ok(())
}

#[test]
fn a_table_gives_its_pieces(rt: HostRuntime) -> Result<(), Fail> {
    let mut table = PieceTable::new(rt.alloc(), damaged())?;
    assert!(rt; editor::piece_bytes(&table, 4) == Some(b"A".as_slice()));
    assert!(rt; editor::piece_bytes(&table, 6).is_none());
    assert!(rt; editor::piece_at(&table, 9).is_some_and(|x| x.0 == 6 && x.2 == 4));
    assert!(rt; editor::piece_at(&table, 10).is_none());
    assert!(rt; editor::mend_first(&mut table, b"?")?);
    assert!(rt; table.bytes() == b"h\xc3\xa9?\x82A\xf0\x9f\x98\x80".as_slice());
    assert!(rt; editor::mend_first(&mut table, b"")?);
    assert!(rt; !editor::mend_first(&mut table, b"")?);
    let mended = editor::mended(rt.alloc(), damaged())?;
    assert!(rt; mended.bytes() == b"h\xc3\xa9?\x82A\xf0\x9f\x98\x80".as_slice());
    Ok(())
}
