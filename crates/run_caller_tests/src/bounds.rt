//! How much capacity is enough, and runs over equal bytes.

use cuts::Form;
use run_examples::bounds::{count_pieces, lossy_text};
use run_examples::equals::{decode_alike, merge_alike};
use run_examples::parts::recode_parts;
use std::test::Fail;

#[test]
fn a_lossy_text_has_three_bytes_for_each_fault(rt: HostRuntime) -> Result<(), Fail> {
    let text = lossy_text(rt.alloc(), b"f\xcf\xffb")?;
    assert!(rt; text.as_slice() == b"f\xef\xbf\xbd\xef\xbf\xbdb".as_slice());
    let longest = lossy_text(rt.alloc(), b"\xff\xfe")?;
    assert!(rt; longest.as_slice() == b"\xef\xbf\xbd\xef\xbf\xbd".as_slice());
    Ok(())
}

#[test]
fn each_faulty_byte_is_a_piece(rt: HostRuntime) {
    assert_eq!(rt; count_pieces(b"A\xf0\x9f\x82\xa0\xe2\x82B\xff"), 6);
}

#[test]
fn a_list_of_parts_is_recoded_as_one(rt: HostRuntime) -> Result<(), Fail> {
    let mut parts = Vec::new(rt.alloc());
    for part in b"A\xf0\x9f\x82\xa0\xe2\x82B\xff".chunks(2) {
        let mut held = Vec::new(rt.alloc());
        held.extend_from_slice(part)?;
        parts.push(held)?;
    }
    let units = recode_parts(rt.alloc(), Form::Utf8, Form::Utf16Le, &parts)?;
    assert!(rt; units.as_slice() == b"A\0\x3c\xd8\xa0\xdc\xfd\xff\xfd\xffB\0\xfd\xff".as_slice());
    Ok(())
}

#[test]
fn equal_bytes_have_equal_runs(rt: HostRuntime) -> Result<(), Fail> {
    let bytes = b"A\xe2\x82B";
    assert!(rt; merge_alike(rt.alloc(), bytes, b"A\xe2\x82B")?);
    assert!(rt; decode_alike(rt.alloc(), bytes, b"A\xe2\x82B")?);
    assert!(rt; !merge_alike(rt.alloc(), bytes, b"A\xe2\xffB")?);
    assert!(rt; !decode_alike(rt.alloc(), bytes, b"A\xe2\xffB")?);
    Ok(())
}
