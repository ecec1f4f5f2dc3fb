//! Bytes and units in the notation of the rows.
use fakes::rows::{bytes_of, units_of};
use std::io::ErrorKind;
use std::test::Fail;

#[test]
fn rows_are_read(rt: HostRuntime) -> Result<(), Fail> {
    let bytes = bytes_of(rt.alloc(), "007f80ff")?;
    assert!(rt; bytes.as_slice() == [0x00, 0x7f, 0x80, 0xff].as_slice());
    let units = units_of(rt.alloc(), "0000d83cdca0ffff")?;
    assert!(rt; units.as_slice() == [0x0000, 0xd83c, 0xdca0, 0xffff].as_slice());
    Ok(())
}

#[test]
fn wrong_rows_are_refused(rt: HostRuntime) {
    for text in ["0", "0g", "g0", "FF", " 00", "00 ", "0x", "\u{e9}0"] {
        let bytes = bytes_of(rt.alloc(), text).map_err(|error| error.kind());
        assert!(rt; bytes == Err(ErrorKind::InvalidData), "at {text}");
    }
    for text in ["00", "000", "00000", "d83c dca0"] {
        let units = units_of(rt.alloc(), text).map_err(|error| error.kind());
        assert!(rt; units == Err(ErrorKind::InvalidData), "at {text}");
    }
}
