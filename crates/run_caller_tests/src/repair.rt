//! Text that is UTF-8 but for bytes of another encoding, repaired in packets.

use cuts::{Form, Recoder, Repair};
use run_examples::repair::{feed_repaired_by_packets, feed_repaired_packet, send_repaired_end};
use std::alloc::{AllocError, Allocator};
use std::test::Fail;

// Returns true if the bytes become that text, fed byte by byte, with that many invalid bytes.
fn becomes<A: Allocator>(
    alloc: A,
    forms: (Form, Form),
    bytes: &[u8],
    repair: Repair<'_>,
    wanted: (&[u8], u64),
) -> Result<bool, AllocError> {
    let mut recoder = Recoder::new(forms.0, forms.1);
    let mut out = Vec::new(alloc);
    for byte in bytes {
        feed_repaired_by_packets(&mut recoder, &[*byte], repair, &mut out)?;
    }
    send_repaired_end(&mut recoder, repair, &mut out)?;
    Ok(out.as_slice() == wanted.0 && recoder.replaced() == wanted.1)
}

// Expected values by Python: the valid bytes decoded as UTF-8, the others as cp1252 and latin-1.
#[test]
fn invalid_bytes_become_their_characters(rt: HostRuntime) -> Result<(), Fail> {
    let alloc = rt.alloc();
    let bytes = b"caf\xe9 \xe2\x82\xac \x93a\x94 \xe2\x82";
    assert!(rt;
        becomes(
            alloc,
            (Form::Utf8, Form::Utf8),
            bytes,
            Repair::windows_1252(),
            (
                b"caf\xc3\xa9 \xe2\x82\xac \xe2\x80\x9ca\xe2\x80\x9d \xc3\xa2\xe2\x80\x9a",
                5
            )
        )?
    );
    assert!(rt;
        becomes(
            alloc,
            (Form::Utf8, Form::Utf16Be),
            b"a\xe9\x80",
            Repair::latin_1(),
            (b"\0a\0\xe9\0\x80", 2)
        )?
    );
    Ok(())
}

#[test]
fn invalid_input_is_left_out(rt: HostRuntime) -> Result<(), Fail> {
    let alloc = rt.alloc();
    let nothing = Repair::nothing();
    assert!(rt;
        becomes(
            alloc,
            (Form::Utf8, Form::Utf8),
            b"\xffa\xe2\x82b\xf0",
            nothing,
            (b"ab", 4)
        )?
    );
    assert!(rt;
        becomes(
            alloc,
            (Form::Utf16Le, Form::Utf8),
            b"a\0\0\xd8b\0c",
            nothing,
            (b"ab", 2)
        )?
    );
    Ok(())
}

// A table of two entries: the second is no character up to U+FFFF.
#[test]
fn a_table_has_what_bytes_become(rt: HostRuntime) -> Result<(), Fail> {
    let alloc = rt.alloc();
    let chars = [0x20ac, 0x1_f600];
    let repair = Repair::of(&chars);
    assert!(rt;
        becomes(
            alloc,
            (Form::Utf8, Form::Utf8),
            b"\x80\x81\x82!",
            repair,
            (b"\xe2\x82\xac!", 3)
        )?
    );
    let mut recoder = Recoder::new(Form::Utf16Be, Form::Utf8);
    let mut out = Vec::new(alloc);
    let read = feed_repaired_packet(&mut recoder, b"\xdc\0\0a", repair, &mut out)?;
    assert!(rt; read == 4 && out.as_slice() == b"\xef\xbf\xbda".as_slice());
    Ok(())
}
