//! Text with one U+FFFD for each maximal subpart: what bytes become, and how many of them are invalid.

use cuts::{Form, Recoder};
use run_examples::lossy::{feed_lossy_by_packets, send_lossy_end};
use std::alloc::{AllocError, Allocator};
use std::test::Fail;

// Returns true if the bytes become that text, fed byte by byte, and that many invalid bytes are counted: also if each
// of these is replaced.
fn becomes<A: Allocator + Copy>(
    alloc: A,
    form: Form,
    bytes: &[u8],
    wanted: (&[u8], u64),
) -> Result<bool, AllocError> {
    let mut recoder = Recoder::new(form, Form::Utf8);
    let mut out = Vec::new(alloc);
    let mut each = Recoder::new(form, Form::Utf8);
    let mut other = Vec::new(alloc);
    for byte in bytes {
        feed_lossy_by_packets(&mut recoder, &[*byte], &mut out)?;
        each.feed(&[*byte], &mut other)?;
    }
    send_lossy_end(&mut recoder, &mut out)?;
    let has_count = recoder.replaced() == wanted.1 && each.replaced_at_end() == wanted.1;
    Ok(out.as_slice() == wanted.0 && has_count)
}

// Expected values by Python: bytes.decode with a handler that returns U+FFFD, and adds `end - start` of each error.
#[test]
fn each_byte_of_a_subpart_is_counted(rt: HostRuntime) -> Result<(), Fail> {
    let alloc = rt.alloc();
    assert!(rt; becomes(alloc, Form::Utf8, b"\xe2\x82A", (b"\xef\xbf\xbdA", 2))?);
    assert!(rt;
        becomes(
            alloc,
            Form::Utf8,
            b"\xf0\x9f\x98\xe2\x82",
            (b"\xef\xbf\xbd\xef\xbf\xbd", 5)
        )?
    );
    assert!(rt;
        becomes(
            alloc,
            Form::Utf8,
            b"\xe0\x80A",
            (b"\xef\xbf\xbd\xef\xbf\xbdA", 2)
        )?
    );
    assert!(rt;
        becomes(
            alloc,
            Form::Utf8,
            b"a\xf0\x90\x80\xff\xed\xa0\x80\xc3",
            (
                b"a\xef\xbf\xbd\xef\xbf\xbd\xef\xbf\xbd\xef\xbf\xbd\xef\xbf\xbd\xef\xbf\xbd",
                8
            )
        )?
    );
    assert!(rt;
        becomes(
            alloc,
            Form::Utf8,
            b"\xef\xbf\xbd\xef\xbf",
            (b"\xef\xbf\xbd\xef\xbf\xbd", 2)
        )?
    );
    Ok(())
}

// Each lone surrogate counts once, and so does an odd byte at the end.
#[test]
fn each_lone_surrogate_is_counted(rt: HostRuntime) -> Result<(), Fail> {
    let alloc = rt.alloc();
    assert!(rt; becomes(alloc, Form::Utf16Le, b"\x3d\xd8A", (b"\xef\xbf\xbd", 2))?);
    assert!(rt;
        becomes(
            alloc,
            Form::Utf16Le,
            b"\x3d\xd8\x00\xde\x3d\xd8A\x00",
            (b"\xf0\x9f\x98\x80\xef\xbf\xbdA", 1)
        )?
    );
    assert!(rt;
        becomes(
            alloc,
            Form::Utf16Be,
            b"\xdc\x00\x00a\xd8\x00\xd8\x00",
            (b"\xef\xbf\xbda\xef\xbf\xbd\xef\xbf\xbd", 3)
        )?
    );
    Ok(())
}

// Expected values by Python, as above: 60 times nine bytes, three of them invalid, and then the front of a character.
#[test]
fn each_byte_of_many_subparts_is_counted(rt: HostRuntime) -> Result<(), Fail> {
    let mut bytes = Vec::new(rt.alloc());
    for _ in 0..60 {
        bytes.extend_from_slice(b"ab \xe2\x82 cd\xff")?;
    }
    bytes.extend_from_slice(b"\xf0\x9f")?;
    let mut recoder = Recoder::new(Form::Utf8, Form::Utf8);
    let mut room = [0; 2048];
    let first = recoder.feed_lossy_into(&bytes, &mut room);
    assert!(rt; first.written == 720 && first.replaced == 180 && recoder.replaced() == 180);
    let last = recoder.finish_lossy_into(&mut room);
    assert!(rt; last.written == 3 && last.replaced == 2 && recoder.replaced() == 182);
    Ok(())
}
