//! Streams that pass some calls and then fail.
use cuts::{Counted, write_merged};
use encode_unicode::{CharExt, StrExt, Utf8Char, Utf8CharIterExt};
use fakes::fuse::{Fuse, Plan};
use std::io::{ErrorKind, Read};

// A stream over some bytes, two a call, whose second call fails once.
fn fuse<'a>(rt: &impl AllocGlobal, kind: ErrorKind) -> Fuse<'a> {
    let mut stream = Fuse::over(rt.alloc(), b"abc");
    stream.plan = Plan::fail_once(1, kind);
    stream
}

#[test]
fn put_is_one_call(rt: HostRuntime) {
    for kind in [ErrorKind::Interrupted, ErrorKind::BrokenPipe] {
        let mut out = Counted::new(fuse(&rt, kind));
        let mut answers = [Err(kind); 4];
        for (answer, bytes) in answers.iter_mut().zip(["ab", "cde", "fg", ""]) {
            *answer = out.put(bytes.as_bytes()).map_err(|error| error.kind());
        }
        assert!(rt; answers == [Ok(2), Err(kind), Ok(2), Ok(0)]);
        let writer = out.into_inner();
        assert!(rt; writer.given.as_slice() == [2, 3, 2, 0].as_slice());
        assert!(rt; writer.written.as_slice() == b"abfg".as_slice() && writer.flushes == 0);
    }
}

#[test]
fn flush_is_one_call(rt: HostRuntime) {
    for fault in [None, Some(ErrorKind::Interrupted)] {
        let mut writer = Fuse::ample(rt.alloc());
        writer.flush_failure = fault;
        let mut out = Counted::new(writer);
        assert!(rt; out.flush().err().map(|error| error.kind()) == fault);
        let writer = out.into_inner();
        assert!(rt; writer.flushes == 1 && writer.given.is_empty());
    }
}

#[test]
fn take_is_one_read(rt: HostRuntime) {
    for kind in [ErrorKind::Interrupted, ErrorKind::BrokenPipe] {
        let mut input = Counted::new(fuse(&rt, kind));
        let mut part = [0; 4];
        let mut answers = [Err(kind); 5];
        for (answer, has_room) in answers.iter_mut().zip([true, true, false, true, true]) {
            let given = if has_room {
                input.take(&mut part)
            } else {
                input.take(&mut [])
            };
            *answer = given.map_err(|error| error.kind());
        }
        assert!(rt; answers == [Ok(2), Err(kind), Ok(0), Ok(1), Ok(0)]);
        assert!(rt; part == *b"cb\0\0");
        assert!(rt; input.into_inner().given.as_slice() == [4, 4, 0, 4, 4].as_slice());
    }
}

#[test]
fn a_reader_gives_parts_and_one_failure(rt: HostRuntime) {
    let kind = ErrorKind::Interrupted;
    let mut input = fuse(&rt, kind);
    let mut part = [0; 4];
    let mut answers = [Err(kind); 4];
    for answer in &mut answers {
        *answer = input.read(&mut part).map_err(|error| error.kind());
    }
    assert!(rt; answers == [Ok(2), Err(kind), Ok(1), Ok(0)]);
    assert!(rt; part == *b"cb\0\0" && input.given.as_slice() == [4; 4].as_slice());
}

#[test]
fn parts_make_a_line(rt: HostRuntime) {
    let mut writer = Fuse::ample(rt.alloc());
    writer.most = 2;
    let mut out = Counted::new(writer);
    assert!(rt; write_merged(&[Ok(Utf8Char::new('A'))], &mut out).is_ok_and(|faults| faults == 0));
    let writer = out.into_inner();
    assert!(rt; writer.written.as_slice() == b"000041\n".as_slice());
    assert!(rt; writer.given.as_slice() == [7, 5, 3, 1].as_slice());
}

#[test]
fn a_splitter_is_read_byte_by_byte(rt: HostRuntime) {
    let text = "1111\u{104444}\u{222}1\0\u{833}1111\u{100004}";
    let mut bytes = text.utf8chars().to_bytes();
    let mut buf = [b'E'];
    for byte in text.as_bytes() {
        assert!(rt; bytes.read(&mut []).is_ok_and(|count| count == 0));
        assert!(rt; bytes.read(&mut buf).is_ok_and(|count| count == 1) && buf[0] == *byte);
    }
    assert!(rt; bytes.read(&mut []).is_ok_and(|count| count == 0));
    assert!(rt; bytes.read(&mut buf).is_ok_and(|count| count == 0));
    assert!(rt; bytes.into_inner().next().is_none());
}

#[test]
fn a_character_is_read_byte_by_byte(rt: HostRuntime) {
    let mut bytes = '\u{1f4a3}'.iter_utf8_bytes();
    let mut buf = [b'E'];
    for byte in [0xf0, 0x9f, 0x92, 0xa3] {
        assert!(rt; bytes.read(&mut []).is_ok_and(|count| count == 0));
        assert!(rt; bytes.read(&mut buf).is_ok_and(|count| count == 1) && buf[0] == byte);
    }
    assert!(rt; bytes.read(&mut buf).is_ok_and(|count| count == 0));
    assert!(rt; bytes.next().is_none());
}
