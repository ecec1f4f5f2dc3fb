//! What programs print, and the effects of their arguments.
use cuts::programs::mains::{Streams, arguments_of, pieces};
use cuts::programs::stops::Stop;
use cuts::{
    Counted, Form, RecodeFault, forward_utf16, merge_utf8, merge_utf16, recode, walk_utf8,
    write_listing,
};
use encode_unicode::{StrExt, Utf8CharIterExt, Utf16CharIterExt};
use fakes::budget::Budget;
use fakes::fuse::{Failure, Fuse, Plan};
use std::alloc::{AllocError, Global};
use std::io;
use std::io::ErrorKind;
use std::test::Fail;

pub(crate) fn words_of(alloc: Global, texts: &str) -> Result<Vec<String>, AllocError> {
    let mut words = Vec::new(alloc);
    for text in texts.split_terminator(',') {
        words.push(String::from_str(alloc, text)?)?;
    }
    Ok(words)
}

#[test]
fn arguments_stand_after_the_name(rt: HostRuntime) -> Result<(), Fail> {
    let alloc = rt.alloc();
    for (words, args) in [
        ("", ""),
        ("pieces,", ""),
        ("pieces,x,", "x,"),
        (",,pieces,", ",pieces,"),
    ] {
        let args = words_of(alloc, args)?;
        assert!(rt; arguments_of(alloc, Ok(words_of(alloc, words)?)) == Ok(args));
    }
    Ok(())
}

#[test]
fn words_may_be_no_text(rt: HostRuntime) -> Result<(), Fail> {
    let one = words_of(rt.alloc(), ",")?;
    let not_text = io::Error::from(ErrorKind::InvalidData);
    assert!(rt; arguments_of(rt.alloc(), Err(not_text)) == Ok(one));
    let refused = io::Error::from(ErrorKind::OutOfMemory);
    assert!(rt; arguments_of(rt.alloc(), Err(refused)) == Err(Stop::NoMemory));
    Ok(())
}

#[test]
fn a_flush_may_fail(rt: HostRuntime) -> Result<(), Fail> {
    let other = Some(ErrorKind::Other);
    let interrupted = Some(ErrorKind::Interrupted);
    for (words, bytes, failure, status, text, flushes) in [
        ("pieces,", b"A", None, 0, "", 1),
        ("pieces,", b"\xff", None, 1, "", 1),
        ("pieces,", b"A", other, 3, "pieces: cannot write\n", 1),
        (
            "pieces,",
            b"\xff",
            interrupted,
            3,
            "pieces: cannot write\n",
            1,
        ),
        ("pieces,x,", b"A", other, 2, "pieces: wrong arguments\n", 0),
    ] {
        let mut writer = Fuse::ample(rt.alloc());
        writer.flush_failure = failure;
        let words = Ok(words_of(rt.alloc(), words)?);
        let mut streams = Streams {
            input: Fuse::over(rt.alloc(), bytes),
            out: Counted::new(writer),
            stderr: Fuse::ample(rt.alloc()),
        };
        assert!(rt; pieces(rt.alloc(), words, &mut streams) == status);
        let Streams {
            input: _,
            out,
            stderr,
        } = streams;
        assert!(rt; stderr.written.as_slice() == text.as_bytes());
        assert!(rt; out.into_inner().flushes == flushes);
    }
    Ok(())
}

#[test]
fn standard_error_may_fail(rt: HostRuntime) -> Result<(), Fail> {
    for failure in [Failure::Error(ErrorKind::BrokenPipe), Failure::Nothing] {
        let mut input = Fuse::over(rt.alloc(), b"A");
        input.plan = Plan::fail_once(0, ErrorKind::Other);
        let mut streams = Streams {
            input,
            out: Counted::new(Fuse::ample(rt.alloc())),
            stderr: Fuse::failing(rt.alloc(), 0, failure),
        };
        let words = Ok(words_of(rt.alloc(), "pieces,")?);
        assert!(rt; pieces(rt.alloc(), words, &mut streams) == 3);
    }
    Ok(())
}

// Writes to standard error are not counted.
#[test]
fn an_interrupted_write_is_not_made_again(rt: HostRuntime) {
    let mut stderr = Fuse::ample(rt.alloc());
    stderr.plan = Plan::fail_once(1, ErrorKind::Interrupted);
    assert!(rt; Stop::CannotRead.report("pieces", &mut stderr) == 3);
    assert!(rt; stderr.written.as_slice() == b"pieces".as_slice() && stderr.given.len() == 2);
}

#[test]
fn stops_have_their_lines(rt: HostRuntime) -> Result<(), Fail> {
    for (stop, status, line) in [
        (Stop::WrongArguments, 2, "other: wrong arguments\n"),
        (Stop::CannotRead, 3, "other: cannot read\n"),
        (Stop::CannotWrite, 3, "other: cannot write\n"),
        (Stop::NoMemory, 3, "other: no memory\n"),
    ] {
        let text = format!(in rt.alloc(); "other: {stop}\n")?;
        let mut stderr = Fuse::ample(rt.alloc());
        assert!(rt; stop.report("other", &mut stderr) == status);
        assert!(rt; text.as_str() == line && stderr.written.as_slice() == line.as_bytes());
    }
    Ok(())
}

#[test]
fn faults_of_recoding_have_texts(rt: HostRuntime) -> Result<(), Fail> {
    for (failure, text) in [
        (RecodeFault::Read, "cannot read"),
        (RecodeFault::Write, "cannot write"),
        (RecodeFault::Memory, "no memory"),
    ] {
        assert!(rt; format!(in rt.alloc(); "{failure}")?.as_str() == text);
    }
    Ok(())
}

#[test]
fn recoding_tells_what_failed(rt: HostRuntime) {
    for (reads, writes, growths, failure) in [
        (1, u32::MAX, u32::MAX, RecodeFault::Read),
        (u32::MAX, 0, u32::MAX, RecodeFault::Write),
        (u32::MAX, u32::MAX, 0, RecodeFault::Memory),
    ] {
        let budget = Budget::new(rt.alloc(), growths);
        let mut reader = Fuse::over(rt.alloc(), b"A\xe0\x80");
        reader.plan = Plan::fail_once(reads, ErrorKind::BrokenPipe);
        let mut input = Counted::new(reader);
        let mut out = Counted::new(Fuse::failing(rt.alloc(), writes, Failure::Nothing));
        let answer = recode(&budget, &mut input, &mut out, Form::Utf8, Form::Utf8);
        assert!(rt; answer == Err(failure));
    }
}

#[test]
fn a_stall_is_no_broken_pipe(rt: HostRuntime) {
    for (failure, kind) in [
        (Failure::Nothing, ErrorKind::WriteZero),
        (Failure::Error(ErrorKind::BrokenPipe), ErrorKind::BrokenPipe),
    ] {
        let mut writer = Fuse::failing(rt.alloc(), 1, failure);
        writer.most = 11;
        let mut out = Counted::new(writer);
        let answer = write_listing(b"AB", &mut out);
        assert!(rt; answer.is_err_and(|error| error.kind() == kind));
        assert!(rt; out.into_inner().written.as_slice() == b"0 1 000041\n".as_slice());
    }
}

#[test]
fn what_was_split_is_merged_again(rt: HostRuntime) -> Result<(), Fail> {
    let text = "A\u{e9}\u{20ac}\u{1f4a3}";
    let merged = merge_utf8(rt.alloc(), text.utf8chars().to_bytes())?;
    assert!(rt; merged.iter().copied().eq(text.utf8chars().map(|c| Ok(c))));
    let merged = merge_utf16(rt.alloc(), text.utf16chars().to_units())?;
    assert!(rt; merged.iter().copied().eq(text.utf16chars().map(|c| Ok(c))));
    Ok(())
}

#[test]
fn nothing_to_hold_needs_no_memory(rt: HostRuntime) {
    let budget = Budget::new(rt.alloc(), 0);
    let none: [u8; 0] = [];
    let no_units: [u16; 0] = [];
    assert!(rt; merge_utf8(&budget, none.iter().copied()).is_ok());
    assert!(rt; merge_utf16(&budget, no_units.iter().copied()).is_ok());
    assert!(rt; forward_utf16(&budget, &no_units).is_ok());
    assert!(rt; walk_utf8(&budget, b"a", &[]).is_ok());
    let mut input = Counted::new(Fuse::over(rt.alloc(), &[]));
    let mut out = Counted::new(Fuse::ample(rt.alloc()));
    let answer = recode(&budget, &mut input, &mut out, Form::Utf16Be, Form::Utf8);
    assert!(rt; answer == Ok(()));
}
