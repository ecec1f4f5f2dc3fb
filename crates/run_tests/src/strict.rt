//! Strict transcoding in packets, and among other calls; the rows of `run_vectors` have whole inputs. Python's decoders give
//! the offsets of first faults, and the README's table the kinds.
use cuts::{Counted, FaultAt, FaultKind, Form, Outcome, Recoder, StrictError, recode_strict};
use encode_unicode::error::Utf8ErrorKind;
use fakes::fuse::{Failure, Fuse, Plan};
use run_examples::strict::{feed_strictly, finish_strictly};
use std::io::ErrorKind;
use std::test::Fail;

const LE: Form = Form::Utf16Le;

const BE: Form = Form::Utf16Be;

fn of_bytes(offset: u64, kind: Utf8ErrorKind) -> Option<(u64, FaultKind)> {
    Some((offset, FaultKind::Utf8(kind)))
}

#[test]
fn a_strict_run_tells_what_failed(rt: HostRuntime) -> Result<(), Fail> {
    let mut reader = Fuse::over(rt.alloc(), b"abc");
    reader.plan = Plan::fail_once(1, ErrorKind::BrokenPipe);
    let mut out = Counted::new(Fuse::ample(rt.alloc()));
    let answer = recode_strict(&mut Counted::new(reader), &mut out, Form::Utf8, LE);
    assert!(rt; answer == Err(StrictError::Read));
    assert!(rt; out.into_inner().written.as_slice() == b"a\0b\0".as_slice());
    let mut input = Counted::new(Fuse::over(rt.alloc(), b"abc"));
    let mut full = Counted::new(Fuse::failing(rt.alloc(), 1, Failure::Nothing));
    let answer = recode_strict(&mut input, &mut full, Form::Utf8, LE);
    assert!(rt; answer == Err(StrictError::Write));
    let fault = FaultAt {
        offset: 7,
        kind: FaultKind::Utf8(Utf8ErrorKind::NonUtf8Byte),
    };
    for (error, text) in [
        (StrictError::Read, "cannot read"),
        (StrictError::Write, "cannot write"),
        (StrictError::Faulty(fault), "invalid input"),
    ] {
        assert!(rt; format!(in rt.alloc(); "{error}")?.as_str() == text);
    }
    Ok(())
}

#[test]
fn packets_carry_text_to_the_first_fault(rt: HostRuntime) -> Result<(), Fail> {
    let mut part = Vec::new(rt.alloc());
    for _ in 0..30 {
        part.extend_from_slice(b"a\xe2\x82\xac")?;
    }
    part.push(b'\xe2')?;
    let mut recoder = Recoder::new(Form::Utf8, BE);
    let mut sent = Vec::new(rt.alloc());
    let mut total = 0;
    assert!(rt; feed_strictly(&mut recoder, &part, &mut total, &mut sent)?.is_none());
    let stop = feed_strictly(&mut recoder, b"ab", &mut total, &mut sent)?;
    assert!(rt; stop == of_bytes(120, Utf8ErrorKind::InterruptedSequence));
    assert!(rt; sent.len() == 120);
    assert!(rt; &sent[..4] == b"\0a\x20\xac".as_slice());
    assert!(rt; finish_strictly(&mut recoder, total, &mut sent)?.is_none());
    assert!(rt; sent.len() == 120);
    Ok(())
}

#[test]
fn an_input_that_ends_inside_a_character_is_faulty(rt: HostRuntime) -> Result<(), Fail> {
    let mut recoder = Recoder::new(Form::Utf8, LE);
    let mut sent = Vec::new(rt.alloc());
    let mut total = 0;
    assert!(rt; feed_strictly(&mut recoder, b"ab\xe2\x82", &mut total, &mut sent)?.is_none());
    let stop = finish_strictly(&mut recoder, total, &mut sent)?;
    assert!(rt; stop == of_bytes(2, Utf8ErrorKind::TooFewBytes));
    assert!(rt; &sent[..] == b"a\0b\0".as_slice());
    Ok(())
}

// After each fault the calls continue, strict and lossy in turn.
#[test]
fn calls_go_on_after_a_fault(rt: HostRuntime) {
    let mut recoder = Recoder::new(Form::Utf8, Form::Utf8);
    let mut room = [0; 64];
    let did = recoder.feed_into(b"a\xe2\x82", &mut room);
    assert!(rt; did.read == 3 && did.written == 1);
    let did = recoder.feed_strict_into(b"bc", &mut room);
    let kind = FaultKind::Utf8(Utf8ErrorKind::InterruptedSequence);
    assert!(rt; did.read == 0 && did.written == 0 && recoder.held() == b"\x82".as_slice());
    assert!(rt;
        matches!(did.outcome, Outcome::Faulty(fault) if fault.kind == kind && fault.len == 1 && fault.back == 2)
    );
    let did = recoder.feed_strict_into(b"bc", &mut room);
    let kind = FaultKind::Utf8(Utf8ErrorKind::UnexpectedContinuationByte);
    assert!(rt; did.read == 0 && did.written == 0 && recoder.held().is_empty());
    assert!(rt;
        matches!(did.outcome, Outcome::Faulty(fault) if fault.kind == kind && fault.len == 1 && fault.back == 1)
    );
    let did = recoder.feed_strict_into(b"bc\xe9\n", &mut room);
    assert!(rt;
        did.read == 4 && did.outcome == Outcome::AllRead && room[..did.written] == b"bc"[..]
    );
    let did = recoder.feed_into(b"d", &mut room);
    assert!(rt; did.read == 1 && room[..did.written] == b"\xef\xbf\xbd\nd"[..]);
    assert!(rt; recoder.finish_strict_into(&mut room).outcome == Outcome::AllRead);
}
