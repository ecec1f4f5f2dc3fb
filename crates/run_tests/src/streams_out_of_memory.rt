//! Streams that return an error of the kind `OutOfMemory`: they failed, and no allocation did.
use cuts::programs::stops::Stop;
use cuts::{Counted, Form, RecodeFault, recode, run_pieces, run_recode};
use fakes::fuse::{Failure, Fuse, Plan};
use std::alloc::{AllocError, Global};
use std::io::ErrorKind;
use std::test::Fail;

const OUT_OF_MEMORY: Failure = Failure::Error(ErrorKind::OutOfMemory);

// A reader of three bytes that passes some reads and is then out of memory.
fn failing_reader<'a>(alloc: Global, passes: u32) -> Fuse<'a> {
    let mut reader = Fuse::over(alloc, b"abc");
    reader.plan = Plan::fail(passes, OUT_OF_MEMORY);
    reader
}

fn two_forms(alloc: Global) -> Result<Vec<String>, AllocError> {
    let mut args = Vec::new(alloc);
    args.push(String::from_str(alloc, "utf8")?)?;
    args.push(String::from_str(alloc, "utf16le")?)?;
    Ok(args)
}

#[test]
fn a_reader_of_pieces(rt: HostRuntime) {
    for passes in 0..3 {
        let mut input = failing_reader(rt.alloc(), passes);
        let mut out = Counted::new(Fuse::ample(rt.alloc()));
        let answer = run_pieces(rt.alloc(), &[], &mut input, &mut out);
        assert_eq!(rt; answer, Err(Stop::CannotRead));
        assert!(rt; out.into_inner().given.is_empty());
    }
}

#[test]
fn a_counted_reader_of_pieces(rt: HostRuntime) {
    let mut input = Counted::new(failing_reader(rt.alloc(), 1));
    let mut out = Counted::new(Fuse::ample(rt.alloc()));
    let answer = run_pieces(rt.alloc(), &[], &mut input, &mut out);
    assert_eq!(rt; answer, Err(Stop::CannotRead));
    assert_eq!(rt; input.into_inner().given.len(), 2, "it is not asked again");
}

#[test]
fn a_writer_of_pieces(rt: HostRuntime) {
    let mut input = Fuse::over(rt.alloc(), b"abc");
    let mut writer = Fuse::failing(rt.alloc(), 1, OUT_OF_MEMORY);
    writer.most = 11;
    let mut out = Counted::new(writer);
    let answer = run_pieces(rt.alloc(), &[], &mut input, &mut out);
    assert_eq!(rt; answer, Err(Stop::CannotWrite));
}

#[test]
fn a_reader_of_recode(rt: HostRuntime) {
    for passes in 0..3 {
        let mut input = Counted::new(failing_reader(rt.alloc(), passes));
        let mut out = Counted::new(Fuse::ample(rt.alloc()));
        let answer = recode(rt.alloc(), &mut input, &mut out, Form::Utf8, Form::Utf16Le);
        assert_eq!(rt; answer, Err(RecodeFault::Read));
    }
}

#[test]
fn a_writer_of_recode(rt: HostRuntime) {
    let mut input = Counted::new(Fuse::over(rt.alloc(), b"abc"));
    let mut out = Counted::new(Fuse::failing(rt.alloc(), 0, OUT_OF_MEMORY));
    let answer = recode(rt.alloc(), &mut input, &mut out, Form::Utf8, Form::Utf16Le);
    assert_eq!(rt; answer, Err(RecodeFault::Write));
}

#[test]
fn a_run_of_recode(rt: HostRuntime) -> Result<(), Fail> {
    let args = two_forms(rt.alloc())?;
    let mut input = Counted::new(failing_reader(rt.alloc(), 1));
    let mut out = Counted::new(Fuse::ample(rt.alloc()));
    let answer = run_recode(rt.alloc(), &args, &mut input, &mut out);
    assert_eq!(rt; answer, Err(Stop::CannotRead));
    Ok(())
}
