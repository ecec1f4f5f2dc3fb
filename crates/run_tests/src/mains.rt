//! The programs over arguments and streams, and arguments that cannot be read.
use crate::programs::words_of;
use cuts::Counted;
use cuts::programs::mains::{Streams, pieces, recode, words};
use fakes::fuse::Fuse;
use std::alloc::Global;
use std::env::{Env, FillError};
use std::io;
use std::io::ErrorKind;
use std::test::Fail;

// The arguments that a program was started with.
#[derive(Drop)]
struct Started {
    words: &'static [&'static [u8]],
}

impl Env for Started {
    fn arg(&self, i: usize, buf: &mut [u8]) -> Result<usize, FillError> {
        let Some(word) = self.words.get(i) else {
            return Err(FillError::NotPresent);
        };
        if buf.len() < word.len() {
            return Err(FillError::TooLong);
        }
        buf[..word.len()].copy_from_slice(word);
        Ok(word.len())
    }

    fn var(&self, _name: &str, _buf: &mut [u8]) -> Result<usize, FillError> {
        Err(FillError::NotPresent)
    }

    fn var_at(&self, _i: usize, _buf: &mut [u8]) -> Result<usize, FillError> {
        Err(FillError::NotPresent)
    }
}

// Streams with ample writers.
fn streams_of<'a, R>(alloc: Global, input: R) -> Streams<R, Fuse<'a>, Fuse<'a>> {
    Streams {
        input,
        out: Counted::new(Fuse::ample(alloc)),
        stderr: Fuse::ample(alloc),
    }
}

#[test]
fn words_are_those_of_the_start(rt: HostRuntime) -> Result<(), Fail> {
    let started = Started {
        words: &[b"pieces", b"", b"\xc3\xa9"],
    };
    let expected = words_of(rt.alloc(), "pieces,,\u{e9},")?;
    assert!(rt; words(&(started, rt.alloc()))? == expected);
    let started = Started {
        words: &[b"pieces", b"\xff"],
    };
    let answer = words(&(started, rt.alloc()));
    assert!(rt; answer.is_err_and(|error| error.kind() == ErrorKind::InvalidData));
    Ok(())
}

#[test]
fn pieces_runs_on_its_words(rt: HostRuntime) -> Result<(), Fail> {
    for (texts, status, output, said) in [
        ("pieces,", 0, "0 1 000041\n", ""),
        ("pieces,--merge,", 0, "000041\n", ""),
        ("pieces,--merge,x,", 2, "", "pieces: wrong arguments\n"),
    ] {
        let mut streams = streams_of(rt.alloc(), Fuse::over(rt.alloc(), b"A"));
        let words = Ok(words_of(rt.alloc(), texts)?);
        assert!(rt; pieces(rt.alloc(), words, &mut streams) == status);
        let Streams {
            input: _,
            out,
            stderr,
        } = streams;
        assert!(rt; out.into_inner().written.as_slice() == output.as_bytes());
        assert!(rt; stderr.written.as_slice() == said.as_bytes());
    }
    Ok(())
}

#[test]
fn recode_runs_on_its_words(rt: HostRuntime) -> Result<(), Fail> {
    let texts: [(&str, u8, &[u8], &str); 3] = [
        ("recode,utf16le,utf8,", 0, b"\xc3\xa9", ""),
        ("recode,utf16be,utf8,", 0, b"\xee\xa4\x80", ""),
        (
            "recode,utf8,utf8,utf8,",
            2,
            b"",
            "recode: wrong arguments\n",
        ),
    ];
    for (texts, status, output, said) in texts {
        let input = Counted::new(Fuse::over(rt.alloc(), b"\xe9\0"));
        let mut streams = streams_of(rt.alloc(), input);
        let words = Ok(words_of(rt.alloc(), texts)?);
        assert!(rt; recode(rt.alloc(), words, &mut streams) == status);
        let Streams {
            input: _,
            out,
            stderr,
        } = streams;
        assert!(rt; out.into_inner().written.as_slice() == output);
        assert!(rt; stderr.written.as_slice() == said.as_bytes());
    }
    Ok(())
}

#[test]
fn words_that_cannot_be_had_end_pieces(rt: HostRuntime) {
    let mut streams = streams_of(rt.alloc(), Fuse::over(rt.alloc(), b"A"));
    let words = Err(io::Error::from(ErrorKind::OutOfMemory));
    assert!(rt; pieces(rt.alloc(), words, &mut streams) == 3);
    let Streams { input, out, stderr } = streams;
    assert!(rt; input.given.is_empty() && out.into_inner().given.is_empty());
    assert!(rt; stderr.written.as_slice() == b"pieces: no memory\n".as_slice());
}

#[test]
fn words_that_cannot_be_had_end_recode(rt: HostRuntime) {
    let mut streams = streams_of(rt.alloc(), Counted::new(Fuse::over(rt.alloc(), b"A")));
    let words = Err(io::Error::from(ErrorKind::OutOfMemory));
    assert!(rt; recode(rt.alloc(), words, &mut streams) == 3);
    let Streams { input, out, stderr } = streams;
    assert!(rt; input.into_inner().given.is_empty() && out.into_inner().given.is_empty());
    assert!(rt; stderr.written.as_slice() == b"recode: no memory\n".as_slice());
}
