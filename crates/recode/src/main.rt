//! Transcodes standard input from one encoding into another, of UTF-8, UTF-16LE and UTF-16BE, with one U+FFFD
//! for each fault.
#![tactic(auto)]

use cuts::Counted;
use cuts::programs::mains::{Streams, recode, words};
use std::io;
use std::process::ExitCode;

// One run over the standard streams.
fn main(rt: HostRuntime) -> ExitCode {
    let mut streams = Streams {
        input: Counted::new(rt.stdin()),
        out: Counted::new(io::writer(&rt)),
        stderr: Counted::new(rt.stderr()),
    };
    ExitCode::from(recode(rt.alloc(), words(&rt), &mut streams))
}
