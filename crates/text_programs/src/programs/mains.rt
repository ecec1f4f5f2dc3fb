//! The programs `pieces` and `recode`, over any streams: the whole `main` of each.
ghost use Rattle.std.specs.Prelude.{◌≡◌, ◌≢◌, ◌<◌, ◌≤◌, [], ◌∷◌, ℕ, List, IsTrue, codes, map, drop, string_bytes, IfOk, IfErr, IsOkAnd};
ghost use Rattle.std.specs.IoError.{error_kind};
ghost use Rattle.text_programs.specs.Arguments.{Asked, HaveArguments, WordsAsk, WordsAreWrong, AreNotHad, WordsAskForms, WordsNameNoForms};
ghost use Rattle.text_programs.specs.Endings.{TellsAsked, BeginsAsked, ReadsAll, ReadsUntil, CountsAll, CountsUntil, FlushFailsOrStays, FailsOrIsQuiet, Says, EndsEarly};
ghost use Rattle.text_runs.specs.Failures.{Known, Pipes, NoReadAfterEnd};
ghost use Rattle.text_programs.specs.RecodeStream.{WritesRecoded, BeginsRecoded};
ghost use Rattle.text_programs.specs.Writes.{IsFlushed};

use crate::programs::pieces_program::run_pieces;
use crate::programs::recode_program::run_recode;
use crate::programs::stops::Stop;
use recoding::form::Form;
use std::alloc::Allocator;
use std::env::Env;
use std::io::{ErrorKind, Read, Write};
use std::{env, io};
use text_runs::counted::Counted;
use text_runs::streams::{Sink, Source};

/// What a program reads from and writes to.
#[derive(Drop)]
pub struct Streams<R, W, E> {
    /// Its input.
    pub input: R,
    /// Its output.
    pub out: Counted<W>,
    /// What takes the line that says why it ended early.
    pub stderr: E,
}

/// Runs the program `pieces` over the words that it was started with and over its streams, and returns its
/// status.
///
/// It is `run_pieces` on the arguments among the words. The status is 0 if no line is an error line, and 1 if
/// one is; 2 if the arguments are invalid; and 3 if reading, writing, flushing or allocation fails. `stderr`
/// takes the line that says so, and nothing if the status is 0 or 1. An error in place of the words, other
/// than `InvalidData`, is taken as a failed allocation.
///
/// Cost: O(n), allocates for the whole input.
pub fn pieces<A: Allocator + Copy, R: Source, W: Write, E: Sink>(
    alloc: A,
    words: io::Result<Vec<String<A>, A>>,
    streams: &mut Streams<R, W, E>,
) -> u8
    ensures lines { (asked : Asked) → WordsAsk words asked → result < 2 → Known W.contents
        (TellsAsked asked (R.remaining streams.old.input)) streams.old.out streams.new.out result }
    ensures front { (asked : Asked) → WordsAsk words asked → Known W.contents
        (BeginsAsked asked (R.remaining streams.old.input)) streams.old.out streams.new.out }
    ensures reads { result < 2 → ReadsAll R.Source streams.old.input streams.new.input }
    ensures in_time { IsTrue R.is_counted →
        NoReadAfterEnd (R.reads streams.old.input) (R.reads streams.new.input) }
    ensures flushed { result < 2 → IsFlushed streams.old.out streams.new.out }
    ensures silent { result < 2 → streams.new.stderr ≡ streams.old.stderr }
    ensures early { 2 ≤ result → EndsEarly (codes "pieces")
        (ReadsUntil R.Source streams.old.input streams.new.input)
        (FlushFailsOrStays streams.old.out streams.new.out)
        (Says E.Sink streams.old.stderr streams.new.stderr) result }
    ensures wrong { WordsAreWrong words → (2 ≤ result) ×
        (streams.new.input ≡ streams.old.input) × (streams.new.out ≡ streams.old.out) }
    ensures right { (asked : Asked) → WordsAsk words asked → result ≢ 2 }
    ensures not_had { AreNotHad words → (result ≡ 3) ×
        (streams.new.input ≡ streams.old.input) × (streams.new.out ≡ streams.old.out) }
    ensures known { result < 4 }
{
    let Ok(args) = arguments_of(alloc, words) else {
        return Stop::NoMemory.report("pieces", &mut streams.stderr);
    };
    match run_pieces(alloc, args.as_slice(), &mut streams.input, &mut streams.out) {
        Ok(0) => 0,
        Ok(_) => 1,
        Err(stop) => stop.report("pieces", &mut streams.stderr),
    }
}

/// Runs the program `recode` over the words that it was started with and over its streams, and returns its
/// status.
///
/// It is `run_recode` on the arguments among the words. The status is 0, whatever was replaced; 2 if the
/// arguments are invalid; and 3 if reading, writing or allocation fails. `stderr` takes the line that says
/// so, and nothing if the status is 0. An error in place of the words, other than `InvalidData`, is taken as
/// a failed allocation.
///
/// Cost: O(n), allocates an amount that does not grow with the input.
pub fn recode<A: Allocator + Copy, R: Read, W: Write, E: Sink>(
    alloc: A,
    words: io::Result<Vec<String<A>, A>>,
    streams: &mut Streams<Counted<R>, W, E>,
) -> u8
    ensures recoded { (from to : Form) → WordsAskForms words from to → result ≡ 0 → Known W.contents
        (WritesRecoded from to (R.remaining streams.old.input.inner)) streams.old.out streams.new.out }
    ensures front { (from to : Form) → WordsAskForms words from to →
        Pipes R.remaining W.contents (BeginsRecoded from to)
        streams.old.input streams.new.input streams.old.out streams.new.out }
    ensures reads { result ≡ 0 → CountsAll R.remaining streams.old.input streams.new.input }
    ensures in_time { NoReadAfterEnd streams.old.input.reads streams.new.input.reads }
    ensures quiet { result ≡ 0 → streams.new.out.failures ≡ streams.old.out.failures }
    ensures silent { result ≡ 0 → streams.new.stderr ≡ streams.old.stderr }
    ensures early { 0 < result → EndsEarly (codes "recode")
        (CountsUntil R.remaining streams.old.input streams.new.input)
        (FailsOrIsQuiet streams.old.out streams.new.out)
        (Says E.Sink streams.old.stderr streams.new.stderr) result }
    ensures other_calls { streams.new.out.other_calls ≡ streams.old.out.other_calls }
    ensures wrong { WordsNameNoForms words → (2 ≤ result) ×
        (streams.new.input ≡ streams.old.input) × (streams.new.out ≡ streams.old.out) }
    ensures right { (from to : Form) → WordsAskForms words from to → result ≢ 2 }
    ensures not_had { AreNotHad words → (result ≡ 3) ×
        (streams.new.input ≡ streams.old.input) × (streams.new.out ≡ streams.old.out) }
    ensures known { result < 4 }
{
    let Ok(args) = arguments_of(alloc, words) else {
        return Stop::NoMemory.report("recode", &mut streams.stderr);
    };
    match run_recode(alloc, args.as_slice(), &mut streams.input, &mut streams.out) {
        Ok(()) => 0,
        Err(stop) => stop.report("recode", &mut streams.stderr),
    }
}

/// The words that a program was started with, its name the first. One that is not UTF-8 is an error
/// of the kind `InvalidData`.
///
/// Cost: O(n), allocates.
pub fn words<R: Env + AllocGlobal>(rt: &R) -> io::Result<Vec<String>> {
    Ok(env::args(rt)?.collect(rt.alloc())?)
}

/// The arguments after the program's name, out of all its words.
///
/// If a word is not UTF-8, `words` is an error of the kind `InvalidData`, and the result is one empty text in
/// place of all arguments. Any other error says that an allocation failed.
///
/// Cost: O(n) in the number of words, allocates one text if a word is not UTF-8.
pub fn arguments_of<A: Allocator + Copy>(
    alloc: A,
    words: io::Result<Vec<String<A>, A>>,
) -> Result<Vec<String<A>, A>, Stop>
    ensures after_the_name { IfOk words (λ all. IsOkAnd result (λ args. args.items ≡ drop 1 all.items)) }
    ensures no_text { IfErr words (λ error. error_kind error ≡ ErrorKind.InvalidData →
        IfOk result (λ args. map string_bytes args.items ≡ [] ∷ [])) }
    ensures refused { AreNotHad words → result ≡ Err Stop.NoMemory }
    ensures err { IfErr result (λ stop. stop ≡ Stop.NoMemory) }
    ensures given { (args : List (List ℕ)) → HaveArguments words args →
        IfOk result (λ given. map string_bytes given.items ≡ args) }
{
    match words {
        Ok(mut words) => {
            if !words.is_empty() {
                words.remove(0);
            }
            Ok(words)
        }
        Err(error) if error.kind() == ErrorKind::InvalidData => {
            let mut args = Vec::new(alloc);
            match args.push(String::new(alloc)) {
                Ok(()) => Ok(args),
                Err(_) => Err(Stop::NoMemory),
            }
        }
        Err(_) => Err(Stop::NoMemory),
    }
}
