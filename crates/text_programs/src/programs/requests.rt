//! The requests that the arguments of `pieces` make.
ghost use Rattle.std.specs.Prelude.{◌≡◌, ◌↔◌, IsTrue, [], ◌∷◌, map, codes, string_bytes, Contains, IfOk, IfErr};
ghost use Rattle.text_programs.specs.Arguments.{letter, AreLetters, Asks, AreWrong, asked_in};

use crate::programs::stops::Stop;
use std::alloc::{AllocError, Allocator};
use text_runs::runs::items::End;

/// The request of a run of `pieces`.
#[derive(Drop)]
pub(crate) enum Request<A: Allocator> {
    /// List the pieces.
    Listing,
    /// List the results of a merger.
    Merged,
    /// List the results of the walk of this word.
    Walk(Vec<End, A>),
}

/// The request that the arguments make: the listing with no argument, `--merge` as the only one, or `--ends`
/// and a word.
///
/// All other arguments are invalid, and nothing is allocated before that is known.
pub(crate) fn request_of<A: Allocator + Copy>(
    alloc: A,
    args: &[String<A>],
) -> Result<Request<A>, Stop>
    ensures asked { IfOk result (λ request. Asks (map string_bytes args.now) (asked_in request)) }
    ensures wrong { AreWrong (map string_bytes args.now) → result ≡ Err Stop.WrongArguments }
    ensures right { result ≡ Err Stop.WrongArguments → AreWrong (map string_bytes args.now) }
    ensures err { IfErr result (λ stop. Contains (Stop.WrongArguments ∷ Stop.NoMemory ∷ []) stop) }
{
    match args {
        [] => Ok(Request::Listing),
        [option] => {
            if is_text(option, "--merge") {
                Ok(Request::Merged)
            } else {
                Err(Stop::WrongArguments)
            }
        }
        [option, word] => {
            if asks_walk(option, word) {
                match ends_of(alloc, word.as_bytes()) {
                    Ok(word) => Ok(Request::Walk(word)),
                    Err(_) => Err(Stop::NoMemory),
                }
            } else {
                Err(Stop::WrongArguments)
            }
        }
        _ => Err(Stop::WrongArguments),
    }
}

// Returns true if the two arguments request the walk of a word.
fn asks_walk<A: Allocator>(option: &String<A>, word: &String<A>) -> bool
    ensures { IsTrue result ↔ ((string_bytes option.now ≡ codes "--ends") ×
        AreLetters (string_bytes word.now)) }
{
    is_text(option, "--ends") && is_word(word.as_bytes())
}

// Returns true if the argument is this text.
fn is_text<A: Allocator>(arg: &String<A>, text: &str) -> bool
    ensures { IsTrue result ↔ (string_bytes arg.now ≡ text.now) }
{
    arg.as_str() == text
}

// Returns true if all letters are `F` or `B`.
fn is_word(letters: &[u8]) -> bool
    ensures { IsTrue result ↔ AreLetters letters.now }
{
    !letters.is_empty()
        && letters
            .iter()
            .all(|letter| *letter == b'F' || *letter == b'B')
}

// The ends that the letters of a word name.
fn ends_of<A: Allocator>(alloc: A, letters: &[u8]) -> Result<Vec<End, A>, AllocError>
    requires { AreLetters letters.now }
    ensures { IfOk result (λ word. map letter word.items ≡ letters.now) }
{
    let mut word = Vec::new(alloc);
    for letter in letters {
        word.push(if *letter == b'F' {
            End::Front
        } else {
            End::Back
        })?;
    }
    Ok(word)
}
