//! Callers of `encode_unicode`, proved only from its contracts.
#![tactic(auto)]

ghost use Rattle.std.specs.Prelude.{◌≡◌, [], MatchOption};
ghost use Rattle.examples.specs.Initials.{IsInitial};

use encode_unicode::Utf8Char;

pub mod alike;
pub mod asked;
pub mod backward;
pub mod cases;
pub mod chains;
pub mod codes;
pub mod damage;
pub mod lengths;
pub mod loops;
pub mod merged;
pub mod merges;
pub mod names;
pub mod needles;
pub mod opened;
pub mod recoders;
pub mod records;
pub mod sources;
pub mod tables;
pub mod texts;
pub mod tokens;
pub mod unchecked;

/// The first character of a text, in upper case if it is an ASCII letter.
pub fn initial(text: &str) -> Option<Utf8Char>
    ensures { MatchOption result (text.now ≡ []) (IsInitial text.now) }
{
    let (first, _) = Utf8Char::from_str_start(text).ok()?;
    Some(first.to_ascii_uppercase())
}
