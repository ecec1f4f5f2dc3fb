//! What an input may be, by its survey: at most three guesses, the likeliest first.

ghost use Rattle.std.specs.Prelude.{◌≡◌, ◌<◌, [], ◌∷◌, ◌++◌, length};
ghost use Rattle.surveys.specs.GuessLists.{guessed_of_8_bits, guessed_of_valid, guesses, may_be_units, only_if, others};

use crate::guesses::{Guess, guess_of, is_elsewhere, is_file, is_in_runs, is_padded};
use crate::survey::Survey;
use crate::unit_counts::UnitCounts;
use std::marker::Model;

/// One to three guesses, the likeliest first. Contracts see them as a list.
#[derive(Debug, Drop)]
pub struct Guesses {
    guesses: [Guess; 3],
    count: usize,
}

impl Model for Guesses {
    ghost use Rattle.std.specs.Prelude.{List, ◌≤◌, take};
    ghost use Rattle.surveys.specs.declared.guesses.Guess.{Guess};

    ghost Value = { List Guess };

    ghost view = { λ g. take g.count g.guesses };

    ghost invariant = { λ g. g.count ≤ 3 };
}

impl Guesses {
    /// The guesses in order.
    pub fn as_slice(&self) -> &[Guess]
        ensures { result.now ≡ self.now }
    {
        &self.guesses[..self.count]
    }

    // One guess.
    fn of(guess: Guess) -> Guesses
        ensures { result ≡ guess ∷ [] }
    {
        Guesses {
            guesses: [guess; 3],
            count: 1,
        }
    }

    // Appends a guess.
    fn push(&mut self, guess: Guess)
        requires { length self.old < 3 }
        ensures { self.new ≡ self.old ++ guess ∷ [] }
    {
        self.guesses[self.count] = guess;
        self.count += 1;
    }

    // Appends a guess if the test passed.
    fn push_if(&mut self, test: bool, guess: Guess)
        requires { length self.old < 3 }
        ensures { self.new ≡ self.old ++ only_if test guess }
    {
        if test {
            self.push(guess);
        }
    }
}

/// What the input may be, by its survey: the best guess is that of [`guess_of`], and the others are what it is if that is wrong.
pub fn guesses_of(survey: &Survey) -> Guesses
    ensures { result ≡ guesses survey.now }
{
    with_others(guess_of(survey), survey)
}

// A guess, and what else the input may be.
fn with_others(best: Guess, survey: &Survey) -> Guesses
    ensures { result ≡ best ∷ others best survey.now }
{
    let mut guesses = Guesses::of(best);
    let utf8 = &survey.utf8;
    match best {
        Guess::Ascii | Guess::Utf8Marked => {}
        Guess::Utf16LeMarked | Guess::Utf16BeMarked | Guess::Utf32 => {}
        Guess::Utf8 => guesses.push_if(3 <= utf8.twice, Guess::Utf8Twice),
        Guess::Utf8Cut => {
            guesses.push(Guess::Utf8Mixed);
            guesses.push(of_8_bits(survey));
        }
        Guess::Utf8Mixed | Guess::Utf8Surrogates => guesses.push(of_8_bits(survey)),
        Guess::Utf8Twice if utf8.faults == 0 => guesses.push(Guess::Utf8),
        Guess::Utf8Twice => guesses.push(Guess::Utf8Mixed),
        Guess::Utf16Le | Guess::Utf16Be => guesses.push(Guess::Binary),
        Guess::Windows1252 => {
            guesses.push(Guess::Other8Bit);
            guesses.push_if(0 < utf8.chars, Guess::Utf8Mixed);
        }
        Guess::Other8Bit => {
            guesses.push_if(utf8.undefined == 0, Guess::Windows1252);
            guesses.push_if(0 < utf8.chars, Guess::Utf8Mixed);
        }
        Guess::Binary if is_file(&survey.front) => {}
        Guess::Binary if is_padded(survey) => guesses.push(of_valid(survey)),
        Guess::Binary => {
            guesses.push_if(may_be_units(&survey.utf16le), Guess::Utf16Le);
            guesses.push_if(may_be_units(&survey.utf16be), Guess::Utf16Be);
        }
    }
    guesses
}

// Which 8-bit encoding it is, if it is one.
fn of_8_bits(survey: &Survey) -> Guess
    ensures { result ≡ guessed_of_8_bits survey.now }
{
    if is_in_runs(survey) || is_elsewhere(survey) {
        Guess::Other8Bit
    } else {
        Guess::Windows1252
    }
}

// Which encoding valid bytes have.
fn of_valid(survey: &Survey) -> Guess
    ensures { result ≡ guessed_of_valid survey.now }
{
    if survey.utf8.chars == 0 {
        Guess::Ascii
    } else {
        Guess::Utf8
    }
}

// Returns true if each unit may occur in text.
fn may_be_units(units: &UnitCounts) -> bool
    ensures { result ≡ may_be_units units.now }
{
    units.stray == 0 && units.unpaired == 0
}
