//! The survey of bytes, also of bytes in parts, and what they most likely are.
ghost use Rattle.std.specs.Prelude.{◌≡◌, ◌≤◌, [], List, ℕ, length, map, min, take};
ghost use Rattle.surveys.specs.Guesses.{guessed};
ghost use Rattle.surveys.specs.GuessLists.{guesses};
ghost use Rattle.surveys.specs.Surveys.{surveyed};
ghost use Rattle.surveys.specs.SurveyorStates.{IsSurveyor, SurveysOn, foreseen_of_state};
ghost use Rattle.c_api.specs.SurveysForC.{guess_number};

use crate::recodings::{DONE, REFUSED};
use surveys::{Guess, Survey, Surveyor, SurveyorState, guess_of, guesses_of, survey_of};

/// Counts what the bytes have.
#[unsafe(no_mangle)]
pub extern "C" fn nody_survey(bytes: &[u8], survey: &mut Survey)
    ensures { survey.new ≡ surveyed bytes.now }
{
    *survey = survey_of(bytes);
}

/// A surveyor of an input of which nothing was fed.
#[unsafe(no_mangle)]
pub extern "C" fn nody_surveyor() -> SurveyorState
    ensures surveyor { IsSurveyor result }
    ensures surveys { (later : List ℕ) → foreseen_of_state result later ≡ surveyed later }
{
    Surveyor::new().state()
}

/// Counts what the next part has. Returns 0; or 2, with nothing changed, if the struct is not a surveyor.
#[unsafe(no_mangle)]
pub extern "C" fn nody_surveyor_feed(surveyor: &mut SurveyorState, part: &[u8]) -> u8
    ensures surveyor { IsSurveyor surveyor.old → IsSurveyor surveyor.new }
    ensures surveys { IsSurveyor surveyor.old → SurveysOn surveyor.old part.now surveyor.new }
    ensures status { IsSurveyor surveyor.old → result ≡ 0 }
    ensures refused { ¬ IsSurveyor surveyor.old → result ≡ 2 }
    ensures unchanged { result ≡ 2 → surveyor.new ≡ surveyor.old }
{
    if !surveyor.is_surveyor() {
        return REFUSED;
    }
    let mut inner = Surveyor::resumed(surveyor);
    inner.feed(part);
    *surveyor = inner.state();
    DONE
}

/// The survey of what was fed so far. Returns 0; or 2, with the survey of no bytes, if the struct is not a surveyor.
#[unsafe(no_mangle)]
pub extern "C" fn nody_surveyor_survey(surveyor: &SurveyorState, survey: &mut Survey) -> u8
    ensures surveys { IsSurveyor surveyor.now → survey.new ≡ foreseen_of_state surveyor.now [] }
    ensures status { IsSurveyor surveyor.now → result ≡ 0 }
    ensures refused { ¬ IsSurveyor surveyor.now → result ≡ 2 }
    ensures nothing { result ≡ 2 → survey.new ≡ surveyed [] }
{
    if !surveyor.is_surveyor() {
        *survey = survey_of(&[]);
        return REFUSED;
    }
    *survey = Surveyor::resumed(surveyor).survey();
    DONE
}

/// The number of what the surveyed bytes most likely are.
#[unsafe(no_mangle)]
pub extern "C" fn nody_guess(survey: &Survey) -> u8
    ensures { result ≡ guess_number (guessed survey.now) }
{
    number_of_guess(guess_of(survey))
}

/// Writes the numbers of what the surveyed bytes may be, the likeliest first, as many as there is capacity for, and
/// returns how many.
#[unsafe(no_mangle)]
pub extern "C" fn nody_guesses(survey: &Survey, room: &mut [u8]) -> usize
    ensures count { result ≡ min (length room.old) (length (guesses survey.now)) }
    ensures guesses { take result room.new ≡ map guess_number (take result (guesses survey.now)) }
    ensures len { length room.new ≡ length room.old }
{
    let found = guesses_of(survey);
    let found = found.as_slice();
    let count = room.len().min(found.len());
    for i in 0..count {
        room[i] = number_of_guess(found[i]);
    }
    count
}

// The number of a guess.
fn number_of_guess(guess: Guess) -> u8
    ensures { result ≡ guess_number guess }
{
    guess as u8
}
