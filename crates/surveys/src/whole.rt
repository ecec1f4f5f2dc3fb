//! The survey of bytes that are all at hand.
ghost use Rattle.std.specs.Prelude.{◌≡◌};
ghost use Rattle.surveys.specs.Surveys.{surveyed};

use crate::survey::{Survey, Surveyor};

/// The survey of some bytes.
///
/// Cost: O(n).
pub fn survey_of(bytes: &[u8]) -> Survey
    ensures { result ≡ surveyed bytes.now }
{
    let mut surveyor = Surveyor::new();
    surveyor.feed(bytes);
    surveyor.survey()
}
