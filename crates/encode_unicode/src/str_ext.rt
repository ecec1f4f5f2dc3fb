//! Methods of texts.
ghost use Rattle.std.specs.Prelude.{◌≡◌, length, List, ℕ};
ghost use Rattle.std.specs.Str.{chars};
ghost use Rattle.std.specs.Iterator.Runs.{AllItems, EachRunFrom, EveryRun};
ghost use Rattle.utf_base.specs.Code.{utf8, utf16};
ghost use Rattle.encode_unicode.specs.Pieces.{GaveAll, GiveAtMost, Gives, GivesReversed, LeavesBack, LeavesFront, LengthsFit, LiesInText, LiesInTextWindow, StandAfterChars, chars_left, placed_chars, placed_chars_left};
ghost use Rattle.encode_unicode.specs.Sources.{IsListed, IsListedBack};
ghost use Rattle.encode_unicode.specs.TextWindow.{BackPlaced, BackScalar, NextPlaced, NextScalar};
ghost use Rattle.encode_unicode.specs.Window.{whole_window};

use crate::utf8_iterators::{Utf8CharIndices, Utf8Chars};
use crate::utf16_iterators::{Utf16CharIndices, Utf16Chars};

/// Methods of `&str`. What they make borrows the text for its whole life.
pub trait StrExt<'a>: Sized {
    // The bytes of the text.
    ghost text: { Self → List ℕ };

    /// The characters, kept as UTF-8.
    fn utf8chars(self) -> Utf8Chars<'a>
        ensures window { result ≡ whole_window (text self) }
        ensures left { chars_left result ≡ chars (text self) }
        ensures runs { EveryRun NextScalar (λ p. Gives p (chars_left p.from)) }
        ensures runs_back { EveryRun BackScalar (λ p. GivesReversed p (chars_left p.from)) }
        ensures listed { IsListed NextScalar chars_left }
        ensures listed_back { IsListedBack BackScalar chars_left }
        ensures gave { GaveAll NextScalar result (chars (text self)) }
        ensures few { GiveAtMost NextScalar result (length (text self)) }
        ensures lengths { EachRunFrom NextScalar result (LengthsFit utf8 (length (text self))) };

    /// The characters, kept as UTF-16.
    fn utf16chars(self) -> Utf16Chars<'a>
        ensures window { result ≡ whole_window (text self) }
        ensures left { chars_left result ≡ chars (text self) }
        ensures runs { EveryRun NextScalar (λ p. Gives p (chars_left p.from)) }
        ensures runs_back { EveryRun BackScalar (λ p. GivesReversed p (chars_left p.from)) }
        ensures listed { IsListed NextScalar chars_left }
        ensures listed_back { IsListedBack BackScalar chars_left }
        ensures gave { GaveAll NextScalar result (chars (text self)) }
        ensures few { GiveAtMost NextScalar result (length (text self)) }
        ensures lengths { EachRunFrom NextScalar result (LengthsFit utf16 (length (text self))) };

    /// The characters, kept as UTF-8, each with its offset: (offset in bytes, character).
    fn utf8char_indices(self) -> Utf8CharIndices<'a>
        ensures window { result ≡ whole_window (text self) }
        ensures left { placed_chars_left result ≡ placed_chars 0 (chars (text self)) }
        ensures runs { EveryRun NextPlaced (λ p. Gives p (placed_chars_left p.from)) }
        ensures runs_back { EveryRun BackPlaced (λ p. GivesReversed p (placed_chars_left p.from)) }
        ensures listed { IsListed NextPlaced placed_chars_left }
        ensures listed_back { IsListedBack BackPlaced placed_chars_left }
        ensures gave { GaveAll NextPlaced result (placed_chars 0 (chars (text self))) }
        ensures few { GiveAtMost NextPlaced result (length (text self)) }
        ensures places { EachRunFrom NextPlaced result (λ p. AllItems p (LiesInText (text self))) }
        ensures places_on { EveryRun NextPlaced (λ p. AllItems p (LiesInTextWindow p.from)) }
        ensures places_back { EachRunFrom BackPlaced result (λ p. AllItems p (LiesInText (text self))) }
        ensures places_back_on { EveryRun BackPlaced (λ p. AllItems p (LiesInTextWindow p.from)) }
        ensures moves { LeavesBack NextPlaced }
        ensures moves_back { LeavesFront BackPlaced }
        ensures after { EachRunFrom NextPlaced result (StandAfterChars (text self)) };

    /// The characters, kept as UTF-16, each with its offset: (offset in bytes, character).
    fn utf16char_indices(self) -> Utf16CharIndices<'a>
        ensures window { result ≡ whole_window (text self) }
        ensures left { placed_chars_left result ≡ placed_chars 0 (chars (text self)) }
        ensures runs { EveryRun NextPlaced (λ p. Gives p (placed_chars_left p.from)) }
        ensures runs_back { EveryRun BackPlaced (λ p. GivesReversed p (placed_chars_left p.from)) }
        ensures listed { IsListed NextPlaced placed_chars_left }
        ensures listed_back { IsListedBack BackPlaced placed_chars_left }
        ensures gave { GaveAll NextPlaced result (placed_chars 0 (chars (text self))) }
        ensures few { GiveAtMost NextPlaced result (length (text self)) }
        ensures places { EachRunFrom NextPlaced result (λ p. AllItems p (LiesInText (text self))) }
        ensures places_on { EveryRun NextPlaced (λ p. AllItems p (LiesInTextWindow p.from)) }
        ensures places_back { EachRunFrom BackPlaced result (λ p. AllItems p (LiesInText (text self))) }
        ensures places_back_on { EveryRun BackPlaced (λ p. AllItems p (LiesInTextWindow p.from)) }
        ensures moves { LeavesBack NextPlaced }
        ensures moves_back { LeavesFront BackPlaced }
        ensures after { EachRunFrom NextPlaced result (StandAfterChars (text self)) };
}

impl<'a> StrExt<'a> for &'a str {
    ghost text = { λ text. text.now };

    #[inline]
    #[tactic(auto, using(crate::proofs::PieceRuns::chars_of_text, crate::proofs::PieceRuns::scalars_listed, crate::proofs::PieceRuns::scalars_listed_back, crate::proofs::SeenRuns::chars_few, crate::proofs::PieceRuns::codes_fit))]
    fn utf8chars(self) -> Utf8Chars<'a> {
        Utf8Chars::from(self)
    }

    #[inline]
    #[tactic(auto, using(crate::proofs::PieceRuns::chars_of_text, crate::proofs::PieceRuns::scalars_listed, crate::proofs::PieceRuns::scalars_listed_back, crate::proofs::SeenRuns::chars_few, crate::proofs::PieceRuns::units_fit))]
    fn utf16chars(self) -> Utf16Chars<'a> {
        Utf16Chars::from(self)
    }

    #[inline]
    #[tactic(auto, using(crate::proofs::PieceRuns::chars_of_text, crate::proofs::PieceRuns::placed_listed, crate::proofs::PieceRuns::placed_listed_back, crate::proofs::SeenRuns::placed_few, crate::proofs::PieceRuns::text_places, crate::proofs::PieceRuns::text_places_on, crate::proofs::PieceRuns::text_places_back, crate::proofs::PieceRuns::text_places_back_on, crate::proofs::PlaceRuns::text_leaves_back, crate::proofs::PlaceRuns::text_leaves_front, crate::proofs::PlaceRuns::text_stands_after))]
    fn utf8char_indices(self) -> Utf8CharIndices<'a> {
        Utf8CharIndices::from(self)
    }

    #[inline]
    #[tactic(auto, using(crate::proofs::PieceRuns::chars_of_text, crate::proofs::PieceRuns::placed_listed, crate::proofs::PieceRuns::placed_listed_back, crate::proofs::SeenRuns::placed_few, crate::proofs::PieceRuns::text_places, crate::proofs::PieceRuns::text_places_on, crate::proofs::PieceRuns::text_places_back, crate::proofs::PieceRuns::text_places_back_on, crate::proofs::PlaceRuns::text_leaves_back, crate::proofs::PlaceRuns::text_leaves_front, crate::proofs::PlaceRuns::text_stands_after))]
    fn utf16char_indices(self) -> Utf16CharIndices<'a> {
        Utf16CharIndices::from(self)
    }
}
