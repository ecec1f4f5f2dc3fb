//! Methods of slices.
ghost use Rattle.std.specs.Prelude.{◌≡◌, length, List, ℕ};
ghost use Rattle.std.specs.Iterator.Runs.{AllItems, EachRunFrom, EveryRun};
ghost use Rattle.utf_base.specs.Code.{utf8, utf16};
ghost use Rattle.encode_unicode.specs.BackPieces.{pieces_back_left, unit_pieces_back_left};
ghost use Rattle.encode_unicode.specs.Pieces.{GaveAll, GiveAtMost, Gives, LeavesBack, LeavesFront, LiesInWindow, LiesWithin, pieces, pieces_left, unit_pieces, unit_pieces_left};
ghost use Rattle.encode_unicode.specs.Sources.{IsListed};
ghost use Rattle.encode_unicode.specs.Window.{whole_window, HasCode, NextGives, NextGivesUnits, NextBackGives, NextBackGivesUnits};

use crate::decoding_iterators::Utf8CharDecoder;
use crate::utf16_decoder::Utf16CharDecoder;

/// Methods of `&[u8]`. What they make borrows the slice for its whole life.
pub trait U8SliceExt<'a>: Sized {
    // The bytes.
    ghost bytes: { Self → List ℕ };

    /// The characters and the invalid bytes: (offset, character or error, length in bytes).
    fn utf8char_indices(self) -> Utf8CharDecoder<'a>
        ensures window { result ≡ whole_window (bytes self) }
        ensures runs { EveryRun NextGives (λ p. Gives p (pieces_left p.from)) }
        ensures runs_back { EveryRun NextBackGives (λ p. Gives p (pieces_back_left p.from)) }
        ensures listed { IsListed NextGives pieces_left }
        ensures gave { GaveAll NextGives result (pieces (bytes self)) }
        ensures few { GiveAtMost NextGives result (length (bytes self)) }
        ensures places { EachRunFrom NextGives result
            (λ p. AllItems p (LiesWithin 4 (length (bytes self)))) }
        ensures places_on { EveryRun NextGives (λ p. AllItems p (LiesInWindow 4 p.from)) }
        ensures places_back { EachRunFrom NextBackGives result
            (λ p. AllItems p (LiesWithin 4 (length (bytes self)))) }
        ensures places_back_on { EveryRun NextBackGives (λ p. AllItems p (LiesInWindow 4 p.from)) }
        ensures moves { LeavesBack NextGives }
        ensures moves_back { LeavesFront NextBackGives }
        ensures codes { EachRunFrom NextGives result (λ p. AllItems p (HasCode utf8 (bytes self))) }
        ensures codes_back { EachRunFrom NextBackGives result
            (λ p. AllItems p (HasCode utf8 (bytes self))) };
}

impl<'a> U8SliceExt<'a> for &'a [u8] {
    ghost bytes = { λ slice. slice.now };

    #[inline]
    #[tactic(auto, using(crate::proofs::PieceRuns::decoder_listed, crate::proofs::SeenRuns::pieces_few, crate::proofs::PieceRuns::decoder_places, crate::proofs::PieceRuns::decoder_places_on, crate::proofs::PieceRuns::decoder_places_back, crate::proofs::PieceRuns::decoder_places_back_on, crate::proofs::PieceRuns::decoder_codes, crate::proofs::PieceRuns::decoder_codes_back, crate::proofs::PlaceRuns::decoder_leaves_back, crate::proofs::PlaceRuns::decoder_leaves_front))]
    fn utf8char_indices(self) -> Utf8CharDecoder<'a> {
        Utf8CharDecoder::from(self)
    }
}

/// Methods of `&[u16]`. What they make borrows the slice for its whole life.
pub trait U16SliceExt<'a>: Sized {
    // The units.
    ghost units: { Self → List ℕ };

    /// The characters and the lone surrogates: (offset, character or error, length in units).
    fn utf16char_indices(self) -> Utf16CharDecoder<'a>
        ensures window { result ≡ whole_window (units self) }
        ensures runs { EveryRun NextGivesUnits (λ p. Gives p (unit_pieces_left p.from)) }
        ensures runs_back { EveryRun NextBackGivesUnits (λ p. Gives p (unit_pieces_back_left p.from)) }
        ensures listed { IsListed NextGivesUnits unit_pieces_left }
        ensures gave { GaveAll NextGivesUnits result (unit_pieces (units self)) }
        ensures few { GiveAtMost NextGivesUnits result (length (units self)) }
        ensures places { EachRunFrom NextGivesUnits result
            (λ p. AllItems p (LiesWithin 2 (length (units self)))) }
        ensures places_on { EveryRun NextGivesUnits (λ p. AllItems p (LiesInWindow 2 p.from)) }
        ensures places_back { EachRunFrom NextBackGivesUnits result
            (λ p. AllItems p (LiesWithin 2 (length (units self)))) }
        ensures places_back_on { EveryRun NextBackGivesUnits (λ p. AllItems p (LiesInWindow 2 p.from)) }
        ensures moves { LeavesBack NextGivesUnits }
        ensures moves_back { LeavesFront NextBackGivesUnits }
        ensures codes { EachRunFrom NextGivesUnits result (λ p. AllItems p (HasCode utf16 (units self))) }
        ensures codes_back { EachRunFrom NextBackGivesUnits result
            (λ p. AllItems p (HasCode utf16 (units self))) };
}

impl<'a> U16SliceExt<'a> for &'a [u16] {
    ghost units = { λ slice. slice.now };

    #[inline]
    #[tactic(auto, using(crate::proofs::PieceRuns::unit_decoder_listed, crate::proofs::SeenRuns::unit_pieces_few, crate::proofs::PieceRuns::unit_decoder_places, crate::proofs::PieceRuns::unit_decoder_places_on, crate::proofs::PieceRuns::unit_decoder_places_back, crate::proofs::PieceRuns::unit_decoder_places_back_on, crate::proofs::PieceRuns::unit_decoder_codes, crate::proofs::PieceRuns::unit_decoder_codes_back, crate::proofs::PlaceRuns::unit_decoder_leaves_back, crate::proofs::PlaceRuns::unit_decoder_leaves_front))]
    fn utf16char_indices(self) -> Utf16CharDecoder<'a> {
        Utf16CharDecoder::from(self)
    }
}
