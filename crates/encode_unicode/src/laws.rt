//! The laws of codes, pieces and errors, each the contract of a function that does nothing. Call the one that
//! your proof needs.
ghost use Rattle.std.specs.Iterator.Runs.{EveryRun};
ghost use Rattle.std.specs.Prelude.{ℕ, ◌≡◌, ◌+◌, ◌-◌, ◌*◌, ◌<◌, ◌≤◌, Contains, count_by, length, nat_eq};
ghost use Rattle.utf_base.specs.Code.{utf8, utf16};
ghost use Rattle.utf_base.specs.Piece.{Inside, IsPiece};
ghost use Rattle.encode_unicode.specs.AsciiBytes.{IsAsciiAt, ascii_item, ascii_piece};
ghost use Rattle.encode_unicode.specs.GivenBounds.{NoMoreGiven, NoLongerGiven};
ghost use Rattle.encode_unicode.specs.Mergers.{MergedCharacters, MergedUnitCharacters};
ghost use Rattle.encode_unicode.specs.Pieces.{CodesAreTheText, PiecesFit, characters, pieces, unit_pieces};
ghost use Rattle.encode_unicode.specs.Window.{NextGives, NextGivesUnits};

pub use utf_base::laws::{
    ascii_stands_alone, code_or_last_byte, code_or_one_fault, codes_are_the_grammar,
    codes_are_the_table, codes_never_overlap, cut_exists, cut_is_unique, cuts_follow,
    damage_is_local, damage_reaches_its_bounds, faults_stay, first_is_shown, first_piece_stays,
    four_bytes_decide, kinds_differ, merger_code_or_one_fault, no_fault_in_joined_codes,
    one_code_ends, one_piece_begins, one_piece_ends, pieces_are_bounded, pieces_never_overlap,
    shows_one, subparts_are_faults, texts_are_the_grammar, two_units_decide, units_are_decoded,
    units_are_encoded, units_code_or_last_unit, units_code_or_one_fault, units_code_or_one_kind,
    walk_exists, walk_gives_each_once, walk_is_unique, walk_stays_outside,
};
pub use utf_chars::laws::forms_keep_the_scalar;

/// A decoder gives at most as many pieces as there are elements. There are at most four bytes for each piece
/// of bytes, and at most two units for each piece of units.
pub fn runs_are_bounded()
    ensures utf8 { NoMoreGiven pieces }
    ensures utf16 { NoMoreGiven unit_pieces }
    ensures utf8_longest { NoLongerGiven pieces 4 }
    ensures utf16_longest { NoLongerGiven unit_pieces 2 }
{}

/// The pieces of a run have no more elements together than the window that it iterates over: so their lengths
/// may be added up.
pub fn lengths_are_bounded()
    ensures utf8 { EveryRun NextGives (λ p. PiecesFit (p.from.back - p.from.front) p) }
    ensures utf16 { EveryRun NextGivesUnits (λ p. PiecesFit (p.from.back - p.from.front) p) }
{}

/// An ASCII byte occurs as often in some bytes as its character among their pieces, since no error hides it.
pub fn ascii_is_counted(bytes: &[u8], byte: u8)
    ensures { byte < 128 →
        count_by (λ c. nat_eq c byte) (characters bytes.now) ≡ count_by (λ b. nat_eq b byte) bytes.now }
{}

/// If a byte is ASCII a decoder gives its character, and a piece begins and ends there, whatever surrounds it.
pub fn ascii_is_a_piece(bytes: &[u8], place: usize)
    ensures item { IsAsciiAt bytes.now place → Contains (pieces bytes.now) (ascii_item bytes.now place) }
    ensures piece { IsAsciiAt bytes.now place → IsPiece utf8 bytes.now (ascii_piece bytes.now place) }
    ensures before { IsAsciiAt bytes.now place → ¬ Inside utf8 bytes.now place }
    ensures after { IsAsciiAt bytes.now place → ¬ Inside utf8 bytes.now (place + 1) }
{}

/// The codes of the characters of a text, one after another, are the text.
pub fn codes_are_the_text()
    ensures { CodesAreTheText }
{}

/// A merger returns the characters that a decoder gives of the same bytes, and of the same units.
#[tactic(auto, using(crate::proofs::MergedCharacters::merged_characters, crate::proofs::MergedCharacters::merged_unit_characters))]
pub fn merged_are_the_characters()
    ensures bytes { MergedCharacters }
    ensures units { MergedUnitCharacters }
{}

/// A character has no more units in UTF-16 than bytes in UTF-8, and no more bytes than three for each unit.
pub fn forms_are_bounded()
    ensures units { (s : ℕ) → length (utf16 s) ≤ length (utf8 s) }
    ensures bytes { (s : ℕ) → length (utf8 s) ≤ 3 * length (utf16 s) }
{}
