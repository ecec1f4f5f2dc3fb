//! Consequences of the laws for damaged bytes.
ghost use Rattle.std.specs.Prelude.{◌≡◌, ◌<◌, ℕ, Contains, IfSome, IsTrue, Ok, count_by, length, nat_eq, slice_index};
ghost use Rattle.encode_unicode.specs.Code.{utf8};
ghost use Rattle.encode_unicode.specs.Piece.{Inside, Stands};
ghost use Rattle.encode_unicode.specs.Pieces.{characters, pieces};
ghost use Rattle.examples.specs.Needles.{IsOwnPiece};
ghost use Rattle.encode_unicode.specs.ShownLaws.{CodeShowsFirst, FaultShowsFirst, FirstPieceStays, KindStays, ShowsOne, ShowsSome};

use encode_unicode::{U8SliceExt, Utf8Char, laws};

/// Returns true if a byte is ASCII, and so a piece of its own, whatever surrounds it.
pub fn is_ascii_piece(bytes: &[u8], place: usize) -> bool
    requires { place < length bytes.now }
    ensures { IsTrue result → IsOwnPiece bytes.now place (slice_index bytes.now place) }
{
    laws::ascii_stands_alone();
    bytes[place] < 0x80
}

/// The number of line feeds in the bytes, counted as characters.
pub fn line_feeds(bytes: &[u8]) -> usize
    ensures { result ≡ count_by (λ b. nat_eq b 10) bytes.now }
{
    laws::ascii_is_counted(bytes, b'\n');
    let characters = bytes.utf8char_indices().filter_map(|x| x.1.ok());
    characters.filter(|c| c.eq_char('\n')).count()
}

/// The number of ASCII delimiters in the bytes, counted as bytes: as many as there are fields after the first.
pub fn delimiters(bytes: &[u8], delimiter: u8) -> usize
    requires { delimiter < 128 }
    ensures { result ≡ count_by (λ c. nat_eq c delimiter) (characters bytes.now) }
{
    laws::ascii_is_counted(bytes, delimiter);
    bytes.iter().filter(|b| **b == delimiter).count()
}

/// Returns true if a quote is at the offset, which is then a piece that a decoder gives.
pub fn is_quote(bytes: &[u8], place: usize) -> bool
    ensures { IsTrue result → Contains (pieces bytes.now) (place, Ok 34, 1) }
{
    laws::ascii_is_a_piece(bytes, place);
    place < bytes.len() && bytes[place] == b'"'
}

/// The offset after the first comma, which is where a piece begins.
pub fn after_comma(bytes: &[u8]) -> Option<usize>
    ensures { IfSome result (λ place. ¬ Inside utf8 bytes.now place) }
{
    let comma = bytes.iter().position(|b| *b == b',')?;
    laws::ascii_is_a_piece(bytes, comma);
    Some(comma + 1)
}

/// Returns true if no character begins the bytes.
pub fn begins_no_code(bytes: &[u8]) -> bool
    ensures { IsTrue result → (s : ℕ) → Stands utf8 bytes.now 0 s → ⊥ }
{
    laws::code_or_one_fault();
    Utf8Char::from_slice_start(bytes).is_err()
}

/// The scalars of bytes, with U+FFFD for each invalid byte, are determined from the front on: there is one list of
/// them, the first piece gives the first, and what is decided stays as more bytes follow.
pub fn shown_from_the_front()
    ensures some { ShowsSome utf8 }
    ensures one { ShowsOne utf8 }
    ensures code { CodeShowsFirst utf8 }
    ensures fault { FaultShowsFirst utf8 }
    ensures piece { FirstPieceStays utf8 }
    ensures kind { KindStays }
{
    laws::shows_one();
    laws::first_is_shown();
    laws::first_piece_stays();
    laws::faults_stay();
}
