//! A cursor in bytes that may be damaged: an offset between two pieces, which steps both ways.
ghost use Rattle.std.specs.Prelude.{◌≡◌, ◌<◌, length};
ghost use Rattle.cuts.specs.PieceBoundaries.{IsBetween};
ghost use Rattle.run_examples.specs.Cursor.{IsStep};

use encode_unicode::{Utf8Char, laws};

/// The offset in front of all pieces.
pub fn front(src: &[u8]) -> usize
    ensures between { IsBetween src.now result }
    ensures zero { result ≡ 0 }
{
    let _ = src;
    0
}

/// The offset after all pieces.
pub fn back(src: &[u8]) -> usize
    ensures between { IsBetween src.now result }
    ensures len { result ≡ length src.now }
{
    src.len()
}

/// The offset one piece further, if there is a piece.
pub fn step_on(src: &[u8], place: usize) -> usize
    requires between { IsBetween src.now place }
    requires more { place < length src.now }
    ensures between { IsBetween src.now result }
    ensures step { IsStep src.now place result }
    ensures further { place < result }
{
    match Utf8Char::from_slice_start(&src[place..]) {
        Ok((_, len)) => place + len,
        Err(_) => place + 1,
    }
}

/// The offset one piece before, if there is a piece.
pub fn step_back(src: &[u8], place: usize) -> usize
    requires between { IsBetween src.now place }
    requires more { 0 < place }
    ensures between { IsBetween src.now result }
    ensures step { IsStep src.now result place }
{
    match Utf8Char::from_slice_end(&src[..place]) {
        Ok((_, len)) => place - len,
        Err(_) => place - 1,
    }
}

/// One piece forward and back again, which is the offset from which it began, whatever the bytes are.
pub fn on_and_back(src: &[u8], place: usize) -> usize
    requires between { IsBetween src.now place }
    requires more { place < length src.now }
    ensures { result ≡ place }
{
    laws::one_piece_ends();
    step_back(src, step_on(src, place))
}
