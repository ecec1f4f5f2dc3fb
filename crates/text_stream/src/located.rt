//! Pieces with their offsets, and the types that a decoder writes for them.
ghost use Rattle.std.specs.Prelude.{◌≡◌, ◌+◌, ◌<◌, ◌≤◌, ◌^◌};
ghost use Rattle.text_stream.specs.Located.{wrapped};

use recoding::faults::FaultKind;

/// A piece of the input, a character or an invalid byte or unit, with its offset.
#[derive(Clone, Copy, Debug, PartialEq, Eq, Drop)]
pub struct LocatedPiece {
    /// The offset of its first byte from the first byte of all input, in bytes and modulo 2^64.
    pub offset: u64,
    /// The length in bytes: 1 to 4 for a character, 1 for an invalid byte, 2 for a lone surrogate.
    pub len: usize,
    /// The character, or why the byte or the unit is invalid.
    pub answer: Result<char, FaultKind>,
}

/// A value that a `Decoder` writes for each piece: a `LocatedPiece`, or a type of yours with another layout.
pub trait FromPiece: Copy {
    ghost use Rattle.std.specs.Prelude.{Ok, Err, ◌<◌, ◌≤◌};
    ghost use Rattle.text_stream.specs.declared.located.LocatedPiece.{LocatedPiece};

    // The value for a piece.
    ghost made: { LocatedPiece → Self };

    /// The value for the character at an offset; `len` is its length in bytes.
    ///
    /// Condition: `len` is at most 4.
    fn from_character(offset: u64, c: char, len: usize) -> Self
        requires { len ≤ 4 }
        ensures { result ≡ made (record { offset = offset; len = len; answer = Ok c }) };

    /// The value for an invalid byte or unit at an offset; `len` is its length in bytes.
    ///
    /// Condition: `len` is at most 4.
    fn from_fault(offset: u64, kind: FaultKind, len: usize) -> Self
        requires { len ≤ 4 }
        ensures { result ≡ made (record { offset = offset; len = len; answer = Err kind }) };

    /// The value for the ASCII character at an offset.
    ///
    /// Condition: the byte is below 0x80.
    fn from_ascii(offset: u64, byte: u8) -> Self
        requires { byte < 0x80 }
        ensures { result ≡ made (record { offset = offset; len = 1; answer = Ok byte }) };
}

impl FromPiece for LocatedPiece {
    ghost made = { λ piece. piece };

    #[inline(always)]
    fn from_character(offset: u64, c: char, len: usize) -> LocatedPiece {
        LocatedPiece {
            offset,
            len,
            answer: Ok(c),
        }
    }

    #[inline(always)]
    fn from_fault(offset: u64, kind: FaultKind, len: usize) -> LocatedPiece {
        LocatedPiece {
            offset,
            len,
            answer: Err(kind),
        }
    }

    #[inline(always)]
    fn from_ascii(offset: u64, byte: u8) -> LocatedPiece {
        LocatedPiece {
            offset,
            len: 1,
            answer: Ok(char::from(byte)),
        }
    }
}

// The progress of a call: the number of bytes read, the number of pieces written, and the offset of the next
// piece.
#[derive(Clone, Copy, Drop)]
pub struct Spot {
    /// How many bytes are read.
    pub read: usize,
    /// How many pieces are written.
    pub written: usize,
    /// The offset of the next piece.
    pub offset: u64,
}

impl Spot {
    // The spot after one more piece, of `len` bytes.
    #[inline(always)]
    pub(crate) fn after(self, len: usize) -> Spot
        requires read { self.read + len < 2 ^ 64 }
        requires written { self.written + 1 < 2 ^ 64 }
        ensures read { result.read ≡ self.read + len }
        ensures written { result.written ≡ self.written + 1 }
        ensures offset { result.offset ≡ wrapped (self.offset + len) }
    {
        self.past(len, self.written + 1)
    }

    // The spot after `len` more bytes, with `written` pieces written.
    #[inline(always)]
    pub(crate) fn past(self, len: usize, written: usize) -> Spot
        requires { self.read + len < 2 ^ 64 }
        ensures read { result.read ≡ self.read + len }
        ensures written { result.written ≡ written }
        ensures offset { result.offset ≡ wrapped (self.offset + len) }
    {
        Spot {
            read: self.read + len,
            written,
            offset: self.offset.wrapping_add(len as u64),
        }
    }
}
