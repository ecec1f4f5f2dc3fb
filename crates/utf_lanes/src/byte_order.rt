//! The two orders of the bytes of a unit, as types.

/// Which of the two bytes of a unit comes first.
pub trait ByteOrder: Copy {
    ghost use Rattle.std.specs.Prelude.{Bool};

    ghost HIGH_FIRST: { Bool };

    /// Whether the high byte comes first.
    const HIGH_FIRST: bool;
}

/// The low byte of a unit comes first.
#[derive(Clone, Copy, Debug)]
pub struct LittleEndian;

/// The high byte of a unit comes first.
#[derive(Clone, Copy, Debug)]
pub struct BigEndian;

impl ByteOrder for LittleEndian {
    ghost use Rattle.std.specs.Prelude.{false};

    ghost HIGH_FIRST = { false };

    const HIGH_FIRST: bool = false;
}

impl ByteOrder for BigEndian {
    ghost use Rattle.std.specs.Prelude.{true};

    ghost HIGH_FIRST = { true };

    const HIGH_FIRST: bool = true;
}
