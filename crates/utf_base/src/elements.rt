//! Tests for the bytes and units that follow the first of a code. An addition to the Rust crate.
ghost use Rattle.std.specs.Prelude.{◌≡◌};
ghost use Rattle.utf_base.specs.Kinds.{is_continuation};
ghost use Rattle.utf_base.specs.Units.{is_trailing_surrogate};

/// Returns true if the byte is a continuation byte, 0x80 to 0xbf (RFC 3629, section 3).
#[inline(always)]
pub fn is_continuation(byte: u8) -> bool
    ensures { result ≡ is_continuation byte }
{
    byte & 0xc0 == 0x80
}

/// Returns true if the unit is a trailing surrogate, 0xdc00 to 0xdfff, which ends a pair (RFC 2781, section
/// 2.1).
#[inline(always)]
pub fn is_trailing_surrogate(unit: u16) -> bool
    ensures { result ≡ is_trailing_surrogate unit }
{
    unit & 0xfc00 == 0xdc00
}
