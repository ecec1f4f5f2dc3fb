//! Encoding of single scalars.
ghost use Rattle.std.specs.Prelude.{◌≡◌, ◌<◌, ◌≤◌, ◌++◌, length, drop};
ghost use Rattle.utf_base.specs.Code.{utf8, utf16};
ghost use Rattle.utf_base.specs.Scalar.{IsScalar};

use encode_unicode::{CharExt, Utf8Char, Utf16Char};

/// The length of the scalar in UTF-8, 1 to 4 bytes, or 0 if the number is not a scalar. The bytes are written if they
/// fit.
#[unsafe(no_mangle)]
pub extern "C" fn nody_utf8_encode(scalar: u32, room: &mut [u8]) -> usize
    ensures len { IsScalar scalar → result ≡ length (utf8 scalar) }
    ensures most { result ≤ 4 }
    ensures written { IsScalar scalar → length (utf8 scalar) ≤ length room.old →
        room.new ≡ utf8 scalar ++ drop (length (utf8 scalar)) room.old }
    ensures short { IsScalar scalar → length room.old < length (utf8 scalar) → room.new ≡ room.old }
    ensures refused { ¬ IsScalar scalar → result ≡ 0 }
    ensures unwritten { ¬ IsScalar scalar → room.new ≡ room.old }
{
    let Ok(c) = char::from_u32_detailed(scalar) else {
        return 0;
    };
    let c = Utf8Char::new(c);
    if c.len() <= room.len() {
        c.to_slice(room);
    }
    c.len()
}

/// The length of the scalar in UTF-16, 1 or 2 units, or 0 if the number is not a scalar. The units are written if
/// they fit.
#[unsafe(no_mangle)]
pub extern "C" fn nody_utf16_encode(scalar: u32, room: &mut [u16]) -> usize
    ensures len { IsScalar scalar → result ≡ length (utf16 scalar) }
    ensures most { result ≤ 2 }
    ensures written { IsScalar scalar → length (utf16 scalar) ≤ length room.old →
        room.new ≡ utf16 scalar ++ drop (length (utf16 scalar)) room.old }
    ensures short { IsScalar scalar → length room.old < length (utf16 scalar) → room.new ≡ room.old }
    ensures refused { ¬ IsScalar scalar → result ≡ 0 }
    ensures unwritten { ¬ IsScalar scalar → room.new ≡ room.old }
{
    let Ok(c) = char::from_u32_detailed(scalar) else {
        return 0;
    };
    let c = Utf16Char::new(c);
    if c.len() <= room.len() {
        c.to_slice(room);
    }
    c.len()
}
