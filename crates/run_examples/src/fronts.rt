//! Fronts that are well-formed, and what follows them.
ghost use Rattle.std.specs.Prelude.{◌≤◌, length};

use cuts::{LittleEndian, unit_bytes_valid_up_to, units_valid_up_to, valid_up_to};

/// The bytes before the first invalid one, and those from it on.
pub fn split_at_fault(bytes: &[u8]) -> (&[u8], &[u8]) {
    let len = valid_up_to(bytes);
    (&bytes[..len], &bytes[len..])
}

/// The units before the first invalid one, and those from it on.
pub fn split_at_faulty_unit(units: &[u16]) -> (&[u16], &[u16]) {
    units.split_at(units_valid_up_to(units))
}

/// The length of the valid UTF-16 at the front, in bytes: it ends before the first lone surrogate, or before
/// an odd last byte.
pub fn good_wire_len(bytes: &[u8]) -> usize
    ensures { result ≤ length bytes.now }
{
    unit_bytes_valid_up_to::<LittleEndian>(bytes)
}
