//! A piece, as it is passed to C.

/// A piece of some bytes or units: a character, or one invalid byte or unit.
///
/// Its length is a register of its own, so that adding it to an offset does not wait for the other fields.
#[repr(C)]
#[derive(Clone, Copy, Drop)]
pub struct NodyPiece {
    /// Its length in bytes or units: 1 if it is invalid, 0 if there is none.
    pub len: usize,
    /// The number of the character, or 0 if it is invalid.
    pub scalar: u32,
    /// 0 for a character, otherwise the number of the error, or of `NODY_KIND_NONE`.
    pub kind: u8,
}
