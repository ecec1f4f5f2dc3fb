//! The range in which pieces may change after an edit.
ghost use Rattle.std.specs.Prelude.{◌≡◌, ◌-◌, ◌^◌, length, min};
ghost use Rattle.cuts.specs.ChangedRanges.{IsChangedRange};
ghost use Rattle.c_api.specs.Api.{IfForm, IsForm, range_of};

use crate::recodings::form_of;

/// A range of bytes, as it is passed to C: those from `start` up to `end`, `end` not included.
#[repr(C)]
#[derive(Clone, Copy, Drop)]
pub struct NodyRange {
    /// The offset of the first byte.
    pub start: usize,
    /// The offset after the last byte.
    pub end: usize,
}

/// The range outside of which no piece changes if the bytes from `start` up to `end` are replaced; `SIZE_MAX` twice
/// if `form` is not valid.
#[unsafe(no_mangle)]
pub extern "C" fn nody_changed_range(form: u8, bytes: &[u8], start: usize, end: usize) -> NodyRange
    ensures range { IfForm form (λ f. IsChangedRange f bytes.now (min start (min end (length bytes.now)))
        (min end (length bytes.now)) (range_of result)) }
    ensures none { ¬ IsForm form → result ≡ record { start = 2 ^ 64 - 1; end = 2 ^ 64 - 1 } }
{
    if 3 <= form {
        return NodyRange {
            start: usize::MAX,
            end: usize::MAX,
        };
    }
    let range = cuts::changed_range(form_of(form), bytes, start, end);
    NodyRange {
        start: range.start,
        end: range.end,
    }
}
