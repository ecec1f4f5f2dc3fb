//! Character boundaries near an offset.
ghost use Rattle.std.specs.Prelude.{◌≡◌, ◌+◌, ◌-◌, ◌<◌, ◌≤◌, ◌^◌, length, min};
ghost use Rattle.cuts.specs.Boundaries.{IsBoundary, IsFirstFrom, IsLastTo, IsUnitBoundary};
ghost use Rattle.c_api.specs.Api.{IfForm, IsForm};

use crate::recodings::form_of;

/// The last character boundary ≤ `at`, in UTF-16 on a unit; `SIZE_MAX` if `form` is not valid.
#[unsafe(no_mangle)]
pub extern "C" fn nody_boundary_before(form: u8, bytes: &[u8], at: usize) -> usize
    ensures end { IfForm form (λ f. IsLastTo (IsBoundary f bytes.now) (length bytes.now) at result) }
    ensures near { IsForm form → min at (length bytes.now) ≤ result + 3 }
    ensures none { ¬ IsForm form → result ≡ 2 ^ 64 - 1 }
{
    if 3 <= form {
        return usize::MAX;
    }
    cuts::boundary_before(form_of(form), bytes, at)
}

/// The first character boundary ≥ `at`, in UTF-16 on a unit; `SIZE_MAX` if `form` is not valid.
#[unsafe(no_mangle)]
pub extern "C" fn nody_boundary_after(form: u8, bytes: &[u8], at: usize) -> usize
    ensures end { IfForm form (λ f. IsFirstFrom (IsBoundary f bytes.now) (length bytes.now) at result) }
    ensures near { IsForm form → result ≤ at + 3 }
    ensures none { ¬ IsForm form → result ≡ 2 ^ 64 - 1 }
{
    if 3 <= form {
        return usize::MAX;
    }
    cuts::boundary_after(form_of(form), bytes, at)
}

/// The last character boundary of units ≤ `at`.
#[unsafe(no_mangle)]
pub extern "C" fn nody_utf16_boundary_before(units: &[u16], at: usize) -> usize
    ensures end { IsLastTo (IsUnitBoundary units.now) (length units.now) at result }
    ensures near { min at (length units.now) ≤ result + 1 }
{
    cuts::unit_boundary_before(units, at)
}

/// The first character boundary of units ≥ `at`.
#[unsafe(no_mangle)]
pub extern "C" fn nody_utf16_boundary_after(units: &[u16], at: usize) -> usize
    ensures end { IsFirstFrom (IsUnitBoundary units.now) (length units.now) at result }
    ensures near { result ≤ at + 1 }
{
    cuts::unit_boundary_after(units, at)
}
