//! The version of the library.
ghost use Rattle.std.specs.Prelude.{◌≡◌};

/// The version: 1,000,000 times the major number, plus 1,000 times the minor number, plus the patch number.
#[unsafe(no_mangle)]
pub extern "C" fn nody_version() -> u32
    ensures { result ≡ 1000000 }
{
    1_000_000
}
