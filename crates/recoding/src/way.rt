//! The ways of replacing invalid input.
ghost use Rattle.std.specs.Prelude.{◌≡◌};

use crate::repair::{Coded, Repair};
use utf_lanes::replacements::{Each, Mending, Subparts};

// What is replaced, and by what.
#[derive(Clone, Copy, Drop)]
pub(crate) enum Way<'a> {
    // Each fault, by U+FFFD.
    Faults,
    // Each maximal subpart, by U+FFFD.
    Subparts,
    // Each fault, by what a table has for it.
    Table(Repair<'a>),
}

// A way of replacing as a type, which the compiler knows, or as a value.
pub(crate) trait Replacing<'a>: Copy + Drop {
    ghost use Rattle.recoding.specs.declared.way.Way.{Way};

    // The way of replacing.
    ghost way: { Self → Way };

    fn way(self) -> Way<'a>
        ensures { result ≡ way self };
}

// A way of replacing that windows have: each fault of UTF-8, or each maximal subpart, becomes what its first byte
// decides.
pub(crate) trait Windowed: Mending {
    ghost use Rattle.std.specs.Prelude.{◌≡◌};
    ghost use Rattle.recoding.specs.Replacing.{byte_shown, joins};
    ghost use Rattle.recoding.specs.declared.way.Way.{Way};

    ghost way: { Self → Way };

    ghost joined: { (by : Self) → Self.subparts ≡ joins (way by) };

    ghost windowed: { (by : Self) → Self.shown by ≡ byte_shown (way by) };
}

impl<'a> Replacing<'a> for Way<'a> {
    ghost way = { λ way. way };

    #[inline(always)]
    fn way(self) -> Way<'a> {
        self
    }
}

impl<'a> Replacing<'a> for Each {
    ghost use Rattle.recoding.specs.declared.way.Way.TheVariants.{Faults};

    ghost way = { λ each. Faults };

    #[inline(always)]
    fn way(self) -> Way<'a> {
        Way::Faults
    }
}

impl<'a> Replacing<'a> for Subparts {
    ghost use Rattle.recoding.specs.declared.way.Way.TheVariants as way;

    ghost way = { λ each. way.Subparts };

    #[inline(always)]
    fn way(self) -> Way<'a> {
        Way::Subparts
    }
}

impl<'a> Replacing<'a> for Repair<'a> {
    ghost use Rattle.recoding.specs.declared.way.Way.TheVariants.{Table};

    ghost way = { λ repair. Table repair };

    #[inline(always)]
    fn way(self) -> Way<'a> {
        Way::Table(self)
    }
}

impl Windowed for Each {
    ghost use Rattle.std.proofs.Common.{refl};
    ghost use Rattle.recoding.specs.declared.way.Way.TheVariants as way;

    ghost way = { λ each. way.Faults };

    ghost joined = { λ by. refl };

    ghost windowed = { λ by. refl };
}

impl Windowed for Subparts {
    ghost use Rattle.std.proofs.Common.{refl};
    ghost use Rattle.recoding.specs.declared.way.Way.TheVariants as way;

    ghost way = { λ each. way.Subparts };

    ghost joined = { λ by. refl };

    ghost windowed = { λ by. refl };
}

impl Windowed for Repair<'_> {
    ghost use Rattle.std.proofs.Common.{refl};
    ghost use Rattle.recoding.specs.declared.way.Way.TheVariants as way;

    ghost way = { λ repair. way.Table repair };

    ghost joined = { λ by. refl };

    ghost windowed = { λ by. refl };
}

impl Windowed for Coded<'_> {
    ghost use Rattle.std.proofs.Common.{refl};
    ghost use Rattle.recoding.specs.declared.way.Way.TheVariants as way;

    ghost way = { λ coded. way.Table coded.repair };

    ghost joined = { λ by. refl };

    ghost windowed = { λ by. refl };
}
