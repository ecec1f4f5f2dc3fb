//! A count of steps, only for contracts.
ghost use Rattle.std.specs.Prelude.{◌≡◌, ◌+◌};

use crate::tally::Tally;
use std::marker::Model;

/// A count only for contracts: how many steps a call took, or how many calls of a reader or writer failed. At
/// run time it takes no space and no time.
///
/// A call that takes steps, as `Utf8CharDecoder::next_back_counted` does, ticks once for each step. Its
/// contract bounds their number. If your contracts say nothing about steps, pass `&mut Steps::new()`.
#[derive(Drop)]
pub struct Steps {
    taken: Tally,
}

impl Model for Steps {
    ghost use Rattle.std.specs.Prelude.{ℕ};

    ghost Value = { ℕ };

    ghost view = { λ s. s.taken.count };
}

impl Steps {
    /// No steps so far.
    #[inline(always)]
    pub fn new() -> Steps
        ensures { result ≡ 0 }
    {
        Steps {
            taken: Tally::new(),
        }
    }

    /// Counts one more step.
    #[inline(always)]
    pub fn tick(&mut self)
        ensures { self.new ≡ self.old + 1 }
    {
        self.taken.tick();
    }
}
