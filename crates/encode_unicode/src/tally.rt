//! A number that only contracts see: how many steps were taken, how many calls failed.
//!
//! The count has no bound and takes no memory. Two functions make and increment it, `Tally::new` and the
//! private `after`, and outside tests they are the only ones of the project that are proved by hand.
ghost use Rattle.std.specs.Prelude.{◌≡◌, ℕ, ◌+◌};
ghost use Rattle.std.specs.Borrow.{ftrue};

use std::marker::Model;

/// A count that begins at 0 and that only `tick` changes.
#[derive(Drop)]
pub struct Tally {
    pub ghost count: { ℕ },
}

impl Model for Tally {
    ghost also_owns = { λ _. ftrue };
}

impl Tally {
    /// The count 0.
    pub fn new() -> Tally
        ensures { result.count ≡ 0 }
    {
        Tally {}
    }

    // One more than `_before`.
    fn after(_before: &Tally) -> Tally
        ensures { result.count ≡ _before.now.count + 1 }
    {
        Tally {}
    }

    /// Adds one.
    #[inline(always)]
    pub fn tick(&mut self)
        ensures { self.new.count ≡ self.old.count + 1 }
    {
        *self = Tally::after(self);
    }
}
