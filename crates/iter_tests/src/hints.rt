//! A source whose size hint promises more items than there is memory.
ghost use Rattle.std.specs.Prelude.{◌+◌, ◌^◌};
ghost use Rattle.std.specs.Iterator.{at_most};

use encode_unicode::{CharExt, Utf8Char, Utf8CharIterExt, Utf16Char, Utf16CharIterExt};
use fakes::budget::Budget;
use std::test::Fail;

// Gives a character some times, and promises more than can be allocated.
#[derive(Drop)]
struct Boaster<C> {
    c: C,
    left: u8,
}

impl<C: Copy> Iterator for Boaster<C> {
    type Item = C;

    ghost remaining = { λ s. at_most (2 ^ 64 + s.left) };

    fn next(&mut self) -> Option<C> {
        if self.left == 0 {
            return None;
        }
        self.left -= 1;
        Some(self.c)
    }

    fn size_hint(&self) -> (usize, Option<usize>) {
        (usize::MAX, None)
    }
}

#[test]
fn room_is_taken_for_what_comes_alone(rt: HostRuntime) -> Result<(), Fail> {
    let budget = Budget::new(rt.alloc(), 4);
    let bytes = Boaster {
        c: 'A'.to_utf8(),
        left: 9,
    };
    assert_eq!(rt; bytes.collect_bytes(&budget)?.len(), 9);
    budget.allow(4);
    let text = Boaster {
        c: 'A'.to_utf8(),
        left: 9,
    };
    assert_eq!(rt; text.collect_string(&budget)?.len(), 9);
    budget.allow(4);
    let units = Boaster {
        c: 'A'.to_utf16(),
        left: 9,
    };
    assert_eq!(rt; units.collect_units(&budget)?.len(), 9);
    budget.allow(4);
    let text = Boaster {
        c: 'A'.to_utf16(),
        left: 9,
    };
    assert_eq!(rt; text.collect_string(&budget)?.len(), 9);
    Ok(())
}
