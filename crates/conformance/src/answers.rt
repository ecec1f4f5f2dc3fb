//! The calls of a row, and the traits of what they are called on.

use std::alloc::{AllocError, Global};

/// A value on which calls are made by their names.
pub(crate) trait Asked {
    /// The result of the next call, as `Debug` writes it.
    fn answer(&mut self, alloc: Global, call: &str) -> Result<String, AllocError>;
}

/// The result if there is no such call; no row has it.
pub(crate) fn no_call(alloc: Global, call: &str) -> Result<String, AllocError> {
    format!(in alloc; "no call {call}")
}

/// The name of a call and two numbers after it, as in `changed_range-8-9`. A missing number is 0.
pub(crate) fn numbers_of(call: &str) -> (&str, usize, usize) {
    let mut words = call.split('-');
    let name = words.next().unwrap_or("");
    (name, number(words.next()), number(words.next()))
}

fn number(word: Option<&str>) -> usize {
    word.unwrap_or("").parse().unwrap_or(0)
}
