//! A text that is converted to units and back.
ghost use Rattle.std.specs.Prelude.{◌≡◌, IfOk, string_bytes};

use encode_unicode::{StrExt, U16IterExt, Utf16CharIterExt};
use std::alloc::{AllocError, Global};

/// Converts the text to units and back, one character at a time: a merger over a splitter.
pub fn recode(alloc: Global, text: &str) -> Result<String, AllocError>
    ensures { IfOk result (λ again. string_bytes again ≡ text.now) }
{
    let mut again = String::new(alloc);
    for answer in text.utf16chars().to_units().to_utf16chars() {
        if let Ok(c) = answer {
            again.push(c.to_char())?;
        }
    }
    Ok(again)
}
