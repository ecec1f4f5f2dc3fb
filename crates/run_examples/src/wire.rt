//! Records as a registry or a file system keeps them: the length of a text in units, two bytes, and then the text in
//! UTF-16LE. The text may be damaged; its length determines its end.
ghost use Rattle.std.specs.Prelude.{◌<◌, IfOk, MatchOption, length};
ghost use Rattle.run_examples.specs.Wire.{IsTextRecord, record_end};

use crate::parts::recode_in_parts;
use cuts::Form;
use std::alloc::{AllocError, Allocator};

/// The text of the first record, as UTF-8 with U+FFFD for each lone surrogate, and the bytes after the record;
/// `None` if the bytes end before the record does.
pub fn first_text<'a, A: Allocator>(
    alloc: A,
    bytes: &'a [u8],
) -> Result<Option<(Vec<u8, A>, &'a [u8])>, AllocError>
    ensures { IfOk result (λ found.
        MatchOption found (length bytes.now < record_end bytes.now)
        (λ x. IsTextRecord bytes.now x.0.items x.1.now)) }
{
    if bytes.len() < 2 {
        return Ok(None);
    }
    let end = 2 + 2 * (usize::from(bytes[0]) + 256 * usize::from(bytes[1]));
    if bytes.len() < end {
        return Ok(None);
    }
    let text = recode_in_parts(alloc, Form::Utf16Le, Form::Utf8, &bytes[2..end], 64)?;
    Ok(Some((text, &bytes[end..])))
}
