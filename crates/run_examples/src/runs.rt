//! A whole run: the items of a decoder, one after another, are the cut of the slice.
ghost use Rattle.run_examples.specs.Counts.{CountsFaults};

use encode_unicode::U8SliceExt;

/// The number of pieces of the bytes that are errors.
pub fn count_faults(bytes: &[u8]) -> u64
    ensures { CountsFaults bytes.now result }
{
    let mut faults = 0;
    for item in bytes.utf8char_indices() {
        if item.1.is_err() {
            faults += 1;
        }
    }
    faults
}
