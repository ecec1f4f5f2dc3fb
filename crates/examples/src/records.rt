//! Records of UTF-16 units, each ended by a zero unit, from an iterator.
ghost use Rattle.std.specs.Prelude.{◌≡◌, false, IfOk, string_bytes};
ghost use Rattle.std.specs.Iterator.{IsFinite};
ghost use Rattle.encode_unicode.specs.Mergers.{unread, unread_count};
ghost use Rattle.encode_unicode.specs.Sources.{WhateverIsLeft};
ghost use Rattle.examples.specs.Records.{IsRecord};

use encode_unicode::U16IterExt;
use encode_unicode::error::Utf16PairError;
use encode_unicode::iterator::{RemainingUnits, Utf16CharMerger};
use std::alloc::{AllocError, Global};

/// How a record ends.
#[derive(Debug, Clone, Copy, PartialEq, Eq, Drop)]
pub enum Ending {
    /// With a zero unit.
    Zero,
    /// With a unit that is damaged.
    Damaged(Utf16PairError),
    /// With the units.
    Missing,
}

/// The text of the record that the units begin with, and how it ends. Exactly the record is taken, so another
/// call gives the next one.
pub fn next_record<I: Iterator<Item = u16>>(
    alloc: Global,
    units: &mut Utf16CharMerger<I>,
) -> Result<(String, Ending), AllocError>
    requires can { units.old.ended ≡ false → I.can_next units.old.source }
    requires ends { IsFinite (unread_count I.remaining units.old) }
    ensures record { IfOk result (λ taken. WhateverIsLeft I.next_gives (λ rest.
        IsRecord (unread rest units.old) (string_bytes taken.0) taken.1 (unread rest units.new))) }
    ensures can { IfOk result (λ _. units.new.ended ≡ false → I.can_next units.new.source) }
    ensures ends { IfOk result (λ _. IsFinite (unread_count I.remaining units.new)) }
{
    let mut text = String::new(alloc);
    while let Some(answer) = units.next() {
        match answer {
            Ok(c) => {
                if c.eq_u16(0) {
                    return Ok((text, Ending::Zero));
                }
                text.push(c.to_char())?;
            }
            Err(error) => return Ok((text, Ending::Damaged(error))),
        }
    }
    Ok((text, Ending::Missing))
}

/// The first record of a source, and all units after it: those after a damaged unit as well.
pub fn first_record<I: Iterator<Item = u16>>(
    alloc: Global,
    source: I,
) -> Result<(String, Ending, RemainingUnits<I>), AllocError>
    requires can { I.can_next source }
    requires ends { IsFinite (I.remaining source) }
    ensures { IfOk result (λ first. WhateverIsLeft I.next_gives (λ rest.
        IsRecord (rest source) (string_bytes first.0) first.1 (unread rest first.2))) }
{
    let mut units = source.to_utf16chars();
    let (text, ending) = next_record(alloc, &mut units)?;
    Ok((text, ending, units.into_remaining_units()))
}
