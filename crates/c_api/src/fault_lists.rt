//! The faults of cursors over bytes and units, many in one call.
ghost use Rattle.cuts.specs.FaultLists.{unit_faults};
ghost use Rattle.cuts.specs.ShardRuns.{faults};
ghost use Rattle.cuts.specs.declared.FaultKind.TheVariants as kind;
ghost use Rattle.c_api.specs.FaultCalls.{PassesFaults};

use crate::cursors::{NodyBytes, NodyUnits};
use crate::decoders::NodyLocated;

/// Writes the faults of the cursor to the array, as many as fit, and returns how many. The cursor then begins with
/// the next fault, or is empty, and the offset of its first byte moves along.
#[unsafe(no_mangle)]
pub extern "C" fn nody_utf8_faults(
    left: &mut NodyBytes<'_>,
    offset: &mut u64,
    room: &mut [NodyLocated],
) -> usize
    ensures { PassesFaults kind.Utf8 faults left.old.bytes.now offset.old room.old room.new result
        left.new.bytes.now offset.new }
{
    let found = cuts::faults_into(left.bytes, *offset, room);
    left.bytes = &left.bytes[found.read..];
    *offset = offset.wrapping_add(found.read as u64);
    found.written
}

/// Writes the faults of a cursor over units to the array, as many as fit, and returns how many. The cursor
/// then begins with the next fault, or is empty, and the offset of its first unit moves along.
#[unsafe(no_mangle)]
pub extern "C" fn nody_utf16_faults(
    left: &mut NodyUnits<'_>,
    offset: &mut u64,
    room: &mut [NodyLocated],
) -> usize
    ensures { PassesFaults kind.Utf16 unit_faults left.old.units.now offset.old room.old room.new result
        left.new.units.now offset.new }
{
    let found = cuts::unit_faults_into(left.units, *offset, room);
    left.units = &left.units[found.read..];
    *offset = offset.wrapping_add(found.read as u64);
    found.written
}
