//! Transcoding into a caller-supplied buffer, with what a table has for invalid input.
ghost use Rattle.std.specs.Prelude.{◌≡◌, ◌+◌, ◌-◌, ◌<◌, ◌≤◌, IfSome, IfNone, length, take};
ghost use Rattle.cuts.specs.Recoded.{Lacks};
ghost use Rattle.cuts.specs.Repaired.{FeedsRepaired, FinishesRepaired, IsFullRepaired, IsLastFullRepaired};
ghost use Rattle.c_api.specs.Api.{CountsEnd, CountsPart, IfRecoder, IsRecoder};
ghost use Rattle.c_api.specs.Repairs.{IsRepair, table_of};

use crate::recodings::{DONE, FULL, NodyRecoder, REFUSED, is_recoder, keep, opened, with_more};
use cuts::Repair;

// The table of a number, or the caller's; `None` if the number names none.
fn repair_of(number: u8, table: &[u32]) -> Option<Repair<'_>>
    ensures some { IfSome result (λ repair. repair.chars.now ≡ table_of number table.now) }
    ensures known { IfSome result (λ repair. IsRepair number) }
    ensures none { IfNone result (¬ IsRepair number) }
{
    match number {
        0 => Some(Repair::nothing()),
        1 => Some(Repair::windows_1252()),
        2 => Some(Repair::latin_1()),
        3 => Some(Repair::of(table)),
        4.. => None,
    }
}

/// Feeds a part as `nody_recoder_feed` does, but writes for invalid input what a table has for it. The table is that
/// of the number `repair`: 0 leaves invalid input out, 1 has Windows-1252, 2 ISO-8859-1, and 3 is the caller's table.
/// Adds to `replaced` the number of invalid bytes, lone surrogates and odd last bytes. Returns 0 if all of the part was
/// read; 1 if the next character does not fit; 2, with nothing changed, if the struct is not a recoder or the number
/// names no table.
#[unsafe(no_mangle)]
pub extern "C" fn nody_recoder_feed_repair(
    recoder: &mut NodyRecoder,
    part: &[u8],
    room: &mut [u8],
    repair: u8,
    table: &[u32],
    read: &mut usize,
    written: &mut usize,
) -> u8
    ensures recoder { IsRecoder recoder.old → IsRecoder recoder.new }
    ensures feeds { IsRepair repair → IfRecoder recoder.old recoder.new
        (λ r s. FeedsRepaired (table_of repair table.now) r part.now room.old room.new read.new written.new s) }
    ensures all { IsRepair repair → IsRecoder recoder.old → result ≡ 0 → read.new ≡ length part.now }
    ensures waits { IsRepair repair →
        IfRecoder recoder.old recoder.new (λ r s. result ≡ 0 → Lacks r.from s.held) }
    ensures full { IfRecoder recoder.old recoder.new (λ r s. result ≡ 1 →
        IsFullRepaired (table_of repair table.now) s part.now read.new (length room.old - written.new)) }
    ensures short { IsRecoder recoder.old → result ≡ 1 → length room.old < written.new + 4 }
    ensures status { IsRepair repair → IsRecoder recoder.old → result < 2 }
    ensures counts { IsRepair repair → IsRecoder recoder.old →
        CountsPart recoder.old (take read.new part.now) recoder.new }
    ensures refused { result ≡ 2 → (recoder.new ≡ recoder.old) × (room.new ≡ room.old) }
    ensures none { result ≡ 2 → (read.new ≡ 0) × (written.new ≡ 0) }
    ensures wrong { ¬ IsRecoder recoder.old → result ≡ 2 }
    ensures unnamed { ¬ IsRepair repair → result ≡ 2 }
{
    *read = 0;
    *written = 0;
    if !is_recoder(recoder) {
        return REFUSED;
    }
    let Some(repair) = repair_of(repair, table) else {
        return REFUSED;
    };
    let mut inner = opened(recoder);
    let progress = inner.feed_repaired_into(part, room, repair);
    keep(recoder, &inner);
    recoder.replaced = with_more(recoder.replaced, progress.replaced);
    *read = progress.read;
    *written = progress.written;
    if progress.is_full { FULL } else { DONE }
}

/// Finishes a recoder that was fed by `nody_recoder_feed_repair`, with the same table: bytes that are carried over are
/// invalid. Returns 0 if nothing is carried over any more; 1 if the next character does not fit; 2, with nothing
/// changed, if the struct is not a recoder or the number names no table.
#[unsafe(no_mangle)]
pub extern "C" fn nody_recoder_finish_repair(
    recoder: &mut NodyRecoder,
    room: &mut [u8],
    repair: u8,
    table: &[u32],
    written: &mut usize,
) -> u8
    ensures recoder { IsRecoder recoder.old → IsRecoder recoder.new }
    ensures finishes { IsRepair repair → IfRecoder recoder.old recoder.new
        (λ r s. FinishesRepaired (table_of repair table.now) r room.old room.new written.new s) }
    ensures all { IsRepair repair → IsRecoder recoder.old → result ≡ 0 → recoder.new.count ≡ 0 }
    ensures full { IfRecoder recoder.old recoder.new (λ r s. result ≡ 1 →
        IsLastFullRepaired (table_of repair table.now) s (length room.old - written.new)) }
    ensures short { IsRecoder recoder.old → result ≡ 1 → length room.old < written.new + 4 }
    ensures status { IsRepair repair → IsRecoder recoder.old → result < 2 }
    ensures counts { IsRepair repair → IsRecoder recoder.old → CountsEnd recoder.old recoder.new }
    ensures refused { result ≡ 2 → (recoder.new ≡ recoder.old) × (room.new ≡ room.old) }
    ensures none { result ≡ 2 → written.new ≡ 0 }
    ensures wrong { ¬ IsRecoder recoder.old → result ≡ 2 }
    ensures unnamed { ¬ IsRepair repair → result ≡ 2 }
{
    *written = 0;
    if !is_recoder(recoder) {
        return REFUSED;
    }
    let Some(repair) = repair_of(repair, table) else {
        return REFUSED;
    };
    let mut inner = opened(recoder);
    let progress = inner.finish_repaired_into(room, repair);
    keep(recoder, &inner);
    recoder.replaced = with_more(recoder.replaced, progress.replaced);
    *written = progress.written;
    if progress.is_full { FULL } else { DONE }
}
