//! An editor's buffer: a table of pieces, an edit in it, and the pieces that have to be drawn anew.
ghost use Rattle.std.specs.List.{splice};
ghost use Rattle.std.specs.Prelude.{◌≡◌, ◌+◌, ◌≤◌, ◌<◌, length, IfOk, IfSome, OnOk, OnErr, filter};
ghost use Rattle.run_examples.specs.Editor.{StaysBefore, MovesFrom, begins_between};

use cuts::{Item, PieceTable};
use encode_unicode::Steps;
use std::alloc::{AllocError, Allocator};

/// The range of offsets at which pieces begin that an edit may have changed.
#[derive(Clone, Copy, Debug, PartialEq, Eq, Drop)]
pub struct Changed {
    /// The first offset that may have changed.
    pub from: usize,
    /// The offset after the last that may have changed.
    pub until: usize,
}

/// Replaces a part of the bytes, and returns which pieces may have changed. Those before it are unchanged;
/// those after it are old ones too, at other offsets.
pub fn edit<A: Allocator + Copy>(
    table: &mut PieceTable<A>,
    start: usize,
    end: usize,
    new: &[u8],
) -> Result<Changed, AllocError>
    requires ordered { start ≤ end }
    requires within { end ≤ length table.old.bytes }
    ensures bytes { OnOk result (table.new.bytes ≡ splice table.old.bytes start end new.now) }
    ensures before { IfOk result (λ changed. StaysBefore table.old.pieces table.new.pieces changed.from) }
    ensures following { IfOk result (λ changed.
        MovesFrom table.old.pieces table.new.pieces changed.until end (start + length new.now)) }
    ensures err { OnErr result (table.new ≡ table.old) }
{
    let after = start.checked_add(new.len()).ok_or(AllocError)?;
    let until = after.checked_add(3).ok_or(AllocError)?;
    table.replace(start, end, new, &mut Steps::new())?;
    let from = start.saturating_sub(3);
    Ok(Changed { from, until })
}

/// The pieces that have to be drawn anew.
pub fn pieces_to_draw<A: Allocator + Copy>(
    alloc: A,
    table: &PieceTable<A>,
    changed: Changed,
) -> Result<Vec<Item, A>, AllocError>
    ensures { IfOk result (λ drawn. drawn.items ≡
        filter (begins_between changed.from changed.until) table.now.pieces) }
{
    table
        .pieces()
        .iter()
        .copied()
        .filter(|item| changed.from <= item.0 && item.0 < changed.until)
        .collect(alloc)
}

/// The bytes of the piece with this number.
pub fn piece_bytes<A: Allocator + Copy>(table: &PieceTable<A>, number: usize) -> Option<&[u8]>
    ensures { IfSome result (λ piece. length piece.now ≤ 4) }
{
    let (place, _, len) = table.pieces().get(number)?;
    Some(&table.bytes()[*place..*place + *len])
}

/// The piece that has the byte at this offset.
pub fn piece_at<A: Allocator + Copy>(table: &PieceTable<A>, place: usize) -> Option<Item>
    ensures { IfSome result (λ x. (x.0 ≤ place) × (place < x.0 + x.2)) }
{
    let mut pieces = table.pieces().iter().copied();
    pieces.find(|x| x.0 <= place && place < x.0 + x.2)
}

/// Replaces the first invalid byte by other bytes, and returns whether there was one.
pub fn mend_first<A: Allocator + Copy>(
    table: &mut PieceTable<A>,
    new: &[u8],
) -> Result<bool, AllocError> {
    match table.pieces().iter().copied().find(|x| x.1.is_err()) {
        Some((place, _, len)) => {
            table.replace(place, place + len, new, &mut Steps::new())?;
            Ok(true)
        }
        None => Ok(false),
    }
}

/// A table of the bytes in which a question mark replaces the first invalid one.
pub fn mended<A: Allocator + Copy>(alloc: A, bytes: &[u8]) -> Result<PieceTable<A>, AllocError> {
    let mut table = PieceTable::new(alloc, bytes)?;
    mend_first(&mut table, b"?")?;
    Ok(table)
}
