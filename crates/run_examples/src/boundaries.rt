//! Character boundaries near any byte, by `cuts::boundaries`: for a viewer, a search that shows the context of a
//! match, and a log whose lines are cut to a length.
ghost use Rattle.std.specs.Prelude.{◌<◌, ◌≤◌, length};

use cuts::boundaries::{ceil, floor, following, previous, truncated};

/// The context of an offset: `reach` bytes on each side, extended to boundaries.
pub fn around(bytes: &[u8], place: usize, reach: usize) -> &[u8]
    requires { place ≤ length bytes.now }
{
    let from = floor(bytes, place.saturating_sub(reach));
    let to = ceil(bytes, place.saturating_add(reach).min(bytes.len()));
    &bytes[from..to]
}

/// The character or invalid byte that has this byte.
pub fn piece_of(bytes: &[u8], place: usize) -> &[u8]
    requires { place < length bytes.now }
{
    &bytes[previous(bytes, place + 1)..following(bytes, place)]
}

/// The first row, of at most `width` bytes, and the bytes after it.
pub fn first_row(bytes: &[u8], width: usize) -> (&[u8], &[u8])
    ensures { length result.0.now ≤ width }
{
    let row = truncated(bytes, width);
    (row, &bytes[row.len()..])
}

/// The bytes before a cursor and those after it, without the piece that the backspace key removes.
pub fn without_previous(bytes: &[u8], cursor: usize) -> (&[u8], &[u8])
    requires { cursor ≤ length bytes.now }
{
    if cursor == 0 {
        return (&[], bytes);
    }
    (&bytes[..previous(bytes, cursor)], &bytes[cursor..])
}
