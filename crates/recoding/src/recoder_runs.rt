//! Runs over bytes, by the fastest way for the encodings: to the end of a list that can hold the whole output, or
//! into a buffer of a fixed size.
ghost use Rattle.std.specs.Prelude.{◌≡◌, ◌+◌, ◌-◌, ◌<◌, ◌≤◌, ◌++◌, length, drop, IfOk, IfErr, OnErr, IsTrue, IsFalse};
ghost use Rattle.recoding.specs.Outputs.{Extends};
ghost use Rattle.recoding.specs.Recoded.{Lacks, most_held};
ghost use Rattle.recoding.specs.Replacing.{FillsPlace, NextIsLonger, Recodes, at_place};
ghost use Rattle.recoding.specs.Rooms.{HasRoomFor};
ghost use Rattle.recoding.specs.Strict.{PutsText, StopsAt};

use crate::block_output::BlockOutput;
use crate::engine::{has_room_for_all, put_text, run};
use crate::first_pieces::FirstPiece;
use crate::form::Form;
use crate::form_calls::{first_piece, put_fitting};
use crate::held::Held;
use crate::kernels::{Copied, Kernel, Narrowed, Turned, Widened, by_forms};
use crate::output::Output;
use crate::room::Room;
use crate::rooms::Progress;
use crate::text::{Text, Utf8, Utf16};
use crate::way::Way;
use std::alloc::Allocator;
use utf_lanes::byte_order::{BigEndian, LittleEndian};

// The number of bytes that a run transcoded, and of their faults that became U+FFFD.
#[derive(Clone, Copy, Drop)]
pub(crate) struct Run {
    pub(crate) read: usize,
    pub(crate) replaced: usize,
}

// Transcodes the bytes as far as no later byte can change their scalars.
#[inline(always)]
pub(crate) fn recode_whole<A: Allocator>(
    from: Form,
    to: Form,
    bytes: &[u8],
    out: &mut Vec<u8, A>,
) -> Run
    requires { HasRoomFor out.old (length bytes.now) }
    ensures runs { Recodes Extends Way.Faults from to bytes.now out.old out.new result.read result.replaced }
    ensures waits { length bytes.now ≤ result.read + 3 }
    ensures lacks { Lacks from (drop result.read bytes.now) }
{
    by_forms!(from, to, run_whole::<A>(bytes, out))
}

// `recode_whole`, monomorphised for a pair of encodings: it returns two numbers in registers.
#[inline(never)]
fn run_whole<S: Text, T: Text, K: Kernel<S, T>, A: Allocator>(
    bytes: &[u8],
    out: &mut Vec<u8, A>,
) -> Run
    requires { HasRoomFor out.old (length bytes.now) }
    ensures runs { Recodes Extends Way.Faults S.form T.form bytes.now out.old out.new
        result.read result.replaced }
    ensures waits { length bytes.now ≤ result.read + 3 }
    ensures lacks { Lacks S.form (drop result.read bytes.now) }
{
    let reached = run::<S, T, K, Vec<u8, A>>(Way::Faults, true, bytes, out);
    Run {
        read: reached.read,
        replaced: reached.replaced,
    }
}

// Transcodes the bytes as far as no later byte can change their scalars and there is capacity from the offset on.
// `read` is the number of bytes that were transcoded, and `written` the length of all that is now in the buffer. The
// three bytes that follow decide the last ones, and no others.
#[inline(always)]
pub(crate) fn recode_into(
    way: Way<'_>,
    from: Form,
    to: Form,
    bytes: &[u8],
    room: &mut [u8],
    place: usize,
) -> Progress
    requires { place ≤ length room.old }
    ensures runs { Recodes FillsPlace way.entry from to bytes.now
        (at_place room.old place) (at_place room.new result.written) result.read result.replaced }
    ensures full { IsTrue result.is_full →
        NextIsLonger way.entry from to (drop result.read bytes.now) (length room.old - result.written) }
    ensures short { IsTrue result.is_full → length room.old < result.written + 4 }
    ensures waits { IsFalse result.is_full → length bytes.now ≤ result.read + 3 }
    ensures lacks { IsFalse result.is_full → Lacks from (drop result.read bytes.now) }
{
    by_forms!(from, to, run_into(way, bytes, room, place))
}

// `recode_into`, monomorphised for a pair of encodings: its counts stay in registers.
#[inline(never)]
fn run_into<S: Text, T: Text, K: Kernel<S, T>>(
    way: Way<'_>,
    bytes: &[u8],
    room: &mut [u8],
    place: usize,
) -> Progress
    requires { place ≤ length room.old }
    ensures runs { Recodes FillsPlace way.entry S.form T.form bytes.now
        (at_place room.old place) (at_place room.new result.written) result.read result.replaced }
    ensures full { IsTrue result.is_full →
        NextIsLonger way.entry S.form T.form (drop result.read bytes.now) (length room.old - result.written) }
    ensures short { IsTrue result.is_full → length room.old < result.written + 4 }
    ensures waits { IsFalse result.is_full → length bytes.now ≤ result.read + 3 }
    ensures lacks { IsFalse result.is_full → Lacks S.form (drop result.read bytes.now) }
{
    let mut out = Room::new(room, place);
    let is_ample = has_room_for_all(bytes, &out);
    let done = run::<S, T, K, Room<'_>>(way, is_ample, bytes, &mut out);
    progress(done.read, out.len, done.replaced, done.is_full)
}

// The progress of a call.
#[inline(always)]
pub(crate) fn progress(read: usize, written: usize, replaced: usize, is_full: bool) -> Progress
    ensures { result ≡ record { read = read; written = written; replaced = replaced; is_full = is_full } }
{
    Progress {
        read,
        written,
        replaced,
        is_full,
    }
}

// The progress of a run to the first fault: the number of bytes transcoded, the number written, and the piece
// at which it stopped.
#[derive(Clone, Copy, Drop)]
pub(crate) struct StrictRun {
    pub(crate) read: usize,
    pub(crate) written: usize,
    pub(crate) first: FirstPiece,
}

// Transcodes the text at the front of the carried-over bytes and a part into the buffer, up to the first piece that
// is a fault, that what follows decides, or that does not fit.
pub(crate) fn recode_to_fault(
    from: Form,
    to: Form,
    held: &Held,
    part: &[u8],
    room: &mut [u8],
) -> StrictRun
    ensures puts { PutsText FillsPlace from to (held.now ++ part.now)
        (at_place room.old 0) (at_place room.new result.written) result.read }
    ensures stops { StopsAt from to (drop result.read (held.now ++ part.now))
        (length room.old - result.written) result.first }
{
    let mut out = Room::new(room, 0);
    let (read, first) = run_strictly::<Room<'_>>(from, to, held, part, &mut out);
    StrictRun {
        read,
        written: out.len,
        first,
    }
}

// `recode_to_fault`, for any type of output.
fn run_strictly<O: BlockOutput>(
    from: Form,
    to: Form,
    held: &Held,
    part: &[u8],
    out: &mut O,
) -> (usize, FirstPiece)
    ensures puts { PutsText O.appends from to (held.now ++ part.now) out.old out.new result.0 }
    ensures stops { StopsAt from to (drop result.0 (held.now ++ part.now)) (O.room out.new) result.1 }
{
    let count = held.len();
    let mut read = 0;
    while read < count {
        let (joined, len) = held.join(part);
        match put_first(from, to, &joined[read..len], out) {
            Ok(count) => read += count,
            Err(first) => return (read, first),
        }
    }
    let (more, first) = run_by_pieces(from, to, &part[read - count..], out);
    (read + more, first)
}

// `run_strictly` if nothing is carried over: in blocks, and then piece by piece.
fn run_by_pieces<O: BlockOutput>(
    from: Form,
    to: Form,
    bytes: &[u8],
    out: &mut O,
) -> (usize, FirstPiece)
    ensures puts { PutsText O.appends from to bytes.now out.old out.new result.0 }
    ensures stops { StopsAt from to (drop result.0 bytes.now) (O.room out.new) result.1 }
{
    let mut read = put_text(from, to, bytes, out);
    'pieces: loop {
        match put_first(from, to, &bytes[read..], out) {
            Ok(count) => read += count,
            Err(first) => return (read, first),
        }
    }
}

// Appends the character that begins the bytes, if one does and it fits. Returns its encoded length, or what was found
// instead.
#[inline(always)]
fn put_first<O: Output>(
    from: Form,
    to: Form,
    bytes: &[u8],
    out: &mut O,
) -> Result<usize, FirstPiece>
    ensures puts { IfOk result (λ n. PutsText O.appends from to bytes.now out.old out.new n) }
    ensures moves { IfOk result (λ n. 0 < n) }
    ensures stops { IfErr result (λ x. StopsAt from to bytes.now (O.room out.new) x) }
    ensures kept { OnErr result (out.new ≡ out.old) }
{
    let first = first_piece(from, bytes);
    let FirstPiece::Char(c, len) = first else {
        return Err(first);
    };
    if put_fitting(to, c, out) {
        return Ok(len);
    }
    Err(first)
}
