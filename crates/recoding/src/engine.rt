//! One run over bytes, from any encoding into any other and to any output.
ghost use Rattle.std.specs.Prelude.{◌≡◌, ◌+◌, ◌<◌, ◌≤◌, length, take, drop, IfSome, IfNone, IsTrue, IsFalse};
ghost use Rattle.recoding.specs.Recoded.{Lacks};
ghost use Rattle.recoding.specs.Recodes.{FitsAll};
ghost use Rattle.recoding.specs.Replacing.{IsNext, Reaches, Recodes};
ghost use Rattle.recoding.specs.Strict.{PutsText};

use crate::block_output::BlockOutput;
use crate::form::{Form, WIDEST};
use crate::form_calls::{next_of, put_shown};
use crate::kernels::{Copied, Damaged, Kernel, MANY, Narrowed, Turned, Widened, by_forms};
use crate::next_scalar::{ShownPiece, first_four};
use crate::output::Output;
use crate::repair::Repair;
use crate::text::{Text, Utf8, Utf16};
use crate::way::{Replacing, Way};
use utf_lanes::byte_order::{BigEndian, LittleEndian};
use utf_lanes::replacements::{Each, Subparts};

// The number of bytes that are transcoded by the careful path before a run tries the fast path again, if they
// have no fault.
pub(crate) const STRIDE: usize = 16;

// The number of bytes that are transcoded by the careful path from a fault on.
pub(crate) const AFTER_FAULT: usize = 4;

// The number of bytes that one run by the careful path transcodes, even if all are invalid: windows take less time.
const MOST: usize = 32;

// The number of bytes of text that are transcoded character by character before a run tries blocks again.
const STRETCH: usize = 128;

// A fault is near the last one if blocks have fewer bytes between them.
const NEAR: usize = 256;

// The progress of a run.
#[derive(Clone, Copy, Drop)]
pub(crate) struct Reached {
    // The number of bytes that were transcoded.
    pub(crate) read: usize,
    // The number of their faults that were replaced.
    pub(crate) replaced: usize,
    // Whether it ended because the next code does not fit.
    pub(crate) is_full: bool,
    // Whether it ended because the bytes that follow decide the scalar of the last ones.
    pub(crate) is_waiting: bool,
}

// Transcodes the bytes as far as no later byte can change their scalars, and as far as there is capacity: in blocks
// if the bytes allow it, then character by character, and by the careful path only at a fault, at the end, or if the
// output is nearly full. `is_ample`: the caller guarantees that the output fits. Monomorphised for each pair of
// encodings, so that the compiler knows them.
#[inline(always)]
pub(crate) fn run<S: Text, T: Text, K: Kernel<S, T>, O: BlockOutput>(
    way: Way<'_>,
    is_ample: bool,
    bytes: &[u8],
    out: &mut O,
) -> Reached
    requires { IsTrue is_ample → FitsAll bytes.now (O.room out.old) }
    ensures reaches { Reaches O.appends O.room way.entry S.form T.form bytes.now out.old out.new result }
    ensures ends { IsFalse result.is_full → IsTrue result.is_waiting }
{
    let mut read = 0;
    let mut replaced = 0;
    // The number of the last runs by the careful path that had faults and are near one another.
    let mut near: usize = 0;
    'parts: loop {
        let blocks = K::put_text(is_ample, &bytes[read..], out);
        read += blocks;
        if MANY <= blocks {
            continue;
        }
        if read == bytes.len() {
            return ended(read, replaced, false, true);
        }
        if NEAR <= blocks {
            near = 0;
        }
        let is_damaged = K::CROWD <= near;
        let damaged = put_near::<S, T, K, O>(way, is_damaged, is_ample, &bytes[read..], out);
        read += damaged.read;
        replaced += damaged.replaced;
        if 0 < damaged.read {
            continue;
        }
        let count = recode_stretch::<S, T, K, O>(is_ample, &bytes[read..], out);
        read += count;
        // A stretch without a fault extends to its last code.
        if count < STRETCH - 3 {
            if read == bytes.len() {
                return ended(read, replaced, false, true);
            }
            let few = recode_carefully::<S, T, O>(way, is_ample, &bytes[read..], out);
            read += few.read;
            replaced += few.replaced;
            if 0 < few.replaced {
                near = near.saturating_add(1);
            }
            if few.is_full || few.is_waiting {
                return ended(read, replaced, few.is_full, few.is_waiting);
            }
        }
    }
}

// Transcodes damaged bytes in windows: in all if faults are near, otherwise only in those that cost little.
#[inline(always)]
fn put_near<S: Text, T: Text, K: Kernel<S, T>, O: BlockOutput>(
    way: Way<'_>,
    is_near: bool,
    is_ample: bool,
    bytes: &[u8],
    out: &mut O,
) -> Damaged
    requires { IsTrue is_ample → FitsAll bytes.now (O.room out.old) }
    ensures { Recodes O.appends way.entry S.form T.form bytes.now out.old out.new result.read result.replaced }
{
    if is_near {
        return K::put_damaged(way, is_ample, bytes, out);
    }
    K::put_plain(way, bytes, out)
}

#[inline(always)]
pub(crate) fn ended(read: usize, replaced: usize, is_full: bool, is_waiting: bool) -> Reached
    ensures { result ≡
        record { read = read; replaced = replaced; is_full = is_full; is_waiting = is_waiting } }
{
    Reached {
        read,
        replaced,
        is_full,
        is_waiting,
    }
}

// Returns true if the worst-case output fits.
#[inline(always)]
pub(crate) fn has_room_for_all<O: Output>(bytes: &[u8], out: &O) -> bool
    ensures { IsTrue result → FitsAll bytes.now (O.room out.now) }
{
    bytes.len() <= out.room() / WIDEST
}

// Returns true if the output fits: the caller guarantees it (`is_ample`), or the worst case does.
#[inline(always)]
fn fits_all<O: Output>(is_ample: bool, bytes: &[u8], out: &O) -> bool
    requires { IsTrue is_ample → FitsAll bytes.now (O.room out.now) }
    ensures { IsTrue result → FitsAll bytes.now (O.room out.now) }
{
    if is_ample {
        return true;
    }
    has_room_for_all(bytes, out)
}

// Transcodes text at the front of the bytes, character by character, up to the end of a stretch, while the worst-case
// output fits; it stops before a fault and before the last bytes.
#[inline(always)]
fn recode_stretch<S: Text, T: Text, K: Kernel<S, T>, O: Output>(
    is_ample: bool,
    bytes: &[u8],
    out: &mut O,
) -> usize
    requires { IsTrue is_ample → FitsAll bytes.now (O.room out.old) }
    ensures { PutsText O.appends S.form T.form bytes.now out.old out.new result }
{
    if K::TAKES_ALL {
        return 0;
    }
    let stretch = &bytes[..STRETCH.min(bytes.len())];
    if fits_all(is_ample, stretch, out) {
        return recode_text::<S, T, O>(stretch, out);
    }
    recode_text_within::<S, T, O>(stretch, out)
}

// Transcodes text at the front of all the bytes, character by character; the output fits.
#[inline(always)]
fn recode_text<S: Text, T: Text, O: Output>(bytes: &[u8], out: &mut O) -> usize
    requires { FitsAll bytes.now (O.room out.old) }
    ensures { PutsText O.appends S.form T.form bytes.now out.old out.new result }
{
    let least = S::least_valid();
    let mut read = 0;
    while least <= bytes.len() - read {
        match S::next_valid(first_four(&bytes[read..])) {
            None => return read,
            Some((c, len)) => {
                T::put_code(c, out);
                read += len;
            }
        }
    }
    read
}

// Transcodes text at the front of the bytes, character by character, while there is capacity for any code.
#[inline(never)]
fn recode_text_within<S: Text, T: Text, O: Output>(bytes: &[u8], out: &mut O) -> usize
    ensures { PutsText O.appends S.form T.form bytes.now out.old out.new result }
{
    let least = S::least_valid();
    let mut read = 0;
    while least <= bytes.len() - read && 4 <= out.room() {
        match S::next_valid(first_four(&bytes[read..])) {
            None => return read,
            Some((c, len)) => {
                T::put_code(c, out);
                read += len;
            }
        }
    }
    read
}

// Transcodes text at the front of the bytes in blocks, as far as they are text and the worst-case output fits.
// Returns the length of that text in bytes.
pub(crate) fn put_text<O: BlockOutput>(from: Form, to: Form, bytes: &[u8], out: &mut O) -> usize
    ensures { PutsText O.appends from to bytes.now out.old out.new result }
{
    by_forms!(from, to, put_all_text::<O>(bytes, out))
}

// `put_text`, monomorphised for a pair of encodings.
#[inline(never)]
fn put_all_text<S: Text, T: Text, K: Kernel<S, T>, O: BlockOutput>(
    bytes: &[u8],
    out: &mut O,
) -> usize
    ensures { PutsText O.appends S.form T.form bytes.now out.old out.new result }
{
    let mut read = 0;
    loop {
        let len = K::put_text(false, &bytes[read..], out);
        if len == 0 {
            return read;
        }
        read += len;
    }
}

// Transcodes a few bytes by the careful path, or fewer from the last fault among them on. If the output fits and the
// ways of replacing differ, each has a loop of its own.
#[inline(always)]
fn recode_carefully<S: Text, T: Text, O: Output>(
    way: Way<'_>,
    is_ample: bool,
    bytes: &[u8],
    out: &mut O,
) -> Reached
    requires { IsTrue is_ample → FitsAll bytes.now (O.room out.old) }
    ensures reaches { Reaches O.appends O.room way.entry S.form T.form bytes.now out.old out.new result }
    ensures moves { IsFalse result.is_full → IsFalse result.is_waiting → 0 < result.read }
{
    if !fits_all(is_ample, bytes, out) {
        return recode_within::<O>(way, S::form(), T::form(), bytes, out);
    }
    if S::IS_ONE_WAY {
        return recode_faults::<S, T, Way<'_>, O>(way, bytes, out);
    }
    match way {
        Way::Faults => recode_faults::<S, T, Each, O>(Each, bytes, out),
        Way::Subparts => recode_faults::<S, T, Subparts, O>(Subparts, bytes, out),
        Way::Table(repair) => recode_faults::<S, T, Repair<'_>, O>(repair, bytes, out),
    }
}

// The careful path if the output fits. Outlined, since the loop rarely calls it.
#[inline(never)]
fn recode_faults<'a, S: Text, T: Text, F: Replacing<'a>, O: Output>(
    by: F,
    bytes: &[u8],
    out: &mut O,
) -> Reached
    requires { FitsAll bytes.now (O.room out.old) }
    ensures reaches { Reaches O.appends O.room (F.way by) S.form T.form bytes.now out.old out.new result }
    ensures moves { IsFalse result.is_full → IsFalse result.is_waiting → 0 < result.read }
{
    let mut stop = STRIDE;
    let mut read = 0;
    let mut replaced = 0;
    while read < stop {
        let Some(first) = next_at::<S>(by.way(), bytes, read) else {
            return ended(read, replaced, false, true);
        };
        // The compiler knows the code of U+FFFD if nothing else is written here.
        match first {
            ShownPiece::Char(c, len) => {
                T::put_code(c, out);
                read += len;
            }
            ShownPiece::Fault(len) => {
                stop = MOST.min(read + AFTER_FAULT);
                T::put_any(S::replacement(by.way(), &bytes[read..]), out);
                read += len;
                replaced += S::count_parts(len);
            }
        }
    }
    ended(read, replaced, false, false)
}

// The careful path as far as there is capacity. Not monomorphised: only the end of a full output is written by it.
#[inline(never)]
fn recode_within<O: Output>(
    way: Way<'_>,
    from: Form,
    to: Form,
    bytes: &[u8],
    out: &mut O,
) -> Reached
    ensures reaches { Reaches O.appends O.room way.entry from to bytes.now out.old out.new result }
    ensures moves { IsFalse result.is_full → IsFalse result.is_waiting → 0 < result.read }
{
    let mut read = 0;
    let mut replaced = 0;
    while read < STRIDE {
        let Some(first) = next_of(way, from, first_four(&bytes[read..])) else {
            return ended(read, replaced, false, true);
        };
        if !put_shown(to, first.c, out) {
            return ended(read, replaced, true, false);
        }
        read += first.len;
        replaced += first.faults;
    }
    ended(read, replaced, false, false)
}

// The piece at an offset of the bytes, decided by at most four of them; `None` if it depends on what follows
// all of them.
#[inline(always)]
fn next_at<S: Text>(way: Way<'_>, bytes: &[u8], place: usize) -> Option<ShownPiece>
    requires { place ≤ length bytes.now }
    ensures some { IfSome result (λ x. IsNext way.entry S.form (take 4 (drop place bytes.now)) x) }
    ensures few { IfNone result (length bytes.now ≤ place + 3) }
    ensures lacks { IfNone result (Lacks S.form (drop place bytes.now)) }
{
    if place + 4 <= bytes.len() {
        return S::next_piece(way, &bytes[place..place + 4]);
    }
    S::next_piece(way, &bytes[place..])
}
