//! Blocks transcoded from one encoding to another, to any output: copied, widened or narrowed.
ghost use Rattle.std.specs.Prelude.{◌≡◌, ◌-◌, ◌+◌, ◌*◌, ◌<◌, ◌≤◌, length, slice_index, slice_range, IfNone, IfSome, IsTrue, IsFalse, IsUtf8};
ghost use Rattle.recoding.specs.Recodes.{FitsAll, PutsLanes};
ghost use Rattle.recoding.specs.Replacing.{Recodes, ReplacesUnits};
ghost use Rattle.recoding.specs.Strict.{PutsText};
ghost use Rattle.recoding.specs.NextScalars.{utf16_form};
ghost use Rattle.recoding.specs.declared.form.Form.TheVariants as form;
ghost use Rattle.recoding.specs.declared.way.Way.{Way as AnyWay};
ghost use Rattle.utf_lanes.specs.PlainWindows.{plain_unit};
ghost use Rattle.utf_lanes.specs.UnitCodes.{lane_unit};
ghost use Rattle.utf_lanes.specs.UnitMending.{AreTextUnits};
ghost use Rattle.utf_lanes.specs.Utf8ToUtf16.{concat_range, utf16_bytes};

use crate::ascii_to_utf16::{put_ascii_64, put_ascii_as_utf16, put_ascii_front};
use crate::block_output::BlockOutput;
use crate::form::WIDEST;
use crate::next_scalar::ascii_of_units;
use crate::output::Output;
use crate::repair::{Coded, Repair};
use crate::text::{Text, Utf8, Utf16};
use crate::turned::copy_units;
use crate::way::{Way, Windowed};
use utf_lanes::ascii_texts::{is_ascii, is_ascii_block};
use utf_lanes::byte_order::ByteOrder;
use utf_lanes::mending::{LEAST, MADE, mend};
use utf_lanes::plain_windows::{lone_count, plain_units};
use utf_lanes::replacements::{Each, Subparts};
use utf_lanes::text_blocks::{are_text, ends_character, text_end, text_len};
use utf_lanes::text_puts::{write_few, write_first, write_rest};
use utf_lanes::unit_bytes::thirty_two_halves;
use utf_lanes::unit_mending::{MendedUnits, interleaved, mended_units};

// The number of bytes that are validated before they are copied or widened, while they are in the cache.
pub(crate) const PART: usize = 8192;

// The number of bytes that the last blocks must have for a run to try blocks directly after them: all of a part but
// its last code.
pub(crate) const MANY: usize = PART - 4;

// The number of bytes of text after which damaged bytes end: faults farther apart take less time one by one.
const LONG: usize = 1024;

// The number of bytes that have to be left for a plain window: its own, and the three that decide what its last bytes are.
const PLAIN: usize = 67;

// The length of a window of damaged units in bytes, and the capacity that its output needs.
const WINDOW: usize = 64;

const WINDOW_ROOM: usize = 112;

// The greatest number of windows without a fault after which damaged units do not end.
const CALM: usize = 8;

// The greatest number of bytes that are first tested for ASCII. Above this, an error would rescan too much.
const SHORT: usize = 1024;

// The progress of transcoding damaged bytes.
#[derive(Clone, Copy, Drop)]
pub(crate) struct Damaged {
    // The number of bytes that were transcoded.
    pub(crate) read: usize,
    // The number of their faults that were replaced.
    pub(crate) replaced: usize,
}

// Nothing was transcoded.
pub(crate) const NOTHING: Damaged = Damaged {
    read: 0,
    replaced: 0,
};

// Blocks of text in one encoding, converted to another.
pub(crate) trait Kernel<S: Text, T: Text> {
    // Whether the blocks take all text, so that the rest begins with a fault, is near the end, or needs more
    // capacity.
    const TAKES_ALL: bool;

    // The number of places with faults near one another from which on windows take less time than the careful path.
    const CROWD: usize;

    // Transcodes text at the front of the bytes in blocks, as far as the worst-case output fits; `is_ample`: the
    // caller guarantees that it does. Returns the length of that text in bytes.
    fn put_text<O: BlockOutput>(is_ample: bool, bytes: &[u8], out: &mut O) -> usize
        requires { IsTrue is_ample → FitsAll bytes.now (O.room out.old) }
        ensures { PutsText O.appends S.form T.form bytes.now out.old out.new result };

    // Transcodes damaged bytes in windows, up to the last few, as far as the worst-case output fits; nothing if this
    // pair of encodings has no windows.
    fn put_damaged<O: BlockOutput>(
        _way: Way<'_>,
        _is_ample: bool,
        _bytes: &[u8],
        _out: &mut O,
    ) -> Damaged
        requires { IsTrue _is_ample → FitsAll _bytes.now (O.room _out.old) }
        ensures { Recodes O.appends _way.entry S.form T.form _bytes.now _out.old _out.new result.read result.replaced }
    {
        NOTHING
    }

    // Transcodes damaged bytes in windows that cost little to set up, so that a single fault is worth one, as far as
    // there is capacity; nothing if this pair of encodings has none.
    fn put_plain<O: BlockOutput>(_way: Way<'_>, _bytes: &[u8], _out: &mut O) -> Damaged
        ensures { Recodes O.appends _way.entry S.form T.form _bytes.now _out.old _out.new result.read result.replaced }
    {
        NOTHING
    }
}

// UTF-8, copied.
pub(crate) struct Copied;

// UTF-8 as UTF-16.
pub(crate) struct Widened;

// UTF-16 as UTF-8.
pub(crate) struct Narrowed;

// UTF-16, copied or with the bytes of each unit swapped.
pub(crate) struct Turned;

impl Kernel<Utf8, Utf8> for Copied {
    const TAKES_ALL: bool = true;

    const CROWD: usize = 1;

    #[inline(never)]
    fn put_text<O: BlockOutput>(is_ample: bool, bytes: &[u8], out: &mut O) -> usize {
        let most = PART.min(most_copied(is_ample, bytes, out));
        let part = &bytes[..most];
        if most <= SHORT && is_ascii(part) {
            out.put(part);
            return most;
        }
        let len = text_len(part);
        out.put(&part[..len]);
        len
    }

    #[inline(always)]
    fn put_damaged<O: BlockOutput>(
        way: Way<'_>,
        is_ample: bool,
        bytes: &[u8],
        out: &mut O,
    ) -> Damaged {
        let most = most_widened(is_ample, bytes, out);
        if most < LEAST {
            return NOTHING;
        }
        match way {
            Way::Faults => copy_damaged::<Each, O>(Each, &bytes[..most], out),
            Way::Subparts => copy_damaged::<Subparts, O>(Subparts, &bytes[..most], out),
            Way::Table(repair) => match repair.coded() {
                Some(coded) => copy_damaged::<Coded<'_>, O>(coded, &bytes[..most], out),
                None => copy_damaged::<Repair<'_>, O>(repair, &bytes[..most], out),
            },
        }
    }
}

// Copies damaged bytes, mended, up to the last few: between damaged windows also text.
#[inline(never)]
fn copy_damaged<F: Windowed, O: Output>(by: F, bytes: &[u8], out: &mut O) -> Damaged
    requires { FitsAll bytes.now (O.room out.old) }
    ensures { Recodes O.appends (F.way by) form.Utf8 form.Utf8 bytes.now out.old out.new
        result.read result.replaced }
{
    let mut made = [0; MADE];
    let mut read = 0;
    let mut replaced = 0;
    'parts: loop {
        let done = mend::<F>(by, &bytes[read..], &mut made);
        if done.read == 0 {
            return Damaged { read, replaced };
        }
        out.put(&made[..done.len]);
        let place = read + done.read;
        replaced += done.replaced;
        let end = next_text_end(bytes, place);
        out.put(&bytes[place..end]);
        read = end;
        if LONG <= end - place {
            return Damaged { read, replaced };
        }
    }
}

// Returns where the text ends that begins at an offset, at most that of a part.
#[inline(never)]
fn next_text_end(bytes: &[u8], place: usize) -> usize
    requires { place ≤ length bytes.now }
    ensures least { place ≤ result }
    ensures within { result ≤ length bytes.now }
    ensures text { IsUtf8 (slice_range bytes.now place result) }
{
    let part = &bytes[..(place + PART).min(bytes.len())];
    if 3 <= place && ends_character(part, place) {
        return text_end(part, place);
    }
    place
}

impl<E: ByteOrder> Kernel<Utf8, Utf16<E>> for Widened {
    const TAKES_ALL: bool = false;

    const CROWD: usize = 3;

    #[inline(always)]
    fn put_text<O: BlockOutput>(is_ample: bool, bytes: &[u8], out: &mut O) -> usize {
        let most = PART.min(most_doubled(is_ample, bytes, out));
        // Fewer bytes are transcoded with SIMD only if all of their output fits.
        if most < 32 && most < bytes.len() {
            return 0;
        }
        let part = &bytes[..most];
        if most <= SHORT && is_ascii(part) {
            put_ascii_as_utf16::<O, E>(part, out);
            return most;
        }
        if most < 32 {
            return put_few::<O, E>(part, out);
        }
        let front = put_ascii_front::<O, E>(part, out);
        front + put_judged::<O, E>(&part[front..], out)
    }

    #[inline(always)]
    fn put_damaged<O: BlockOutput>(
        way: Way<'_>,
        is_ample: bool,
        bytes: &[u8],
        out: &mut O,
    ) -> Damaged {
        let most = most_widened(is_ample, bytes, out);
        if most < LEAST {
            return NOTHING;
        }
        match way {
            Way::Faults => widen_damaged::<Each, O, E>(Each, &bytes[..most], out),
            Way::Subparts => widen_damaged::<Subparts, O, E>(Subparts, &bytes[..most], out),
            Way::Table(repair) => match repair.coded() {
                Some(coded) => widen_damaged::<Coded<'_>, O, E>(coded, &bytes[..most], out),
                None => widen_damaged::<Repair<'_>, O, E>(repair, &bytes[..most], out),
            },
        }
    }

    #[inline(always)]
    fn put_plain<O: BlockOutput>(way: Way<'_>, bytes: &[u8], out: &mut O) -> Damaged {
        if !may_be_plain(bytes) {
            return NOTHING;
        }
        match way {
            Way::Faults => widen_plain::<Each, O, E>(Each, bytes, out),
            Way::Subparts => widen_plain::<Subparts, O, E>(Subparts, bytes, out),
            Way::Table(_) => NOTHING,
        }
    }
}

// Appends the units of damaged bytes, mended, up to the last few: between damaged windows also those of plain windows
// and of text.
#[inline(never)]
fn widen_damaged<F: Windowed, O: BlockOutput, E: ByteOrder>(
    by: F,
    bytes: &[u8],
    out: &mut O,
) -> Damaged
    ensures { Recodes O.appends (F.way by) form.Utf8 (utf16_form E.HIGH_FIRST) bytes.now
        out.old out.new result.read result.replaced }
{
    let mut made = [0; MADE];
    let mut read = 0;
    let mut replaced = 0;
    'parts: loop {
        let done = mend::<F>(by, &bytes[read..], &mut made);
        if done.read == 0 || is_few(done.len) || out.room() < WIDEST * done.len {
            return Damaged { read, replaced };
        }
        put_mended::<O, E>(&made[..done.len], out);
        read += done.read;
        replaced += done.replaced;
        let plain = put_plain::<F, O, E>(by, &bytes[read..], out);
        read += plain.read;
        replaced += plain.replaced;
        let end = put_next_text::<O, E>(bytes, read, out);
        if LONG <= end - read {
            return Damaged {
                read: end,
                replaced,
            };
        }
        read = end;
    }
}

// Returns false if there is no plain window at the front of the bytes: this takes less time than to look at all of one.
#[inline(always)]
fn may_be_plain(bytes: &[u8]) -> bool
    ensures enough { IsTrue result → PLAIN ≤ length bytes.now }
    ensures first { IsTrue result → 0x80 ≤ slice_index bytes.now 0 → slice_index bytes.now 1 < 0x80 }
{
    PLAIN <= bytes.len() && (bytes[0] < 0x80 || bytes[1] < 0x80)
}

// `put_plain`, outlined.
#[inline(never)]
fn widen_plain<F: Windowed, O: Output, E: ByteOrder>(by: F, bytes: &[u8], out: &mut O) -> Damaged
    ensures { Recodes O.appends (F.way by) form.Utf8 (utf16_form E.HIGH_FIRST) bytes.now
        out.old out.new result.read result.replaced }
{
    put_plain::<F, O, E>(by, bytes, out)
}

// Appends the units of the plain windows at the front of the bytes: in these each byte is ASCII, or is replaced by
// itself.
#[inline(always)]
fn put_plain<F: Windowed, O: Output, E: ByteOrder>(by: F, bytes: &[u8], out: &mut O) -> Damaged
    ensures { Recodes O.appends (F.way by) form.Utf8 (utf16_form E.HIGH_FIRST) bytes.now
        out.old out.new result.read result.replaced }
{
    if !may_be_plain(bytes) {
        return NOTHING;
    }
    let mut read = 0;
    let mut replaced = 0;
    while PLAIN <= bytes.len() - read && 128 <= out.room() {
        match put_plain_window::<F, O, E>(by, &bytes[read..], out) {
            None => return Damaged { read, replaced },
            Some(faults) => {
                read += 64;
                replaced += faults;
            }
        }
    }
    Damaged { read, replaced }
}

// Appends the units of the first 64 bytes, if each is ASCII, or is replaced by itself. Returns the number of those
// that are replaced.
#[inline(always)]
fn put_plain_window<F: Windowed, O: Output, E: ByteOrder>(
    by: F,
    bytes: &[u8],
    out: &mut O,
) -> Option<usize>
    requires enough { PLAIN ≤ length bytes.now }
    requires room { 128 ≤ O.room out.old }
    ensures some { IfSome result (λ faults. Recodes O.appends (F.way by) form.Utf8 (utf16_form E.HIGH_FIRST)
        bytes.now out.old out.new 64 faults) }
    ensures none { IfNone result (out.new ≡ out.old) }
{
    if is_ascii_block(bytes, 0) {
        put_ascii_64::<O, E>(bytes, 0, out);
        return Some(0);
    }
    if !F::is_replacement() {
        return None;
    }
    let faults = lone_count(bytes, 0)?;
    put_plain_64::<O, E>(bytes, out);
    Some(faults)
}

// Appends the units of the first 64 bytes, of which each is ASCII, or is replaced by U+FFFD.
#[inline(always)]
fn put_plain_64<O: Output, E: ByteOrder>(bytes: &[u8], out: &mut O)
    requires enough { 64 ≤ length bytes.now }
    requires room { 128 ≤ O.room out.old }
    ensures { O.appends out.old (concat_range (λ k. plain_unit E.HIGH_FIRST (slice_index bytes.now k)) 0 64) out.new }
{
    let (first, second) = plain_units::<E>(bytes, 0);
    out.put_wide(first);
    out.put_wide(second);
}

// Appends the units of a text of 32 bytes or more, or nothing for bytes that were all left out.
#[inline(always)]
fn put_mended<O: BlockOutput, E: ByteOrder>(text: &[u8], out: &mut O)
    requires long { 0 < length text.now → 32 ≤ length text.now }
    requires room { WIDEST * length text.now ≤ O.room out.old }
    ensures { O.appends out.old (utf16_bytes E.HIGH_FIRST text.now 0 (length text.now)) out.new }
{
    if !text.is_empty() {
        out.put_units::<E>(text);
    }
}

// Appends the units of the text that begins at an offset, at most those of a part, if it is long enough and the
// worst-case output fits. Returns where it ends.
#[inline(always)]
fn put_next_text<O: BlockOutput, E: ByteOrder>(bytes: &[u8], place: usize, out: &mut O) -> usize
    requires { place ≤ length bytes.now }
    ensures least { place ≤ result }
    ensures within { result ≤ length bytes.now }
    ensures text { IsUtf8 (slice_range bytes.now place result) }
    ensures appends { O.appends out.old (utf16_bytes E.HIGH_FIRST (slice_range bytes.now place result) 0
        (length (slice_range bytes.now place result))) out.new }
{
    let end = next_text_end(bytes, place);
    if end - place < 32 || out.room() / WIDEST < end - place {
        return place;
    }
    out.put_units::<E>(&bytes[place..end]);
    end
}

// Returns true if there are bytes, but fewer than vectors take.
#[inline(always)]
fn is_few(len: usize) -> bool
    ensures { IsFalse result → 0 < len → 32 ≤ len }
{
    0 < len && len < 32
}

// Appends the units of text at the front of a few bytes, which is validated as a whole before. Returns its length in
// bytes, or 0 if the bytes fit neither in one vector nor in two: if they are fewer than four, or seventeen or
// eighteen.
#[inline(never)]
fn put_few<O: Output, E: ByteOrder>(bytes: &[u8], out: &mut O) -> usize
    requires few { length bytes.now < 32 }
    requires room { 2 * length bytes.now ≤ O.room out.old }
    ensures { PutsText O.appends form.Utf8 (utf16_form E.HIGH_FIRST) bytes.now out.old out.new result }
{
    if bytes.len() < 19 {
        return put_at_once::<O, E>(&bytes[..bytes.len().min(16)], out);
    }
    let len = text_len(bytes);
    if len < 19 {
        return 0;
    }
    put_few_as_utf16::<O, E>(&bytes[..len], out);
    len
}

// Appends the units of text that fits in two vectors.
#[inline(always)]
#[tactic(auto, using(crate::proofs::GivenBytes::length_given))]
fn put_few_as_utf16<O: Output, E: ByteOrder>(text: &[u8], out: &mut O)
    requires long { 19 ≤ length text.now }
    requires few { length text.now < 32 }
    requires room { 2 * length text.now ≤ O.room out.old }
    ensures { O.appends out.old (utf16_bytes E.HIGH_FIRST text.now 0 (length text.now)) out.new }
{
    let mut made = [0; 96];
    let first = write_first::<E>(text, &mut made, 0);
    let last = write_rest::<E>(text, 16, &mut made, first);
    out.put(&made[..last]);
}

// Appends the units of bytes that fit in one vector, if all of them are text. Returns their number, or 0.
#[inline(always)]
fn put_at_once<O: Output, E: ByteOrder>(bytes: &[u8], out: &mut O) -> usize
    requires few { length bytes.now ≤ 16 }
    requires room { 2 * length bytes.now ≤ O.room out.old }
    ensures { PutsText O.appends form.Utf8 (utf16_form E.HIGH_FIRST) bytes.now out.old out.new result }
{
    if bytes.len() < 4 || !are_text(bytes) {
        return 0;
    }
    put_one_vector::<O, E>(bytes, out);
    bytes.len()
}

// Appends the units of text that fits in one vector.
#[inline(always)]
#[tactic(auto, using(crate::proofs::GivenBytes::length_given))]
fn put_one_vector<O: Output, E: ByteOrder>(text: &[u8], out: &mut O)
    requires some { 4 ≤ length text.now }
    requires few { length text.now ≤ 16 }
    requires room { 2 * length text.now ≤ O.room out.old }
    ensures { O.appends out.old (utf16_bytes E.HIGH_FIRST text.now 0 (length text.now)) out.new }
{
    let mut made = [0; 32];
    let end = write_few::<E>(text, &mut made);
    out.put(&made[..end]);
}

// Appends the units of text at the front of some bytes, which is validated as a whole before, as far as the full
// vectors that are stored fit. Returns its length in bytes, or 0 if these bytes are few.
#[inline(never)]
fn put_judged<O: BlockOutput, E: ByteOrder>(bytes: &[u8], out: &mut O) -> usize
    ensures { PutsText O.appends form.Utf8 (utf16_form E.HIGH_FIRST) bytes.now out.old out.new result }
{
    let most = bytes.len().min(out.room().saturating_sub(32) / 2);
    let part = &bytes[..most];
    let len = text_len(part);
    if len < 19 {
        return 0;
    }
    out.put_units::<E>(&part[..len]);
    len
}

impl<E: ByteOrder> Kernel<Utf16<E>, Utf8> for Narrowed {
    const TAKES_ALL: bool = false;

    const CROWD: usize = 0;

    #[inline(never)]
    fn put_text<O: BlockOutput>(is_ample: bool, bytes: &[u8], out: &mut O) -> usize {
        let len = out.put_blocks::<E>(bytes);
        len + narrow_ascii::<O, E>(&bytes[len..], out)
    }

    #[inline(always)]
    fn put_damaged<O: BlockOutput>(
        way: Way<'_>,
        _is_ample: bool,
        bytes: &[u8],
        out: &mut O,
    ) -> Damaged {
        put_damaged_units::<Utf8, O, E>(way, bytes, out)
    }
}

// Encodings in which mended units are written at once.
trait TakesUnits: Text {
    // Appends the units that are text.
    fn put_mended<O: BlockOutput>(units: MendedUnits, out: &mut O)
        requires text { AreTextUnits units.low units.high units.len }
        requires room { 112 ≤ O.room out.old }
        ensures { PutsLanes O.appends Self.form (lane_unit units.low units.high) out.old out.new units.len };
}

impl TakesUnits for Utf8 {
    #[inline(always)]
    fn put_mended<O: BlockOutput>(units: MendedUnits, out: &mut O) {
        out.put_text_units(units.low, units.high, units.len);
    }
}

impl<W: ByteOrder> TakesUnits for Utf16<W> {
    #[inline(always)]
    fn put_mended<O: BlockOutput>(units: MendedUnits, out: &mut O) {
        let (front, back) = interleaved::<W>(units.low, units.high);
        let last = back.to_array();
        out.put(&front.to_array());
        out.put(&last[..2 * units.len - 32]);
    }
}

// Transcodes damaged units in windows, if U+FFFD replaces lone surrogates.
#[inline(always)]
fn put_damaged_units<T: TakesUnits, O: BlockOutput, E: ByteOrder>(
    way: Way<'_>,
    bytes: &[u8],
    out: &mut O,
) -> Damaged
    ensures { Recodes O.appends way.entry (utf16_form E.HIGH_FIRST) T.form bytes.now out.old out.new
        result.read result.replaced }
{
    if bytes.len() < WINDOW || !replaces_units(way) {
        return NOTHING;
    }
    put_windows::<T, O, E>(bytes, out)
}

// Returns true if U+FFFD replaces a lone surrogate.
#[inline(always)]
fn replaces_units(way: Way<'_>) -> bool
    ensures { IsTrue result → ReplacesUnits way.entry }
{
    match way {
        Way::Faults | Way::Subparts => true,
        Way::Table(repair) => repair.unit_for().is_some(),
    }
}

// Transcodes damaged units in windows, up to the last few, as far as the worst-case output fits. It ends after some
// windows without a fault: as many as there were faults, and a few at most.
#[inline(never)]
fn put_windows<T: TakesUnits, O: BlockOutput, E: ByteOrder>(bytes: &[u8], out: &mut O) -> Damaged
    ensures { (way : AnyWay) → ReplacesUnits way → Recodes O.appends way (utf16_form E.HIGH_FIRST) T.form bytes.now
        out.old out.new result.read result.replaced }
{
    let mut read = 0;
    let mut replaced = 0;
    let mut calm = 0;
    while calm <= CALM.min(replaced) && WINDOW <= bytes.len() - read && WINDOW_ROOM <= out.room() {
        let (low, high) = thirty_two_halves::<E>(&bytes[read..]);
        let units = mended_units(low, high);
        T::put_mended::<O>(units, out);
        read += 2 * units.len;
        replaced += units.replaced;
        calm = if units.replaced == 0 { calm + 1 } else { 0 };
    }
    Damaged { read, replaced }
}

// Transcodes the blocks of eight units of ASCII at the front of the bytes to UTF-8, as far as there is capacity.
// Returns their length in bytes.
#[inline(always)]
fn narrow_ascii<O: Output, E: ByteOrder>(bytes: &[u8], out: &mut O) -> usize
    ensures { PutsText O.appends (utf16_form E.HIGH_FIRST) form.Utf8 bytes.now out.old out.new result }
{
    let mut place = 0;
    while 16 <= bytes.len() - place && 8 <= out.room() {
        match ascii_of_units::<E>(&bytes[place..place + 16]) {
            None => return place,
            Some(ascii) => {
                out.put(&ascii);
                place += 16;
            }
        }
    }
    place
}

impl<E: ByteOrder, W: ByteOrder> Kernel<Utf16<E>, Utf16<W>> for Turned {
    const TAKES_ALL: bool = false;

    const CROWD: usize = 0;

    #[inline(always)]
    fn put_text<O: BlockOutput>(is_ample: bool, bytes: &[u8], out: &mut O) -> usize {
        let most = most_copied(is_ample, bytes, out);
        if most < 16 {
            return 0;
        }
        copy_units::<O, E, W>(&bytes[..most], out)
    }

    #[inline(always)]
    fn put_damaged<O: BlockOutput>(
        way: Way<'_>,
        _is_ample: bool,
        bytes: &[u8],
        out: &mut O,
    ) -> Damaged {
        put_damaged_units::<Utf16<W>, O, E>(way, bytes, out)
    }
}

// The number of the bytes that fit if they are copied.
#[inline(always)]
fn most_copied<O: Output>(is_ample: bool, bytes: &[u8], out: &O) -> usize
    requires { IsTrue is_ample → FitsAll bytes.now (O.room out.now) }
    ensures within { result ≤ length bytes.now }
    ensures room { result ≤ O.room out.now }
{
    if is_ample {
        return bytes.len();
    }
    bytes.len().min(out.room())
}

// The number of the bytes of UTF-8 whose units fit: a byte gives at most one unit.
#[inline(always)]
fn most_doubled<O: Output>(is_ample: bool, bytes: &[u8], out: &O) -> usize
    requires { IsTrue is_ample → FitsAll bytes.now (O.room out.now) }
    ensures within { result ≤ length bytes.now }
    ensures room { 2 * result ≤ O.room out.now }
{
    if is_ample {
        return bytes.len();
    }
    bytes.len().min(out.room() / 2)
}

// The number of the bytes whose worst-case output fits.
#[inline(always)]
fn most_widened<O: Output>(is_ample: bool, bytes: &[u8], out: &O) -> usize
    requires { IsTrue is_ample → FitsAll bytes.now (O.room out.now) }
    ensures within { result ≤ length bytes.now }
    ensures room { WIDEST * result ≤ O.room out.now }
{
    if is_ample {
        return bytes.len();
    }
    bytes.len().min(out.room() / WIDEST)
}

// Calls a function under the types of two encodings and of the blocks between them, and optionally of an
// output.
macro_rules! by_forms {
    ($from:expr, $to:expr, $call:ident $(::<$output:ty>)? ($($given:expr),*)) => {
        match ($from, $to) {
            (Form::Utf8, Form::Utf8) => $call::<Utf8, Utf8, Copied $(, $output)?>($($given),*),
            (Form::Utf8, Form::Utf16Le) => $call::<Utf8, Utf16<LittleEndian>, Widened $(, $output)?>($($given),*),
            (Form::Utf8, Form::Utf16Be) => $call::<Utf8, Utf16<BigEndian>, Widened $(, $output)?>($($given),*),
            (Form::Utf16Le, Form::Utf8) => $call::<Utf16<LittleEndian>, Utf8, Narrowed $(, $output)?>($($given),*),
            (Form::Utf16Le, Form::Utf16Le) => $call::<Utf16<LittleEndian>, Utf16<LittleEndian>, Turned $(, $output)?>($($given),*),
            (Form::Utf16Le, Form::Utf16Be) => $call::<Utf16<LittleEndian>, Utf16<BigEndian>, Turned $(, $output)?>($($given),*),
            (Form::Utf16Be, Form::Utf8) => $call::<Utf16<BigEndian>, Utf8, Narrowed $(, $output)?>($($given),*),
            (Form::Utf16Be, Form::Utf16Le) => $call::<Utf16<BigEndian>, Utf16<LittleEndian>, Turned $(, $output)?>($($given),*),
            (Form::Utf16Be, Form::Utf16Be) => $call::<Utf16<BigEndian>, Utf16<BigEndian>, Turned $(, $output)?>($($given),*),
        }
    };
}

pub(crate) use by_forms;
