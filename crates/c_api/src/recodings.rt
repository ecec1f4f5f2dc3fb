//! Transcoding into a caller-supplied buffer.
ghost use Rattle.std.specs.Prelude.{◌≡◌, true, [], ◌∷◌, ◌+◌, ◌-◌, ◌<◌, ◌≤◌, ◌^◌, ◌++◌, length, take, drop};
ghost use Rattle.cuts.specs.Faults.{saturated};
ghost use Rattle.cuts.specs.Recoded.{Lacks};
ghost use Rattle.cuts.specs.Rooms.{FeedsInto, FinishesInto, IsFull, IsLastFull, most_bytes};
ghost use Rattle.c_api.specs.Api.{CountsEnd, CountsPart, IfForms, IfRecoder, IsForm, IsRecoder, form_of, held_by, recoder_of};

use cuts::{Form, Recoder, room_for};

/// A recoder, in memory of the caller.
#[repr(C)]
#[derive(Clone, Copy, Drop)]
pub struct NodyRecoder {
    /// The encoding of the input: 0 for UTF-8, 1 for UTF-16LE, 2 for UTF-16BE.
    pub from: u8,
    /// The encoding of the output.
    pub to: u8,
    /// The number of carried-over bytes.
    pub count: u8,
    /// The carried-over bytes, followed by unused ones.
    pub held: [u8; 3],
    /// The number of invalid bytes, lone surrogates and odd last bytes that were replaced.
    pub replaced: u64,
}

// The results of calls: all was done, the next character did not fit, or the arguments are invalid.
pub(crate) const DONE: u8 = 0;

pub(crate) const FULL: u8 = 1;

pub(crate) const REFUSED: u8 = 2;

// The encoding of a number.
pub(crate) fn form_of(number: u8) -> Form
    requires { IsForm number }
    ensures { result ≡ form_of number }
{
    match number {
        0 => Form::Utf8,
        1 => Form::Utf16Le,
        2.. => Form::Utf16Be,
    }
}

// The number of an encoding.
pub(crate) fn number_of_form(form: Form) -> u8
    ensures is_form { IsForm result }
    ensures form { form_of result ≡ form }
{
    match form {
        Form::Utf8 => 0,
        Form::Utf16Le => 1,
        Form::Utf16Be => 2,
    }
}

// Returns true if the struct is a recoder.
pub(crate) fn is_recoder(recoder: &NodyRecoder) -> bool
    ensures yes { result ≡ true → IsRecoder recoder.now }
    ensures no { IsRecoder recoder.now → result ≡ true }
{
    recoder.from < 3 && recoder.to < 3 && recoder.count <= 3
}

/// A recoder that carries over nothing and has replaced nothing.
#[unsafe(no_mangle)]
pub extern "C" fn nody_recoder(from: u8, to: u8) -> NodyRecoder
    ensures { result ≡ record { from = from; to = to; count = 0; held = 0 ∷ 0 ∷ 0 ∷ []; replaced = 0 } }
{
    NodyRecoder {
        from,
        to,
        count: 0,
        held: [0; 3],
        replaced: 0,
    }
}

// The `Recoder` that the struct represents.
pub(crate) fn opened(recoder: &NodyRecoder) -> Recoder
    requires { IsRecoder recoder.now }
    ensures { result ≡ recoder_of recoder.now }
{
    Recoder::holding(
        form_of(recoder.from),
        form_of(recoder.to),
        &recoder.held[..recoder.count as usize],
    )
}

// Stores the recoder's carried-over bytes into the struct. Its count of replacements is not added.
pub(crate) fn keep(recoder: &mut NodyRecoder, inner: &Recoder)
    requires from { inner.now.from ≡ form_of recoder.old.from }
    requires to { inner.now.to ≡ form_of recoder.old.to }
    ensures kept { recoder_of recoder.new ≡ record (inner.now) { replaced = 0 } }
    ensures count { recoder.new.count ≡ length inner.now.held }
    ensures uncounted { recoder.new.replaced ≡ recoder.old.replaced }
    ensures is_recoder { IsRecoder recoder.old → IsRecoder recoder.new }
{
    let held = inner.held();
    recoder.count = held.len() as u8;
    if !held.is_empty() {
        recoder.held[..held.len()].copy_from_slice(held);
    }
}

// The count plus `more`, as far as 64 bits count.
pub(crate) fn with_more(count: u64, more: usize) -> u64
    ensures { result ≡ saturated (count + more) }
{
    count.saturating_add(more as u64)
}

/// Feeds a part, as far as there is capacity, and adds to `replaced` the number of U+FFFD that it wrote for invalid
/// input. Returns 0 if all of the part was read; 1 if the next character does not fit; 2, with nothing changed, if
/// the struct is not a recoder.
#[unsafe(no_mangle)]
pub extern "C" fn nody_recoder_feed(
    recoder: &mut NodyRecoder,
    part: &[u8],
    room: &mut [u8],
    read: &mut usize,
    written: &mut usize,
) -> u8
    ensures recoder { IsRecoder recoder.old → IsRecoder recoder.new }
    ensures feeds { IfRecoder recoder.old recoder.new
        (λ r s. FeedsInto r part.now room.old room.new read.new written.new s) }
    ensures all { IsRecoder recoder.old → result ≡ 0 → read.new ≡ length part.now }
    ensures waits { IfRecoder recoder.old recoder.new (λ r s. result ≡ 0 → Lacks r.from s.held) }
    ensures full { IfRecoder recoder.old recoder.new
        (λ r s. result ≡ 1 → IsFull s part.now read.new (length room.old - written.new)) }
    ensures short { IsRecoder recoder.old → result ≡ 1 → length room.old < written.new + 4 }
    ensures status { IsRecoder recoder.old → result < 2 }
    ensures counts { IsRecoder recoder.old → CountsPart recoder.old (take read.new part.now) recoder.new }
    ensures refused { result ≡ 2 → (recoder.new ≡ recoder.old) × (room.new ≡ room.old) }
    ensures none { result ≡ 2 → (read.new ≡ 0) × (written.new ≡ 0) }
    ensures wrong { ¬ IsRecoder recoder.old → result ≡ 2 }
{
    *read = 0;
    *written = 0;
    if !is_recoder(recoder) {
        return REFUSED;
    }
    if recoder.count == 0 {
        let fresh = Recoder::new(form_of(recoder.from), form_of(recoder.to));
        return feed_inner(recoder, fresh, part, room, read, written);
    }
    feed_with_held(recoder, part, room, read, written)
}

// Feeds a part to a recoder that carries over bytes. Outlined, so that the compiler keeps in registers a recoder that
// carries over none.
#[inline(never)]
fn feed_with_held(
    recoder: &mut NodyRecoder,
    part: &[u8],
    room: &mut [u8],
    read: &mut usize,
    written: &mut usize,
) -> u8
    requires { IsRecoder recoder.old }
    ensures recoder { IsRecoder recoder.new }
    ensures feeds { FeedsInto (recoder_of recoder.old) part.now room.old room.new read.new written.new
        (recoder_of recoder.new) }
    ensures all { result ≡ 0 → read.new ≡ length part.now }
    ensures waits { result ≡ 0 → Lacks (form_of recoder.old.from) (held_by recoder.new) }
    ensures full { result ≡ 1 →
        IsFull (recoder_of recoder.new) part.now read.new (length room.old - written.new) }
    ensures short { result ≡ 1 → length room.old < written.new + 4 }
    ensures status { result < 2 }
    ensures counts { CountsPart recoder.old (take read.new part.now) recoder.new }
{
    let start = opened(recoder);
    feed_inner(recoder, start, part, room, read, written)
}

// Feeds a part to the recoder in the struct.
#[inline(always)]
fn feed_inner(
    recoder: &mut NodyRecoder,
    start: Recoder,
    part: &[u8],
    room: &mut [u8],
    read: &mut usize,
    written: &mut usize,
) -> u8
    requires recoder { IsRecoder recoder.old }
    requires start { start ≡ recoder_of recoder.old }
    ensures recoder { IsRecoder recoder.new }
    ensures feeds { FeedsInto (recoder_of recoder.old) part.now room.old room.new read.new written.new
        (recoder_of recoder.new) }
    ensures all { result ≡ 0 → read.new ≡ length part.now }
    ensures waits { result ≡ 0 → Lacks (form_of recoder.old.from) (held_by recoder.new) }
    ensures full { result ≡ 1 →
        IsFull (recoder_of recoder.new) part.now read.new (length room.old - written.new) }
    ensures short { result ≡ 1 → length room.old < written.new + 4 }
    ensures status { result < 2 }
    ensures counts { CountsPart recoder.old (take read.new part.now) recoder.new }
{
    let mut inner = start;
    let progress = inner.feed_into(part, room);
    keep(recoder, &inner);
    recoder.replaced = with_more(recoder.replaced, progress.replaced);
    *read = progress.read;
    *written = progress.written;
    if progress.is_full { FULL } else { DONE }
}

/// Transcodes the carried-over bytes at the end of the input, and adds to `replaced` the number of U+FFFD that it
/// wrote. Returns 0 if nothing is carried over any more; 1 if the next character does not fit; 2, with nothing
/// changed, if the struct is not a recoder.
#[unsafe(no_mangle)]
pub extern "C" fn nody_recoder_finish(
    recoder: &mut NodyRecoder,
    room: &mut [u8],
    written: &mut usize,
) -> u8
    ensures recoder { IsRecoder recoder.old → IsRecoder recoder.new }
    ensures finishes { IfRecoder recoder.old recoder.new
        (λ r s. FinishesInto r room.old room.new written.new s) }
    ensures all { IsRecoder recoder.old → result ≡ 0 → recoder.new.count ≡ 0 }
    ensures full { IfRecoder recoder.old recoder.new
        (λ r s. result ≡ 1 → IsLastFull s (length room.old - written.new)) }
    ensures short { IsRecoder recoder.old → result ≡ 1 → length room.old < written.new + 4 }
    ensures status { IsRecoder recoder.old → result < 2 }
    ensures counts { IsRecoder recoder.old → CountsEnd recoder.old recoder.new }
    ensures refused { result ≡ 2 → (recoder.new ≡ recoder.old) × (room.new ≡ room.old) }
    ensures none { result ≡ 2 → written.new ≡ 0 }
    ensures wrong { ¬ IsRecoder recoder.old → result ≡ 2 }
{
    *written = 0;
    if !is_recoder(recoder) {
        return REFUSED;
    }
    if recoder.count == 0 {
        // Reading it brings its range into scope.
        let _replaced = recoder.replaced;
        return DONE;
    }
    finish_with_held(recoder, room, written)
}

// Finishes a recoder that carries over bytes. Outlined, as `feed_with_held` is.
#[inline(never)]
fn finish_with_held(recoder: &mut NodyRecoder, room: &mut [u8], written: &mut usize) -> u8
    requires { IsRecoder recoder.old }
    ensures recoder { IsRecoder recoder.new }
    ensures finishes { FinishesInto (recoder_of recoder.old) room.old room.new written.new
        (recoder_of recoder.new) }
    ensures all { result ≡ 0 → recoder.new.count ≡ 0 }
    ensures full { result ≡ 1 → IsLastFull (recoder_of recoder.new) (length room.old - written.new) }
    ensures short { result ≡ 1 → length room.old < written.new + 4 }
    ensures status { result < 2 }
    ensures counts { CountsEnd recoder.old recoder.new }
{
    let start = opened(recoder);
    finish_inner(recoder, start, room, written)
}

// Finishes the recoder in the struct.
#[inline(always)]
fn finish_inner(
    recoder: &mut NodyRecoder,
    start: Recoder,
    room: &mut [u8],
    written: &mut usize,
) -> u8
    requires recoder { IsRecoder recoder.old }
    requires start { start ≡ recoder_of recoder.old }
    ensures recoder { IsRecoder recoder.new }
    ensures finishes { FinishesInto (recoder_of recoder.old) room.old room.new written.new
        (recoder_of recoder.new) }
    ensures all { result ≡ 0 → recoder.new.count ≡ 0 }
    ensures full { result ≡ 1 → IsLastFull (recoder_of recoder.new) (length room.old - written.new) }
    ensures short { result ≡ 1 → length room.old < written.new + 4 }
    ensures status { result < 2 }
    ensures counts { CountsEnd recoder.old recoder.new }
{
    let mut inner = start;
    let progress = inner.finish_into(room);
    keep(recoder, &inner);
    recoder.replaced = with_more(recoder.replaced, progress.replaced);
    *written = progress.written;
    if progress.is_full { FULL } else { DONE }
}

/// An upper bound, in bytes, of the output for `len` bytes of input; `SIZE_MAX` if a `size_t` cannot count
/// it, or an encoding is not valid.
#[unsafe(no_mangle)]
pub extern "C" fn nody_recoded_len_max(from: u8, to: u8, len: usize) -> usize
    ensures most { IfForms from to (λ f t. most_bytes f t len < 2 ^ 64 → result ≡ most_bytes f t len) }
    ensures none { IfForms from to (λ f t. 2 ^ 64 ≤ most_bytes f t len → result ≡ 2 ^ 64 - 1) }
    ensures from { ¬ IsForm from → result ≡ 2 ^ 64 - 1 }
    ensures to { ¬ IsForm to → result ≡ 2 ^ 64 - 1 }
{
    if 3 <= from || 3 <= to {
        return usize::MAX;
    }
    match room_for(form_of(from), form_of(to), len) {
        Some(room) => room,
        None => usize::MAX,
    }
}

/// The number of bytes that the recoder carries over, at most three, or `SIZE_MAX` if the struct is not a recoder.
/// They are written if the buffer is long enough.
#[unsafe(no_mangle)]
pub extern "C" fn nody_recoder_held(recoder: &NodyRecoder, room: &mut [u8]) -> usize
    ensures count { IsRecoder recoder.now → result ≡ recoder.now.count }
    ensures written { IsRecoder recoder.now → recoder.now.count ≤ length room.old →
        room.new ≡ held_by recoder.now ++ drop recoder.now.count room.old }
    ensures short { IsRecoder recoder.now → length room.old < recoder.now.count → room.new ≡ room.old }
    ensures wrong { ¬ IsRecoder recoder.now → result ≡ 2 ^ 64 - 1 }
    ensures unwritten { ¬ IsRecoder recoder.now → room.new ≡ room.old }
{
    if !is_recoder(recoder) {
        return usize::MAX;
    }
    let held = &recoder.held[..recoder.count as usize];
    if held.len() <= room.len() {
        room[..held.len()].copy_from_slice(held);
    }
    held.len()
}
