//! Transcoding of text that comes in parts, which may be cut anywhere, also inside a character or a unit.
ghost use Rattle.std.specs.Prelude.{◌≡◌, ◌<◌, ◌≤◌, [], ◌+◌, ◌*◌, min, length, OnOk, OnErr, IsOk, IfErr, ℕ, List, ◌-◌, ◌++◌, take, drop, IsTrue, IsFalse};
ghost use Rattle.recoding.specs.Outputs.{Extends};
ghost use Rattle.recoding.specs.Replacing.{FillsPlace, IsLastFullBy, Takes, TakesAll, TakesLast, TakesPart, at_place};
ghost use Rattle.recoding.specs.Recoded.{Feeds, Finishes, FinishesWith, Lacks, fresh, most_held};
ghost use Rattle.recoding.specs.Faults.{AddsUp, CountsFed, KeepsCount, Replaces, ReplacesLast, fault_count, replaced_in_all, saturated};
ghost use Rattle.recoding.specs.LossyBytes.{lossy, lossy_outcome};
ghost use Rattle.recoding.specs.RecodedBytes.{AddsAll, AddsLast, AddsOutcome, KeepsOutcome, outcome, recoded};
ghost use Rattle.recoding.specs.Rooms.{ComesNearer, FeedsInto, FinishesInto, HasRoomFor, IsFull, IsLastFull, bytes_left};

use crate::engine::{Reached, ended};
use crate::form::{Form, WIDEST};
use crate::form_calls::{last_of, put_shown};
use crate::held::Held;
use crate::output::Output;
use crate::recoder_runs::{progress, recode_into, recode_whole};
use crate::room::Room;
use crate::rooms::Progress;
use crate::way::Way;
use std::alloc::{AllocError, Allocator};
use std::marker::Model;

/// Converts text that comes in parts from one encoding into another. It carries over at most three bytes
/// between calls.
///
/// Each invalid byte of UTF-8 becomes U+FFFD, the replacement character. In UTF-16 each lone
/// surrogate does (RFC 2781, section 2.2), and so does an odd byte at the end. A character may
/// begin in one part and end in another: the output does not depend on how the input was divided.
#[derive(Debug, Drop)]
pub struct Recoder {
    // The first field, so that no store to the others overlaps its count, which would stall each call on store
    // forwarding.
    pub(crate) held: Held,
    from: Form,
    to: Form,
    replaced: u64,
}

impl Model for Recoder {
    ghost use Rattle.recoding.specs.Recoded.{Recoding};

    ghost Value = { Recoding };

    ghost view = { λ r. record { from = r.from; to = r.to; held = r.held; replaced = r.replaced } };
}

/// A recoder that could not be finished, because an allocation failed.
#[derive(Debug, Drop)]
pub struct Unfinished {
    /// The recoder as it was.
    pub recoder: Recoder,
    /// Why it was not finished.
    pub cause: AllocError,
}

// So `?` drops what was not finished, and returns the reason.
impl From<Unfinished> for AllocError {
    ghost from_gives = { λ unfinished error. error ≡ unfinished.cause };

    /// Why it was not finished: so `?` drops the recoder.
    fn from(unfinished: Unfinished) -> AllocError {
        unfinished.cause
    }
}

impl Recoder {
    /// A recoder that carries over nothing and has replaced nothing.
    #[tactic(auto, unfolding(crate::specs::RecodedBytes::outcome, crate::specs::Faults::replaced_in_all, crate::specs::LossyBytes::lossy_outcome))]
    pub fn new(from: Form, to: Form) -> Recoder
        ensures nothing { result ≡ fresh from to }
        ensures outcome { (out later : List ℕ) → outcome result out later ≡ out ++ recoded from to later }
        ensures counts { (later : List ℕ) →
            replaced_in_all result later ≡ saturated (fault_count from later) }
        ensures lossy { (out later : List ℕ) → lossy_outcome result out later ≡ out ++ lossy from to later }
    {
        Recoder::holding(from, to, &[])
    }

    /// Takes the next part, and appends to `out` what it becomes. If the last bytes of the part may begin a
    /// character, or are half a unit, the recoder carries them over to the next call. Everything before them
    /// is written.
    ///
    /// If allocation fails, nothing has changed: feed the same part again. (All memory is allocated before
    /// the first byte is written.) An empty part allocates nothing.
    ///
    /// Cost: O(n) in the part, allocates at most three bytes for each byte that is carried over or in the
    /// part.
    #[inline(always)]
    #[tactic(auto, using(crate::proofs::RecodedLists::outcome_fed, crate::proofs::Advancing::fed_counts, crate::proofs::Taking::all_feeds, crate::proofs::Taking::all_counted, crate::proofs::Taking::all_lacks))]
    pub fn feed<A: Allocator>(
        &mut self,
        part: &[u8],
        out: &mut Vec<u8, A>,
    ) -> Result<(), AllocError>
        ensures ok { OnOk result (Feeds self.old part.now out.old.items out.new.items self.new) }
        ensures err { OnErr result (self.new ≡ self.old) }
        ensures unwritten { OnErr result (out.new.items ≡ out.old.items) }
        ensures waits { 0 < length part.now → OnOk result (Lacks self.old.from self.new.held) }
        ensures nothing { length part.now ≡ 0 → IsOk result × (out.new ≡ out.old) }
        ensures unchanged { length part.now ≡ 0 → self.new ≡ self.old }
        ensures succeeds { HasRoomFor out.old (length self.old.held + length part.now) → IsOk result }
        ensures outcome { OnOk result (KeepsOutcome self.old out.old.items part.now out.new.items self.new) }
        ensures replaces { OnOk result (CountsFed self.old part.now self.new) }
        ensures counts { OnOk result (KeepsCount self.old part.now self.new) }
    {
        // Reading both brings their ranges into scope, also for an empty part.
        let count = self.held.len();
        let _replaced = self.replaced;
        if part.is_empty() {
            return Ok(());
        }
        if count == 0 {
            return self.feed_alone(part, out);
        }
        self.feed_joined(part, out)
    }

    // `feed` of some bytes if nothing is carried over.
    #[inline(always)]
    fn feed_alone<A: Allocator>(
        &mut self,
        part: &[u8],
        out: &mut Vec<u8, A>,
    ) -> Result<(), AllocError>
        requires { length self.old.held ≡ 0 }
        ensures ok { OnOk result (TakesAll self.old part.now out.old out.new self.new) }
        ensures err { OnErr result (self.new ≡ self.old) }
        ensures unwritten { OnErr result (out.new.items ≡ out.old.items) }
        ensures succeeds { HasRoomFor out.old (length part.now) → IsOk result }
    {
        out.reserve(part.len().saturating_mul(WIDEST))?;
        let run = recode_whole(self.from, self.to, part, out);
        self.held.hold(&part[run.read..]);
        self.count_faults(run.replaced);
        Ok(())
    }

    // `feed` if bytes are carried over: outlined slow path, so that the test is inlined.
    #[inline(never)]
    fn feed_joined<A: Allocator>(
        &mut self,
        part: &[u8],
        out: &mut Vec<u8, A>,
    ) -> Result<(), AllocError>
        ensures ok { OnOk result (TakesAll self.old part.now out.old out.new self.new) }
        ensures err { OnErr result (self.new ≡ self.old) }
        ensures unwritten { OnErr result (out.new.items ≡ out.old.items) }
        ensures succeeds { HasRoomFor out.old (length self.old.held + length part.now) → IsOk result }
    {
        out.reserve((self.held.len() + part.len()).saturating_mul(WIDEST))?;
        let replaced = self.append_joined(part, out);
        self.count_faults(replaced);
        Ok(())
    }

    // Takes a part if bytes are carried over and the output fits. They go first, with up to three bytes of the part. A
    // run leaves at most three bytes, so it leaves none of them if the part has more. Returns the number of faults that
    // were replaced, which are not counted yet.
    fn append_joined<A: Allocator>(&mut self, part: &[u8], out: &mut Vec<u8, A>) -> usize
        requires { HasRoomFor out.old (length self.old.held + length part.now) }
        ensures takes { Takes Extends Way.Faults self.old part.now out.old out.new
            (length part.now) result self.new }
        ensures waits { Lacks self.old.from self.new.held }
    {
        let count = self.held.len();
        let (joined, len) = self.held.join(part);
        let first = recode_whole(self.from, self.to, &joined[..len], out);
        if part.len() <= 3 {
            self.held.hold(&joined[first.read..len]);
            return first.replaced;
        }
        let rest = &part[first.read - count..];
        let then = recode_whole(self.from, self.to, rest, out);
        self.held.hold(&rest[then.read..]);
        first.replaced + then.replaced
    }

    // Appends what the carried-over bytes become at the end to a list with enough capacity.
    fn append_last<A: Allocator>(&mut self, out: &mut Vec<u8, A>)
        requires { HasRoomFor out.old (length self.old.held) }
        ensures { Finishes self.old out.old.items out.new.items }
    {
        let _done = self.take_last::<Vec<u8, A>>(Way::Faults, out);
    }

    // Adds to the count of faults, as far as 64 bits count.
    #[inline(always)]
    pub(crate) fn count_faults(&mut self, count: usize)
        ensures { self.new ≡ record (self.old) { replaced = saturated (self.old.replaced + count) } }
    {
        let replaced = self.replaced;
        if 0 < count {
            self.replaced = replaced.saturating_add(count as u64);
        }
    }

    /// Ends the input: appends to `out` what the carried-over bytes become. In UTF-8 each of them becomes one
    /// U+FFFD. In UTF-16 a leading surrogate becomes one, and so does an odd byte.
    ///
    /// If allocation fails, the error contains the recoder as it was: finish that again. If nothing is
    /// carried over, nothing is allocated. `replaced_at_end`, called before, returns how many invalid bytes
    /// became U+FFFD in all.
    ///
    /// Cost: constant, allocates at most nine bytes.
    #[inline(always)]
    #[tactic(auto, using(crate::proofs::RecodedLists::outcome_finished))]
    pub fn finish<A: Allocator>(self, out: &mut Vec<u8, A>) -> Result<(), Unfinished>
        ensures ok { OnOk result (Finishes self out.old.items out.new.items) }
        ensures err { IfErr result (λ e. e.recoder ≡ self) }
        ensures unwritten { OnErr result (out.new.items ≡ out.old.items) }
        ensures nothing { length self.held ≡ 0 → IsOk result }
        ensures succeeds { HasRoomFor out.old (length self.held) → IsOk result }
        ensures outcome { OnOk result (out.new.items ≡ outcome self out.old.items []) }
    {
        if self.held.len() == 0 {
            return Ok(());
        }
        self.finish_held(out)
    }

    // `finish` if bytes are carried over: outlined slow path, so that the test is inlined.
    #[inline(never)]
    fn finish_held<A: Allocator>(self, out: &mut Vec<u8, A>) -> Result<(), Unfinished>
        ensures ok { OnOk result (Finishes self out.old.items out.new.items) }
        ensures err { IfErr result (λ e. e.recoder ≡ self) }
        ensures unwritten { OnErr result (out.new.items ≡ out.old.items) }
        ensures succeeds { HasRoomFor out.old (length self.held) → IsOk result }
    {
        if let Err(cause) = out.reserve(WIDEST * self.held.len()) {
            return Err(Unfinished {
                recoder: self,
                cause,
            });
        }
        let mut recoder = self;
        recoder.append_last(out);
        Ok(())
    }

    /// A recoder that carries over these bytes and has replaced nothing. With the bytes that another recoder carries
    /// over it continues in its place.
    ///
    /// Condition: there are at most three bytes.
    #[inline(always)]
    pub fn holding(from: Form, to: Form, held: &[u8]) -> Recoder
        requires { length held.now ≤ most_held }
        ensures { result ≡ record (fresh from to) { held = held.now } }
    {
        Recoder {
            held: Held::of(held),
            from,
            to,
            replaced: 0,
        }
    }

    // The encodings of the input and of the output.
    #[inline(always)]
    pub(crate) fn forms(&self) -> (Form, Form)
        ensures from { result.0 ≡ self.now.from }
        ensures to { result.1 ≡ self.now.to }
        ensures few { length self.now.held ≤ most_held }
    {
        // It tells a proof that few bytes are held.
        let _ = self.held.len();
        (self.from, self.to)
    }

    /// The bytes that were fed and are not converted yet: at most three.
    pub fn held(&self) -> &[u8]
        ensures bytes { result.now ≡ self.now.held }
        ensures few { length result.now ≤ most_held }
    {
        self.held.as_slice()
    }

    /// The number of invalid bytes, lone surrogates and odd last bytes that the recoder has replaced since it
    /// was made. A U+FFFD in the input does not count. The count stops at 2^64 - 1.
    ///
    /// It is the same in each way of replacing: a maximal subpart of three bytes counts as three, and a byte
    /// that a table leaves out counts too. The calls that stop at the first invalid byte replace nothing.
    pub fn replaced(&self) -> u64
        ensures { result ≡ self.now.replaced }
    {
        self.replaced
    }

    /// The value of `replaced` if the input ends now: the carried-over bytes are then invalid, and become U+FFFD too.
    #[tactic(auto, using(crate::proofs::Advancing::counts_all))]
    pub fn replaced_at_end(&self) -> u64
        ensures replaces { result ≡ saturated (self.now.replaced + fault_count self.now.from self.now.held) }
        ensures counts { result ≡ replaced_in_all self.now [] }
    {
        let count = faults_at_end(self.from, self.held.as_slice());
        self.replaced.saturating_add(count as u64)
    }

    /// `feed` into a buffer of a fixed size, as iconv(3) does: it reads and writes as far as there is
    /// capacity. `read` bytes of the part were fed. To continue, call again with the bytes after them, and
    /// with a new buffer.
    ///
    /// After the bytes that were written, the rest of the buffer may hold anything. Use only its first
    /// `written` bytes.
    ///
    /// If `is_full` is false, the whole part was read. If it is true, the next character did not fit. At most
    /// three of the bytes that were read are carried over to the next call, and nothing is lost. With
    /// capacity for four bytes, each call reads or writes something.
    ///
    /// Cost: O(n) in what is read and written.
    #[inline(always)]
    pub fn feed_into(&mut self, part: &[u8], room: &mut [u8]) -> Progress
        ensures feeds { FeedsInto self.old part.now room.old room.new result.read result.written self.new }
        ensures full { IsTrue result.is_full →
            IsFull self.new part.now result.read (length room.old - result.written) }
        ensures short { IsTrue result.is_full → length room.old < result.written + 4 }
        ensures read { IsFalse result.is_full → result.read ≡ length part.now }
        ensures waits { IsFalse result.is_full → Lacks self.old.from self.new.held }
        ensures moves { 4 ≤ length room.old → 0 < length part.now → 0 < result.read + result.written }
        ensures nearer { ComesNearer part.now room.old result.read self.old self.new }
        ensures outcome { AddsOutcome self.old (take result.read part.now)
            (take result.written room.new) self.new }
        ensures replaces { Replaces self.old (take result.read part.now) result.replaced self.new }
        ensures total { AddsUp self.old result.replaced self.new }
        ensures counts { KeepsCount self.old (take result.read part.now) self.new }
    {
        // Not by `take`: each way returns by itself, so the counts of the first stay in registers.
        let count = self.held.len();
        if count == 0 {
            let done = self.take_alone(Way::Faults, part, room, 0);
            self.count_faults(done.replaced);
            return done;
        }
        let done = self.take_joined(Way::Faults, part, room);
        self.count_faults(done.replaced);
        done
    }

    // Takes a part into a buffer of a fixed size. Faults are not counted yet.
    #[inline(always)]
    pub(crate) fn take(&mut self, way: Way<'_>, part: &[u8], room: &mut [u8]) -> Progress
        ensures { TakesPart way.entry self.old part.now (at_place room.old 0) room.new result self.new }
    {
        let count = self.held.len();
        if count == 0 {
            return self.take_alone(way, part, room, 0);
        }
        self.take_joined(way, part, room)
    }

    // Takes a part if nothing is carried over, into a buffer from an offset on. Faults are not counted yet.
    #[inline(always)]
    fn take_alone(&mut self, way: Way<'_>, part: &[u8], room: &mut [u8], place: usize) -> Progress
        requires none { length self.old.held ≡ 0 }
        requires place { place ≤ length room.old }
        ensures { TakesPart way.entry self.old part.now (at_place room.old place) room.new result self.new }
    {
        let done = recode_into(way, self.from, self.to, part, room, place);
        let end = part.len().min(done.read + 3);
        self.held.hold(&part[done.read..end]);
        Progress { read: end, ..done }
    }

    // Takes a part if bytes are carried over: outlined, so that the test is inlined. They go first, with up to three
    // bytes of the part. A run that is not full leaves at most three bytes, so it leaves none of them if the part has
    // more.
    #[inline(never)]
    fn take_joined(&mut self, way: Way<'_>, part: &[u8], room: &mut [u8]) -> Progress
        ensures { TakesPart way.entry self.old part.now (at_place room.old 0) room.new result self.new }
    {
        let count = self.held.len();
        let (joined, len) = self.held.join(part);
        let first = recode_into(way, self.from, self.to, &joined[..len], room, 0);
        if first.is_full || part.len() <= 3 {
            let end = len.min(first.read + 3);
            self.held.hold(&joined[first.read..end]);
            return Progress {
                read: end - count,
                ..first
            };
        }
        let start = first.read - count;
        let rest = &part[start..];
        let then = recode_into(way, self.from, self.to, rest, room, first.written);
        let end = rest.len().min(then.read + 3);
        self.held.hold(&rest[then.read..end]);
        Progress {
            read: start + end,
            replaced: first.replaced + then.replaced,
            ..then
        }
    }

    /// `finish` into a buffer of a fixed size. `read` is 0. After the bytes that were written, the rest of
    /// the buffer may hold anything.
    ///
    /// If `is_full` is false, nothing is carried over any more. If it is true, the next character did not
    /// fit: call this again, and not `feed_into`, with a new buffer. Capacity for four bytes is enough for
    /// any character.
    #[inline(always)]
    pub fn finish_into(&mut self, room: &mut [u8]) -> Progress
        ensures finishes { FinishesInto self.old room.old room.new result.written self.new }
        ensures full { IsTrue result.is_full → IsLastFull self.new (length room.old - result.written) }
        ensures short { IsTrue result.is_full → length room.old < result.written + 4 }
        ensures all { IsFalse result.is_full → self.new.held ≡ [] }
        ensures done { IsFalse result.is_full → FinishesWith self.old (take result.written room.new) }
        ensures read { result.read ≡ 0 }
        ensures outcome { AddsLast self.old (take result.written room.new) self.new }
        ensures outcome_done { IsFalse result.is_full → AddsAll self.old (take result.written room.new) }
        ensures replaces { ReplacesLast self.old result.replaced self.new }
        ensures total { AddsUp self.old result.replaced self.new }
        ensures counts { replaced_in_all self.new [] ≡ replaced_in_all self.old [] }
        ensures counted { IsFalse result.is_full → self.new.replaced ≡ replaced_in_all self.old [] }
    {
        // Reading it brings its range into scope.
        let _replaced = self.replaced;
        if self.held.len() == 0 {
            return progress(0, 0, 0, false);
        }
        let done = self.take_last_into(Way::Faults, room);
        self.count_faults(done.replaced);
        done
    }

    // Takes the carried-over bytes at the end into a buffer of a fixed size. Faults are not counted yet.
    #[inline(never)]
    pub(crate) fn take_last_into(&mut self, way: Way<'_>, room: &mut [u8]) -> Progress
        ensures takes { TakesLast FillsPlace way.entry self.old
            (at_place room.old 0) (at_place room.new result.written) result.replaced self.new }
        ensures full { IsTrue result.is_full → IsLastFullBy way.entry self.new (length room.old - result.written) }
        ensures short { IsTrue result.is_full → length room.old < result.written + 4 }
        ensures all { IsFalse result.is_full → self.new.held ≡ [] }
        ensures read { result.read ≡ 0 }
    {
        let mut out = Room::new(room, 0);
        let done = self.take_last::<Room<'_>>(way, &mut out);
        progress(0, out.len, done.replaced, done.is_full)
    }

    // Transcodes the carried-over bytes that nothing follows, until nothing is carried over, or the output is
    // full.
    pub(crate) fn take_last<O: Output>(&mut self, way: Way<'_>, out: &mut O) -> Reached
        ensures takes { TakesLast O.appends way.entry self.old out.old out.new result.replaced self.new }
        ensures full { IsTrue result.is_full → IsLastFullBy way.entry self.new (O.room out.new) }
        ensures short { IsTrue result.is_full → O.room out.new < 4 }
        ensures all { IsFalse result.is_full → self.new.held ≡ [] }
    {
        let (from, to) = self.forms();
        let mut replaced = 0;
        while self.held.len() > 0 {
            let first = last_of(way, from, self.held.as_slice());
            let is_put = put_shown(to, first.c, out);
            if !is_put {
                return ended(0, replaced, true, false);
            }
            let _more = self.held.drop_front(first.len);
            replaced += first.faults;
        }
        ended(0, replaced, false, false)
    }
}

// The number of faults in the bytes, which nothing follows.
fn faults_at_end(from: Form, bytes: &[u8]) -> usize
    ensures { result ≡ fault_count from bytes.now }
{
    let mut place = 0;
    let mut count = 0;
    while place < bytes.len() {
        let first = last_of(Way::Faults, from, &bytes[place..]);
        place += first.len;
        count += first.faults;
    }
    count
}
