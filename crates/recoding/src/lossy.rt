//! Lossy transcoding of text that comes in parts: one U+FFFD for each maximal subpart.
ghost use Rattle.std.specs.Prelude.{◌≡◌, [], ◌+◌, ◌-◌, ◌<◌, ◌≤◌, length, take, IsTrue, IsFalse};
ghost use Rattle.recoding.specs.Faults.{AddsUp, KeepsCount, Replaces, ReplacesLast, replaced_in_all};
ghost use Rattle.recoding.specs.LossyBytes.{AddsAllLossy, AddsLastLossy, AddsLossy, FeedsLossy, FinishesLossy, IsFullLossy, IsLastFullLossy};
ghost use Rattle.recoding.specs.Recoded.{Lacks};
ghost use Rattle.recoding.specs.Rooms.{ComesNearer, IsAmple, IsAmpleFor};

use crate::recoder::Recoder;
use crate::rooms::Progress;
use crate::way::Way;

impl Recoder {
    /// Feeds a part as `feed_into` does, but writes one U+FFFD for each *maximal subpart*, and not one for
    /// each invalid byte. The Unicode standard recommends this (chapter 3, "U+FFFD Substitution of Maximal
    /// Subparts"). Browsers, Python's `errors="replace"` and Rust's `from_utf8_lossy` do it.
    ///
    /// A maximal subpart is the longest start, one to three bytes, of a well-formed sequence that is not
    /// completed: `E2 82 41` becomes one U+FFFD and an `A`. A byte with which no such sequence begins is a
    /// maximal subpart of its own: `E0 80` becomes two U+FFFD, since no well-formed sequence begins with `E0
    /// 80`. In UTF-16 it is a lone surrogate or an odd last byte. But a leading surrogate and an odd byte
    /// that end the input are one, as in browsers and Python. For all other UTF-16, and for valid input, this
    /// call and `feed_into` write the same.
    ///
    /// Bytes that may still become a character are carried over, at most three. Everything before them is
    /// written. `read`, `written` and `is_full` are as for `feed_into`. So is `replaced`: it counts invalid
    /// bytes, lone surrogates and odd last bytes, and not U+FFFD, so a maximal subpart of three bytes adds
    /// three. You may mix this call with the others: each continues with the bytes that the recoder carries
    /// over. End the input by `finish_lossy_into`.
    ///
    /// Cost: O(n) in what is read and written.
    pub fn feed_lossy_into(&mut self, part: &[u8], room: &mut [u8]) -> Progress
        ensures feeds { FeedsLossy self.old part.now room.old room.new result.read result.written self.new }
        ensures full { IsTrue result.is_full →
            IsFullLossy self.new part.now result.read (length room.old - result.written) }
        ensures short { IsTrue result.is_full → length room.old < result.written + 4 }
        ensures enough { IsAmpleFor (length room.old) self.old part.now → IsFalse result.is_full }
        ensures read { IsFalse result.is_full → result.read ≡ length part.now }
        ensures waits { IsFalse result.is_full → Lacks self.old.from self.new.held }
        ensures moves { 4 ≤ length room.old → 0 < length part.now → 0 < result.read + result.written }
        ensures nearer { ComesNearer part.now room.old result.read self.old self.new }
        ensures outcome { AddsLossy self.old (take result.read part.now)
            (take result.written room.new) self.new }
        ensures replaces { Replaces self.old (take result.read part.now) result.replaced self.new }
        ensures total { AddsUp self.old result.replaced self.new }
        ensures counts { KeepsCount self.old (take result.read part.now) self.new }
    {
        let done = self.take(Way::Subparts, part, room);
        self.count_faults(done.replaced);
        done
    }

    /// Finishes as `finish_into` does, after `feed_lossy_into`. If the recoder carries over the front of a
    /// character, that becomes one U+FFFD, in each encoding, and `replaced` counts its bytes, or in UTF-16 its
    /// unit and the odd byte after it. `read` is 0.
    ///
    /// If `is_full` is false, nothing is carried over any more. If it is true, the next character did not
    /// fit: call this again, with a new buffer. Capacity for four bytes is enough for any character.
    ///
    /// Cost: constant.
    pub fn finish_lossy_into(&mut self, room: &mut [u8]) -> Progress
        ensures finishes { FinishesLossy self.old room.old room.new result.written self.new }
        ensures full { IsTrue result.is_full → IsLastFullLossy self.new (length room.old - result.written) }
        ensures short { IsTrue result.is_full → length room.old < result.written + 4 }
        ensures enough { IsAmple (length room.old) (length self.old.held) → IsFalse result.is_full }
        ensures all { IsFalse result.is_full → self.new.held ≡ [] }
        ensures read { result.read ≡ 0 }
        ensures outcome { AddsLastLossy self.old (take result.written room.new) self.new }
        ensures outcome_done { IsFalse result.is_full → AddsAllLossy self.old (take result.written room.new) }
        ensures replaces { ReplacesLast self.old result.replaced self.new }
        ensures total { AddsUp self.old result.replaced self.new }
        ensures counted { IsFalse result.is_full → self.new.replaced ≡ replaced_in_all self.old [] }
    {
        let done = self.take_last_into(Way::Subparts, room);
        self.count_faults(done.replaced);
        done
    }
}
