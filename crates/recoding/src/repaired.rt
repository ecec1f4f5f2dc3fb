//! Transcoding of text that comes in parts, whose invalid input becomes what a table has for it.
ghost use Rattle.std.specs.Prelude.{◌≡◌, [], ◌+◌, ◌-◌, ◌<◌, ◌≤◌, length, take, IsTrue, IsFalse};
ghost use Rattle.recoding.specs.Faults.{AddsUp, KeepsCount, Replaces, ReplacesLast, replaced_in_all};
ghost use Rattle.recoding.specs.Recoded.{Lacks};
ghost use Rattle.recoding.specs.Repaired.{AddsAllRepaired, AddsLastRepaired, AddsRepaired, FeedsRepaired, FinishesRepaired, IsFullRepaired, IsLastFullRepaired};
ghost use Rattle.recoding.specs.Rooms.{ComesNearer, IsAmple, IsAmpleFor};

use crate::recoder::Recoder;
use crate::repair::Repair;
use crate::rooms::Progress;
use crate::way::Way;

impl Recoder {
    /// Feeds a part as `feed_into` does, but writes for each invalid byte what the table has for it: a character, or
    /// nothing. So text that is UTF-8 but for bytes of another encoding becomes what was meant.
    ///
    /// `replaced` counts invalid bytes, lone surrogates and odd last bytes, also those that were left out. `read`,
    /// `written` and `is_full` are as for `feed_into`, and so is what is carried over. You may mix this call with the
    /// others. End the input by `finish_repaired_into`.
    ///
    /// Cost: O(n) in what is read and written.
    pub fn feed_repaired_into(
        &mut self,
        part: &[u8],
        room: &mut [u8],
        repair: Repair<'_>,
    ) -> Progress
        ensures feeds { FeedsRepaired repair.entry.chars.now self.old part.now room.old room.new
            result.read result.written self.new }
        ensures full { IsTrue result.is_full →
            IsFullRepaired repair.entry.chars.now self.new part.now result.read (length room.old - result.written) }
        ensures short { IsTrue result.is_full → length room.old < result.written + 4 }
        ensures enough { IsAmpleFor (length room.old) self.old part.now → IsFalse result.is_full }
        ensures read { IsFalse result.is_full → result.read ≡ length part.now }
        ensures waits { IsFalse result.is_full → Lacks self.old.from self.new.held }
        ensures moves { 4 ≤ length room.old → 0 < length part.now → 0 < result.read + result.written }
        ensures nearer { ComesNearer part.now room.old result.read self.old self.new }
        ensures outcome { AddsRepaired repair.entry.chars.now self.old (take result.read part.now)
            (take result.written room.new) self.new }
        ensures replaces { Replaces self.old (take result.read part.now) result.replaced self.new }
        ensures total { AddsUp self.old result.replaced self.new }
        ensures counts { KeepsCount self.old (take result.read part.now) self.new }
    {
        let done = self.take(Way::Table(repair), part, room);
        self.count_faults(done.replaced);
        done
    }

    /// Finishes as `finish_into` does, after `feed_repaired_into`: the carried-over bytes are invalid, and become what
    /// the table has for them. `read` is 0.
    ///
    /// If `is_full` is false, nothing is carried over any more. If it is true, the next character did not
    /// fit: call this again, with a new buffer. Capacity for four bytes is enough for any character.
    ///
    /// Cost: constant.
    pub fn finish_repaired_into(&mut self, room: &mut [u8], repair: Repair<'_>) -> Progress
        ensures finishes { FinishesRepaired repair.entry.chars.now self.old room.old room.new
            result.written self.new }
        ensures full { IsTrue result.is_full →
            IsLastFullRepaired repair.entry.chars.now self.new (length room.old - result.written) }
        ensures short { IsTrue result.is_full → length room.old < result.written + 4 }
        ensures enough { IsAmple (length room.old) (length self.old.held) → IsFalse result.is_full }
        ensures all { IsFalse result.is_full → self.new.held ≡ [] }
        ensures read { result.read ≡ 0 }
        ensures outcome { AddsLastRepaired repair.entry.chars.now self.old (take result.written room.new) self.new }
        ensures outcome_done { IsFalse result.is_full →
            AddsAllRepaired repair.entry.chars.now self.old (take result.written room.new) }
        ensures replaces { ReplacesLast self.old result.replaced self.new }
        ensures total { AddsUp self.old result.replaced self.new }
        ensures counted { IsFalse result.is_full → self.new.replaced ≡ replaced_in_all self.old [] }
    {
        let done = self.take_last_into(Way::Table(repair), room);
        self.count_faults(done.replaced);
        done
    }
}
