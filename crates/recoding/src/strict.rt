//! Strict transcoding of text that comes in parts: up to the first invalid byte, and on from there.
ghost use Rattle.std.specs.Prelude.{◌≡◌, ◌≢◌, ◌+◌, ◌-◌, ◌<◌, ◌≤◌, [], length, ◌++◌, drop};
ghost use Rattle.recoding.specs.FirstFaults.{TellsFirst, TellsFirstAtEnd};
ghost use Rattle.recoding.specs.Recoded.{most_held};
ghost use Rattle.recoding.specs.Rooms.{ComesNearer, IsAmpleForText};
ghost use Rattle.recoding.specs.Strict.{EndsRun, FeedsStrictly, FinishesStrictly, IsFirstPiece};

use crate::faults::{Fault, FaultKind, Outcome, StrictProgress};
use crate::first_pieces::FirstPiece;
use crate::form_calls::lacking_fault;
use crate::recoder::Recoder;
use crate::recoder_runs::{StrictRun, recode_to_fault};

impl Recoder {
    /// Feeds a part as `feed_into` does, but stops at the first invalid byte, and returns its offset and its
    /// kind.
    ///
    /// What was written is exactly the text before that byte. The invalid byte counts as read, and nothing is written
    /// for it. To continue after it, call again with the bytes of the part after those that were read. To reject the
    /// input, stop. A call stops at each invalid byte of UTF-8, and at each lone surrogate of UTF-16.
    ///
    /// The kind never depends on how the input was divided. So bytes are carried over, at most three, if later bytes
    /// decide whether they are invalid, or their kind. After `E9 0A`, the kind of `E9` is `InterruptedSequence` if a
    /// third byte comes, and `TooFewBytes` if the input ends. You may mix calls of `feed_into` and of this one: each
    /// continues with the bytes that the other carries over.
    ///
    /// `Outcome::AllRead`: the whole part was read. `Outcome::Full`: the next character did not fit. With capacity
    /// for four bytes, each call that is given a byte reads or writes something, or passes an invalid byte that was
    /// carried over. With two bytes of capacity for each byte that is carried over or in the part, the buffer is
    /// never full.
    ///
    /// Cost: O(n) in what is read and written.
    pub fn feed_strict_into(&mut self, part: &[u8], room: &mut [u8]) -> StrictProgress
        ensures feeds { FeedsStrictly self.old part.now room.old room.new result self.new }
        ensures read { result.outcome ≡ Outcome.AllRead → result.read ≡ length part.now }
        ensures short { result.outcome ≡ Outcome.Full → length room.old < result.written + 4 }
        ensures enough { IsAmpleForText (length room.old) (length self.old.held + length part.now) →
            result.outcome ≢ Outcome.Full }
        ensures nearer { ComesNearer part.now room.old result.read self.old self.new }
        ensures first { TellsFirst self.old part.now result self.new }
    {
        let (from, to) = self.forms();
        let run = recode_to_fault(from, to, &self.held, part, room);
        let (read, outcome) = self.end_run(run, part);
        StrictProgress {
            read,
            written: run.written,
            outcome,
        }
    }

    // Drops the carried-over bytes that a run transcoded, and the fault at which it stopped, and carries over what it
    // left undecided. Returns how many bytes of the part are read, and why the call ends.
    fn end_run(&mut self, run: StrictRun, part: &[u8]) -> (usize, Outcome)
        requires few { length self.old.held ≤ most_held }
        requires within { run.read ≤ length self.old.held + length part.now }
        requires first { IsFirstPiece self.old.from (drop run.read (self.old.held ++ part.now)) run.first }
        ensures { EndsRun self.old part.now run result self.new }
    {
        match run.first {
            FirstPiece::Char(_, _) => (self.held.drop_front(run.read), Outcome::Full),
            FirstPiece::Fault(kind, len) => {
                let read = self.held.drop_front(run.read + len);
                (read, faulty(kind, len, self.held.len()))
            }
            FirstPiece::Undecided => {
                let read = self.held.drop_front(run.read);
                self.held.shift(&part[read..], 0);
                (part.len(), Outcome::AllRead)
            }
        }
    }

    /// Finishes as `finish_into` does, but stops at the first invalid byte. `read` is 0.
    ///
    /// If the recoder carries over the front of a character, its first byte is invalid, of the kind
    /// `TooFewBytes` or `Incomplete`. To continue after it, call this again.
    ///
    /// `Outcome::AllRead`: nothing is carried over any more. `Outcome::Full`: the next character did not fit.
    /// Capacity for four bytes is enough for any character, and for six bytes for all.
    pub fn finish_strict_into(&mut self, room: &mut [u8]) -> StrictProgress
        ensures finishes { FinishesStrictly self.old room.old room.new result self.new }
        ensures read { result.read ≡ 0 }
        ensures all { result.outcome ≡ Outcome.AllRead → self.new.held ≡ [] }
        ensures short { result.outcome ≡ Outcome.Full → length room.old < result.written + 4 }
        ensures enough { IsAmpleForText (length room.old) (length self.old.held) → result.outcome ≢ Outcome.Full }
        ensures first { TellsFirstAtEnd self.old result }
    {
        if self.held.len() == 0 {
            return StrictProgress {
                read: 0,
                written: 0,
                outcome: Outcome::AllRead,
            };
        }
        let progress = self.feed_strict_into(&[], room);
        let held = self.held.len();
        if held == 0 {
            return progress;
        }
        let Outcome::AllRead = progress.outcome else {
            return progress;
        };
        let (from, _) = self.forms();
        let (kind, len) = lacking_fault(from, held);
        let _more = self.held.drop_front(len);
        StrictProgress {
            outcome: faulty(kind, len, self.held.len()),
            ..progress
        }
    }
}

// A fault of `len` bytes, after which `held` bytes are carried over.
fn faulty(kind: FaultKind, len: usize, held: usize) -> Outcome
    requires len { len ≤ 2 }
    requires held { held ≤ most_held }
    ensures { result ≡ Outcome.Faulty (record { kind = kind; len = len; back = len + held }) }
{
    Outcome::Faulty(Fault {
        kind,
        len,
        back: len + held,
    })
}
