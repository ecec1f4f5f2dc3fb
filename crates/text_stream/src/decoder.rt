//! A decoder for input that comes in parts, which may be cut anywhere, also inside a character: the pieces of all of
//! it, each with its offset.
ghost use Rattle.std.specs.Prelude.{◌≡◌, ◌<◌, ◌≤◌, ◌+◌, ◌-◌, ◌^◌, [], ◌++◌, length, take, drop, get_or, min, IsTrue, IsFalse, IfSome, IfNone};
ghost use Rattle.recoding.specs.Recoded.{most_held};
ghost use Rattle.text_stream.specs.Located.{BeginsKept, Decoding, FeedsFaults, FeedsKept, FeedsPieces, FeedsRest, FinishesFaults, FinishesKept, FinishesPieces, HasNoPlace, HasNoPlaceFor, HasNoPlaceForFault, IsKept, IsOpen, IsWithin, faults_alone, first_told, wrapped};

use crate::first_pieces::{front_of, last_front};
use crate::located::{FromPiece, Spot};
use crate::piece_runs::{AllPieces, FaultsAlone, Kept, put_run, write_piece};
use recoding::form::Form;
use recoding::held::Held;
use std::marker::Model;

/// Divides input that comes in parts into pieces, characters and invalid bytes, each with its offset. It does
/// not allocate, and carries over at most three bytes between calls.
///
/// The pieces do not depend on how the input is divided into parts. Errors are those of `Utf8CharMerger`,
/// which differ from those of a slice in one case: if the input ends before the bytes that a lead byte asks
/// for, and one of those that are there is no continuation byte, as in `F0 41`, the kind is
/// `InterruptedSequence` and not `TooFewBytes`. In UTF-16 a lone surrogate is one piece of two bytes, and an
/// odd byte at the end is one of its own, `Incomplete`.
#[derive(Debug, Drop)]
pub struct Decoder {
    held: Held,
    form: Form,
    offset: u64,
}

impl Model for Decoder {
    ghost use Rattle.text_stream.specs.Located.{Decoding};

    ghost Value = { Decoding };

    ghost view = { λ d. record { form = d.form; held = d.held; offset = d.offset } };
}

/// The progress of a call of a `Decoder`, or of `faults_into`.
#[derive(Clone, Copy, Debug, PartialEq, Eq, Drop)]
pub struct Fed {
    /// The number of bytes of the part that were read.
    pub read: usize,
    /// The number of pieces that were written, from the front of the array.
    pub written: usize,
    /// Whether the array was full before a piece that is known already.
    pub is_full: bool,
}

impl Decoder {
    /// A decoder that carries over nothing. The first byte of the input has the offset 0.
    pub fn new(form: Form) -> Decoder
        ensures { result ≡ record { form = form; held = []; offset = 0 } }
    {
        Decoder {
            held: Held::new(),
            form,
            offset: 0,
        }
    }

    /// A decoder that carries over these bytes, the first of which has this offset.
    ///
    /// Condition: there are at most three.
    #[inline(always)]
    pub fn holding(form: Form, bytes: &[u8], offset: u64) -> Decoder
        requires { length bytes.now ≤ 3 }
        ensures { result ≡ record { form = form; held = bytes.now; offset = offset } }
    {
        Decoder {
            held: Held::of(bytes),
            form,
            offset,
        }
    }

    /// The encoding of the input.
    #[inline(always)]
    pub fn form(&self) -> Form
        ensures { result ≡ self.now.form }
    {
        let Decoder { form, .. } = self;
        *form
    }

    /// The carried-over bytes, at most three.
    #[inline(always)]
    pub fn held(&self) -> &[u8]
        ensures bytes { result.now ≡ self.now.held }
        ensures few { length result.now ≤ 3 }
    {
        self.held.as_slice()
    }

    /// The offset of the first byte that is carried over or will be read next.
    #[inline(always)]
    pub fn offset(&self) -> u64
        ensures { result ≡ self.now.offset }
    {
        let Decoder { offset, .. } = self;
        *offset
    }

    /// Takes the next part, and writes its pieces, from the front of the array on. The rest of the array is
    /// unchanged.
    ///
    /// The part may end anywhere. Its last bytes are carried over, at most three, as long as the bytes after
    /// them decide which piece they begin. If `is_full` is true, the array is full, and the next piece is
    /// known already: empty the array, and feed the bytes after those that were read, even if there are none.
    /// Otherwise all of the part was read.
    ///
    /// Cost: O(n) in what is read.
    pub fn feed<P: FromPiece>(&mut self, part: &[u8], room: &mut [P]) -> Fed
        ensures feeds { FeedsPieces P.made self.old part.now room.old room.new result.read result.written self.new }
        ensures full { IsTrue result.is_full →
            HasNoPlace self.new part.now result.read result.written (length room.old) }
        ensures read { IsFalse result.is_full → result.read ≡ length part.now }
        ensures waits { IsFalse result.is_full → 0 < length self.new.held → IsOpen self.new.form self.new.held }
    {
        self.feed_kept::<AllPieces, P>(part, room)
    }

    /// Takes the next part as `feed` does, but writes only the invalid bytes: those of the pieces that `feed` writes
    /// which are no characters. Text is scanned as fast as by `valid_up_to`. If `is_full` is true, the next invalid
    /// byte is known already.
    ///
    /// Calls of this and of `feed` may be mixed: both carry over the same bytes, and leave the same offset.
    ///
    /// Cost: O(n) in what is read.
    pub fn feed_faults<P: FromPiece>(&mut self, part: &[u8], room: &mut [P]) -> Fed
        ensures feeds { FeedsFaults P.made self.old part.now room.old room.new result.read result.written self.new }
        ensures full { IsTrue result.is_full →
            HasNoPlaceForFault self.new part.now result.read result.written (length room.old) }
        ensures read { IsFalse result.is_full → result.read ≡ length part.now }
        ensures waits { IsFalse result.is_full → 0 < length self.new.held → IsOpen self.new.form self.new.held }
    {
        self.feed_kept::<FaultsAlone, P>(part, room)
    }

    // Takes the next part, and writes the pieces that are kept.
    #[inline(always)]
    pub fn feed_kept<K: Kept, P: FromPiece>(&mut self, part: &[u8], room: &mut [P]) -> Fed
        ensures feeds { FeedsKept K.kept P.made self.old part.now room.old room.new result.read result.written self.new }
        ensures full { IsTrue result.is_full →
            HasNoPlaceFor K.kept self.new part.now result.read result.written (length room.old) }
        ensures read { IsFalse result.is_full → result.read ≡ length part.now }
        ensures waits { IsFalse result.is_full → 0 < length self.new.held → IsOpen self.new.form self.new.held }
    {
        if self.held.len() == 0 {
            let front = Spot {
                read: 0,
                written: 0,
                offset: self.offset(),
            };
            return self.feed_rest::<K, P>(part, room, front);
        }
        self.feed_joined::<K, P>(part, room)
    }

    // Takes the next part if bytes are carried over, and writes the pieces that are kept.
    #[inline(never)]
    fn feed_joined<K: Kept, P: FromPiece>(&mut self, part: &[u8], room: &mut [P]) -> Fed
        ensures feeds { FeedsKept K.kept P.made self.old part.now room.old room.new result.read result.written self.new }
        ensures full { IsTrue result.is_full →
            HasNoPlaceFor K.kept self.new part.now result.read result.written (length room.old) }
        ensures read { IsFalse result.is_full → result.read ≡ length part.now }
        ensures waits { IsFalse result.is_full → 0 < length self.new.held → IsOpen self.new.form self.new.held }
    {
        let first = self.feed_held::<K, P>(part, room);
        if first.is_full || self.held.len() > 0 {
            return first;
        }
        let at = Spot {
            read: first.read,
            written: first.written,
            offset: self.offset(),
        };
        self.feed_rest::<K, P>(part, room, at)
    }

    // Takes the part from a spot on, and writes the pieces that are kept: nothing is carried over any more.
    #[inline(always)]
    fn feed_rest<K: Kept, P: FromPiece>(&mut self, part: &[u8], room: &mut [P], from: Spot) -> Fed
        requires offset { from.offset ≡ self.old.offset }
        requires within { IsWithin from part.now room.old }
        ensures feeds { FeedsRest K.kept P.made self.old part.now room.old room.new from result.read result.written self.new }
        ensures full { IsTrue result.is_full →
            HasNoPlaceFor K.kept self.new part.now result.read result.written (length room.old) }
        ensures read { IsFalse result.is_full → result.read ≡ length part.now }
        ensures waits { IsFalse result.is_full → 0 < length self.new.held → IsOpen self.new.form self.new.held }
    {
        let run = put_run::<K, P>(self.form(), part, room, from);
        self.offset = run.at.offset;
        if run.is_full {
            self.held.hold(&[]);
            return Fed {
                read: run.at.read,
                written: run.at.written,
                is_full: true,
            };
        }
        self.held.hold(&part[run.at.read..]);
        Fed {
            read: part.len(),
            written: run.at.written,
            is_full: false,
        }
    }

    // Writes the kept pieces of the carried-over bytes, with as many bytes of the part as they need, until
    // nothing is carried over.
    fn feed_held<K: Kept, P: FromPiece>(&mut self, part: &[u8], room: &mut [P]) -> Fed
        ensures feeds { FeedsKept K.kept P.made self.old part.now room.old room.new result.read result.written self.new }
        ensures full { IsTrue result.is_full →
            HasNoPlaceFor K.kept self.new part.now result.read result.written (length room.old) }
        ensures read { IsFalse result.is_full → 0 < length self.new.held → result.read ≡ length part.now }
        ensures waits { IsFalse result.is_full → 0 < length self.new.held → IsOpen self.new.form self.new.held }
    {
        let form = self.form();
        // Reading the length brings the invariant that there are at most three into scope.
        let _count = self.held.len();
        let mut read = 0;
        let mut written = 0;
        while self.held.len() > 0 {
            let (joined, len) = self.held.join(&part[read..]);
            let Some(front) = front_of(form, &joined[..len]) else {
                self.held.hold(&joined[..len]);
                return Fed {
                    read: part.len(),
                    written: written,
                    is_full: false,
                };
            };
            let Some(count) = write_piece::<K, P>(self.offset(), front, room, written) else {
                return Fed {
                    read: read,
                    written: written,
                    is_full: true,
                };
            };
            written = count;
            read += self.pass(front.len());
        }
        Fed {
            read: read,
            written: written,
            is_full: false,
        }
    }

    // Drops a piece of `len` bytes from the front of the carried-over ones. Returns how many of `len` were
    // beyond them.
    fn pass(&mut self, len: usize) -> usize
        ensures passed { self.new ≡ record {
          form = self.old.form;
          held = drop len self.old.held;
          offset = wrapped (self.old.offset + len);
        } }
        ensures more { result ≡ len - length self.old.held }
    {
        self.offset = self.offset.wrapping_add(len as u64);
        self.held.drop_front(len)
    }

    /// Ends the input: writes the pieces of the carried-over bytes, which nothing follows. `read` is 0.
    /// Capacity for three pieces is always enough.
    ///
    /// If `is_full` is true, something is still carried over: empty the array, and call this again. The
    /// offset continues from the end of the input.
    ///
    /// Cost: constant.
    pub fn finish<P: FromPiece>(&mut self, room: &mut [P]) -> Fed
        ensures finishes { FinishesPieces P.made self.old room.old room.new result.written self.new }
        ensures full { IsTrue result.is_full → result.written ≡ length room.old }
        ensures more { IsTrue result.is_full → 0 < length self.new.held }
        ensures all { IsFalse result.is_full → self.new.held ≡ [] }
        ensures read { result.read ≡ 0 }
    {
        self.finish_kept::<AllPieces, P>(room)
    }

    /// Ends the input as `finish` does, but writes only the invalid bytes. If `is_full` is true, the carried-over
    /// bytes begin with an invalid byte.
    ///
    /// Cost: constant.
    pub fn finish_faults<P: FromPiece>(&mut self, room: &mut [P]) -> Fed
        ensures finishes { FinishesFaults P.made self.old room.old room.new result.written self.new }
        ensures full { IsTrue result.is_full → result.written ≡ length room.old }
        ensures more { IsTrue result.is_full → 0 < length self.new.held }
        ensures fault { IsTrue result.is_full → IsKept faults_alone (first_told self.new.form self.new.held) }
        ensures all { IsFalse result.is_full → self.new.held ≡ [] }
        ensures read { result.read ≡ 0 }
    {
        self.finish_kept::<FaultsAlone, P>(room)
    }

    // Ends the input, and writes the pieces that are kept.
    #[inline(always)]
    pub fn finish_kept<K: Kept, P: FromPiece>(&mut self, room: &mut [P]) -> Fed
        ensures finishes { FinishesKept K.kept P.made self.old room.old room.new result.written self.new }
        ensures full { IsTrue result.is_full → result.written ≡ length room.old }
        ensures more { IsTrue result.is_full → 0 < length self.new.held }
        ensures kept { IsTrue result.is_full → IsKept K.kept (first_told self.new.form self.new.held) }
        ensures all { IsFalse result.is_full → self.new.held ≡ [] }
        ensures read { result.read ≡ 0 }
    {
        let form = self.form();
        let mut written = 0;
        while self.held.len() > 0 {
            let front = last_front(form, self.held());
            let Some(count) = write_piece::<K, P>(self.offset(), front, room, written) else {
                return Fed {
                    read: 0,
                    written: written,
                    is_full: true,
                };
            };
            written = count;
            let _more = self.pass(front.len());
        }
        Fed {
            read: 0,
            written: written,
            is_full: false,
        }
    }
}
