//! The counts of windows of input that comes in parts.
ghost use Rattle.std.specs.Prelude.{◌≡◌, ◌+◌, ◌≤◌, [], ◌∷◌, ◌++◌, List, ℕ, length};
ghost use Rattle.utf_lanes.specs.AsciiTexts.{AreAscii};
ghost use Rattle.surveys.specs.SurveyCounts.{nothing};
ghost use Rattle.surveys.specs.SurveyParts.{FeedsWindows, counts_with, last_of, three_zeros};

use crate::few_bytes::FewBytes;
use crate::utf8_counts::{Utf8Counts, count};

/// The counts of all windows so far, and the last bytes, with which further windows begin.
#[derive(Debug, Drop)]
pub struct Utf8Parts {
    pub(crate) counts: Utf8Counts,
    pub(crate) held: FewBytes,
}

impl Utf8Parts {
    /// No input so far.
    pub(crate) fn new() -> Utf8Parts
        ensures { result ≡ record { counts = nothing; held = three_zeros } }
    {
        Utf8Parts {
            counts: Utf8Counts::new(),
            held: FewBytes::joined(&[0, 0, 0], &[]),
        }
    }

    /// Takes the next part.
    pub(crate) fn feed(&mut self, part: &[u8])
        requires { length self.old.held ≤ 16 }
        ensures counts { FeedsWindows self.old part.now self.new }
        ensures held { self.new.held ≡ last_of 16 (self.old.held ++ part.now) }
    {
        let joined = FewBytes::joined(self.held.bytes(), &part[..part.len().min(16)]);
        self.counts.add(count(joined.bytes()));
        if part.len() <= 16 {
            self.held = FewBytes::last(joined.bytes());
        } else {
            self.counts.add(count(part));
            self.held = FewBytes::last(part);
        }
    }

    /// Takes the next part, of only ASCII: no window inside it adds to the counts.
    pub(crate) fn pass(&mut self, part: &[u8])
        requires few { length self.old.held ≤ 16 }
        requires some { 16 ≤ length part.now }
        requires ascii { AreAscii part.now 0 (length part.now) }
        ensures counts { FeedsWindows self.old part.now self.new }
        ensures held { self.new.held ≡ last_of 16 (self.old.held ++ part.now) }
    {
        let joined = FewBytes::joined(self.held.bytes(), &part[..16]);
        self.counts.add(count(joined.bytes()));
        self.held = FewBytes::last(part);
    }

    /// The counts if no more follows.
    pub(crate) fn counts(&self) -> Utf8Counts
        requires { length self.now.held ≤ 16 }
        ensures { result ≡ counts_with self.now [] }
    {
        let joined = FewBytes::joined(self.held.bytes(), &[0; 13]);
        let mut counts = self.counts;
        counts.add(count(joined.bytes()));
        counts
    }
}
