//! A few bytes: the ends of an input, with others before or after them.
ghost use Rattle.std.specs.Prelude.{◌≡◌, ◌+◌, ◌-◌, ◌<◌, ◌≤◌, [], ◌∷◌, ◌++◌, drop, length, take};
ghost use Rattle.surveys.specs.SurveyParts.{last_of};

use std::marker::Model;

/// At most 32 bytes. Contracts see them as a list.
#[derive(Debug, Drop)]
pub struct FewBytes {
    bytes: [u8; 32],
    count: usize,
}

impl Model for FewBytes {
    ghost use Rattle.std.specs.Prelude.{ℕ, List, ◌≤◌, take};

    ghost Value = { List ℕ };

    ghost view = { λ h. take h.count h.bytes };

    ghost invariant = { λ h. h.count ≤ 32 };
}

impl FewBytes {
    /// No bytes.
    pub(crate) fn new() -> FewBytes
        ensures { result ≡ [] }
    {
        FewBytes {
            bytes: [0; 32],
            count: 0,
        }
    }

    /// Some bytes, and others after them.
    pub(crate) fn joined(first: &[u8], second: &[u8]) -> FewBytes
        requires { length first.now + length second.now ≤ 32 }
        ensures { result ≡ first.now ++ second.now }
    {
        let mut joined = FewBytes::new();
        joined.append(first);
        joined.append(second);
        joined
    }

    /// The last 16 of the bytes, or all if they are fewer.
    #[tactic(auto, unfolding(crate::specs::SurveyParts::last_of))]
    pub(crate) fn last(bytes: &[u8]) -> FewBytes
        ensures { result ≡ last_of 16 bytes.now }
    {
        FewBytes::joined(&bytes[bytes.len().saturating_sub(16)..], &[])
    }

    /// The first four of the bytes, or all if they are fewer.
    pub(crate) fn first(bytes: &[u8]) -> FewBytes
        ensures { result ≡ take 4 bytes.now }
    {
        FewBytes::joined(&bytes[..bytes.len().min(4)], &[])
    }

    /// The bytes.
    #[inline(always)]
    pub(crate) fn bytes(&self) -> &[u8]
        ensures { result.now ≡ self.now }
    {
        &self.bytes[..self.count]
    }

    /// Appends bytes.
    pub(crate) fn append(&mut self, bytes: &[u8])
        requires { length self.old + length bytes.now ≤ 32 }
        ensures { self.new ≡ self.old ++ bytes.now }
    {
        let count = self.count + bytes.len();
        self.bytes[self.count..count].copy_from_slice(bytes);
        self.count = count;
    }
}
