//! The bytes that are carried over from one part to the next.
ghost use Rattle.std.specs.Prelude.{◌≡◌, ◌<◌, ◌≤◌, ◌+◌, ◌-◌, [], ◌++◌, length, take, drop, get_or, min, IsTrue};

use std::marker::Model;

/// The bytes that were read and are not decided yet, at most three: the beginning of a character.
#[derive(Debug, Drop)]
pub struct Held {
    count: usize,
    bytes: [u8; 3],
}

impl Model for Held {
    ghost use Rattle.std.specs.Prelude.{◌≤◌, ℕ, List, take};

    ghost Value = { List ℕ };

    ghost view = { λ h. take h.count h.bytes };

    ghost invariant = { λ h. h.count ≤ 3 };
}

impl Held {
    /// Nothing.
    #[inline(always)]
    pub fn new() -> Held
        ensures { result ≡ [] }
    {
        Held {
            count: 0,
            bytes: [0; 3],
        }
    }

    /// These bytes.
    ///
    /// Condition: there are at most three.
    #[inline(always)]
    pub fn of(bytes: &[u8]) -> Held
        requires { length bytes.now ≤ 3 }
        ensures { result ≡ bytes.now }
    {
        Held {
            count: bytes.len(),
            bytes: padded_to_three(bytes),
        }
    }

    /// The bytes.
    #[inline(always)]
    pub fn as_slice(&self) -> &[u8]
        ensures bytes { result.now ≡ self.now }
        ensures few { length result.now ≤ 3 }
    {
        &self.bytes[..self.count]
    }

    /// The number of bytes.
    #[inline(always)]
    pub fn len(&self) -> usize
        ensures len { result ≡ length self.now }
        ensures few { length self.now ≤ 3 }
    {
        self.as_slice().len()
    }

    /// Replaces the bytes.
    ///
    /// Condition: there are at most three.
    #[inline(always)]
    pub fn hold(&mut self, bytes: &[u8])
        requires { length bytes.now ≤ 3 }
        ensures { self.new ≡ bytes.now }
    {
        self.count = bytes.len();
        if !bytes.is_empty() {
            self.bytes = padded_to_three(bytes);
        }
    }

    /// Drops up to `len` bytes from the front. Returns how many of `len` were beyond them.
    #[inline(always)]
    pub fn drop_front(&mut self, len: usize) -> usize
        ensures held { self.new ≡ drop len self.old }
        ensures more { result ≡ len - length self.old }
    {
        let count = self.len();
        if count <= len {
            self.hold(&[]);
            return len - count;
        }
        self.shift_joined(&[], len);
        0
    }

    /// Appends up to three bytes, and drops the first `gone` of all.
    ///
    /// Conditions: at most three are appended, and at most three are left.
    #[inline(always)]
    pub fn shift(&mut self, bytes: &[u8], gone: usize)
        requires more { length bytes.now ≤ 3 }
        requires gone { gone ≤ length self.old + length bytes.now }
        requires few { length self.old + length bytes.now ≤ gone + 3 }
        ensures { self.new ≡ drop gone (self.old ++ bytes.now) }
    {
        if self.len() == 0 {
            return self.hold(&bytes[gone..]);
        }
        self.shift_joined(bytes, gone);
    }

    // `shift` if some bytes are held: outlined, so that the test is inlined.
    #[inline(never)]
    fn shift_joined(&mut self, bytes: &[u8], gone: usize)
        requires more { length bytes.now ≤ 3 }
        requires gone { gone ≤ length self.old + length bytes.now }
        requires few { length self.old + length bytes.now ≤ gone + 3 }
        ensures { self.new ≡ drop gone (self.old ++ bytes.now) }
    {
        let (joined, len) = self.join(bytes);
        self.hold(&joined[gone..len]);
    }

    /// The bytes and up to three that follow them, at the front of an array, and how many they are. Each byte is
    /// selected separately, which avoids a store-forwarding stall.
    #[inline(always)]
    pub fn join(&self, part: &[u8]) -> ([u8; 6], usize)
        ensures len { result.1 ≡ length self.now + min 3 (length part.now) }
        ensures bytes { take result.1 result.0 ≡ self.now ++ take 3 part.now }
    {
        let held = self.as_slice();
        let joined = [
            byte_of_both(held, part, 0),
            byte_of_both(held, part, 1),
            byte_of_both(held, part, 2),
            byte_of_both(held, part, 3),
            byte_of_both(held, part, 4),
            byte_of_both(held, part, 5),
        ];
        (joined, held.len() + 3usize.min(part.len()))
    }
}

// Up to three bytes, followed by zeros. Unrolled: a variable-length copy would call memcpy.
#[inline(always)]
fn padded_to_three(bytes: &[u8]) -> [u8; 3]
    requires { length bytes.now ≤ 3 }
    ensures { take (length bytes.now) result ≡ bytes.now }
{
    if bytes.is_empty() {
        return [0; 3];
    }
    let first = bytes[0];
    if bytes.len() == 1 {
        return [first, 0, 0];
    }
    let second = bytes[1];
    if bytes.len() == 2 {
        return [first, second, 0];
    }
    [first, second, bytes[2]]
}

// The byte at an offset of the held bytes and those that follow them, or zero if there is none.
#[inline(always)]
fn byte_of_both(held: &[u8], part: &[u8], place: usize) -> u8
    ensures { result ≡ get_or (held.now ++ part.now) place 0 }
{
    if place < held.len() {
        return held[place];
    }
    let place = place - held.len();
    if place < part.len() { part[place] } else { 0 }
}
