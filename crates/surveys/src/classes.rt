//! Bytes of a class, counted in parts.
ghost use Rattle.std.specs.Prelude.{◌≡◌, ◌<◌, count_by, length};

// The number of bytes that are counted in one loop: no more than a `u8` can count.
const PART: usize = 192;

/// A class of bytes.
pub(crate) trait ByteClass {
    ghost use Rattle.std.specs.Prelude.{◌≡◌, ℕ, Bool};

    ghost class: { ℕ → Bool };

    /// Returns true if the byte is of the class.
    fn has(byte: u8) -> bool
        ensures { result ≡ class byte };
}

/// The number of bytes of a class.
pub(crate) fn count_of<C: ByteClass>(bytes: &[u8]) -> usize
    ensures { result ≡ count_by C.class bytes.now }
{
    let mut place = 0;
    let mut count = 0;
    while PART <= bytes.len() - place {
        count += part_count::<C>(&bytes[place..place + PART]) as usize;
        place += PART;
    }
    count + part_count::<C>(&bytes[place..]) as usize
}

// The number of bytes of a class in a few bytes. The counter is a `u8`, so the compiler tests and adds as many in one
// instruction as a vector has lanes.
#[inline(always)]
fn part_count<C: ByteClass>(bytes: &[u8]) -> u8
    requires { length bytes.now < 256 }
    ensures { result ≡ count_by C.class bytes.now }
{
    let mut count = 0;
    for byte in bytes {
        if C::has(*byte) {
            count += 1;
        }
    }
    count
}
