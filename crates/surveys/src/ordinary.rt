//! Classes of bytes of which few counts take any, tested in blocks.
ghost use Rattle.std.specs.Prelude.{◌≡◌, ◌-◌, ◌%◌, ◌≤◌, IsTrue, length};
ghost use Rattle.surveys.specs.SurveyOrdinary.{AreAll, is_ordinary};

// The number of bytes that are tested in one loop.
const BLOCK: usize = 256;

/// A class of bytes for which whole blocks are tested.
pub(crate) trait BlockClass {
    ghost use Rattle.std.specs.Prelude.{ℕ, Bool, IsTrue, length};
    ghost use Rattle.surveys.specs.SurveyOrdinary.{AreAll};

    ghost class: { ℕ → Bool };

    /// Returns true only if all bytes are of the class.
    fn has_all(bytes: &[u8]) -> bool
        ensures { IsTrue result → AreAll class bytes.now 0 (length bytes.now) };
}

/// The end of the bytes of a class that begin at the offset, tested in blocks.
#[inline(always)]
pub(crate) fn class_end<C: BlockClass>(bytes: &[u8], start: usize) -> usize
    requires { start ≤ length bytes.now }
    ensures least { start ≤ result }
    ensures within { result ≤ length bytes.now }
    ensures blocks { (result - start) % 256 ≡ 0 }
    ensures class { AreAll C.class bytes.now start result }
{
    let mut place = start;
    while BLOCK <= bytes.len() - place {
        if !C::has_all(&bytes[place..place + BLOCK]) {
            return place;
        }
        place += BLOCK;
    }
    place
}

/// Ordinary bytes, which only counts of UTF-8 take.
pub(crate) struct Ordinary;

impl BlockClass for Ordinary {
    ghost use Rattle.surveys.specs.SurveyOrdinary.{is_ordinary};

    ghost class = { is_ordinary };

    // Each of two sums has other bytes at one end; and the compiler adds many bytes in one instruction. F8 to FE are
    // ordinary too, but take the test to be no text.
    #[inline(always)]
    fn has_all(bytes: &[u8]) -> bool {
        let mut least = 0xff;
        let mut most = 0;
        for byte in bytes {
            least = least.min(*byte ^ 0x17);
            most = most.max(*byte | 0x20);
        }
        0x1a <= least && most < 0xf8
    }
}

/// Bytes that are ordinary, or high bytes of surrogates: besides counts of UTF-8 only that of unpaired units takes them.
pub(crate) struct Uncontrolled;

impl BlockClass for Uncontrolled {
    ghost use Rattle.surveys.specs.SurveyOrdinary.{is_uncontrolled};

    ghost class = { is_uncontrolled };

    #[inline(always)]
    fn has_all(bytes: &[u8]) -> bool {
        let mut least = 0xff;
        let mut most = 0;
        for byte in bytes {
            least = least.min(*byte ^ 0x17);
            most = most.max(*byte);
        }
        0x1a <= least && most < 0xff
    }
}

/// Ordinary ASCII, which no count takes.
pub(crate) struct OrdinaryAscii;

impl BlockClass for OrdinaryAscii {
    ghost use Rattle.surveys.specs.SurveyOrdinary.{is_ordinary_ascii};

    ghost class = { is_ordinary_ascii };

    // As for other ordinary bytes, but with the bytes above ASCII at the lower end.
    #[inline(always)]
    fn has_all(bytes: &[u8]) -> bool {
        let mut least = 0xff;
        for byte in bytes {
            least = least.min(*byte ^ 0x97);
        }
        0x9a <= least
    }
}

/// Returns true if only counts of UTF-8 take the byte.
#[tactic(auto, unfolding(crate::specs::SurveyOrdinary::is_ordinary))]
pub(crate) fn is_ordinary(byte: u8) -> bool
    ensures { result ≡ is_ordinary byte }
{
    7 <= byte && byte < 14 || 32 <= byte && byte < 0xd8 || 0xe0 <= byte && byte < 0xff
}
