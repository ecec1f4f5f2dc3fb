//! The remaining bytes or units of one character.
ghost use Rattle.std.specs.Prelude.{◌≡◌, ◌≤◌, ◌<◌, [], length, take, drop, IfSome};
ghost use Rattle.std.specs.Iterator.{YieldsFirst};
ghost use Rattle.utf_base.specs.Code.{utf8, utf16};
ghost use Rattle.utf_chars.specs.DebugTexts.{debug_numbers};
ghost use Rattle.utf_chars.specs.Digits.{low_digits};
ghost use Rattle.utf_chars.specs.Taking.{fitting, filled};

use crate::utf8_char::Utf8Char;
use crate::utf16_char::Utf16Char;
use std::fmt;
use std::marker::Model;

/// The elements of a code that have not been returned yet, as iterators keep them. Contracts see their list.
/// They are the lowest digits of one number, which stays in a register: of bytes the base is 256, of units
/// 65536.
#[derive(Drop)]
pub struct Unsent<const BASE: usize> {
    code: usize,
    left: usize,
}

impl<const BASE: usize> Model for Unsent<BASE> {
    ghost use Rattle.std.specs.Prelude.{ℕ, List, ◌≤◌, ◌<◌};
    ghost use Rattle.utf_chars.specs.Digits.{low_digits};

    ghost Value = { List ℕ };

    ghost view = { λ u. low_digits BASE u.left u.code };

    ghost invariant = { λ u. (0 < BASE) × (u.left ≤ 4) };
}

impl<const BASE: usize> Unsent<BASE> {
    /// The `left` lowest digits of the number.
    #[inline(always)]
    pub(crate) fn new(code: usize, left: usize) -> Unsent<BASE>
        requires base { 0 < BASE }
        requires few { left ≤ 4 }
        ensures { result ≡ low_digits BASE left code }
    {
        Unsent { code, left }
    }

    /// A copy of the elements.
    #[inline(always)]
    pub fn copy(&self) -> Unsent<BASE>
        ensures { result ≡ self.now }
    {
        Unsent {
            code: self.code,
            left: self.left,
        }
    }

    /// The number of elements.
    #[inline(always)]
    #[tactic(auto, using(crate::proofs::DigitLemmas::length_low_digits))]
    pub fn len(&self) -> usize
        ensures { result ≡ length self.now }
    {
        self.left
    }

    // The elements, followed by the digits above them.
    #[tactic(auto, using(crate::proofs::DigitLemmas::four_digits, crate::proofs::DigitLemmas::length_low_digits))]
    fn digits(&self) -> [usize; 4]
        ensures { take (length self.now) result ≡ self.now }
    {
        let second = self.code / BASE;
        let third = second / BASE;
        [
            self.code % BASE,
            second % BASE,
            third % BASE,
            third / BASE % BASE,
        ]
    }

    // Takes the first element.
    #[inline(always)]
    #[tactic(auto, using(crate::proofs::DigitLemmas::no_digits, crate::proofs::DigitLemmas::some_digits))]
    fn next(&mut self) -> Option<usize>
        ensures first { YieldsFirst (λ rest. rest) self.old result self.new }
        ensures below { IfSome result (λ element. element < BASE) }
    {
        if self.left == 0 {
            return None;
        }
        let first = self.code % BASE;
        self.code /= BASE;
        self.left -= 1;
        Some(first)
    }
}

/// Remaining bytes.
impl Unsent<256> {
    /// Takes the first byte.
    #[inline(always)]
    pub fn next_byte(&mut self) -> Option<u8>
        ensures { YieldsFirst (λ rest. rest) self.old result self.new }
    {
        match self.next() {
            None => None,
            Some(byte) => Some(byte as u8),
        }
    }

    /// Takes as many bytes as fit in the buffer, into its front, and returns how many they are.
    #[inline(always)]
    pub fn take(&mut self, buf: &mut [u8]) -> usize
        ensures count { result ≡ fitting buf.old self.old }
        ensures written { buf.new ≡ filled buf.old self.old }
        ensures left { self.new ≡ drop (length buf.old) self.old }
    {
        let mut count = 0;
        while count < buf.len() {
            match self.next_byte() {
                None => break,
                Some(byte) => {
                    buf[count] = byte;
                    count += 1;
                }
            }
        }
        count
    }

    /// Copies as much of the code of the character into the front of the buffer as fits. Returns the rest of
    /// it, and how many bytes were copied.
    #[inline(always)]
    pub fn send(c: Utf8Char, buf: &mut [u8]) -> (Unsent<256>, usize)
        ensures count { result.1 ≡ fitting buf.old (utf8 c) }
        ensures written { buf.new ≡ filled buf.old (utf8 c) }
        ensures left { result.0 ≡ drop (length buf.old) (utf8 c) }
    {
        // If every code fits, it is copied as a whole and not byte by byte.
        if buf.len() >= 4 {
            let count = c.to_slice(buf);
            return (Unsent::default(), count);
        }
        let mut rest = Unsent::from(c);
        let count = rest.take(buf);
        (rest, count)
    }
}

/// Remaining units.
impl Unsent<0x1_0000> {
    /// Takes the first unit.
    #[inline(always)]
    pub fn next_unit(&mut self) -> Option<u16>
        ensures { YieldsFirst (λ rest. rest) self.old result self.new }
    {
        match self.next() {
            None => None,
            Some(unit) => Some(unit as u16),
        }
    }
}

impl Default for Unsent<256> {
    ghost is_default = { λ bytes. bytes ≡ [] };

    /// No elements.
    #[inline(always)]
    fn default() -> Unsent<256> {
        Unsent::<256>::new(0, 0)
    }
}

impl Default for Unsent<0x1_0000> {
    ghost is_default = { λ units. units ≡ [] };

    /// No elements.
    #[inline(always)]
    fn default() -> Unsent<0x1_0000> {
        Unsent::<0x1_0000>::new(0, 0)
    }
}

impl From<Utf8Char> for Unsent<256> {
    ghost from_gives = { λ c bytes. bytes ≡ utf8 c };

    /// All bytes of the character.
    #[inline(always)]
    fn from(c: Utf8Char) -> Unsent<256> {
        let (code, len) = c.to_array();
        Unsent::new(number_of_front(code, len), len)
    }
}

// The first `len` bytes as one number, whose lowest digit is the first of them. Those after the first are
// combined separately: so taking the first leaves their number as it is.
#[inline(always)]
#[tactic(auto, unfolding(crate::specs::Digits::low_digits))]
fn number_of_front(code: [u8; 4], len: usize) -> usize
    requires least { 1 ≤ len }
    requires most { len ≤ 4 }
    ensures { low_digits 256 len result ≡ take len code }
{
    let [first, second, third, fourth] = code;
    let following = match len {
        1 => 0,
        2 => second as usize,
        3 => (third as usize) * 256 + second as usize,
        _ => ((fourth as usize) * 256 + third as usize) * 256 + second as usize,
    };
    following * 256 + first as usize
}

impl From<Utf16Char> for Unsent<0x1_0000> {
    ghost from_gives = { λ c units. units ≡ utf16 c };

    /// All units of the character.
    #[inline(always)]
    fn from(c: Utf16Char) -> Unsent<0x1_0000> {
        let [first, second] = c.to_array();
        Unsent::new((second as usize) * 0x1_0000 + first as usize, c.len())
    }
}

/// The list of the elements, in one line whatever the formatter asks for.
impl<const BASE: usize> fmt::Debug for Unsent<BASE> {
    ghost debug_output = { debug_numbers };

    /// The elements as a list of numbers.
    fn fmt<W: fmt::Write>(&self, f: &mut fmt::Formatter<W>) -> fmt::Result {
        let digits = self.digits();
        write!(f, "{:?}", &digits[..self.len()])
    }
}
