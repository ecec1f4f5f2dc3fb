//! Lines of output, gathered in one buffer and written many at a time.
ghost use Rattle.std.specs.Prelude.{◌≡◌, ◌↔◌, IsTrue, ◌+◌, ◌/◌, ◌%◌, ◌<◌, ◌≤◌, [], ◌∷◌, ◌++◌, length, take, drop, OnOk};
ghost use Rattle.std.specs.Fmt.{decimal};
ghost use Rattle.std.specs.Io.KnownBytes.{Appends};
ghost use Rattle.text_runs.specs.Failures.{Known, AppendsFront};
ghost use Rattle.text_programs.specs.Line.{hex_digit, six_hex_digits};
ghost use Rattle.text_programs.specs.Writes.{CountsWrites};

use std::io;
use std::io::Write;
use std::marker::Model;
use text_runs::counted::Counted;
use text_runs::streams::write_whole;

// The capacity of the buffer, in bytes.
pub(crate) const ROOM: usize = 65536;

// The greatest length of a line, in bytes.
pub(crate) const LINE_ROOM: usize = 80;

// The number of digits of the largest `usize`.
pub(crate) const DECIMAL_ROOM: usize = 20;

// The two hexadecimal digits of each byte, sixteen a line.
#[rattlefmt::skip]
static PAIRS: [u8; 512] = *b"\
    000102030405060708090a0b0c0d0e0f\
    101112131415161718191a1b1c1d1e1f\
    202122232425262728292a2b2c2d2e2f\
    303132333435363738393a3b3c3d3e3f\
    404142434445464748494a4b4c4d4e4f\
    505152535455565758595a5b5c5d5e5f\
    606162636465666768696a6b6c6d6e6f\
    707172737475767778797a7b7c7d7e7f\
    808182838485868788898a8b8c8d8e8f\
    909192939495969798999a9b9c9d9e9f\
    a0a1a2a3a4a5a6a7a8a9aaabacadaeaf\
    b0b1b2b3b4b5b6b7b8b9babbbcbdbebf\
    c0c1c2c3c4c5c6c7c8c9cacbcccdcecf\
    d0d1d2d3d4d5d6d7d8d9dadbdcdddedf\
    e0e1e2e3e4e5e6e7e8e9eaebecedeeef\
    f0f1f2f3f4f5f6f7f8f9fafbfcfdfeff";

/// Buffered lines, at most `ROOM` bytes. Contracts see them as the list of their bytes.
#[derive(Drop)]
pub(crate) struct Lines {
    bytes: [u8; ROOM],
    len: usize,
}

impl Model for Lines {
    ghost use Rattle.std.specs.Prelude.{◌≤◌, ℕ, List, take};
    ghost use Rattle.text_programs.specs.declared.programs.lines.TheConstants.{ROOM};

    ghost Value = { List ℕ };

    ghost view = { λ l. take l.len l.bytes };

    ghost invariant = { λ l. l.len ≤ ROOM };
}

impl Lines {
    /// An empty buffer.
    #[inline(always)]
    pub(crate) fn new() -> Lines
        ensures { result ≡ [] }
    {
        Lines {
            bytes: [0; ROOM],
            len: 0,
        }
    }

    /// Returns true if one more line fits.
    #[inline(always)]
    pub(crate) fn has_room(&self) -> bool
        ensures { IsTrue result ↔ (length self.now + LINE_ROOM ≤ ROOM) }
    {
        self.len <= ROOM - LINE_ROOM
    }

    /// Writes the lines, in one call if the writer takes them all, and in none if there are none. After `Ok`
    /// the buffer is empty.
    #[cold]
    #[inline(never)]
    pub(crate) fn write_to<W: Write>(&mut self, out: &mut Counted<W>) -> io::Result<()>
        ensures ok { OnOk result (Known W.contents Appends out.old out.new self.old) }
        ensures empty { OnOk result (self.new ≡ []) }
        ensures front { Known W.contents AppendsFront out.old out.new self.old }
        ensures writes { CountsWrites result out.old out.new }
    {
        write_whole(&self.bytes[..self.len], out)?;
        self.len = 0;
        Ok(())
    }

    // Each push reads the length before it writes, since the compiler assumes that a write may change it.

    /// Adds one byte.
    #[inline(always)]
    pub(crate) fn push(&mut self, byte: u8)
        requires { length self.old < ROOM }
        ensures { self.new ≡ self.old ++ byte ∷ [] }
    {
        let start = self.len;
        self.bytes[start] = byte;
        self.len = start + 1;
    }

    /// Adds these bytes.
    #[inline(always)]
    pub(crate) fn push_text(&mut self, text: &[u8])
        requires { length self.old + length text.now ≤ ROOM }
        ensures { self.new ≡ self.old ++ text.now }
    {
        let start = self.len;
        let end = start + text.len();
        self.bytes[start..end].copy_from_slice(text);
        self.len = end;
    }

    /// Adds the number in decimal digits, with no leading zero.
    #[inline(always)]
    #[tactic(auto, using(crate::proofs::Decimal::decimal_steps))]
    pub(crate) fn push_decimal(&mut self, n: usize)
        requires { length self.old + DECIMAL_ROOM ≤ ROOM }
        ensures digits { self.new ≡ self.old ++ decimal n }
        ensures length { length self.new ≤ length self.old + DECIMAL_ROOM }
    {
        if n < 10 {
            self.push(b'0' + n as u8);
        } else {
            self.push_digits(n);
        }
    }

    // Adds the digits as they are divided out.
    #[inline(never)]
    #[tactic(auto, using(crate::proofs::Decimal::decimal_steps))]
    fn push_digits(&mut self, n: usize)
        requires { length self.old + DECIMAL_ROOM ≤ ROOM }
        ensures digits { self.new ≡ self.old ++ decimal n }
        ensures length { length self.new ≤ length self.old + DECIMAL_ROOM }
    {
        let mut buffer = [0; 2 * DECIMAL_ROOM];
        let start = fill_decimal(n, &mut buffer[..DECIMAL_ROOM]);
        self.push_front(&buffer[start..start + DECIMAL_ROOM], DECIMAL_ROOM - start);
    }

    /// Adds the first `count` bytes of the source. The others are copied too, past the end of the lines: a
    /// copy whose length the compiler knows is faster.
    #[inline(always)]
    pub(crate) fn push_front(&mut self, source: &[u8], count: usize)
        requires source { length source.now ≡ DECIMAL_ROOM }
        requires within { count ≤ DECIMAL_ROOM }
        requires room { length self.old + DECIMAL_ROOM ≤ ROOM }
        ensures { self.new ≡ self.old ++ take count source.now }
    {
        let start = self.len;
        self.bytes[start..start + DECIMAL_ROOM].copy_from_slice(source);
        self.len = start + count;
    }

    /// Adds the number in six hexadecimal digits, leading zeros among them.
    #[inline(always)]
    pub(crate) fn push_hex(&mut self, n: u32)
        requires room { length self.old + 6 ≤ ROOM }
        requires six { n < 0x100_0000 }
        ensures { self.new ≡ self.old ++ six_hex_digits n }
    {
        let [fifth, fourth] = hex_pair((n / 0x1_0000) as u8);
        let [third, second] = hex_pair((n / 0x100 % 0x100) as u8);
        let [first, zeroth] = hex_pair((n % 0x100) as u8);
        self.push_text(&[fifth, fourth, third, second, first, zeroth]);
    }
}

/// Writes the digits of the number at the end of the slice, and returns the offset of the first.
#[tactic(auto, using(crate::proofs::Decimal::decimal_steps))]
pub(crate) fn fill_decimal(n: usize, digits: &mut [u8]) -> usize
    requires { DECIMAL_ROOM ≤ length digits.old }
    ensures within { result ≤ length digits.new }
    ensures digits { drop result digits.new ≡ decimal n }
{
    let mut rest = n;
    let mut start = digits.len();
    while rest >= 10 {
        start -= 1;
        digits[start] = b'0' + (rest % 10) as u8;
        rest /= 10;
    }
    start -= 1;
    digits[start] = b'0' + rest as u8;
    start
}

// The two hexadecimal digits of a byte.
#[inline(always)]
fn hex_pair(byte: u8) -> [u8; 2]
    ensures { result ≡ hex_digit (byte / 16) ∷ hex_digit (byte % 16) ∷ [] }
{
    let place = 2 * byte as usize;
    [PAIRS[place], PAIRS[place + 1]]
}
