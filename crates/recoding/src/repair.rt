//! What invalid input becomes, by a table of characters.
ghost use Rattle.std.specs.Prelude.{◌≡◌, ◌<◌, false, [], length, IfSome, Some};
ghost use Rattle.std.proofs.Props.{props};
ghost use Rattle.recoding.specs.RepairTables.{AreCodes, char_for, latin_1, short_scalar, unit_for, windows_1252};
ghost use Rattle.utf_lanes.specs.Mending.{IsCodeShown, shown_code};

use encode_unicode::CharExt;
use utf_lanes::replacements::Mending;

/// What each invalid byte of UTF-8 becomes: a character, or nothing.
///
/// Text that is UTF-8 for the most part often has bytes of an older encoding in it. With the table of that encoding they become what
/// they meant.
#[derive(Clone, Copy, Drop)]
pub struct Repair<'a> {
    /// The characters for the bytes from 80 on. A number that is no character up to U+FFFF, and a byte beyond the end of the table, stand
    /// for nothing. A lone surrogate of UTF-16, and an odd last byte, become U+FFFD, or nothing if the table is empty.
    pub chars: &'a [u32],
    // The codes of these characters, if they were computed before.
    codes: Option<&'a [[u8; 4]; 256]>,
    ghost coded: { IfSome codes (λ codes. AreCodes chars.now codes.now) } by { Prim.hlevel props },
}

// A table, and the codes of its characters.
#[derive(Clone, Copy, Drop)]
pub(crate) struct Coded<'a> {
    pub(crate) repair: Repair<'a>,
    codes: &'a [[u8; 4]; 256],
    ghost coded: { AreCodes repair.chars.now codes.now },
}

// The numbers, as an array.
macro_rules! chars {
    ($($number:literal),* $(,)?) => { [$($number),*] };
}

// The code of a character from U+0080 to U+FFFF, in three bytes, and its length (RFC 3629, section 3).
macro_rules! code {
    ($number:literal) => {
        [
            if $number < 0x800 { 0xc0 | ($number >> 6) as u8 } else { 0xe0 | ($number >> 12) as u8 },
            if $number < 0x800 { 0x80 | ($number % 64) as u8 } else { 0x80 | ($number >> 6 & 63) as u8 },
            if $number < 0x800 { 0 } else { 0x80 | ($number % 64) as u8 },
            if $number < 0x800 { 2 } else { 3 },
        ]
    };
}

// The codes, twice: a byte is its index without a remainder.
macro_rules! codes {
    ($($number:literal),* $(,)?) => { [$(code!($number)),*, $(code!($number)),*] };
}

// The characters of ISO-8859-1 for the bytes from 80 on.
#[rattlefmt::skip]
macro_rules! latin_1 {
    ($each:ident) => { $each![
        0x0080, 0x0081, 0x0082, 0x0083, 0x0084, 0x0085, 0x0086, 0x0087,
        0x0088, 0x0089, 0x008a, 0x008b, 0x008c, 0x008d, 0x008e, 0x008f,
        0x0090, 0x0091, 0x0092, 0x0093, 0x0094, 0x0095, 0x0096, 0x0097,
        0x0098, 0x0099, 0x009a, 0x009b, 0x009c, 0x009d, 0x009e, 0x009f,
        0x00a0, 0x00a1, 0x00a2, 0x00a3, 0x00a4, 0x00a5, 0x00a6, 0x00a7,
        0x00a8, 0x00a9, 0x00aa, 0x00ab, 0x00ac, 0x00ad, 0x00ae, 0x00af,
        0x00b0, 0x00b1, 0x00b2, 0x00b3, 0x00b4, 0x00b5, 0x00b6, 0x00b7,
        0x00b8, 0x00b9, 0x00ba, 0x00bb, 0x00bc, 0x00bd, 0x00be, 0x00bf,
        0x00c0, 0x00c1, 0x00c2, 0x00c3, 0x00c4, 0x00c5, 0x00c6, 0x00c7,
        0x00c8, 0x00c9, 0x00ca, 0x00cb, 0x00cc, 0x00cd, 0x00ce, 0x00cf,
        0x00d0, 0x00d1, 0x00d2, 0x00d3, 0x00d4, 0x00d5, 0x00d6, 0x00d7,
        0x00d8, 0x00d9, 0x00da, 0x00db, 0x00dc, 0x00dd, 0x00de, 0x00df,
        0x00e0, 0x00e1, 0x00e2, 0x00e3, 0x00e4, 0x00e5, 0x00e6, 0x00e7,
        0x00e8, 0x00e9, 0x00ea, 0x00eb, 0x00ec, 0x00ed, 0x00ee, 0x00ef,
        0x00f0, 0x00f1, 0x00f2, 0x00f3, 0x00f4, 0x00f5, 0x00f6, 0x00f7,
        0x00f8, 0x00f9, 0x00fa, 0x00fb, 0x00fc, 0x00fd, 0x00fe, 0x00ff,
    ] };
}

// The characters of Windows-1252 for the bytes from 80 on, by the index of the WHATWG Encoding Standard: 81, 8D, 8F, 90 and 9D are controls.
#[rattlefmt::skip]
macro_rules! windows_1252 {
    ($each:ident) => { $each![
        0x20ac, 0x0081, 0x201a, 0x0192, 0x201e, 0x2026, 0x2020, 0x2021,
        0x02c6, 0x2030, 0x0160, 0x2039, 0x0152, 0x008d, 0x017d, 0x008f,
        0x0090, 0x2018, 0x2019, 0x201c, 0x201d, 0x2022, 0x2013, 0x2014,
        0x02dc, 0x2122, 0x0161, 0x203a, 0x0153, 0x009d, 0x017e, 0x0178,
        0x00a0, 0x00a1, 0x00a2, 0x00a3, 0x00a4, 0x00a5, 0x00a6, 0x00a7,
        0x00a8, 0x00a9, 0x00aa, 0x00ab, 0x00ac, 0x00ad, 0x00ae, 0x00af,
        0x00b0, 0x00b1, 0x00b2, 0x00b3, 0x00b4, 0x00b5, 0x00b6, 0x00b7,
        0x00b8, 0x00b9, 0x00ba, 0x00bb, 0x00bc, 0x00bd, 0x00be, 0x00bf,
        0x00c0, 0x00c1, 0x00c2, 0x00c3, 0x00c4, 0x00c5, 0x00c6, 0x00c7,
        0x00c8, 0x00c9, 0x00ca, 0x00cb, 0x00cc, 0x00cd, 0x00ce, 0x00cf,
        0x00d0, 0x00d1, 0x00d2, 0x00d3, 0x00d4, 0x00d5, 0x00d6, 0x00d7,
        0x00d8, 0x00d9, 0x00da, 0x00db, 0x00dc, 0x00dd, 0x00de, 0x00df,
        0x00e0, 0x00e1, 0x00e2, 0x00e3, 0x00e4, 0x00e5, 0x00e6, 0x00e7,
        0x00e8, 0x00e9, 0x00ea, 0x00eb, 0x00ec, 0x00ed, 0x00ee, 0x00ef,
        0x00f0, 0x00f1, 0x00f2, 0x00f3, 0x00f4, 0x00f5, 0x00f6, 0x00f7,
        0x00f8, 0x00f9, 0x00fa, 0x00fb, 0x00fc, 0x00fd, 0x00fe, 0x00ff,
    ] };
}

static LATIN_1: [u32; 128] = latin_1!(chars);

static LATIN_1_CODES: [[u8; 4]; 256] = latin_1!(codes);

static WINDOWS_1252: [u32; 128] = windows_1252!(chars);

static WINDOWS_1252_CODES: [[u8; 4]; 256] = windows_1252!(codes);

// No character has a code.
static NO_CODES: [[u8; 4]; 256] = [[0; 4]; 256];

impl<'a> Repair<'a> {
    /// Each invalid byte becomes what it is in Windows-1252 (the WHATWG Encoding Standard, "index windows-1252").
    pub fn windows_1252() -> Repair<'static>
        ensures { result.chars.now ≡ windows_1252 }
    {
        Repair {
            chars: &WINDOWS_1252,
            codes: Some(&WINDOWS_1252_CODES),
        }
    }

    /// Each invalid byte becomes the character of the same number (ISO-8859-1).
    pub fn latin_1() -> Repair<'static>
        ensures { result.chars.now ≡ latin_1 }
    {
        Repair {
            chars: &LATIN_1,
            codes: Some(&LATIN_1_CODES),
        }
    }

    /// Each invalid byte is left out, and each lone surrogate.
    pub fn nothing() -> Repair<'static>
        ensures { result.chars.now ≡ [] }
    {
        Repair {
            chars: &[],
            codes: Some(&NO_CODES),
        }
    }

    /// Each invalid byte becomes what a table of your own has for it.
    pub fn of(chars: &'a [u32]) -> Repair<'a>
        ensures { result.chars.now ≡ chars.now }
    {
        Repair { chars, codes: None }
    }

    // The table with the codes of its characters, if they were computed before.
    #[inline(always)]
    pub(crate) fn coded(self) -> Option<Coded<'a>>
        ensures { IfSome result (λ coded. coded.repair ≡ self.entry) }
    {
        match self.codes {
            Some(codes) => Some(Coded {
                repair: self,
                codes,
            }),
            None => None,
        }
    }

    // The character for an invalid byte.
    #[inline(always)]
    pub(crate) fn char_for(self, byte: u8) -> Option<char>
        ensures { result ≡ char_for self.entry.chars.now byte }
    {
        match self.chars.get((byte % 0x80) as usize) {
            Some(number) => short_char(*number),
            None => None,
        }
    }

    // The character for a lone surrogate, or an odd last byte.
    #[inline(always)]
    pub(crate) fn unit_for(self) -> Option<char>
        ensures { result ≡ unit_for self.entry.chars.now }
    {
        if self.chars.is_empty() {
            return None;
        }
        Some(char::REPLACEMENT_CHARACTER)
    }
}

// What replaces a byte depends on the byte.
const IS_REPLACEMENT: bool = false;

impl Mending for Repair<'_> {
    ghost use Rattle.std.specs.Prelude.{false};

    ghost subparts = { false };

    ghost shown = { λ repair. char_for repair.chars.now };

    #[inline(always)]
    fn is_by_subparts() -> bool
        ensures { result ≡ false }
    {
        false
    }

    #[inline(always)]
    fn is_replacement() -> bool
        ensures { result ≡ false }
    {
        IS_REPLACEMENT
    }

    #[inline(always)]
    fn code(self, byte: u8) -> [u8; 4]
        ensures { IsCodeShown (char_for self.entry.chars.now byte) result }
    {
        match self.char_for(byte) {
            Some(c) => short_code(c),
            None => [0; 4],
        }
    }
}

impl Mending for Coded<'_> {
    ghost use Rattle.std.specs.Prelude.{false};

    ghost subparts = { false };

    ghost shown = { λ coded. char_for coded.repair.chars.now };

    #[inline(always)]
    fn is_by_subparts() -> bool
        ensures { result ≡ false }
    {
        Repair::is_by_subparts()
    }

    #[inline(always)]
    fn is_replacement() -> bool
        ensures { result ≡ false }
    {
        Repair::is_replacement()
    }

    #[inline(always)]
    fn code(self, byte: u8) -> [u8; 4]
        ensures { IsCodeShown (char_for self.entry.repair.chars.now byte) result }
    {
        self.codes[byte as usize]
    }

    #[inline(always)]
    fn code_len(self, byte: u8) -> usize
        ensures { result ≡ length (shown_code (char_for self.entry.repair.chars.now byte)) }
    {
        self.codes[byte as usize][3] as usize
    }
}

// The character up to U+FFFF of a number.
#[inline(always)]
fn short_char(number: u32) -> Option<char>
    ensures { result ≡ short_scalar number }
{
    if number < 0x1_0000 {
        return char::from_u32(number);
    }
    None
}

// What the bytes of a code have above the bits of its number, by the length of the code (RFC 3629, section 3), and in the
// highest byte that length.
const MARKS: [u32; 4] = [0, 0x0180_8000, 0x0280_80c0, 0x0380_80e0];

// How many bits of a number are not in the first byte of its code, by the length of the code.
const FIRST_SHIFTS: [u32; 4] = [0, 0, 6, 12];

// How many bits of a number are not in the first two bytes of its code, by the length of the code.
const SECOND_SHIFTS: [u32; 4] = [0, 0, 0, 6];

// The code of a character up to U+FFFF, in three bytes, and its length: without branches, since the lengths in a table
// vary.
#[inline(always)]
#[tactic(auto, unfolding(utf_base::specs::Code::utf8))]
fn short_code(c: char) -> [u8; 4]
    requires { c < 0x1_0000 }
    ensures { IsCodeShown (Some c) result }
{
    let number = c as u32;
    let len = 1 + (0x80 <= number) as usize + (0x800 <= number) as usize;
    let first = number >> FIRST_SHIFTS[len];
    let second = (number >> SECOND_SHIFTS[len]) % 64;
    let third = number % 64;
    (MARKS[len] + first + second * 0x100 + third * 0x1_0000).to_le_bytes()
}
