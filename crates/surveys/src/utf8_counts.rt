//! What is counted in bytes that may be UTF-8.
ghost use Rattle.std.specs.Prelude.{ℕ, ◌≡◌, ◌+◌, ◌-◌, ◌<◌, ◌≤◌, IsUtf8, drop, length, slice_index, slice_range};
ghost use Rattle.utf_lanes.specs.AsciiTexts.{AreAscii};
ghost use Rattle.surveys.specs.SurveyCounts.{counted, nothing, number, plus, seen, wrapped};
ghost use Rattle.surveys.specs.SurveyWindows.{front_len};

use crate::classes::{ByteClass, count_of};
use crate::sums::{number, sum};
use crate::twice_counts::twice_counts;
use crate::windows::{
    WINDOW, follows_two, front_len, is_char, is_fault, is_in_word, is_surrogate, is_undefined,
    twice_len,
};
use utf_base::elements::is_continuation;
use utf_lanes::ascii_texts::ascii_wide_end;
use utf_lanes::text_blocks::text_len;

// The greatest number of bytes of a character after its first.
const FRONT: usize = 3;

// The least number of bytes that are counted as text, and with which counting them one by one begins after text.
const LEAST: usize = 64;

// The greatest number of bytes that are counted one by one before the next are validated.
const MOST: usize = 1024;

// The greatest number of bytes that are validated and then counted: a CPU has them in its nearest cache.
const PART: usize = 16384;

/// Counts of bytes as UTF-8, modulo 2^64.
#[repr(C)]
#[derive(Clone, Copy, Debug, PartialEq, Eq, Drop)]
pub struct Utf8Counts {
    /// Characters of several bytes, those from U+0080 on.
    pub chars: u64,
    /// Bytes that no character covers.
    pub faults: u64,
    /// Such bytes, other than A0, after two bytes above 7F.
    pub third: u64,
    /// Such bytes between two ASCII letters, where Windows-1252 rarely has them.
    pub signs: u64,
    /// Such bytes for which Windows-1252 has no character.
    pub undefined: u64,
    /// Surrogates that are written as characters of three bytes.
    pub surrogates: u64,
    /// Sequences that were encoded twice.
    pub twice: u64,
    /// The characters of these sequences.
    pub twice_chars: u64,
}

impl Utf8Counts {
    /// Counts of nothing.
    pub(crate) fn new() -> Utf8Counts
        ensures { result ≡ nothing }
    {
        Utf8Counts {
            chars: 0,
            faults: 0,
            third: 0,
            signs: 0,
            undefined: 0,
            surrogates: 0,
            twice: 0,
            twice_chars: 0,
        }
    }

    /// Adds other counts.
    #[inline(always)]
    pub(crate) fn add(&mut self, more: Utf8Counts)
        ensures { self.new ≡ plus self.old more }
    {
        self.chars = sum(self.chars, more.chars);
        self.faults = sum(self.faults, more.faults);
        self.third = sum(self.third, more.third);
        self.signs = sum(self.signs, more.signs);
        self.undefined = sum(self.undefined, more.undefined);
        self.surrogates = sum(self.surrogates, more.surrogates);
        self.twice = sum(self.twice, more.twice);
        self.twice_chars = sum(self.twice_chars, more.twice_chars);
    }
}

/// The counts of all windows in the bytes.
pub(crate) fn count(bytes: &[u8]) -> Utf8Counts
    ensures { result ≡ counted nothing bytes.now }
{
    let mut counts = Utf8Counts::new();
    let mut place = 0;
    let mut reach = first_reach(bytes);
    while WINDOW <= bytes.len() - place {
        let ascii = ascii_end(bytes, place);
        if place < ascii {
            place = ascii;
        } else {
            let text = text_end(bytes, place);
            if LEAST <= text - place {
                counts.add(text_seen(&bytes[place..text + (WINDOW - 1)]));
                place = text;
                reach = LEAST;
            } else {
                let end = place + reach.min(bytes.len() - (WINDOW - 1) - place);
                let (some, next) = each_seen(bytes, place, end);
                counts.add(some);
                place = next;
                reach = (2 * reach).min(MOST);
            }
        }
    }
    counts
}

// The number of windows that are counted one by one at the front if they are not validated: few, if a character began
// before them.
fn first_reach(bytes: &[u8]) -> usize
    ensures some { 0 < result }
    ensures few { result ≤ 1024 }
{
    if WINDOW <= bytes.len() && is_continuation(bytes[3]) {
        FRONT
    } else {
        LEAST
    }
}

// The counts of the windows from an offset on, one by one, up to the returned offset: that is `end`, or after the
// characters there.
fn each_seen(bytes: &[u8], start: usize, end: usize) -> (Utf8Counts, usize)
    requires some { start < end }
    requires within { end + 16 ≤ length bytes.now }
    ensures more { start < result.1 }
    ensures within { result.1 ≤ length bytes.now }
    ensures counts { counted result.0 (drop result.1 bytes.now) ≡ counted nothing (drop start bytes.now) }
{
    let mut counts = Utf8Counts::new();
    let mut place = start;
    while place < end {
        if bytes[place + 3] < 0x80 {
            place = ascii_step(bytes, place);
        } else {
            let window = &bytes[place..place + WINDOW];
            let len = front_len(&window[3..]);
            if 1 < len && len + (WINDOW - 1) <= bytes.len() - place {
                counts.add(char_seen(window));
                place += len;
            } else {
                counts.add(seen(window));
                place += 1;
            }
        }
    }
    (counts, place)
}

// An offset from the given one on, up to which the fourth bytes of the windows are text.
#[inline(always)]
fn text_end(bytes: &[u8], place: usize) -> usize
    requires { place + 17 ≤ length bytes.now }
    ensures least { place ≤ result }
    ensures within { result + 16 ≤ length bytes.now }
    ensures text { IsUtf8 (slice_range bytes.now (place + 3) (result + 3)) }
{
    let most = PART.min(bytes.len() - (WINDOW - 1) - place);
    place + text_len(&bytes[place + 3..place + 3 + most])
}

// The counts of the windows whose fourth bytes are text: there is no invalid byte.
fn text_seen(bytes: &[u8]) -> Utf8Counts
    requires long { 16 ≤ length bytes.now }
    requires text { IsUtf8 (slice_range bytes.now 3 (length bytes.now - 13)) }
    ensures { result ≡ counted nothing bytes.now }
{
    let twice = twice_counts(bytes);
    Utf8Counts {
        chars: count_of::<Lead>(&bytes[3..bytes.len() - 13]) as u64,
        faults: 0,
        third: 0,
        signs: 0,
        undefined: 0,
        surrogates: 0,
        twice: twice.sequences,
        twice_chars: twice.chars,
    }
}

// The bytes with which characters of several bytes begin.
struct Lead;

impl ByteClass for Lead {
    ghost use Rattle.surveys.specs.SurveyCounts.{is_lead};

    ghost class = { is_lead };

    #[inline(always)]
    fn has(byte: u8) -> bool {
        0xc0 <= byte
    }
}

// What a window adds to the counts.
#[inline(always)]
fn seen(window: &[u8]) -> Utf8Counts
    requires { length window.now ≡ 17 }
    ensures { result ≡ seen window.now }
{
    let fault = is_fault(window);
    let chars = twice_len(window);
    Utf8Counts {
        chars: number(is_char(window)),
        faults: number(fault),
        third: number(fault && follows_two(window)),
        signs: number(fault && is_in_word(window)),
        undefined: number(fault && is_undefined(window)),
        surrogates: number(is_surrogate(window)),
        twice: number(0 < chars),
        twice_chars: chars as u64,
    }
}

// What a window at which a character of several bytes begins adds to the counts.
#[inline(always)]
#[tactic(auto, using(crate::proofs::CharWindows::seen_char))]
fn char_seen(window: &[u8]) -> Utf8Counts
    requires window { length window.now ≡ 17 }
    requires char { 1 < front_len (drop 3 window.now) }
    ensures { result ≡ seen window.now }
{
    let sequence = twice_len(window);
    Utf8Counts {
        chars: 1,
        faults: 0,
        third: 0,
        signs: 0,
        undefined: 0,
        surrogates: number(is_surrogate(window)),
        twice: number(0 < sequence),
        twice_chars: sequence as u64,
    }
}

// An offset from the given one on, up to which the fourth byte of each window is ASCII, as far as blocks show.
#[inline(always)]
fn ascii_end(bytes: &[u8], place: usize) -> usize
    requires { place + 17 ≤ length bytes.now }
    ensures least { place ≤ result }
    ensures within { result + 16 ≤ length bytes.now }
    ensures ascii { AreAscii bytes.now (place + 3) (result + 3) }
{
    (ascii_wide_end(bytes, place + 3) - 3).min(bytes.len() - (WINDOW - 1))
}

// An offset after the given one, up to which the fourth byte of each window is ASCII.
#[inline(always)]
fn ascii_step(bytes: &[u8], place: usize) -> usize
    requires within { place + 17 ≤ length bytes.now }
    requires ascii { slice_index bytes.now (place + 3) < 0x80 }
    ensures more { place < result }
    ensures within { result + 16 ≤ length bytes.now }
    ensures ascii { AreAscii bytes.now (place + 3) (result + 3) }
{
    if place % 64 != 0 {
        return place + 1;
    }
    let end = ascii_end(bytes, place);
    if end <= place { place + 1 } else { end }
}
