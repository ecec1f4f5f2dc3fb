//! What an input most likely is, by its survey. A guess, and no more.
#![tactic(auto, unfolding(crate::specs::Guesses::is_file, crate::specs::Guesses::is_utf32, crate::specs::Guesses::single, crate::specs::Guesses::is_padded, crate::specs::Guesses::are_units, crate::specs::Guesses::is_binary, crate::specs::Guesses::is_twice, crate::specs::Guesses::has_surrogates, crate::specs::Guesses::is_in_runs, crate::specs::Guesses::is_elsewhere, crate::specs::Guesses::guessed_of_single, crate::specs::Guesses::guessed_of_bytes, crate::specs::Guesses::guessed_of_counts, crate::specs::Guesses::guessed))]

ghost use Rattle.std.specs.Prelude.{◌≡◌, ◌+◌, ◌*◌, ◌≤◌, length, nat_le};
ghost use Rattle.surveys.specs.Guesses.{are_units, begins, guess_text, guessed, guessed_of_bytes, guessed_of_counts};
ghost use Rattle.surveys.specs.Guesses.{guessed_of_single, has_surrogates, is_binary, is_elsewhere, is_file};
ghost use Rattle.surveys.specs.Guesses.{is_in_runs, is_padded, is_twice, is_utf32, single};

use crate::survey::Survey;
use crate::unit_counts::UnitCounts;

/// What an input most likely is.
#[derive(Clone, Copy, Debug, PartialEq, Eq, Drop)]
pub enum Guess {
    /// Only ASCII, or nothing.
    Ascii,
    /// UTF-8 that is valid.
    Utf8,
    /// UTF-8 with a byte order mark.
    Utf8Marked,
    /// UTF-8 of which some bytes at the start or the end are missing, inside a character.
    Utf8Cut,
    /// UTF-8 with single bytes of an 8-bit encoding.
    Utf8Mixed,
    /// UTF-8 that was read as Windows-1252 and encoded once more.
    Utf8Twice,
    /// UTF-8 with surrogates: CESU-8, or Java's modified UTF-8.
    Utf8Surrogates,
    /// UTF-16, low byte first, without a byte order mark.
    Utf16Le,
    /// UTF-16, high byte first, without a byte order mark.
    Utf16Be,
    /// UTF-16, low byte first, with a byte order mark.
    Utf16LeMarked,
    /// UTF-16, high byte first, with a byte order mark.
    Utf16BeMarked,
    /// UTF-32 with a byte order mark.
    Utf32,
    /// Windows-1252, or another 8-bit encoding of Latin letters.
    Windows1252,
    /// Some 8-bit encoding, but not Windows-1252.
    Other8Bit,
    /// No text.
    Binary,
}

impl Guess {
    /// What the guess says, for people.
    pub fn text(self) -> &'static str
        ensures { result.now ≡ guess_text self }
    {
        match self {
            Guess::Ascii => "ASCII",
            Guess::Utf8 => "UTF-8",
            Guess::Utf8Marked => "UTF-8, by its byte order mark",
            Guess::Utf8Cut => "UTF-8, cut off inside a character",
            Guess::Utf8Mixed => "UTF-8, with single bytes of an 8-bit encoding",
            Guess::Utf8Twice => "UTF-8 that was encoded twice",
            Guess::Utf8Surrogates => "CESU-8 or Java's modified UTF-8: UTF-8 with surrogates",
            Guess::Utf16Le => "UTF-16LE, without a byte order mark",
            Guess::Utf16Be => "UTF-16BE, without a byte order mark",
            Guess::Utf16LeMarked => "UTF-16LE, by its byte order mark",
            Guess::Utf16BeMarked => "UTF-16BE, by its byte order mark",
            Guess::Utf32 => "UTF-32, by its byte order mark",
            Guess::Windows1252 => "Windows-1252, or another encoding of Latin letters",
            Guess::Other8Bit => "some 8-bit encoding, but not Windows-1252",
            Guess::Binary => "not text",
        }
    }
}

/// What an input most likely is, by its survey.
pub fn guess_of(survey: &Survey) -> Guess
    ensures { result ≡ guessed survey.now }
{
    let front = &survey.front;
    if is_file(front) {
        Guess::Binary
    } else if begins(&[0xef, 0xbb, 0xbf], front) {
        Guess::Utf8Marked
    } else if 4 <= survey.len && is_utf32(front) {
        Guess::Utf32
    } else if begins(&[0xff, 0xfe], front) {
        Guess::Utf16LeMarked
    } else if begins(&[0xfe, 0xff], front) {
        Guess::Utf16BeMarked
    } else {
        by_counts(survey)
    }
}

/// Returns true if the front is that of a file of some other kind than text.
pub(crate) fn is_file(front: &[u8]) -> bool
    requires { length front.now ≡ 4 }
    ensures { result ≡ is_file front.now }
{
    begins(b"%PDF", front)
        || begins(b"\x7fELF", front)
        || begins(b"\x89PNG", front)
        || begins(b"PK\x03\x04", front)
        || begins(b"GIF8", front)
        || begins(&[0x1f, 0x8b], front)
        || begins(&[0xde, 0x12, 4, 0x95], front)
}

// Returns true if the front is a byte order mark of UTF-32.
fn is_utf32(front: &[u8]) -> bool
    requires { length front.now ≡ 4 }
    ensures { result ≡ is_utf32 front.now }
{
    begins(&[0xff, 0xfe, 0, 0], front) || begins(&[0, 0, 0xfe, 0xff], front)
}

// Returns true if the bytes begin with the mark.
fn begins(mark: &[u8], front: &[u8]) -> bool
    requires { length mark.now ≤ length front.now }
    ensures { result ≡ begins mark.now front.now }
{
    match mark {
        [] => true,
        [byte, rest @ ..] => front[0] == *byte && begins(rest, &front[1..]),
    }
}

// By the counts, without a mark at the front.
fn by_counts(survey: &Survey) -> Guess
    ensures { result ≡ guessed_of_counts survey.now }
{
    if is_padded(survey) {
        Guess::Binary
    } else if are_units(survey.len, &survey.utf16le, &survey.utf16be) {
        Guess::Utf16Le
    } else if are_units(survey.len, &survey.utf16be, &survey.utf16le) {
        Guess::Utf16Be
    } else if is_binary(survey) {
        Guess::Binary
    } else {
        by_bytes(survey)
    }
}

/// Returns true if the bytes are valid UTF-8 without other controls, and fewer than one of four is 00.
pub(crate) fn is_padded(survey: &Survey) -> bool
    ensures { result ≡ is_padded survey.now }
{
    0 < survey.nul
        && !covers(survey.nul, 4, survey.len)
        && survey.utf8.faults == 0
        && survey.control == 0
}

// Returns true if the units of one order are text.
fn are_units(len: u64, units: &UnitCounts, other: &UnitCounts) -> bool
    ensures { result ≡ are_units len units.now other.now }
{
    1 < len
        && covers(units.plain, 100, len)
        && is_within(other.plain, 2, units.plain)
        && are_few(units.stray, units.unpaired, units.plain)
}

// Returns true if a byte is 00, or more than one of fifty is another control.
fn is_binary(survey: &Survey) -> bool
    ensures { result ≡ is_binary survey.now }
{
    0 < survey.nul || !is_within(survey.control, 50, survey.len)
}

// By the bytes, which no mark and no 00 tells apart.
fn by_bytes(survey: &Survey) -> Guess
    ensures { result ≡ guessed_of_bytes survey.now }
{
    let counts = &survey.utf8;
    if counts.chars == 0 && counts.faults == 0 {
        Guess::Ascii
    } else if is_twice(survey) {
        Guess::Utf8Twice
    } else if counts.faults == 0 {
        Guess::Utf8
    } else if single(survey) == 0 {
        Guess::Utf8Cut
    } else {
        by_single(survey)
    }
}

// With invalid bytes that are not only the rest or the front of a character.
fn by_single(survey: &Survey) -> Guess
    ensures { result ≡ guessed_of_single survey.now }
{
    let counts = &survey.utf8;
    if covers(counts.surrogates, 6, single(survey)) {
        Guess::Utf8Surrogates
    } else if single(survey) <= counts.chars {
        Guess::Utf8Mixed
    } else if is_in_runs(survey) {
        Guess::Other8Bit
    } else if covers(counts.chars, 10, single(survey)) {
        Guess::Utf8Mixed
    } else if is_elsewhere(survey) {
        Guess::Other8Bit
    } else {
        Guess::Windows1252
    }
}

// Invalid bytes that are not the rest or the front of a character at an end; without any character, all of them.
fn single(survey: &Survey) -> u64
    ensures { result ≡ single survey.now }
{
    if survey.utf8.chars == 0 {
        survey.utf8.faults
    } else {
        survey
            .utf8
            .faults
            .saturating_sub(u64::from(survey.head))
            .saturating_sub(u64::from(survey.tail))
    }
}

// Returns true if at least half of the characters are of sequences that were encoded twice.
fn is_twice(survey: &Survey) -> bool
    ensures { result ≡ is_twice survey.now }
{
    let counts = &survey.utf8;
    0 < counts.twice
        && covers(counts.twice_chars, 2, counts.chars)
        && single(survey) <= counts.chars
}

/// Returns true if a fourth of the invalid bytes follow two bytes above 7F, as in text of other letters than Latin ones.
pub(crate) fn is_in_runs(survey: &Survey) -> bool
    ensures { result ≡ is_in_runs survey.now }
{
    covers(survey.utf8.third, 4, survey.utf8.faults)
}

/// Returns true if invalid bytes are letters in other encodings than Windows-1252.
pub(crate) fn is_elsewhere(survey: &Survey) -> bool
    ensures { result ≡ is_elsewhere survey.now }
{
    let counts = &survey.utf8;
    2 <= counts.signs && covers(counts.signs, 20, counts.faults) || 0 < counts.undefined
}

// Returns true if twenty times the sum of two counts is at most a third one.
fn are_few(stray: u64, unpaired: u64, plain: u64) -> bool
    ensures { result ≡ nat_le ((stray + unpaired) * 20) plain }
{
    match stray.checked_add(unpaired) {
        Some(sum) => is_within(sum, 20, plain),
        None => false,
    }
}

// Returns true if the product of a count and a factor is at least a total.
fn covers(count: u64, times: u64, total: u64) -> bool
    ensures { result ≡ nat_le total (count * times) }
{
    match count.checked_mul(times) {
        Some(product) => total <= product,
        None => true,
    }
}

// Returns true if the product of a count and a factor is at most a total.
fn is_within(count: u64, times: u64, total: u64) -> bool
    ensures { result ≡ nat_le (count * times) total }
{
    match count.checked_mul(times) {
        Some(product) => product <= total,
        None => false,
    }
}
