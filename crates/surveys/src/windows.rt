//! What the window of an offset shows: the 17 bytes of which the fourth is the one at the offset.
#![tactic(auto, unfolding(crate::specs::SurveyWindows::front_len, crate::specs::SurveyWindows::is_fault, crate::specs::SurveyWindows::is_char, crate::specs::SurveyWindows::follows_two, crate::specs::SurveyWindows::is_undefined, crate::specs::SurveyWindows::is_letter, crate::specs::SurveyWindows::is_letter_elsewhere, crate::specs::SurveyWindows::is_in_word, crate::specs::SurveyWindows::is_surrogate, crate::specs::SurveyWindows::is_shown, crate::specs::SurveyWindows::shown_len, crate::specs::SurveyWindows::are_shown, crate::specs::SurveyWindows::twice_len))]

ghost use Rattle.std.specs.Prelude.{◌≡◌, ◌+◌, ◌*◌, ◌<◌, ◌≤◌, length};
ghost use Rattle.utf_base.specs.Front.{as_scalar};
ghost use Rattle.surveys.specs.SurveyWindows.{are_shown, covers, follows_two, front_len, is_char, is_fault};
ghost use Rattle.surveys.specs.SurveyWindows.{is_in_word, is_letter, is_letter_elsewhere, is_shown, is_surrogate};
ghost use Rattle.surveys.specs.SurveyWindows.{is_undefined, shown_len, twice_len};

use utf_base::elements::is_continuation;
use utf_base::traits::U8UtfExt;
use utf_lanes::text_front::front_of_text;

/// The length in bytes of a window.
pub(crate) const WINDOW: usize = 17;

// The characters of Windows-1252 at 80 to 9F.
#[rattlefmt::skip]
const SIGNS: [u32; 27] = [
    0x20ac, 0x201a, 0x192, 0x201e, 0x2026, 0x2020, 0x2021, 0x2c6, 0x2030, 0x160, 0x2039, 0x152, 0x17d, 0x2018, 0x2019,
    0x201c, 0x201d, 0x2022, 0x2013, 0x2014, 0x2dc, 0x2122, 0x161, 0x203a, 0x153, 0x17e, 0x178,
];

/// The length in bytes of the character that begins the bytes, or 0.
#[inline(always)]
pub(crate) fn front_len(bytes: &[u8]) -> usize
    requires { 4 ≤ length bytes.now }
    ensures len { result ≡ front_len bytes.now }
    ensures few { result ≤ 4 }
{
    match front_of_text(bytes) {
        Some((_, len)) => len,
        None => 0,
    }
}

// Returns true if a character that begins that many bytes before the offset covers it.
#[inline(always)]
fn covers(back: usize, window: &[u8]) -> bool
    requires window { length window.now ≡ 17 }
    requires back { back ≤ 3 }
    ensures { result ≡ covers back window.now }
{
    back < front_len(&window[3 - back..])
}

/// Returns true if no character covers the offset.
#[inline(always)]
pub(crate) fn is_fault(window: &[u8]) -> bool
    requires { length window.now ≡ 17 }
    ensures { result ≡ is_fault window.now }
{
    !(covers(0, window) || covers(1, window) || covers(2, window) || covers(3, window))
}

/// Returns true if a character of several bytes begins at the offset.
#[inline(always)]
pub(crate) fn is_char(window: &[u8]) -> bool
    requires { length window.now ≡ 17 }
    ensures { result ≡ is_char window.now }
{
    1 < front_len(&window[3..])
}

/// Returns true if the two bytes before the offset are above 7F, and the one at the offset is not A0.
#[inline(always)]
pub(crate) fn follows_two(window: &[u8]) -> bool
    requires { length window.now ≡ 17 }
    ensures { result ≡ follows_two window.now }
{
    0x80 <= window[1] && 0x80 <= window[2] && window[3] != 0xa0
}

/// Returns true if Windows-1252 has no character for the byte at the offset.
#[inline(always)]
pub(crate) fn is_undefined(window: &[u8]) -> bool
    requires { length window.now ≡ 17 }
    ensures { result ≡ is_undefined window.now }
{
    let byte = window[3];
    byte == 0x81 || byte == 0x8d || byte == 0x8f || byte == 0x90 || byte == 0x9d
}

// Returns true if the byte is an ASCII letter.
#[inline(always)]
fn is_letter(byte: u8) -> bool
    ensures { result ≡ is_letter byte }
{
    0x41 <= byte && byte <= 0x5a || 0x61 <= byte && byte <= 0x7a
}

// Returns true if the byte is a letter in other encodings, and in Windows-1252 hardly occurs within words.
#[inline(always)]
fn is_letter_elsewhere(byte: u8) -> bool
    ensures { result ≡ is_letter_elsewhere byte }
{
    if byte < 0xa0 {
        byte == 0x8a || 0x8d <= byte && byte <= 0x8f || byte == 0x9a || 0x9d <= byte
    } else {
        0xa1 <= byte && byte <= 0xbf && byte != 0xad && byte != 0xb7
    }
}

/// Returns true if the byte at the offset is between ASCII letters, where Windows-1252 rarely has it.
#[inline(always)]
pub(crate) fn is_in_word(window: &[u8]) -> bool
    requires { length window.now ≡ 17 }
    ensures { result ≡ is_in_word window.now }
{
    is_letter(window[2]) && is_letter_elsewhere(window[3]) && is_letter(window[4])
}

/// Returns true if a surrogate begins at the offset, written as a character of three bytes would be.
#[inline(always)]
pub(crate) fn is_surrogate(window: &[u8]) -> bool
    requires { length window.now ≡ 17 }
    ensures { result ≡ is_surrogate window.now }
{
    window[3] == 0xed && 0xa0 <= window[4] && window[4] <= 0xbf && is_continuation(window[5])
}

// Returns true if Windows-1252 has the character for a continuation byte.
#[inline(always)]
fn is_shown(scalar: u32) -> bool
    ensures { result ≡ is_shown scalar }
{
    0x80 <= scalar && scalar < 0xc0 || SIGNS.contains(&scalar)
}

// The length in bytes of the character that begins the bytes, if Windows-1252 has it for a continuation byte; otherwise 0.
#[inline(always)]
fn shown_len(bytes: &[u8]) -> usize
    requires { 4 ≤ length bytes.now }
    ensures len { result ≡ shown_len bytes.now }
    ensures few { result ≤ 4 }
{
    match front_of_text(bytes) {
        Some((c, len)) => { if is_shown(c as u32) { len } else { 0 } }
        None => 0,
    }
}

// Returns true if that many such characters begin the bytes.
fn are_shown(count: usize, bytes: &[u8]) -> bool
    requires { 4 * count ≤ length bytes.now }
    ensures { result ≡ are_shown count bytes.now }
{
    if count == 0 {
        return true;
    }
    let len = shown_len(bytes);
    0 < len && are_shown(count - 1, &bytes[len..])
}

/// The number of characters of the sequence at the offset that was encoded twice: what Windows-1252 has for a lead byte,
/// and then for as many continuation bytes as that needs. Otherwise 0.
#[inline(always)]
pub(crate) fn twice_len(window: &[u8]) -> usize
    requires { length window.now ≡ 17 }
    ensures len { result ≡ twice_len window.now }
    ensures few { result ≤ 4 }
{
    if window[3] != 0xc3 || !is_continuation(window[4]) {
        return 0;
    }
    match (window[4] + 0x40).extra_utf8_bytes() {
        Ok(more) if are_shown(more, &window[5..]) => more + 1,
        _ => 0,
    }
}
