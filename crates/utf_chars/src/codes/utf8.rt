//! The code of a scalar in UTF-8 (RFC 3629).
ghost use Rattle.std.specs.Prelude.{◌≡◌, ◌+◌, ◌-◌, ◌*◌, ◌%◌, ◌≤◌, ◌<◌, ◌&&◌, true, false, length};
ghost use Rattle.std.specs.Int.{w32, from_le_bytes};
ghost use Rattle.utf_base.specs.Code.{utf8};
ghost use Rattle.utf_base.specs.Front.{as_scalar, IsOneCode, DecodesFront, DecodesBytes};
ghost use Rattle.utf_base.specs.Kinds.{asked_by, is_continuation};
ghost use Rattle.utf_base.specs.Table.{is_running as running, missing, state_after};
ghost use Rattle.utf_chars.specs.Padded.{padded};

use utf_base::errors::{Utf8Error, Utf8ErrorKind};
use utf_base::table::walks::{error_after, error_of_first, is_running};
use utf_base::table::{State, class_of, step};

/// The code, followed by zeros, and its length: 1 to 4 bytes.
#[inline(always)]
pub(crate) fn encode(c: char) -> ([u8; 4], usize)
    ensures code { result.0 ≡ padded 4 (utf8 c) }
    ensures len { result.1 ≡ length (utf8 c) }
{
    encode_number(c as u32)
}

/// The code of a number below 0x110000, followed by zeros.
#[inline(always)]
pub(crate) fn padded_code(s: u32) -> [u8; 4]
    requires { s < 0x11_0000 }
    ensures { result ≡ padded 4 (utf8 s) }
{
    let (code, _) = encode_number(s);
    code
}

/// The character whose code begins the bytes, and the length of the code: 1 to 4 bytes.
///
/// Bytes after the code do not matter. If no code begins them, the error is the first that applies: no byte
/// at all or fewer than the first asks for, whatever they are, is `TooFewBytes`; a first byte that begins no
/// code is `UnexpectedContinuationByte` or `NonUtf8Byte`; one that is asked for and is no continuation byte
/// is `InterruptedSequence`; and then the value is checked, for `OverlongEncoding`, `Utf16ReservedCodepoint`
/// or `TooHighCodepoint`.
#[inline(always)]
pub(crate) fn decode_start(src: &[u8]) -> Result<(char, usize), Utf8Error>
    ensures { DecodesFront as_scalar src.now result }
{
    if src.is_empty() {
        return Err(Utf8Error::new(Utf8ErrorKind::TooFewBytes));
    }
    let first = step(State::Start, class_of(src[0]));
    if is_running(first) {
        return decode_asked(first, src);
    }
    if first != State::Done {
        return Err(error_of_first(first));
    }
    Ok((ascii(src[0]), 1))
}

/// The character whose code begins the four bytes. Those after the code are ignored.
///
/// The error is that of `decode_start`, and never `TooFewBytes`.
#[inline(always)]
pub(crate) fn decode_array(bytes: [u8; 4]) -> Result<char, Utf8Error>
    ensures { DecodesBytes as_scalar bytes result }
{
    let (c, _) = decode_start(&bytes)?;
    Ok(c)
}

/// The character whose code the bytes are.
#[inline(always)]
#[tactic(auto, using(utf_base::proofs::Standing::same_char, utf_base::proofs::Standing::stands_alone, utf_base::proofs::Utf8Code::utf8_is_code, crate::proofs::Decoded::IsOk_DecodesFront))]
pub(crate) fn decode_exact_unchecked(src: &[u8]) -> char
    requires { IsOneCode utf8 src.now }
    ensures { utf8 result ≡ src.now }
{
    let (c, _) = decode_start(src).unwrap();
    c
}

/// The payloads of two bytes, each times its power of 64, added up.
#[inline(always)]
pub(crate) fn value_of_two(first: u8, second: u8) -> u32
    requires first { (0xC0 ≤ first) × (first < 0xE0) }
    requires second { is_continuation second ≡ true }
    ensures { result ≡ (first - 0xC0) * 64 + (second - 0x80) }
{
    ((first & 0x1f) as u32) << 6 | (second & 0x3f) as u32
}

/// The payloads of three bytes, each times its power of 64, added up.
#[inline(always)]
pub(crate) fn value_of_three(first: u8, second: u8, third: u8) -> u32
    requires first { (0xE0 ≤ first) × (first < 0xF0) }
    requires continuation_bytes { (is_continuation second && is_continuation third) ≡ true }
    ensures sum { result ≡ (first - 0xE0) * 4096 + (second - 0x80) * 64 + (third - 0x80) }
    ensures bound { result < 0x1_0000 }
{
    (((first & 0x0f) as u32) << 6 | (second & 0x3f) as u32) << 6 | (third & 0x3f) as u32
}

/// The payloads of four bytes, each times its power of 64, added up.
#[inline(always)]
pub(crate) fn value_of_four(first: u8, second: u8, third: u8, fourth: u8) -> u32
    requires first { (0xF0 ≤ first) × (first < 0xF8) }
    requires continuation_bytes { (is_continuation second && is_continuation third &&
        is_continuation fourth) ≡ true }
    ensures { result ≡
        (first - 0xF0) * 262144 + (second - 0x80) * 4096 + (third - 0x80) * 64 + (fourth - 0x80) }
{
    let high = (((first & 0x07) as u32) << 6 | (second & 0x3f) as u32) << 6 | (third & 0x3f) as u32;
    high << 6 | (fourth & 0x3f) as u32
}

// The code of a number below 0x110000, followed by zeros, and its length in bytes.
#[inline(always)]
#[tactic(auto, unfolding(utf_base::specs::Code::utf8, crate::specs::Padded::padded), using(std::proofs::lemmas::Nat::le_bytes_4))]
fn encode_number(s: u32) -> ([u8; 4], usize)
    requires { s < 0x11_0000 }
    ensures code { result.0 ≡ padded 4 (utf8 s) }
    ensures len { result.1 ≡ length (utf8 s) }
{
    let (code, len) = code_in_one_number(s);
    (code.to_le_bytes(), len)
}

// The code in one number, whose lowest byte is the first, and its length: so the code stays in one register.
#[inline(always)]
#[tactic(auto, unfolding(utf_base::specs::Code::utf8, crate::specs::Padded::padded))]
fn code_in_one_number(s: u32) -> (u32, usize)
    requires { s < 0x11_0000 }
    ensures code { result.0 ≡ from_le_bytes w32 (padded 4 (utf8 s)) }
    ensures len { result.1 ≡ length (utf8 s) }
{
    if s < 0x80 {
        return (s, 1);
    }
    let last = continuation(s);
    if s < 0x800 {
        return (0xc0 + (s >> 6) + (last << 8), 2);
    }
    let third = continuation(s >> 6);
    if s < 0x1_0000 {
        return (0xe0 + (s >> 12) + (third << 8) + (last << 16), 3);
    }
    let second = continuation(s >> 12);
    let code = 0xf0 + (s >> 18) + (second << 8) + (third << 16) + (last << 24);
    (code, 4)
}

// The lowest six bits, as a continuation byte.
#[inline(always)]
fn continuation(bits: u32) -> u32
    ensures { result ≡ 0x80 + bits % 64 }
{
    0x80 | bits & 0x3f
}

// The character of an ASCII code. It makes known to the compiler that the byte is ASCII, so that uses of the
// character do not test it.
#[inline(always)]
fn ascii(byte: u8) -> char
    requires { byte < 0x80 }
    ensures { result ≡ byte }
{
    match byte {
        0x00..=0x7f => char::from(byte),
        _ => unreachable!(),
    }
}

// The character that begins the bytes, if the first asks for others.
#[inline(always)]
fn decode_asked(first: State, src: &[u8]) -> Result<(char, usize), Utf8Error>
    requires some { 0 < length src.now }
    requires walked { first ≡ state_after src.now 1 }
    requires asks { running first ≡ true }
    ensures { DecodesFront as_scalar src.now result }
{
    if are_too_few(src.len(), first) {
        return Err(Utf8Error::new(Utf8ErrorKind::TooFewBytes));
    }
    decode_second(first, src)
}

// Returns true if `len` bytes are fewer than the first asks for.
#[inline(always)]
#[tactic(auto, using(utf_base::proofs::TableSteps::missing_le))]
fn are_too_few(len: usize, first: State) -> bool
    ensures few { result ≡ true → len < 1 + missing first }
    ensures enough { result ≡ false → 1 + missing first ≤ len }
{
    len < 4 && len < 1 + missing_after(first)
}

// The number of bytes that the state asks for. It is called only near the end of the bytes, and outlined.
#[cold]
#[inline(never)]
fn missing_after(state: State) -> usize
    ensures count { result ≡ missing state }
    ensures most { result ≤ 3 }
{
    match state {
        State::OneMore | State::OneMoreOverlong | State::OneMoreReserved | State::OneMoreTooHigh =>
            1,
        State::TwoMore
        | State::AfterE0
        | State::AfterEd
        | State::TwoMoreOverlong
        | State::TwoMoreTooHigh => 2,
        State::ThreeMore | State::AfterF0 | State::AfterF4 => 3,
        _ => 0,
    }
}

// The character, from the second byte on. Each byte is read if the state after the previous ones asks for it. The
// last state says whether the bytes are a code, so the value is not checked.
#[inline(always)]
fn decode_second(first: State, src: &[u8]) -> Result<(char, usize), Utf8Error>
    requires walked { first ≡ state_after src.now 1 }
    requires asks { running first ≡ true }
    requires some { 1 < length src.now }
    requires enough { asked_by src.now ≤ length src.now }
    ensures { DecodesFront as_scalar src.now result }
{
    let second = step(first, class_of(src[1]));
    if is_running(second) {
        return decode_third(second, src);
    }
    if second != State::Done {
        return Err(error_after(second));
    }
    let value = value_of_two(src[0], src[1]);
    Ok((unsafe { char::from_u32_unchecked(value) }, 2))
}

// The character, from the third byte on.
#[inline(always)]
fn decode_third(second: State, src: &[u8]) -> Result<(char, usize), Utf8Error>
    requires walked { second ≡ state_after src.now 2 }
    requires asks { running second ≡ true }
    requires some { 2 < length src.now }
    requires enough { asked_by src.now ≤ length src.now }
    ensures { DecodesFront as_scalar src.now result }
{
    let third = step(second, class_of(src[2]));
    if is_running(third) {
        return decode_fourth(third, src);
    }
    if third != State::Done {
        return Err(error_after(third));
    }
    let value = value_of_three(src[0], src[1], src[2]);
    Ok((unsafe { char::from_u32_unchecked(value) }, 3))
}

// The character, from the fourth byte on.
#[inline(always)]
fn decode_fourth(third: State, src: &[u8]) -> Result<(char, usize), Utf8Error>
    requires walked { third ≡ state_after src.now 3 }
    requires asks { running third ≡ true }
    requires some { 3 < length src.now }
    requires enough { asked_by src.now ≤ length src.now }
    ensures { DecodesFront as_scalar src.now result }
{
    let fourth = step(third, class_of(src[3]));
    if fourth != State::Done {
        return Err(error_after(fourth));
    }
    let value = value_of_four(src[0], src[1], src[2], src[3]);
    Ok((unsafe { char::from_u32_unchecked(value) }, 4))
}
