//! The character at the front of mostly well-formed bytes.
ghost use Rattle.std.specs.Prelude.{◌≡◌, ◌+◌, ◌-◌, ◌*◌, ◌≤◌, ◌<◌, length, slice_index, IfSome, IfNone, None, Ok, true};
ghost use Rattle.utf_base.specs.Code.{utf8};
ghost use Rattle.utf_base.specs.Decoded.{decoded};
ghost use Rattle.utf_base.specs.Front.{as_scalar, BeginsWith, IsFrontLen, NoneBegins};
ghost use Rattle.utf_base.specs.Kinds.{is_continuation};
ghost use Rattle.utf_lanes.specs.TextBlocks.{IsBegun};

use utf_base::elements::is_continuation;

/// The character that begins the bytes: (character, length in bytes), the length 1 to 4. `None` if no
/// character begins them, or if they are fewer than four.
///
/// Fast path for mostly valid input. Whether and why other bytes are invalid,
/// `CharExt::from_utf8_slice_start` says.
#[inline(always)]
#[tactic(auto, using(utf_base::proofs::DecodedLemmas::decoded_code, utf_base::proofs::DecodedLemmas::front_len_utf8))]
pub fn front_of_text(src: &[u8]) -> Option<(char, usize)>
    ensures some { IfSome result (λ x. BeginsWith utf8 src.now (as_scalar x.0) x.1) }
    ensures known { IfSome result (λ x. decoded src.now ≡ Ok x) }
    ensures len { IfSome result (λ x. IsFrontLen 4 src.now x.1) }
    ensures none { 4 ≤ length src.now → IfNone result (NoneBegins utf8 src.now) }
    ensures few { length src.now < 4 → result ≡ None }
{
    if src.len() < 4 {
        return None;
    }
    if src[0] < 0x80 {
        return Some((char::from(src[0]), 1));
    }
    if src[0] < 0xe0 {
        return two(src);
    }
    if !is_continuation(src[1]) {
        return None;
    }
    if src[0] < 0xf0 { three(src) } else { four(src) }
}

// The character of two bytes, or `None` if the first is below 0xc2.
#[inline(always)]
fn two(src: &[u8]) -> Option<(char, usize)>
    requires enough { 4 ≤ length src.now }
    requires low { 0x80 ≤ slice_index src.now 0 }
    requires high { slice_index src.now 0 < 0xE0 }
    ensures some { IfSome result (λ x. BeginsWith utf8 src.now (as_scalar x.0) x.1) }
    ensures none { IfNone result (NoneBegins utf8 src.now) }
{
    let second = src[1].wrapping_sub(0x80);
    if second >= 0x40 {
        return None;
    }
    // The marker bits of the first byte are removed after the test: so the compiler keeps both tests apart.
    let marked = with_low_bits(src[0] as u32, second as u32);
    if marked < 0xc2 << 6 {
        return None;
    }
    Some((unsafe { char::from_u32_unchecked(marked - (0xc0 << 6)) }, 2))
}

// The character of three bytes.
#[inline(always)]
fn three(src: &[u8]) -> Option<(char, usize)>
    requires { IsBegun 0xE0 0xF0 src.now }
    ensures some { IfSome result (λ x. BeginsWith utf8 src.now (as_scalar x.0) x.1) }
    ensures none { IfNone result (NoneBegins utf8 src.now) }
{
    let front = with_payload((src[0] & 0x0f) as u32, src[1]);
    // Surrogates are recognised by the bits that they share: comparing with both ends makes a branch that predicts
    // badly. Testing the third byte between the two tests of the value keeps the compiler from merging these, which
    // would take more instructions.
    if front >> 5 == 0xd800 >> 11 {
        return None;
    }
    if !is_continuation(src[2]) {
        return None;
    }
    let value = with_payload(front, src[2]);
    if value < 0x800 {
        return None;
    }
    Some((unsafe { char::from_u32_unchecked(value) }, 3))
}

// The character of four bytes, or `None` if the first byte is above 0xf4.
#[inline(always)]
fn four(src: &[u8]) -> Option<(char, usize)>
    requires { IsBegun 0xF0 0x100 src.now }
    ensures some { IfSome result (λ x. BeginsWith utf8 src.now (as_scalar x.0) x.1) }
    ensures none { IfNone result (NoneBegins utf8 src.now) }
{
    let front = with_payload((src[0] & 0x0f) as u32, src[1]);
    if front < 0x1_0000 >> 12 || front > 0x10_ffff >> 12 {
        return None;
    }
    if !is_continuation(src[2]) || !is_continuation(src[3]) {
        return None;
    }
    let value = with_payload(with_payload(front, src[2]), src[3]);
    Some((unsafe { char::from_u32_unchecked(value) }, 4))
}

// Appends the payload of a continuation byte to the value so far.
#[inline(always)]
fn with_payload(front: u32, byte: u8) -> u32
    requires front { front < 0x8000 }
    requires byte { is_continuation byte ≡ true }
    ensures { result ≡ front * 64 + (byte - 0x80) }
{
    with_low_bits(front, (byte & 0x3f) as u32)
}

// Appends six bits to a number.
#[inline(always)]
fn with_low_bits(front: u32, low: u32) -> u32
    requires front { front < 0x8000 }
    requires low { low < 64 }
    ensures { result ≡ front * 64 + low }
{
    front << 6 | low
}
