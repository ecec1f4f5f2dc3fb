//! The first and the last bytes of an input, and the bytes that do not occur in text.
#![tactic(auto, unfolding(crate::specs::SurveyEnds::head_len, crate::specs::SurveyEnds::is_begun, crate::specs::SurveyEnds::is_front, crate::specs::SurveyEnds::tail_len, crate::specs::SurveyEnds::first_four))]

ghost use Rattle.std.specs.Prelude.{◌≡◌, ◌+◌, ◌<◌, ◌≤◌, count_by, length};
ghost use Rattle.surveys.specs.SurveyEnds.{first_four, head_len, is_begun, is_control, is_front, is_nul, tail_len};

use crate::classes::{ByteClass, count_of};
use crate::few_bytes::FewBytes;
use crate::windows::front_len;
use utf_base::elements::is_continuation;

/// The number of bytes that are 00.
pub(crate) fn nul_count(bytes: &[u8]) -> usize
    ensures { result ≡ count_by is_nul bytes.now }
{
    count_of::<Nul>(bytes)
}

/// The number of controls that do not occur in text.
pub(crate) fn control_count(bytes: &[u8]) -> usize
    ensures { result ≡ count_by is_control bytes.now }
{
    count_of::<Control>(bytes)
}

// The byte 00.
struct Nul;

impl ByteClass for Nul {
    ghost use Rattle.surveys.specs.SurveyEnds.{is_nul};

    ghost class = { is_nul };

    #[inline(always)]
    fn has(byte: u8) -> bool {
        byte == 0
    }
}

// Controls that do not occur in text.
struct Control;

impl ByteClass for Control {
    ghost use Rattle.surveys.specs.SurveyEnds.{is_control};

    ghost class = { is_control };

    #[inline(always)]
    fn has(byte: u8) -> bool {
        1 <= byte && byte < 7 || 14 <= byte && byte < 27 || 28 <= byte && byte < 32
    }
}

/// The first four bytes, with zeros for those that are missing.
pub(crate) fn first_four(bytes: &[u8]) -> [u8; 4]
    requires { length bytes.now ≤ 16 }
    ensures { result ≡ first_four bytes.now }
{
    let padded = FewBytes::joined(bytes, &[0; 4]);
    let padded = padded.bytes();
    [padded[0], padded[1], padded[2], padded[3]]
}

/// The number of continuation bytes before any other byte, at most three.
pub(crate) fn head_len(front: &[u8]) -> usize
    requires { length front.now ≡ 4 }
    ensures len { result ≡ head_len front.now }
    ensures few { result ≤ 3 }
{
    if !is_continuation(front[0]) {
        return 0;
    }
    if !is_continuation(front[1]) {
        return 1;
    }
    if is_continuation(front[2]) { 3 } else { 2 }
}

/// The number of bytes at the end of three that begin a character whose other bytes are missing.
pub(crate) fn tail_len(bytes: &[u8]) -> usize
    requires { length bytes.now ≡ 3 }
    ensures len { result ≡ tail_len bytes.now }
    ensures few { result ≤ 3 }
{
    if is_front(3, bytes) {
        return 3;
    }
    if is_front(2, bytes) {
        return 2;
    }
    if is_front(1, bytes) { 1 } else { 0 }
}

// Returns true if the last n of three bytes begin a character whose other bytes are missing.
fn is_front(n: usize, bytes: &[u8]) -> bool
    requires few { n ≤ 3 }
    requires three { length bytes.now ≡ 3 }
    ensures { result ≡ is_front n bytes.now }
{
    is_begun(n, FewBytes::joined(bytes, &[0x80; 4]).bytes())
        || is_begun(n, FewBytes::joined(bytes, &[0xbf; 4]).bytes())
}

// Returns true if the last n of three bytes, with others after them, begin a character of more than n bytes.
fn is_begun(n: usize, bytes: &[u8]) -> bool
    requires few { n ≤ 3 }
    requires seven { length bytes.now ≡ 7 }
    ensures { result ≡ is_begun n bytes.now }
{
    n < front_len(&bytes[3 - n..])
}
