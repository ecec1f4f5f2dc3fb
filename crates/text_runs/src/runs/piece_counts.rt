//! Pieces counted without stepping from one to the next: so no branch depends on the length of a piece.
ghost use Rattle.std.specs.Prelude.{◌≡◌, ◌+◌, ◌≤◌, ◌<◌, drop, length};
ghost use Rattle.encode_unicode.specs.Pieces.{pieces};
ghost use Rattle.text_runs.specs.InnerBytes.{inner_after, inner_before, is_longer};

use encode_unicode::CharExt;
use utf_base::elements::is_continuation;

/// The number of characters and invalid bytes in the bytes.
///
/// Cost: O(n).
// An inner byte is one that a code has after its first, and every other byte begins a piece.
pub fn piece_count(bytes: &[u8]) -> usize
    ensures { result ≡ length (pieces bytes.now) }
{
    let wide = blocks_inner::<32>(bytes, 0);
    let all = blocks_inner::<16>(bytes, wide.place);
    bytes.len() - wide.inner - all.inner - inner_from(bytes, all.place)
}

// An offset, and the number of inner bytes of the characters that begin from another offset on and before it.
#[derive(Clone, Copy, Drop)]
struct Inner {
    place: usize,
    inner: usize,
}

// Inner bytes from the start on, by blocks of `PLACES` offsets, up to the last whole block. A loop examines the
// offsets of a block, which the compiler vectorises, and a `u8` counts the inner bytes there. Whether a character
// begins at an offset depends on the three bytes after it too.
#[inline(always)]
fn blocks_inner<const PLACES: usize>(bytes: &[u8], start: usize) -> Inner
    requires some { 0 < PLACES }
    requires few { PLACES ≤ 64 }
    requires start { start ≤ length bytes.now }
    ensures within { result.place ≤ length bytes.now }
    ensures inner { inner_before bytes.now start + result.inner ≡ inner_before bytes.now result.place }
{
    let block = PLACES + 3;
    let mut place = start;
    let mut inner = 0;
    while block <= bytes.len() - place {
        inner += block_inner::<PLACES>(&bytes[place..place + block]) as usize;
        place += PLACES;
    }
    Inner { place, inner }
}

// The number of inner bytes of the characters that begin at the start or after it.
fn inner_from(bytes: &[u8], start: usize) -> usize
    requires { start ≤ length bytes.now }
    ensures { inner_before bytes.now start + result ≡ inner_before bytes.now (length bytes.now) }
{
    let mut inner = 0;
    for place in start..bytes.len() {
        inner += front_inner(&bytes[place..]);
    }
    inner
}

// The number of inner bytes of the character that begins the bytes.
#[inline(always)]
fn front_inner(bytes: &[u8]) -> usize
    requires { 0 < length bytes.now }
    ensures { result ≡ inner_after bytes.now }
{
    if bytes[0] < 0xc2 {
        return 0;
    }
    match char::from_utf8_slice_start(bytes) {
        Ok((_, len)) => len - 1,
        Err(_) => 0,
    }
}

// The number of inner bytes of the characters that begin at the offsets of a block.
#[inline(always)]
fn block_inner<const PLACES: usize>(bytes: &[u8]) -> u8
    requires few { PLACES ≤ 64 }
    requires enough { PLACES + 3 ≤ length bytes.now }
    ensures { result ≡ inner_before bytes.now PLACES }
{
    let mut inner = 0;
    for place in 0..PLACES {
        inner += inner_at(bytes, place);
    }
    inner
}

// The number of inner bytes of the character that begins at the offset.
#[inline(always)]
fn inner_at(bytes: &[u8], place: usize) -> u8
    requires { place + 4 ≤ length bytes.now }
    ensures is { result ≡ inner_after (drop place bytes.now) }
    ensures few { result ≤ 3 }
{
    let first = bytes[place];
    let is_code = is_longer(first, bytes[place + 1], bytes[place + 2], bytes[place + 3]);
    if !is_code {
        return 0;
    }
    1 + u8::from(0xe0 <= first) + u8::from(0xf0 <= first)
}

// Returns true if a character of two bytes or more begins these four.
#[inline(always)]
fn is_longer(first: u8, second: u8, third: u8, fourth: u8) -> bool
    ensures { result ≡ is_longer first second third fourth }
{
    0xc2 <= first
        && first < 0xf5
        && is_continuation(second)
        && (first != 0xe0 || 0xa0 <= second)
        && (first != 0xed || second < 0xa0)
        && (first != 0xf0 || 0x90 <= second)
        && (first != 0xf4 || second < 0x90)
        && (first < 0xe0 || is_continuation(third))
        && (first < 0xf0 || is_continuation(fourth))
}
