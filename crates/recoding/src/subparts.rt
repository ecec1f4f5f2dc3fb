//! The length of a maximal subpart of UTF-8.
ghost use Rattle.std.specs.Prelude.{◌<◌, ◌≤◌, length, IsTrue};
ghost use Rattle.utf_base.specs.Code.{utf8};
ghost use Rattle.utf_base.specs.Front.{NoneBegins};
ghost use Rattle.utf_base.specs.Subparts.{IsMaximalSubpart};
ghost use Rattle.recoding.specs.NextScalars.{MayBeSecond};
ghost use Rattle.recoding.specs.Lossy.{BeginsLongCode, ThirdContinues};

use utf_base::elements::is_continuation;

// The length of the maximal subpart that begins the bytes, if no code begins them.
#[inline(never)]
pub(crate) fn subpart_len(bytes: &[u8]) -> usize
    requires some { 0 < length bytes.now }
    requires none { NoneBegins utf8 bytes.now }
    ensures subpart { IsMaximalSubpart utf8 bytes.now 0 result }
    ensures within { result ≤ length bytes.now }
{
    if !begins_long_code(bytes) {
        return 1;
    }
    if third_continues(bytes) { 3 } else { 2 }
}

// Returns true if the first two bytes begin a code of three or four.
#[inline(always)]
fn begins_long_code(bytes: &[u8]) -> bool
    ensures yes { IsTrue result → BeginsLongCode bytes.now }
    ensures no { BeginsLongCode bytes.now → IsTrue result }
{
    bytes.len() >= 2 && bytes[0] >= 0xe0 && bytes[0] < 0xf5 && may_be_second(bytes[0], bytes[1])
}

// Returns true if there is a third byte, and it is a continuation byte.
#[inline(always)]
#[tactic(auto, using(crate::proofs::CodeFronts::continues_where, crate::proofs::CodeFronts::continues_not))]
fn third_continues(bytes: &[u8]) -> bool
    ensures yes { IsTrue result → ThirdContinues bytes.now }
    ensures no { ThirdContinues bytes.now → IsTrue result }
{
    bytes.len() >= 3 && is_continuation(bytes[2])
}

// Returns true if a code of three or four bytes that begins with the first byte may have this second one.
#[inline(always)]
pub(crate) fn may_be_second(first: u8, second: u8) -> bool
    ensures yes { IsTrue result → MayBeSecond first second }
    ensures no { MayBeSecond first second → IsTrue result }
{
    is_continuation(second)
        && match first {
            0xe0 => second >= 0xa0,
            0xed => second < 0xa0,
            0xf0 => second >= 0x90,
            0xf4 => second < 0x90,
            _ => true,
        }
}
