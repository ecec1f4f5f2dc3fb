//! The code that ends some bytes, in UTF-8.
ghost use Rattle.std.specs.Prelude.{◌≡◌};
ghost use Rattle.utf_base.specs.Back.{EndsInContinuationBytes};
ghost use Rattle.utf_base.specs.Kinds.{back_kind};

use utf_base::elements::is_continuation;
use utf_base::errors::{Utf8Error, Utf8ErrorKind};

/// The number of continuation bytes at the end of the bytes, up to three.
#[inline(always)]
pub(crate) fn continuation_bytes_at_end(src: &[u8]) -> usize
    ensures { EndsInContinuationBytes src.now result }
{
    let mut count = 0;
    while count < 3 && count < src.len() && is_continuation(src[src.len() - 1 - count]) {
        count += 1;
    }
    count
}

/// The error of a last byte that no code ends with.
#[inline(always)]
#[tactic(auto, unfolding(utf_base::specs::Kinds::back_kind, utf_base::specs::Kinds::asked))]
pub(crate) fn fault_of_last(byte: u8) -> Utf8Error
    ensures { result ≡ back_kind byte }
{
    match byte {
        0x80..=0xbf => Utf8Error::new(Utf8ErrorKind::UnexpectedContinuationByte),
        0xc0 | 0xc1 | 0xf5..=0xff => Utf8Error::new(Utf8ErrorKind::NonUtf8Byte),
        _ => Utf8Error::new(Utf8ErrorKind::TooFewBytes),
    }
}
