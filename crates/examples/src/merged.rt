//! Characters from a source of bytes or units of any kind, which is read no further than they need.
ghost use Rattle.std.specs.Prelude.{◌≡◌, ◌++◌, IfSome};
ghost use Rattle.encode_unicode.specs.Code.{utf8, utf16};
ghost use Rattle.encode_unicode.specs.Kinds.{merger_kind};
ghost use Rattle.encode_unicode.specs.Mergers.{unread, TakesFront};
ghost use Rattle.encode_unicode.specs.Sources.{WhateverIsLeft};

use encode_unicode::error::{Utf8Error, Utf16PairError};
use encode_unicode::iterator::RemainingBytes;
use encode_unicode::{U8IterExt, U16IterExt, Utf8Char, Utf16Char};

/// The first character of a source of bytes, and the source after it.
pub fn split_char<I: Iterator<Item = u8>>(source: I) -> Option<(Utf8Char, I)>
    requires { I.can_next source }
    ensures { WhateverIsLeft I.next_gives (λ rest. IfSome result (λ x. rest source ≡ utf8 x.0 ++ rest x.1)) }
{
    let mut merger = source.to_utf8chars();
    match merger.next() {
        Some(Ok(c)) => Some((c, merger.into_inner())),
        _ => None,
    }
}

/// The first character of a source of units, and the source after it.
pub fn split_utf16_char<I: Iterator<Item = u16>>(source: I) -> Option<(Utf16Char, I)>
    requires { I.can_next source }
    ensures { WhateverIsLeft I.next_gives (λ rest.
        IfSome result (λ x. rest source ≡ utf16 x.0 ++ rest x.1)) }
{
    let mut merger = source.to_utf16chars();
    match merger.next() {
        Some(Ok(c)) => Some((c, merger.into_inner())),
        _ => None,
    }
}

/// The first piece of a source of bytes, valid or not, and all bytes after it: after an invalid byte these
/// include the ones that were read to decide on it.
pub fn split_piece<I: Iterator<Item = u8>>(
    source: I,
) -> (Option<Result<Utf8Char, Utf8Error>>, RemainingBytes<I>)
    requires { I.can_next source }
    ensures { WhateverIsLeft I.next_gives (λ rest.
        TakesFront utf8 merger_kind (rest source) result.0 (unread rest result.1)) }
{
    let mut answers = source.to_utf8chars();
    let first = answers.next();
    (first, answers.into_remaining_bytes())
}
