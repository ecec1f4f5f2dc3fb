//! Bytes that may be damaged, as a text: all of them, with U+FFFD for each invalid byte, as a terminal shows them;
//! and the text before the first fault, for a reader that stops there.
ghost use Rattle.std.specs.Prelude.{◌≡◌, ℕ, IfOk, flat_map, map, string_bytes, take};
ghost use Rattle.encode_unicode.specs.Code.{utf8};
ghost use Rattle.encode_unicode.specs.Pieces.{pieces};
ghost use Rattle.cuts.specs.Recoded.{IsRecoded};
ghost use Rattle.cuts.specs.declared.Form.TheVariants.{Utf8};
ghost use Rattle.cuts.specs.WellFormed.{IsFirstFault};
ghost use Rattle.run_examples.specs.Shown.{shown_item};

use cuts::{laws, valid_up_to};
use encode_unicode::{U8SliceExt, Utf8Char, Utf8CharIterExt};
use std::alloc::{AllocError, Allocator};
use std::str;

/// The bytes as a text, with U+FFFD for each invalid byte.
pub fn lossy<A: Allocator>(alloc: A, bytes: &[u8]) -> Result<String<A>, AllocError>
    ensures { IfOk result (λ text. IsRecoded Utf8 Utf8 bytes.now (string_bytes text)) }
{
    laws::pieces_are_the_run();
    shown_pieces(alloc, bytes)
}

// The bytes as a text, with the contract stated for the decoder's items.
fn shown_pieces<A: Allocator>(alloc: A, bytes: &[u8]) -> Result<String<A>, AllocError>
    ensures { IfOk result (λ text. string_bytes text ≡ flat_map utf8 (map shown_item (pieces bytes.now))) }
{
    let replacement = Utf8Char::from('\u{fffd}');
    let shown = bytes.utf8char_indices().map(|x| x.1.unwrap_or(replacement));
    shown.collect_string(alloc)
}

/// The text before the first invalid byte, which is all if there is none.
pub fn valid_front(bytes: &[u8]) -> &str
    ensures { (place : ℕ) × IsFirstFault utf8 bytes.now place × (result.now ≡ take place bytes.now) }
{
    laws::pieces_are_the_run();
    laws::text_has_no_fault();
    match str::from_utf8(&bytes[..valid_up_to(bytes)]) {
        Ok(text) => text,
        Err(_) => "",
    }
}
