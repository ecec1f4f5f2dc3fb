//! The encodings as types, for which the loops are monomorphised.
ghost use Rattle.std.specs.Prelude.{◌≡◌, ◌<◌, ◌≤◌, length, IfSome, IfNone, IsTrue, IsFalse};
ghost use Rattle.recoding.specs.Recoded.{Lacks, written};
ghost use Rattle.recoding.specs.NextScalars.{fault_len};
ghost use Rattle.recoding.specs.Replacing.{CodeIsLonger, IsNext, code_of, replaced_by};
ghost use Rattle.recoding.specs.Rooms.{parts_of};
ghost use Rattle.recoding.specs.Strict.{BeginsChar, IsFirstPiece, lacking};

use crate::codes::{put_pair, put_short};
use crate::faults::FaultKind;
use crate::first_pieces::{FirstPiece, first_of_utf8, first_of_utf16};
use crate::form::Form;
use crate::next_scalar::{ShownPiece, next_of_utf8, next_of_utf16, next_valid_of_utf16};
use crate::output::Output;
use crate::way::Way;
use encode_unicode::CharExt;
use encode_unicode::error::{Utf8ErrorKind, Utf16PairError};
use std::marker::PhantomData;
use utf_lanes::byte_order::ByteOrder;
use utf_lanes::byte_pairs::two_bytes;
use utf_lanes::text_front::front_of_text;

// An encoding of text.
pub(crate) trait Text {
    ghost use Rattle.recoding.specs.declared.form.Form.{Form};

    // Which encoding it is.
    ghost form: { Form };

    // Whether the bytes begin with the same piece in each way of replacing.
    const IS_ONE_WAY: bool;

    // The encoding as a value.
    fn form() -> Form
        ensures { result ≡ form };

    // The piece that begins the bytes; `None` if that depends on what follows them.
    fn next_piece(way: Way<'_>, bytes: &[u8]) -> Option<ShownPiece>
        ensures some { IfSome result (λ x. IsNext way.entry form bytes.now x) }
        ensures few { IfNone result (length bytes.now ≤ 3) }
        ensures lacks { IfNone result (Lacks form bytes.now) };

    // The character that replaces the fault that begins the bytes, if one does.
    fn replacement(way: Way<'_>, bytes: &[u8]) -> Option<char>
        requires { 0 < length bytes.now }
        ensures { result ≡ replaced_by way.entry form bytes.now };

    // The character that begins the bytes, and its length; `None` at a fault, and near the end.
    fn next_valid(bytes: &[u8]) -> Option<(char, usize)>
        ensures { IfSome result (λ x. BeginsChar form bytes.now x.0 x.1) };

    // The least number of bytes for which `next_valid` returns a character.
    fn least_valid() -> usize
        ensures { 0 < result };

    // The piece that begins the bytes, whatever follows them.
    fn first_piece(bytes: &[u8]) -> FirstPiece
        ensures { IsFirstPiece form bytes.now result };

    // The length of a fault in bytes.
    fn fault_bytes() -> usize
        ensures { result ≡ fault_len form };

    // The number of bytes of UTF-8, or of units of UTF-16, in so many bytes. An odd byte counts as a unit.
    fn count_parts(len: usize) -> usize
        ensures { result ≡ parts_of form len };

    // The kind of a fault that too few bytes are.
    fn lacking_kind() -> FaultKind
        ensures { result ≡ lacking form };

    // Appends the code of the character.
    fn put_code<O: Output>(c: char, out: &mut O)
        requires { length (written form c) ≤ O.room out.old }
        ensures { O.appends out.old (written form c) out.new };

    // The length of the code of the character.
    fn code_len(c: char) -> usize
        ensures { result ≡ length (written form c) };

    // Appends the code of the character, if it fits, and returns whether it does.
    #[inline(always)]
    fn put_fitting<O: Output>(c: char, out: &mut O) -> bool
        ensures put { IsTrue result → O.appends out.old (written form c) out.new }
        ensures full { IsFalse result → O.room out.old < length (written form c) }
        ensures short { IsFalse result → O.room out.old < 4 }
        ensures kept { IsFalse result → out.new ≡ out.old }
    {
        if 4 <= out.room() {
            Self::put_code(c, out);
            return true;
        }
        Self::put_at_end(c, out)
    }

    // Appends the code of the character, if there is one.
    #[inline(always)]
    fn put_any<O: Output>(c: Option<char>, out: &mut O)
        requires { length (code_of form c) ≤ O.room out.old }
        ensures { O.appends out.old (code_of form c) out.new }
    {
        if let Some(c) = c {
            Self::put_code(c, out);
        }
    }

    // Appends the code of the character, if there is one and it fits, and returns whether all is written.
    #[inline(always)]
    fn put_shown<O: Output>(c: Option<char>, out: &mut O) -> bool
        ensures put { IsTrue result → O.appends out.old (code_of form c) out.new }
        ensures full { IsFalse result → CodeIsLonger form c (O.room out.old) }
        ensures short { IsFalse result → O.room out.old < 4 }
        ensures kept { IsFalse result → out.new ≡ out.old }
    {
        match c {
            Some(c) => Self::put_fitting(c, out),
            None => true,
        }
    }

    // Appends the code of the character, if it fits, to an output with less capacity than the longest code.
    #[inline(never)]
    fn put_at_end<O: Output>(c: char, out: &mut O) -> bool
        ensures put { IsTrue result → O.appends out.old (written form c) out.new }
        ensures full { IsFalse result → O.room out.old < length (written form c) }
        ensures kept { IsFalse result → out.new ≡ out.old }
    {
        if out.room() < Self::code_len(c) {
            return false;
        }
        Self::put_code(c, out);
        true
    }
}

// UTF-8.
pub(crate) struct Utf8;

// UTF-16, little-endian or big-endian.
pub(crate) struct Utf16<E>(PhantomData<E>);

impl Text for Utf8 {
    ghost use Rattle.recoding.specs.declared.form.Form.TheVariants as form;

    ghost form = { form.Utf8 };

    const IS_ONE_WAY: bool = false;

    #[inline(always)]
    fn form() -> Form {
        Form::Utf8
    }

    #[inline(always)]
    fn next_piece(way: Way<'_>, bytes: &[u8]) -> Option<ShownPiece> {
        next_of_utf8(way, bytes)
    }

    #[inline(always)]
    fn replacement(way: Way<'_>, bytes: &[u8]) -> Option<char> {
        match way {
            Way::Faults | Way::Subparts => Some(char::REPLACEMENT_CHARACTER),
            Way::Table(repair) => repair.char_for(bytes[0]),
        }
    }

    #[inline(always)]
    fn next_valid(bytes: &[u8]) -> Option<(char, usize)> {
        front_of_text(bytes)
    }

    #[inline(always)]
    fn least_valid() -> usize {
        4
    }

    #[inline(always)]
    fn first_piece(bytes: &[u8]) -> FirstPiece {
        first_of_utf8(bytes)
    }

    #[inline(always)]
    fn fault_bytes() -> usize {
        1
    }

    #[inline(always)]
    fn count_parts(len: usize) -> usize {
        len
    }

    #[inline(always)]
    fn lacking_kind() -> FaultKind {
        FaultKind::Utf8(Utf8ErrorKind::TooFewBytes)
    }

    #[inline(always)]
    fn put_code<O: Output>(c: char, out: &mut O) {
        let (code, len) = c.to_utf8_array();
        put_short(code, len, out);
    }

    #[inline(always)]
    fn code_len(c: char) -> usize {
        c.to_utf8_array().1
    }
}

impl<E: ByteOrder> Text for Utf16<E> {
    ghost use Rattle.recoding.specs.NextScalars.{utf16_form};

    ghost form = { utf16_form E.HIGH_FIRST };

    // A maximal subpart is a unit, as a fault is.
    const IS_ONE_WAY: bool = true;

    #[inline(always)]
    fn form() -> Form {
        if E::HIGH_FIRST {
            return Form::Utf16Be;
        }
        Form::Utf16Le
    }

    #[inline(always)]
    fn next_piece(_way: Way<'_>, bytes: &[u8]) -> Option<ShownPiece> {
        next_of_utf16::<E>(bytes)
    }

    #[inline(always)]
    fn replacement(way: Way<'_>, _bytes: &[u8]) -> Option<char> {
        match way {
            Way::Faults | Way::Subparts => Some(char::REPLACEMENT_CHARACTER),
            Way::Table(repair) => repair.unit_for(),
        }
    }

    #[inline(always)]
    fn next_valid(bytes: &[u8]) -> Option<(char, usize)> {
        next_valid_of_utf16::<E>(bytes)
    }

    #[inline(always)]
    fn least_valid() -> usize {
        2
    }

    #[inline(always)]
    fn first_piece(bytes: &[u8]) -> FirstPiece {
        first_of_utf16::<E>(bytes)
    }

    #[inline(always)]
    #[tactic(auto, using(crate::proofs::Forms::fault_of_utf16))]
    fn fault_bytes() -> usize {
        2usize
    }

    #[inline(always)]
    #[tactic(auto, using(crate::proofs::Forms::parts_of_utf16))]
    fn count_parts(len: usize) -> usize {
        len / 2 + len % 2
    }

    #[inline(always)]
    #[tactic(auto, using(crate::proofs::Forms::lacking_utf16))]
    fn lacking_kind() -> FaultKind {
        FaultKind::Utf16(Utf16PairError::Incomplete)
    }

    #[inline(always)]
    #[tactic(auto, using(crate::proofs::Forms::written_utf16))]
    fn put_code<O: Output>(c: char, out: &mut O) {
        match c.to_utf16_tuple() {
            (unit, None) => {
                let [a, b] = two_bytes::<E>(unit);
                put_pair(a, b, out);
            }
            (first, Some(second)) => {
                let [a, b] = two_bytes::<E>(first);
                let [c, d] = two_bytes::<E>(second);
                put_pair(a, b, out);
                put_pair(c, d, out);
            }
        }
    }

    #[inline(always)]
    #[tactic(auto, using(crate::proofs::Forms::written_utf16))]
    fn code_len(c: char) -> usize {
        match c.to_utf16_tuple() {
            (_, None) => 2,
            (_, Some(_)) => 4,
        }
    }
}
