//! Calls on an encoding that is known only at run time: each calls a function of its type.
ghost use Rattle.std.specs.Prelude.{◌≡◌, ◌<◌, ◌≤◌, length, min, IfSome, IfNone, IsTrue, IsFalse};
ghost use Rattle.recoding.specs.Recoded.{Lacks, written};
ghost use Rattle.recoding.specs.NextScalars.{fault_len};
ghost use Rattle.recoding.specs.Replacing.{BeginsBy, BeginsLast, CodeIsLonger, code_of, len_at_end, replaced_by};
ghost use Rattle.recoding.specs.Rooms.{parts_of};
ghost use Rattle.recoding.specs.Strict.{IsFirstPiece, lacking};

use crate::faults::FaultKind;
use crate::first_pieces::FirstPiece;
use crate::form::Form;
use crate::next_scalar::{NextScalar, ShownPiece};
use crate::output::Output;
use crate::text::{Text, Utf8, Utf16};
use crate::way::Way;
use utf_lanes::byte_order::{BigEndian, LittleEndian};

// Calls a function of the type of an encoding.
macro_rules! by_form {
    ($form:expr, $call:ident($($given:expr),*)) => {
        match $form {
            Form::Utf8 => Utf8::$call($($given),*),
            Form::Utf16Le => Utf16::<LittleEndian>::$call($($given),*),
            Form::Utf16Be => Utf16::<BigEndian>::$call($($given),*),
        }
    };
}

// The piece that begins the bytes; `None` if that depends on what follows them. Outlined: only carried-over bytes and
// the end of a full output are decoded by it.
#[inline(never)]
pub(crate) fn next_of(way: Way<'_>, from: Form, bytes: &[u8]) -> Option<NextScalar>
    ensures some { IfSome result (λ x. BeginsBy way.entry from bytes.now x.c x.len x.faults) }
    ensures few { IfNone result (length bytes.now ≤ 3) }
    ensures lacks { IfNone result (Lacks from bytes.now) }
{
    match by_form!(from, next_piece(way, bytes)) {
        Some(ShownPiece::Char(c, len)) => Some(NextScalar {
            c: Some(c),
            len,
            faults: 0,
        }),
        Some(ShownPiece::Fault(len)) => Some(fault_of(way, from, bytes, len)),
        None => None,
    }
}

// The fault or faults that begin the bytes, of this length, and what replaces them.
#[inline(always)]
fn fault_of(way: Way<'_>, from: Form, bytes: &[u8], len: usize) -> NextScalar
    requires { 0 < length bytes.now }
    ensures c { result.c ≡ replaced_by way.entry from bytes.now }
    ensures len { result.len ≡ len }
    ensures faults { result.faults ≡ parts_of from len }
{
    NextScalar {
        c: by_form!(from, replacement(way, bytes)),
        len,
        faults: count_parts(from, len),
    }
}

// The piece that begins the bytes, if nothing follows them.
#[inline(always)]
pub(crate) fn last_of(way: Way<'_>, from: Form, bytes: &[u8]) -> NextScalar
    requires { 0 < length bytes.now }
    ensures { BeginsLast way.entry from bytes.now result.c result.len result.faults }
{
    match next_of(way, from, bytes) {
        Some(first) => first,
        None => fault_of(way, from, bytes, last_len(way, from, bytes.len())),
    }
}

// The number of bytes that are replaced together if `count` are too few: a fault, or all of them, which are one
// subpart.
#[inline(always)]
fn last_len(way: Way<'_>, from: Form, count: usize) -> usize
    ensures { result ≡ len_at_end way.entry from count }
{
    match way {
        Way::Faults | Way::Table(_) => fault_bytes(from).min(count),
        Way::Subparts => count,
    }
}

// The length of a fault in bytes.
#[inline(always)]
pub(crate) fn fault_bytes(from: Form) -> usize
    ensures { result ≡ fault_len from }
{
    by_form!(from, fault_bytes())
}

// The number of bytes of UTF-8, or of units of UTF-16, in so many bytes. An odd byte counts as a unit.
#[inline(always)]
pub(crate) fn count_parts(from: Form, len: usize) -> usize
    ensures { result ≡ parts_of from len }
{
    by_form!(from, count_parts(len))
}

// Appends the code of the character.
#[inline(always)]
pub(crate) fn put_code<O: Output>(to: Form, c: char, out: &mut O)
    requires { length (written to c) ≤ O.room out.old }
    ensures { O.appends out.old (written to c) out.new }
{
    by_form!(to, put_code(c, out))
}

// Appends the code of the character, if it fits, and returns whether it does.
#[inline(always)]
pub(crate) fn put_fitting<O: Output>(to: Form, c: char, out: &mut O) -> bool
    ensures put { IsTrue result → O.appends out.old (written to c) out.new }
    ensures full { IsFalse result → O.room out.old < length (written to c) }
    ensures short { IsFalse result → O.room out.old < 4 }
    ensures kept { IsFalse result → out.new ≡ out.old }
{
    by_form!(to, put_fitting(c, out))
}

// Appends the code of the character, if there is one and it fits, and returns whether all is written.
#[inline(never)]
pub(crate) fn put_shown<O: Output>(to: Form, c: Option<char>, out: &mut O) -> bool
    ensures put { IsTrue result → O.appends out.old (code_of to c) out.new }
    ensures full { IsFalse result → CodeIsLonger to c (O.room out.old) }
    ensures short { IsFalse result → O.room out.old < 4 }
    ensures kept { IsFalse result → out.new ≡ out.old }
{
    by_form!(to, put_shown(c, out))
}

// The piece that begins the bytes, whatever follows them.
#[inline(always)]
pub(crate) fn first_piece(from: Form, bytes: &[u8]) -> FirstPiece
    ensures { IsFirstPiece from bytes.now result }
{
    by_form!(from, first_piece(bytes))
}

// The fault that too few bytes are.
#[inline(always)]
pub(crate) fn lacking_fault(from: Form, count: usize) -> (FaultKind, usize)
    ensures kind { result.0 ≡ lacking from }
    ensures len { result.1 ≡ min (fault_len from) count }
{
    (by_form!(from, lacking_kind()), fault_bytes(from).min(count))
}
