//! The piece that begins some bytes, with the kind that a merger gives, if it does not depend on what follows
//! them.
ghost use Rattle.std.specs.Prelude.{◌≡◌, ◌<◌, ◌≤◌, length, min, IfSome, IfNone, Some};
ghost use Rattle.utf_base.specs.Kinds.{breaks_at, fault_kind, is_broken};
ghost use Rattle.utf_base.specs.declared.errors.Utf8ErrorKind.TheVariants.{TooFewBytes};
ghost use Rattle.recoding.specs.declared.form.Form.TheVariants.{Utf8};
ghost use Rattle.recoding.specs.NextScalars.{utf16_form};
ghost use Rattle.text_stream.specs.Located.{Begins, IsOpen, first_told, lacking_told, told_of};

use encode_unicode::error::{Utf8ErrorKind, Utf16PairError};
use encode_unicode::{CharExt, U16UtfExt};
use recoding::faults::FaultKind;
use recoding::form::Form;
use utf_base::elements::is_continuation;
use utf_lanes::byte_order::{BigEndian, ByteOrder, LittleEndian};
use utf_lanes::byte_pairs::unit;
use utf_lanes::text_front::front_of_text;

// A character or a fault, and its length in bytes.
#[derive(Clone, Copy, Drop)]
pub enum Front {
    /// A character, and how many bytes it has.
    Char(char, usize),
    /// A fault: why it is invalid, and how many bytes it has.
    Fault(FaultKind, usize),
}

impl Front {
    // The length in bytes.
    #[inline(always)]
    pub(crate) fn len(self) -> usize
        ensures { result ≡ (told_of self).1 }
    {
        match self {
            Front::Char(_, len) => len,
            Front::Fault(_, len) => len,
        }
    }
}

// The piece that begins the bytes, whatever follows them; `None` if it depends on what does.
#[inline(always)]
pub(crate) fn front_of(form: Form, bytes: &[u8]) -> Option<Front>
    ensures begins { IfSome result (λ x. Begins form bytes.now (told_of x)) }
    ensures waits { IfNone result (0 < length bytes.now → IsOpen form bytes.now) }
    ensures last { IfNone result (0 < length bytes.now → first_told form bytes.now ≡ lacking_told form (length bytes.now)) }
    ensures few { IfNone result (length bytes.now ≤ 3) }
{
    match form {
        Form::Utf8 => front_of_utf8(bytes),
        Form::Utf16Le => front_of_utf16::<LittleEndian>(bytes),
        Form::Utf16Be => front_of_utf16::<BigEndian>(bytes),
    }
}

// The piece that begins some bytes which nothing follows.
pub(crate) fn last_front(form: Form, bytes: &[u8]) -> Front
    requires { 0 < length bytes.now }
    ensures told { told_of result ≡ first_told form bytes.now }
    ensures few { (told_of result).1 ≤ 4 }
    ensures within { (told_of result).1 ≤ length bytes.now }
{
    match front_of(form, bytes) {
        Some(front) => front,
        None => lacking_front(form, bytes.len()),
    }
}

// The fault that too few bytes are.
fn lacking_front(form: Form, count: usize) -> Front
    requires { 0 < count }
    ensures { told_of result ≡ lacking_told form count }
{
    match form {
        Form::Utf8 => Front::Fault(FaultKind::Utf8(Utf8ErrorKind::TooFewBytes), 1),
        Form::Utf16Le | Form::Utf16Be => {
            Front::Fault(FaultKind::Utf16(Utf16PairError::Incomplete), 2.min(count))
        }
    }
}

// `front_of` for UTF-8.
#[inline(always)]
fn front_of_utf8(bytes: &[u8]) -> Option<Front>
    ensures begins { IfSome result (λ x. Begins Utf8 bytes.now (told_of x)) }
    ensures waits { IfNone result (0 < length bytes.now → IsOpen Utf8 bytes.now) }
    ensures last { IfNone result (0 < length bytes.now → first_told Utf8 bytes.now ≡ lacking_told Utf8 (length bytes.now)) }
    ensures few { IfNone result (length bytes.now ≤ 3) }
{
    match front_of_text(bytes) {
        Some((c, len)) => Some(Front::Char(c, len)),
        None => other_front(bytes),
    }
}

// The piece of bytes of which four are no character: ASCII is tested first, which the last bytes of a part
// mostly are.
#[inline(always)]
fn other_front(bytes: &[u8]) -> Option<Front>
    ensures begins { IfSome result (λ x. Begins Utf8 bytes.now (told_of x)) }
    ensures waits { IfNone result (0 < length bytes.now → IsOpen Utf8 bytes.now) }
    ensures last { IfNone result (0 < length bytes.now → first_told Utf8 bytes.now ≡ lacking_told Utf8 (length bytes.now)) }
    ensures few { IfNone result (length bytes.now ≤ 3) }
{
    if 0 < bytes.len() && bytes[0] < 0x80 {
        return Some(Front::Char(char::from(bytes[0]), 1));
    }
    front_with_care(bytes)
}

// The piece that begins any bytes of UTF-8.
#[cold]
#[inline(never)]
fn front_with_care(bytes: &[u8]) -> Option<Front>
    ensures begins { IfSome result (λ x. Begins Utf8 bytes.now (told_of x)) }
    ensures waits { IfNone result (0 < length bytes.now → IsOpen Utf8 bytes.now) }
    ensures last { IfNone result (0 < length bytes.now → first_told Utf8 bytes.now ≡ lacking_told Utf8 (length bytes.now)) }
    ensures few { IfNone result (length bytes.now ≤ 3) }
{
    match char::from_utf8_slice_start(bytes) {
        Ok((c, len)) => Some(Front::Char(c, len)),
        Err(error) => match error.kind() {
            Utf8ErrorKind::TooFewBytes => front_of_few(bytes),
            kind => Some(Front::Fault(FaultKind::Utf8(kind), 1)),
        },
    }
}

// The piece that begins bytes that are fewer than the first asks for.
fn front_of_few(bytes: &[u8]) -> Option<Front>
    requires { fault_kind bytes.now ≡ Some TooFewBytes }
    ensures begins { IfSome result (λ x. Begins Utf8 bytes.now (told_of x)) }
    ensures waits { IfNone result (0 < length bytes.now → IsOpen Utf8 bytes.now) }
    ensures last { IfNone result (0 < length bytes.now → first_told Utf8 bytes.now ≡ lacking_told Utf8 (length bytes.now)) }
    ensures few { IfNone result (length bytes.now ≤ 3) }
{
    if breaks(bytes) {
        return Some(Front::Fault(FaultKind::Utf8(Utf8ErrorKind::InterruptedSequence), 1));
    }
    None
}

// Returns true if one of the bytes after the first is no continuation byte.
fn breaks(bytes: &[u8]) -> bool
    requires { fault_kind bytes.now ≡ Some TooFewBytes }
    ensures { result ≡ is_broken bytes.now }
{
    let second = breaks_at(bytes, 1);
    let third = breaks_at(bytes, 2);
    second || third
}

// Returns true if the byte at this offset is there, and is no continuation byte.
fn breaks_at(bytes: &[u8], place: usize) -> bool
    requires few { fault_kind bytes.now ≡ Some TooFewBytes }
    requires place { 0 < place }
    ensures { result ≡ breaks_at bytes.now place }
{
    place < bytes.len() && !is_continuation(bytes[place])
}

// `front_of` for UTF-16.
#[inline(always)]
fn front_of_utf16<E: ByteOrder>(bytes: &[u8]) -> Option<Front>
    ensures begins { IfSome result (λ x. Begins (utf16_form E.HIGH_FIRST) bytes.now (told_of x)) }
    ensures waits { IfNone result (0 < length bytes.now → IsOpen (utf16_form E.HIGH_FIRST) bytes.now) }
    ensures last { IfNone result (0 < length bytes.now →
        first_told (utf16_form E.HIGH_FIRST) bytes.now ≡ lacking_told (utf16_form E.HIGH_FIRST) (length bytes.now)) }
    ensures few { IfNone result (length bytes.now ≤ 3) }
{
    if bytes.len() < 2 {
        return None;
    }
    let first = unit::<E>(bytes[0], bytes[1]);
    if !first.is_utf16_leading_surrogate() {
        return match char::from_utf16_tuple((first, None)) {
            Ok(c) => Some(Front::Char(c, 2)),
            Err(_) => Some(fault_of_unit(Utf16PairError::UnexpectedTrailingSurrogate)),
        };
    }
    if bytes.len() < 4 {
        return None;
    }
    let second = unit::<E>(bytes[2], bytes[3]);
    match char::from_utf16_tuple((first, Some(second))) {
        Ok(c) => Some(Front::Char(c, 4)),
        Err(_) => Some(fault_of_unit(Utf16PairError::UnmatchedLeadingSurrogate)),
    }
}

// A fault of one unit.
#[inline(always)]
fn fault_of_unit(kind: Utf16PairError) -> Front
    ensures { result ≡ Front.Fault (FaultKind.Utf16 kind) 2 }
{
    Front::Fault(FaultKind::Utf16(kind), 2)
}
