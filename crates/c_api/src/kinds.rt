//! Numbers, names and sentences of errors.
ghost use Rattle.std.specs.Prelude.{◌≡◌, ◌<◌, ◌≤◌};
ghost use Rattle.c_api.specs.Api.{kind_number, pair_number, fault_number, name_of, sentence_of};

use cuts::FaultKind;
use encode_unicode::error::{Utf8ErrorKind, Utf16PairError};

pub(crate) fn kind_number_of(kind: Utf8ErrorKind) -> u8
    ensures { result ≡ kind_number kind }
{
    match kind {
        Utf8ErrorKind::TooFewBytes => 1,
        Utf8ErrorKind::NonUtf8Byte => 2,
        Utf8ErrorKind::UnexpectedContinuationByte => 3,
        Utf8ErrorKind::InterruptedSequence => 4,
        Utf8ErrorKind::OverlongEncoding => 5,
        Utf8ErrorKind::Utf16ReservedCodepoint => 6,
        Utf8ErrorKind::TooHighCodepoint => 7,
    }
}

pub(crate) fn pair_number_of(error: Utf16PairError) -> u8
    ensures { result ≡ pair_number error }
{
    match error {
        Utf16PairError::UnexpectedTrailingSurrogate => 8,
        Utf16PairError::UnmatchedLeadingSurrogate => 9,
        Utf16PairError::Incomplete => 10,
    }
}

pub(crate) fn fault_number_of(kind: FaultKind) -> u8
    ensures { result ≡ fault_number kind }
{
    match kind {
        FaultKind::Utf8(kind) => kind_number_of(kind),
        FaultKind::Utf16(error) => pair_number_of(error),
    }
}

/// The name of a kind, with zeros after it.
#[repr(C)]
pub struct NodyName {
    /// In ASCII.
    pub text: [u8; 32],
}

// The names, by number.
static NAMES: [NodyName; 12] = [
    NodyName {
        text: *b"Ok\0\0\0\0\0\0\0\0\0\0\0\0\0\0\0\0\0\0\0\0\0\0\0\0\0\0\0\0\0\0",
    },
    NodyName {
        text: *b"TooFewBytes\0\0\0\0\0\0\0\0\0\0\0\0\0\0\0\0\0\0\0\0\0",
    },
    NodyName {
        text: *b"NonUtf8Byte\0\0\0\0\0\0\0\0\0\0\0\0\0\0\0\0\0\0\0\0\0",
    },
    NodyName {
        text: *b"UnexpectedContinuationByte\0\0\0\0\0\0",
    },
    NodyName {
        text: *b"InterruptedSequence\0\0\0\0\0\0\0\0\0\0\0\0\0",
    },
    NodyName {
        text: *b"OverlongEncoding\0\0\0\0\0\0\0\0\0\0\0\0\0\0\0\0",
    },
    NodyName {
        text: *b"Utf16ReservedCodepoint\0\0\0\0\0\0\0\0\0\0",
    },
    NodyName {
        text: *b"TooHighCodepoint\0\0\0\0\0\0\0\0\0\0\0\0\0\0\0\0",
    },
    NodyName {
        text: *b"UnexpectedTrailingSurrogate\0\0\0\0\0",
    },
    NodyName {
        text: *b"UnmatchedLeadingSurrogate\0\0\0\0\0\0\0",
    },
    NodyName {
        text: *b"Incomplete\0\0\0\0\0\0\0\0\0\0\0\0\0\0\0\0\0\0\0\0\0\0",
    },
    NodyName {
        text: *b"None\0\0\0\0\0\0\0\0\0\0\0\0\0\0\0\0\0\0\0\0\0\0\0\0\0\0\0\0",
    },
];

/// Stores a pointer to the name of a kind, which is static; for a number that is no kind the pointer is left
/// unchanged.
#[unsafe(no_mangle)]
pub extern "C" fn nody_put_kind_name(kind: u8, name: &mut &'static NodyName)
    ensures name { kind < 12 → name.new.now.text ≡ name_of kind }
    ensures other { 12 ≤ kind → name.new ≡ name.old }
{
    if (kind as usize) < NAMES.len() {
        *name = &NAMES[kind as usize];
    }
}

/// The meaning of a kind, with zeros after it.
#[repr(C)]
pub struct NodySentence {
    /// In ASCII.
    pub text: [u8; 64],
}

// The sentences, by number.
static SENTENCES: [NodySentence; 12] = [
    NodySentence {
        text: *b"a character\0\0\0\0\0\0\0\0\0\0\0\0\0\0\0\0\0\0\0\0\0\0\0\0\0\0\0\0\0\0\0\0\0\0\0\0\0\0\0\0\0\0\0\0\0\0\0\0\0\0\0\0\0",
    },
    NodySentence {
        text: *b"too few bytes: the input ends inside a character\0\0\0\0\0\0\0\0\0\0\0\0\0\0\0\0",
    },
    NodySentence {
        text: *b"invalid byte: C0, C1 and F5 to FF never occur in UTF-8\0\0\0\0\0\0\0\0\0\0",
    },
    NodySentence {
        text: *b"unexpected continuation byte: no character begins with it\0\0\0\0\0\0\0",
    },
    NodySentence {
        text: *b"interrupted sequence: a continuation byte is missing\0\0\0\0\0\0\0\0\0\0\0\0",
    },
    NodySentence {
        text: *b"overlong encoding: the value has a shorter code\0\0\0\0\0\0\0\0\0\0\0\0\0\0\0\0\0",
    },
    NodySentence {
        text: *b"surrogate: the value is one of D800 to DFFF\0\0\0\0\0\0\0\0\0\0\0\0\0\0\0\0\0\0\0\0\0",
    },
    NodySentence {
        text: *b"too high: the value is above 10FFFF\0\0\0\0\0\0\0\0\0\0\0\0\0\0\0\0\0\0\0\0\0\0\0\0\0\0\0\0\0",
    },
    NodySentence {
        text: *b"unexpected trailing surrogate: no leading one stands before it\0\0",
    },
    NodySentence {
        text: *b"unmatched leading surrogate: no trailing one follows it\0\0\0\0\0\0\0\0\0",
    },
    NodySentence {
        text: *b"incomplete: the input ends inside a character of UTF-16\0\0\0\0\0\0\0\0\0",
    },
    NodySentence {
        text: *b"nothing is left\0\0\0\0\0\0\0\0\0\0\0\0\0\0\0\0\0\0\0\0\0\0\0\0\0\0\0\0\0\0\0\0\0\0\0\0\0\0\0\0\0\0\0\0\0\0\0\0\0",
    },
];

/// Stores a pointer to a sentence on the meaning of a kind, which is static; for a number that is no kind the pointer
/// is left unchanged.
#[unsafe(no_mangle)]
pub extern "C" fn nody_put_kind_sentence(kind: u8, sentence: &mut &'static NodySentence)
    ensures sentence { kind < 12 → sentence.new.now.text ≡ sentence_of kind }
    ensures other { 12 ≤ kind → sentence.new ≡ sentence.old }
{
    if (kind as usize) < SENTENCES.len() {
        *sentence = &SENTENCES[kind as usize];
    }
}
