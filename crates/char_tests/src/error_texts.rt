//! The messages of the errors, and what they say.
use encode_unicode::error::{
    CodepointError, EmptyStrError, FromStrError, NonAsciiError, NonBmpError, Utf8Error,
    Utf8ErrorKind, Utf16ArrayError, Utf16FirstUnitError, Utf16PairError, Utf16SliceError,
    Utf16TupleError,
};
use std::alloc::Global;
use std::fmt::Display;
use std::process::Abort;
use std::test::Fail;

// Checks that each way to read an error gives this text, also unpadded under a width and a fill.
fn reads<E: Display>(
    rt: &impl Abort,
    alloc: Global,
    error: &E,
    description: &str,
    text: &str,
) -> Result<(), Fail> {
    assert_eq!(rt; description, text);
    assert_eq!(rt; error.to_string(alloc)?.as_str(), text);
    assert_eq!(rt; format!(in alloc; "{error:*>90}")?.as_str(), text);
    Ok(())
}

#[test]
fn units_have_their_texts(rt: HostRuntime) -> Result<(), Fail> {
    let first_unit = Utf16FirstUnitError;
    reads(
        &rt,
        rt.alloc(),
        &first_unit,
        first_unit.description(),
        "is a trailing surrogate",
    )?;
    for (error, text) in [
        (
            Utf16ArrayError::FirstIsTrailingSurrogate,
            "the first element is a trailing surrogate",
        ),
        (
            Utf16ArrayError::SecondIsNotTrailingSurrogate,
            "the second element is needed but is not a trailing surrogate",
        ),
    ] {
        reads(&rt, rt.alloc(), &error, error.description(), text)?;
    }
    for (error, text) in [
        (
            Utf16TupleError::FirstIsTrailingSurrogate,
            "the first unit is a trailing surrogate",
        ),
        (
            Utf16TupleError::SuperfluousSecond,
            "the second unit is superfluous",
        ),
        (
            Utf16TupleError::MissingSecond,
            "the first unit requires a second unit",
        ),
        (
            Utf16TupleError::SecondIsNotTrailingSurrogate,
            "the required second unit is not a trailing surrogate",
        ),
    ] {
        reads(&rt, rt.alloc(), &error, error.description(), text)?;
    }
    for (error, text) in [
        (Utf16SliceError::EmptySlice, "the slice is empty"),
        (
            Utf16SliceError::FirstIsTrailingSurrogate,
            "the first unit is a trailing surrogate",
        ),
        (
            Utf16SliceError::MissingSecond,
            "the first and only unit requires a second one",
        ),
        (
            Utf16SliceError::SecondIsNotTrailingSurrogate,
            "the required second unit is not a trailing surrogate",
        ),
    ] {
        reads(&rt, rt.alloc(), &error, error.description(), text)?;
    }
    for (error, text) in [
        (
            Utf16PairError::UnexpectedTrailingSurrogate,
            "a trailing surrogate was not preceeded by a leading surrogate",
        ),
        (
            Utf16PairError::UnmatchedLeadingSurrogate,
            "a leading surrogate was followed by an unit that was not a trailing surrogate",
        ),
        (
            Utf16PairError::Incomplete,
            "a trailing surrogate was expected when the end was reached",
        ),
    ] {
        reads(&rt, rt.alloc(), &error, error.description(), text)?;
    }
    Ok(())
}

#[test]
fn scalars_have_their_texts(rt: HostRuntime) -> Result<(), Fail> {
    let (ascii, bmp, empty) = (NonAsciiError, NonBmpError, EmptyStrError);
    reads(
        &rt,
        rt.alloc(),
        &ascii,
        ascii.description(),
        "not an ASCII character",
    )?;
    reads(
        &rt,
        rt.alloc(),
        &bmp,
        bmp.description(),
        "not a codepoint in the basic multilingual plane",
    )?;
    reads(&rt, rt.alloc(), &empty, empty.description(), "is empty")?;
    for (error, text) in [
        (
            CodepointError::Utf16Reserved,
            "is reserved for UTF-16 surrogate pairs",
        ),
        (
            CodepointError::TooHigh,
            "is higher than the highest codepoint",
        ),
    ] {
        reads(&rt, rt.alloc(), &error, error.description(), text)?;
    }
    for (error, text) in [
        (
            FromStrError::MultipleCodepoints,
            "contains more than one codepoint",
        ),
        (FromStrError::Empty, "is empty"),
    ] {
        reads(&rt, rt.alloc(), &error, error.description(), text)?;
    }
    Ok(())
}

#[test]
fn bytes_have_their_texts(rt: HostRuntime) -> Result<(), Fail> {
    for (kind, text) in [
        (Utf8ErrorKind::TooFewBytes, "too few bytes"),
        (Utf8ErrorKind::NonUtf8Byte, "not UTF-8"),
        (Utf8ErrorKind::UnexpectedContinuationByte, "not UTF-8"),
        (Utf8ErrorKind::InterruptedSequence, "not UTF-8"),
        (Utf8ErrorKind::OverlongEncoding, "malformed input"),
        (Utf8ErrorKind::Utf16ReservedCodepoint, "malformed input"),
        (Utf8ErrorKind::TooHighCodepoint, "invalid character"),
    ] {
        let error = Utf8Error::new(kind);
        reads(&rt, rt.alloc(), &error, error.description(), text)?;
        assert_eq!(rt; error.kind(), kind);
    }
    Ok(())
}

#[test]
fn kinds_are_compared(rt: HostRuntime) {
    let error = Utf8Error::new(Utf8ErrorKind::OverlongEncoding);
    for (kind, same) in [
        (Utf8ErrorKind::OverlongEncoding, true),
        (Utf8ErrorKind::Utf16ReservedCodepoint, false),
    ] {
        assert_eq!(rt; error.is_kind(kind), same, "{kind:?}");
        assert_eq!(rt; kind.is_kind_of(&error), same, "{kind:?}");
    }
}

#[test]
fn ranges_hold_what_is_refused(rt: HostRuntime) {
    for (error, first, last) in [
        (CodepointError::Utf16Reserved, 0xd800, 0xdfff),
        (CodepointError::TooHigh, 0x11_0000, u32::MAX),
    ] {
        let range = error.error_range();
        assert_eq!(rt; *range.start(), first, "{error:?}");
        assert_eq!(rt; *range.end(), last, "{error:?}");
        for number in [0, 0xd7ff, 0xe000, 0x10_ffff] {
            assert!(rt; !range.contains(&number), "{error:?} at {number}");
        }
    }
}
