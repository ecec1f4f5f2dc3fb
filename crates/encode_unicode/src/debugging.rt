//! The output of `{:?}` for a type with fields.
//!
//! std's builders write the same, but their contracts do not specify it. They still write `{:#?}`, which no
//! contract specifies.
ghost use Rattle.std.specs.Prelude.{Some};
ghost use Rattle.std.specs.Fmt.{◌++?◌, DisplaysOnOk, debug_variant};
ghost use Rattle.encode_unicode.specs.DebugTexts.{debug_field, debug_fields};

use std::fmt;
use std::fmt::{Debug, Formatter, Write};

/// Writes a name, and the value in parentheses.
pub(crate) fn write_variant<T: Debug, W: Write>(
    f: &mut Formatter<W>,
    name: &str,
    value: &T,
) -> fmt::Result
    ensures { DisplaysOnOk W.write_str_gives f.old result
        (debug_variant name.now (T.debug_output value.now)) f.new }
{
    if f.alternate() {
        return f.debug_tuple(name).field(value).finish();
    }
    f.write_str(name)?;
    f.write_str("(")?;
    Debug::fmt(value, f)?;
    f.write_str(")")
}

/// Writes a name, and two named fields in braces.
pub(crate) fn write_fields<A: Debug, B: Debug, W: Write>(
    f: &mut Formatter<W>,
    name: &str,
    first: (&str, &A),
    second: (&str, &B),
) -> fmt::Result
    ensures { DisplaysOnOk W.write_str_gives f.old result
        (debug_fields name.now (debug_field first.entry.0.now (A.debug_output first.entry.1.now))
        (debug_field second.entry.0.now (B.debug_output second.entry.1.now)))
        f.new }
{
    if f.alternate() {
        return f
            .debug_struct(name)
            .field(first.0, first.1)
            .field(second.0, second.1)
            .finish();
    }
    f.write_str(name)?;
    write_field(f, " { ", first.0, first.1)?;
    write_field(f, ", ", second.0, second.1)?;
    f.write_str(" }")
}

// Writes the text before a field, its name and its value.
fn write_field<T: Debug, W: Write>(
    f: &mut Formatter<W>,
    before: &str,
    name: &str,
    value: &T,
) -> fmt::Result
    ensures { DisplaysOnOk W.write_str_gives f.old result
        (Some before.now ++? debug_field name.now (T.debug_output value.now)) f.new }
{
    f.write_str(before)?;
    f.write_str(name)?;
    f.write_str(": ")?;
    Debug::fmt(value, f)
}
