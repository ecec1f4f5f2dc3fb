//! The rows of transcoded bytes, and the ways of feeding them that are compared with the rows.

use cuts::{Form, Recoder};
use fakes::rows::{bytes_of, wrong_row};
use std::alloc::{AllocError, Global};
use std::io;

/// The contents of a row: two encodings, some bytes in the first, and these bytes transcoded to the second.
#[derive(Drop)]
pub(crate) struct RecodedRow<'a> {
    /// The line as it is in the file.
    pub(crate) text: &'a str,
    from: Form,
    to: Form,
    bytes: Vec<u8>,
    recoded: Vec<u8>,
}

/// The rows of the file. A line that begins with `#` is a comment; any other has three columns with `|`
/// between them: the names of both encodings, with a space between them, the bytes, and what they are
/// transcoded to.
pub(crate) fn parse(alloc: Global, file: &str) -> io::Result<Vec<RecodedRow<'_>>> {
    let mut rows = Vec::new(alloc);
    for line in file.lines() {
        if !line.starts_with('#') {
            rows.push(parse_row(alloc, line)?)?;
        }
    }
    Ok(rows)
}

fn parse_row(alloc: Global, line: &str) -> io::Result<RecodedRow<'_>> {
    let mut columns = line.split('|');
    let (Some(forms), Some(bytes), Some(recoded)) = (columns.next(), columns.next(), columns.next())
    else {
        return Err(wrong_row());
    };
    let mut names = forms.split(' ');
    let (Some(from), Some(to)) = (names.next(), names.next()) else {
        return Err(wrong_row());
    };
    Ok(RecodedRow {
        text: line,
        from: form_of(from)?,
        to: form_of(to)?,
        bytes: bytes_of(alloc, bytes)?,
        recoded: bytes_of(alloc, recoded)?,
    })
}

/// The encoding of that name.
pub(crate) fn form_of(name: &str) -> io::Result<Form> {
    match name {
        "utf8" => Ok(Form::Utf8),
        "utf16le" => Ok(Form::Utf16Le),
        "utf16be" => Ok(Form::Utf16Be),
        _ => Err(wrong_row()),
    }
}

/// A way of feeding the bytes.
#[derive(Clone, Copy)]
pub(crate) enum Feeding {
    /// The whole input in one call.
    Whole,
    /// One byte a call.
    ByteByByte,
}

impl Feeding {
    pub(crate) fn name(self) -> &'static str {
        match self {
            Feeding::Whole => "recoder, fed at once",
            Feeding::ByteByByte => "recoder, fed byte by byte",
        }
    }

    /// Returns true if a recoder that is fed in this way writes what the row says.
    pub(crate) fn agrees(self, alloc: Global, row: &RecodedRow<'_>) -> Result<bool, AllocError> {
        let most = match self {
            Feeding::Whole => usize::MAX,
            Feeding::ByteByByte => 1,
        };
        let mut recoder = Recoder::new(row.from, row.to);
        let mut made = Vec::new(alloc);
        for part in row.bytes.as_slice().chunks(most) {
            recoder.feed(part, &mut made)?;
        }
        recoder.finish(&mut made)?;
        Ok(made.as_slice() == row.recoded.as_slice())
    }
}
