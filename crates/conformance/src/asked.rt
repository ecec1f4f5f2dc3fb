//! Rows of calls: what they are made on, which calls, and what each has to return.

use crate::answers::Asked;
use crate::characters::{Character, Number, TextOfOne};
use crate::decoders::{BytesAtEnds, UnitsAtEnds};
use crate::parts::{Encoded, Parts};
use crate::recodings::form_of;
use crate::texts::{BytesOf, CharactersOf, CodeOfOne, UnitsOf};
use encode_unicode::{
    StrExt, U8IterExt, U8SliceExt, U16IterExt, U16SliceExt, Utf8CharIterExt, Utf16CharIterExt,
};
use fakes::rows::{bytes_of, units_of, wrong_row};
use std::alloc::{AllocError, Global};
use std::io;

/// The contents of a row: a kind of value, its input, the calls and their results.
#[derive(Drop)]
pub(crate) struct CallRow<'a> {
    /// The line as it is in the file.
    pub(crate) text: &'a str,
    asked: &'a str,
    input: &'a str,
    calls: &'a str,
    answers: &'a str,
}

/// The rows of the file. A line that begins with `#` is a comment; any other has four columns with ` | `
/// between them: the kind of value, its input, the calls with spaces between them, and the results with ` ; `
/// between them.
pub(crate) fn parse(alloc: Global, file: &str) -> io::Result<Vec<CallRow<'_>>> {
    let mut rows = Vec::new(alloc);
    for line in file.lines() {
        if !line.starts_with('#') {
            rows.push(parse_row(line)?)?;
        }
    }
    Ok(rows)
}

fn parse_row(line: &str) -> io::Result<CallRow<'_>> {
    let mut columns = line.split(" | ");
    let (Some(asked), Some(input)) = (columns.next(), columns.next()) else {
        return Err(wrong_row());
    };
    let (Some(calls), Some(answers)) = (columns.next(), columns.next()) else {
        return Err(wrong_row());
    };
    Ok(CallRow {
        text: line,
        asked,
        input,
        calls,
        answers,
    })
}

impl<'a> CallRow<'a> {
    /// Returns true if each call returns what the row says.
    pub(crate) fn agrees(&self, alloc: Global) -> io::Result<bool> {
        match self.asked {
            "bytes" | "decoder" | "merger" => self.bytes_agree(alloc),
            "units" | "decoder of units" | "merger of units" => self.units_agree(alloc),
            "bytes of a list" | "units of a list" => self.list_agrees(alloc),
            "number" => self.number_agrees(alloc),
            "character" => self.character_agrees(alloc),
            "parts" => Ok(self.holds(alloc, Parts::parse(alloc, self.input)?)?),
            "utf8" | "utf16le" | "utf16be" => self.encoded_agree(alloc),
            _ => self.text_agrees(alloc),
        }
    }

    fn bytes_agree(&self, alloc: Global) -> io::Result<bool> {
        let bytes = bytes_of(alloc, self.input)?;
        let bytes = bytes.as_slice();
        Ok(match self.asked {
            "bytes" => self.holds(alloc, BytesAtEnds { bytes })?,
            "decoder" => self.holds(alloc, bytes.utf8char_indices())?,
            _ => self.holds(alloc, bytes.iter().copied().to_utf8chars())?,
        })
    }

    fn encoded_agree(&self, alloc: Global) -> io::Result<bool> {
        let bytes = bytes_of(alloc, self.input)?;
        let encoded = Encoded {
            form: form_of(self.asked)?,
            bytes: bytes.as_slice(),
        };
        Ok(self.holds(alloc, encoded)?)
    }

    fn units_agree(&self, alloc: Global) -> io::Result<bool> {
        let units = units_of(alloc, self.input)?;
        let units = units.as_slice();
        Ok(match self.asked {
            "units" => self.holds(alloc, UnitsAtEnds { units })?,
            "decoder of units" => self.holds(alloc, units.utf16char_indices())?,
            _ => self.holds(alloc, units.iter().copied().to_utf16chars())?,
        })
    }

    fn list_agrees(&self, alloc: Global) -> io::Result<bool> {
        let chars = Vec::from_iter(alloc, self.input.utf8chars())?;
        let unit_chars = Vec::from_iter(alloc, self.input.utf16chars())?;
        Ok(match self.asked {
            "bytes of a list" => self.holds(alloc, chars.iter().copied().to_bytes())?,
            _ => self.holds(alloc, unit_chars.iter().copied().to_units())?,
        })
    }

    // A number, or a range of numbers that all have the same results.
    fn number_agrees(&self, alloc: Global) -> io::Result<bool> {
        let (lowest, highest) = match self.input.split_once('-') {
            Some((lowest, highest)) => (number_of(lowest)?, number_of(highest)?),
            None => (number_of(self.input)?, number_of(self.input)?),
        };
        for number in lowest..=highest {
            if !self.holds(alloc, Number { number })? {
                return Ok(false);
            }
        }
        Ok(true)
    }

    fn character_agrees(&self, alloc: Global) -> io::Result<bool> {
        match char::from_u32(number_of(self.input)?) {
            Some(c) => Ok(self.holds(alloc, Character { c })?),
            None => Err(wrong_row()),
        }
    }

    fn text_agrees(&self, alloc: Global) -> io::Result<bool> {
        let text = self.input;
        Ok(match self.asked {
            "text" => self.holds(alloc, TextOfOne { text })?,
            "code" => self.holds(alloc, CodeOfOne::new(text))?,
            "characters" => self.holds(alloc, CharactersOf::new(text))?,
            "bytes of a text" => self.holds(alloc, BytesOf::new(text))?,
            "units of a text" => self.holds(alloc, UnitsOf::new(text))?,
            _ => return Err(wrong_row()),
        })
    }

    // Returns true if the calls on the value return the row's results.
    fn holds<A: Asked + Drop>(&self, alloc: Global, asked: A) -> Result<bool, AllocError> {
        let mut asked = asked;
        let mut answers = self.answers.split(" ; ");
        for call in self.calls.split(' ') {
            let answer = asked.answer(alloc, call)?;
            if answers.next() != Some(answer.as_str()) {
                return Ok(false);
            }
        }
        Ok(answers.next().is_none())
    }
}

fn number_of(digits: &str) -> io::Result<u32> {
    u32::from_str_radix(digits, 16).map_err(|_| wrong_row())
}
