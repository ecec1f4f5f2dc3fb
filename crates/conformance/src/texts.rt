//! The characters of a text or a list, and their codes, one by one.

use crate::answers::{Asked, no_call};
use encode_unicode::iterator::{
    Utf8CharIndices, Utf8CharSplitter, Utf8Chars, Utf8Iterator, Utf16CharIndices,
    Utf16CharSplitter, Utf16Chars, Utf16Iterator,
};
use encode_unicode::{CharExt, StrExt, Utf8Char, Utf8CharIterExt, Utf16Char, Utf16CharIterExt};
use std::alloc::{AllocError, Global};
use std::io::Read;
use std::iter::Copied;
use std::slice::Iter;

/// The four iterators of a text: each call goes to all of them.
#[derive(Drop)]
pub(crate) struct CharactersOf<'a> {
    indices: Utf8CharIndices<'a>,
    chars: Utf8Chars<'a>,
    unit_indices: Utf16CharIndices<'a>,
    unit_chars: Utf16Chars<'a>,
}

impl<'a> CharactersOf<'a> {
    pub(crate) fn new(text: &'a str) -> CharactersOf<'a> {
        CharactersOf {
            indices: text.utf8char_indices(),
            chars: text.utf8chars(),
            unit_indices: text.utf16char_indices(),
            unit_chars: text.utf16chars(),
        }
    }
}

impl<'a> Asked for CharactersOf<'a> {
    fn answer(&mut self, alloc: Global, call: &str) -> Result<String, AllocError> {
        match call {
            "next" => {
                let bytes = (self.indices.next(), self.chars.next());
                let units = (self.unit_indices.next(), self.unit_chars.next());
                format!(in alloc; "{bytes:?} {units:?}")
            }
            "next_back" => {
                let bytes = (self.indices.next_back(), self.chars.next_back());
                let units = (self.unit_indices.next_back(), self.unit_chars.next_back());
                format!(in alloc; "{bytes:?} {units:?}")
            }
            "size_hint" => {
                let bytes = (self.indices.size_hint(), self.chars.size_hint());
                let units = (self.unit_indices.size_hint(), self.unit_chars.size_hint());
                format!(in alloc; "{bytes:?} {units:?}")
            }
            "as_str" => {
                let bytes = (self.indices.as_str(), self.chars.as_str());
                let units = (self.unit_indices.as_str(), self.unit_chars.as_str());
                format!(in alloc; "{bytes:?} {units:?}")
            }
            "debug" => {
                let CharactersOf {
                    indices,
                    chars,
                    unit_indices,
                    unit_chars,
                } = self;
                format!(in alloc; "{indices:?} {chars:?} {unit_indices:?} {unit_chars:?}")
            }
            _ => no_call(alloc, call),
        }
    }
}

/// The code of the first character of a text in both encodings.
#[derive(Drop)]
pub(crate) struct CodeOfOne {
    bytes: Utf8Iterator,
    units: Utf16Iterator,
}

impl CodeOfOne {
    pub(crate) fn new(text: &str) -> CodeOfOne {
        let c = text.chars().next().unwrap_or('\0');
        CodeOfOne {
            bytes: c.iter_utf8_bytes(),
            units: c.iter_utf16_units(),
        }
    }
}

impl Asked for CodeOfOne {
    fn answer(&mut self, alloc: Global, call: &str) -> Result<String, AllocError> {
        match call {
            "next" => {
                let (byte, unit) = (self.bytes.next(), self.units.next());
                format!(in alloc; "{byte:?} {unit:?}")
            }
            "size_hint" => {
                let (bytes, units) = (self.bytes.size_hint(), self.units.size_hint());
                format!(in alloc; "{bytes:?} {units:?}")
            }
            "len" => format!(in alloc; "{} {}", self.bytes.len(), self.units.len()),
            "debug" => format!(in alloc; "{:?} {:?}", self.bytes, self.units),
            _ => {
                let mut places = [0x45; 9];
                let Some(room) = room_of(call, &mut places) else {
                    return no_call(alloc, call);
                };
                let count = self.bytes.read(room).ok();
                format!(in alloc; "{count:?} {places:?}")
            }
        }
    }
}

// The buffer that a call `read-N` is given: the first N bytes.
fn room_of<'a>(call: &str, places: &'a mut [u8; 9]) -> Option<&'a mut [u8]> {
    let digits = call.strip_prefix("read-")?;
    places.get_mut(..digits.parse().ok()?)
}

/// The bytes of the characters of a text.
#[derive(Drop)]
pub(crate) struct BytesOf<'a> {
    splitter: Utf8CharSplitter<Utf8Chars<'a>>,
}

impl<'a> BytesOf<'a> {
    pub(crate) fn new(text: &'a str) -> BytesOf<'a> {
        BytesOf {
            splitter: text.utf8chars().to_bytes(),
        }
    }
}

impl<'a> Asked for BytesOf<'a> {
    fn answer(&mut self, alloc: Global, call: &str) -> Result<String, AllocError> {
        match call {
            "next" => format!(in alloc; "{:?}", self.splitter.next()),
            "size_hint" => format!(in alloc; "{:?}", self.splitter.size_hint()),
            "into_inner" => {
                let source = self.splitter.clone()?.into_inner();
                format!(in alloc; "{:?}", source.as_str())
            }
            _ => {
                let mut places = [0x45; 9];
                let Some(room) = room_of(call, &mut places) else {
                    return no_call(alloc, call);
                };
                let count = self.splitter.read(room).ok();
                format!(in alloc; "{count:?} {places:?}")
            }
        }
    }
}

/// The units of the characters of a text.
#[derive(Drop)]
pub(crate) struct UnitsOf<'a> {
    splitter: Utf16CharSplitter<Utf16Chars<'a>>,
}

impl<'a> UnitsOf<'a> {
    pub(crate) fn new(text: &'a str) -> UnitsOf<'a> {
        UnitsOf {
            splitter: text.utf16chars().to_units(),
        }
    }
}

impl<'a> Asked for UnitsOf<'a> {
    fn answer(&mut self, alloc: Global, call: &str) -> Result<String, AllocError> {
        match call {
            "next" => format!(in alloc; "{:?}", self.splitter.next()),
            "size_hint" => format!(in alloc; "{:?}", self.splitter.size_hint()),
            "into_inner" => {
                let source = self.splitter.clone()?.into_inner();
                format!(in alloc; "{:?}", source.as_str())
            }
            _ => no_call(alloc, call),
        }
    }
}

// The bytes of the characters of a list, whose source says exactly how many come.
impl<'a> Asked for Utf8CharSplitter<Copied<Iter<'a, Utf8Char>>> {
    fn answer(&mut self, alloc: Global, call: &str) -> Result<String, AllocError> {
        match call {
            "next" => format!(in alloc; "{:?}", self.next()),
            "size_hint" => format!(in alloc; "{:?}", self.size_hint()),
            _ => {
                let mut places = [0x45; 9];
                let Some(room) = room_of(call, &mut places) else {
                    return no_call(alloc, call);
                };
                let count = self.read(room).ok();
                format!(in alloc; "{count:?} {places:?}")
            }
        }
    }
}

// The units of the characters of a list.
impl<'a> Asked for Utf16CharSplitter<Copied<Iter<'a, Utf16Char>>> {
    fn answer(&mut self, alloc: Global, call: &str) -> Result<String, AllocError> {
        match call {
            "next" => format!(in alloc; "{:?}", self.next()),
            "size_hint" => format!(in alloc; "{:?}", self.size_hint()),
            _ => no_call(alloc, call),
        }
    }
}
