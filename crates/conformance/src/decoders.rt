//! The decoders and the mergers, and the calls that decode the ends of a slice.

use crate::answers::{Asked, no_call, numbers_of};
use crate::parts::{faults_of, unit_faults_of};
use cuts::{
    char_count, fault_count, form_of_bom, number_of, offset_of, unit_char_count, unit_number_of,
    unit_offset_of,
};
use encode_unicode::iterator::{
    Utf8CharDecoder, Utf8CharMerger, Utf16CharDecoder, Utf16CharMerger,
};
use encode_unicode::{CharExt, Utf8Char, Utf16Char};
use std::alloc::{AllocError, Global};
use std::iter::Copied;
use std::slice::Iter;

/// Bytes, by the calls that decode one character of them.
#[derive(Drop)]
pub(crate) struct BytesAtEnds<'a> {
    pub(crate) bytes: &'a [u8],
}

impl<'a> BytesAtEnds<'a> {
    // The calls that count or list pieces.
    fn counted(&self, alloc: Global, call: &str) -> Result<String, AllocError> {
        let bytes = self.bytes;
        let (name, first, second) = numbers_of(call);
        match name {
            "offset_of" => format!(in alloc; "{:?}", offset_of(bytes, first)),
            "number_of" => format!(in alloc; "{}", number_of(bytes, first)),
            "char_count" => format!(in alloc; "{}", char_count(bytes)),
            "fault_count" => format!(in alloc; "{}", fault_count(bytes)),
            "faults_into" => faults_of(alloc, bytes, first, second),
            _ => no_call(alloc, call),
        }
    }
}

impl<'a> Asked for BytesAtEnds<'a> {
    fn answer(&mut self, alloc: Global, call: &str) -> Result<String, AllocError> {
        let four = self.bytes.first_chunk().copied().unwrap_or([0; 4]);
        match call {
            "char::from_utf8_slice_start" => {
                format!(in alloc; "{:?}", char::from_utf8_slice_start(self.bytes))
            }
            "char::from_utf8_array" => format!(in alloc; "{:?}", char::from_utf8_array(four)),
            "from_slice_start" => format!(in alloc; "{:?}", Utf8Char::from_slice_start(self.bytes)),
            "from_slice_end" => format!(in alloc; "{:?}", Utf8Char::from_slice_end(self.bytes)),
            "from_array" => format!(in alloc; "{:?}", Utf8Char::from_array(four)),
            "kept" => {
                let kept = Utf8Char::from_array(four).map(|c| c.to_array());
                format!(in alloc; "{kept:?}")
            }
            "form_of_bom" => format!(in alloc; "{:?}", form_of_bom(self.bytes)),
            _ => self.counted(alloc, call),
        }
    }
}

/// Units, by the calls that decode one character of them.
#[derive(Drop)]
pub(crate) struct UnitsAtEnds<'a> {
    pub(crate) units: &'a [u16],
}

impl<'a> UnitsAtEnds<'a> {
    fn two(&self) -> [u16; 2] {
        self.units.first_chunk().copied().unwrap_or([0; 2])
    }

    // The calls that count or list pieces.
    fn counted(&self, alloc: Global, call: &str) -> Result<String, AllocError> {
        let units = self.units;
        let (name, first, second) = numbers_of(call);
        match name {
            "offset_of" => format!(in alloc; "{:?}", unit_offset_of(units, first)),
            "number_of" => format!(in alloc; "{}", unit_number_of(units, first)),
            "char_count" => format!(in alloc; "{}", unit_char_count(units)),
            "faults_into" => unit_faults_of(alloc, units, first, second),
            _ => no_call(alloc, call),
        }
    }

    fn tuple(&self) -> (u16, Option<u16>) {
        let first = self.units.first().copied().unwrap_or(0);
        (first, self.units.get(1).copied())
    }
}

impl<'a> Asked for UnitsAtEnds<'a> {
    fn answer(&mut self, alloc: Global, call: &str) -> Result<String, AllocError> {
        match call {
            "char::from_utf16_slice_start" => {
                format!(in alloc; "{:?}", char::from_utf16_slice_start(self.units))
            }
            "char::from_utf16_array" => {
                format!(in alloc; "{:?}", char::from_utf16_array(self.two()))
            }
            "char::from_utf16_tuple" => {
                format!(in alloc; "{:?}", char::from_utf16_tuple(self.tuple()))
            }
            "from_slice_start" => {
                format!(in alloc; "{:?}", Utf16Char::from_slice_start(self.units))
            }
            "from_slice_end" => format!(in alloc; "{:?}", Utf16Char::from_slice_end(self.units)),
            "from_array" => format!(in alloc; "{:?}", Utf16Char::from_array(self.two())),
            "from_tuple" => format!(in alloc; "{:?}", Utf16Char::from_tuple(self.tuple())),
            "kept" => {
                let kept = Utf16Char::from_array(self.two()).map(|c| c.to_array());
                format!(in alloc; "{kept:?}")
            }
            _ => self.counted(alloc, call),
        }
    }
}

impl<'a> Asked for Utf8CharDecoder<'a> {
    fn answer(&mut self, alloc: Global, call: &str) -> Result<String, AllocError> {
        match call {
            "next" => format!(in alloc; "{:?}", self.next()),
            "next_back" => format!(in alloc; "{:?}", self.next_back()),
            "size_hint" => format!(in alloc; "{:?}", self.size_hint()),
            "as_slice" => format!(in alloc; "{:?}", self.as_slice()),
            "count" => format!(in alloc; "{}", self.clone()?.count()),
            "debug" => format!(in alloc; "{self:?}"),
            _ => no_call(alloc, call),
        }
    }
}

impl<'a> Asked for Utf16CharDecoder<'a> {
    fn answer(&mut self, alloc: Global, call: &str) -> Result<String, AllocError> {
        match call {
            "next" => format!(in alloc; "{:?}", self.next()),
            "next_back" => format!(in alloc; "{:?}", self.next_back()),
            "next().is_some()" => format!(in alloc; "{}", self.next().is_some()),
            "size_hint" => format!(in alloc; "{:?}", self.size_hint()),
            "as_slice" => format!(in alloc; "{:?}", self.as_slice()),
            "count" => format!(in alloc; "{}", self.clone()?.count()),
            "debug" => format!(in alloc; "{self:?}"),
            _ => no_call(alloc, call),
        }
    }
}

// What precedes the source in what a merger shows.
fn without_source(alloc: Global, shown: &str) -> Result<String, AllocError> {
    String::from_str(alloc, shown.split(", inner: ").next().unwrap_or(""))
}

impl<'a> Asked for Utf8CharMerger<Copied<Iter<'a, u8>>> {
    fn answer(&mut self, alloc: Global, call: &str) -> Result<String, AllocError> {
        match call {
            "next" => format!(in alloc; "{:?}", self.next()),
            "size_hint" => format!(in alloc; "{:?}", self.size_hint()),
            "into_inner" => format!(in alloc; "{:?}", self.clone()?.into_inner().next()),
            "into_remaining_bytes" => {
                let rest = self.clone()?.into_remaining_bytes();
                let hint = rest.size_hint();
                let bytes = Vec::from_iter(alloc, rest)?;
                format!(in alloc; "{hint:?} {bytes:?}")
            }
            "debug" => without_source(alloc, &format!(in alloc; "{self:?}")?),
            _ => no_call(alloc, call),
        }
    }
}

impl<'a> Asked for Utf16CharMerger<Copied<Iter<'a, u16>>> {
    fn answer(&mut self, alloc: Global, call: &str) -> Result<String, AllocError> {
        match call {
            "next" => format!(in alloc; "{:?}", self.next()),
            "size_hint" => format!(in alloc; "{:?}", self.size_hint()),
            "into_inner" => format!(in alloc; "{:?}", self.clone()?.into_inner().next()),
            "into_remaining_units" => {
                let rest = self.clone()?.into_remaining_units();
                let hint = rest.size_hint();
                let units = Vec::from_iter(alloc, rest)?;
                format!(in alloc; "{hint:?} {units:?}")
            }
            "debug" => without_source(alloc, &format!(in alloc; "{self:?}")?),
            _ => no_call(alloc, call),
        }
    }
}
