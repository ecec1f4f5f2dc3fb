//! Input in parts, and bytes in any encoding.

use crate::answers::{Asked, no_call, numbers_of};
use crate::recodings::form_of;
use cuts::{
    Decoder, Fed, Form, LocatedPiece, changed_range, faults_into, forms, undecided_len,
    unit_faults_into,
};
use fakes::rows::{bytes_of, wrong_row};
use std::alloc::{AllocError, Global};
use std::io;

/// A buffer for three pieces.
pub(crate) fn empty() -> [LocatedPiece; 3] {
    let piece = LocatedPiece {
        offset: 0,
        len: 0,
        answer: Ok('\0'),
    };
    [piece; 3]
}

/// What a call has read and written, and the pieces that it wrote.
pub(crate) fn written(
    alloc: Global,
    fed: Fed,
    room: &[LocatedPiece],
) -> Result<String, AllocError> {
    let pieces = room.get(..fed.written).unwrap_or(&[]);
    format!(in alloc; "{fed:?} {pieces:?}")
}

/// The faults of bytes at an offset, for `size` pieces.
pub(crate) fn faults_of(
    alloc: Global,
    bytes: &[u8],
    offset: usize,
    size: usize,
) -> Result<String, AllocError> {
    let mut room = empty();
    let fed = faults_into(bytes, offset as u64, &mut room[..size.min(3)]);
    written(alloc, fed, &room)
}

/// The faults of units at an offset, for `size` pieces.
pub(crate) fn unit_faults_of(
    alloc: Global,
    units: &[u16],
    offset: usize,
    size: usize,
) -> Result<String, AllocError> {
    let mut room = empty();
    let fed = unit_faults_into(units, offset as u64, &mut room[..size.min(3)]);
    written(alloc, fed, &room)
}

/// A decoder of input in parts. `feed-2-e282` feeds bytes into a buffer for two pieces.
#[derive(Drop)]
pub(crate) struct Parts {
    decoder: Decoder,
}

impl Parts {
    /// A new decoder, as `utf8`, or one that carries over bytes at an offset, as `utf8 16 e282`.
    pub(crate) fn parse(alloc: Global, input: &str) -> io::Result<Parts> {
        let mut words = input.split(' ');
        let form = form_of(words.next().unwrap_or(""))?;
        let Some(offset) = words.next() else {
            return Ok(Parts {
                decoder: Decoder::new(form),
            });
        };
        let offset = offset.parse::<u64>().map_err(|_| wrong_row())?;
        let held = bytes_of(alloc, words.next().unwrap_or(""))?;
        if held.len() > 3 {
            return Err(wrong_row());
        }
        Ok(Parts {
            decoder: Decoder::holding(form, &held, offset),
        })
    }

    // What a call with a buffer has done.
    fn fed(&mut self, alloc: Global, call: &str, part: &[u8]) -> Result<String, AllocError> {
        let (name, size, _) = numbers_of(call);
        let mut pieces = empty();
        let room = &mut pieces[..size.min(3)];
        let fed = match name {
            "feed" => self.decoder.feed(part, room),
            "feed_faults" => self.decoder.feed_faults(part, room),
            "finish" => self.decoder.finish(room),
            "finish_faults" => self.decoder.finish_faults(room),
            _ => return no_call(alloc, call),
        };
        written(alloc, fed, &pieces)
    }
}

impl Asked for Parts {
    fn answer(&mut self, alloc: Global, call: &str) -> Result<String, AllocError> {
        match call {
            "held" => format!(in alloc; "{:?}", self.decoder.held()),
            "offset" => format!(in alloc; "{}", self.decoder.offset()),
            _ => match bytes_of(alloc, call.split('-').nth(2).unwrap_or("")) {
                Ok(part) => self.fed(alloc, call, &part),
                Err(_) => no_call(alloc, call),
            },
        }
    }
}

/// Bytes in an encoding.
#[derive(Drop)]
pub(crate) struct Encoded<'a> {
    pub(crate) form: Form,
    pub(crate) bytes: &'a [u8],
}

impl<'a> Asked for Encoded<'a> {
    fn answer(&mut self, alloc: Global, call: &str) -> Result<String, AllocError> {
        let (form, bytes) = (self.form, self.bytes);
        let (name, first, second) = numbers_of(call);
        match name {
            "undecided_len" => format!(in alloc; "{}", undecided_len(form, bytes)),
            "char_count" => format!(in alloc; "{}", forms::char_count(form, bytes)),
            "valid_up_to" => format!(in alloc; "{}", forms::valid_up_to(form, bytes)),
            "offset_of" => format!(in alloc; "{:?}", forms::offset_of(form, bytes, first)),
            "number_of" => format!(in alloc; "{}", forms::number_of(form, bytes, first)),
            "changed_range" => {
                format!(in alloc; "{:?}", changed_range(form, bytes, first, second))
            }
            _ => no_call(alloc, call),
        }
    }
}
