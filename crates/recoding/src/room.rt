//! The free part of a slice.
ghost use Rattle.std.specs.Prelude.{◌≡◌, ◌≤◌, length};

use crate::block_output::BlockOutput;
use crate::fills::{lay_byte, lay_wide, put_all};
use crate::output::Output;
use crate::utf8_to_utf16::widen_text;
use crate::utf16_to_utf8::write_blocks;
use std::simd::prelude::*;
use utf_lanes::byte_order::ByteOrder;
use utf_lanes::utf16_blocks::write_text_units;

// A slice whose first bytes are written.
#[derive(Drop)]
pub(crate) struct Room<'a> {
    pub(crate) bytes: &'a mut [u8],
    pub(crate) len: usize,
    ghost within: { len ≤ length bytes.now },
}

impl<'a> Room<'a> {
    // The slice, with its first `len` bytes written.
    #[inline(always)]
    pub(crate) fn new(bytes: &'a mut [u8], len: usize) -> Room<'a>
        requires { len ≤ length bytes.old }
        ensures same_reference { result.bytes.ghost_name ≡ bytes.entry.ghost_name }
        ensures bytes { result.bytes.now ≡ bytes.old }
        ensures len { result.len ≡ len }
    {
        Room { bytes, len }
    }
}

impl Output for Room<'_> {
    ghost use Rattle.std.specs.Prelude.{◌-◌, length};
    ghost use Rattle.recoding.specs.FilledRooms.{FillsRoom, FillsRoom-none, FillsRoom-more, FillsRoom-room};

    ghost room = { λ r. length r.bytes.now - r.len };

    ghost appends = { FillsRoom };

    ghost appends_none = { FillsRoom-none };

    ghost appends_more = { FillsRoom-more };

    ghost appends_room = { FillsRoom-room };

    #[inline(always)]
    fn room(&self) -> usize {
        self.bytes.len() - self.len
    }

    #[inline(always)]
    fn put(&mut self, bytes: &[u8]) {
        self.len = put_all(bytes, self.bytes, self.len);
    }

    #[inline(always)]
    fn put_byte(&mut self, byte: u8) {
        self.len = lay_byte(byte, self.bytes, self.len);
    }

    #[inline(always)]
    fn put_wide(&mut self, block: u8x64) {
        self.len = lay_wide(block, self.bytes, self.len);
    }
}

impl BlockOutput for Room<'_> {
    #[inline(always)]
    fn put_units<E: ByteOrder>(&mut self, text: &[u8]) {
        self.len = widen_text::<E>(text, self.bytes, self.len);
    }

    #[inline(always)]
    fn put_blocks<E: ByteOrder>(&mut self, bytes: &[u8]) -> usize {
        let (read, end) = write_blocks::<E>(bytes, self.bytes, self.len);
        self.len = end;
        read
    }

    #[inline(always)]
    fn put_text_units(&mut self, low: u8x32, high: u8x32, count: usize) {
        self.len = write_text_units(low, high, count, self.bytes, self.len);
    }
}
