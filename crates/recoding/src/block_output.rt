//! Outputs for blocks of units and of text.
ghost use Rattle.std.specs.Prelude.{◌+◌, ◌*◌, ◌≤◌, length};
ghost use Rattle.recoding.specs.NextScalars.{utf16_form};
ghost use Rattle.recoding.specs.Strict.{PutsText};
ghost use Rattle.recoding.specs.declared.form.Form.TheVariants.{Utf8};
ghost use Rattle.utf_lanes.specs.UnitCodes.{code_at, lane_unit};
ghost use Rattle.utf_lanes.specs.UnitMending.{AreTextUnits};
ghost use Rattle.utf_lanes.specs.Utf8ToUtf16.{concat_range, utf16_bytes};

use crate::output::Output;
use std::simd::prelude::*;
use utf_lanes::byte_order::ByteOrder;

// An output into which blocks converted between UTF-8 and UTF-16 are written in place.
pub(crate) trait BlockOutput: Output {
    // Appends the units of the offsets of some text. Full vectors are stored, so up to 32 bytes of the capacity after
    // the units may be overwritten.
    fn put_units<E: ByteOrder>(&mut self, text: &[u8])
        requires long { 19 ≤ length text.now }
        requires room { 2 * length text.now + 32 ≤ Self.room self.old }
        ensures { Self.appends self.old (utf16_bytes E.HIGH_FIRST text.now 0 (length text.now)) self.new };

    // Transcodes the blocks of units at the front of the bytes to UTF-8, as far as they have no fault and the
    // worst-case output fits. Returns the length of the blocks in bytes.
    fn put_blocks<E: ByteOrder>(&mut self, bytes: &[u8]) -> usize
        ensures { PutsText Self.appends (utf16_form E.HIGH_FIRST) Utf8 bytes.now self.old self.new result };

    // Appends the UTF-8 of the first of 32 units, which are text: all, or all but a leading surrogate at the end. Two
    // vectors have the halves of the units.
    fn put_text_units(&mut self, low: u8x32, high: u8x32, count: usize)
        requires text { AreTextUnits low high count }
        requires room { 112 ≤ Self.room self.old }
        ensures { Self.appends self.old (concat_range (code_at (lane_unit low high)) 0 count) self.new };
}
